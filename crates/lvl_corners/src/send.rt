//! The corners of what rings cover, sent to a sink one at a time.
ghost use Rattle.std.specs.Prelude.{◌+ℤ◌, ℤ, List, OnOk, IfOk, FitsSigned, All};
ghost use Rattle.std.specs.Int.{w8, w128};
ghost use Rattle.lvl_grid.specs.Winding.{SomeCovers};
ghost use Rattle.lvl_corners.specs.declared.corner.Corner.{Corner as GridCorner};
ghost use Rattle.lvl_corners.specs.Corners.{FitsCorner};
ghost use Rattle.lvl_corners.specs.inside.Marks.{net, change_of, AreInOrder};
ghost use Rattle.lvl_corners.specs.Spans.{AreCornersIn};
ghost use Rattle.lvl_corners.specs.inside.Sums.{IsAt, Steps, AreTotals};

use crate::bands::marks_of;
use crate::mark::Mark;
use crate::sink::CornerSink;
use crate::span::Span;
use crate::sum::Sum;
use lvl_grid::RingList;
use std::alloc::{AllocError, Global};

/// Adds the next mark to the sum. If it is at another point, first sends the corner of the sum, and
/// then begins a new sum.
fn step<S: CornerSink>(sum: Sum, mark: Mark, sink: &mut S) -> Result<Sum, AllocError>
    requires small { ¬ IsAt sum mark → FitsSigned w8 sum.change }
    requires few { IsAt sum mark → FitsSigned w128 (sum.change +ℤ change_of mark) }
    ensures { IfOk result (λ next. (sent : List GridCorner)
        × S.takes sink.old sink.new sent
        × All FitsCorner sent
        × Steps sum mark next sent) }
{
    if sum.is_at(mark) {
        return Ok(sum.with(mark));
    }
    sum.send(sink)?;
    Ok(Sum::of(mark))
}

/// Sends a corner for each point at which the sum of the changes of the marks isn't 0.
pub(crate) fn send_sums<S: CornerSink>(marks: &[Mark], sink: &mut S) -> Result<(), AllocError>
    requires order { AreInOrder marks.now }
    requires small { (x y : ℤ) → FitsSigned w8 (net x y marks.now) }
    ensures { OnOk result ((sent : List GridCorner)
        × S.takes sink.old sink.new sent
        × All FitsCorner sent
        × AreTotals marks.now sent) }
{
    let Some(first) = marks.first() else {
        return Ok(());
    };
    let mut sum = Sum::at(*first);
    for mark in marks {
        sum = step(sum, *mark, sink)?;
    }
    sum.send(sink)?;
    Ok(())
}

/// Sends the corners of what the rings cover, at the abscissas of a span, to a sink, in order of
/// `x` and then `y`, by one sweep.
pub(crate) fn send_swept<R: RingList, S: CornerSink>(
    alloc: Global,
    rings: &R,
    span: Span,
    sink: &mut S,
) -> Result<(), AllocError>
    ensures { OnOk result ((corners : List GridCorner)
        × S.takes sink.old sink.new corners
        × All FitsCorner corners
        × AreCornersIn (SomeCovers (R.rings rings.now)) span corners) }
{
    let marks = marks_of(alloc, rings, span)?;
    send_sums(&marks, sink)?;
    Ok(())
}
