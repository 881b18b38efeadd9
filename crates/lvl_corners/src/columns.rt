//! The corners of what rings cover, column by column.
ghost use Rattle.std.specs.Prelude.{◌≡◌, ◌<◌, ◌≤◌, ◌+◌, ◌-◌, ◌*◌, ◌^◌, ◌<ℤ◌, negsuc, true, List, length};
ghost use Rattle.std.specs.Prelude.{flat_map};
ghost use Rattle.std.specs.Prelude.{OnOk, IfOk, IfSome, IsTrue, All, ◌↔◌};
ghost use Rattle.lvl_grid.specs.declared.point.Square.{Square as GridSquare};
ghost use Rattle.lvl_grid.specs.Clip.{IsIn};
ghost use Rattle.lvl_grid.specs.Winding.{SomeCovers};
ghost use Rattle.lvl_corners.specs.declared.corner.Corner.{Corner as GridCorner};
ghost use Rattle.lvl_corners.specs.Corners.{AreCornersOf, FitsCorner};
ghost use Rattle.lvl_corners.specs.Spans.{AreCornersIn, spanned};
ghost use Rattle.lvl_corners.specs.inside.Budgets.{KeepsBudget, paid};

use crate::cut::column_cut;
use crate::send::send_swept;
use crate::sink::CornerSink;
use crate::span::Span;
use lvl_grid::{Part, Rings};
use lvl_simplify::simplified;
use std::alloc::{AllocError, Global};

/// The number of columns that were made, and the greatest number that may be.
#[derive(Clone, Copy)]
pub struct ColumnBudget {
    pub made: u64,
    pub most: u64,
}

impl ColumnBudget {
    /// A budget of two columns for each point of the rings.
    fn of(rings: &Rings) -> ColumnBudget
        ensures none { result.made ≡ 0 }
        ensures most { result.most ≤ 2 * length (flat_map (λ ring. ring) rings.now) }
    {
        ColumnBudget {
            made: 0,
            most: (rings.points().len() as u64).saturating_mul(2),
        }
    }

    /// Whether two more columns may be made.
    fn has_two(&self) -> bool
        ensures { IsTrue result → self.now.made + 2 ≤ self.now.most }
    {
        self.made < self.most && self.most - self.made >= 2
    }
}

/// The greatest number of cuts, one within the other.
const DEPTH: u32 = 64;

/// The abscissa at which to cut the rings of a column that comes from `depth` cuts, one within the
/// other, or None if that doesn't pay or the budget doesn't allow it. It isn't the first abscissa
/// of the span, since the right half would then be as wide as the column.
fn cut_of(
    alloc: Global,
    rings: &Rings,
    span: &Span,
    depth: u32,
    budget: &mut ColumnBudget,
) -> Result<Option<i64>, AllocError>
    requires { budget.old.made ≤ budget.old.most }
    ensures within { IfOk result (λ cut. IfSome cut (λ at. spanned span.now at ≡ true)) }
    ensures inner { IfOk result (λ cut. IfSome cut (λ at. negsuc (2 ^ 63 - 1) <ℤ at)) }
    ensures depth { IfOk result (λ cut. IfSome cut (λ at. depth < 64)) }
    ensures budget { OnOk result (KeepsBudget budget.old budget.new) }
    ensures paid { IfOk result (λ cut. budget.new ≡ paid cut budget.old) }
{
    if depth >= DEPTH || !budget.has_two() {
        return Ok(None);
    }
    let Some(at) = column_cut(alloc, rings, depth)? else {
        return Ok(None);
    };
    if !span.has_around(at) {
        return Ok(None);
    }
    budget.made += 2;
    Ok(Some(at))
}

/// Five eighths of a number.
fn more_than_half(number: usize) -> usize {
    number / 2 + number / 8
}

/// The rings clipped to a part. There is room for somewhat more than half of them from the start,
/// since a list that grows leaves gaps in memory.
fn clipped(alloc: Global, rings: &Rings, part: &Part) -> Result<Rings, AllocError>
    ensures { IfOk result
        (λ clipped. (s : GridSquare) → SomeCovers clipped s ↔ (IsIn part.now s × SomeCovers rings.now s)) }
{
    let points = more_than_half(rings.points().len());
    let mut clipped = Rings::with_capacity(alloc, points, more_than_half(rings.len()))?;
    for i in 0..rings.len() {
        clipped.push_clipped(part, rings.ring(i))?;
    }
    Ok(clipped)
}

/// The rings clipped to a part, and simplified.
fn part_of(alloc: Global, rings: &Rings, part: &Part) -> Result<Rings, AllocError>
    ensures { IfOk result
        (λ clipped. (s : GridSquare) → SomeCovers clipped s ↔ (IsIn part.now s × SomeCovers rings.now s)) }
{
    simplified(alloc, clipped(alloc, rings, part)?)
}

/// Sends the corners of what the rings cover, at the abscissas of a span, to a sink, in order of
/// `x` and then `y`. The right half of a column that is cut is swept one square wider on the left,
/// since the change at a point depends on the squares to its left. `depth` is the number of cuts,
/// one within the other, that made the column. Its rings are freed as soon as they are cut.
fn send_column<S: CornerSink>(
    alloc: Global,
    rings: Rings,
    span: Span,
    depth: u32,
    budget: &mut ColumnBudget,
    sink: &mut S,
) -> Result<(), AllocError>
    requires { budget.old.made ≤ budget.old.most }
    ensures sent { OnOk result ((corners : List GridCorner)
        × S.takes sink.old sink.new corners
        × All FitsCorner corners
        × AreCornersIn (SomeCovers rings) span corners) }
    ensures budget { OnOk result (KeepsBudget budget.old budget.new) }
{
    let Some(at) = cut_of(alloc, &rings, &span, depth, budget)? else {
        return send_swept(alloc, &rings, span, sink);
    };
    let left = part_of(alloc, &rings, &Part::Left(at))?;
    let right = part_of(alloc, &rings, &Part::Right(at - 1))?;
    drop(rings);
    send_column(alloc, left, span.left_of(at), depth + 1, budget, sink)?;
    send_column(alloc, right, span.right_from(at), depth + 1, budget, sink)?;
    Ok(())
}

/// Sends the corners of what the rings cover in a part, at the abscissas of a span, as
/// [`send_column`] does. The rings are kept, and the part is clipped again for its right half: at
/// most the rings, the part, and half of it are in memory at a time.
fn send_part<S: CornerSink>(
    alloc: Global,
    rings: &Rings,
    part: &Part,
    span: Span,
    budget: &mut ColumnBudget,
    sink: &mut S,
) -> Result<(), AllocError>
    requires { budget.old.made ≤ budget.old.most }
    ensures sent { OnOk result ((corners : List GridCorner)
        × S.takes sink.old sink.new corners
        × All FitsCorner corners
        × AreCornersIn (λ s. IsIn part.now s × SomeCovers rings.now s) span corners) }
    ensures budget { OnOk result (KeepsBudget budget.old budget.new) }
{
    let column = part_of(alloc, rings, part)?;
    let Some(at) = cut_of(alloc, &column, &span, 1, budget)? else {
        return send_swept(alloc, &column, span, sink);
    };
    let left = part_of(alloc, &column, &Part::Left(at))?;
    drop(column);
    send_column(alloc, left, span.left_of(at), 2, budget, sink)?;
    let column = part_of(alloc, rings, part)?;
    let right = part_of(alloc, &column, &Part::Right(at - 1))?;
    drop(column);
    send_column(alloc, right, span.right_from(at), 2, budget, sink)?;
    Ok(())
}

/// Sends the corners of what the rings cover, at the abscissas of a span, to a sink, as
/// [`send_corners_in`] does, within a budget.
fn send_within<S: CornerSink>(
    alloc: Global,
    rings: &Rings,
    span: Span,
    budget: &mut ColumnBudget,
    sink: &mut S,
) -> Result<(), AllocError>
    requires { budget.old.made ≤ budget.old.most }
    ensures sent { OnOk result ((corners : List GridCorner)
        × S.takes sink.old sink.new corners
        × All FitsCorner corners
        × AreCornersIn (SomeCovers rings.now) span corners) }
    ensures budget { OnOk result (KeepsBudget budget.old budget.new) }
{
    let Some(at) = cut_of(alloc, rings, &span, 0, budget)? else {
        return send_swept(alloc, rings, span, sink);
    };
    send_part(
        alloc,
        rings,
        &Part::Left(at),
        span.left_of(at),
        budget,
        sink,
    )?;
    let right = Part::Right(at - 1);
    send_part(alloc, rings, &right, span.right_from(at), budget, sink)?;
    Ok(())
}

/// Sends the corners of what the rings cover, at the abscissas of a span, to a sink, in order of
/// `x` and then `y`. Returns how many columns were made to find them: at most two for each point of
/// the rings. All corners are points of 64 bits. Fails only if out of memory.
pub fn send_corners_in<S: CornerSink>(
    alloc: Global,
    rings: &Rings,
    span: Span,
    sink: &mut S,
) -> Result<u64, AllocError>
    ensures sent { OnOk result ((corners : List GridCorner)
        × S.takes sink.old sink.new corners
        × All FitsCorner corners
        × AreCornersIn (SomeCovers rings.now) span corners) }
    ensures columns { IfOk result (λ columns. columns ≤ 2 * length (flat_map (λ ring. ring) rings.now)) }
{
    let mut budget = ColumnBudget::of(rings);
    send_within(alloc, rings, span, &mut budget, sink)?;
    Ok(budget.made)
}

/// Sends all corners of what the rings cover to a sink, as [`send_corners_in`] does.
pub fn send_corners<S: CornerSink>(
    alloc: Global,
    rings: &Rings,
    sink: &mut S,
) -> Result<u64, AllocError>
    ensures sent { OnOk result ((corners : List GridCorner)
        × S.takes sink.old sink.new corners
        × All FitsCorner corners
        × AreCornersOf (SomeCovers rings.now) corners) }
    ensures columns { IfOk result (λ columns. columns ≤ 2 * length (flat_map (λ ring. ring) rings.now)) }
{
    send_corners_in(alloc, rings, Span::whole(), sink)
}
