//! Marks of a part of a strip: those at its first abscissa, and those right of it, up to an end.
ghost use Rattle.std.specs.Prelude.{◌≡◌, ◌+ℤ◌, ◌<ℤ◌, ◌&&◌, ℤ, pos, cond, true, IfOk, OnOk};
ghost use Rattle.std.specs.Ordering.{int_eq};
ghost use Rattle.lvl_grid.specs.Winding.{SomeCovers};
ghost use Rattle.lvl_corners.specs.Gathered.{near, IsLowered};
ghost use Rattle.lvl_corners.specs.Spans.{spanned};
ghost use Rattle.lvl_corners.specs.inside.Marks.{net, AreInOrder};
ghost use Rattle.lvl_corners.specs.inside.Parts.{is_right, AreMarksNear};

use crate::bands::{Row, push_band, push_row};
use crate::mark::Mark;
use crate::span::Span;
use lvl_grid::RingList;
use lvl_sweep::Sweep;
use std::alloc::{AllocError, Global};

/// Whether an abscissa is `x`, or right of it and left of `end`.
fn is_near(x: i64, end: i64, at: i64) -> bool
    ensures { result ≡ near x end at }
{
    at == x || (x < at && at < end)
}

/// The abscissa of about the middle one of the marks right of `x`, if there are more of them than half the
/// room, or else `end`. The marks are sorted to find it.
fn cut_of(marks: &mut Vec<Mark>, x: i64, end: i64, room: usize) -> i64
    ensures same { (u v : ℤ) → net u v marks.new.items ≡ net u v marks.old.items }
    ensures lowered { IsLowered x end result }
{
    let here = marks.iter().filter(|mark| mark.x <= x).count();
    if marks.len().saturating_sub(here) <= room / 2 {
        return end;
    }
    marks.sort_unstable_by_key(|mark| (mark.x, mark.y));
    let Some(middle) = marks.get(marks.len() / 2 + here / 2) else {
        return end;
    };
    if x < middle.x && middle.x < end {
        return middle.x;
    }
    end
}

/// The end of the abscissas at which marks are looked for, and how many there may be before it is lowered.
#[derive(Clone, Copy)]
pub(crate) struct Limit {
    pub end: i64,
    pub full: usize,
}

/// Lowers the end if there are too many marks, and leaves out those that are then beyond it.
fn lowered(marks: &mut Vec<Mark>, x: i64, limit: Limit, room: usize) -> Limit
    ensures same { (u v : ℤ) → near x result.end u ≡ true → net u v marks.new.items ≡ net u v marks.old.items }
    ensures lowered { IsLowered x limit.end result.end }
{
    if marks.len() < limit.full {
        return limit;
    }
    marks.retain(|mark| is_near(x, limit.end, mark.x));
    let end = cut_of(marks, x, limit.end, room);
    marks.retain(|mark| is_near(x, end, mark.x));
    Limit {
        end,
        full: marks.len().saturating_mul(2).max(room),
    }
}

/// Marks at `x` and right of it, up to an end.
#[derive(Drop)]
pub(crate) struct Found {
    pub marks: Vec<Mark>,
    pub end: i64,
}

/// The corners, at `x` and right of it up to an end, of all rectangles of the bands of rings, in no order,
/// with others elsewhere. The end is lowered until there are about as many as there is room for, and those
/// at `x`.
pub(crate) fn marks_near<R: RingList>(
    alloc: Global,
    rings: &R,
    x: i64,
    end: i64,
    room: usize,
) -> Result<Found, AllocError>
    ensures marks { IfOk result (λ found.
        AreMarksNear (SomeCovers (R.rings rings.now)) x found.end found.marks.items) }
    ensures lowered { IfOk result (λ found. IsLowered x end found.end) }
{
    let mut marks = Vec::new(alloc);
    let mut row = Row {
        y: 0,
        intervals: Vec::new(alloc),
    };
    let mut limit = Limit { end, full: room };
    let mut sweep = Sweep::new(alloc, rings)?;
    while let Some(band) = sweep.band() {
        push_band(&mut marks, &mut row, band)?;
        limit = lowered(&mut marks, x, limit, room);
        sweep.advance();
    }
    push_row(&mut marks, row.y, &row.intervals, false)?;
    Ok(Found {
        marks,
        end: limit.end,
    })
}

/// Whether a mark is right of `x`, left of an end, and at an ordinate of some rows.
fn is_right(x: i64, end: i64, rows: Span, mark: Mark) -> bool
    ensures { result ≡ is_right x end rows mark }
{
    x < mark.x && mark.x < end && rows.has(mark.y)
}

/// Appends those of some marks that are right of `x`, left of an end, and at the ordinates of some rows.
pub(crate) fn push_right(
    to: &mut Vec<Mark>,
    marks: &[Mark],
    x: i64,
    end: i64,
    rows: Span,
) -> Result<(), AllocError>
    ensures { OnOk result ((u v : ℤ) → x <ℤ u → u <ℤ end → net u v to.new.items
        ≡ net u v to.old.items +ℤ cond (spanned rows v) (net u v marks.now) (pos 0)) }
{
    for mark in marks {
        if is_right(x, end, rows, *mark) {
            to.push(*mark)?;
        }
    }
    Ok(())
}

/// Leaves out the marks elsewhere than at `x` and at the ordinates of some rows, and sorts the others.
pub(crate) fn sort_at(marks: &mut Vec<Mark>, x: i64, rows: Span)
    ensures changes { (u v : ℤ) → net u v marks.new.items
        ≡ cond (int_eq u x && spanned rows v) (net u v marks.old.items) (pos 0) }
    ensures order { AreInOrder marks.new.items }
{
    marks.retain(|mark| mark.x == x && rows.has(mark.y));
    marks.sort_unstable_by_key(|mark| (mark.x, mark.y));
}

/// Leaves out the marks outside of a span, and sorts the others.
pub(crate) fn sort_within(marks: &mut Vec<Mark>, span: Span)
    ensures changes { (u v : ℤ) → net u v marks.new.items
        ≡ cond (spanned span u) (net u v marks.old.items) (pos 0) }
    ensures order { AreInOrder marks.new.items }
{
    marks.retain(|mark| span.has(mark.x));
    marks.sort_unstable_by_key(|mark| (mark.x, mark.y));
}

/// Leaves out the marks from an abscissa on.
pub(crate) fn drop_from(marks: &mut Vec<Mark>, end: i64)
    ensures { (u v : ℤ) → u <ℤ end → net u v marks.new.items ≡ net u v marks.old.items }
{
    marks.retain(|mark| mark.x < end);
}
