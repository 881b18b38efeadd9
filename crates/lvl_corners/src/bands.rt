//! The corners of the rectangles that the bands of a sweep consist of.
ghost use Rattle.std.specs.Prelude.{◌≡◌, ◌+ℤ◌, ◌-ℤ◌, ℤ, pos, true, cond, IfOk, OnOk};
ghost use Rattle.std.specs.Ordering.{int_eq};
ghost use Rattle.lvl_grid.specs.Winding.{SomeCovers};
ghost use Rattle.lvl_sweep.specs.Bands.{slab_of};
ghost use Rattle.lvl_corners.specs.inside.Marks.{net, signed, interval_step, row_step, band_net};
ghost use Rattle.lvl_corners.specs.inside.Marks.{AreInOrder, AreMarksOf};
ghost use Rattle.lvl_corners.specs.Spans.{spanned};
ghost use Rattle.lvl_corners.specs.inside.Rows.{ended_net};

use crate::mark::Mark;
use crate::span::Span;
use lvl_grid::RingList;
use lvl_sweep::{Band, Sweep};
use std::alloc::{AllocError, Global};

/// Appends both ends of an interval, at the ordinate `y` at which its band begins, or ends if
/// `is_first` is false.
fn push_interval(
    marks: &mut Vec<Mark>,
    y: i64,
    interval: (i64, i64),
    is_first: bool,
) -> Result<(), AllocError>
    ensures { OnOk result ((x z : ℤ) → net x z marks.new.items
        ≡ net x z marks.old.items +ℤ cond (int_eq y z) (signed is_first (interval_step x interval)) (pos 0)) }
{
    let (left, right) = interval;
    marks.push(Mark {
        x: left,
        y,
        is_plus: is_first,
    })?;
    marks.push(Mark {
        x: right,
        y,
        is_plus: !is_first,
    })?;
    Ok(())
}

/// Appends the ends of all intervals, as [`push_interval`] does.
pub(crate) fn push_row(
    marks: &mut Vec<Mark>,
    y: i64,
    intervals: &[(i64, i64)],
    is_first: bool,
) -> Result<(), AllocError>
    ensures { OnOk result ((x z : ℤ) → net x z marks.new.items
        ≡ net x z marks.old.items +ℤ cond (int_eq y z) (signed is_first (row_step x intervals.now)) (pos 0)) }
{
    for interval in intervals {
        push_interval(marks, y, *interval, is_first)?;
    }
    Ok(())
}

/// Appends both ends of an interval at the ordinate `y`, unless they are the same abscissa.
fn push_change(marks: &mut Vec<Mark>, y: i64, interval: (i64, i64)) -> Result<(), AllocError>
    ensures { OnOk result ((x z : ℤ) → net x z marks.new.items
        ≡ net x z marks.old.items +ℤ cond (int_eq y z) (interval_step x interval) (pos 0)) }
{
    if interval.0 == interval.1 {
        return Ok(());
    }
    push_interval(marks, y, interval, true)?;
    Ok(())
}

/// Appends those ends of two intervals that differ, at the ordinate `y` at which the band of the
/// first ends and that of the second begins.
fn push_changes(
    marks: &mut Vec<Mark>,
    y: i64,
    before: (i64, i64),
    after: (i64, i64),
) -> Result<(), AllocError>
    ensures { OnOk result ((x z : ℤ) → net x z marks.new.items ≡ net x z marks.old.items
        +ℤ cond (int_eq y z) (interval_step x after -ℤ interval_step x before) (pos 0)) }
{
    push_change(marks, y, (after.0, before.0))?;
    push_change(marks, y, (before.1, after.1))?;
    Ok(())
}

/// Appends the ends of the intervals of the row at which one band ends and the next begins. Both
/// rows are in order, and ends that are in both cancel, and are left out.
fn push_between(
    marks: &mut Vec<Mark>,
    y: i64,
    before: &[(i64, i64)],
    after: &[(i64, i64)],
) -> Result<(), AllocError>
    ensures { OnOk result ((x z : ℤ) → net x z marks.new.items ≡ net x z marks.old.items
        +ℤ cond (int_eq y z) (row_step x after.now -ℤ row_step x before.now) (pos 0)) }
{
    let mut i = 0;
    let mut j = 0;
    while i < before.len() && j < after.len() {
        let ours = before[i];
        let theirs = after[j];
        if ours.0 == theirs.0 || ours.1 == theirs.1 {
            push_changes(marks, y, ours, theirs)?;
            i += 1;
            j += 1;
        } else if ours.0 < theirs.0 {
            push_interval(marks, y, ours, false)?;
            i += 1;
        } else {
            push_interval(marks, y, theirs, true)?;
            j += 1;
        }
    }
    push_row(marks, y, &before[i..], false)?;
    push_row(marks, y, &after[j..], true)?;
    Ok(())
}

/// The row at which a band ends. Its marks are still to be appended.
#[derive(Drop)]
pub(crate) struct Row {
    pub y: i64,
    pub intervals: Vec<(i64, i64)>,
}

/// Appends the corners of the rectangles of the last band, in the row at which it ends, and of the
/// next one, in the row at which it begins.
fn push_rows(marks: &mut Vec<Mark>, row: &Row, band: &Band) -> Result<(), AllocError>
    ensures { OnOk result ((x y : ℤ) → net x y marks.new.items ≡ (net x y marks.old.items +ℤ ended_net x y row.now)
        +ℤ cond (int_eq band.now.y0 y) (row_step x band.now.intervals.items) (pos 0)) }
{
    if row.y == band.y0 {
        push_between(marks, band.y0, &row.intervals, &band.intervals)?;
        return Ok(());
    }
    push_row(marks, row.y, &row.intervals, false)?;
    push_row(marks, band.y0, &band.intervals, true)?;
    Ok(())
}

/// Appends the corners of the rectangles of the last band, in the row at which it ends, and of the
/// next one, in the row at which it begins. The row is then the one at which the next one ends.
pub(crate) fn push_band(marks: &mut Vec<Mark>, row: &mut Row, band: &Band) -> Result<(), AllocError>
    ensures { OnOk result ((x y : ℤ) → net x y marks.new.items +ℤ ended_net x y row.new
        ≡ (net x y marks.old.items +ℤ ended_net x y row.old) +ℤ band_net x y (slab_of band.now)) }
{
    push_rows(marks, row, band)?;
    row.y = band.y1;
    row.intervals.clear();
    row.intervals.extend_from_slice(&band.intervals)?;
    Ok(())
}

/// The least number of marks among which those outside of a span are looked for.
const LEAST_FULL: usize = 1 << 16;

/// Leaves out the marks outside of a span if there are at least `full`. Returns how many there may be
/// before that is done again: so few that it takes no more time than to append them.
fn drop_outside(marks: &mut Vec<Mark>, span: Span, full: usize) -> usize
    ensures { (x y : ℤ) → spanned span x ≡ true → net x y marks.new.items ≡ net x y marks.old.items }
{
    if marks.len() < full {
        return full;
    }
    marks.retain(|mark| span.has(mark.x));
    marks.len().saturating_mul(2).max(LEAST_FULL)
}

/// The corners, at the abscissas of a span, of all rectangles of the bands of rings, in no order.
fn marks_within<R: RingList>(alloc: Global, rings: &R, span: Span) -> Result<Vec<Mark>, AllocError>
    ensures { IfOk result (λ marks. AreMarksOf (SomeCovers (R.rings rings.now)) span marks.items) }
{
    let mut marks = Vec::new(alloc);
    let mut row = Row {
        y: 0,
        intervals: Vec::new(alloc),
    };
    let mut full = LEAST_FULL;
    let mut sweep = Sweep::new(alloc, rings)?;
    while let Some(band) = sweep.band() {
        push_band(&mut marks, &mut row, band)?;
        full = drop_outside(&mut marks, span, full);
        sweep.advance();
    }
    push_row(&mut marks, row.y, &row.intervals, false)?;
    marks.retain(|mark| span.has(mark.x));
    Ok(marks)
}

/// The corners, at the abscissas of a span, of all rectangles of the bands of rings, in order of
/// abscissa and then of ordinate.
pub(crate) fn marks_of<R: RingList>(
    alloc: Global,
    rings: &R,
    span: Span,
) -> Result<Vec<Mark>, AllocError>
    ensures marks { IfOk result (λ marks. AreMarksOf (SomeCovers (R.rings rings.now)) span marks.items) }
    ensures order { IfOk result (λ marks. AreInOrder marks.items) }
{
    let mut marks = marks_within(alloc, rings, span)?;
    marks.sort_unstable_by_key(|mark| (mark.x, mark.y));
    Ok(marks)
}
