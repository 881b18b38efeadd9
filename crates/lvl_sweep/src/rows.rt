//! The first difference of two rows of intervals, and of two bands.
ghost use Rattle.std.specs.Prelude.{◌≡◌, ◌≢◌, ◌↔◌, ℤ, ◌<ℤ◌, IsTrue, IfNone, IfSome};
ghost use Rattle.std.specs.List.{list_any};
ghost use Rattle.lvl_sweep.specs.Slab.{spans, AreIntervals};
ghost use Rattle.lvl_sweep.specs.Bands.{slab_of};
ghost use Rattle.lvl_sweep.specs.inside.InStep.{IsLeastIn, IsMet, IsReportedByTwo, higher_of, left_end, end_difference};

use crate::band::Band;
use lvl_grid::Square;
use lvl_region::Side;

/// The least abscissa that only one of two different intervals has, with its side.
fn interval_difference(first: (i64, i64), second: (i64, i64)) -> (i64, Side)
    ensures { result ≡ end_difference first second }
{
    if first.0 < second.0 {
        (first.0, Side::First)
    } else if second.0 < first.0 {
        (second.0, Side::Second)
    } else if first.1 < second.1 {
        (first.1, Side::Second)
    } else {
        (second.1, Side::First)
    }
}

/// The least abscissa that only one of two rows of intervals has, with its side, or None if both
/// have the same.
pub(crate) fn row_difference(first: &[(i64, i64)], second: &[(i64, i64)]) -> Option<(i64, Side)>
    requires first { AreIntervals first.now }
    requires second { AreIntervals second.now }
    ensures same { IfNone result ((z : ℤ) → list_any (spans z) first.now ≡ list_any (spans z) second.now) }
    ensures differ { IfSome result (λ found. IsLeastIn first.now second.now found.0 found.1) }
{
    let common = first.len().min(second.len());
    for i in 0..common {
        if first[i] != second[i] {
            return Some(interval_difference(first[i], second[i]));
        }
    }
    if common < first.len() {
        return Some((first[common].0, Side::First));
    }
    if common < second.len() {
        return Some((second[common].0, Side::Second));
    }
    None
}

/// Whether two rows have the same intervals.
pub(crate) fn are_same(first: &[(i64, i64)], second: &[(i64, i64)]) -> bool
    ensures { IsTrue result ↔ (first.now ≡ second.now) }
{
    first == second
}

/// What the first bands on two sides say about the rows from some row on.
#[derive(Clone, Copy)]
pub enum Ahead {
    /// The least square that only one side covers.
    Differ(Square, Side),
    /// Both sides cover the same in the rows up to this one, which is excluded.
    Alike(i64),
    /// No band is left on either side.
    Nothing,
}

/// The higher of two ordinates, the second of which may be missing.
fn higher(a: i64, from: Option<i64>) -> i64
    ensures { result ≡ higher_of a from }
{
    match from {
        Some(b) if a < b => b,
        _ => a,
    }
}

/// The least square of a band in the rows from `from` on.
pub(crate) fn least_square(band: &Band, from: Option<i64>) -> Square
    requires { IsMet from (slab_of band.now) }
    ensures x { result.x ≡ left_end band.now.intervals.items }
    ensures y { result.y ≡ higher_of band.now.y0 from }
{
    Square {
        x: band.intervals[0].0,
        y: higher(band.y0, from),
    }
}

/// What the first bands say if there is one on each side.
pub(crate) fn both(first: &Band, second: &Band, from: Option<i64>) -> Ahead
    requires first { IsMet from (slab_of first.now) }
    requires second { IsMet from (slab_of second.now) }
    ensures { IsReportedByTwo from (slab_of first.now) (slab_of second.now) result }
{
    let ours = least_square(first, from);
    let theirs = least_square(second, from);
    if ours.y < theirs.y {
        return Ahead::Differ(ours, Side::First);
    }
    if theirs.y < ours.y {
        return Ahead::Differ(theirs, Side::Second);
    }
    match row_difference(&first.intervals, &second.intervals) {
        Some((x, side)) => Ahead::Differ(Square { x, y: ours.y }, side),
        None => Ahead::Alike(first.y1.min(second.y1)),
    }
}
