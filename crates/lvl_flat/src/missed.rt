//! Runs of shifts at which a box has no square of the window.
ghost use Rattle.std.specs.Prelude.{◌≤◌, ◌<◌, ◌+◌, ◌*◌, ◌^◌, length, IsTrue, IfSome};
ghost use Rattle.lvl_flat.specs.inside.Passing.{AreMissed, HoldsEnds, IsRun};

use crate::bounds::Bounds;
use crate::boxes::bounds_of_shifts;
use crate::rows::{has_rows, rest_of_row};
use lvl_grid::{Map, Window};
use lvl_names::Offsets;

/// The fewest places that are tried as a run. Fewer are as fast one by one.
pub(crate) const LEAST_RUN: u64 = 8;

/// Whether places are tried as a run from index `from` on, where rows are of length `row`: at the
/// beginning of a row, or if enough of its row is left. Rows of length 1 aren't a lattice.
pub(crate) fn is_tried(from: u64, row: u64) -> bool {
    let rest = rest_of_row(from, row);
    row > 1 && (rest == 0 || rest >= LEAST_RUN)
}

/// A box that has the first and the last of `row` shifts from index `from` on, or None if these
/// aren't there.
fn bounds_of_ends(shifts: &Offsets, from: u64, row: u64) -> Option<Bounds>
    requires some { 0 < row }
    requires small { from + row < 2 ^ 64 }
    ensures { IfSome result (λ bounds. HoldsEnds shifts.now bounds from row) }
{
    let first = Bounds::around(shifts.at(from)?);
    if row == 1 {
        return Some(first);
    }
    let last = Bounds::around(shifts.at(from + (row - 1))?);
    Some(first.joined(last))
}

/// Whether the box misses the window at each shift of `count` rows of `row` shifts each, from index
/// `from` on. `false` says nothing.
fn misses_rows(
    shifts: &Offsets,
    from: u64,
    row: u64,
    count: u64,
    inner: Bounds,
    map: &Map,
    window: &Window,
) -> bool
    requires row { 0 < row }
    requires some { 0 < count }
    requires run { IsRun shifts.now from row count }
    ensures { IsTrue result → AreMissed shifts.now from (from + count * row) inner map.now window.now }
{
    let Some(first) = bounds_of_ends(shifts, from, row) else {
        return false;
    };
    let Some(last) = bounds_of_ends(shifts, from + (count - 1) * row, row) else {
        return false;
    };
    inner.misses_moved(first.joined(last), map, window)
}

/// The number of rows, of `count` rows of `row` shifts each from index `from` on, at all shifts of
/// which the box is found to miss the window. Tries one of them and then all of them, then searches
/// the greatest number by halving.
fn missed_rows(
    shifts: &Offsets,
    from: u64,
    row: u64,
    count: u64,
    inner: Bounds,
    map: &Map,
    window: &Window,
) -> u64
    requires row { 0 < row }
    requires run { IsRun shifts.now from row count }
    ensures inside { result ≤ count }
    ensures missed { AreMissed shifts.now from (from + result * row) inner map.now window.now }
{
    if count == 0 || !misses_rows(shifts, from, row, 1, inner, map, window) {
        return 0;
    }
    if misses_rows(shifts, from, row, count, inner, map, window) {
        return count;
    }
    let mut low = 1;
    let mut high = count;
    while high - low > 1 {
        let middle = low + (high - low) / 2;
        if misses_rows(shifts, from, row, middle, inner, map, window) {
            low = middle;
        } else {
            high = middle;
        }
    }
    low
}

/// The index up to which the box is found to miss the window at all shifts from index `from` on:
/// the length of the list, an index up to the end of its row, or the beginning of a later row.
pub(crate) fn missed_from(
    shifts: &Offsets,
    from: u64,
    row: u64,
    inner: Bounds,
    map: &Map,
    window: &Window,
) -> u64
    requires { from ≤ length shifts.now }
    ensures on { from ≤ result }
    ensures inside { result ≤ length shifts.now }
    ensures missed { AreMissed shifts.now from result inner map.now window.now }
{
    let len = shifts.len();
    if from == 1 && inner.misses_moved(bounds_of_shifts(shifts), map, window) {
        return len;
    }
    if !is_tried(from, row) || !has_rows(shifts, row) {
        return from;
    }
    let rest = rest_of_row(from, row).min(len - from);
    let end = from + missed_rows(shifts, from, 1, rest, inner, map, window);
    if end % row != 0 {
        return end;
    }
    let rows = missed_rows(shifts, end, row, (len - end) / row, inner, map, window);
    end + rows * row
}
