//! The rows of a lattice of shifts, found by looking at some of the shifts.
ghost use Rattle.std.specs.Prelude.{◌≤◌, ◌<◌, ◌+◌, ◌%◌, IsTrue};
ghost use Rattle.lvl_flat.specs.inside.Passing.{HasRows, HasColumns};

use lvl_grid::Point;
use lvl_names::Offsets;

/// The product, or None if it is outside 64 bits.
fn times(step: Point, count: u64) -> Option<Point> {
    let count = i64::try_from(count).ok()?;
    Some(Point {
        x: step.x.checked_mul(count)?,
        y: step.y.checked_mul(count)?,
    })
}

/// The number of shifts at the beginning that are equal steps from zero: shift k is k times shift
/// 1. A binary search, which is right if no later shift is such a step; else some other index.
fn first_turn(shifts: &Offsets) -> u64 {
    let Some(step) = shifts.at(1) else {
        return 1;
    };
    let mut low = 1;
    let mut high = shifts.len();
    while high - low > 1 {
        let middle = low + (high - low) / 2;
        if shifts.at(middle) == times(step, middle) {
            low = middle;
        } else {
            high = middle;
        }
    }
    high
}

/// Whether the shifts are stored as a lattice with rows of this length. `false` says nothing.
pub(crate) fn has_rows(shifts: &Offsets, row: u64) -> bool
    ensures some { IsTrue result → 0 < row }
    ensures rows { IsTrue result → HasRows row shifts.now }
    ensures columns { IsTrue result → HasColumns row shifts.now }
{
    let zero = Point { x: 0, y: 0 };
    if row == 0 {
        return false;
    }
    let across = shifts.at(1).unwrap_or(zero);
    let up = shifts.at(row).unwrap_or(zero);
    match Offsets::lattice(across, row, up, shifts.len() / row) {
        Some(lattice) => lattice.is_same_lattice(shifts),
        None => false,
    }
}

/// The number of shifts from index `from` to the end of its row, or 0 at the beginning of one.
pub(crate) fn rest_of_row(from: u64, row: u64) -> u64
    ensures { 0 < row → from % row + result ≤ row }
{
    if row == 0 || from % row == 0 {
        return 0;
    }
    row - from % row
}

/// The length of the rows of the shifts, or 1 if they aren't found to be a lattice.
fn row_length(shifts: &Offsets) -> u64
    ensures { HasRows result shifts.now }
{
    let row = first_turn(shifts);
    if has_rows(shifts, row) { row } else { 1 }
}

/// The length of the rows if it is known, and not 0, or as [`row_length`] finds it.
pub(crate) fn known_row(known: u64, shifts: &Offsets) -> u64 {
    match known {
        0 => row_length(shifts),
        row => row,
    }
}
