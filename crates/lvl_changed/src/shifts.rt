//! Shifts: moved points, and comparison.
ghost use Rattle.std.specs.Prelude.{◌≡◌, IsTrue, SomeIff};
ghost use Rattle.lvl_grid.specs.Turn.{FitsPoint, shifted};

use lvl_grid::Point;
use lvl_names::Offsets;

/// The shift at this index, or zero if there is none.
pub(crate) fn shift_at(shifts: &Offsets, k: u64) -> Point {
    match shifts.at(k) {
        Some(shift) => shift,
        None => Point { x: 0, y: 0 },
    }
}

/// The last shift.
pub(crate) fn last_shift(shifts: &Offsets) -> Point {
    shift_at(shifts, shifts.len().saturating_sub(1))
}

/// The point moved by a displacement, or None if that is outside 64 bits.
pub(crate) fn moved(point: Point, by: Point) -> Option<Point>
    ensures { SomeIff result (FitsPoint (shifted by point)) (shifted by point) }
{
    let x = point.x.checked_add(by.x)?;
    let y = point.y.checked_add(by.y)?;
    Some(Point { x, y })
}

/// Whether both are the same shifts in the same order. Lattices that are stored alike aren't
/// listed.
pub(crate) fn are_same(first: &Offsets, second: &Offsets) -> bool
    ensures { IsTrue result → first.now ≡ second.now }
{
    if first.is_same_lattice(second) {
        return true;
    }
    if first.len() != second.len() {
        return false;
    }
    for k in 0..first.len() {
        let (Some(ours), Some(theirs)) = (first.at(k), second.at(k)) else {
            return false;
        };
        if ours.x != theirs.x || ours.y != theirs.y {
            return false;
        }
    }
    true
}
