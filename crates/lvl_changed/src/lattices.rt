//! Lattices of shifts: their steps and counts, their sums, and the form in which they are compared.
ghost use Rattle.std.specs.Prelude.{◌≡◌, neg_ℤ, IfOk, IfSome};
ghost use Rattle.lvl_names.specs.Shifts.{lattice};
ghost use Rattle.lvl_changed.specs.inside.Rows.{AreRowsOf, IsSameLine, scaled};
ghost use Rattle.lvl_changed.specs.inside.Shifts.{AreMovedBy, AreSums, IsLatticeOf, turned_by};

use crate::shifts::{are_same, moved, shift_at};
use lvl_grid::{Map, Point};
use lvl_names::Offsets;
use std::alloc::AllocError;

/// The shift that moves nothing.
const ORIGIN: Point = Point { x: 0, y: 0 };

/// The shifts `i * across + j * up` with `i < columns` and `j < rows`.
#[derive(Clone, Copy)]
pub(crate) struct Lattice {
    across: Point,
    columns: u64,
    up: Point,
    rows: u64,
}

/// The rows of a lattice: the shifts of the first, the step from one to the next, and their number.
#[derive(Drop)]
pub(crate) struct Rows {
    pub line: Offsets,
    pub up: Point,
    pub count: u64,
}

/// The product, or None if it is outside 64 bits.
pub(crate) fn times(step: Point, count: u64) -> Option<Point>
    ensures { IfSome result (λ product. product ≡ scaled step count) }
{
    let count = i64::try_from(count).ok()?;
    Some(Point {
        x: step.x.checked_mul(count)?,
        y: step.y.checked_mul(count)?,
    })
}

/// The number of shifts at the beginning that are equal steps from zero, if no later shift is such
/// a step; else some other index. A binary search.
fn first_turn(shifts: &Offsets) -> u64 {
    let Some(step) = shifts.at(1) else {
        return 1;
    };
    let mut low = 1;
    let mut high = shifts.len();
    while high - low > 1 {
        let middle = low + (high - low) / 2;
        if shifts.at(middle) == times(step, middle) {
            low = middle;
        } else {
            high = middle;
        }
    }
    high
}

/// The lattice that the shifts are, if they are found to be one.
fn lattice_of(shifts: &Offsets) -> Option<Lattice>
    ensures { IfSome result (IsLatticeOf shifts.now) }
{
    let columns = first_turn(shifts);
    let rows = shifts.len().checked_div(columns)?;
    let across = shift_at(shifts, 1);
    let up = if rows == 1 {
        ORIGIN
    } else {
        shift_at(shifts, columns)
    };
    let listed = Offsets::lattice(across, columns, up, rows)?;
    if !are_same(shifts, &listed) {
        return None;
    }
    Some(Lattice {
        across,
        columns,
        up,
        rows,
    })
}

/// The shifts `i * across + j * up` with `i < columns` and `j < rows`, or None if they can't be kept.
/// Rows each of which begins one step after the end of the one before are kept as one line: then they
/// are found to be one at once, however many shifts there are.
fn joined(across: Point, columns: u64, up: Point, rows: u64) -> Option<Offsets>
    ensures { IfSome result (λ shifts. shifts ≡ lattice across columns up rows) }
{
    if let Some(next) = times(across, columns) {
        if next == up {
            return Offsets::lattice(across, columns.checked_mul(rows)?, ORIGIN, 1);
        }
    }
    Offsets::lattice(across, columns, up, rows)
}

/// The displacement as the map turns it, or None if it is outside 64 bits.
fn turned(by: &Map, step: Point) -> Option<Point>
    ensures { IfSome result (λ turned. turned ≡ turned_by by.now step) }
{
    let Map { flip, turn, .. } = *by;
    let turns = Map {
        flip,
        turn,
        at: ORIGIN,
    };
    turns.place(step)
}

/// Whether a step comes before another one in a lattice: first is the one that goes up or down less.
fn comes_first(step: Point, other: Point) -> bool {
    let (up, across) = (step.y.unsigned_abs(), step.x.unsigned_abs());
    (up, across) < (other.y.unsigned_abs(), other.x.unsigned_abs())
}

/// The sums of a shift of the first and a shift of the second as the map turns it, or None if they
/// can't be kept as they are, or as one lattice.
pub(crate) fn sums(
    outer: &Offsets,
    inner: &Offsets,
    by: &Map,
) -> Result<Option<Offsets>, AllocError>
    ensures { IfOk result (λ found. IfSome found (AreSums by.now outer.now inner.now)) }
{
    if inner.is_single() {
        return Ok(Some(outer.clone()?));
    }
    Ok(lattice_of_sums(outer, inner, by))
}

/// The sums of a shift of each list as one lattice, or None if they aren't one.
fn lattice_of_sums(outer: &Offsets, inner: &Offsets, by: &Map) -> Option<Offsets>
    ensures { IfSome result (AreSums by.now outer.now inner.now) }
{
    let line = lattice_of(inner)?;
    let across = turned(by, line.across)?;
    if outer.is_single() {
        let up = turned(by, line.up)?;
        return joined(across, line.columns, up, line.rows);
    }
    let steps = lattice_of(outer)?;
    if line.rows != 1 || steps.rows != 1 {
        return None;
    }
    if comes_first(across, steps.across) {
        return joined(across, line.columns, steps.across, steps.columns);
    }
    joined(steps.across, steps.columns, across, line.columns)
}

/// The step in the other direction, or None if it is outside 64 bits.
fn opposite(step: Point) -> Option<Point>
    ensures { IfSome result (λ back. back ≡ record { x = neg_ℤ step.x; y = neg_ℤ step.y }) }
{
    Some(Point {
        x: step.x.checked_neg()?,
        y: step.y.checked_neg()?,
    })
}

/// The end of a line of `count` shifts by `step` from which it goes up, or along x to the right,
/// and its step from there. None if one of them is outside 64 bits.
fn rising(step: Point, count: u64) -> Option<(Point, Point)>
    ensures { IfSome result (λ line. IsSameLine step count line.0 line.1) }
{
    if step.y > 0 || (step.y == 0 && step.x >= 0) {
        return Some((ORIGIN, step));
    }
    let last = times(step, count.checked_sub(1)?)?;
    Some((last, opposite(step)?))
}

/// The least of the shifts, and all of them from there on, as a lattice whose steps rise and are in
/// their order. None if the shifts aren't found to be a lattice.
pub(crate) fn rebased(shifts: &Offsets) -> Option<(Point, Offsets)>
    ensures { IfSome result (λ found. AreMovedBy found.0 shifts.now found.1) }
{
    let found = lattice_of(shifts)?;
    let (from, across) = rising(found.across, found.columns)?;
    let (other, up) = rising(found.up, found.rows)?;
    let least = moved(from, other)?;
    let listed = if found.rows > 1 && comes_first(up, across) {
        joined(up, found.rows, across, found.columns)?
    } else {
        joined(across, found.columns, up, found.rows)?
    };
    Some((least, listed))
}

/// The rows of the shifts, or None if these aren't found to be a lattice of more than one row.
pub(crate) fn rows_of(shifts: &Offsets) -> Option<Rows>
    ensures { IfSome result (AreRowsOf shifts.now) }
{
    let found = lattice_of(shifts)?;
    if found.rows == 1 {
        return None;
    }
    let line = Offsets::lattice(found.across, found.columns, ORIGIN, 1)?;
    Some(Rows {
        line,
        up: found.up,
        count: found.rows,
    })
}
