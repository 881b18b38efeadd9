//! Lattices of shifts: which of their places are in an area, by arithmetic.
ghost use Rattle.std.specs.Prelude.{◌≡◌, ◌≤◌, ◌<◌, ◌+◌, ◌*◌, ◌/◌, ◌^◌, ℕ, IfSome, IfNone, slice_get, Some};
ghost use Rattle.lvl_grid.specs.declared.point.Point.{Point as GridPoint};
ghost use Rattle.lvl_witness.specs.inside.Areas.{AreApart, IsInArea, IsSmallArea};
ghost use Rattle.lvl_witness.specs.inside.Lattices.{IsLatticeOf, stepped};
ghost use Rattle.lvl_witness.specs.inside.Stretches.{IsInStretch};

use crate::areas::Area;
use crate::stretch::{Stretch, multiples};
use lvl_grid::Point;
use lvl_names::Offsets;

/// The shift that moves nothing.
const ORIGIN: Point = Point { x: 0, y: 0 };

/// The shifts `i * across + j * up` with `i < columns` and `j < rows`, row by row.
#[derive(Clone, Copy, Debug)]
pub(crate) struct Lattice {
    pub across: Point,
    pub columns: u64,
    pub up: Point,
    pub rows: u64,
}

/// The product, or None if it is outside 64 bits.
fn times(step: Point, count: u64) -> Option<Point> {
    let count = i64::try_from(count).ok()?;
    Some(Point {
        x: step.x.checked_mul(count)?,
        y: step.y.checked_mul(count)?,
    })
}

/// The number of shifts at the beginning that are equal steps from zero, if no later shift is such
/// a step; else some other index. A binary search.
fn first_turn(shifts: &Offsets) -> u64 {
    let Some(step) = shifts.at(1) else {
        return 1;
    };
    let mut low = 1;
    let mut high = shifts.len();
    while high - low > 1 {
        let middle = low + (high - low) / 2;
        if shifts.at(middle) == times(step, middle) {
            low = middle;
        } else {
            high = middle;
        }
    }
    high
}

/// The lattice as which the shifts are stored, if it is found.
pub(crate) fn lattice_of(shifts: &Offsets) -> Option<Lattice>
    ensures { IfSome result (IsLatticeOf shifts.now) }
{
    let columns = first_turn(shifts);
    let rows = shifts.len().checked_div(columns)?;
    let across = shifts.at(1).unwrap_or(ORIGIN);
    let up = shifts.at(columns).unwrap_or(ORIGIN);
    let found = Offsets::lattice(across, columns, up, rows)?;
    if !found.is_same_lattice(shifts) {
        return None;
    }
    Some(Lattice {
        across,
        columns,
        up,
        rows,
    })
}

/// The numbers of steps after which a point that begins at `from` is in the area.
fn steps_within(from: Point, step: Point, area: &Area) -> Stretch
    requires { IsSmallArea 72 area.now }
    ensures { (i : ℕ) → i < 2 ^ 64 → IsInArea area.now (stepped from step i) → IsInStretch result i }
{
    let x = i128::from(from.x);
    let y = i128::from(from.y);
    let across = multiples(step.x, area.low.x - x, area.high.x - x);
    let along = multiples(step.y, area.low.y - y, area.high.y - y);
    across.common(along)
}

/// The place of the next shift in the area among those of one row, from place `from` of this row
/// on. None if there is none.
fn next_in_row(shifts: &Offsets, lattice: &Lattice, row: u64, from: u64, area: &Area) -> Option<u64>
    requires lattice { IsLatticeOf shifts.now lattice.now }
    requires row { row < lattice.now.rows }
    requires from { row * lattice.now.columns ≤ from }
    requires small { IsSmallArea 70 area.now }
    ensures on { IfSome result (λ place. from ≤ place) }
    ensures some { IfSome result (λ place. AreApart shifts.now from place (Some area.now)) }
    ensures none { IfNone result (AreApart shifts.now from ((row + 1) * lattice.now.columns) (Some area.now)) }
{
    let begin = row * lattice.columns;
    let Some(first) = shifts.at(begin) else {
        unreachable!()
    };
    let columns = steps_within(first, lattice.across, area);
    let column = columns.first.max(from - begin);
    if column > columns.last || column >= lattice.columns {
        return None;
    }
    Some(begin + column)
}

/// The rows that may have a shift in the area.
fn rows_within(shifts: &Offsets, lattice: &Lattice, area: &Area) -> Stretch
    requires lattice { IsLatticeOf shifts.now lattice.now }
    requires small { IsSmallArea 70 area.now }
    ensures { (k : ℕ) (e : GridPoint) → slice_get shifts.now k ≡ Some e → IsInArea area.now e
        → IsInStretch result (k / lattice.now.columns) }
{
    let Some(end) = shifts.at(lattice.columns - 1) else {
        unreachable!()
    };
    steps_within(ORIGIN, lattice.up, &area.widened(end))
}

/// The place of the next shift in the area, from place `from` on, or the number of shifts if there is
/// none.
pub(crate) fn next_in_lattice(shifts: &Offsets, lattice: &Lattice, from: u64, area: &Area) -> u64
    requires lattice { IsLatticeOf shifts.now lattice.now }
    requires small { IsSmallArea 70 area.now }
    ensures on { from ≤ result }
    ensures apart { AreApart shifts.now from result (Some area.now) }
{
    let rows = rows_within(shifts, lattice, area);
    let first = rows.first.max(from / lattice.columns);
    let last = rows.last.min(lattice.rows - 1);
    for row in first..last + 1 {
        let begin = from.max(row * lattice.columns);
        if let Some(place) = next_in_row(shifts, lattice, row, begin, area) {
            return place;
        }
    }
    from.max(shifts.len())
}
