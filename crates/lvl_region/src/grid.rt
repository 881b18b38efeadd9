//! The plain region: a truth value for each cell of the grid of lines through all vertices.
ghost use Rattle.std.specs.Prelude.{◌≡◌, ◌↔◌, [], ◌∷◌, map, slice_index_or, false, IsTrue, IfOk, IfNone, IfSome};
ghost use Rattle.lvl_region.specs.Region.{SomeCovers, IsAlone};
ghost use Rattle.lvl_region.specs.Grid.{IsRowOf, IsMarked};
ghost use Rattle.lvl_region.specs.Agree.{holds_grid, AgreeAt, AgreeOn, AgreeOnRows};

use crate::lines::{Axis, count_passed, lines_of, next_line, step_past};
use crate::region::{Region, Side};
use lvl_grid::{Ring, Square};
use std::alloc::{AllocError, Global};

/// The distinct lines through all vertices, and a truth value for each cell of their grid.
///
/// This is the reference implementation, short and slow, that tests compare others with.
#[derive(Debug, Drop)]
pub struct GridRegion {
    xs: Vec<i64>,
    ys: Vec<i64>,
    rows: Vec<Vec<bool>>,
}

/// Whether some ring covers the square.
fn some_covers(rings: &[Ring], square: Square) -> bool
    ensures { IsTrue result ↔ SomeCovers rings.now square }
{
    rings.iter().any(|ring| ring.covers(square))
}

/// For each line `x`, whether some ring covers the square `(x, y)`.
fn row_of(alloc: Global, rings: &[Ring], xs: &[i64], y: i64) -> Result<Vec<bool>, AllocError>
    ensures { IfOk result (λ row. IsRowOf rings.now xs.now y row.items) }
{
    let mut cells = Vec::new(alloc);
    for x in xs {
        cells.push(some_covers(rings, Square { x: *x, y }))?;
    }
    Ok(cells)
}

/// The cell after `passed` lines, or `false` before the first line.
fn cell_after(cells: &[bool], passed: usize) -> bool
    ensures { result ≡ slice_index_or (false ∷ cells.now) passed false }
{
    if passed == 0 || cells.len() < passed {
        return false;
    }
    cells[passed - 1]
}

/// The row after `passed` lines, or an empty one before the first line.
fn row_after(rows: &[Vec<bool>], passed: usize) -> &[bool]
    ensures { result.now ≡ slice_index_or ([] ∷ map (λ row. row.items) rows.now) passed [] }
{
    if passed == 0 || rows.len() < passed {
        return &[];
    }
    &rows[passed - 1]
}

impl Region for GridRegion {
    ghost holds = { λ g s. IsMarked g.xs.items g.ys.items g.rows.items s };

    fn build(alloc: Global, rings: &[Ring]) -> Result<Self, AllocError> {
        let xs = lines_of(alloc, rings, Axis::X)?;
        let ys = lines_of(alloc, rings, Axis::Y)?;
        let mut rows = Vec::new(alloc);
        for y in &ys {
            rows.push(row_of(alloc, rings, &xs, *y)?)?;
        }
        Ok(GridRegion { xs, ys, rows })
    }

    fn covers(&self, square: Square) -> bool {
        let row = row_after(&self.rows, count_passed(&self.ys, square.y));
        cell_after(row, count_passed(&self.xs, square.x))
    }

    /// Returns the least such square in the order of squares, though the contract doesn't promise
    /// it.
    fn first_difference(&self, other: &Self) -> Option<(Square, Side)> {
        difference_on_rows(self, other, &self.ys, &other.ys)
    }
}

/// A square that only one of the two covers, on the least line of both lists of rows that has one,
/// or None if there is none on these lines.
fn difference_on_rows(
    a: &GridRegion,
    b: &GridRegion,
    ours: &[i64],
    theirs: &[i64],
) -> Option<(Square, Side)>
    ensures same_ours { IfNone result (AgreeOnRows a.now b.now ours.now) }
    ensures same_theirs { IfNone result (AgreeOnRows a.now b.now theirs.now) }
    ensures differ { IfSome result (λ found. IsAlone (holds_grid a.now) (holds_grid b.now) found.0 found.1) }
{
    let mut i = 0;
    let mut j = 0;
    while let Some(y) = next_line(ours, i, theirs, j) {
        if let Some(found) = difference_on_row(a, b, &a.xs, &b.xs, y) {
            return Some(found);
        }
        i = step_past(ours, i, y);
        j = step_past(theirs, j, y);
    }
    None
}

/// A square of row `y` that only one of the two covers, on the least line of both lists that has
/// one, or None if there is none on these lines.
fn difference_on_row(
    a: &GridRegion,
    b: &GridRegion,
    ours: &[i64],
    theirs: &[i64],
    y: i64,
) -> Option<(Square, Side)>
    ensures same_ours { IfNone result (AgreeOn a.now b.now ours.now y) }
    ensures same_theirs { IfNone result (AgreeOn a.now b.now theirs.now y) }
    ensures differ { IfSome result (λ found. IsAlone (holds_grid a.now) (holds_grid b.now) found.0 found.1) }
{
    let mut i = 0;
    let mut j = 0;
    while let Some(x) = next_line(ours, i, theirs, j) {
        let square = Square { x, y };
        if let Some(side) = side_at(a, b, square) {
            return Some((square, side));
        }
        i = step_past(ours, i, x);
        j = step_past(theirs, j, x);
    }
    None
}

/// The only side that covers the square, or None if both or neither does.
#[tactic(auto, unfolding(crate::specs::Agree::AgreeAt))]
fn side_at(a: &GridRegion, b: &GridRegion, square: Square) -> Option<Side>
    ensures same { IfNone result (AgreeAt a.now b.now square) }
    ensures differ { IfSome result (λ side. IsAlone (holds_grid a.now) (holds_grid b.now) square side) }
{
    match (a.covers(square), b.covers(square)) {
        (true, false) => Some(Side::First),
        (false, true) => Some(Side::Second),
        _ => None,
    }
}
