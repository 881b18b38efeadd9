//! Lists of rings compared by grids, by slab lists, by sweeps and by columns, and their bands.
mod bands;
mod lists;

use crate::words::{cut, holds, point, rings_of, rows_hold};
use lvl_columns::difference_by_columns;
use lvl_grid::{Point, Ring, Rings, Square};
use lvl_region::{GridRegion, Region, Side, difference};
use lvl_sweep::{SlabRegion, first_difference_of};
use std::alloc::{AllocError, Global};
use std::test::Fail;

/// The least square that one list alone covers.
type Found = Option<(Square, Side)>;

/// What is found where the lists are exchanged.
fn exchanged(found: Found) -> Found {
    match found {
        Some((square, Side::First)) => Some((square, Side::Second)),
        Some((square, Side::Second)) => Some((square, Side::First)),
        None => None,
    }
}

fn found_by_columns(alloc: Global, first: &[Ring], second: &[Ring]) -> Result<Found, AllocError> {
    let first = Rings::from_slice(alloc, first)?;
    difference_by_columns(alloc, &first, &Rings::from_slice(alloc, second)?)
}

/// Whether the lists differ first there, by sweeps, by slab lists and by columns.
fn all_find(
    alloc: Global,
    first: &[Ring],
    second: &[Ring],
    found: Found,
) -> Result<bool, AllocError> {
    Ok(
        first_difference_of(alloc, first, second)? == found
            && difference::<SlabRegion>(alloc, first, second)? == found
            && found_by_columns(alloc, first, second)? == found,
    )
}

/// Whether they do, and with the lists exchanged.
fn differ_at(
    alloc: Global,
    first: &[Ring],
    second: &[Ring],
    found: Found,
) -> Result<bool, AllocError> {
    Ok(all_find(alloc, first, second, found)? && all_find(alloc, second, first, exchanged(found))?)
}

/// Whether they do by grids, and the first does not differ from itself.
fn grids_differ_at(
    alloc: Global,
    first: &[Ring],
    second: &[Ring],
    found: Found,
) -> Result<bool, AllocError> {
    Ok(
        difference::<GridRegion>(alloc, first, second)? == found
            && difference::<GridRegion>(alloc, second, first)? == exchanged(found)
            && difference::<GridRegion>(alloc, first, first)?.is_none(),
    )
}

fn at(x: i64, y: i64, side: Side) -> Found {
    Some((Square { x, y }, side))
}

fn found_of(text: &str) -> Result<Found, Fail> {
    let (side, place) = cut(text, " ");
    if side == "-" {
        return Ok(None);
    }
    let Point { x, y } = point(place)?;
    let side = if side == "first" {
        Side::First
    } else {
        Side::Second
    };
    Ok(at(x, y, side))
}

/// What a pair is, the corners of each ring of both lists, and the least square that one alone covers.
const PAIRS: &str = "\
two-rings-make-one | 0,0 5,0 5,5 0,5; 5,0 10,0 10,5 5,5 | 0,0 10,0 10,5 0,5 | -
flat-ring | | 0,0 0,5 0,0 | -
a flat ring is no square | 0,0 0,5 0,0 | 0,0 10,0 10,5 0,5 | second 0,0
reversed-ring | 0,0 10,0 10,10 0,10; 0,0 0,10 10,10 10,0 | 0,0 10,0 10,10 0,10 | -
twice-round | 0,0 4,0 4,4 0,4 0,0 4,0 4,4 0,4 | 0,0 4,0 4,4 0,4 | -
bands-table, a missing corner | 0,0 20,0 20,10 10,10 10,20 0,20 | 0,0 20,0 20,20 0,20 | second 10,10
bands-that-touch | 0,0 4,0 4,10 0,10; 0,10 4,10 4,20 0,20 | 0,0 4,0 4,20 0,20 | -
bands-that-touch, with a gap | 0,0 4,0 4,10 0,10; 0,11 4,11 4,21 0,21 | 0,0 4,0 4,20 0,20 | second 0,10
one row short | 0,0 4294967296,0 4294967296,4294967296 0,4294967296 | \
    0,0 4294967296,0 4294967296,4294967295 0,4294967295 | first 0,4294967295
the whole range | -9223372036854775808,-9223372036854775808 9223372036854775807,-9223372036854775808 \
    9223372036854775807,9223372036854775807 -9223372036854775808,9223372036854775807 | | \
    first -9223372036854775808,-9223372036854775808
no rings | | | -
";

fn lists_differ_at(alloc: Global, row: &str) -> Result<bool, Fail> {
    let (first, row) = cut(row, " |");
    let (second, found) = cut(row, " | ");
    let first = rings_of(alloc, first)?;
    let second = rings_of(alloc, second)?;
    let found = found_of(found)?;
    Ok(differ_at(alloc, &first, &second, found)? && grids_differ_at(alloc, &first, &second, found)?)
}

/// Whether the lists of a row differ where it says.
fn row_differs_at(alloc: Global, row: &str) -> Result<bool, Fail> {
    let (_, row) = cut(row, " |");
    lists_differ_at(alloc, row)
}

#[test]
fn pairs_of_lists(rt: HostRuntime) -> Result<(), Fail> {
    rows_hold(rt.alloc(), PAIRS, row_differs_at)
}

/// Run with each allocation refused in turn as well.
#[test]
fn growths_of_pairs(rt: HostRuntime) -> Result<(), Fail> {
    let row = "0,0 20,0 20,10 10,10 10,20 0,20 | 0,0 20,0 20,20 0,20 | second 10,10";
    holds(lists_differ_at(rt.alloc(), row))
}

/// The corners of rings, a square, and whether their grid covers it.
const SQUARES: &str = "\
| 0,0 | false
| -9223372036854775808,9223372036854775807 | false
0,0 10,0 10,10 0,10 | 9,9 | true
0,0 10,0 10,10 0,10 | 10,9 | false
";

fn grid_covers(alloc: Global, rings: &str, square: Point) -> Result<bool, Fail> {
    let region = GridRegion::build(alloc, &rings_of(alloc, rings)?)?;
    let Point { x, y } = square;
    Ok(region.covers(Square { x, y }))
}

/// Whether the grid of a row covers its square where it says so.
fn row_is_covered(alloc: Global, row: &str) -> Result<bool, Fail> {
    let (rings, row) = cut(row, "| ");
    let (square, want) = cut(row, " | ");
    Ok(grid_covers(alloc, rings, point(square)?)? == (want == "true"))
}

#[test]
fn squares_of_a_grid(rt: HostRuntime) -> Result<(), Fail> {
    rows_hold(rt.alloc(), SQUARES, row_is_covered)
}
