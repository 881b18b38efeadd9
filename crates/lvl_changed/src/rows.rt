//! Arrays whose lattices have two directions, as one array for each of their rows.
ghost use Rattle.std.specs.Prelude.{◌≡◌, ◌<◌, ◌++◌, ◌↔◌, IsTrue, IfOk, IfSome, OnOk, List};
ghost use Rattle.lvl_grid.specs.declared.point.Square.{Square};
ghost use Rattle.lvl_names.specs.declared.layer.Layer.{Layer};
ghost use Rattle.lvl_cells.specs.Cells.{PlainCell, Rings as CellRings};
ghost use Rattle.lvl_changed.specs.inside.Arrays.{each_place, every_place};
ghost use Rattle.lvl_changed.specs.inside.Placements.{PlacedCover};
ghost use Rattle.lvl_changed.specs.inside.Rows.{AddsRows, AreRowsOf, AreSplit, RowsCover, row_at};

use crate::arrays::{Array, is_at, skip};
use crate::lattices::{Rows, rows_of, times};
use crate::shifts::moved;
use lvl_grid::Map;
use std::alloc::{AllocError, Global};

/// The greatest number of rows into which the arrays of a cell are split.
const MOST_ROWS: u64 = 65_536;

/// Row `j` of an array, or None if it begins outside 64 bits.
fn row_of(array: &Array, rows: &Rows, j: u64) -> Result<Option<Array>, AllocError>
    ensures { IfOk result (λ found. IfSome found (λ row. row ≡ row_at array.now rows.now j)) }
{
    let Map { flip, turn, at } = array.by;
    let Some(up) = times(rows.up, j) else {
        return Ok(None);
    };
    let Some(at) = moved(up, at) else {
        return Ok(None);
    };
    let by = Map { flip, turn, at };
    let shifts = rows.line.clone()?;
    let cell = array.cell;
    Ok(Some(Array { cell, by, shifts }))
}

/// All rows of an array, or None if one of them begins outside 64 bits.
fn all_rows(alloc: Global, array: &Array, rows: &Rows) -> Result<Option<Vec<Array>>, AllocError>
    ensures { IfOk result (λ found. IfSome found (λ all. (cells : List (PlainCell CellRings)) (layer : Layer) (s : Square)
        → PlacedCover cells (every_place all.items) layer s
        ↔ RowsCover cells array.now rows.now rows.now.count layer s)) }
{
    let mut all = Vec::new(alloc);
    for j in 0..rows.count {
        let Some(row) = row_of(array, rows, j)? else {
            return Ok(None);
        };
        all.push(row)?;
    }
    Ok(Some(all))
}

/// The rows of an array if it has more than one and at most `most`, else the array itself.
fn split(alloc: Global, array: &Array, most: u64) -> Result<Option<Vec<Array>>, AllocError>
    ensures { IfOk result (λ found. IfSome found (λ all. (cells : List (PlainCell CellRings)) (layer : Layer) (s : Square)
        → PlacedCover cells (every_place all.items) layer s
        ↔ PlacedCover cells (each_place array.now) layer s)) }
{
    let Some(rows) = rows_of(&array.shifts) else {
        return Ok(None);
    };
    if rows.count > most {
        return Ok(None);
    }
    all_rows(alloc, array, &rows)
}

/// Adds the rows of an array, or the array itself if it has one row, or if there would be more than
/// [`MOST_ROWS`].
fn add_split(alloc: Global, all: &mut Vec<Array>, array: &Array) -> Result<(), AllocError>
    ensures { OnOk result (AddsRows all.old.items all.new.items array.now) }
{
    let most = MOST_ROWS.saturating_sub(all.len() as u64);
    match split(alloc, array, most)? {
        Some(mut rows) => {
            all.append(&mut rows)?;
            Ok(())
        }
        None => {
            all.push(array.copied()?)?;
            Ok(())
        }
    }
}

/// Those arrays that aren't among the others, as rows. Both lists should be sorted, or more are split
/// than need be.
pub(crate) fn split_alone(
    alloc: Global,
    arrays: &[Array],
    others: &[Array],
) -> Result<Vec<Array>, AllocError>
    ensures { IfOk result (λ split. AreSplit arrays.now others.now split.items) }
{
    let mut split = Vec::new(alloc);
    let mut at = 0;
    for array in arrays {
        at = skip(others, at, array);
        if !is_at(others, at, array) {
            add_split(alloc, &mut split, array)?;
        }
    }
    Ok(split)
}
