//! What an array of a cell places, one level down: the shapes of the cell, and arrays of the cells that it places.
//!
//! A tool writes cells for what another draws, or the other way round: vias, fill, rows of cells. Opened, both are
//! shapes that are found to be the same. A comparison of a system on a chip of 1.9 million placed rings with one whose
//! vias are drawn in its blocks takes an eighth of the time that it takes without; with fill as cells a half, with rows
//! of cells a third.
ghost use Rattle.std.specs.Prelude.{◌≡◌, ◌⊎◌, ◌<◌, false, length, slice_get, IfOk, IfSome, IsTrue, OnOk, Some};
ghost use Rattle.lvl_grid.specs.declared.point.Square.{Square};
ghost use Rattle.lvl_grid.specs.Winding.{IsRing};
ghost use Rattle.lvl_names.specs.declared.layer.Layer.{Layer as PlainLayer};
ghost use Rattle.lvl_cells.specs.Cells.{PlainCell, Rings as CellRings, shape_at};
ghost use Rattle.lvl_view.specs.Moved.{IsMoved};
ghost use Rattle.lvl_changed.specs.inside.Arrays.{each_place, every_place};
ghost use Rattle.lvl_changed.specs.inside.Opening.{Adds, IsUnder, RingCovers};
ghost use Rattle.lvl_changed.specs.inside.Placements.{PlacedCover, ReferencesCover};
ghost use Rattle.lvl_changed.specs.inside.Shapes.{FigureCovers, ShapesCover};
ghost use Rattle.lvl_changed.specs.inside.Shifts.{AreSums};

use crate::arrays::{Array, in_order, inner_of, reference_at};
use crate::lattices::sums;
use lvl_cells::{Checked, MovedRing, Shapes};
use lvl_grid::{Map, PlaceFault, Point, Rings};
use lvl_names::{Layer, Offsets};
use lvl_view::View;
use std::alloc::{AllocError, Global};

/// Appends a ring, placed by the map, with these shifts. Returns whether its points are within 64 signed bits; else
/// nothing is appended.
fn open_ring(
    alloc: Global,
    shapes: &mut Shapes,
    on: Layer,
    ring: &MovedRing<'_>,
    by: &Map,
    shifts: &Offsets,
) -> Result<bool, AllocError>
    requires { IsRing ring.now }
    ensures { IfOk result (Adds (ShapesCover shapes.old) (ShapesCover shapes.new)
        (λ layer s. (on ≡ layer) × RingCovers by.now ring.now shifts.now s)) }
{
    let zero = Point { x: 0, y: 0 };
    let mut placed = Rings::new(alloc);
    match ring.push_placed(alloc, &mut placed, zero, by) {
        Ok(()) => {
            shapes.push_ring(on, placed.ring(0), shifts)?;
            Ok(true)
        }
        Err(PlaceFault::OutOfRange) => Ok(false),
        Err(PlaceFault::OutOfMemory) => Err(AllocError),
    }
}

/// The shifts of shape `i` where an array places it, or None if they can't be kept as one list.
fn shifts_under(array: &Array, shapes: &Shapes, i: usize) -> Result<Option<Offsets>, AllocError>
    requires { i < length shapes.now }
    ensures { IfOk result (λ found. IfSome found
        (AreSums array.now.by array.now.shifts (shape_at shapes.now i).shifts)) }
{
    match shapes.shifts(i) {
        Some(shifts) => sums(&array.shifts, shifts, &array.by),
        None => sums(&array.shifts, &Offsets::single(), &array.by),
    }
}

/// Appends shape `i` where an array places it, on a Layer. Returns whether it could all be appended.
fn open_shape(
    alloc: Global,
    opened: &mut Shapes,
    on: Layer,
    shapes: &Shapes,
    i: usize,
    array: &Array,
) -> Result<bool, AllocError>
    requires { i < length shapes.now }
    ensures { IfOk result (Adds (ShapesCover opened.old) (ShapesCover opened.new)
        (λ layer s. (on ≡ layer) × IsUnder array.now (FigureCovers (shape_at shapes.now i)) s)) }
{
    let Some(shifts) = shifts_under(array, shapes, i)? else {
        return Ok(false);
    };
    for j in 0..shapes.ring_count(i) {
        if !open_ring(alloc, opened, on, &shapes.ring(i, j), &array.by, &shifts)? {
            return Ok(false);
        }
    }
    Ok(true)
}

/// Appends shapes where an array places them, on their Layers as the view maps them. Returns whether all could be
/// appended.
fn open_shapes(
    alloc: Global,
    opened: &mut Shapes,
    shapes: &Shapes,
    view: &View,
    array: &Array,
) -> Result<bool, AllocError>
    ensures { IfOk result (Adds (ShapesCover opened.old) (ShapesCover opened.new)
        (IsMoved view.now.pairs (λ layer. IsUnder array.now (ShapesCover shapes.now layer)))) }
{
    for i in 0..shapes.len() {
        let on = view.target(shapes.layer(i));
        if !open_shape(alloc, opened, on, shapes, i, array)? {
            return Ok(false);
        }
    }
    Ok(true)
}

/// Appends what the references of the cell of an array place where the array places it. Returns whether all could be
/// appended.
fn open_references(
    opened: &mut Vec<Array>,
    checked: &Checked,
    array: &Array,
) -> Result<bool, AllocError>
    requires { array.now.cell < length checked.now.cells }
    ensures { IfOk result (λ all. (c : PlainCell CellRings) → slice_get checked.now.cells array.now.cell ≡ Some c
        → Adds (PlacedCover checked.now.cells (every_place opened.old.items))
        (PlacedCover checked.now.cells (every_place opened.new.items))
        (λ layer. IsUnder array.now (ReferencesCover checked.now.cells c.references layer)) all) }
{
    let parent = &checked.cells()[array.cell];
    for j in 0..parent.references.len() {
        let inner = reference_at(checked, array.cell, j)?;
        let Some(outer) = inner_of(array, &inner)? else {
            return Ok(false);
        };
        opened.push(in_order(outer))?;
    }
    Ok(true)
}

/// Appends the shapes and the references of the cell of an array, where the array places it, the shapes on their
/// Layers as the view maps them. Returns whether all could be appended.
pub(crate) fn open_array(
    alloc: Global,
    shapes: &mut Shapes,
    arrays: &mut Vec<Array>,
    checked: &Checked,
    view: &View,
    array: &Array,
) -> Result<bool, AllocError>
    ensures shapes { OnOk result (Adds (ShapesCover shapes.old) (ShapesCover shapes.new)
        (IsMoved view.now.pairs (PlacedCover checked.now.cells (each_place array.now))) false) }
    ensures arrays { OnOk result (Adds (PlacedCover checked.now.cells (every_place arrays.old.items))
        (PlacedCover checked.now.cells (every_place arrays.new.items))
        (PlacedCover checked.now.cells (each_place array.now)) false) }
    ensures all { IfOk result (λ all. IsTrue all → (layer : PlainLayer) (s : Square)
        → IsMoved view.now.pairs (PlacedCover checked.now.cells (each_place array.now)) layer s
        → ShapesCover shapes.new layer s
        ⊎ IsMoved view.now.pairs (PlacedCover checked.now.cells (every_place arrays.new.items)) layer s) }
{
    if array.cell >= checked.cells().len() {
        return Ok(false);
    }
    let cell = checked.cell(array.cell);
    if !open_shapes(alloc, shapes, &cell.shapes, view, array)? {
        return Ok(false);
    }
    open_references(arrays, checked, array)
}
