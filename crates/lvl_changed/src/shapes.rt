//! Where the own shapes of two cells may cover different squares.
ghost use Rattle.std.specs.Prelude.{◌<◌, ◌↔◌, length, IfOk, IfSome, OnOk};
ghost use Rattle.lvl_grid.specs.declared.point.Square.{Square};
ghost use Rattle.lvl_grid.specs.Clip.{IsInWindow};
ghost use Rattle.lvl_grid.specs.Winding.{SomeCovers};
ghost use Rattle.lvl_names.specs.declared.layer.Layer.{Layer as PlainLayer};
ghost use Rattle.lvl_cells.specs.Cells.{shape_at};
ghost use Rattle.lvl_cells.specs.Coverage.{ShapeCovers};
ghost use Rattle.lvl_view.specs.Moved.{IsMoved};
ghost use Rattle.lvl_view.specs.Views.{target_of};
ghost use Rattle.lvl_changed.specs.inside.Areas.{AlikeOutside, Grows, IsIn};
ghost use Rattle.lvl_changed.specs.inside.Shapes.{ShapesCover, FlatCovers, HasMoved};

use crate::area::Area;
use crate::corners::between;
use crate::left::cell_of;
use crate::pays::rings_of;
use crate::rings::hold_rings;
use crate::shifts::moved;
use lvl_cells::{Cell, MovedRing, Shapes};
use lvl_compare::{lesser, past};
use lvl_flat::{Flat, flatten_shapes};
use lvl_grid::{Point, Window};
use lvl_names::Layer;
use lvl_refusal::Cause;
use lvl_view::View;
use std::alloc::{AllocError, Global};

/// The greatest number of rings of two cells that are flattened to find where they differ.
const MOST_FLATTENED: u64 = 1_048_576;

/// The rings of a cell's own shapes, or None if a vertex is outside 64 signed bits.
fn shapes_of(alloc: Global, cell: &Cell) -> Result<Option<Flat>, AllocError>
    ensures { IfOk result (λ found. IfSome found (λ flat. (layer : PlainLayer) (s : Square)
        → FlatCovers flat layer s ↔ ShapesCover cell.now.shapes layer s)) }
{
    match flatten_shapes(alloc, cell) {
        Ok(flat) => Ok(Some(flat)),
        Err(Cause::Breach(_)) => Ok(None),
        Err(Cause::OutOfMemory) => Err(AllocError),
    }
}

/// Adds an area outside of which both flat layouts cover the same squares.
fn hold_flats(area: &mut Area, alloc: Global, ours: &Flat, theirs: &Flat) -> Result<(), AllocError>
    ensures held { OnOk result (AlikeOutside area.new (FlatCovers ours.now) (FlatCovers theirs.now)) }
    ensures kept { OnOk result (Grows area.old area.new) }
{
    let mut our_place = 0;
    let mut their_place = 0;
    while let Some(layer) = lesser(ours.layer(our_place), theirs.layer(their_place)) {
        let (a, b) = (ours.rings(layer), theirs.rings(layer));
        hold_rings(area, alloc, layer, a, b)?;
        our_place = past(ours, our_place, layer);
        their_place = past(theirs, their_place, layer);
    }
    Ok(())
}

/// Adds an area outside of which the shapes of both cells, which are flattened, cover the same squares.
fn hold_flattened(
    area: &mut Area,
    alloc: Global,
    ours: &Cell,
    theirs: &Cell,
) -> Result<(), AllocError>
    ensures held { OnOk result (AlikeOutside area.new (ShapesCover ours.now.shapes) (ShapesCover theirs.now.shapes)) }
    ensures kept { OnOk result (Grows area.old area.new) }
{
    let Some(ours) = shapes_of(alloc, ours)? else {
        area.hold_anywhere();
        return Ok(());
    };
    let Some(theirs) = shapes_of(alloc, theirs)? else {
        area.hold_anywhere();
        return Ok(());
    };
    hold_flats(area, alloc, &ours, &theirs)
}

/// A window that has all squares that a ring covers after a move by any of the shifts, whose least
/// and greatest coordinates are given. None if it would leave 64 signed bits.
fn extent_of(ring: &MovedRing<'_>, reach: (Point, Point)) -> Option<Window>
    ensures { IfSome result (λ window. HasMoved ring.now reach.0 reach.1 (IsInWindow window)) }
{
    let (least, greatest) = ring.reach()?;
    let low = moved(least, reach.0)?;
    let high = moved(greatest, reach.1)?;
    Some(between(low, high))
}

/// Adds a window on the Layer that has all that [`extent_of`] says.
fn hold_ring(
    area: &mut Area,
    layer: Layer,
    ring: &MovedRing<'_>,
    reach: (Point, Point),
) -> Result<(), AllocError>
    ensures held { OnOk result (HasMoved ring.now reach.0 reach.1 (IsIn area.new layer)) }
    ensures kept { OnOk result (Grows area.old area.new) }
{
    match extent_of(ring, reach) {
        Some(window) => area.hold(layer, window),
        None => {
            area.hold_anywhere();
            Ok(())
        }
    }
}

/// Adds all squares that shape `i` covers, on its Layer as the view maps it.
fn hold_shape(area: &mut Area, shapes: &Shapes, i: usize, view: &View) -> Result<(), AllocError>
    requires { i < length shapes.now }
    ensures held { OnOk result ((layer : PlainLayer) (s : Square)
        → (¬ IsIn area.new (target_of view.now.pairs layer) s)
        → ¬ ShapeCovers SomeCovers layer s (shape_at shapes.now i)) }
    ensures kept { OnOk result (Grows area.old area.new) }
{
    let layer = view.target(shapes.layer(i));
    for j in 0..shapes.ring_count(i) {
        let ring = shapes.ring(i, j);
        hold_ring(area, layer, &ring, shapes.reach(i))?;
    }
    Ok(())
}

/// Adds all squares that the shapes cover, on their Layers as the view maps them.
pub(crate) fn hold_extents(area: &mut Area, shapes: &Shapes, view: &View) -> Result<(), AllocError>
    ensures held { OnOk result ((layer : PlainLayer) (s : Square)
        → (¬ IsIn area.new (target_of view.now.pairs layer) s) → ¬ ShapesCover shapes.now layer s) }
    ensures kept { OnOk result (Grows area.old area.new) }
{
    for i in 0..shapes.len() {
        hold_shape(area, shapes, i, view)?;
    }
    Ok(())
}

/// Adds an area outside of which two lists of shapes cover the same squares. They are flattened, unless these are
/// more than [`MOST_FLATTENED`] rings.
pub(crate) fn hold_shapes(
    area: &mut Area,
    alloc: Global,
    ours: Shapes,
    theirs: Shapes,
) -> Result<(), AllocError>
    ensures held { OnOk result (AlikeOutside area.new (ShapesCover ours) (ShapesCover theirs)) }
    ensures kept { OnOk result (Grows area.old area.new) }
{
    let ours = cell_of(alloc, ours);
    let theirs = cell_of(alloc, theirs);
    if rings_of(&ours).saturating_add(rings_of(&theirs)) <= MOST_FLATTENED {
        return hold_flattened(area, alloc, &ours, &theirs);
    }
    let whole = View::whole(alloc);
    hold_extents(area, &ours.shapes, &whole)?;
    hold_extents(area, &theirs.shapes, &whole)?;
    Ok(())
}
