//! The shapes of a cell that another doesn't have.
ghost use Rattle.std.specs.Prelude.{◌≡◌, ◌<◌, ◌↔◌, ◌⊎◌, [], length, IfOk, OnOk};
ghost use Rattle.lvl_grid.specs.declared.point.Square.{Square};
ghost use Rattle.lvl_grid.specs.Winding.{SomeCovers};
ghost use Rattle.lvl_names.specs.declared.layer.Layer.{Layer as PlainLayer};
ghost use Rattle.lvl_cells.specs.Cells.{shape_at};
ghost use Rattle.lvl_cells.specs.Coverage.{ShapeCovers};
ghost use Rattle.lvl_changed.specs.inside.Figures.{AreLeft};
ghost use Rattle.lvl_changed.specs.inside.Shapes.{put_on, ShapesCover};

use crate::figures::{Seen, has_shape};
use crate::twins::{Near, twins_of};
use lvl_cells::{Cell, References, Shapes};
use lvl_names::{Layer, Name, Offsets};
use std::alloc::{AllocError, Global};

/// Appends the rings of shape `i` with its shifts to those on a Layer, each ring as a shape.
pub(crate) fn push_shape(
    alloc: Global,
    left: &mut Shapes,
    on: Layer,
    shapes: &Shapes,
    i: usize,
    shifts: &Offsets,
) -> Result<(), AllocError>
    requires within { i < length shapes.now }
    requires shifts { shifts.now ≡ (shape_at shapes.now i).shifts }
    ensures { OnOk result ((layer : PlainLayer) (s : Square) → ShapesCover left.new layer s
        ↔ (ShapesCover left.old layer s ⊎ ShapeCovers SomeCovers layer s (put_on on (shape_at shapes.now i)))) }
{
    for j in 0..shapes.ring_count(i) {
        let ring = shapes.ring(i, j);
        let points = ring.to_points(alloc)?;
        left.push_ring(on, &points, shifts)?;
    }
    Ok(())
}

/// Appends shape `i` on a Layer, its rings as shapes of their own.
fn push_left(
    alloc: Global,
    left: &mut Shapes,
    on: Layer,
    shapes: &Shapes,
    i: usize,
) -> Result<(), AllocError>
    requires { i < length shapes.now }
    ensures { OnOk result ((layer : PlainLayer) (s : Square) → ShapesCover left.new layer s
        ↔ (ShapesCover left.old layer s ⊎ ShapeCovers SomeCovers layer s (put_on on (shape_at shapes.now i)))) }
{
    match shapes.shifts(i) {
        Some(shifts) => push_shape(alloc, left, on, shapes, i, shifts),
        None => push_shape(alloc, left, on, shapes, i, &Offsets::single()),
    }
}

/// Those of the shapes that the others don't have, given which of these each may be the same as. They are on the
/// Layers to which their view maps theirs.
pub(crate) fn alone(
    alloc: Global,
    seen: Seen<'_>,
    others: Seen<'_>,
    twins: &[u32],
) -> Result<Shapes, AllocError>
    ensures { IfOk result (AreLeft seen.entry.view.now.pairs seen.entry.shapes.now others.entry.view.now.pairs
        others.entry.shapes.now) }
{
    let mut left = Shapes::new(alloc);
    let mut near = Near::none();
    for i in 0..seen.shapes.len() {
        let twin = near.twin(others, twins, i);
        if !has_shape(others, twin, seen, i) {
            let on = seen.view.target(seen.shapes.layer(i));
            push_left(alloc, &mut left, on, seen.shapes, i)?;
        }
    }
    Ok(left)
}

/// Of two lists of shapes, those of each that the other doesn't have, on the Layers to which their views map theirs.
pub(crate) fn left_of_shapes(
    alloc: Global,
    ours: Seen<'_>,
    theirs: Seen<'_>,
) -> Result<(Shapes, Shapes), AllocError>
    ensures ours { IfOk result (λ left. AreLeft ours.entry.view.now.pairs ours.entry.shapes.now
        theirs.entry.view.now.pairs theirs.entry.shapes.now left.0) }
    ensures theirs { IfOk result (λ left. AreLeft theirs.entry.view.now.pairs theirs.entry.shapes.now
        ours.entry.view.now.pairs ours.entry.shapes.now left.1) }
{
    let twins = twins_of(alloc, ours, theirs)?;
    let left = alone(alloc, ours, theirs, &twins.ours)?;
    let their_left = alone(alloc, theirs, ours, &twins.theirs)?;
    Ok((left, their_left))
}

/// A cell that has these shapes alone.
pub(crate) fn cell_of(alloc: Global, shapes: Shapes) -> Cell
    ensures { result ≡ record { name = []; shapes = shapes; references = [] } }
{
    Cell {
        name: Name::empty(),
        shapes,
        references: References::new(alloc),
    }
}
