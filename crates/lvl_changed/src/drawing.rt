//! The Layers on which the cells of a library draw, with all that they place.
ghost use Rattle.std.specs.Prelude.{◌≡◌, ◌<◌, length, List, map, None, Some, IfOk, OnOk, slice_set, vec_len};
ghost use Rattle.std.specs.List.{range_with_len};
ghost use Rattle.lvl_grid.specs.declared.point.Square.{Square};
ghost use Rattle.lvl_names.specs.declared.layer.Layer.{Layer as PlainLayer};
ghost use Rattle.lvl_cells.specs.Cells.{PlainCell, Rings};
ghost use Rattle.lvl_flat.specs.Flattened.{CoversAt};
ghost use Rattle.lvl_view.specs.Views.{target_of};
ghost use Rattle.lvl_changed.specs.inside.Drawing.{AreDrawnOn, IsDrawnOn};
ghost use Rattle.lvl_changed.specs.inside.Layers.{IsOn, Spreads};
ghost use Rattle.lvl_changed.specs.inside.Shapes.{ShapesCover};

use crate::layers::Layers;
use lvl_cells::{Checked, Shapes};
use lvl_view::View;
use std::alloc::{AllocError, Global};

/// Adds the Layers on which a cell draws, as the view maps them, or every Layer if nothing is known
/// for the cell.
pub(crate) fn add_drawn(
    layers: &mut Layers,
    drawn: &[Option<Layers>],
    cell: usize,
    view: &View,
) -> Result<(), AllocError>
    ensures added { OnOk result ((cells : List (PlainCell Rings)) → AreDrawnOn cells drawn.now
        → (layer : PlainLayer) (s : Square) → CoversAt cells cell layer s
        → IsOn layers.new (target_of view.now.pairs layer)) }
    ensures kept { OnOk result (Spreads layers.old layers.new) }
{
    match drawn.get(cell) {
        Some(Some(others)) => layers.add_mapped(others, view),
        _ => {
            layers.add_every();
            Ok(())
        }
    }
}

/// Adds the Layers of shapes.
fn add_shapes(layers: &mut Layers, shapes: &Shapes) -> Result<(), AllocError>
    ensures added { OnOk result ((layer : PlainLayer) (s : Square)
        → ShapesCover shapes.now layer s → IsOn layers.new layer) }
    ensures kept { OnOk result (Spreads layers.old layers.new) }
{
    for i in 0..shapes.len() {
        layers.add(shapes.layer(i))?;
    }
    Ok(())
}

/// The Layers on which a cell draws, if those are known on which the cells draw that it places.
fn drawn_of(
    alloc: Global,
    checked: &Checked,
    cell: usize,
    drawn: &[Option<Layers>],
) -> Result<Layers, AllocError>
    requires { cell < length checked.now.cells }
    ensures { IfOk result (λ layers. AreDrawnOn checked.now.cells drawn.now
        → IsDrawnOn checked.now.cells cell layers) }
{
    let whole = View::whole(alloc);
    let mut layers = Layers::none(alloc);
    let parent = &checked.cells()[cell];
    add_shapes(&mut layers, &parent.shapes)?;
    for j in 0..parent.references.len() {
        add_drawn(&mut layers, drawn, checked.target_of(cell, j), &whole)?;
    }
    Ok(layers)
}

/// A list that says that nothing is known for `count` cells.
fn none_drawn(alloc: Global, count: usize) -> Result<Vec<Option<Layers>>, AllocError>
    ensures { IfOk result (λ drawn. drawn.items ≡ map (λ _. None) (range_with_len 0 count)) }
{
    (0..count).map(|_| None).collect(alloc)
}

/// Stores on which Layers the cell at an index draws.
fn keep_drawn(drawn: &mut Vec<Option<Layers>>, cell: usize, layers: Layers)
    requires { cell < vec_len drawn.old }
    ensures kept { drawn.new.items ≡ slice_set drawn.old.items cell (Some layers) }
    ensures long { vec_len drawn.new ≡ vec_len drawn.old }
{
    drawn[cell] = Some(layers);
}

/// For each cell that is placed, the Layers on which it draws, with all that it places.
pub(crate) fn drawn_by_cells(
    alloc: Global,
    checked: &Checked,
) -> Result<Vec<Option<Layers>>, AllocError>
    ensures { IfOk result (λ drawn. AreDrawnOn checked.now.cells drawn.items) }
{
    let times = checked.times();
    let mut drawn = none_drawn(alloc, checked.cells().len())?;
    for i in (0..checked.order().len()).rev() {
        let cell = checked.order()[i];
        if times[cell] == 0 {
            continue;
        }
        let layers = drawn_of(alloc, checked, cell, &drawn)?;
        keep_drawn(&mut drawn, cell, layers);
    }
    Ok(drawn)
}
