//! The Layers on which the cells of a library, sound or not, have shapes.
ghost use Rattle.std.specs.Prelude.{◌≡◌, ◌<◌, ◌||◌, length, IfOk, IsTrue, OnOk};
ghost use Rattle.std.specs.List.{list_any};
ghost use Rattle.lvl_names.specs.Layers.{same_layer};
ghost use Rattle.lvl_names.specs.declared.layer.Layer.{Layer as LayerAt};
ghost use Rattle.lvl_view.specs.Views.{sources};
ghost use Rattle.lvl_count.specs.Drawn.{first_undrawn};
ghost use Rattle.lvl_count.specs.inside.Drawing.{HasDrawn, IsOnSame, has_layer};

use lvl_cells::{Cell, Shapes};
use lvl_names::Layer;
use lvl_view::View;
use std::alloc::{AllocError, Global};
use std::collections::BTreeSet;

/// Whether a shape is on the Layer of the one before it.
fn is_on_same(shapes: &Shapes, i: usize) -> bool
    requires { i < length shapes.now }
    ensures { IsTrue result → IsOnSame shapes.now i }
{
    i > 0 && shapes.layer(i) == shapes.layer(i - 1)
}

/// Adds the Layers of shapes to a set.
fn add_layers(drawn: &mut BTreeSet<Layer>, shapes: &Shapes) -> Result<(), AllocError>
    ensures { OnOk result ((q : LayerAt) → has_layer drawn.new q
        ≡ (has_layer drawn.old q || list_any (λ h. same_layer h.layer q) shapes.now)) }
{
    for i in 0..shapes.len() {
        if !is_on_same(shapes, i) {
            drawn.insert(shapes.layer(i))?;
        }
    }
    Ok(())
}

/// The Layers on which cells have shapes.
fn drawn_layers(alloc: Global, cells: &[Cell]) -> Result<BTreeSet<Layer>, AllocError>
    ensures { IfOk result (λ drawn. HasDrawn drawn cells.now) }
{
    let mut drawn = BTreeSet::new(alloc);
    for cell in cells {
        add_layers(&mut drawn, &cell.shapes)?;
    }
    Ok(drawn)
}

/// The first source of the map on which no cell has a shape, if there is one. The library needn't be sound.
pub fn first_undrawn(
    alloc: Global,
    cells: &[Cell],
    view: &View,
) -> Result<Option<Layer>, AllocError>
    ensures { IfOk result (λ found. found ≡ first_undrawn cells.now (sources view.now.pairs)) }
{
    if !view.has_map() {
        return Ok(None);
    }
    let drawn = drawn_layers(alloc, cells)?;
    Ok(
        view.pairs()
            .iter()
            .map(|pair| pair.source)
            .find(|source| !drawn.contains(source)),
    )
}
