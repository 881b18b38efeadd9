//! The Layers of a library, and empty sheets for Layers.
ghost use Rattle.std.specs.Prelude.{◌≡◌, [], All, AllPairs, IfOk, map};
ghost use Rattle.lvl_names.specs.Layers.{ComesBefore};
ghost use Rattle.lvl_flat.specs.Sheets.{AreSorted, ContainsAll};
ghost use Rattle.lvl_flat.specs.inside.Walking.{AllListed};

use crate::flat::Sheet;
use lvl_cells::Cell;
use lvl_grid::Rings;
use lvl_names::{Layer, in_order};
use std::alloc::{AllocError, Global};

/// The Layers of all shapes, in no order and with duplicates.
fn unordered_layers(alloc: Global, cells: &[Cell]) -> Result<Vec<Layer>, AllocError>
    ensures { IfOk result (λ layers. AllListed layers.items cells.now) }
{
    let mut layers = Vec::new(alloc);
    for cell in cells {
        cell.shapes.push_layers(&mut layers)?;
    }
    Ok(layers)
}

/// The Layers of all shapes, in their order, without duplicates.
pub(crate) fn layers_of(alloc: Global, cells: &[Cell]) -> Result<Vec<Layer>, AllocError>
    ensures rising { IfOk result (λ layers. AllPairs ComesBefore layers.items) }
    ensures all { IfOk result (λ layers. AllListed layers.items cells.now) }
{
    in_order(unordered_layers(alloc, cells)?)
}

/// An empty sheet for each Layer that a shape is on, in the order of the Layers.
pub(crate) fn sheets_of(alloc: Global, cells: &[Cell]) -> Result<Vec<Sheet>, AllocError>
    ensures sorted { IfOk result (λ sheets. AreSorted sheets.items) }
    ensures layers { IfOk result (λ sheets. AllListed (map (λ s. s.layer) sheets.items) cells.now) }
    ensures empty { IfOk result (λ sheets. All (λ s. s.rings ≡ []) sheets.items) }
{
    empty_sheets(alloc, &layers_of(alloc, cells)?)
}

/// An empty sheet for each of the Layers, in their order, without duplicates.
pub(crate) fn sheets_for(alloc: Global, layers: Vec<Layer>) -> Result<Vec<Sheet>, AllocError>
    ensures sorted { IfOk result (λ sheets. AreSorted sheets.items) }
    ensures layers { IfOk result (λ sheets. ContainsAll (map (λ s. s.layer) sheets.items) layers.items) }
    ensures empty { IfOk result (λ sheets. All (λ s. s.rings ≡ []) sheets.items) }
{
    empty_sheets(alloc, &in_order(layers)?)
}

/// An empty sheet for each Layer of a list.
pub(crate) fn empty_sheets(alloc: Global, layers: &[Layer]) -> Result<Vec<Sheet>, AllocError>
    ensures layers { IfOk result (λ sheets. map (λ s. s.layer) sheets.items ≡ layers.now) }
    ensures empty { IfOk result (λ sheets. All (λ s. s.rings ≡ []) sheets.items) }
{
    let mut sheets = Vec::with_capacity(alloc, layers.len())?;
    for layer in layers {
        sheets.push(Sheet {
            layer: *layer,
            rings: Rings::new(alloc),
        })?;
    }
    Ok(sheets)
}
