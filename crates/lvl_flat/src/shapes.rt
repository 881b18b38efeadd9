//! The own shapes of a cell, without its references.
ghost use Rattle.std.specs.Prelude.{◌↔◌, Any, IfOk, IfErr};
ghost use Rattle.lvl_grid.specs.declared.point.Square.{Square};
ghost use Rattle.lvl_grid.specs.Winding.{SomeCovers};
ghost use Rattle.lvl_names.specs.declared.layer.Layer.{Layer};
ghost use Rattle.lvl_cells.specs.Chains.{unmoved};
ghost use Rattle.lvl_cells.specs.Coverage.{ShapeCovers};
ghost use Rattle.lvl_flat.specs.Sheets.{rings_on};
ghost use Rattle.lvl_flat.specs.Flattened.{FitShapes};
ghost use Rattle.lvl_flat.specs.Flattened.{ReportsName};
ghost use Rattle.lvl_refusal.specs.Refused.{Says};

use crate::advance::UNMOVED;
use crate::enter::draw_cell;
use crate::fault::FlatFault;
use crate::flat::Flat;
use crate::layers::sheets_of;
use crate::room::Room;
use crate::scope::Scope;
use lvl_cells::Cell;
use lvl_refusal::Cause;
use std::alloc::Global;
use std::slice;

/// The rings of a cell's own shapes at all their shifts, Layer by Layer; its references are left
/// out. Refused as out of range if one of the vertices is outside 64 signed bits (own rule).
pub fn flatten_shapes(alloc: Global, cell: &Cell) -> Result<Flat, Cause<FlatFault>>
    ensures covers { IfOk result (λ flat. (layer : Layer) (s : Square)
        → SomeCovers (rings_on layer flat) s ↔ Any (ShapeCovers SomeCovers layer s) cell.now.shapes) }
    ensures err { IfErr result (λ refusal. Says refusal
        (λ fault. ReportsName cell.now.name fault × ¬ FitShapes unmoved cell.now.shapes)) }
{
    let alone = slice::from_ref(cell);
    let mut sheets = sheets_of(alloc, alone)?;
    let mut room = Room::unbounded(alloc);
    draw_cell(
        &mut room,
        alone,
        &mut sheets,
        0,
        &UNMOVED,
        &Scope::Everything,
    )?;
    Ok(Flat::filled(alloc, sheets)?)
}
