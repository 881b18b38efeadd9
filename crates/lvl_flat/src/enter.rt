//! Entering a cell: its shapes are drawn, and a visit of it is put on the stack.
ghost use Rattle.std.specs.Prelude.{◌≡◌, ◌++◌, ◌∷◌, ◌<◌, [], length, IfErr, OnOk};
ghost use Rattle.lvl_flat.specs.inside.Entering.{begun, IsDrawn, IsEnterFault, IsPushed};
ghost use Rattle.lvl_flat.specs.Flattened.{ReportsName};
ghost use Rattle.lvl_flat.specs.Sheets.{AreSorted};
ghost use Rattle.lvl_refusal.specs.Refused.{Says};

use crate::draw::draw_shapes;
use crate::fault::FlatFault;
use crate::flat::Sheet;
use crate::room::Room;
use crate::scope::Scope;
use crate::visit::Visit;
use crate::walk::is_done;
use lvl_cells::{Cell, Checked};
use lvl_grid::{Map, PlaceFault};
use lvl_refusal::Cause;
use std::alloc::{AllocError, Global};

/// The refusal of a cell of this name as out of range, or out of memory if the name can't be
/// copied.
pub(crate) fn out_of_range(alloc: Global, name: &[u8]) -> Cause<FlatFault>
    ensures { Says result (ReportsName name.now) }
{
    match Vec::from_slice(alloc, name) {
        Ok(name) => Cause::Breach(FlatFault::OutOfRange(name)),
        Err(_) => Cause::OutOfMemory,
    }
}

/// Puts a visit on the stack.
pub(crate) fn push_visit(stack: &mut Vec<Visit>, visit: Visit) -> Result<(), AllocError>
    ensures { OnOk result (stack.new.items ≡ stack.old.items ++ visit ∷ []) }
{
    stack.push(visit)?;
    Ok(())
}

/// Puts a visit on the stack, unless it has nothing left to follow. So a chain of cells, however
/// long, needs no more of the stack than a short one.
pub(crate) fn push_rest(
    checked: &Checked,
    stack: &mut Vec<Visit>,
    rest: Visit,
) -> Result<(), AllocError>
    requires { rest.cell < length checked.now.cells }
    ensures { OnOk result (IsPushed checked.now.cells stack.old.items rest stack.new.items) }
{
    if is_done(checked, &rest) {
        return Ok(());
    }
    push_visit(stack, rest)
}

/// Draws the shapes of the cell at this index, placed by the map and, within a window, clipped to
/// it.
pub(crate) fn draw_cell(
    room: &mut Room,
    cells: &[Cell],
    sheets: &mut Vec<Sheet>,
    index: usize,
    map: &Map,
    scope: &Scope,
) -> Result<(), Cause<FlatFault>>
    requires there { index < length cells.now }
    requires sorted { AreSorted sheets.old.items }
    ensures drawn { OnOk result (IsDrawn cells.now index map.now scope.now sheets.old.items sheets.new.items) }
    ensures err { IfErr result (λ refusal. Says refusal (IsEnterFault cells.now index map.now)) }
{
    let cell = &cells[index];
    match draw_shapes(room, sheets, &cell.shapes, map, scope) {
        Ok(()) => Ok(()),
        Err(PlaceFault::OutOfRange) => Err(out_of_range(room.alloc, cell.name.as_bytes())),
        Err(PlaceFault::OutOfMemory) => Err(Cause::OutOfMemory),
    }
}
