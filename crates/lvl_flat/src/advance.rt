//! The walk over all that the top places, and one step of it.
ghost use Rattle.std.specs.Prelude.{◌≡◌, ◌<◌, ◌++◌, ◌∷◌, ◌⊎◌, [], map, All, IfOk, IfErr, OnOk};
ghost use Rattle.lvl_flat.specs.Boxes.{AreBoxes};
ghost use Rattle.lvl_flat.specs.Flattened.{IsFlattened, IsFlatFault, IsTopInRange};
ghost use Rattle.lvl_flat.specs.Sheets.{AreSorted};
ghost use Rattle.lvl_flat.specs.inside.Walking.{AllListed, IsFlattenedIn, IsWalking, work};
ghost use Rattle.lvl_refusal.specs.Refused.{Says};

use crate::boxes::Boxes;
use crate::enter::{draw_cell, out_of_range, push_rest, push_visit};
use crate::fault::FlatFault;
use crate::flat::{Flat, Sheet};
use crate::layers::sheets_of;
use crate::passing::pass_by;
use crate::room::Room;
use crate::scope::Scope;
use crate::visit::Visit;
use crate::walk::{Step, next_step};
use lvl_cells::Checked;
use lvl_grid::{Map, Point, Turn};
use lvl_refusal::Cause;
use std::alloc::Global;

/// The map that moves no point.
pub(crate) const UNMOVED: Map = Map {
    flip: false,
    turn: Turn::R0,
    at: Point { x: 0, y: 0 },
};

/// Makes one step with the visit that was taken off the stack. A cell that is placed outside of the
/// window is skipped, and with it a run of further places outside of the window.
pub(crate) fn advance(
    room: &mut Room,
    checked: &Checked,
    boxes: &Boxes,
    scope: &Scope,
    sheets: &mut Vec<Sheet>,
    stack: &mut Vec<Visit>,
    visit: Visit,
) -> Result<(), Cause<FlatFault>>
    requires boxes { AreBoxes checked.now.cells boxes.now }
    requires walking { IsWalking checked.now (map (λ s. s.layer) sheets.old.items) scope.now sheets.old.items
        (stack.old.items ++ visit ∷ []) }
    ensures walking { OnOk result (IsWalking checked.now (map (λ s. s.layer) sheets.old.items) scope.now
        sheets.new.items stack.new.items) }
    ensures nearer { OnOk result
        (work checked.now.cells stack.new.items < work checked.now.cells (stack.old.items ++ visit ∷ [])) }
    ensures err { IfErr result (λ refusal. Says refusal (IsFlatFault checked.now)) }
{
    let cells = checked.cells();
    match next_step(checked, &visit) {
        Step::Done => Ok(()),
        Step::Past(rest) => Ok(push_visit(stack, rest)?),
        Step::Into(index, map, rest) => {
            if let Scope::Within(window) = scope {
                if boxes.miss(index, &map, window) {
                    let further = pass_by(checked, boxes, window, rest);
                    return Ok(push_visit(stack, further)?);
                }
            }
            push_rest(checked, stack, rest)?;
            draw_cell(room, cells, sheets, index, &map, scope)?;
            Ok(push_visit(stack, Visit::begun(index, map))?)
        }
        Step::Out(index) => {
            let cell = &cells[index];
            Err(out_of_range(room.alloc, cell.name.as_bytes()))
        }
    }
}

/// The rings that the top places on the Layers of the sheets, which are empty. Within a window they
/// are clipped to it.
pub(crate) fn draw_all(
    room: Room,
    checked: &Checked,
    boxes: &Boxes,
    empty: Vec<Sheet>,
    scope: &Scope,
) -> Result<Flat, Cause<FlatFault>>
    requires boxes { AreBoxes checked.now.cells boxes.now }
    requires sorted { AreSorted empty.items }
    requires empty { All (λ s. s.rings ≡ []) empty.items }
    requires fits { IsTopInRange checked.now ⊎ AllListed (map (λ s. s.layer) empty.items) checked.now.cells }
    ensures ok { IfOk result (IsFlattenedIn checked.now (map (λ s. s.layer) empty.items) scope.now) }
    ensures err { IfErr result (λ refusal. Says refusal (IsFlatFault checked.now)) }
{
    let mut room = room;
    let mut sheets = empty;
    let top = checked.top();
    draw_cell(
        &mut room,
        checked.cells(),
        &mut sheets,
        top,
        &UNMOVED,
        scope,
    )?;
    let mut stack = Vec::new(room.alloc);
    push_visit(&mut stack, Visit::begun(top, UNMOVED))?;
    while let Some(visit) = stack.pop() {
        advance(
            &mut room,
            checked,
            boxes,
            scope,
            &mut sheets,
            &mut stack,
            visit,
        )?;
    }
    Ok(Flat::filled(room.alloc, sheets)?)
}

/// All rings that the top places, Layer by Layer.
///
/// On each Layer the rings together cover exactly the squares that the top covers there through
/// all references, and there are as many as it places there. The shift of each chain from the top
/// and each placed vertex must be within 64 signed bits. Other intermediate coordinates may be
/// outside (own rule).
pub fn flatten(alloc: Global, checked: &Checked) -> Result<Flat, Cause<FlatFault>>
    ensures ok { IfOk result (IsFlattened checked.now) }
    ensures err { IfErr result (λ refusal. Says refusal (IsFlatFault checked.now)) }
{
    let sheets = sheets_of(alloc, checked.cells())?;
    let boxes = Boxes::unknown(alloc)?;
    draw_all(
        Room::unbounded(alloc),
        checked,
        &boxes,
        sheets,
        &Scope::Everything,
    )
}
