//! Drawing the candidates of a top in a window, and all that they place.
ghost use Rattle.std.specs.Prelude.{◌≡◌, [], map, All, IfOk, OnOk};
ghost use Rattle.lvl_cells.specs.Chains.{unmoved};
ghost use Rattle.lvl_flat.specs.Boxes.{AreBoxes};
ghost use Rattle.lvl_flat.specs.Candidates.{AreCandidates};
ghost use Rattle.lvl_flat.specs.Flattened.{IsFlattenedWithin, IsTopInRange};
ghost use Rattle.lvl_flat.specs.Sheets.{AreSorted};
ghost use Rattle.lvl_flat.specs.declared.scope.Scope.TheVariants.{Within};
ghost use Rattle.lvl_flat.specs.inside.Entering.{IsDrawn};
ghost use Rattle.lvl_flat.specs.inside.Passing.{IsForwarded};

use crate::advance::{UNMOVED, advance};
use crate::boxes::Boxes;
use crate::candidates::Candidates;
use crate::draw::draw_listed;
use crate::enter::push_visit;
use crate::flat::{Flat, Sheet};
use crate::indexes::Indexes;
use crate::room::Room;
use crate::scope::Scope;
use crate::visit::Visit;
use lvl_cells::Checked;
use lvl_grid::Window;
use std::alloc::AllocError;

/// The visit, without the references up to the next one of the list, if it is of the top, unmoved,
/// and at the beginning of a reference.
fn forwarded(top: usize, references: &Indexes, visit: Visit) -> Visit
    ensures { IsForwarded top references.now visit result }
{
    if visit.cell != top || visit.place > 0 || visit.map != UNMOVED {
        return visit;
    }
    Visit {
        reference: references.next(visit.reference),
        ..visit
    }
}

/// Draws those own shapes of the top that are candidates.
fn draw_own(
    room: &mut Room,
    checked: &Checked,
    sheets: &mut Vec<Sheet>,
    candidates: &Candidates,
    window: &Window,
) -> Result<(), AllocError>
    requires sorted { AreSorted sheets.old.items }
    requires in_range { IsTopInRange checked.now }
    requires candidates { AreCandidates checked.now window.now candidates.now }
    ensures { OnOk result (IsDrawn checked.now.cells checked.now.top unmoved (Within window.now)
        sheets.old.items sheets.new.items) }
{
    let shapes = &checked.cell(checked.top()).shapes;
    let scope = Scope::Within(*window);
    match draw_listed(room, sheets, shapes, &candidates.shapes, &UNMOVED, &scope) {
        Ok(()) => Ok(()),
        Err(_) => Err(AllocError),
    }
}

/// The rings that the candidates of a top place on the Layers of the sheets, which are empty,
/// clipped to a window.
pub(crate) fn draw_candidates(
    room: &mut Room,
    checked: &Checked,
    boxes: &Boxes,
    candidates: &Candidates,
    empty: Vec<Sheet>,
    window: &Window,
) -> Result<Flat, AllocError>
    requires boxes { AreBoxes checked.now.cells boxes.now }
    requires sorted { AreSorted empty.items }
    requires empty { All (λ s. s.rings ≡ []) empty.items }
    requires in_range { IsTopInRange checked.now }
    requires candidates { AreCandidates checked.now window.now candidates.now }
    ensures { IfOk result (IsFlattenedWithin checked.now (map (λ s. s.layer) empty.items) window.now) }
{
    let mut sheets = empty;
    let top = checked.top();
    let scope = Scope::Within(*window);
    draw_own(room, checked, &mut sheets, candidates, window)?;
    let mut stack = Vec::new(room.alloc);
    push_visit(&mut stack, Visit::begun(top, UNMOVED))?;
    while let Some(visit) = stack.pop() {
        let visit = forwarded(top, &candidates.references, visit);
        let Ok(()) = advance(room, checked, boxes, &scope, &mut sheets, &mut stack, visit) else {
            return Err(AllocError);
        };
    }
    Flat::filled(room.alloc, sheets)
}
