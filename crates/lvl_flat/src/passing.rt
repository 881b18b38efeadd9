//! Skipping places of a reference that miss the window.
ghost use Rattle.std.specs.Prelude.{◌<◌, length};
ghost use Rattle.lvl_flat.specs.Boxes.{AreBoxes};
ghost use Rattle.lvl_flat.specs.inside.Passing.{IsPassedBy};

use crate::boxes::{Boxes, placed_by};
use crate::missed::{LEAST_RUN, is_tried, missed_from};
use crate::rows::known_row;
use crate::visit::Visit;
use lvl_cells::Checked;
use lvl_grid::Window;

/// The visit, after the next places at which its reference is found to place nothing outside 64
/// bits and to cover no square of the window.
pub(crate) fn pass_by(checked: &Checked, boxes: &Boxes, window: &Window, visit: Visit) -> Visit
    requires cell { visit.cell < length checked.now.cells }
    requires boxes { AreBoxes checked.now.cells boxes.now }
    ensures { IsPassedBy checked.now.cells boxes.now window.now visit result }
{
    let cell = &checked.cells()[visit.cell];
    if visit.reference >= cell.references.len() {
        return visit;
    }
    let reference = cell.references.reference(visit.reference);
    let Some(shifts) = reference.shifts() else {
        return visit;
    };
    if shifts.len() < visit.place || shifts.len() - visit.place < LEAST_RUN {
        return visit;
    }
    let row = known_row(visit.row, shifts);
    let visit = Visit { row, ..visit };
    if visit.place > 1 && !is_tried(visit.place, row) {
        return visit;
    }
    let Some(target) = checked.target(visit.cell, visit.reference) else {
        unreachable!()
    };
    let Some(bounds) = boxes.get(target) else {
        return visit;
    };
    let Some(inner) = placed_by(bounds, &reference) else {
        return visit;
    };
    let place = missed_from(shifts, visit.place, row, inner, &visit.map, window);
    Visit { place, ..visit }
}
