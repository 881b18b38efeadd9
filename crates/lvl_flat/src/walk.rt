//! The walk over the chains of references from the top, one step at a time.
ghost use Rattle.std.specs.Prelude.{◌≡◌, ◌<◌, [], ℕ, List, length, None, IfSome, IfNone, IsTrue, slice_get};
ghost use Rattle.lvl_cells.specs.Cells.{PlainCell, Rings};
ghost use Rattle.lvl_flat.specs.Ends.{AddsUp};
ghost use Rattle.lvl_flat.specs.Placing.{IsPlacing};
ghost use Rattle.lvl_flat.specs.inside.Steps.{IsStep};
ghost use Rattle.lvl_flat.specs.inside.Visits.{pending};

use crate::visit::Visit;
use lvl_cells::{Checked, KeptReference};
use lvl_grid::{Map, Point};

/// What a visit does next.
pub(crate) enum Step {
    /// It ends: no reference is left.
    Done,
    /// It goes on with the next reference, since all places of this one are done.
    Past(Visit),
    /// It places the cell at this index by the map, and goes on as the visit here.
    Into(usize, Map, Visit),
    /// It would place the cell at this index with a shift outside 64 bits.
    Out(usize),
}

/// The map by which a reference places its cell at the shift with index `place`, or None if there
/// is no such shift.
pub fn placing_at(reference: &KeptReference<'_>, place: u64) -> Option<Map>
    ensures some { IfSome result (λ m. IsPlacing reference.now place m) }
    ensures none { IfNone result (slice_get reference.now.shifts place ≡ None) }
{
    let shift = reference.shift(place)?;
    let at = reference.at();
    Some(Map {
        flip: reference.flip(),
        turn: reference.turn(),
        at: Point {
            x: at.x + shift.x,
            y: at.y + shift.y,
        },
    })
}

/// A law, for proofs: a sum of weights over all chains is the sum over the list of their last
/// cells, one for each chain, and this list has exactly the cells that some chain leads to. The
/// call does nothing.
pub fn chains_add_up()
    ensures { (cells : List (PlainCell Rings)) (n : ℕ) (c : PlainCell Rings) → AddsUp cells n c }
{}

/// What the visit does next.
pub(crate) fn next_step(checked: &Checked, visit: &Visit) -> Step
    requires { visit.now.cell < length checked.now.cells }
    ensures { IsStep checked.now.cells visit.now result }
{
    let cell = &checked.cells()[visit.cell];
    if visit.reference >= cell.references.len() {
        return Step::Done;
    }
    let reference = cell.references.reference(visit.reference);
    if visit.place >= reference.shift_count() {
        return Step::Past(Visit {
            reference: visit.reference + 1,
            place: 0,
            row: 0,
            ..*visit
        });
    }
    let Some(inner) = placing_at(&reference, visit.place) else {
        unreachable!()
    };
    let Some(target) = checked.target(visit.cell, visit.reference) else {
        unreachable!()
    };
    match visit.map.then(&inner) {
        None => Step::Out(target),
        Some(map) => Step::Into(
            target,
            map,
            Visit {
                place: visit.place + 1,
                ..*visit
            },
        ),
    }
}

/// Whether the visit has no reference left.
fn has_ended(checked: &Checked, visit: &Visit) -> bool
    requires { visit.now.cell < length checked.now.cells }
    ensures { IsTrue result → pending checked.now.cells visit.now ≡ [] }
{
    match next_step(checked, visit) {
        Step::Done => true,
        Step::Past(_rest) => false,
        Step::Into(_index, _map, _rest) => false,
        Step::Out(_index) => false,
    }
}

/// Whether the visit has nothing left to follow: all places of its last reference are done.
pub(crate) fn is_done(checked: &Checked, visit: &Visit) -> bool
    requires { visit.now.cell < length checked.now.cells }
    ensures { IsTrue result → pending checked.now.cells visit.now ≡ [] }
{
    let cell = &checked.cells()[visit.cell];
    if let Some(reference) = cell.references.get(visit.reference) {
        if visit.place < reference.shift_count() {
            return false;
        }
    }
    match next_step(checked, visit) {
        Step::Done => true,
        Step::Past(rest) => has_ended(checked, &rest),
        Step::Into(_index, _map, _rest) => false,
        Step::Out(_index) => false,
    }
}
