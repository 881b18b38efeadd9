//! The search for a witness: a walk from the top along the references that may lead to one.
ghost use Rattle.std.specs.Prelude.{◌≡◌, ◌<◌, ◌++◌, ◌∷◌, [], All, IfOk, IfSome, IfNone};
ghost use Rattle.lvl_flat.specs.Flattened.{TopCovers};
ghost use Rattle.lvl_witness.specs.Witnesses.{IsWitness};
ghost use Rattle.lvl_cells.specs.Chains.{unmoved};
ghost use Rattle.lvl_witness.specs.inside.Known.{AreEmpty};
ghost use Rattle.lvl_witness.specs.inside.Moves.{begun, IsReached};
ghost use Rattle.lvl_witness.specs.inside.Searching.{HasNoRing, IsRingOfCell, IsSearch, work_left};

use crate::frame::{Frame, Move, next_move};
use crate::known::Known;
use crate::rings::find_ring;
use crate::wide::pulled;
use crate::witness::{PlacedRing, Step, Witness};
use lvl_flat::Fitted;
use lvl_grid::{Map, Point, Square, Turn};
use lvl_names::Layer;
use std::alloc::{AllocError, Global};

/// The map that moves no point.
const UNMOVED: Map = Map {
    flip: false,
    turn: Turn::R0,
    at: Point { x: 0, y: 0 },
};

/// A ring of the cell at index `cell` that is on one of the Layers and covers the square, where the
/// cell is placed by the map.
fn ring_in_cell(
    alloc: Global,
    fitted: &Fitted,
    cell: usize,
    map: &Map,
    layers: &[Layer],
    square: Square,
) -> Result<Option<PlacedRing>, AllocError>
    requires { IsReached fitted.now (begun cell map.now) }
    ensures some { IfOk result (λ found. IfSome found
        (IsRingOfCell fitted.now.cells cell map.now layers.now square)) }
    ensures none { IfOk result (λ found. IfNone found
        (HasNoRing fitted.now.cells cell map.now layers.now square)) }
{
    let shapes = &fitted.checked().cell(cell).shapes;
    find_ring(alloc, shapes, map, layers, square)
}

/// The state of the search.
#[derive(Drop)]
struct Search {
    /// The cells that are entered, each placed by a reference of the one before.
    frames: Vec<Frame>,
    /// The steps between them.
    steps: Vec<Step>,
    /// What is known not to cover the square.
    known: Known,
}

impl Search {
    /// The search that begins with the cell at index `top`.
    fn begun(alloc: Global, top: usize) -> Result<Search, AllocError>
        ensures frames { IfOk result (λ search. search.frames.items ≡ begun top unmoved ∷ []) }
        ensures steps { IfOk result (λ search. search.steps.items ≡ []) }
        ensures known { IfOk result (λ search. search.known ≡ []) }
    {
        let mut frames = Vec::new(alloc);
        frames.push(Frame::begun(top, UNMOVED))?;
        Ok(Search {
            frames,
            steps: Vec::new(alloc),
            known: Known::new(alloc),
        })
    }

    /// The steps, with a ring of the cell that they lead to.
    fn into_witness(self, ring: PlacedRing) -> Witness
        ensures steps { result.steps.items ≡ self.steps.items }
        ensures ring { result.ring ≡ ring }
    {
        let Search {
            frames: _,
            steps,
            known: _,
        } = self;
        Witness { steps, ring }
    }
}

/// Makes one move with the frame that was taken off the stack. Returns a ring if it enters a cell
/// that has one; the steps then lead to this cell.
fn advance(
    alloc: Global,
    fitted: &Fitted,
    layers: &[Layer],
    square: Square,
    search: &mut Search,
    frame: Frame,
) -> Result<Option<PlacedRing>, AllocError>
    requires search { IsSearch fitted.now layers.now square (search.old.frames.items ++ frame ∷ [])
        search.old.steps.items }
    requires known { AreEmpty fitted.now.cells layers.now search.old.known }
    ensures some { IfOk result (λ found. IfSome found
        (IsWitness fitted.now layers.now square search.new.steps.items)) }
    ensures none { IfOk result (λ found. IfNone found
        (IsSearch fitted.now layers.now square search.new.frames.items search.new.steps.items)) }
    ensures known { IfOk result (λ found. IfNone found (AreEmpty fitted.now.cells layers.now search.new.known)) }
    ensures nearer { IfOk result (λ found. IfNone found (work_left fitted.now.cells search.new.frames.items
        < work_left fitted.now.cells (search.old.frames.items ++ frame ∷ []))) }
{
    match next_move(fitted, &frame, square) {
        Move::Out => {
            search.known.keep(frame.cell, pulled(&frame.map, square))?;
            search.steps.pop();
        }
        Move::Past(rest) => search.frames.push(rest)?,
        Move::Into(step, map, rest) => {
            search.frames.push(rest)?;
            if search.known.has(step.cell, pulled(&map, square)) {
                return Ok(None);
            }
            search.steps.push(step)?;
            if let Some(ring) = ring_in_cell(alloc, fitted, step.cell, &map, layers, square)? {
                return Ok(Some(ring));
            }
            search.frames.push(Frame::begun(step.cell, map))?;
        }
    }
    Ok(None)
}

/// Why the top covers the square on one of the Layers, or None if it covers it on none of them.
///
/// The steps of the witness lead from the top to a cell, and its ring is one of this cell that is
/// on one of the Layers and covers the square, as the steps place the cell. Which of several
/// witnesses is returned is open.
pub fn find_witness(
    alloc: Global,
    fitted: &Fitted,
    layers: &[Layer],
    square: Square,
) -> Result<Option<Witness>, AllocError>
    ensures some { IfOk result (λ found. IfSome found
        (λ witness. IsWitness fitted.now layers.now square witness.steps.items witness.ring)) }
    ensures covered { IfOk result (λ found. IfSome found (λ witness. TopCovers fitted.now witness.ring.layer square)) }
    ensures none { IfOk result (λ found. IfNone found (All (λ layer. ¬ TopCovers fitted.now layer square) layers.now)) }
{
    let top = fitted.checked().top();
    if let Some(ring) = ring_in_cell(alloc, fitted, top, &UNMOVED, layers, square)? {
        let steps = Vec::new(alloc);
        return Ok(Some(Witness { steps, ring }));
    }
    let mut search = Search::begun(alloc, top)?;
    while let Some(frame) = search.frames.pop() {
        if let Some(ring) = advance(alloc, fitted, layers, square, &mut search, frame)? {
            return Ok(Some(search.into_witness(ring)));
        }
    }
    Ok(None)
}
