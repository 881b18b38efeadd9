//! One step of the search: which place of which reference of a placed cell is followed next.
ghost use Rattle.std.specs.Prelude.{◌≡◌};
ghost use Rattle.lvl_witness.specs.inside.Moves.{begun, IsMove, IsReached};

use crate::areas::area_of_reference;
use crate::places::next_place_of;
use crate::wide::pulled;
use crate::witness::Step;
use lvl_flat::{Fitted, placing_at};
use lvl_grid::{Map, Square};

/// A placed cell whose references are followed one by one. Those with an index before `reference`
/// are done, and of that one the places before `place`.
#[derive(Clone, Copy, Debug)]
pub(crate) struct Frame {
    pub cell: usize,
    pub map: Map,
    pub reference: usize,
    pub place: u64,
}

impl Frame {
    /// A frame that has followed no reference yet.
    pub(crate) fn begun(cell: usize, map: Map) -> Frame
        ensures { result ≡ begun cell map }
    {
        Frame {
            cell,
            map,
            reference: 0,
            place: 0,
        }
    }
}

/// What a frame does next.
pub(crate) enum Move {
    /// It ends: no reference is left.
    Out,
    /// It goes on with the next reference.
    Past(Frame),
    /// It follows the step, which places its cell by the map, and goes on as the frame here.
    Into(Step, Map, Frame),
}

/// What the frame does next, if only places at which a cell may cover the square are followed.
pub(crate) fn next_move(fitted: &Fitted, frame: &Frame, square: Square) -> Move
    requires { IsReached fitted.now frame.now }
    ensures { IsMove fitted.now.cells square frame.now result }
{
    let checked = fitted.checked();
    let references = &checked.cell(frame.cell).references;
    if frame.reference >= references.len() {
        return Move::Out;
    }
    let reference = references.reference(frame.reference);
    let places = reference.shift_count();
    let cell = checked.target_of(frame.cell, frame.reference);
    let area = area_of_reference(fitted, cell, &reference, pulled(&frame.map, square));
    let place = next_place_of(&reference, frame.place, area);
    let Some(by) = placing_at(&reference, place) else {
        return Move::Past(Frame {
            reference: frame.reference + 1,
            place: 0,
            ..*frame
        });
    };
    let Some(map) = frame.map.then(&by) else {
        unreachable!()
    };
    let step = Step {
        reference: frame.reference,
        references: references.len(),
        place,
        places,
        cell,
        map: by,
    };
    let rest = Frame {
        place: place + 1,
        ..*frame
    };
    Move::Into(step, map, rest)
}
