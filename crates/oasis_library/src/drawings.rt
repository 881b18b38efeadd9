//! The cells of a file that are complete.
ghost use Rattle.std.specs.Prelude.{◌≡◌, ◌++◌, ◌∷◌, [], OnOk, flat_map};

use crate::drawing::Drawing;
use std::alloc::{AllocError, Global};
use std::marker::Model;

/// The greatest number of cells of a piece.
const MOST_IN_PIECE: usize = 4096;

/// A list of cells. It is kept in pieces, so that these can be freed one after another while
/// libraries' cells are made of them.
#[derive(Drop)]
pub(crate) struct Drawings {
    pieces: Vec<Vec<Drawing>>,
}

impl Model for Drawings {
    ghost use Rattle.std.specs.Prelude.{List, flat_map};
    ghost use Rattle.lvl_cells.specs.Cells.{Rings};
    ghost use Rattle.oasis_library.specs.Cells.{PlainDrawing};

    ghost Value = { List (PlainDrawing Rings) };

    ghost view = { λ d. flat_map (λ piece. piece.items) d.pieces.items };
}

impl Drawings {
    /// No cells.
    pub(crate) fn new(alloc: Global) -> Drawings
        ensures { result ≡ [] }
    {
        Drawings {
            pieces: Vec::new(alloc),
        }
    }

    /// Adds a cell.
    pub(crate) fn push(&mut self, alloc: Global, drawing: Drawing) -> Result<(), AllocError>
        ensures { OnOk result (self.new ≡ self.old ++ drawing ∷ []) }
    {
        if let Some(mut piece) = self.pieces.pop() {
            if piece.len() < MOST_IN_PIECE {
                piece.push(drawing)?;
                self.pieces.push_reserved(piece);
                return Ok(());
            }
            self.pieces.push_reserved(piece);
        }
        let mut piece = Vec::new(alloc);
        piece.push(drawing)?;
        self.pieces.push(piece)?;
        Ok(())
    }

    /// The pieces, in order.
    pub(crate) fn into_pieces(self) -> Vec<Vec<Drawing>>
        ensures { flat_map (λ piece. piece.items) result.items ≡ self }
    {
        self.pieces
    }
}
