//! A reference that is the only one of its cell.
ghost use Rattle.std.specs.Prelude.{◌≡◌, IfOk};

use crate::reference::{KeptReference, Reference};
use crate::single::kept_shifts;
use lvl_grid::Map;
use lvl_names::{Name, Offsets};
use std::alloc::{AllocError, Global};
use std::marker::Model;

/// A reference, without the lists that several references share.
#[derive(Drop)]
pub(crate) struct SingleReference {
    cell: Name,
    by: Map,
    /// None for the zero shift alone.
    shifts: Option<Box<Offsets>>,
}

impl Model for SingleReference {
    ghost use Rattle.std.specs.Prelude.{All};
    ghost use Rattle.lvl_grid.specs.Turn.{FitsPoint, shifted};
    ghost use Rattle.lvl_cells.specs.Cells.{PlainReference};
    ghost use Rattle.lvl_cells.specs.inside.Beside.{shifts_beside};

    ghost Value = { PlainReference };

    ghost view = { λ r. record {
      cell = r.cell;
      flip = r.by.flip;
      turn = r.by.turn;
      at = r.by.at;
      shifts = shifts_beside r.shifts;
    } };

    ghost invariant = { λ r. All (λ e. FitsPoint (shifted r.by.at e)) (shifts_beside r.shifts) };
}

impl SingleReference {
    /// The reference, which keeps no list for the zero shift alone.
    pub(crate) fn new(alloc: Global, reference: Reference) -> Result<SingleReference, AllocError>
        ensures { IfOk result (λ single. single ≡ reference) }
    {
        let Reference {
            cell,
            flip,
            turn,
            at,
            shifts,
        } = reference;
        Ok(SingleReference {
            cell,
            by: Map { flip, turn, at },
            shifts: kept_shifts(alloc, shifts)?,
        })
    }

    /// The reference, borrowed.
    pub(crate) fn kept(&self) -> KeptReference<'_>
        ensures { result ≡ self.now }
    {
        KeptReference {
            cell: &self.cell,
            by: self.by,
            shifts: match &self.shifts {
                Some(shifts) => Some(shifts),
                None => None,
            },
        }
    }
}
