//! The cells of a file that is being read.
ghost use Rattle.std.specs.Prelude.{◌≡◌, ◌++◌, ◌∷◌, [], OnOk, IfOk, List};
ghost use Rattle.oasis_records.specs.declared.record.Record.{Record};
ghost use Rattle.oasis_library.specs.inside.Kept.{begun, on_last};
ghost use Rattle.oasis_library.specs.inside.Taken.{IsTaken, grown};

use crate::drawing::Drawing;
use crate::drawings::Drawings;
use crate::placement::Target;
use oasis_figures::{DrawnRecord, Modal};
use oasis_records::CellRef;
use std::alloc::{AllocError, Global};
use std::marker::Model;

/// The cells that are complete, and the last one.
#[derive(Drop)]
pub(crate) struct Cells {
    whole: Drawings,
    last: Option<Drawing>,
}

impl Model for Cells {
    ghost use Rattle.std.specs.Prelude.{◌≡◌, ◌++◌, List, [], None, option_to_list};
    ghost use Rattle.lvl_cells.specs.Cells.{Rings};
    ghost use Rattle.oasis_library.specs.Cells.{PlainDrawing};

    ghost Value = { List (PlainDrawing Rings) };

    ghost view = { λ c. c.whole ++ option_to_list c.last };

    ghost invariant = { λ c. c.last ≡ None → c.whole ≡ [] };
}

impl Cells {
    /// No cells.
    pub(crate) fn new(alloc: Global) -> Cells
        ensures { result ≡ [] }
    {
        Cells {
            whole: Drawings::new(alloc),
            last: None,
        }
    }

    /// Begins a cell.
    pub(crate) fn begin(&mut self, alloc: Global, name: &CellRef) -> Result<(), AllocError>
        ensures { OnOk result (self.new ≡ self.old ++ begun name.now ∷ []) }
    {
        let name = Target::of(alloc, name)?;
        let before = self.last.replace(Drawing::new(alloc, name));
        if let Some(before) = before {
            self.whole.push(alloc, before)?;
        }
        Ok(())
    }

    /// Adds what the last record draws, of which `modal` has the shifts and the cell, to the last cell, if
    /// there is one.
    pub(crate) fn add(
        &mut self,
        alloc: Global,
        drawn: Option<DrawnRecord>,
        modal: &Modal,
    ) -> Result<(), AllocError>
        requires { (earlier : List Record) × (r : Record) × IsTaken earlier r drawn modal.now }
        ensures { OnOk result ((earlier : List Record) (r : Record) → IsTaken earlier r drawn modal.now
            → self.new ≡ on_last (grown earlier r) self.old) }
    {
        let Some(last) = &mut self.last else {
            drop(drawn);
            return Ok(());
        };
        last.add(alloc, drawn, modal)?;
        Ok(())
    }

    /// All cells, in the order of the file.
    pub(crate) fn into_drawings(self, alloc: Global) -> Result<Drawings, AllocError>
        ensures { IfOk result (λ drawings. drawings ≡ self) }
    {
        let Cells { mut whole, last } = self;
        if let Some(last) = last {
            whole.push(alloc, last)?;
        }
        Ok(whole)
    }
}
