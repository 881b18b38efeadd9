//! Reads a file, record by record.
ghost use Rattle.std.specs.Prelude.{◌≡◌, [], ◌∷◌, ◌++◌, List, IfErr, IfOk, OnOk, map};
ghost use Rattle.lvl_refusal.specs.Refused.{Says};
ghost use Rattle.oasis_records.specs.declared.record.Record.{Record as ARecord};
ghost use Rattle.oasis_stream.specs.Order.{names_in};
ghost use Rattle.oasis_stream.specs.Rules.{RecordBreaches, KeepsRules};
ghost use Rattle.oasis_library.specs.Cells.{drawings, with_rings};
ghost use Rattle.oasis_library.specs.Head.{head_of};
ghost use Rattle.oasis_library.specs.Names.{AreCells, numbers_used, IsUnnamed};
ghost use Rattle.oasis_library.specs.inside.Answers.{of_name, of_figure};
ghost use Rattle.oasis_library.specs.inside.Holds.{Holds};

use crate::cells::Cells;
use crate::head::{HeadRecords, OasisHead};
use crate::names::Names;
use crate::resolve::resolve_cells;
use lvl_cells::Library;
use lvl_profile::Profile;
use lvl_refusal::Cause;
use oasis_blocks::Unpacker;
use oasis_figures::{DrawnRecord, FigureRule, Modal};
use oasis_records::Record;
use oasis_stream::{NameRule, OasisKind, Order};
use std::alloc::Global;

/// What was read so far: which records may come next, the names, the modal variables of the last cell, the
/// cells, what START and END say, the memory that blocks share, and how many bytes may still be unpacked.
#[derive(Drop)]
pub(crate) struct Reading {
    order: Order,
    names: Names,
    modal: Modal,
    cells: Cells,
    head: HeadRecords,
    pub(crate) unpacker: Unpacker,
    pub(crate) room: u64,
}

// A result with a rule of names, as one of the file.
fn of_name(answer: Result<(), Cause<NameRule>>) -> Result<(), Cause<OasisKind>>
    ensures { result ≡ of_name answer }
{
    match answer {
        Ok(()) => Ok(()),
        Err(Cause::Breach(rule)) => Err(Cause::Breach(OasisKind::Name(rule))),
        Err(Cause::OutOfMemory) => Err(Cause::OutOfMemory),
    }
}

// A result with a rule of figures, as one of the file.
fn of_figure(
    answer: Result<Option<DrawnRecord>, Cause<FigureRule>>,
) -> Result<Option<DrawnRecord>, Cause<OasisKind>>
    ensures { result ≡ of_figure answer }
{
    match answer {
        Ok(drawn) => Ok(drawn),
        Err(Cause::Breach(rule)) => Err(Cause::Breach(OasisKind::Figure(rule))),
        Err(Cause::OutOfMemory) => Err(Cause::OutOfMemory),
    }
}

impl Reading {
    /// The state before the first record, if blocks may have `room` bytes.
    pub(crate) fn new(alloc: Global, room: u64) -> Reading
        ensures holds { Holds result [] }
        ensures room { result.room ≡ room }
    {
        Reading {
            order: Order::new(),
            names: Names::new(alloc),
            modal: Modal::new(),
            cells: Cells::new(alloc),
            head: HeadRecords::new(),
            unpacker: Unpacker::new(),
            room,
        }
    }

    /// Which records may come next.
    pub(crate) fn order(&self) -> &Order
        ensures { result.now ≡ self.now.order }
    {
        &self.order
    }

    /// Takes the next record, unless it breaches a rule. Its lists are moved; what is left in `next` means nothing.
    pub(crate) fn take(
        &mut self,
        alloc: Global,
        profile: Profile,
        next: &mut Record,
    ) -> Result<(), Cause<OasisKind>>
        requires { (rs : List ARecord) × Holds self.old rs }
        ensures refused { IfErr result (λ e. Says e (λ kind.
            (rs : List ARecord) → Holds self.old rs → RecordBreaches profile rs next.old kind)) }
        ensures kept { OnOk result
            ((rs : List ARecord) → Holds self.old rs → Holds self.new (rs ++ next.old ∷ [])) }
        ensures none { OnOk result ((rs : List ARecord) → Holds self.old rs → KeepsRules profile rs next.old) }
        ensures room { OnOk result (self.new.room ≡ self.old.room) }
    {
        self.order.pass(next);
        self.head.pass(next);
        of_name(self.names.take(alloc, next))?;
        if let Record::Cell(name) = next {
            self.modal = Modal::new();
            self.cells.begin(alloc, name)?;
            return Ok(());
        }
        let drawn = of_figure(self.modal.take(alloc, profile.ignore, next))?;
        self.cells.add(alloc, drawn, &self.modal)?;
        Ok(())
    }

    /// The library and the head, or the first number used that no name has.
    pub(crate) fn finish(self, alloc: Global) -> Result<(Library, OasisHead), Cause<u64>>
        ensures cells { IfOk result (λ read. (rs : List ARecord) → Holds self rs
            → AreCells (names_in rs) (map with_rings (drawings rs)) read.0) }
        ensures head { IfOk result (λ read. (rs : List ARecord) → Holds self rs → read.1 ≡ head_of rs) }
        ensures unnamed { IfErr result (λ e. Says e (λ number. (rs : List ARecord) → Holds self rs
            → IsUnnamed (names_in rs) (numbers_used (map with_rings (drawings rs))) number)) }
    {
        let Reading {
            order: _,
            names,
            modal: _modal,
            cells,
            head,
            unpacker: _unpacker,
            room: _,
        } = self;
        let cells = resolve_cells(alloc, &names, cells.into_drawings(alloc)?)?;
        Ok((Library { cells }, head.head()))
    }
}
