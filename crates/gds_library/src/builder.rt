//! Builds the library from the records outside of elements and from what elements draw.
ghost use Rattle.std.specs.Prelude.{◌≡◌, ◌==◌, if◌then◌else◌, ◌<◌, [], pos, Some, None, IsTrue, ◌↔◌, OnOk, IfOk, IfErr};
ghost use Rattle.std.specs.Prelude.{◌∷◌, length, List, map};
ghost use Rattle.lvl_names.specs.Shifts.{one_place};
ghost use Rattle.gds_elements.specs.Types.{header, units};
ghost use Rattle.gds_elements.specs.Meaning.{in_rings, shapes_of, references_of};
ghost use Rattle.gds_elements.specs.Rec.{Rec};
ghost use Rattle.gds_elements.specs.Values.{short};
ghost use Rattle.lvl_refusal.specs.Refused.{Says};
ghost use Rattle.gds_elements.specs.inside.Reading.{IsWhole, shapes_in, references_in};
ghost use Rattle.gds_library.specs.Values.{two_reals};
ghost use Rattle.gds_library.specs.inside.Stage.{after};
ghost use Rattle.gds_library.specs.inside.Faults.{IsFormed, IsFault, IsAllowed};

use crate::fault::GdsKind;
use crate::head::{GdsHead, two_reals};
use crate::stage::LibraryStage;
use gds_elements::{Drawn, Element, misplaced, name};
use gds_records::record_type;
use lvl_cells::{Builder as Cells, Library};
use lvl_grid::Ring;
use lvl_names::{Layer, Offsets, is_name};
use lvl_profile::Limits;
use lvl_refusal::Cause;
use std::alloc::Global;

/// The library so far: the place in the order of records, the head, and the cells.
#[derive(Drop)]
pub(crate) struct Builder {
    stage: LibraryStage,
    version: i16,
    units: [[u8; 8]; 2],
    cells: Cells,
}

impl Builder {
    ghost use Rattle.gds_library.specs.inside.Shown.{shown, grown, with_drawn, on_last, done};

    pub(crate) fn new(alloc: Global) -> Builder
        ensures stage { result.stage ≡ LibraryStage.Header }
        ensures shown { shown result ≡ [] }
        ensures version { result.version ≡ pos 0 }
    {
        Builder {
            stage: LibraryStage::Header,
            version: 0,
            units: [[0; 8]; 2],
            cells: Cells::new(alloc),
        }
    }

    /// Whether an element may begin.
    pub(crate) fn may_open(&self) -> bool
        ensures { IsTrue result ↔ (self.now.stage ≡ LibraryStage.Elements) }
    {
        self.stage == LibraryStage::Elements
    }

    /// Whether ENDLIB was read.
    pub(crate) fn is_whole(&self) -> bool
        ensures { IsTrue result ↔ (self.now.stage ≡ LibraryStage.Fill) }
    {
        self.stage == LibraryStage::Fill
    }

    /// The complete cells, and the head.
    pub(crate) fn finish(self) -> (Library, GdsHead)
        ensures cells { result.0 ≡ done self }
        ensures head { result.1 ≡ record { version = self.version; units = self.units } }
    {
        let Builder {
            stage: _,
            version,
            units,
            cells,
        } = self;
        (cells.finish(), GdsHead { version, units })
    }

    /// Takes the next record, unless it opens an element or breaches a rule.
    pub(crate) fn take(
        &mut self,
        alloc: Global,
        limits: Limits,
        kind: u8,
        payload: &[u8],
    ) -> Result<(), Cause<GdsKind>>
        requires { IsFormed kind payload.now }
        ensures refused { IfErr result
            (λ e. Says e (IsFault limits self.old.stage (length self.old.cells.cells) kind payload.now)) }
        ensures stage { OnOk result (after self.old.stage kind ≡ Some self.new.stage) }
        ensures allowed { OnOk result (IsAllowed limits (length self.old.cells.cells) kind payload.now) }
        ensures version { OnOk result
            (self.new.version ≡ (if kind == header then short payload.now else self.old.version)) }
        ensures units { OnOk result
            (self.new.units ≡ (if kind == units then two_reals payload.now else self.old.units)) }
        ensures shown { OnOk result (shown self.new ≡ grown kind payload.now (shown self.old)) }
    {
        let Some(next) = self.stage.after(kind) else {
            return Err(Cause::Breach(GdsKind::Misplaced(misplaced(kind))));
        };
        match kind {
            record_type::HEADER => self.version = i16::from_be_bytes([payload[0], payload[1]]),
            record_type::UNITS => self.units = two_reals(payload),
            record_type::BGNSTR => {
                if self.cells.len() as u64 >= limits.cells {
                    return Err(Cause::Breach(GdsKind::TooManyCells));
                }
            }
            record_type::STRNAME => {
                let name = name(payload);
                if !is_name(name) {
                    return Err(Cause::Breach(GdsKind::Name));
                }
                self.cells.open(alloc, name)?;
            }
            record_type::ENDSTR => self.cells.close(alloc)?,
            _ => {}
        }
        self.stage = next;
        Ok(())
    }

    /// Adds what an element draws, whose last record was read, to the cell that is open. It fails only if it is out
    /// of memory.
    pub(crate) fn add_element(&mut self, element: &mut Element) -> Result<(), Cause<GdsKind>>
        ensures refused { IfErr result (λ e. e ≡ Cause.OutOfMemory) }
        ensures stage { OnOk result (self.new.stage ≡ self.old.stage) }
        ensures version { OnOk result (self.new.version ≡ self.old.version) }
        ensures units { OnOk result (self.new.units ≡ self.old.units) }
        ensures shown { (piece : List Rec) → IsWhole element.old piece → OnOk result
            (self.old.stage ≡ LibraryStage.Elements
            → shown self.new ≡ on_last (with_drawn (map in_rings (shapes_of piece)) (references_of piece))
            (shown self.old)) }
    {
        if let Some((layer, ring)) = element.ring() {
            return self.add_ring(layer, ring);
        }
        match element.take_drawn() {
            Some(drawn) => self.add(drawn),
            None => Ok(()),
        }
    }

    // Adds the ring of a boundary to the cell that is open.
    fn add_ring(&mut self, layer: Layer, ring: &Ring) -> Result<(), Cause<GdsKind>>
        ensures refused { IfErr result (λ e. e ≡ Cause.OutOfMemory) }
        ensures stage { OnOk result (self.new.stage ≡ self.old.stage) }
        ensures version { OnOk result (self.new.version ≡ self.old.version) }
        ensures units { OnOk result (self.new.units ≡ self.old.units) }
        ensures shown { OnOk result (self.old.stage ≡ LibraryStage.Elements
            → shown self.new ≡ on_last (with_drawn
            (record { layer = layer; figure = ring.now ∷ []; shifts = one_place } ∷ []) []) (shown self.old)) }
    {
        self.cells
            .add_ring(layer, ring.points(), &Offsets::single())?;
        Ok(())
    }

    // Adds what an element draws to the cell that is open.
    fn add(&mut self, drawn: Drawn) -> Result<(), Cause<GdsKind>>
        ensures refused { IfErr result (λ e. e ≡ Cause.OutOfMemory) }
        ensures stage { OnOk result (self.new.stage ≡ self.old.stage) }
        ensures version { OnOk result (self.new.version ≡ self.old.version) }
        ensures units { OnOk result (self.new.units ≡ self.old.units) }
        ensures shown { OnOk result (self.old.stage ≡ LibraryStage.Elements
            → shown self.new ≡ on_last (with_drawn (shapes_in drawn) (references_in drawn)) (shown self.old)) }
    {
        match drawn {
            Drawn::Ring(layer, ring) => self.add_ring(layer, &ring)?,
            Drawn::Rings(layer, rings) => {
                self.cells.add_rings(layer, &rings, &Offsets::single())?;
            }
            Drawn::Reference(reference) => self.cells.add_reference(reference)?,
            Drawn::Nothing => {}
        }
        Ok(())
    }
}
