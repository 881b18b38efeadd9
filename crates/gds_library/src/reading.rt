//! Reads a library, record by record.
ghost use Rattle.std.specs.Prelude.{◌≡◌, List, ℕ, [], None, IsTrue, ◌↔◌};
ghost use Rattle.gds_elements.specs.Rec.{Rec, an_end};
ghost use Rattle.gds_library.specs.Rules.{InOrder};
ghost use Rattle.gds_elements.specs.inside.Reading.{record_of};
ghost use Rattle.gds_elements.specs.inside.Formed.{IsFormed as IsFormedInElement};
ghost use Rattle.gds_library.specs.inside.Faults.{IsFormed, lifted_refusal};
ghost use Rattle.gds_library.specs.inside.Holds.{Holds, HasRead, Takes};

use crate::builder::Builder;
use crate::fault::GdsKind;
use crate::head::GdsHead;
use gds_elements::{Element, ElementFault, Step};
use lvl_cells::Library;
use lvl_profile::Profile;
use lvl_refusal::Cause;
use std::alloc::Global;

/// What was read so far: a library, and the open element of its last cell.
#[derive(Drop)]
pub(crate) struct Reading {
    builder: Builder,
    element: Option<Element>,
}

impl Reading {
    ghost use Rattle.gds_library.specs.inside.Shown.{done};
    ghost use Rattle.gds_library.specs.declared.stage.LibraryStage.TheVariants.{Header, Fill};

    pub(crate) fn new(alloc: Global) -> Reading
        ensures none { HasRead result [] }
        ensures stage { result.builder.stage ≡ Header }
    {
        Reading {
            builder: Builder::new(alloc),
            element: None,
        }
    }

    /// Whether ENDLIB was read.
    pub(crate) fn is_whole(&self) -> bool
        ensures { IsTrue result ↔ (self.now.builder.stage ≡ Fill) }
    {
        self.builder.is_whole()
    }

    /// The complete cells, and the head.
    pub(crate) fn finish(self) -> (Library, GdsHead)
        ensures cells { result.0 ≡ done self.builder }
        ensures head { result.1 ≡ record { version = self.builder.version; units = self.builder.units } }
    {
        self.builder.finish()
    }

    /// Whether ENDEL may come next.
    pub(crate) fn may_end(&self) -> bool
        ensures { (rs : List Rec) → HasRead self.now rs → IsTrue result ↔ InOrder rs an_end }
    {
        match &self.element {
            Some(element) => element.may_end(),
            None => false,
        }
    }

    /// Takes the next record, unless it breaches a rule.
    pub(crate) fn take(
        &mut self,
        alloc: Global,
        profile: Profile,
        kind: u8,
        payload: &[u8],
    ) -> Result<(), Cause<GdsKind>>
        requires formed { IsFormed kind payload.now }
        requires in_element { IsFormedInElement kind payload.now }
        ensures { (rs : List Rec) (d : ℕ) → HasRead self.old rs
            → Takes profile rs (record_of kind d payload.now) self.new result }
    {
        match &mut self.element {
            Some(element) => match element.take(alloc, profile, kind, payload) {
                Ok(Step::Open) => Ok(()),
                Ok(Step::Whole) => {
                    self.builder.add_element(element)?;
                    close(&mut self.element);
                    Ok(())
                }
                Err(refusal) => Err(lifted(refusal)),
            },
            None => self.take_outside(alloc, profile, kind, payload),
        }
    }

    // Takes a record when no element is open.
    fn take_outside(
        &mut self,
        alloc: Global,
        profile: Profile,
        kind: u8,
        payload: &[u8],
    ) -> Result<(), Cause<GdsKind>>
        requires none { self.old.element ≡ None }
        requires formed { IsFormed kind payload.now }
        ensures { (rs : List Rec) (d : ℕ) → Holds self.old.builder rs
            → Takes profile rs (record_of kind d payload.now) self.new result }
    {
        if self.builder.may_open() {
            if let Some(element) = Element::open(alloc, kind) {
                self.element = Some(element);
                return Ok(());
            }
        }
        self.builder.take(alloc, profile.limits, kind, payload)?;
        Ok(())
    }
}

// No element is open any more. In `take` itself, room for an element would be cleared for each record.
fn close(element: &mut Option<Element>)
    ensures { element.new ≡ None }
{
    *element = None;
}

// The refusal of a record of an element, as one of the library.
fn lifted(refusal: Cause<ElementFault>) -> Cause<GdsKind>
    ensures { result ≡ lifted_refusal refusal }
{
    match refusal {
        Cause::Breach(ElementFault::Misplaced(misplaced)) => {
            Cause::Breach(GdsKind::Misplaced(misplaced))
        }
        Cause::Breach(ElementFault::Rule(rule)) => Cause::Breach(GdsKind::Element(rule)),
        Cause::OutOfMemory => Cause::OutOfMemory,
    }
}
