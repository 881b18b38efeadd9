//! Reads one element, record by record.
ghost use Rattle.std.specs.Prelude.{◌≡◌, ◌∷◌, [], ◌++◌, ◌↔◌, ℕ, List, IsTrue, IfSome, IfNone, IfOk, IfErr, OnOk};
ghost use Rattle.std.specs.Prelude.{false, None, Some};
ghost use Rattle.gds_elements.specs.Order.{opens};
ghost use Rattle.gds_elements.specs.Rec.{Rec, an_end};
ghost use Rattle.gds_elements.specs.Rules.{InOrder, ElementBreaches, BreachesOnly, BreachesNone};
ghost use Rattle.gds_elements.specs.inside.Formed.{IsFormed};
ghost use Rattle.gds_elements.specs.inside.Reading.{IsReading, IsStep, IsWhole, Draws, HasRead, Takes, Steps, record_of};
ghost use Rattle.lvl_refusal.specs.Refused.{Says};

use crate::aref::Aref;
use crate::boundary::Boundary;
use crate::fault::ElementFault;
use crate::order::out_of_order;
use crate::path::Path;
use crate::sref::Sref;
use crate::text::Text;
use gds_records::record_type;
use lvl_cells::Reference;
use lvl_grid::Ring;
use lvl_names::Layer;
use lvl_profile::Profile;
use lvl_refusal::Cause;
use std::alloc::Global;

/// What a complete element draws.
#[derive(Debug, Drop)]
pub enum Drawn {
    /// The ring of a boundary, on a Layer.
    Ring(Layer, Ring),
    /// The rings of the bands of a path, on a Layer.
    Rings(Layer, Vec<Ring>),
    /// The reference of an SREF or an AREF.
    Reference(Reference),
    /// A text.
    Nothing,
}

/// Which element is read, and what was read of it before the record that ENDEL follows.
#[derive(Drop)]
pub(crate) enum State {
    Boundary(Boundary),
    Path(Path),
    Sref(Sref),
    Aref(Aref),
    Text(Text),
}

/// An element that is being read.
#[derive(Drop)]
pub struct Element {
    state: State,
    /// What it draws, once only ENDEL is missing.
    drawn: Option<Drawn>,
}

/// The result of one more record.
#[derive(Clone, Copy)]
pub enum Step {
    /// The element isn't complete yet.
    Open,
    /// The record was ENDEL. [`Element::take_drawn`] returns what the element draws.
    Whole,
}

impl Element {
    /// The element that a record of this type opens; `None` if it opens none.
    pub fn open(alloc: Global, kind: u8) -> Option<Element>
        ensures opened { IfSome result (λ e. (r : Rec) → r.kind ≡ kind → IsReading e (r ∷ [])) }
        ensures none { IfNone result (opens kind ≡ false) }
    {
        let state = match kind {
            record_type::BOUNDARY => State::Boundary(Boundary::open()),
            record_type::PATH => State::Path(Path::open()),
            record_type::SREF => State::Sref(Sref::open(alloc)),
            record_type::AREF => State::Aref(Aref::open(alloc)),
            record_type::TEXT => State::Text(Text::open()),
            _ => return None,
        };
        Some(Element { state, drawn: None })
    }

    /// Whether ENDEL may come next.
    pub fn may_end(&self) -> bool
        ensures { (piece : List Rec) → IsReading self.now piece → IsTrue result ↔ InOrder piece an_end }
    {
        self.drawn.is_some()
    }

    /// Takes the next record, unless it breaches a rule.
    ///
    /// The order of an element's records and their values are those of the GDSII Stream Format
    /// Manual, Release 6; a rule that [`crate::ElementRule`] marks as own is this project's. A record
    /// that is out of order is refused before its payload is looked at. Then the rules of its type are
    /// tested in the order of that list, except that `Oblique` comes after `NotClosed` and `Width`
    /// before `Path`, and the first that it breaches is reported. An array may have at most
    /// `profile.limits.array` places. An element that refuses a record or is whole is of no further use.
    pub fn take(
        &mut self,
        alloc: Global,
        profile: Profile,
        kind: u8,
        payload: &[u8],
    ) -> Result<Step, Cause<ElementFault>>
        requires formed { IsFormed kind payload.now }
        ensures going { (piece : List Rec) (r : Rec) → IsReading self.old piece → r.kind ≡ kind
            → r.payload ≡ payload.now → IfOk result (λ step. IsStep self.new step (piece ++ r ∷ [])) }
        ensures allowed { (piece : List Rec) (r : Rec) → IsReading self.old piece → r.kind ≡ kind
            → r.payload ≡ payload.now → OnOk result (BreachesNone profile piece r) }
        ensures refused { (piece : List Rec) (r : Rec) → IsReading self.old piece → r.kind ≡ kind
            → r.payload ≡ payload.now → IfErr result (λ e. Says e (ElementBreaches profile piece r)) }
        ensures alone { (piece : List Rec) (r : Rec) → IsReading self.old piece → r.kind ≡ kind
            → r.payload ≡ payload.now → IfErr result (λ e. Says e (BreachesOnly profile piece r)) }
    {
        self.step(alloc, profile, kind, payload)
    }

    // The same, for all clauses at once.
    fn step(
        &mut self,
        alloc: Global,
        profile: Profile,
        kind: u8,
        payload: &[u8],
    ) -> Result<Step, Cause<ElementFault>>
        requires { IsFormed kind payload.now }
        ensures { (piece : List Rec) (d : ℕ) → IsReading self.old piece
            → Steps self.new profile piece (record_of kind d payload.now) result }
    {
        match self.drawn {
            Some(_) => {
                if kind != record_type::ENDEL {
                    return Err(out_of_order(kind));
                }
                Ok(Step::Whole)
            }
            None => {
                self.state
                    .take(alloc, profile, kind, payload, &mut self.drawn)?;
                Ok(Step::Open)
            }
        }
    }

    /// The Layer and the ring of a boundary, after [`Element::take`] has returned `Step::Whole`; None for other
    /// elements. The ring stays where it is: to move all that an element may draw takes longer than to keep a ring.
    pub fn ring(&self) -> Option<(Layer, &Ring)>
        ensures { IfSome result (λ drawn. (piece : List Rec) → IsWhole self.now piece
            → Draws (Some (Drawn.Ring drawn.0 drawn.1.now)) piece) }
    {
        match &self.drawn {
            Some(Drawn::Ring(layer, ring)) => Some((*layer, ring)),
            _ => None,
        }
    }

    /// What the element draws, after [`Element::take`] has returned `Step::Whole`.
    pub fn take_drawn(&mut self) -> Option<Drawn>
        ensures { (piece : List Rec) → IsWhole self.old piece → Draws result piece }
    {
        self.drawn.take()
    }
}

impl State {
    fn take(
        &mut self,
        alloc: Global,
        profile: Profile,
        kind: u8,
        payload: &[u8],
        drawn: &mut Option<Drawn>,
    ) -> Result<(), Cause<ElementFault>>
        requires formed { IsFormed kind payload.now }
        requires none { drawn.old ≡ None }
        ensures { (piece : List Rec) (d : ℕ) → HasRead self.old piece
            → Takes HasRead self.new drawn.new profile piece (record_of kind d payload.now) result }
    {
        match self {
            State::Boundary(boundary) => boundary.take(alloc, kind, payload, drawn),
            State::Path(path) => path.take(alloc, profile, kind, payload, drawn),
            State::Sref(reference) => reference.take(alloc, kind, payload, drawn),
            State::Aref(array) => array.take(alloc, profile, kind, payload, drawn),
            State::Text(text) => text.take(kind, payload, drawn),
        }
    }
}
