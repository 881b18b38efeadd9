//! Which record may come next, by its id only.
ghost use Rattle.std.specs.Prelude.{◌≡◌, List, [], Ok};
ghost use Rattle.oasis_records.specs.declared.record.Record.{Record as Read};
ghost use Rattle.oasis_stream.specs.Order.{is_start, is_inner, is_outer, opens_cell, is_expected, is_expected_in};
ghost use Rattle.oasis_stream.specs.Order.{mixes, allowed, type_after, at_end};
ghost use Rattle.oasis_stream.specs.inside.Reached.{HasReached, passed};

use crate::fault::{NameRule, OasisKind};
use lvl_profile::{Limits, Profile};
use oasis_records::{Record, RecordRule, RecordType};

/// What the records so far say about those that may come next.
#[derive(Clone, Copy, Debug, Drop)]
pub struct Order {
    /// No record has been read.
    is_fresh: bool,
    /// A cell is open.
    in_cell: bool,
    /// The number of cells so far, at most `u64::MAX`.
    cells: u64,
    /// Some name has a number of its own.
    has_numbered: bool,
    /// Some name has no number of its own.
    has_unnumbered: bool,
    /// START says that END has the offsets of tables.
    has_offsets_at_end: bool,
}

fn is_start(kind: Result<RecordType, RecordRule>) -> bool
    ensures { result ≡ is_start kind }
{
    match kind {
        Ok(RecordType::Start) => true,
        _ => false,
    }
}

// Whether a record of this type belongs in a cell.
fn is_inner(kind: Result<RecordType, RecordRule>) -> bool
    ensures { result ≡ is_inner kind }
{
    match kind {
        Ok(
            RecordType::XyAbsolute
            | RecordType::XyRelative
            | RecordType::Placement
            | RecordType::ScaledPlacement
            | RecordType::Rectangle
            | RecordType::Polygon
            | RecordType::Path
            | RecordType::Text,
        ) => true,
        _ => false,
    }
}

// Whether no block has a record of this type inside.
fn is_outer(kind: Result<RecordType, RecordRule>) -> bool
    ensures { result ≡ is_outer kind }
{
    match kind {
        Ok(RecordType::Start | RecordType::End | RecordType::Block) => true,
        _ => false,
    }
}

fn opens_cell(kind: RecordType) -> bool
    ensures { result ≡ opens_cell kind }
{
    match kind {
        RecordType::NumberedCell | RecordType::NamedCell => true,
        _ => false,
    }
}

impl Order {
    /// The state before the first record.
    pub fn new() -> Order
        ensures { HasReached result [] }
    {
        Order {
            is_fresh: true,
            in_cell: false,
            cells: 0,
            has_numbered: false,
            has_unnumbered: false,
            has_offsets_at_end: false,
        }
    }

    /// Whether END has the offsets of tables.
    pub fn has_offsets_at_end(&self) -> bool
        ensures { (rs : List Read) → HasReached self.now rs → result ≡ at_end rs }
    {
        self.has_offsets_at_end
    }

    /// The type of the next record by its id under the profile, inside a block or not, or the rule that the id
    /// breaches.
    #[inline(always)]
    pub fn type_of(&self, id: u64, profile: Profile, inside: bool) -> Result<RecordType, OasisKind>
        ensures { (rs : List Read) → HasReached self.now rs → result ≡ type_after inside profile rs id }
    {
        let kind = RecordType::of(id, profile);
        if !self.is_expected_in(inside, kind) {
            return Err(OasisKind::Unexpected(id));
        }
        match kind {
            Ok(kind) => self.allow(kind, profile.limits),
            Err(rule) => Err(OasisKind::Record(rule)),
        }
    }

    /// Changes the state to that after the record.
    pub fn pass(&mut self, taken: &Record)
        ensures { self.new ≡ passed self.old taken.now }
    {
        self.is_fresh = false;
        match taken {
            Record::Start(start) => self.has_offsets_at_end = start.has_offsets_at_end,
            Record::CellName(name) => {
                self.in_cell = false;
                match name.number {
                    Some(_) => self.has_numbered = true,
                    None => self.has_unnumbered = true,
                }
            }
            Record::Entry => self.in_cell = false,
            Record::Cell(_) => {
                self.in_cell = true;
                if self.cells < u64::MAX {
                    self.cells += 1;
                }
            }
            _ => {}
        }
    }

    // Whether a record of this type may come: START is the first record and comes only there, and a
    // record that belongs in a cell comes only while one is open.
    fn is_expected(&self, kind: Result<RecordType, RecordRule>) -> bool
        ensures { (rs : List Read) → HasReached self.now rs → result ≡ is_expected rs kind }
    {
        if self.is_fresh {
            return is_start(kind);
        }
        !is_start(kind) && (!is_inner(kind) || self.in_cell)
    }

    // Whether a record of this type may come, inside a block or not.
    fn is_expected_in(&self, inside: bool, kind: Result<RecordType, RecordRule>) -> bool
        ensures { (rs : List Read) → HasReached self.now rs → result ≡ is_expected_in inside rs kind }
    {
        !(inside && is_outer(kind)) && self.is_expected(kind)
    }

    // Whether names would be given both with and without numbers of their own.
    fn mixes(&self, kind: RecordType) -> bool
        ensures { (rs : List Read) → HasReached self.now rs → result ≡ mixes rs kind }
    {
        match kind {
            RecordType::CellName => self.has_numbered,
            RecordType::NumberedCellName => self.has_unnumbered,
            _ => false,
        }
    }

    // The type, if the records before it allow it, within the limits.
    fn allow(&self, kind: RecordType, limits: Limits) -> Result<RecordType, OasisKind>
        ensures { (rs : List Read) → HasReached self.now rs → result ≡ allowed limits rs (Ok kind) }
    {
        if self.mixes(kind) {
            return Err(OasisKind::Name(NameRule::Mixed));
        }
        if opens_cell(kind) && self.cells >= limits.cells {
            return Err(OasisKind::TooManyCells);
        }
        Ok(kind)
    }
}
