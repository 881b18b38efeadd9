//! Reads a library from a stream in which some records are ignored.
ghost use Rattle.std.specs.Prelude.{◌≡◌, ◌≢◌, List, ℕ, [], IsTrue, ◌↔◌, true, false};
ghost use Rattle.gds_elements.specs.Order.{opens};
ghost use Rattle.gds_elements.specs.Rec.{Rec};
ghost use Rattle.gds_elements.specs.inside.Reading.{record_of};
ghost use Rattle.gds_elements.specs.inside.Formed.{IsFormed as IsFormedInElement};
ghost use Rattle.lvl_profile.specs.declared.profile.Profile.{Profile as PlainProfile};
ghost use Rattle.gds_library.specs.Ignoring.{comes_after, is_passed, AwaitsValue, MayPass};
ghost use Rattle.gds_library.specs.inside.Faults.{IsFormed};
ghost use Rattle.gds_library.specs.inside.Holds.{HasReadBy, TakesBy};

use crate::fault::GdsKind;
use crate::head::GdsHead;
use crate::reading::Reading;
use gds_elements::{Misplaced, misplaced};
use gds_records::{is_ignored, record_type};
use lvl_cells::Library;
use lvl_profile::Profile;
use lvl_refusal::Cause;
use std::alloc::Global;

/// The payload of FORMAT 0, which is a plain archive.
const ARCHIVE: [u8; 2] = [0, 0];

/// What was read so far, and the type of the last record, whether it is ignored or not.
#[derive(Drop)]
pub(crate) struct WithIgnored {
    profile: Profile,
    last: Option<u8>,
    reading: Reading,
}

impl WithIgnored {
    ghost use Rattle.gds_library.specs.inside.Shown.{done};
    ghost use Rattle.gds_library.specs.declared.stage.LibraryStage.TheVariants.{Header, Fill};

    pub(crate) fn new(alloc: Global, profile: Profile) -> WithIgnored
        ensures none { HasReadBy profile result [] }
        ensures stage { result.reading.builder.stage ≡ Header }
        ensures profile { result.profile ≡ profile }
    {
        WithIgnored {
            profile,
            last: None,
            reading: Reading::new(alloc),
        }
    }

    /// Whether ENDLIB was read.
    pub(crate) fn is_whole(&self) -> bool
        ensures { IsTrue result ↔ (self.now.reading.builder.stage ≡ Fill) }
    {
        self.reading.is_whole()
    }

    /// The complete cells, and the head.
    pub(crate) fn finish(self) -> (Library, GdsHead)
        ensures cells { result.0 ≡ done self.reading.builder }
        ensures head { result.1 ≡ record {
          version = self.reading.builder.version;
          units = self.reading.builder.units;
        } }
    {
        self.reading.finish()
    }

    /// Takes the next record, unless it breaches a rule.
    pub(crate) fn take(
        &mut self,
        alloc: Global,
        kind: u8,
        payload: &[u8],
    ) -> Result<(), Cause<GdsKind>>
        requires formed { IsFormed kind payload.now }
        requires in_element { IsFormedInElement kind payload.now }
        requires unended { self.old.reading.builder.stage ≢ Fill }
        ensures takes { (rs : List Rec) (d : ℕ) → HasReadBy self.old.profile self.old rs
            → TakesBy self.old.profile rs (record_of kind d payload.now) self.new result }
        ensures profile { self.new.profile ≡ self.old.profile }
    {
        if is_passed(self.profile, kind, payload) {
            self.pass(kind)
        } else {
            self.take_essential(alloc, kind, payload)
        }
    }

    // Takes a record that is ignored.
    fn pass(&mut self, kind: u8) -> Result<(), Cause<GdsKind>>
        requires unended { self.old.reading.builder.stage ≢ Fill }
        ensures takes { (rs : List Rec) (r : Rec) → r.kind ≡ kind → is_passed self.old.profile r ≡ true
            → HasReadBy self.old.profile self.old rs → TakesBy self.old.profile rs r self.new result }
        ensures profile { self.new.profile ≡ self.old.profile }
    {
        if !self.may_pass(kind) {
            return Err(Cause::Breach(GdsKind::Misplaced(Misplaced::Unexpected(kind))));
        }
        self.last = Some(kind);
        Ok(())
    }

    // Takes a record that isn't ignored.
    fn take_essential(
        &mut self,
        alloc: Global,
        kind: u8,
        payload: &[u8],
    ) -> Result<(), Cause<GdsKind>>
        requires formed { IsFormed kind payload.now }
        requires in_element { IsFormedInElement kind payload.now }
        ensures takes { (rs : List Rec) (d : ℕ) → is_passed self.old.profile (record_of kind d payload.now) ≡ false
            → HasReadBy self.old.profile self.old rs
            → TakesBy self.old.profile rs (record_of kind d payload.now) self.new result }
        ensures profile { self.new.profile ≡ self.old.profile }
    {
        if self.awaits_value() {
            return Err(Cause::Breach(GdsKind::Misplaced(misplaced(kind))));
        }
        self.reading.take(alloc, self.profile, kind, payload)?;
        self.last = Some(kind);
        Ok(())
    }

    // Whether the last record is a PROPATTR, so that a PROPVALUE must come next.
    fn awaits_value(&self) -> bool
        ensures { (profile : PlainProfile) (rs : List Rec) → HasReadBy profile self.now rs
            → IsTrue result ↔ AwaitsValue rs }
    {
        match self.last {
            Some(kind) => kind == record_type::PROPATTR,
            None => false,
        }
    }

    // Whether an ignored record of this type may come next.
    fn may_pass(&self, kind: u8) -> bool
        requires unended { self.now.reading.builder.stage ≢ Fill }
        ensures { (rs : List Rec) (r : Rec) → r.kind ≡ kind → HasReadBy self.now.profile self.now rs
            → IsTrue result ↔ MayPass self.now.profile rs r }
    {
        if kind == record_type::PROPATTR {
            return !self.awaits_value() && self.reading.may_end();
        }
        match self.last {
            Some(last) => comes_after(kind, last),
            None => false,
        }
    }
}

// Whether a record is ignored.
fn is_passed(profile: Profile, kind: u8, payload: &[u8]) -> bool
    ensures { (d : ℕ) → result ≡ is_passed profile (record_of kind d payload.now) }
{
    is_ignored(profile.ignore, kind)
        && (kind != record_type::FORMAT || payload == ARCHIVE.as_slice())
}

// Whether an ignored record of this type may come directly after one of the type `last`.
fn comes_after(kind: u8, last: u8) -> bool
    ensures { result ≡ comes_after kind last }
{
    use record_type::*;
    match kind {
        LIBDIRSIZE => last == BGNLIB,
        SRFNAME => last == BGNLIB || last == LIBDIRSIZE,
        LIBSECUR => last == BGNLIB || last == LIBDIRSIZE || last == SRFNAME,
        REFLIBS => last == LIBNAME,
        FONTS => last == LIBNAME || last == REFLIBS,
        ATTRTABLE => last == LIBNAME || last == REFLIBS || last == FONTS,
        GENERATIONS => { last == LIBNAME || last == REFLIBS || last == FONTS || last == ATTRTABLE }
        FORMAT => {
            last == LIBNAME
                || last == REFLIBS
                || last == FONTS
                || last == ATTRTABLE
                || last == GENERATIONS
        }
        STRCLASS => last == STRNAME,
        ELFLAGS => opens(last),
        PLEX => opens(last) || last == ELFLAGS,
        PROPVALUE => last == PROPATTR,
        _ => false,
    }
}

// Whether a type opens an element.
fn opens(kind: u8) -> bool
    ensures { result ≡ opens kind }
{
    use record_type::*;
    kind == BOUNDARY || kind == PATH || kind == SREF || kind == AREF || kind == TEXT
}
