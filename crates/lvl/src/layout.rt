//! Reads a file by its format.
ghost use Rattle.std.specs.Prelude.{◌≡◌, ◌↔◌, List, [], ℕ, Option, true, false, Some, IsTrue, IfOk, IfErr, OnErr};
ghost use Rattle.std.specs.Io.KnownBytes.{prepend_known};
ghost use Rattle.lvl_io.specs.Bytes.{CountsFailure, failed};
ghost use Rattle.lvl_io.specs.Peeked.{given_again};
ghost use Rattle.lvl_refusal.specs.Refused.{Says};
ghost use Rattle.lvl_profile.specs.Profiles.{strict};
ghost use Rattle.lvl_profile.specs.declared.profile.Profile.{Profile as PlainProfile};
ghost use Rattle.lvl.specs.Accepted.{WideningKeeps};
ghost use Rattle.lvl.specs.Layouts.{HasFirst, IsLayoutOf, IsOasis};
ghost use Rattle.lvl.specs.Answers.{IsEarlyFile, IsHopeless, IsUnreadAt, ReportsUnreadFile, is_failed_read, read_failed};
ghost use Rattle.lvl.specs.Sides.{layout_parts, IsFileFault};

use gds_library::{GdsFault, GdsHead, GdsKind, RecordFault, read_gds_with};
use lvl_cells::Library;
use lvl_io::{Failure, Peeked, Read};
use lvl_profile::Profile;
use lvl_refusal::Cause;
use oasis_library::{OasisFault, OasisHead, read_oasis_with};
use std::alloc::Global;
use thiserror::Error;

/// The first byte of an OASIS file.
const OASIS: u8 = 0x25;

/// What a file says about itself, by its format.
#[derive(Clone, Copy, Debug, PartialEq, Eq)]
pub enum Head {
    /// GDSII Stream Release 6.
    Gds(GdsHead),
    /// SEMI P39 OASIS 1.0.
    Oasis(OasisHead),
}

/// The library of a file, and what the file says about itself, by its format.
#[derive(Debug, Drop)]
pub enum Layout {
    /// GDSII Stream Release 6.
    Gds(Library, GdsHead),
    /// SEMI P39 OASIS 1.0.
    Oasis(Library, OasisHead),
}

/// Why a file wasn't read, by its format.
#[derive(Clone, Copy, Debug, PartialEq, Eq, Error)]
pub enum FileFault {
    /// GDSII Stream Release 6.
    #[error("the GDSII stream is refused")]
    Gds(GdsFault),
    /// SEMI P39 OASIS 1.0.
    #[error("the OASIS file is refused")]
    Oasis(OasisFault),
}

impl Layout {
    /// The library, and what the file says about itself.
    pub fn into_parts(self) -> (Library, Head)
        ensures { result ≡ layout_parts self }
    {
        match self {
            Layout::Gds(library, head) => (library, Head::Gds(head)),
            Layout::Oasis(library, head) => (library, Head::Oasis(head)),
        }
    }
}

/// The first byte; `None` if the input is empty.
fn take_first<R: Read>(reader: &mut R) -> Result<Option<u8>, Failure>
    ensures first { (xs : List ℕ) → R.remaining reader.old ≡ Some xs → IfOk result (λ byte. HasFirst byte xs) }
    ensures left { (xs : List ℕ) → R.remaining reader.old ≡ Some xs
        → IfOk result (λ byte. prepend_known (given_again byte) (R.remaining reader.new) ≡ Some xs) }
    ensures kept { (xs : List ℕ) → R.remaining reader.old ≡ Some xs
        → OnErr result (R.remaining reader.new ≡ Some xs) }
    ensures errors { CountsFailure (R.read_errors reader.old) (R.read_errors reader.new) (failed result) }
{
    let mut bytes = [0];
    if reader.read(&mut bytes)? == 0 {
        return Ok(None);
    }
    Ok(Some(bytes[0]))
}

/// Reads a file as GDSII.
fn read_as_gds<R: Read>(
    alloc: Global,
    reader: &mut R,
    profile: Profile,
) -> Result<Layout, Cause<FileFault>>
    ensures spelled { (xs : List ℕ) → R.remaining reader.old ≡ Some xs
        → IfOk result (λ layout. IsLayoutOf profile xs (layout_parts layout).0 (layout_parts layout).1) }
    ensures refused { (xs : List ℕ) → R.remaining reader.old ≡ Some xs → (¬ IsOasis xs)
        → IfErr result (λ refusal. Says refusal (IsFileFault profile xs)) }
    ensures early { (xs : List ℕ) → R.remaining reader.old ≡ Some xs → (¬ IsOasis xs)
        → IfErr result (λ refusal. Says refusal (λ fault. IsEarlyFile fault
        → IsHopeless profile xs (R.remaining reader.new))) }
    ensures unread { (xs : List ℕ) → R.remaining reader.old ≡ Some xs
        → IfErr result (λ refusal. Says refusal (ReportsUnreadFile profile xs (R.remaining reader.new))) }
    ensures reads { CountsFailure (R.read_errors reader.old) (R.read_errors reader.new) (is_failed_read result) }
    ensures same { R.lent reader.new ≡ R.lent reader.old }
{
    match read_gds_with(alloc, reader, profile) {
        Ok((library, head)) => Ok(Layout::Gds(library, head)),
        Err(Cause::Breach(fault)) => Err(Cause::Breach(FileFault::Gds(fault))),
        Err(Cause::OutOfMemory) => Err(Cause::OutOfMemory),
    }
}

/// Reads a file as OASIS.
fn read_as_oasis<R: Read>(
    alloc: Global,
    reader: &mut R,
    profile: Profile,
) -> Result<Layout, Cause<FileFault>>
    ensures spelled { (xs : List ℕ) → R.remaining reader.old ≡ Some xs
        → IfOk result (λ layout. IsLayoutOf profile xs (layout_parts layout).0 (layout_parts layout).1) }
    ensures refused { (xs : List ℕ) → R.remaining reader.old ≡ Some xs → IsOasis xs
        → IfErr result (λ refusal. Says refusal (IsFileFault profile xs)) }
    ensures early { (xs : List ℕ) → R.remaining reader.old ≡ Some xs → IsOasis xs
        → IfErr result (λ refusal. Says refusal (λ fault. IsEarlyFile fault
        → IsHopeless profile xs (R.remaining reader.new))) }
    ensures unread { (xs : List ℕ) → R.remaining reader.old ≡ Some xs
        → IfErr result (λ refusal. Says refusal (ReportsUnreadFile profile xs (R.remaining reader.new))) }
    ensures reads { CountsFailure (R.read_errors reader.old) (R.read_errors reader.new) (is_failed_read result) }
    ensures same { R.lent reader.new ≡ R.lent reader.old }
{
    match read_oasis_with(alloc, reader, profile) {
        Ok((library, head)) => Ok(Layout::Oasis(library, head)),
        Err(Cause::Breach(fault)) => Err(Cause::Breach(FileFault::Oasis(fault))),
        Err(Cause::OutOfMemory) => Err(Cause::OutOfMemory),
    }
}

/// Whether this is the first byte of the magic string of OASIS.
fn is_oasis(first: Option<u8>) -> bool
    ensures { IsTrue result ↔ (first ≡ Some 0x25) }
{
    first == Some(OASIS)
}

/// Reads a file that has this first byte.
fn read_with<R: Read>(
    alloc: Global,
    first: Option<u8>,
    reader: &mut R,
    profile: Profile,
) -> Result<Layout, Cause<FileFault>>
    ensures spelled { (xs : List ℕ) → R.remaining reader.old ≡ Some xs
        → IfOk result (λ layout. IsLayoutOf profile xs (layout_parts layout).0 (layout_parts layout).1) }
    ensures refused { (xs : List ℕ) → R.remaining reader.old ≡ Some xs → HasFirst first xs
        → IfErr result (λ refusal. Says refusal (IsFileFault profile xs)) }
    ensures early { (xs : List ℕ) → R.remaining reader.old ≡ Some xs → HasFirst first xs
        → IfErr result (λ refusal. Says refusal (λ fault. IsEarlyFile fault
        → IsHopeless profile xs (R.remaining reader.new))) }
    ensures unread { (xs : List ℕ) → R.remaining reader.old ≡ Some xs
        → IfErr result (λ refusal. Says refusal (ReportsUnreadFile profile xs (R.remaining reader.new))) }
    ensures reads { CountsFailure (R.read_errors reader.old) (R.read_errors reader.new) (is_failed_read result) }
    ensures same { R.lent reader.new ≡ R.lent reader.old }
{
    if is_oasis(first) {
        return read_as_oasis(alloc, reader, profile);
    }
    read_as_gds(alloc, reader, profile)
}

/// The fault of a read that failed before there was a byte.
fn unread() -> FileFault
    ensures reported { (profile : PlainProfile) (xs : List ℕ) → IsFileFault profile xs result }
    ensures unread { (profile : PlainProfile) (xs : List ℕ) → ReportsUnreadFile profile xs (Some xs) result }
    ensures late { IsEarlyFile result → ⊥ }
    ensures read { read_failed result ≡ true }
{
    FileFault::Gds(GdsFault {
        offset: 0,
        kind: GdsKind::Record(RecordFault::Read),
    })
}

/// The fault of an empty file: it ends before its first record. It isn't read on, since its end was seen.
fn empty() -> FileFault
    ensures reported { (profile : PlainProfile) → IsFileFault profile [] result }
    ensures unread { (profile : PlainProfile) (xs : List ℕ) (left : Option (List ℕ))
        → ReportsUnreadFile profile xs left result }
    ensures late { IsEarlyFile result → ⊥ }
    ensures read { read_failed result ≡ false }
{
    FileFault::Gds(GdsFault {
        offset: 0,
        kind: GdsKind::Record(RecordFault::Truncated),
    })
}

/// Reads a file. If its first byte is 0x25 it is read as OASIS, otherwise as GDSII (own rule; no
/// file is of both formats).
///
/// `bytes` is a file with one cell:
///
/// ```
/// use lvl::read_layout;
/// use lvl_io::fake::Pieces;
///
/// let layout = read_layout(alloc, &mut Pieces::new(&bytes, usize::MAX))?;
/// let (library, _) = layout.into_parts();
/// assert_eq!(rt; library.cells.len(), 1);
/// ```
pub fn read_layout<R: Read>(alloc: Global, reader: &mut R) -> Result<Layout, Cause<FileFault>>
    ensures spelled { (xs : List ℕ) → R.remaining reader.old ≡ Some xs
        → IfOk result (λ layout. IsLayoutOf strict xs (layout_parts layout).0 (layout_parts layout).1) }
    ensures refused { (xs : List ℕ) → R.remaining reader.old ≡ Some xs
        → IfErr result (λ refusal. Says refusal (IsFileFault strict xs)) }
    ensures early { (xs : List ℕ) → R.remaining reader.old ≡ Some xs
        → IfErr result (λ refusal. Says refusal (λ fault. IsEarlyFile fault
        → IsHopeless strict xs (R.remaining reader.new))) }
    ensures unread { (xs : List ℕ) → R.remaining reader.old ≡ Some xs
        → IfErr result (λ refusal. Says refusal (IsUnreadAt strict xs (R.remaining reader.new))) }
    ensures reads { CountsFailure (R.read_errors reader.old) (R.read_errors reader.new) (is_failed_read result) }
{
    read_layout_with(alloc, reader, Profile::STANDARD)
}

/// Reads a file as [`read_layout`] does, under a profile, by
/// [`read_gds_with`](gds_library::read_gds_with) or [`read_oasis_with`](oasis_library::read_oasis_with).
pub fn read_layout_with<R: Read>(
    alloc: Global,
    reader: &mut R,
    profile: Profile,
) -> Result<Layout, Cause<FileFault>>
    ensures spelled { (xs : List ℕ) → R.remaining reader.old ≡ Some xs
        → IfOk result (λ layout. IsLayoutOf profile xs (layout_parts layout).0 (layout_parts layout).1) }
    ensures refused { (xs : List ℕ) → R.remaining reader.old ≡ Some xs
        → IfErr result (λ refusal. Says refusal (IsFileFault profile xs)) }
    ensures early { (xs : List ℕ) → R.remaining reader.old ≡ Some xs
        → IfErr result (λ refusal. Says refusal (λ fault. IsEarlyFile fault
        → IsHopeless profile xs (R.remaining reader.new))) }
    ensures unread { (xs : List ℕ) → R.remaining reader.old ≡ Some xs
        → IfErr result (λ refusal. Says refusal (IsUnreadAt profile xs (R.remaining reader.new))) }
    ensures reads { CountsFailure (R.read_errors reader.old) (R.read_errors reader.new) (is_failed_read result) }
{
    let Ok(first) = take_first(reader) else {
        return Err(Cause::Breach(unread()));
    };
    if first.is_none() {
        return Err(Cause::Breach(empty()));
    }
    let mut whole = Peeked::new(first, reader);
    let read = read_with(alloc, first, &mut whole, profile);
    let _reader = whole.into_rest();
    read
}

/// A wider profile changes nothing that is accepted under a narrower one: bytes that spell a library still
/// spell the same one, with the same head, and a file that is accepted is still accepted, with the same cells
/// and the same top. This function states the law and computes nothing.
pub fn widening_keeps()
    ensures { WideningKeeps }
{}
