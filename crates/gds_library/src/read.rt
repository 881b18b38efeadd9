//! Reads a library from a reader.
ghost use Rattle.std.specs.Prelude.{◌≡◌, ◌≢◌, List, [], ℕ, OnOk, Some, Err, IfErr, IfOk, false};
ghost use Rattle.lvl_io.specs.Bytes.{CountsFailure};
ghost use Rattle.lvl_refusal.specs.Refused.{Says};
ghost use Rattle.lvl_grammar.specs.Refused.{IsHopeless};
ghost use Rattle.lvl_grammar.specs.inside.ReadTo.{ReadTo};
ghost use Rattle.gds_records.specs.Records.{has_failed, bytes_left, records_offset, records_reader};
ghost use Rattle.gds_records.specs.Records.{records_profile};
ghost use Rattle.gds_library.specs.Front.{gds, IsRead, SpellsNone};
ghost use Rattle.gds_library.specs.Ends.{Reports, ReportsUnread, IsExcused, IsEarly, is_read};
ghost use Rattle.gds_library.specs.inside.Holds.{HasReadBy};
ghost use Rattle.lvl_profile.specs.Profiles.{strict};
ghost use Rattle.gds_library.specs.inside.Refuses.{Refuses};
ghost use Rattle.gds_library.specs.declared.stage.LibraryStage.TheVariants.{Fill, Header};
ghost use Rattle.gds_library.specs.inside.Shown.{done, head_in};

use crate::fault::{GdsFault, GdsKind};
use crate::head::GdsHead;
use crate::ignoring::WithIgnored;
use gds_records::{RecordFault, Records, Stopped};
use lvl_cells::Library;
use lvl_io::{Buffer, Read};
use lvl_profile::Profile;
use lvl_refusal::Cause;
use std::alloc::Global;

/// The library that a GDSII stream spells, and its head. Nothing is ignored, and the standard limits hold.
///
/// The order of records is HEADER BGNLIB LIBNAME UNITS, the structures, ENDLIB, and then only zero bytes up
/// to the end; a structure is BGNSTR STRNAME, its elements, ENDSTR (GDSII Stream Format Manual, Release 6;
/// own: the optional records of a library are refused). A cell has what its elements draw
/// ([`gds_elements::Element`]), in their order. One zero byte at the end of a name is dropped. The first
/// record that is missing, malformed or breaches a rule is reported with its offset in bytes.
pub fn read_gds<R: Read>(
    alloc: Global,
    reader: &mut R,
) -> Result<(Library, GdsHead), Cause<GdsFault>>
    // A library is returned only if the bytes spell it, and they spell no other.
    ensures spelled { (xs : List ℕ) → R.remaining reader.old ≡ Some xs
        → IfOk result (λ read. IsRead strict xs read.0 read.1) }

    // A refusal names what is wrong, and the bytes spell no library, unless an allocation or the reader
    // failed.
    ensures refused { (xs : List ℕ) → R.remaining reader.old ≡ Some xs
        → IfErr result (λ refusal. Says refusal (Reports strict xs)) }
    ensures none { (xs : List ℕ) → R.remaining reader.old ≡ Some xs
        → IfErr result (λ refusal. Says refusal (λ fault. (¬ IsExcused fault) → SpellsNone strict xs)) }

    // If the reader failed, it had given no whole record from the offset on.
    ensures unread { (xs : List ℕ) → R.remaining reader.old ≡ Some xs
        → IfErr result (λ refusal. Says refusal (ReportsUnread strict xs (R.remaining reader.new))) }

    // Unless the input ended or the reader failed, no file that begins with the bytes taken spells
    // a library.
    ensures early { (xs : List ℕ) → R.remaining reader.old ≡ Some xs
        → IfErr result (λ refusal. Says refusal (λ fault. IsEarly fault
        → IsHopeless (gds strict) xs (R.remaining reader.new))) }

    // The reader failed exactly once if `Read` is reported, and otherwise never.
    ensures reads { CountsFailure (R.read_errors reader.old) (R.read_errors reader.new) (is_read result) }
    ensures same { R.lent reader.new ≡ R.lent reader.old }
{
    read_gds_with(alloc, reader, Profile::STANDARD)
}

/// The library that a GDSII stream spells, and its head, with the records ignored and the limits that the
/// profile says.
///
/// An ignored record has the data type and a length that the manual gives its type, and comes where the
/// manual's stream syntax allows it. `names` are LIBDIRSIZE, SRFNAME and LIBSECUR before LIBNAME; REFLIBS,
/// FONTS, GENERATIONS and FORMAT 0 before UNITS; STRCLASS after STRNAME; and ELFLAGS and PLEX after the
/// record that opens an element. `properties` are ATTRTABLE before GENERATIONS, and pairs of PROPATTR and
/// PROPVALUE before ENDEL. Everything else is as in [`read_gds`].
pub fn read_gds_with<R: Read>(
    alloc: Global,
    reader: &mut R,
    profile: Profile,
) -> Result<(Library, GdsHead), Cause<GdsFault>>
    // A library is returned only if the bytes spell it, and they spell no other.
    ensures spelled { (xs : List ℕ) → R.remaining reader.old ≡ Some xs
        → IfOk result (λ read. IsRead profile xs read.0 read.1) }

    // A refusal names what is wrong, and the bytes spell no library, unless an allocation or the reader
    // failed.
    ensures refused { (xs : List ℕ) → R.remaining reader.old ≡ Some xs
        → IfErr result (λ refusal. Says refusal (Reports profile xs)) }
    ensures none { (xs : List ℕ) → R.remaining reader.old ≡ Some xs
        → IfErr result (λ refusal. Says refusal (λ fault. (¬ IsExcused fault) → SpellsNone profile xs)) }

    // If the reader failed, it had given no whole record from the offset on.
    ensures unread { (xs : List ℕ) → R.remaining reader.old ≡ Some xs
        → IfErr result (λ refusal. Says refusal (ReportsUnread profile xs (R.remaining reader.new))) }

    // Unless the input ended or the reader failed, no file that begins with the bytes taken spells
    // a library.
    ensures early { (xs : List ℕ) → R.remaining reader.old ≡ Some xs
        → IfErr result (λ refusal. Says refusal (λ fault. IsEarly fault
        → IsHopeless (gds profile) xs (R.remaining reader.new))) }

    // The reader failed exactly once if `Read` is reported, and otherwise never.
    ensures reads { CountsFailure (R.read_errors reader.old) (R.read_errors reader.new) (is_read result) }
    ensures same { R.lent reader.new ≡ R.lent reader.old }
{
    let buffer = Box::new(alloc, Buffer::new())?;
    let mut records = Records::with_buffer(buffer, reader, profile);
    let read = read_library(alloc, &mut records, profile);
    let _reader = records.into_reader();
    read
}

// Reads the records of a library, and the zero bytes after it.
fn read_library<R: Read>(
    alloc: Global,
    records: &mut Records<R>,
    profile: Profile,
) -> Result<(Library, GdsHead), Cause<GdsFault>>
    requires profile { records_profile records.old ≡ profile }
    requires fresh { has_failed records.old ≡ false }
    requires start { records_offset records.old ≡ 0 }
    ensures spelled { (xs : List ℕ) → bytes_left R.remaining records.old ≡ Some xs
        → IfOk result (λ read. IsRead profile xs read.0 read.1) }
    ensures refused { (xs : List ℕ) → bytes_left R.remaining records.old ≡ Some xs
        → IfErr result (λ refusal. Says refusal (Refuses profile xs (R.remaining (records_reader records.new)))) }
    ensures reads { CountsFailure (R.read_errors (records_reader records.old))
        (R.read_errors (records_reader records.new)) (is_read result) }
    ensures same { R.lent (records_reader records.new) ≡ R.lent (records_reader records.old) }
{
    let mut reading = WithIgnored::new(alloc, profile);
    read_whole(alloc, records, &mut reading, profile)?;
    Ok(reading.finish())
}

// Reads the records of a library, when none was read before, and the zero bytes after it.
fn read_whole<R: Read>(
    alloc: Global,
    records: &mut Records<R>,
    reading: &mut WithIgnored,
    profile: Profile,
) -> Result<(), Cause<GdsFault>>
    requires none { HasReadBy profile reading.old [] }
    requires stage { reading.old.reading.builder.stage ≡ Header }
    requires reading { reading.old.profile ≡ profile }
    requires profile { records_profile records.old ≡ profile }
    requires fresh { has_failed records.old ≡ false }
    requires start { records_offset records.old ≡ 0 }
    ensures spelled { OnOk result ((xs : List ℕ) → bytes_left R.remaining records.old ≡ Some xs
        → IsRead profile xs (done reading.new.reading.builder) (head_in reading.new.reading.builder)) }
    ensures refused { (xs : List ℕ) → bytes_left R.remaining records.old ≡ Some xs
        → IfErr result (λ refusal. Says refusal (Refuses profile xs (R.remaining (records_reader records.new)))) }
    ensures reads { CountsFailure (R.read_errors (records_reader records.old))
        (R.read_errors (records_reader records.new)) (is_read result) }
    ensures same { R.lent (records_reader records.new) ≡ R.lent (records_reader records.old) }
{
    read_all(alloc, records, reading, profile)?;
    match records.tail() {
        Ok(None) => Ok(()),
        Ok(Some(offset)) => Err(refuse(offset, GdsKind::AfterEnd)),
        Err(Stopped::Fault(fault)) => Err(refuse(records.offset(), GdsKind::Record(fault))),
        Err(Stopped::Failed) => unreachable!(),
    }
}

fn refuse(offset: u64, kind: GdsKind) -> Cause<GdsFault>
    ensures { result ≡ Cause.Breach (record { offset = offset; kind = kind }) }
{
    Cause::Breach(GdsFault { offset, kind })
}

// Reads records up to ENDLIB, when none was read before.
fn read_all<R: Read>(
    alloc: Global,
    records: &mut Records<R>,
    reading: &mut WithIgnored,
    profile: Profile,
) -> Result<(), Cause<GdsFault>>
    requires none { HasReadBy profile reading.old [] }
    requires stage { reading.old.reading.builder.stage ≡ Header }
    requires reading { reading.old.profile ≡ profile }
    requires profile { records_profile records.old ≡ profile }
    requires fresh { has_failed records.old ≡ false }
    requires start { records_offset records.old ≡ 0 }
    ensures refused { (xs : List ℕ) → bytes_left R.remaining records.old ≡ Some xs
        → IfErr result (λ refusal. Says refusal (Refuses profile xs (R.remaining (records_reader records.new)))) }
    ensures whole { OnOk result ((reading.new.reading.builder.stage ≡ Fill) × (reading.new.profile ≡ profile)
        × ((xs : List ℕ) → bytes_left R.remaining records.old ≡ Some xs
        → ReadTo (gds profile) xs (records_offset records.new) (HasReadBy profile reading.new)
        (bytes_left R.remaining records.new))) }
    ensures fresh { OnOk result (has_failed records.new ≡ false) }
    ensures profile { OnOk result (records_profile records.new ≡ profile) }
    ensures reads { CountsFailure (R.read_errors (records_reader records.old))
        (R.read_errors (records_reader records.new)) (is_read result) }
    ensures same { R.lent (records_reader records.new) ≡ R.lent (records_reader records.old) }
{
    for _ in 0..u64::MAX {
        let offset = records.offset();
        match records.next() {
            Ok(Some(record)) => match reading.take(alloc, record.kind, record.payload) {
                Ok(()) => {}
                Err(Cause::Breach(kind)) => return Err(refuse(offset, kind)),
                Err(Cause::OutOfMemory) => return Err(Cause::OutOfMemory),
            },
            Ok(None) => return Err(refuse(offset, GdsKind::Record(RecordFault::Truncated))),
            Err(Stopped::Fault(fault)) => return Err(refuse(offset, GdsKind::Record(fault))),
            Err(Stopped::Failed) => unreachable!(),
        }
        if reading.is_whole() {
            return Ok(());
        }
    }
    unreachable!()
}
