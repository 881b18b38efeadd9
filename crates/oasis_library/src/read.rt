//! Reads a library from a reader.
ghost use Rattle.std.specs.Prelude.{◌≡◌, ◌≢◌, List, [], ℕ, OnOk, Some, Err, IfErr, IfOk, false};
ghost use Rattle.lvl_io.specs.Bytes.{CountsFailure};
ghost use Rattle.lvl_refusal.specs.Refused.{Says};
ghost use Rattle.lvl_grammar.specs.Refused.{IsHopeless};
ghost use Rattle.lvl_grammar.specs.inside.ReadTo.{ReadTo};
ghost use Rattle.lvl_profile.specs.Profiles.{strict};
ghost use Rattle.oasis_values.specs.Input.{has_failed, bytes_left, input_profile, input_offset, input_reader};
ghost use Rattle.lvl_grammar.specs.Front.{SpellsWhole};
ghost use Rattle.oasis_stream.specs.Front.{oasis};
ghost use Rattle.oasis_stream.specs.Items.{IsEnded};
ghost use Rattle.oasis_library.specs.inside.Holds.{is_end};
ghost use Rattle.oasis_library.specs.Ends.{Reports, ReportsUnread, IsExcused, IsEarly, is_read};
ghost use Rattle.oasis_library.specs.Library.{IsRead, SpellsNone};
ghost use Rattle.oasis_library.specs.inside.Holds.{HasRead, HasWhole};
ghost use Rattle.oasis_library.specs.inside.Ended.{is_truncated};
ghost use Rattle.oasis_library.specs.inside.Refuses.{Refuses, refused_at};

use crate::blocks::take_next;
use crate::fault::OasisFault;
use crate::head::OasisHead;
use crate::reading::Reading;
use lvl_cells::Library;
use lvl_io::Read;
use lvl_profile::Profile;
use lvl_refusal::Cause;
use oasis_blocks::Unpacked;
use oasis_records::Record;
use oasis_stream::{OasisKind, read_first, read_next};
use oasis_values::{Input, ValueFault};
use std::alloc::Global;

/// The library that an OASIS file spells, and its head. Nothing is ignored, and the standard limits hold.
///
/// A file is the magic string, a START record, records, and an END record of 256 bytes (SEMI P39 OASIS
/// 1.0). A cell has the shapes and the references of the records after its CELL, in their order. A field
/// that isn't in a record has the value of its modal variable; at each CELL the modal variables begin anew.
/// A cell that is given by a number has the name in the CELLNAME of that number, which may come anywhere in
/// the file. The first record that is missing, malformed or breaches a rule is reported with its offset in
/// bytes. If there is none, the first number used that no CELLNAME has is reported.
pub fn read_oasis<R: Read>(
    alloc: Global,
    reader: &mut R,
) -> Result<(Library, OasisHead), Cause<OasisFault>>
    // A library is returned only if the bytes spell it, and they spell no other.
    ensures spelled { (xs : List ℕ) → R.remaining reader.old ≡ Some xs
        → IfOk result (λ read. IsRead strict xs read.0 read.1) }

    // A refusal names what is wrong, and the bytes spell no library, unless an allocation or the reader
    // failed.
    ensures refused { (xs : List ℕ) → R.remaining reader.old ≡ Some xs
        → IfErr result (λ refusal. Says refusal (Reports strict xs)) }
    ensures none { (xs : List ℕ) → R.remaining reader.old ≡ Some xs
        → IfErr result (λ refusal. Says refusal (λ fault. (¬ IsExcused fault) → SpellsNone strict xs)) }

    // If the reader failed, it had given no whole record from the offset on.
    ensures unread { (xs : List ℕ) → R.remaining reader.old ≡ Some xs
        → IfErr result (λ refusal. Says refusal (ReportsUnread strict xs (R.remaining reader.new))) }

    // If a record is refused, and neither did the input end nor the reader fail, no file that
    // begins with the bytes taken spells a library.
    ensures early { (xs : List ℕ) → R.remaining reader.old ≡ Some xs
        → IfErr result (λ refusal. Says refusal (λ fault. IsEarly fault
        → IsHopeless (oasis strict) xs (R.remaining reader.new))) }

    // The reader failed exactly once if `Read` is reported, and otherwise never.
    ensures reads { CountsFailure (R.read_errors reader.old) (R.read_errors reader.new) (is_read result) }
    ensures same { R.lent reader.new ≡ R.lent reader.old }
{
    read_oasis_with(alloc, reader, Profile::STANDARD)
}

/// The library that an OASIS file spells, and its head, with what is ignored and the limits that the
/// profile says. What is ignored must have the form of the standard.
///
/// Everything else is as in [`read_oasis`]. What that reads is read in the same way
/// under each wider profile.
pub fn read_oasis_with<R: Read>(
    alloc: Global,
    reader: &mut R,
    profile: Profile,
) -> Result<(Library, OasisHead), Cause<OasisFault>>
    // A library is returned only if the bytes spell it, and they spell no other.
    ensures spelled { (xs : List ℕ) → R.remaining reader.old ≡ Some xs
        → IfOk result (λ read. IsRead profile xs read.0 read.1) }

    // A refusal names what is wrong, and the bytes spell no library, unless an allocation or the reader
    // failed.
    ensures refused { (xs : List ℕ) → R.remaining reader.old ≡ Some xs
        → IfErr result (λ refusal. Says refusal (Reports profile xs)) }
    ensures none { (xs : List ℕ) → R.remaining reader.old ≡ Some xs
        → IfErr result (λ refusal. Says refusal (λ fault. (¬ IsExcused fault) → SpellsNone profile xs)) }

    // If the reader failed, it had given no whole record from the offset on.
    ensures unread { (xs : List ℕ) → R.remaining reader.old ≡ Some xs
        → IfErr result (λ refusal. Says refusal (ReportsUnread profile xs (R.remaining reader.new))) }

    // If a record is refused, and neither did the input end nor the reader fail, no file that
    // begins with the bytes taken spells a library.
    ensures early { (xs : List ℕ) → R.remaining reader.old ≡ Some xs
        → IfErr result (λ refusal. Says refusal (λ fault. IsEarly fault
        → IsHopeless (oasis profile) xs (R.remaining reader.new))) }

    // The reader failed exactly once if `Read` is reported, and otherwise never.
    ensures reads { CountsFailure (R.read_errors reader.old) (R.read_errors reader.new) (is_read result) }
    ensures same { R.lent reader.new ≡ R.lent reader.old }
{
    let mut input = Input::new(reader, profile);
    let read = read_library(alloc, &mut input);
    let _reader = input.into_reader();
    read
}

// Reads a whole file, and replaces numbers by names.
fn read_library<R: Read>(
    alloc: Global,
    input: &mut Input<R>,
) -> Result<(Library, OasisHead), Cause<OasisFault>>
    requires fresh { has_failed input.old ≡ false }
    requires start { input_offset input.old ≡ 0 }
    ensures spelled { (xs : List ℕ) → bytes_left R.remaining input.old ≡ Some xs
        → IfOk result (λ read. IsRead (input_profile input.old) xs read.0 read.1) }
    ensures refused { (xs : List ℕ) → bytes_left R.remaining input.old ≡ Some xs
        → IfErr result (λ refusal. Says refusal (Refuses (input_profile input.old) xs
        (R.remaining (input_reader input.new)))) }
    ensures reads { CountsFailure (R.read_errors (input_reader input.old))
        (R.read_errors (input_reader input.new)) (is_read result) }
    ensures same { R.lent (input_reader input.new) ≡ R.lent (input_reader input.old) }
{
    let profile = input.profile();
    let mut reading = Reading::new(alloc, profile.limits.file);
    read_records(alloc, input, &mut reading)?;
    read_nothing(input)?;
    match reading.finish(alloc) {
        Ok(read) => Ok(read),
        Err(Cause::Breach(number)) => Err(Cause::Breach(OasisFault::Unresolved(number))),
        Err(Cause::OutOfMemory) => Err(Cause::OutOfMemory),
    }
}

// Reads the magic string, and records and blocks up to END, when none was read before.
fn read_records<R: Read>(
    alloc: Global,
    input: &mut Input<R>,
    reading: &mut Reading,
) -> Result<(), Cause<OasisFault>>
    requires none { HasRead (input_profile input.old) reading.old [] }
    requires fresh { has_failed input.old ≡ false }
    requires start { input_offset input.old ≡ 0 }
    ensures refused { (xs : List ℕ) → bytes_left R.remaining input.old ≡ Some xs
        → IfErr result (λ refusal. Says refusal (Refuses (input_profile input.old) xs
        (R.remaining (input_reader input.new)))) }
    ensures whole { OnOk result ((xs : List ℕ) → bytes_left R.remaining input.old ≡ Some xs
        → ReadTo (oasis (input_profile input.old)) xs (input_offset input.new)
        (HasWhole (input_profile input.old) reading.new) (bytes_left R.remaining input.new)) }
    ensures fresh { OnOk result (has_failed input.new ≡ false) }
    ensures profile { OnOk result (input_profile input.new ≡ input_profile input.old) }
    ensures reads { CountsFailure (R.read_errors (input_reader input.old))
        (R.read_errors (input_reader input.new)) (is_read result) }
    ensures same { R.lent (input_reader input.new) ≡ R.lent (input_reader input.old) }
{
    let profile = input.profile();
    match read_first(input) {
        Ok(()) => {}
        Err(kind) => return Err(refuse(0, kind)),
    }
    let mut inside = Input::new(Unpacked::new(alloc), profile);
    let mut record = Record::Pad;
    for _ in 0..u64::MAX {
        let offset = input.offset();
        match read_next(input, alloc, reading.order(), &mut record) {
            Ok(()) => {}
            Err(refusal) => return Err(refused_at(offset, refusal)),
        }
        let is_end = is_end(&record);
        match take_next(alloc, reading, &mut inside, &mut record, profile) {
            Ok(()) => {}
            Err(refusal) => return Err(refused_at(offset, refusal)),
        }
        if is_end {
            return Ok(());
        }
    }
    Err(refuse(input.offset(), OasisKind::Value(ValueFault::TooLong)))
}

// Tests that the input has ended.
fn read_nothing<R: Read>(input: &mut Input<R>) -> Result<(), Cause<OasisFault>>
    requires { has_failed input.old ≡ false }
    ensures whole { OnOk result ((xs : List ℕ)
        (to : ReadTo (oasis (input_profile input.old)) xs (input_offset input.old) IsEnded
        (bytes_left R.remaining input.old))
        → SpellsWhole (oasis (input_profile input.old)) xs to.records) }
    ensures refused { IfErr result (λ refusal. Says refusal (λ fault. (xs : List ℕ)
        → ReadTo (oasis (input_profile input.old)) xs (input_offset input.old) IsEnded (bytes_left R.remaining input.old)
        → Refuses (input_profile input.old) xs (R.remaining (input_reader input.new)) fault)) }
    ensures reads { CountsFailure (R.read_errors (input_reader input.old))
        (R.read_errors (input_reader input.new)) (is_read result) }
    ensures same { R.lent (input_reader input.new) ≡ R.lent (input_reader input.old) }
{
    let offset = input.offset();
    match input.byte() {
        Ok(_) => Err(refuse(offset, OasisKind::AfterEnd)),
        Err(fault) => {
            if is_truncated(fault) {
                return Ok(());
            }
            Err(refuse(offset, OasisKind::Value(fault)))
        }
    }
}

fn is_truncated(fault: ValueFault) -> bool
    ensures { result ≡ is_truncated fault }
{
    match fault {
        ValueFault::Truncated => true,
        _ => false,
    }
}

fn is_end(taken: &Record) -> bool
    ensures { result ≡ is_end taken.now }
{
    match taken {
        Record::End(_) => true,
        _ => false,
    }
}

fn refuse(offset: u64, kind: OasisKind) -> Cause<OasisFault>
    ensures { result ≡ Cause.Breach (OasisFault.At offset kind) }
{
    Cause::Breach(OasisFault::At { offset, kind })
}

// A refusal, with an offset.
fn refused_at(offset: u64, refusal: Cause<OasisKind>) -> Cause<OasisFault>
    ensures { result ≡ refused_at offset refusal }
{
    match refusal {
        Cause::Breach(kind) => refuse(offset, kind),
        Cause::OutOfMemory => Cause::OutOfMemory,
    }
}
