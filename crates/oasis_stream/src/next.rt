//! Reads the magic string and the next record of a file, or of a block.
ghost use Rattle.std.specs.Prelude.{◌≡◌, List, [], Ok, false, true};
ghost use Rattle.oasis_values.specs.Input.{has_failed};
ghost use Rattle.oasis_values.specs.Reads.{Reads};
ghost use Rattle.oasis_records.specs.Rules.{written};
ghost use Rattle.oasis_records.specs.declared.record.Record.{Record as Item};
ghost use Rattle.oasis_stream.specs.Next.{IsTyped, IsNext, IsItem};
ghost use Rattle.oasis_stream.specs.Reported.{reported_record, of_fault, reported_magic, of_magic_fault};
ghost use Rattle.oasis_stream.specs.inside.Reached.{HasReached};

use crate::fault::OasisKind;
use crate::order::Order;
use lvl_io::Read;
use lvl_refusal::Cause;
use oasis_records::{Record, RecordFault, RecordType, read_fields, read_id, read_magic};
use oasis_values::Input;
use std::alloc::Global;

// That a record was read, or a fault as one of the file.
fn of_record(answer: Result<(), Cause<RecordFault>>) -> Result<(), Cause<OasisKind>>
    ensures { result ≡ of_fault answer }
{
    match answer {
        Ok(()) => Ok(()),
        Err(Cause::Breach(RecordFault::Value(fault))) => {
            Err(Cause::Breach(OasisKind::Value(fault)))
        }
        Err(Cause::Breach(RecordFault::Rule(rule))) => {
            Err(Cause::Breach(OasisKind::Record(rule)))
        }
        Err(Cause::OutOfMemory) => Err(Cause::OutOfMemory),
    }
}

// Reads a record of that type, after its id.
fn read_typed<R: Read>(
    input: &mut Input<R>,
    alloc: Global,
    kind: RecordType,
    id_len: u64,
    has_offsets_at_end: bool,
    record: &mut Record,
) -> Result<(), Cause<OasisKind>>
    requires { has_failed input.old ≡ false }
    ensures reads { Reads R.remaining R.read_errors R.lent (IsTyped has_offsets_at_end id_len (Ok kind)) input.old
        input.new (reported_record (written result record.new)) }
{
    of_record(read_fields(input, alloc, kind, id_len, has_offsets_at_end, record))
}

// Reads the next record, inside a block or not.
fn read_in<R: Read>(
    input: &mut Input<R>,
    alloc: Global,
    order: &Order,
    inside: bool,
    record: &mut Record,
) -> Result<(), Cause<OasisKind>>
    ensures reads { (rs : List Item) → HasReached order.now rs
        → Reads R.remaining R.read_errors R.lent (IsNext inside rs) input.old input.new
        (reported_record (written result record.new)) }
{
    let id = match read_id(input) {
        Ok(id) => id,
        Err(fault) => return Err(Cause::Breach(OasisKind::Value(fault))),
    };
    let profile = input.profile();
    match order.type_of(id.value, profile, inside) {
        Ok(kind) => read_typed(
            input,
            alloc,
            kind,
            id.len,
            order.has_offsets_at_end(),
            record,
        ),
        Err(kind) => Err(Cause::Breach(kind)),
    }
}

/// Reads the next record, and writes it to `record`. Its id is tested before more is read, and each field when it
/// is read. A block is read as it is packed.
pub fn read_next<R: Read>(
    input: &mut Input<R>,
    alloc: Global,
    order: &Order,
    record: &mut Record,
) -> Result<(), Cause<OasisKind>>
    ensures reads { (rs : List Item) → HasReached order.now rs
        → Reads R.remaining R.read_errors R.lent (IsNext false rs) input.old input.new
        (reported_record (written result record.new)) }
{
    read_in(input, alloc, order, false, record)
}

/// Reads the next record inside a block. It is neither START nor END nor another block; all else is as in
/// [`read_next`].
pub fn read_inside<R: Read>(
    input: &mut Input<R>,
    alloc: Global,
    order: &Order,
    record: &mut Record,
) -> Result<(), Cause<OasisKind>>
    ensures reads { (rs : List Item) → HasReached order.now rs
        → Reads R.remaining R.read_errors R.lent (IsNext true rs) input.old input.new
        (reported_record (written result record.new)) }
{
    read_in(input, alloc, order, true, record)
}

// A magic string that was read, or a fault as one of the file.
fn of_magic(answer: Result<(), RecordFault>) -> Result<(), OasisKind>
    ensures { result ≡ of_magic_fault answer }
{
    match answer {
        Ok(()) => Ok(()),
        Err(RecordFault::Value(fault)) => Err(OasisKind::Value(fault)),
        Err(RecordFault::Rule(rule)) => Err(OasisKind::Record(rule)),
    }
}

/// Reads the magic string at the beginning of a file.
pub fn read_first<R: Read>(input: &mut Input<R>) -> Result<(), OasisKind>
    ensures reads { Reads R.remaining R.read_errors R.lent (IsItem []) input.old input.new (reported_magic result) }
{
    of_magic(read_magic(input))
}
