//! Records.
ghost use Rattle.std.specs.Prelude.{◌≡◌, ◌≢◌, false};
ghost use Rattle.oasis_values.specs.Input.{has_failed};
ghost use Rattle.oasis_values.specs.Reads.{Reads};
ghost use Rattle.oasis_records.specs.Records.{AreFields};
ghost use Rattle.oasis_records.specs.Rules.{reported, written, Denies};

use crate::block::read_block;
use crate::cell::{CellName, CellRef, read_cell, read_cell_name, read_numbered_name};
use crate::end::{Validation, read_end};
use crate::fault::RecordFault;
use crate::label::read_label;
use crate::names::read_entry;
use crate::path::{Path, read_path};
use crate::placement::{Placement, read_scaled, read_turned};
use crate::polygon::{Polygon, read_polygon};
use crate::property::read_property;
use crate::record_type::RecordType;
use crate::rectangle::{Rectangle, read_rectangle};
use crate::rules::of_values;
use crate::start::{Start, read_start};
use lvl_io::Read;
use lvl_refusal::Cause;
use oasis_blocks::Block;
use oasis_values::{Input, Repetition};
use std::alloc::Global;

/// A record as it is in the file. A field that isn't there is `None`.
#[derive(Debug, Drop)]
pub enum Record {
    Pad,
    Start(Start),
    End(Validation),
    CellName(CellName),
    Cell(CellRef),
    /// A record that gives a name or a string by number, except CELLNAME. Nothing of it is kept.
    Entry,
    /// A TEXT. Only its repetition is kept, since later records may use it again.
    Text(Option<Repetition>),
    /// A PROPERTY. Nothing of it is kept.
    Property,
    XyAbsolute,
    XyRelative,
    Placement(Placement),
    Rectangle(Rectangle),
    Polygon(Polygon),
    Path(Path),
    /// A CBLOCK, as it is packed.
    Block(Block),
}

/// Reads the fields of a record of that type, after its id, which has `id_len` bytes, and writes the record to
/// `record`. The offsets of tables are in END if `has_offsets_at_end` is set, as START says.
///
/// Each field is tested when it is read. The id must have been read before, so the input hasn't failed.
pub fn read_fields<R: Read>(
    input: &mut Input<R>,
    alloc: Global,
    kind: RecordType,
    id_len: u64,
    has_offsets_at_end: bool,
    record: &mut Record,
) -> Result<(), Cause<RecordFault>>
    requires { has_failed input.old ≡ false }
    ensures reads { Reads R.remaining R.read_errors R.lent
        (AreFields has_offsets_at_end id_len kind) input.old input.new (reported (written result record.new)) }
    ensures none { Denies R.remaining (AreFields has_offsets_at_end id_len kind) input.old
        (reported (written result record.new)) }
{
    fields_of(input, alloc, kind, id_len, has_offsets_at_end, record)
}

// Reads the fields of a record of that type. A rectangle is read in place, the others are copied once.
#[inline(always)]
fn fields_of<R: Read>(
    input: &mut Input<R>,
    alloc: Global,
    kind: RecordType,
    id_len: u64,
    has_offsets_at_end: bool,
    record: &mut Record,
) -> Result<(), Cause<RecordFault>>
    requires { has_failed input.old ≡ false }
    ensures reads { Reads R.remaining R.read_errors R.lent
        (AreFields has_offsets_at_end id_len kind) input.old input.new (reported (written result record.new)) }
{
    match kind {
        RecordType::Rectangle => read_rectangle(input, alloc, record),
        _ => copy_fields(input, alloc, kind, id_len, has_offsets_at_end, record),
    }
}

// Reads the fields of a record of that type, which isn't a rectangle, and copies the record.
#[inline(never)]
fn copy_fields<R: Read>(
    input: &mut Input<R>,
    alloc: Global,
    kind: RecordType,
    id_len: u64,
    has_offsets_at_end: bool,
    record: &mut Record,
) -> Result<(), Cause<RecordFault>>
    requires live { has_failed input.old ≡ false }
    requires other { kind ≢ RecordType.Rectangle }
    ensures reads { Reads R.remaining R.read_errors R.lent
        (AreFields has_offsets_at_end id_len kind) input.old input.new (reported (written result record.new)) }
{
    *record = other_fields(input, alloc, kind, id_len, has_offsets_at_end)?;
    Ok(())
}

// Reads the fields of a record of that type, which isn't a rectangle.
fn other_fields<R: Read>(
    input: &mut Input<R>,
    alloc: Global,
    kind: RecordType,
    id_len: u64,
    has_offsets_at_end: bool,
) -> Result<Record, Cause<RecordFault>>
    requires live { has_failed input.old ≡ false }
    requires other { kind ≢ RecordType.Rectangle }
    ensures reads { Reads R.remaining R.read_errors R.lent
        (AreFields has_offsets_at_end id_len kind) input.old input.new (reported result) }
{
    match kind {
        RecordType::Pad => Ok(Record::Pad),
        RecordType::Start => read_start(input, alloc),
        RecordType::End => {
            let end = read_end(input, has_offsets_at_end, id_len)?;
            Ok(end)
        }
        RecordType::CellName => of_values(read_cell_name(input, alloc)),
        RecordType::NumberedCellName => of_values(read_numbered_name(input, alloc)),
        RecordType::NumberedCell => of_values(read_cell(input, alloc, true)),
        RecordType::NamedCell => of_values(read_cell(input, alloc, false)),
        RecordType::Entry(kind) => {
            let entry = read_entry(input, kind)?;
            Ok(entry)
        }
        RecordType::Text => read_label(input, alloc),
        RecordType::Property => {
            let property = read_property(input)?;
            Ok(property)
        }
        RecordType::LastProperty => Ok(Record::Property),
        RecordType::XyAbsolute => Ok(Record::XyAbsolute),
        RecordType::XyRelative => Ok(Record::XyRelative),
        RecordType::Placement => of_values(read_turned(input, alloc)),
        RecordType::ScaledPlacement => of_values(read_scaled(input, alloc)),
        RecordType::Rectangle => unreachable!(),
        RecordType::Polygon => read_polygon(input, alloc),
        RecordType::Path => read_path(input, alloc),
        RecordType::Block => read_block(input, alloc),
    }
}
