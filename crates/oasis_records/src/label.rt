//! TEXT records. Only the repetition is kept, since later records may use it again.
ghost use Rattle.std.specs.Prelude.{◌≡◌, false};
ghost use Rattle.oasis_values.specs.Faults.{as_breach};
ghost use Rattle.oasis_values.specs.Input.{has_failed};
ghost use Rattle.oasis_values.specs.Reads.{Reads};
ghost use Rattle.oasis_values.specs.declared.text.Text.TheVariants.{A};
ghost use Rattle.oasis_records.specs.Fields.{has, If};
ghost use Rattle.oasis_records.specs.Labels.{IsLabel, IsLabelOf};
ghost use Rattle.oasis_records.specs.Names.{IsStringRef};
ghost use Rattle.oasis_records.specs.Rules.{reported};

use crate::fault::RecordFault;
use crate::fields::skip_string_if;
use crate::figure::{read_on_layer, read_position};
use crate::info::read_info;
use crate::record::Record;
use crate::rules::of_values;
use lvl_io::Read;
use lvl_refusal::Cause;
use oasis_values::{Input, Text, ValueFault};
use std::alloc::Global;

/// The info byte is below this: its highest bit is reserved.
const INFO_LIMIT: u8 = 0x80;

const STRING: u8 = 0x40;

const NUMBER: u8 = 0x20;

// Reads the fields after the info byte 0CNXYRTL.
fn label_of<R: Read>(
    input: &mut Input<R>,
    alloc: Global,
    info: u8,
) -> Result<Record, Cause<ValueFault>>
    requires { has_failed input.old ≡ false }
    ensures reads { Reads R.remaining R.read_errors R.lent (IsLabelOf info) input.old input.new result }
{
    let _string = skip_string_if(input, Text::A, info, STRING, NUMBER)?;
    let _on = read_on_layer(input, info)?;
    let position = read_position(input, alloc, info)?;
    Ok(Record::Text(position.repetition))
}

/// Reads a TEXT record after its id.
pub(crate) fn read_label<R: Read>(
    input: &mut Input<R>,
    alloc: Global,
) -> Result<Record, Cause<RecordFault>>
    ensures reads { Reads R.remaining R.read_errors R.lent IsLabel input.old input.new (reported result) }
{
    let info = read_info(input, INFO_LIMIT)?;
    of_values(label_of(input, alloc, info))
}
