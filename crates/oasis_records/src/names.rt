//! Records that give names and strings by number, except CELLNAME. Nothing of them is kept.
ghost use Rattle.std.specs.Prelude.{◌≡◌, nat_lt, false};
ghost use Rattle.oasis_values.specs.Faults.{as_breach};
ghost use Rattle.oasis_values.specs.Input.{has_failed};
ghost use Rattle.oasis_values.specs.Reads.{Reads};
ghost use Rattle.oasis_records.specs.Names.{bounds, AreBounds, IsEntry, IsEntryOf, IsInterval, IsIntervalType};
ghost use Rattle.oasis_records.specs.Names.{IsLayerName, IsNumberedString, IsNumberedXName, IsStringRef, IsXName};
ghost use Rattle.oasis_records.specs.Rules.{reported_breach};

use crate::fault::{RecordFault, RecordRule};
use crate::record::Record;
use crate::rules::{must, no_rule};
use lvl_io::Read;
use oasis_values::{Input, Text, ValueFault};

/// The types of records that give names and strings by number, except CELLNAME.
#[derive(Clone, Copy, Debug, Drop, PartialEq, Eq)]
pub enum EntryType {
    /// A TEXTSTRING, a PROPNAME or a PROPSTRING with a string of this kind, which has the next number.
    String(Text),
    /// A name or a string of this kind, which has a number of its own.
    NumberedString(Text),
    /// A LAYERNAME of layers and datatypes, or of text layers and text types.
    LayerName,
    /// An XNAME, which has the next number.
    XName,
    /// An XNAME with a number of its own.
    NumberedXName,
}

// Reads a string and its number.
fn skip_numbered_string<R: Read>(input: &mut Input<R>, kind: Text) -> Result<(), ValueFault>
    ensures reads { Reads R.remaining R.read_errors R.lent
        (IsNumberedString kind) input.old input.new (as_breach result) }
{
    input.skip_string(kind)?;
    let _number = input.unsigned()?;
    Ok(())
}

// Reads an attribute and a string.
fn skip_x_name<R: Read>(input: &mut Input<R>) -> Result<(), ValueFault>
    ensures reads { Reads R.remaining R.read_errors R.lent IsXName input.old input.new (as_breach result) }
{
    let _attribute = input.unsigned()?;
    input.skip_string(Text::B)
}

// Reads an attribute, a string and a number.
fn skip_numbered_x_name<R: Read>(input: &mut Input<R>) -> Result<(), ValueFault>
    ensures reads { Reads R.remaining R.read_errors R.lent IsNumberedXName input.old input.new (as_breach result) }
{
    let _attribute = input.unsigned()?;
    skip_numbered_string(input, Text::B)
}

// How many bounds an interval has, by its type.
fn bounds(kind: u64) -> u64
    ensures { result ≡ bounds kind }
{
    match kind {
        0 => 0,
        1 | 2 | 3 => 1,
        _ => 2,
    }
}

fn is_interval_type(kind: u64) -> bool
    ensures { result ≡ nat_lt kind 5 }
{
    kind < 5
}

// Reads the type of an interval, which must be below 5.
fn read_interval_type<R: Read>(input: &mut Input<R>) -> Result<u64, RecordFault>
    ensures reads { Reads R.remaining R.read_errors R.lent IsIntervalType input.old input.new (reported_breach result) }
{
    let kind = input.unsigned()?;
    must(is_interval_type(kind), kind, RecordRule::Info)
}

// Reads `count` integers and keeps none.
fn skip_bounds<R: Read>(input: &mut Input<R>, count: u64) -> Result<(), ValueFault>
    requires { has_failed input.old ≡ false }
    ensures reads { Reads R.remaining R.read_errors R.lent (AreBounds count) input.old input.new (as_breach result) }
{
    for n in 0..count {
        let _bound = input.unsigned()?;
    }
    Ok(())
}

// Reads an interval of layers, datatypes, text layers or text types.
fn skip_interval<R: Read>(input: &mut Input<R>) -> Result<(), RecordFault>
    ensures reads { Reads R.remaining R.read_errors R.lent IsInterval input.old input.new (reported_breach result) }
{
    let kind = read_interval_type(input)?;
    skip_bounds(input, bounds(kind))?;
    Ok(())
}

// Reads a name and two intervals.
fn skip_layer_name<R: Read>(input: &mut Input<R>) -> Result<(), RecordFault>
    ensures reads { Reads R.remaining R.read_errors R.lent IsLayerName input.old input.new (reported_breach result) }
{
    input.skip_string(Text::N)?;
    skip_interval(input)?;
    skip_interval(input)
}

// Reads the fields of a record of that type.
fn skip_entry<R: Read>(input: &mut Input<R>, kind: EntryType) -> Result<(), RecordFault>
    ensures reads { Reads R.remaining R.read_errors R.lent
        (IsEntryOf kind) input.old input.new (reported_breach result) }
{
    match kind {
        EntryType::String(kind) => no_rule(input.skip_string(kind)),
        EntryType::NumberedString(kind) => no_rule(skip_numbered_string(input, kind)),
        EntryType::LayerName => skip_layer_name(input),
        EntryType::XName => no_rule(skip_x_name(input)),
        EntryType::NumberedXName => no_rule(skip_numbered_x_name(input)),
    }
}

/// Reads a record of that type after its id.
pub(crate) fn read_entry<R: Read>(
    input: &mut Input<R>,
    kind: EntryType,
) -> Result<Record, RecordFault>
    ensures reads { Reads R.remaining R.read_errors R.lent (IsEntry kind) input.old input.new (reported_breach result) }
{
    skip_entry(input, kind)?;
    Ok(Record::Entry)
}

/// Reads a string by the number of its record, or the string itself.
pub(crate) fn skip_string_ref<R: Read>(
    input: &mut Input<R>,
    kind: Text,
    by_number: bool,
) -> Result<(), ValueFault>
    ensures reads { Reads R.remaining R.read_errors R.lent
        (IsStringRef kind by_number) input.old input.new (as_breach result) }
{
    if by_number {
        let _number = input.unsigned()?;
        return Ok(());
    }
    input.skip_string(kind)
}
