//! PROPERTY records. Nothing of them is kept.
ghost use Rattle.std.specs.Prelude.{◌≡◌, ◌==◌, ◌||◌, ◌/◌, not, false};
ghost use Rattle.oasis_values.specs.Faults.{as_breach};
ghost use Rattle.oasis_values.specs.Input.{has_failed};
ghost use Rattle.oasis_values.specs.Reads.{Reads};
ghost use Rattle.oasis_records.specs.Fields.{has};
ghost use Rattle.oasis_records.specs.Properties.{is_property_info, AreValues, IsCount, IsProperty, IsPropertyInfo};
ghost use Rattle.oasis_records.specs.Properties.{IsPropertyOf};
ghost use Rattle.oasis_records.specs.Rules.{reported_breach};

use crate::fault::{RecordFault, RecordRule};
use crate::fields::{has, skip_string_if};
use crate::record::Record;
use crate::rules::{must, no_rule};
use lvl_io::Read;
use oasis_values::{Input, Text, ValueFault};

const LAST_VALUES: u8 = 0x08;

const NAME: u8 = 0x04;

const NUMBER: u8 = 0x02;

/// The value of the four highest bits that means that an integer has the number of values.
const COUNTED: u8 = 15;

// Whether the info byte is allowed: if V is set, the record has no values of its own.
fn is_info(info: u8) -> bool
    ensures { result ≡ is_property_info info }
{
    !has(info, LAST_VALUES) || info / 16 == 0
}

// Reads the info byte UUUUVCNS.
fn read_property_info<R: Read>(input: &mut Input<R>) -> Result<u8, RecordFault>
    ensures reads { Reads R.remaining R.read_errors R.lent IsPropertyInfo input.old input.new (reported_breach result) }
{
    let info = input.byte()?;
    must(is_info(info), info, RecordRule::Info)
}

// Reads how many values follow.
fn read_count<R: Read>(input: &mut Input<R>, info: u8) -> Result<u64, ValueFault>
    requires { has_failed input.old ≡ false }
    ensures reads { Reads R.remaining R.read_errors R.lent (IsCount info) input.old input.new (as_breach result) }
{
    let count = info / 16;
    if count == COUNTED {
        return input.unsigned();
    }
    Ok(u64::from(count))
}

// Reads `count` values and keeps none.
fn skip_values<R: Read>(input: &mut Input<R>, count: u64) -> Result<(), ValueFault>
    requires { has_failed input.old ≡ false }
    ensures reads { Reads R.remaining R.read_errors R.lent (AreValues count) input.old input.new (as_breach result) }
{
    for n in 0..count {
        input.skip_value()?;
    }
    Ok(())
}

// Reads the fields after the info byte.
fn property_of<R: Read>(input: &mut Input<R>, info: u8) -> Result<Record, ValueFault>
    requires { has_failed input.old ≡ false }
    ensures reads { Reads R.remaining R.read_errors R.lent (IsPropertyOf info) input.old input.new (as_breach result) }
{
    let _name = skip_string_if(input, Text::N, info, NAME, NUMBER)?;
    let count = read_count(input, info)?;
    skip_values(input, count)?;
    Ok(Record::Property)
}

/// Reads a PROPERTY record after its id.
pub(crate) fn read_property<R: Read>(input: &mut Input<R>) -> Result<Record, RecordFault>
    ensures reads { Reads R.remaining R.read_errors R.lent IsProperty input.old input.new (reported_breach result) }
{
    let info = read_property_info(input)?;
    no_rule(property_of(input, info))
}
