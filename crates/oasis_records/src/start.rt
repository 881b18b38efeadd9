//! START records.
ghost use Rattle.std.specs.Prelude.{◌≡◌, nat_lt, false};
ghost use Rattle.oasis_values.specs.Faults.{as_breach};
ghost use Rattle.oasis_values.specs.Input.{has_failed};
ghost use Rattle.oasis_values.specs.Reads.{Reads};
ghost use Rattle.oasis_records.specs.Rules.{reported, reported_breach};
ghost use Rattle.oasis_records.specs.Starts.{is_version, is_unit, is_here, AreOffsets, AreTables, IsVersion};
ghost use Rattle.oasis_records.specs.Starts.{IsVersionText, IsUnit, IsFlag, IsStartOf, IsStart};

use crate::fault::{RecordFault, RecordRule};
use crate::record::Record;
use crate::rules::{must, of_values};
use crate::text::{Name, read_text};
use lvl_io::Read;
use lvl_refusal::Cause;
use oasis_values::{Input, Real, Text, ValueFault};
use std::alloc::Global;

/// The number of integers in the offsets of tables: two for each of six tables.
const OFFSETS: u64 = 12;

/// A START record. Its version is `1.0`.
#[derive(Clone, Copy, Debug, Drop, PartialEq, Eq)]
pub struct Start {
    /// The number of grid steps in a micrometre.
    pub unit: Real,
    /// Whether the offsets of tables are in END.
    pub has_offsets_at_end: bool,
}

fn is_version(text: &Name) -> bool
    ensures { result ≡ is_version text.now }
{
    text.as_bytes() == b"1.0".as_slice()
}

// Whether the unit's type isn't that of a negative whole number, reciprocal or ratio.
fn is_unit(unit: Real) -> bool
    ensures { result ≡ is_unit unit }
{
    match unit {
        Real::NegWhole(_) | Real::NegReciprocal(_) | Real::NegRatio(_, _) => false,
        _ => true,
    }
}

fn is_flag(flag: u64) -> bool
    ensures { result ≡ nat_lt flag 2 }
{
    flag < 2
}

// Whether the offsets of tables are in START.
fn is_here(flag: u64) -> bool
    ensures { result ≡ is_here flag }
{
    flag != 1
}

// Reads a string that may be a version.
fn read_version_text<R: Read>(
    input: &mut Input<R>,
    alloc: Global,
) -> Result<Name, Cause<RecordFault>>
    ensures reads { Reads R.remaining R.read_errors R.lent IsVersionText input.old input.new (reported result) }
{
    of_values(read_text(input, alloc, Text::A))
}

// Reads the version, which must be `1.0`.
fn read_version<R: Read>(input: &mut Input<R>, alloc: Global) -> Result<Name, Cause<RecordFault>>
    ensures reads { Reads R.remaining R.read_errors R.lent IsVersion input.old input.new (reported result) }
{
    let text = read_version_text(input, alloc)?;
    let is_known = is_version(&text);
    let version = must(is_known, text, RecordRule::Version)?;
    Ok(version)
}

// Reads the unit.
fn read_unit<R: Read>(input: &mut Input<R>) -> Result<Real, RecordFault>
    ensures reads { Reads R.remaining R.read_errors R.lent IsUnit input.old input.new (reported_breach result) }
{
    let unit = input.real()?;
    must(is_unit(unit), unit, RecordRule::Unit)
}

// Reads the offset flag, which must be 0 or 1.
fn read_flag<R: Read>(input: &mut Input<R>) -> Result<u64, RecordFault>
    ensures reads { Reads R.remaining R.read_errors R.lent IsFlag input.old input.new (reported_breach result) }
{
    let flag = input.unsigned()?;
    must(is_flag(flag), flag, RecordRule::Info)
}

// Reads the offsets of tables. They may have any value.
fn skip_offsets<R: Read>(input: &mut Input<R>) -> Result<bool, ValueFault>
    requires { has_failed input.old ≡ false }
    ensures reads { Reads R.remaining R.read_errors R.lent AreOffsets input.old input.new (as_breach result) }
{
    for n in 0..OFFSETS {
        let _offset = input.unsigned()?;
    }
    Ok(true)
}

/// Reads the offsets of tables, if they are there.
pub(crate) fn read_offsets<R: Read>(
    input: &mut Input<R>,
    are_there: bool,
) -> Result<bool, ValueFault>
    requires { has_failed input.old ≡ false }
    ensures reads { Reads R.remaining R.read_errors R.lent
        (AreTables are_there) input.old input.new (as_breach result) }
{
    if are_there {
        return skip_offsets(input);
    }
    Ok(false)
}

// Reads the fields after the version.
fn start_of<R: Read>(input: &mut Input<R>) -> Result<Record, RecordFault>
    ensures reads { Reads R.remaining R.read_errors R.lent IsStartOf input.old input.new (reported_breach result) }
{
    let unit = read_unit(input)?;
    let flag = read_flag(input)?;
    let here = is_here(flag);
    let are_here = read_offsets(input, here)?;
    Ok(Record::Start(Start {
        unit,
        has_offsets_at_end: !are_here,
    }))
}

/// Reads a START record after its id.
pub(crate) fn read_start<R: Read>(
    input: &mut Input<R>,
    alloc: Global,
) -> Result<Record, Cause<RecordFault>>
    ensures reads { Reads R.remaining R.read_errors R.lent IsStart input.old input.new (reported result) }
{
    let version = read_version(input, alloc)?;
    drop(version);
    let start = start_of(input)?;
    Ok(start)
}
