//! Fields that are there if a letter of the info byte is set (SEMI P39, "Info-byte").
ghost use Rattle.std.specs.Prelude.{◌≡◌, ◌<◌, false, true};
ghost use Rattle.oasis_values.specs.Faults.{as_breach};
ghost use Rattle.oasis_values.specs.Input.{has_failed};
ghost use Rattle.oasis_values.specs.Numbers.{IsUnsigned};
ghost use Rattle.oasis_values.specs.Reads.{Reads};
ghost use Rattle.oasis_values.specs.Reals.{IsReal, IsSigned};
ghost use Rattle.oasis_values.specs.Repetitions.{IsRepetition};
ghost use Rattle.oasis_records.specs.Fields.{has, If};
ghost use Rattle.oasis_records.specs.Names.{IsStringRef};

use crate::names::skip_string_ref;
use lvl_io::Read;
use lvl_refusal::Cause;
use oasis_values::{Input, Real, Repetition, Text, ValueFault};
use std::alloc::Global;

/// Whether a letter of an info byte is set. The letter is given as the weight of its bit.
#[inline(always)]
pub(crate) fn has(info: u8, letter: u8) -> bool
    requires { 0 < letter }
    ensures { result ≡ has info letter }
{
    info / letter % 2 == 1
}

/// Reads an unsigned integer, if its letter is set.
#[inline(always)]
pub(crate) fn unsigned_if<R: Read>(
    input: &mut Input<R>,
    info: u8,
    letter: u8,
) -> Result<Option<u64>, ValueFault>
    requires live { has_failed input.old ≡ false }
    requires weight { 0 < letter }
    ensures reads { Reads R.remaining R.read_errors R.lent
        (If (has info letter) IsUnsigned) input.old input.new (as_breach result) }
{
    if has(info, letter) {
        let number = input.unsigned()?;
        return Ok(Some(number));
    }
    Ok(None)
}

/// Reads a signed integer, if its letter is set.
#[inline(always)]
pub(crate) fn signed_if<R: Read>(
    input: &mut Input<R>,
    info: u8,
    letter: u8,
) -> Result<Option<i64>, ValueFault>
    requires live { has_failed input.old ≡ false }
    requires weight { 0 < letter }
    ensures reads { Reads R.remaining R.read_errors R.lent
        (If (has info letter) IsSigned) input.old input.new (as_breach result) }
{
    if has(info, letter) {
        let number = input.signed()?;
        return Ok(Some(number));
    }
    Ok(None)
}

/// Reads a repetition, if its letter is set. Type 0 gives [`Repetition::Modal`], even if there is no modal
/// one.
pub(crate) fn repetition_if<R: Read>(
    input: &mut Input<R>,
    alloc: Global,
    info: u8,
    letter: u8,
) -> Result<Option<Repetition>, Cause<ValueFault>>
    requires live { has_failed input.old ≡ false }
    requires weight { 0 < letter }
    ensures reads { Reads R.remaining R.read_errors R.lent
        (If (has info letter) (IsRepetition true)) input.old input.new result }
{
    if has(info, letter) {
        let repetition = input.repetition(alloc, true)?;
        return Ok(Some(repetition));
    }
    Ok(None)
}

/// Reads a real, if its letter is set.
pub(crate) fn real_if<R: Read>(
    input: &mut Input<R>,
    info: u8,
    letter: u8,
) -> Result<Option<Real>, ValueFault>
    requires live { has_failed input.old ≡ false }
    requires weight { 0 < letter }
    ensures reads { Reads R.remaining R.read_errors R.lent
        (If (has info letter) IsReal) input.old input.new (as_breach result) }
{
    if has(info, letter) {
        let number = input.real()?;
        return Ok(Some(number));
    }
    Ok(None)
}

/// Reads a string and keeps nothing of it, if its letter is set. The letter `number` means that it is given
/// by the number of its record.
pub(crate) fn skip_string_if<R: Read>(
    input: &mut Input<R>,
    kind: Text,
    info: u8,
    letter: u8,
    number: u8,
) -> Result<Option<()>, ValueFault>
    requires live { has_failed input.old ≡ false }
    requires weight { 0 < letter }
    requires number_weight { 0 < number }
    ensures reads { Reads R.remaining R.read_errors R.lent
        (If (has info letter) (IsStringRef kind (has info number))) input.old input.new (as_breach result) }
{
    if has(info, letter) {
        let by_number = has(info, number);
        skip_string_ref(input, kind, by_number)?;
        return Ok(Some(()));
    }
    Ok(None)
}
