//! END records.
ghost use Rattle.std.specs.Prelude.{◌≡◌, nat_lt, ◌==◌, false};
ghost use Rattle.oasis_values.specs.Faults.{as_breach};
ghost use Rattle.oasis_values.specs.Input.{has_failed};
ghost use Rattle.oasis_values.specs.Reads.{Reads};
ghost use Rattle.oasis_records.specs.Ends.{fits, is_whole, validation_len, signed, IsPaddingLength, ArePadding};
ghost use Rattle.oasis_records.specs.Ends.{AreFour};
ghost use Rattle.oasis_records.specs.Ends.{IsScheme, IsSignature, IsEnding, IsEndOf, IsEnd};
ghost use Rattle.oasis_records.specs.Rules.{reported_breach};
ghost use Rattle.oasis_records.specs.Sizes.{Sized};

use crate::fault::{RecordFault, RecordRule};
use crate::measured::Measured;
use crate::record::Record;
use crate::rules::must;
use crate::start::read_offsets;
use lvl_io::Read;
use oasis_values::{Input, ValueFault};

/// The length of an END record in bytes, with its id.
const LEN: u64 = 256;

/// The validation of a file, with the bytes of its signature in the order of the file. Signatures aren't
/// checked.
#[derive(Clone, Copy, Debug, Drop, PartialEq, Eq)]
pub enum Validation {
    /// Scheme 0.
    Absent,
    /// Scheme 1.
    Crc32([u8; 4]),
    /// Scheme 2.
    Checksum32([u8; 4]),
}

// The length of a signature in bytes.
fn validation_len(validation: Validation) -> u64
    ensures { result ≡ validation_len validation }
{
    match validation {
        Validation::Absent => 0,
        Validation::Crc32(_) | Validation::Checksum32(_) => 4,
    }
}

// Whether the padding and the scheme byte are within the record.
fn fits(id_len: u64, padding: Measured) -> bool
    ensures { result ≡ fits id_len padding }
{
    if id_len > LEN || padding.len > LEN || padding.value > LEN {
        return false;
    }
    id_len + padding.len + padding.value + 1 <= LEN
}

// Whether the record has 256 bytes.
fn is_whole(id_len: u64, padding: Measured, validation: Validation) -> bool
    ensures { result ≡ is_whole id_len padding validation }
{
    if id_len > LEN || padding.len > LEN || padding.value > LEN {
        return false;
    }
    id_len + padding.len + padding.value + 1 + validation_len(validation) == LEN
}

fn is_scheme(byte: u8) -> bool
    ensures { result ≡ nat_lt byte 3 }
{
    byte < 3
}

// Reads the offsets of tables, if they are here, and the length of the padding.
fn read_padding_length<R: Read>(input: &mut Input<R>, has_offsets: bool) -> Result<u64, ValueFault>
    requires { has_failed input.old ≡ false }
    ensures reads { Reads R.remaining R.read_errors R.lent
        (IsPaddingLength has_offsets) input.old input.new (as_breach result) }
{
    let _offsets = read_offsets(input, has_offsets)?;
    input.unsigned()
}

// Reads the offsets of tables, if they are here, and the length of the padding, and counts their bytes.
fn read_padding<R: Read>(input: &mut Input<R>, has_offsets: bool) -> Result<Measured, ValueFault>
    requires { has_failed input.old ≡ false }
    ensures reads { Reads R.remaining R.read_errors R.lent
        (Sized (IsPaddingLength has_offsets)) input.old input.new (as_breach result) }
{
    let start = input.offset();
    let value = read_padding_length(input, has_offsets)?;
    Ok(Measured {
        value,
        len: input.offset() - start,
    })
}

// Reads `count` bytes and keeps none.
fn skip_padding<R: Read>(input: &mut Input<R>, count: u64) -> Result<u64, ValueFault>
    requires { has_failed input.old ≡ false }
    ensures reads { Reads R.remaining R.read_errors R.lent
        (ArePadding count) input.old input.new (as_breach result) }
{
    for n in 0..count {
        let _byte = input.byte()?;
    }
    Ok(count)
}

// Reads the validation scheme, which is 0, 1 or 2.
fn read_scheme<R: Read>(input: &mut Input<R>) -> Result<u8, RecordFault>
    ensures reads { Reads R.remaining R.read_errors R.lent IsScheme input.old input.new (reported_breach result) }
{
    let scheme = input.byte()?;
    must(is_scheme(scheme), scheme, RecordRule::Scheme)
}

// The four bytes of a signature.
fn read_four<R: Read>(input: &mut Input<R>) -> Result<[u8; 4], ValueFault>
    ensures reads { Reads R.remaining R.read_errors R.lent AreFour input.old input.new (as_breach result) }
{
    let first = input.byte()?;
    let second = input.byte()?;
    let third = input.byte()?;
    let fourth = input.byte()?;
    Ok([first, second, third, fourth])
}

// The validation with a signature.
fn signed(is_crc: bool, bytes: [u8; 4]) -> Validation
    ensures { result ≡ signed is_crc bytes }
{
    if is_crc {
        Validation::Crc32(bytes)
    } else {
        Validation::Checksum32(bytes)
    }
}

// Reads the signature, if the scheme has one.
fn read_signature<R: Read>(
    input: &mut Input<R>,
    is_absent: bool,
    scheme: u8,
) -> Result<Validation, ValueFault>
    requires { has_failed input.old ≡ false }
    ensures reads { Reads R.remaining R.read_errors R.lent
        (IsSignature is_absent scheme) input.old input.new (as_breach result) }
{
    if is_absent {
        return Ok(Validation::Absent);
    }
    let bytes = read_four(input)?;
    Ok(signed(is_crc(scheme), bytes))
}

fn is_crc(scheme: u8) -> bool
    ensures { result ≡ (scheme == 1) }
{
    scheme == 1
}

fn is_absent(scheme: u8) -> bool
    ensures { result ≡ (scheme == 0) }
{
    scheme == 0
}

// Reads what comes after the length of the padding.
fn read_ending<R: Read>(input: &mut Input<R>, padding: u64) -> Result<Validation, RecordFault>
    requires { has_failed input.old ≡ false }
    ensures reads { Reads R.remaining R.read_errors R.lent
        (IsEnding padding) input.old input.new (reported_breach result) }
{
    let _padding = skip_padding(input, padding)?;
    let scheme = read_scheme(input)?;
    let none = is_absent(scheme);
    let validation = read_signature(input, none, scheme)?;
    Ok(validation)
}

// Reads what comes after the length of the padding, and tests that the record has 256 bytes.
fn end_of<R: Read>(
    input: &mut Input<R>,
    id_len: u64,
    padding: Measured,
) -> Result<Record, RecordFault>
    requires { has_failed input.old ≡ false }
    ensures reads { Reads R.remaining R.read_errors R.lent
        (IsEndOf id_len padding) input.old input.new (reported_breach result) }
{
    let validation = read_ending(input, padding.value)?;
    let whole = is_whole(id_len, padding, validation);
    must(whole, Record::End(validation), RecordRule::EndLength)
}

/// Reads an END record after its id, which has `id_len` bytes. Its length is tested before the padding is
/// read, and at its end.
pub(crate) fn read_end<R: Read>(
    input: &mut Input<R>,
    has_offsets: bool,
    id_len: u64,
) -> Result<Record, RecordFault>
    requires { has_failed input.old ≡ false }
    ensures reads { Reads R.remaining R.read_errors R.lent
        (IsEnd has_offsets id_len) input.old input.new (reported_breach result) }
{
    let padding = read_padding(input, has_offsets)?;
    let within = must(fits(id_len, padding), padding, RecordRule::EndLength)?;
    end_of(input, id_len, within)
}
