//! Finds a byte and an unsigned integer at the front of an input. These are the only values that
//! are read from the bytes directly.
ghost use Rattle.std.specs.Prelude.{◌≡◌, ◌^◌, ◌<◌, ◌≤◌, ◌+◌, List, ℕ, Some, Ok, Err, IfOk, IfErr, length, take};
ghost use Rattle.std.specs.Io.KnownBytes.{prepend_known};
ghost use Rattle.lvl_io.specs.Known.{Stays};
ghost use Rattle.lvl_io.specs.Bytes.{CountsFailure};
ghost use Rattle.oasis_values.specs.Faults.{reader_failed, as_breach};
ghost use Rattle.oasis_values.specs.Numbers.{IsOneByte, IsUnsigned};
ghost use Rattle.oasis_values.specs.inside.Leading.{IsStop, Stops, Finds};

use crate::fault::ValueFault;
use crate::integer::{Leading, scan_integer};
use lvl_io::{Buffer, Missing, Read};
use lvl_profile::Profile;

/// What was found, and how many bytes it takes.
#[derive(Clone, Copy)]
pub struct Found<T> {
    pub value: T,
    pub len: usize,
}

// Reads until more than `n` bytes are ahead, with `room` bytes left within the limit.
#[inline(always)]
fn want_more<R: Read>(
    reader: &mut R,
    ahead: &mut Buffer<4096>,
    room: u64,
    n: usize,
) -> Result<(), ValueFault>
    requires few { n < 4096 }
    requires had { n ≤ length ahead.old }
    requires within { n ≤ room }
    ensures bytes { Stays (prepend_known ahead.old (R.remaining reader.old))
        (prepend_known ahead.new (R.remaining reader.new)) }
    ensures front { take (length ahead.old) ahead.new ≡ ahead.old }
    ensures had { IfOk result (λ _. (n < length ahead.new) × (n < room)) }
    ensures stops { IfErr result (λ f. IsStop f × ((xs : List ℕ)
        → prepend_known ahead.old (R.remaining reader.old) ≡ Some xs
        → Stops f n room (length ahead.new) xs)) }
    ensures errors { CountsFailure (R.read_errors reader.old) (R.read_errors reader.new)
        (reader_failed (as_breach result)) }
    ensures same { R.lent reader.new ≡ R.lent reader.old }
{
    if n < ahead.len() && (n as u64) < room {
        return Ok(());
    }
    read_more(reader, ahead, room, n)
}

// Reads until more than `n` bytes are ahead, by the reader if need be.
#[cold]
#[inline(never)]
fn read_more<R: Read>(
    reader: &mut R,
    ahead: &mut Buffer<4096>,
    room: u64,
    n: usize,
) -> Result<(), ValueFault>
    requires few { n < 4096 }
    requires had { n ≤ length ahead.old }
    requires within { n ≤ room }
    ensures bytes { Stays (prepend_known ahead.old (R.remaining reader.old))
        (prepend_known ahead.new (R.remaining reader.new)) }
    ensures front { take (length ahead.old) ahead.new ≡ ahead.old }
    ensures had { IfOk result (λ _. (n < length ahead.new) × (n < room)) }
    ensures stops { IfErr result (λ f. IsStop f × ((xs : List ℕ)
        → prepend_known ahead.old (R.remaining reader.old) ≡ Some xs
        → Stops f n room (length ahead.new) xs)) }
    ensures errors { CountsFailure (R.read_errors reader.old) (R.read_errors reader.new)
        (reader_failed (as_breach result)) }
    ensures same { R.lent reader.new ≡ R.lent reader.old }
{
    match ahead.want(reader, room, n + 1) {
        Ok(()) => Ok(()),
        Err(Missing::Ended) => Err(ValueFault::Truncated),
        Err(Missing::Limit) => Err(ValueFault::TooLong),
        Err(Missing::Failed) => Err(ValueFault::Read),
    }
}

// Finds the byte at the front.
pub(crate) fn find_byte<R: Read>(
    reader: &mut R,
    ahead: &mut Buffer<4096>,
    room: u64,
) -> Result<Found<u8>, ValueFault>
    ensures bytes { Stays (prepend_known ahead.old (R.remaining reader.old))
        (prepend_known ahead.new (R.remaining reader.new)) }
    ensures had { IfOk result (λ found. (found.len ≤ length ahead.new) × (found.len ≤ room)) }
    ensures finds { Finds IsOneByte room (length ahead.new)
        (prepend_known ahead.old (R.remaining reader.old)) result }
    ensures errors { CountsFailure (R.read_errors reader.old) (R.read_errors reader.new)
        (reader_failed (as_breach result)) }
    ensures same { R.lent reader.new ≡ R.lent reader.old }
{
    want_more(reader, ahead, room, 0)?;
    Ok(Found {
        value: ahead.ahead()[0],
        len: 1,
    })
}

// Finds the unsigned integer at the front. Mostly it is in hand as a whole.
#[inline(always)]
pub(crate) fn find_integer<R: Read>(
    reader: &mut R,
    ahead: &mut Buffer<4096>,
    room: u64,
    profile: &Profile,
) -> Result<Found<u64>, ValueFault>
    ensures bytes { Stays (prepend_known ahead.old (R.remaining reader.old))
        (prepend_known ahead.new (R.remaining reader.new)) }
    ensures had { IfOk result (λ found. (found.len ≤ length ahead.new) × (found.len ≤ room)) }
    ensures finds { Finds (IsUnsigned profile.now) room (length ahead.new)
        (prepend_known ahead.old (R.remaining reader.old)) result }
    ensures errors { CountsFailure (R.read_errors reader.old) (R.read_errors reader.new)
        (reader_failed (as_breach result)) }
    ensures same { R.lent reader.new ≡ R.lent reader.old }
{
    let hand = ahead.ahead();
    let most = hand.len().min(room as usize);
    if let Leading::Whole(value, len) = scan_integer(profile, &hand[..most]) {
        return Ok(Found { value, len });
    }
    read_integer(reader, ahead, room, profile)
}

// Finds the unsigned integer at the front, by the reader if need be.
#[cold]
#[inline(never)]
fn read_integer<R: Read>(
    reader: &mut R,
    ahead: &mut Buffer<4096>,
    room: u64,
    profile: &Profile,
) -> Result<Found<u64>, ValueFault>
    ensures bytes { Stays (prepend_known ahead.old (R.remaining reader.old))
        (prepend_known ahead.new (R.remaining reader.new)) }
    ensures had { IfOk result (λ found. (found.len ≤ length ahead.new) × (found.len ≤ room)) }
    ensures finds { Finds (IsUnsigned profile.now) room (length ahead.new)
        (prepend_known ahead.old (R.remaining reader.old)) result }
    ensures errors { CountsFailure (R.read_errors reader.old) (R.read_errors reader.new)
        (reader_failed (as_breach result)) }
    ensures same { R.lent reader.new ≡ R.lent reader.old }
{
    'integer: loop {
        let hand = ahead.ahead();
        let most = hand.len().min(room as usize);
        match scan_integer(profile, &hand[..most]) {
            Leading::Whole(value, len) => return Ok(Found { value, len }),
            Leading::TooLarge(_) => return Err(ValueFault::IntegerTooLarge),
            Leading::Unfinished => want_more(reader, ahead, room, most)?,
        }
    }
}
