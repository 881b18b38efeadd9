//! An unsigned integer at the front of some bytes: seven bits in each byte, the lowest group first; the
//! high bit is set if another byte follows.
ghost use Rattle.std.specs.Prelude.{◌≡◌, ◌<◌, ◌≤◌, length, take, get_or};
ghost use Rattle.oasis_values.specs.Numbers.{groups, most_bytes, Continues};
ghost use Rattle.oasis_values.specs.inside.Leading.{Leads};

use lvl_profile::Profile;

/// The greatest number of bytes of an unsigned integer (own rule): a number below 2^64 needs no
/// more.
const MOST_BYTES: usize = 10;

/// The greatest number of bytes of an unsigned integer if padding is ignored (own rule).
const MOST_PADDED_BYTES: usize = 256;

/// The high bit, which is set in each byte but the last.
const CONTINUES: u8 = 128;

/// The value of the lowest bit of a tenth byte.
const HIGHEST_UNIT: u64 = 1 << 63;

/// What is at the front of some bytes.
#[derive(Clone, Copy)]
pub enum Leading {
    /// An integer, and how many bytes it takes.
    Whole(u64, usize),
    /// No integer begins with the bytes, and how many of them show it.
    TooLarge(usize),
    /// The bytes are the beginning of an integer.
    Unfinished,
}

// What the bytes begin with.
#[inline(always)]
pub(crate) fn scan_integer(profile: &Profile, bytes: &[u8]) -> Leading
    ensures { Leads profile.now result bytes.now }
{
    let mut value = 0_u64;
    let mut unit = 1_u64;
    for (at, byte) in bytes.iter().enumerate() {
        let digit = u64::from(*byte % CONTINUES);
        if at + 1 == MOST_BYTES && *byte > 1 {
            return scan_long(profile, bytes, value);
        }
        value += unit * digit;
        if *byte < CONTINUES {
            return Leading::Whole(value, at + 1);
        }
        unit *= u64::from(CONTINUES);
    }
    Leading::Unfinished
}

// What the bytes begin with, if nine that continue make `value` and the tenth isn't 0 or 1: with padding it may
// still be an integer.
#[cold]
#[inline(never)]
fn scan_long(profile: &Profile, bytes: &[u8], value: u64) -> Leading
    requires long { 9 < length bytes.now }
    requires continues { Continues (take 9 bytes.now) }
    requires value { value ≡ groups (take 9 bytes.now) }
    requires above { 1 < get_or bytes.now 9 0 }
    ensures { Leads profile.now result bytes.now }
{
    let digit = bytes[MOST_BYTES - 1] % CONTINUES;
    if digit > 1 {
        return Leading::TooLarge(MOST_BYTES);
    }
    if !profile.ignore.padding {
        return Leading::TooLarge(MOST_BYTES);
    }
    scan_padding(profile, bytes, value + HIGHEST_UNIT * u64::from(digit))
}

// What the bytes begin with, if ten that continue make `value`: only zero groups may follow.
fn scan_padding(profile: &Profile, bytes: &[u8], value: u64) -> Leading
    requires padded { most_bytes profile.now ≡ 256 }
    requires long { 10 ≤ length bytes.now }
    requires continues { Continues (take 10 bytes.now) }
    requires value { value ≡ groups (take 10 bytes.now) }
    ensures { Leads profile.now result bytes.now }
{
    for at in MOST_BYTES..bytes.len() {
        let byte = bytes[at];
        if byte % CONTINUES > 0 {
            return Leading::TooLarge(at + 1);
        }
        if byte < CONTINUES {
            return Leading::Whole(value, at + 1);
        }
        if at + 1 == MOST_PADDED_BYTES {
            return Leading::TooLarge(at + 1);
        }
    }
    Leading::Unfinished
}
