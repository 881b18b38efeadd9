//! Strings: a length and that many bytes.
ghost use Rattle.std.specs.Prelude.{◌≡◌, ◌<◌, ◌≤◌, ◌++◌, All, IfOk, OnErr, Some, false, take};
ghost use Rattle.oasis_values.specs.Texts.{any_length, character, least_length, text_length};

use crate::fault::ValueFault;
use crate::input::Input;
use lvl_io::Read;
use lvl_refusal::Cause;
use std::alloc::{AllocError, Global};

/// How many bytes of a string memory is taken for before any is read, at most. A longer one takes more as they come, so
/// that a length alone takes no memory.
const TAKEN_FIRST: usize = 65_536;

/// The kinds of strings.
#[derive(Clone, Copy, Debug, Drop, PartialEq, Eq)]
pub enum Text {
    /// 0x20 to 0x7E: printable characters and spaces.
    A,
    /// Any bytes.
    B,
    /// 0x21 to 0x7E: printable characters, at least one.
    N,
}

// The least length of a string of this kind.
fn least_length(kind: Text) -> u64
    ensures { result ≡ least_length kind }
{
    match kind {
        Text::A | Text::B => 0,
        Text::N => 1,
    }
}

// The length, if a string of this kind may have it and it is at most `most`.
fn text_length(kind: Text, most: usize, len: u64) -> Option<usize>
    ensures { result ≡ text_length kind most len }
{
    if least_length(kind) <= len && len <= most as u64 {
        Some(len as usize)
    } else {
        None
    }
}

// The length, if a string of this kind may have it.
fn any_length(kind: Text, len: u64) -> Option<u64>
    ensures { result ≡ any_length kind len }
{
    if least_length(kind) <= len {
        Some(len)
    } else {
        None
    }
}

// The byte, if a string of this kind may have it.
fn character(kind: Text, byte: u8) -> Option<u8>
    ensures { result ≡ character kind byte }
{
    let least = match kind {
        Text::A => 0x20,
        Text::B => return Some(byte),
        Text::N => 0x21,
    };
    if least <= byte && byte <= 0x7E {
        Some(byte)
    } else {
        None
    }
}

impl<R: Read> Input<R> {
    ghost use Rattle.oasis_values.specs.Input.{has_failed, bytes_in_hand};
    ghost use Rattle.oasis_values.specs.inside.Moved.{HasMovedOn};
    ghost use Rattle.oasis_values.specs.Reads.{Reads, Refutes};
    ghost use Rattle.oasis_values.specs.Faults.{as_breach, items};
    ghost use Rattle.oasis_values.specs.Texts.{IsCharacter, IsString, AreCharacters, AreUnkeptCharacters};
    ghost use Rattle.oasis_values.specs.Texts.{IsUnkeptString};

    /// A string of at most `most` bytes. The length is tested before it allocates, and each byte when it is
    /// read. It takes memory for 65,536 bytes at most before they come.
    pub fn string(
        &mut self,
        alloc: Global,
        kind: Text,
        most: usize,
    ) -> Result<Vec<u8>, Cause<ValueFault>>
        ensures reads { Reads R.remaining R.read_errors R.lent (IsString kind most) self.old self.new (items result) }
        ensures none { Refutes R.remaining (IsString kind most) self.old (items result) }
    {
        let number = self.unsigned()?;
        let len = self.known(text_length(kind, most, number), ValueFault::StringByte)?;
        self.characters(alloc, kind, len)
    }

    // `len` characters of that kind.
    fn characters(
        &mut self,
        alloc: Global,
        kind: Text,
        len: usize,
    ) -> Result<Vec<u8>, Cause<ValueFault>>
        requires { has_failed self.old ≡ false }
        ensures reads { Reads R.remaining R.read_errors R.lent
            (AreCharacters kind len) self.old self.new (items result) }
    {
        let Ok(mut text) = Vec::with_capacity(alloc, len.min(TAKEN_FIRST)) else {
            self.stop();
            return Err(Cause::OutOfMemory);
        };
        let mut left = len;
        'characters: while left > 0 {
            let byte = self.character(kind)?;
            let Ok(()) = text.push(byte) else {
                self.stop();
                return Err(Cause::OutOfMemory);
            };
            left -= 1;
            let Ok(taken) = self.take_in_hand(kind, &mut text, left) else {
                self.stop();
                return Err(Cause::OutOfMemory);
            };
            left -= taken;
        }
        Ok(text)
    }

    // Puts bytes that were read ahead after the text, at most `most`, if a string of that kind may have any bytes. It
    // returns how many.
    fn take_in_hand(
        &mut self,
        kind: Text,
        text: &mut Vec<u8>,
        most: usize,
    ) -> Result<usize, AllocError>
        ensures bound { IfOk result (λ n. n ≤ most) }
        ensures none { IfOk result (λ n. n ≡ 0 → self.new ≡ self.old) }
        ensures moved { IfOk result (λ n. 0 < n → HasMovedOn n self.old self.new) }
        ensures text { IfOk result (λ n. text.new.items ≡ text.old.items ++ take n (bytes_in_hand self.old)) }
        ensures any { IfOk result (λ n. All (λ c. character kind c ≡ Some c) (take n (bytes_in_hand self.old))) }
        ensures kept { OnErr result (self.new ≡ self.old) }
    {
        let room = self.profile.limits.file - self.offset;
        let hand = self.ahead.ahead();
        let n = match kind {
            Text::B => hand.len().min(room as usize).min(most),
            Text::A | Text::N => 0,
        };
        if n == 0 {
            return Ok(0);
        }
        text.extend_from_slice(&hand[..n])?;
        self.ahead.skip(n);
        self.offset += n as u64;
        Ok(n)
    }

    /// Reads a string of any length, and keeps nothing of it. It doesn't allocate.
    pub fn skip_string(&mut self, kind: Text) -> Result<(), ValueFault>
        ensures reads { Reads R.remaining R.read_errors R.lent (IsUnkeptString kind) self.old self.new
            (as_breach result) }
        ensures none { Refutes R.remaining (IsUnkeptString kind) self.old (as_breach result) }
    {
        let number = self.unsigned()?;
        let len = self.known(any_length(kind, number), ValueFault::StringByte)?;
        self.skip_characters(kind, len)
    }

    // Reads `len` characters of that kind, and keeps none of them.
    fn skip_characters(&mut self, kind: Text, len: u64) -> Result<(), ValueFault>
        requires { has_failed self.old ≡ false }
        ensures reads { Reads R.remaining R.read_errors R.lent
            (AreUnkeptCharacters kind len) self.old self.new (as_breach result) }
    {
        for n in 0..len {
            let _character = self.character(kind)?;
        }
        Ok(())
    }

    // A character of that kind.
    fn character(&mut self, kind: Text) -> Result<u8, ValueFault>
        ensures reads { Reads R.remaining R.read_errors R.lent (IsCharacter kind) self.old self.new (as_breach result) }
    {
        let byte = self.byte()?;
        self.known(character(kind, byte), ValueFault::StringByte)
    }
}
