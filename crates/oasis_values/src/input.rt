//! The input: single bytes and unsigned integers, of which all other values consist.
ghost use Rattle.std.specs.Prelude.{◌≡◌, ◌-◌, ◌≤◌, false, true, None, Ok, Some, IfOk, IfSome, OnErr};

use crate::fault::ValueFault;
use crate::find::{find_byte, find_integer};
use crate::integer::{Leading, scan_integer};
use lvl_io::{Buffer, Read};
use lvl_profile::Profile;
use std::mem;

/// The greatest number of bytes of an integer that is read where its caller stands, without a call.
const MOST_IN_PLACE: usize = 4;

/// Reads values from a reader, one at a time. It reads from the reader only when it needs a byte and has
/// none ahead.
#[derive(Drop)]
pub struct Input<R> {
    reader: R,
    pub(crate) ahead: Buffer<4096>,
    pub(crate) offset: u64,
    pub(crate) profile: Profile,
    failed: bool,
    ghost within: { offset ≤ profile.limits.file },
}

impl<R: Read> Input<R> {
    ghost use Rattle.oasis_values.specs.Input.{bytes_left, input_offset, has_failed, input_profile, input_reader};
    ghost use Rattle.oasis_values.specs.Reads.{Reads, Refutes};
    ghost use Rattle.oasis_values.specs.Faults.{as_breach, is_rule};
    ghost use Rattle.oasis_values.specs.Numbers.{IsByte, IsUnsigned};
    ghost use Rattle.oasis_values.specs.Known.{Known};
    ghost use Rattle.oasis_values.specs.inside.Stopped.{HasStopped};

    /// The values in the bytes that the reader gives from now on, as a file that is what the profile
    /// allows. It doesn't allocate.
    pub fn new(reader: R, profile: Profile) -> Input<R>
        ensures reader { input_reader result ≡ reader }
        ensures bytes { bytes_left R.remaining result ≡ R.remaining reader }
        ensures offset { input_offset result ≡ 0 }
        ensures profile { input_profile result ≡ profile }
        ensures failed { has_failed result ≡ false }
    {
        Input {
            reader,
            ahead: Buffer::new(),
            offset: 0,
            profile,
            failed: false,
        }
    }

    /// Begins anew: from now on it is as [`Input::new`] makes it. It returns the reader that it had. Bytes that were
    /// read ahead of that are lost. It costs less than to make another one, which has 4,096 bytes to clear.
    pub fn begin(&mut self, reader: R, profile: Profile) -> R
        ensures before { result ≡ input_reader self.old }
        ensures reader { input_reader self.new ≡ reader }
        ensures bytes { bytes_left R.remaining self.new ≡ R.remaining reader }
        ensures offset { input_offset self.new ≡ 0 }
        ensures profile { input_profile self.new ≡ profile }
        ensures failed { has_failed self.new ≡ false }
    {
        let ahead = self.ahead.len();
        self.ahead.skip(ahead);
        self.offset = 0;
        self.profile = profile;
        self.failed = false;
        mem::replace(&mut self.reader, reader)
    }

    /// How many bytes of the input were taken. It is available after a fault too.
    pub fn offset(&self) -> u64
        ensures { result ≡ input_offset self.now }
    {
        self.offset
    }

    /// What the file may be.
    pub fn profile(&self) -> Profile
        ensures { result ≡ input_profile self.now }
    {
        self.profile
    }

    /// The reader. Bytes that were read ahead are lost.
    pub fn into_reader(self) -> R
        ensures { result ≡ input_reader self }
    {
        let Input {
            reader,
            ahead,
            offset: _,
            profile: _,
            failed: _,
        } = self;
        drop(ahead);
        reader
    }

    /// A single byte.
    pub fn byte(&mut self) -> Result<u8, ValueFault>
        ensures reads { Reads R.remaining R.read_errors R.lent IsByte self.old self.new (as_breach result) }
        ensures none { Refutes R.remaining IsByte self.old (as_breach result) }
        ensures at { OnErr result (input_offset self.new ≡ input_offset self.old) }
    {
        if self.failed {
            return Err(ValueFault::Failed);
        }
        match find_byte(
            &mut self.reader,
            &mut self.ahead,
            self.profile.limits.file - self.offset,
        ) {
            Ok(found) => {
                self.ahead.skip(found.len);
                self.offset += found.len as u64;
                Ok(found.value)
            }
            Err(fault) => {
                self.failed = true;
                Err(fault)
            }
        }
    }

    /// An unsigned integer of at most ten bytes, below 2^64. It fails with `IntegerTooLarge` at a tenth
    /// byte above 1 (own rule). If padding is ignored, the integer may have 256 bytes, and
    /// `IntegerTooLarge` is reported at the first byte with which it is 2^64 or more, or at the 256th if
    /// that doesn't end it.
    #[inline(always)]
    pub fn unsigned(&mut self) -> Result<u64, ValueFault>
        ensures reads { Reads R.remaining R.read_errors R.lent IsUnsigned self.old self.new (as_breach result) }
        ensures none { Refutes R.remaining IsUnsigned self.old (as_breach result) }
        ensures at { OnErr result (input_offset self.new ≡ input_offset self.old) }
    {
        // One byte is most often enough, and is tested for with the fewest instructions.
        if let Some(value) = self.in_hand(1) {
            return Ok(value);
        }
        if let Some(value) = self.in_hand(MOST_IN_PLACE) {
            return Ok(value);
        }
        self.find_unsigned()
    }

    // The unsigned integer at the front, if it is in hand as a whole and has at most `most` bytes.
    #[inline(always)]
    fn in_hand(&mut self, most: usize) -> Option<u64>
        ensures reads { IfSome result (λ value.
            Reads R.remaining R.read_errors R.lent IsUnsigned self.old self.new (Ok value)) }
        ensures kept { result ≡ None → self.new ≡ self.old }
    {
        if self.failed {
            return None;
        }
        let room = self.profile.limits.file - self.offset;
        let hand = self.ahead.ahead();
        let within = hand.len().min(room as usize);
        let first = within.min(most);
        match scan_integer(&self.profile, &hand[..first]) {
            Leading::Whole(value, len) => {
                self.ahead.skip(len);
                self.offset += len as u64;
                Some(value)
            }
            _ => None,
        }
    }

    // An unsigned integer of any number of bytes, by a call.
    #[inline(never)]
    fn find_unsigned(&mut self) -> Result<u64, ValueFault>
        ensures reads { Reads R.remaining R.read_errors R.lent IsUnsigned self.old self.new (as_breach result) }
        ensures none { Refutes R.remaining IsUnsigned self.old (as_breach result) }
        ensures at { OnErr result (input_offset self.new ≡ input_offset self.old) }
    {
        if self.failed {
            return Err(ValueFault::Failed);
        }
        match find_integer(
            &mut self.reader,
            &mut self.ahead,
            self.profile.limits.file - self.offset,
            &self.profile,
        ) {
            Ok(found) => {
                self.ahead.skip(found.len);
                self.offset += found.len as u64;
                Ok(found.value)
            }
            Err(fault) => {
                self.failed = true;
                Err(fault)
            }
        }
    }

    /// The value, if there is one; if not, the rule is breached, and later calls fail.
    pub(crate) fn known<T: Drop>(
        &mut self,
        found: Option<T>,
        rule: ValueFault,
    ) -> Result<T, ValueFault>
        requires { is_rule rule ≡ true }
        ensures reads { Reads R.remaining R.read_errors R.lent (Known found rule) self.old self.new (as_breach result) }
        ensures found { IfOk result (λ x. found ≡ Some x) }
    {
        if self.failed {
            return Err(ValueFault::Failed);
        }
        match found {
            Some(value) => Ok(value),
            None => {
                self.failed = true;
                Err(rule)
            }
        }
    }

    /// After a failed allocation: later calls fail.
    pub(crate) fn stop(&mut self)
        ensures { HasStopped self.old self.new }
    {
        self.failed = true;
    }
}
