//! A reader whose contract names its bytes, and which counts its errors.
ghost use Rattle.std.specs.Prelude.{◌≡◌, ℕ, List, ◌∷◌, Option, Some};
ghost use Rattle.std.specs.Io.{ReadsAtMost};
ghost use Rattle.std.specs.Io.KnownBytes.{ReadConsumes};
ghost use Rattle.std.specs.Borrow.{GName};
ghost use Rattle.lvl_io.specs.Bytes.{CountsFailure, failed};

use crate::Failure;

/// Gives bytes, as std's `Read` does, and counts the errors that it returned.
pub trait Read {
    /// The bytes that reads will give from here on, if they are known.
    ghost remaining: { Self → Option (List ℕ) };

    /// How many errors the reader has returned.
    ghost read_errors: { Self → ℕ };

    /// The references through which it reads, the outermost first. A read keeps them.
    ghost lent: { Self → List GName };

    /// Reads some bytes into the front of `buf` and returns how many. This is 0 only at the end of
    /// the input or if `buf` is empty.
    fn read(&mut self, buf: &mut [u8]) -> Result<usize, Failure>
        ensures bound { ReadsAtMost result buf.new }
        ensures bytes { ReadConsumes (remaining self.old) (remaining self.new) result buf.new }
        ensures errors { CountsFailure (read_errors self.old) (read_errors self.new) (failed result) }
        ensures same { lent self.new ≡ lent self.old };
}

impl<R: Read> Read for &mut R {
    ghost remaining = { λ r. R.remaining r.now };

    ghost read_errors = { λ r. R.read_errors r.now };

    ghost lent = { λ r. r.ghost_name ∷ R.lent r.now };

    fn read(&mut self, buf: &mut [u8]) -> Result<usize, Failure> {
        Read::read(&mut **self, buf)
    }
}
