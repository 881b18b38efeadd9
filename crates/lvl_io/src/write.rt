//! A writer whose contract names its bytes, and which counts its errors.
ghost use Rattle.std.specs.Prelude.{◌≡◌, ℕ, List, ◌∷◌, Option, Some};
ghost use Rattle.std.specs.Io.{WritesAtMost};
ghost use Rattle.std.specs.Io.KnownBytes.{Keeps, WriteAppends};
ghost use Rattle.std.specs.Borrow.{GName};
ghost use Rattle.lvl_io.specs.Bytes.{CountsFailure, failed, write_failed};

use crate::Failure;

/// Takes bytes, as std's `Write` does, and counts the errors that it returned. A write that takes
/// nothing of a slice that isn't empty counts as one.
pub trait Write {
    /// The bytes that the writer has taken, if they are known.
    ghost contents: { Self → Option (List ℕ) };

    /// How many errors the writer has returned.
    ghost write_errors: { Self → ℕ };

    /// The references through which it writes, the outermost first. A write and a flush keep them.
    ghost lent: { Self → List GName };

    /// Takes some bytes from the front of `buf` and returns how many.
    fn write(&mut self, buf: &[u8]) -> Result<usize, Failure>
        ensures bound { WritesAtMost result buf.now }
        ensures bytes { WriteAppends (contents self.old) (contents self.new) result buf.now }
        ensures errors { CountsFailure (write_errors self.old) (write_errors self.new)
            (write_failed result buf.now) }
        ensures same { lent self.new ≡ lent self.old };

    /// Passes on the bytes that the writer has buffered.
    fn flush(&mut self) -> Result<(), Failure>
        ensures bytes { Keeps (contents self.old) (contents self.new) }
        ensures errors { CountsFailure (write_errors self.old) (write_errors self.new) (failed result) }
        ensures same { lent self.new ≡ lent self.old };
}

impl<W: Write> Write for &mut W {
    ghost contents = { λ w. W.contents w.now };

    ghost write_errors = { λ w. W.write_errors w.now };

    ghost lent = { λ w. w.ghost_name ∷ W.lent w.now };

    fn write(&mut self, buf: &[u8]) -> Result<usize, Failure> {
        Write::write(&mut **self, buf)
    }

    fn flush(&mut self) -> Result<(), Failure> {
        Write::flush(&mut **self)
    }
}
