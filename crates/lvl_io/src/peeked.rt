//! A reader that gives a byte again which was taken from it to look at.
ghost use Rattle.std.specs.Prelude.{◌≡◌, ◌∷◌, []};
ghost use Rattle.std.specs.Io.KnownBytes.{prepend_known};
ghost use Rattle.lvl_io.specs.Peeked.{peeked_byte, peeked_rest, given_again};

use crate::{Failure, Read};

/// A reader preceded by one byte, if there is one.
#[derive(Drop)]
pub struct Peeked<R> {
    byte: Option<u8>,
    rest: R,
}

impl<R> Peeked<R> {
    /// First gives the byte, and then what `rest` gives.
    pub fn new(byte: Option<u8>, rest: R) -> Peeked<R>
        ensures byte { peeked_byte result ≡ byte }
        ensures rest { peeked_rest result ≡ rest }
    {
        Peeked { byte, rest }
    }

    /// The reader without the byte, which is lost if it wasn't read again.
    pub fn into_rest(self) -> R
        ensures { result ≡ peeked_rest self }
    {
        let Peeked { byte: _byte, rest } = self;
        rest
    }
}

impl<R: Read> Read for Peeked<R> {
    ghost remaining = { λ p. prepend_known (given_again (peeked_byte p)) (R.remaining (peeked_rest p)) };

    ghost read_errors = { λ p. R.read_errors (peeked_rest p) };

    ghost lent = { λ p. R.lent (peeked_rest p) };

    fn read(&mut self, buf: &mut [u8]) -> Result<usize, Failure> {
        match (self.byte, buf.first_mut()) {
            (Some(byte), Some(first)) => {
                *first = byte;
                self.byte = None;
                Ok(1)
            }
            (Some(_), None) => Ok(0),
            (None, _) => self.rest.read(buf),
        }
    }
}
