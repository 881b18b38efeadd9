//! A reader of bytes in memory, which never fails.
ghost use Rattle.std.specs.Prelude.{◌≡◌, [], Some};

use lvl_io::{Failure, Read};
use std::marker::Model;

/// Gives the bytes of a slice.
#[derive(Drop)]
pub(crate) struct Slice<'a> {
    rest: &'a [u8],
}

impl<'a> Model for Slice<'a> {
    ghost use Rattle.std.specs.Prelude.{ℕ, List};

    ghost Value = { List ℕ };

    ghost view = { λ s. s.rest.now };
}

impl<'a> Slice<'a> {
    /// All of these bytes.
    pub(crate) fn new(bytes: &'a [u8]) -> Slice<'a>
        ensures { result ≡ bytes.now }
    {
        Slice { rest: bytes }
    }
}

impl Read for Slice<'_> {
    ghost remaining = { λ s. Some s };

    ghost read_errors = { λ _. 0 };

    ghost lent = { λ _. [] };

    fn read(&mut self, buf: &mut [u8]) -> Result<usize, Failure> {
        let n = buf.len().min(self.rest.len());
        buf[..n].copy_from_slice(&self.rest[..n]);
        self.rest = &self.rest[n..];
        Ok(n)
    }
}
