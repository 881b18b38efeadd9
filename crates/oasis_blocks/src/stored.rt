//! A reader of bytes in memory of its own, which never fails.
ghost use Rattle.std.specs.Prelude.{◌≡◌, ◌<◌, ◌≤◌, ◌++◌, [], take, length, vec_len};

use lvl_io::{Failure, Read};

/// Bytes in memory, of which some were given.
#[derive(Drop)]
pub(crate) struct Stored {
    bytes: Vec<u8>,
    given: usize,
    ghost within: { given ≤ vec_len bytes },
}

impl Stored {
    ghost use Rattle.oasis_blocks.specs.inside.Given.{rest_of};

    /// All of these bytes.
    pub(crate) fn new(bytes: Vec<u8>) -> Stored
        ensures { rest_of result ≡ bytes.items }
    {
        Stored { bytes, given: 0 }
    }

    /// The memory, whatever is in it.
    pub(crate) fn into_memory(self) -> Vec<u8> {
        let Stored { bytes, given: _ } = self;
        bytes
    }

    /// Puts bytes into the front of `buf`, and returns how many: none only if none is left, or `buf` is empty.
    pub(crate) fn give(&mut self, buf: &mut [u8]) -> usize
        ensures bound { result ≤ length buf.new }
        ensures bytes { rest_of self.old ≡ take result buf.new ++ rest_of self.new }
        ensures end { result ≡ 0 → 0 < length buf.new → rest_of self.old ≡ [] }
    {
        let n = buf.len().min(self.bytes.len() - self.given);
        buf[..n].copy_from_slice(&self.bytes[self.given..self.given + n]);
        self.given += n;
        n
    }
}

impl Read for Stored {
    ghost use Rattle.std.specs.Prelude.{[]};
    ghost use Rattle.oasis_blocks.specs.inside.Given.{known_rest};

    ghost remaining = { known_rest };

    ghost read_errors = { λ _. 0 };

    ghost lent = { λ _. [] };

    fn read(&mut self, buf: &mut [u8]) -> Result<usize, Failure> {
        Ok(self.give(buf))
    }
}
