//! A reader of the bytes of a block, unpacked.
ghost use Rattle.std.specs.Prelude.{◌≡◌, [], Some};

use crate::stored::Stored;
use lvl_inflate::Inflate;
use lvl_io::{Failure, Read};
use std::alloc::Global;
use std::marker::Model;

/// Where the bytes of a block come from.
#[derive(Drop)]
pub(crate) enum Source {
    /// They are unpacked.
    Plain(Stored),
    /// They are unpacked as they are read.
    Packed(Box<Inflate<Stored>>),
}

/// A reader of the bytes of a block, unpacked. It never fails. Its value is the bytes that it still gives.
#[derive(Drop)]
pub struct Unpacked {
    pub(crate) source: Source,
}

impl Model for Unpacked {
    ghost use Rattle.std.specs.Prelude.{◌≡◌, ℕ, List, [], true, is_some, unwrap_or};
    ghost use Rattle.oasis_blocks.specs.inside.Given.{bytes_in};

    ghost Value = { List ℕ };

    ghost view = { λ u. unwrap_or (bytes_in u.source) [] };

    ghost invariant = { λ u. is_some (bytes_in u.source) ≡ true };
}

impl Unpacked {
    /// No bytes. It doesn't allocate.
    pub fn new(alloc: Global) -> Unpacked
        ensures { result ≡ [] }
    {
        Unpacked {
            source: Source::Plain(Stored::new(Vec::new(alloc))),
        }
    }

    /// The memory that the bytes are in, if all of them are.
    pub(crate) fn into_memory(self) -> Option<Vec<u8>> {
        let Unpacked { source } = self;
        match source {
            Source::Plain(stored) => Some(stored.into_memory()),
            Source::Packed(_) => None,
        }
    }
}

impl Read for Unpacked {
    ghost remaining = { λ u. Some u };

    ghost read_errors = { λ _. 0 };

    ghost lent = { λ _. [] };

    fn read(&mut self, buf: &mut [u8]) -> Result<usize, Failure> {
        match &mut self.source {
            Source::Plain(stored) => Ok(stored.give(buf)),
            Source::Packed(inflate) => match inflate.read(buf) {
                Ok(n) => Ok(n),
                Err(_) => Err(Failure),
            },
        }
    }
}
