//! Readers and writers for tests: they give or take bytes in pieces, and fail on request.
ghost use Rattle.std.specs.Prelude.{Some, []};

use crate::{Failure, Read, Write};
use std::alloc::Global;
use std::io;

/// Gives at most `most` bytes (at least one) in each read. At the end of `rest` it fails `failures`
/// times and then reports the end.
#[derive(Drop)]
pub struct Pieces<'a> {
    pub rest: &'a [u8],
    pub most: usize,
    pub failures: u32,
    pub errors: u64,
}

impl<'a> Pieces<'a> {
    /// All of these bytes, at most `most` at a read.
    pub fn new(bytes: &'a [u8], most: usize) -> Pieces<'a> {
        Pieces {
            rest: bytes,
            most,
            failures: 0,
            errors: 0,
        }
    }

    /// All of these bytes, at most `most` at a read, and then one failure.
    pub fn failing(bytes: &'a [u8], most: usize) -> Pieces<'a> {
        Pieces {
            rest: bytes,
            most,
            failures: 1,
            errors: 0,
        }
    }
}

impl Read for Pieces<'_> {
    ghost remaining = { λ r. Some r.rest.now };

    ghost read_errors = { λ r. r.errors };

    ghost lent = { λ _. [] };

    fn read(&mut self, buf: &mut [u8]) -> Result<usize, Failure> {
        if self.rest.is_empty() && self.failures > 0 {
            self.failures -= 1;
            self.errors = self.errors.saturating_add(1);
            return Err(Failure);
        }
        let most = buf.len().min(self.most.max(1));
        match io::Read::read(&mut self.rest, &mut buf[..most]) {
            Ok(n) => Ok(n),
            Err(_) => {
                self.errors = self.errors.saturating_add(1);
                Err(Failure)
            }
        }
    }
}

/// Takes at most `most` bytes in each write, and `room` in all. Then it returns errors, or 0 if
/// `takes_nothing` is set.
#[derive(Drop)]
pub struct Sink {
    pub taken: Vec<u8>,
    pub most: usize,
    pub room: usize,
    pub takes_nothing: bool,
    pub flush_fails: bool,
    pub errors: u64,
}

impl Sink {
    /// Takes at most `most` bytes in each write, and any number in all.
    pub fn new(alloc: Global, most: usize) -> Sink {
        Sink {
            taken: Vec::new(alloc),
            most,
            room: usize::MAX,
            takes_nothing: false,
            flush_fails: false,
            errors: 0,
        }
    }
}

impl Write for Sink {
    ghost contents = { λ w. Some w.taken.items };

    ghost write_errors = { λ w. w.errors };

    ghost lent = { λ _. [] };

    fn write(&mut self, buf: &[u8]) -> Result<usize, Failure> {
        let n = buf.len().min(self.most).min(self.room);
        if n == 0 && !buf.is_empty() {
            self.errors = self.errors.saturating_add(1);
            return if self.takes_nothing {
                Ok(0)
            } else {
                Err(Failure)
            };
        }
        if self.taken.extend_from_slice(&buf[..n]).is_err() {
            self.errors = self.errors.saturating_add(1);
            return Err(Failure);
        }
        self.room -= n;
        Ok(n)
    }

    fn flush(&mut self) -> Result<(), Failure> {
        if self.flush_fails {
            self.errors = self.errors.saturating_add(1);
            return Err(Failure);
        }
        Ok(())
    }
}
