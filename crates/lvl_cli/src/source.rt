//! Where the bytes of a file come from.
use std::fs::File;
use std::io;
use std::io::{Read, Stdin};

/// A file that is open, or standard input. Its bytes aren't known to the proofs.
#[derive(Drop)]
pub(crate) enum Source {
    /// A file of the system.
    File(File),
    /// Standard input.
    Input(Stdin),
}

impl Source {
    /// How many bytes it has, if that is known.
    pub(crate) fn size(&self) -> Option<u64> {
        match self {
            Source::File(file) => match file.metadata() {
                Ok(data) if data.is_file() => Some(data.len()),
                _ => None,
            },
            Source::Input(_) => None,
        }
    }
}

impl Read for Source {
    fn read(&mut self, buf: &mut [u8]) -> io::Result<usize> {
        match self {
            Source::File(file) => file.read(buf),
            Source::Input(input) => input.read(buf),
        }
    }
}
