//! A line on a terminal that says how much of a file was read.
use crate::amount::{Amount, amount_of};
use std::alloc::{AllocError, Global};
use std::io;

/// The least number of bytes of a file of which anything is shown.
const SHOWN_FROM: u64 = 1_048_576;

/// The greatest number of characters of a name that are shown.
const MOST_OF_NAME: usize = 60;

/// What a program does after it has read a file.
#[derive(Clone, Copy, Debug, PartialEq, Eq)]
pub enum After {
    /// It reads another file, or ends.
    Nothing,
    /// It compares the files.
    Comparing,
    /// It hashes what the file draws.
    Hashing,
}

/// Shows on one line of a terminal how much of a file was read. What can't be written is left out.
#[derive(Drop)]
pub struct Meter<T> {
    alloc: Global,
    terminal: T,
    name: String,
    size: Option<u64>,
    read: u64,
    shown: Option<Amount>,
    after: After,
    is_over: bool,
}

/// The last part of the path of a file, of which at most 60 characters are kept, with `?` in place of
/// each character that would control a terminal.
fn shown_name(alloc: Global, path: &str) -> Result<String, AllocError> {
    let name = path.rsplit('/').next().unwrap_or(path);
    let shown = name.chars().take(MOST_OF_NAME);
    shown
        .map(|c| if c.is_control() { '?' } else { c })
        .collect(alloc)
}

impl<T: io::Write> Meter<T> {
    /// A meter for the file with this path, of which nothing was read, and its size in bytes if that is
    /// known. Fails only if out of memory.
    pub fn new(
        alloc: Global,
        terminal: T,
        path: &str,
        size: Option<u64>,
        after: After,
    ) -> Result<Meter<T>, AllocError>
    where
        T: Drop,
    {
        Ok(Meter {
            alloc,
            terminal,
            name: shown_name(alloc, path)?,
            size,
            read: 0,
            shown: None,
            after,
            is_over: false,
        })
    }

    /// Writes a text, if there was memory for it.
    fn write(&mut self, text: Result<String, AllocError>) {
        if let Ok(text) = text {
            let _ = self.terminal.write_all(text.as_bytes());
        }
    }

    /// Shows how much was read.
    fn show(&mut self, amount: Amount) {
        let name = &self.name;
        let text = match amount {
            Amount::Percent(percent) => {
                format!(in self.alloc; "\rlvl: {name} {percent} %\x1b[K")
            }
            Amount::Megabytes(megabytes) => {
                format!(in self.alloc; "\rlvl: {name} {megabytes} MB\x1b[K")
            }
        };
        self.write(text);
    }

    /// Shows what comes after the file was read, or erases the line.
    fn end(&mut self) {
        let text = match self.after {
            After::Nothing => "\r\x1b[K",
            After::Comparing => "\rlvl: comparing\x1b[K",
            After::Hashing => "\rlvl: hashing\x1b[K",
        };
        let _ = self.terminal.write_all(text.as_bytes());
    }

    /// Counts bytes that were read; none are the end of the file. Nothing is shown of a file before its
    /// first megabyte.
    pub fn count(&mut self, read: usize) {
        if read == 0 {
            if !self.is_over {
                self.is_over = true;
                self.end();
            }
            return;
        }
        self.read = self.read.saturating_add(read as u64);
        let amount = amount_of(self.read, self.size);
        if self.read >= SHOWN_FROM && self.shown != Some(amount) {
            self.shown = Some(amount);
            self.show(amount);
        }
    }
    /// The terminal.
    pub fn into_terminal(self) -> T {
        self.terminal
    }
}
