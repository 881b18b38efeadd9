//! The files of the system.
use crate::source::Source;
use lvl_io::Counted;
use lvl_job::{Files, Look, OpenFault};
use lvl_progress::{After, Meter, Watched};
use std::fs;
use std::fs::File;
use std::io::{ErrorKind, Read, Stderr};

/// What the program does with files, as far as it is shown.
#[derive(Clone, Copy, PartialEq, Eq)]
pub(crate) enum Command {
    /// Two files are read, and then compared.
    Compare,
    /// What a file draws is hashed after it was read.
    Digest,
    /// A file is read.
    Other,
}

impl Command {
    /// The command that the words of a command line name.
    pub(crate) fn of(words: &[&str]) -> Command {
        match words.get(1).copied() {
            Some("compare") => Command::Compare,
            Some("digest") => Command::Digest,
            _ => Command::Other,
        }
    }
}

/// The files of the system. Their bytes aren't known to the proofs.
#[derive(Drop)]
pub(crate) struct Disk<'a> {
    rt: &'a HostRuntime,
    command: Command,
    is_shown: bool,
    opened: u32,
    is_input_taken: bool,
}

/// The name of standard input.
const INPUT: &str = "-";

/// How a file of gzip begins.
const GZIP: [u8; 2] = [0x1F, 0x8B];

impl<'a> Disk<'a> {
    /// The files of the system, for a command. While they are read, standard error shows how far that
    /// is, if that is asked for.
    pub(crate) fn new(rt: &'a HostRuntime, command: Command, is_shown: bool) -> Disk<'a> {
        Disk {
            rt,
            command,
            is_shown,
            opened: 0,
            is_input_taken: false,
        }
    }

    /// What comes after the file is read that was opened last.
    fn after(&self) -> After {
        match self.command {
            Command::Compare if self.opened >= 2 => After::Comparing,
            Command::Digest => After::Hashing,
            _ => After::Nothing,
        }
    }

    /// Opens the file of a name; `-` is standard input, once.
    fn source(&mut self, name: &str) -> Result<Source, OpenFault> {
        if name == INPUT {
            if self.is_input_taken {
                return Err(OpenFault::Other);
            }
            self.is_input_taken = true;
            return Ok(Source::Input(self.rt.stdin()));
        }
        match File::open(self.rt, name) {
            Ok(file) => Ok(Source::File(file)),
            Err(error) => Err(fault_of(error.kind())),
        }
    }

    /// Whether a file begins as those of gzip do.
    fn is_gzip(&self, name: &str) -> bool {
        let mut front = [0; 2];
        match File::open(self.rt, name) {
            Ok(mut file) => file.read_exact(&mut front).is_ok() && front == GZIP,
            Err(_) => false,
        }
    }

    /// A meter for a file, if it is to be shown how far it is read and there is memory for that.
    fn meter(&mut self, source: &Source, name: &str) -> Option<Meter<Stderr>> {
        if !self.is_shown {
            return None;
        }
        self.opened = self.opened.saturating_add(1);
        let after = self.after();
        Meter::new(
            self.rt.alloc(),
            self.rt.stderr(),
            name,
            source.size(),
            after,
        )
        .ok()
    }
}

/// Why a file isn't opened, by what the system says.
fn fault_of(kind: ErrorKind) -> OpenFault {
    match kind {
        ErrorKind::NotFound | ErrorKind::NotADirectory => OpenFault::Missing,
        ErrorKind::PermissionDenied => OpenFault::Denied,
        _ => OpenFault::Other,
    }
}

impl Files for Disk<'_> {
    type File = Counted<Watched<Source, Stderr>>;

    ghost opens = { λ _ _ _ _. Unit {0} };

    ghost looks = { λ _ _ _. Unit {0} };

    fn open(&mut self, name: &str) -> Result<Counted<Watched<Source, Stderr>>, OpenFault> {
        let source = self.source(name)?;
        let meter = self.meter(&source, name);
        Ok(Counted::new(Watched::new(source, meter)))
    }

    fn look(&self, name: &str) -> Look {
        if name == INPUT {
            return Look::Plain;
        }
        match fs::metadata(self.rt, name) {
            Ok(data) if data.is_dir() => Look::Directory,
            Ok(data) if data.is_file() && self.is_gzip(name) => Look::Gzip,
            _ => Look::Plain,
        }
    }
}
