//! How a job opens its files.
ghost use Rattle.std.specs.Prelude.{◌≡◌, ℕ, List, IfOk};
ghost use Rattle.lvl_job.specs.Opening.{held, Opened};

use lvl_io::Read;

/// Why a file isn't opened.
#[derive(Clone, Copy, Debug, Drop, PartialEq, Eq)]
pub enum OpenFault {
    /// There is no file of this name.
    Missing,
    /// The system doesn't let it be read.
    Denied,
    /// Another reason.
    Other,
}

/// What a file that was refused is.
#[derive(Clone, Copy, Debug, PartialEq, Eq)]
pub enum Look {
    /// A directory.
    Directory,
    /// A file that begins as those of gzip do.
    Gzip,
    /// Anything else, or it can't be told.
    Plain,
}

/// Opens files by name.
pub trait Files {
    ghost use Rattle.lvl_job.specs.declared.files.Look.{Look};

    /// A file that is open, as a reader.
    type File: Read + Drop;

    /// What opening a file may do: from this state, with this name, find these bytes (`Ok(None)` if
    /// they aren't known), or not open the file for this reason, and leave that state.
    ghost opens: { Self → List ℕ → Opened → Self → Type 0 };

    /// What a look at a file may find: in this state, of the file of this name.
    ghost looks: { Self → List ℕ → Look → Type 0 };

    /// Opens the file of a name. Its reader has returned no errors yet.
    fn open(&mut self, name: &str) -> Result<Self::File, OpenFault>
        ensures opened { opens self.old name.now (held Self.File.remaining result) self.new }
        ensures fresh { IfOk result (λ file. Self.File.read_errors file ≡ 0) };

    /// Looks at the file of a name, after it was refused.
    fn look(&self, name: &str) -> Look
        ensures { looks self.now name.now result };
}
