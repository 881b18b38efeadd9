//! How a run ends, with an answer that was written or without.
ghost use Rattle.std.specs.Prelude.{◌≡◌};
ghost use Rattle.lvl_report.specs.Writing.{status_code, fault_code};

use thiserror::Error;

/// Which answer was written.
#[derive(Clone, Copy, Debug, PartialEq, Eq)]
pub enum Status {
    /// Both layouts draw the same mask.
    Same,
    /// They differ.
    Differ,
    /// A layout was shown, or its digest was.
    Shown,
    /// A file was refused, or the run was out of memory.
    Refused,
}

impl Status {
    /// The exit status of the program: 0 if two layouts are the same, or if one was shown or
    /// hashed; 1 if two differ; 2 if a refusal was written.
    pub fn code(&self) -> u8
        ensures { result ≡ status_code self.now }
    {
        match self {
            Status::Same | Status::Shown => 0,
            Status::Differ => 1,
            Status::Refused => 2,
        }
    }
}

/// Why no answer was written whole.
#[derive(Clone, Copy, Debug, Drop, PartialEq, Eq, Error)]
pub enum RunFault {
    /// A write or a flush failed, or a write took nothing of some bytes. A beginning of the text
    /// was written.
    #[error("output failed")]
    Output = 1,
    /// There was no memory for the text. Nothing was written.
    #[error("out of memory")]
    OutOfMemory = 2,
}

impl RunFault {
    /// The exit status of the program: 4 if the output failed, 2 if it was out of memory.
    pub fn code(&self) -> u8
        ensures { result ≡ fault_code self.now }
    {
        match self {
            RunFault::Output => 4,
            RunFault::OutOfMemory => 2,
        }
    }
}
