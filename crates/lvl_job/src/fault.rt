//! Why a job has no answer.
ghost use Rattle.std.specs.Prelude.{◌≡◌};
ghost use Rattle.lvl_job.specs.Ends.{fault_code};

use crate::files::OpenFault;
use lvl_profile::IgnoreFault;
use lvl_view::ViewFault;
use std::alloc::AllocError;

/// Why a job has no answer that was written whole.
#[derive(Debug, Drop)]
pub enum JobFault {
    /// The texts of the map and the window give no view. No file was opened.
    BadView(ViewFault),
    /// The text of what is ignored gives no set. No file was opened.
    BadIgnore(IgnoreFault),
    /// The file of this name can't be opened, and why.
    NotOpened(String, OpenFault),
    /// A read of the list in the file of this name failed. None of the files that it names was opened.
    UnreadList(String),
    /// The list in the file of this name has more bytes than a file may have. None of the files that it names
    /// was opened.
    LongList(String),
    /// In the list in the file of this name, the line of this number, counted from 1, isn't the line of a file.
    /// None of the files that it names was opened.
    BadLine(String, usize),
    /// An allocation failed for the view, for what is ignored, for a list, or for the text of an answer. Nothing
    /// was written of that answer.
    OutOfMemory,
    /// A write or a flush failed. A beginning of an answer's text was written.
    Output,
}

impl JobFault {
    /// The exit status of the program: 2 if a file can't be opened, if a list can't be read or is too long, or
    /// for out of memory; 3 if a text of the command line or a line of a list is bad; 4 if the output failed.
    pub fn code(&self) -> u8
        ensures { result ≡ fault_code self.now }
    {
        match self {
            JobFault::BadView(_) | JobFault::BadIgnore(_) | JobFault::BadLine(..) => 3,
            JobFault::NotOpened(..) | JobFault::UnreadList(_) | JobFault::LongList(_) => 2,
            JobFault::OutOfMemory => 2,
            JobFault::Output => 4,
        }
    }
}

impl From<AllocError> for JobFault {
    ghost use Rattle.lvl_job.specs.declared.fault.JobFault.TheVariants.{OutOfMemory};

    ghost from_gives = { λ _ fault. fault ≡ OutOfMemory };

    fn from(_error: AllocError) -> JobFault {
        JobFault::OutOfMemory
    }
}
