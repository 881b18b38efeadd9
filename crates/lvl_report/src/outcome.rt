//! How a run with an answer ends.
ghost use Rattle.std.specs.Prelude.{◌≡◌};
ghost use Rattle.lvl_report.specs.Hints.{hint_in};
ghost use Rattle.lvl_report.specs.Writing.{shown_status, status_of, verdict_status};

use crate::hint::{Hint, hint_of};
use crate::status::Status;
use lvl::{Answer, Refusal, Verdict};
use lvl_profile::Profile;

/// Which answer was written; if it is a refusal, what would mend it; and what else is to be said, as lines: if the
/// grid steps of the two files differ, that they do, beside a verdict or in place of one; beside a verdict that a
/// source of the map says nothing of the second file; and if a file is refused since several cells could be its top,
/// which these are.
#[derive(Debug, Drop, PartialEq, Eq)]
pub struct Outcome {
    pub status: Status,
    pub hint: Option<Hint>,
    pub line: Option<Vec<u8>>,
}

fn verdict_status(verdict: &Verdict) -> Status
    ensures { result ≡ verdict_status verdict.now }
{
    match verdict {
        Verdict::Same => Status::Same,
        Verdict::Differ { .. } => Status::Differ,
    }
}

/// The status of an answer on two files.
pub(crate) fn status_of(answer: &Result<Answer, Refusal>) -> Status
    ensures { result ≡ status_of answer.now }
{
    match answer {
        Ok(answer) => match &answer.judged {
            Some(judged) => verdict_status(&judged.verdict),
            None => Status::Refused,
        },
        Err(_) => Status::Refused,
    }
}

/// The status of an answer on one file.
pub(crate) fn shown_status<X>(answer: &Result<X, Refusal>) -> Status
    ensures { result ≡ shown_status answer.now }
{
    match answer {
        Ok(_) => Status::Shown,
        Err(_) => Status::Refused,
    }
}

/// The hint of an answer: that of a refusal.
pub(crate) fn hint_in<X>(profile: Profile, answer: &Result<X, Refusal>) -> Option<Hint>
    ensures { result ≡ hint_in profile answer.now }
{
    match answer {
        Ok(_) => None,
        Err(refusal) => hint_of(profile, refusal),
    }
}
