//! What is said of the answer of a job, with the names of its files: a hint names the only one, and after a refusal that
//! nothing else explains they are looked at again.
ghost use Rattle.std.specs.Prelude.{◌≡◌, ◌++◌, ℕ, List, [], Option, IfOk, codes, option_map};
ghost use Rattle.lvl_job.specs.Ends.{IsSaid, end_text, front_of_line, is_looked_at, said_of};
ghost use Rattle.lvl_job.specs.Jobs.{files_of};
ghost use Rattle.lvl_job.specs.inside.Looks.{IsAnswerSaid, IsFileLooked, IsToldOf, in_order};
ghost use Rattle.lvl_job.specs.inside.Steps.{IsSaidBy, Says};

use crate::fault::JobFault;
use crate::files::{Files, Look};
use crate::said::{Said, say, say_more, say_words};
use lvl_io::Write;
use lvl_line::Job;
use lvl_report::{Hint, Outcome, Status};
use std::alloc::{AllocError, Global};

/// The names of the files of a job that has one answer, in their order; none for a job on a list.
#[derive(Drop)]
pub(crate) enum Paths {
    None,
    One(String),
    Two(String, String),
}

/// The names of the files of a job.
pub(crate) fn paths_of(alloc: Global, job: &Job) -> Result<Paths, AllocError>
    ensures { IfOk result (λ paths. in_order paths ≡ files_of job.now) }
{
    match job {
        Job::Compare { first, second, .. } => Ok(Paths::Two(
            String::from_str(alloc, first.as_str())?,
            String::from_str(alloc, second.as_str())?,
        )),
        Job::Show { file, .. } | Job::Digest { file, .. } | Job::Cells { file, .. } => {
            Ok(Paths::One(String::from_str(alloc, file.as_str())?))
        }
        Job::List { .. } | Job::Check { .. } => Ok(Paths::None),
    }
}

/// Says what a file of this name is.
fn say_of<E: Write>(err: &mut E, said: &mut Said, name: &str, what: &str)
    ensures { Says (codes "lvl: " ++ name.now ++ what.now)
        (record { so_far = said.old; contents = E.contents err.old; errors = E.write_errors err.old })
        (record { so_far = said.new; contents = E.contents err.new; errors = E.write_errors err.new }) }
{
    say_more(err, said, b"lvl: ");
    say_more(err, said, name.as_bytes());
    say_more(err, said, what.as_bytes());
}

/// Says the front of a line: the name of the only file, if there is one.
fn say_front<E: Write>(err: &mut E, said: &mut Said, paths: &Paths)
    ensures { Says (front_of_line (in_order paths.now))
        (record { so_far = said.old; contents = E.contents err.old; errors = E.write_errors err.old })
        (record { so_far = said.new; contents = E.contents err.new; errors = E.write_errors err.new }) }
{
    match paths {
        Paths::One(name) => say_of(err, said, name.as_str(), ": "),
        Paths::None => say_more(err, said, b"lvl: "),
        Paths::Two(..) => say_more(err, said, b"lvl: "),
    }
}

/// Looks at a file, and says what it is if that explains why it is refused.
fn look_at<F: Files, E: Write>(files: &F, name: &str, err: &mut E, said: &mut Said)
    ensures { IsFileLooked F.looks files.now name.now
        (record { so_far = said.old; contents = E.contents err.old; errors = E.write_errors err.old })
        (record { so_far = said.new; contents = E.contents err.new; errors = E.write_errors err.new }) }
{
    match files.look(name) {
        Look::Directory => say_of(err, said, name, " is a directory\n"),
        Look::Gzip => say_of(err, said, name, " is compressed (gzip): unpack it first\n"),
        Look::Plain => {}
    }
}

/// Looks at all files in their order.
fn look_at_all<F: Files, E: Write>(files: &F, paths: &Paths, err: &mut E, said: &mut Said)
    ensures { IsToldOf F.looks files.now (in_order paths.now)
        (record { so_far = said.old; contents = E.contents err.old; errors = E.write_errors err.old })
        (record { so_far = said.new; contents = E.contents err.new; errors = E.write_errors err.new }) }
{
    match paths {
        Paths::None => {}
        Paths::One(name) => look_at(files, name.as_str(), err, said),
        Paths::Two(first, second) => {
            look_at(files, first.as_str(), err, said);
            look_at(files, second.as_str(), err, said);
        }
    }
}

/// Whether nothing explains a refusal: it has no hint, or only that at another format, and no line.
fn is_looked_at(outcome: &Outcome) -> bool
    ensures { result ≡ is_looked_at outcome.now }
{
    match (outcome.status, outcome.hint, &outcome.line) {
        (Status::Refused, None | Some(Hint::Foreign), None) => true,
        _ => false,
    }
}

/// Writes on one line what would mend a refusal, if anything would, or else the line of the outcome: which cells could be
/// the top, or that the grid steps of two files differ. If that fails, nothing more is written.
fn say_outcome<E: Write>(err: &mut E, said: &mut Said, paths: &Paths, outcome: &Outcome)
    ensures { Says (said_of (in_order paths.now) outcome.now.hint (option_map (λ text. text.items) outcome.now.line))
        (record { so_far = said.old; contents = E.contents err.old; errors = E.write_errors err.old })
        (record { so_far = said.new; contents = E.contents err.new; errors = E.write_errors err.new }) }
{
    if let Some(hint) = outcome.hint {
        say_front(err, said, paths);
        return say_words(err, said, hint);
    }
    if let Some(text) = &outcome.line {
        say_more(err, said, text);
    }
}

/// Writes why a job has no answer, or what [`say_outcome`] writes, and what its files are if nothing else explains a
/// refusal.
pub(crate) fn say_answer<F: Files, E: Write>(
    files: &F,
    paths: &Paths,
    ended: &Result<Outcome, JobFault>,
    err: &mut E,
)
    ensures { IsAnswerSaid F.looks files.now (in_order paths.now) ended.now
        (E.contents err.old) (E.contents err.new) (E.write_errors err.old) (E.write_errors err.new) }
{
    let outcome = match ended {
        Ok(outcome) => outcome,
        Err(fault) => return say(err, fault),
    };
    let mut said = Ok(());
    say_outcome(err, &mut said, paths, outcome);
    if is_looked_at(outcome) {
        look_at_all(files, paths, err, &mut said);
    }
}

/// Writes what [`say_outcome`] says of a job on a list.
fn say_listed<E: Write>(err: &mut E, outcome: &Outcome)
    ensures { IsSaid (said_of [] outcome.now.hint (option_map (λ text. text.items) outcome.now.line))
        (E.contents err.old) (E.contents err.new) (E.write_errors err.old) (E.write_errors err.new) }
{
    let mut said = Ok(());
    say_outcome(err, &mut said, &Paths::None, outcome);
}

/// Writes on one line why a job on a list has no answer, or what [`say_listed`] writes; nothing if a write failed before.
pub(crate) fn say_end<E: Write>(err: &mut E, said: &Said, ended: &Result<Outcome, JobFault>)
    ensures { (front : List ℕ) (old : Option (List ℕ)) (before : ℕ)
        → IsSaidBy front old before
        (record { so_far = said.now; contents = E.contents err.old; errors = E.write_errors err.old })
        → IsSaid (front ++ end_text [] ended.now) old (E.contents err.new) before (E.write_errors err.new) }
{
    if said.is_err() {
        return;
    }
    match ended {
        Ok(outcome) => say_listed(err, outcome),
        Err(fault) => say(err, fault),
    }
}
