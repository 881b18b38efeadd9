//! Does a job.
ghost use Rattle.std.specs.Prelude.{◌≡◌, true, Ok, IfOk, IfErr, option_map, string_bytes};
ghost use Rattle.lvl.specs.Sides.{given_name};
ghost use Rattle.lvl_io.specs.Bytes.{CountsFailure};
ghost use Rattle.lvl_job.specs.Done.{IsDone, IsOneDone, change};
ghost use Rattle.lvl_job.specs.Ends.{end_code, is_cut};
ghost use Rattle.lvl_job.specs.Jobs.{IsFaultOfJob, IsFileDone, IsFileFault, IsIgnoreAsked, IsJobRun, IsProfileAsked};
ghost use Rattle.lvl_job.specs.Jobs.{has_one_answer};
ghost use Rattle.lvl_job.specs.Opening.{held_by_job, why_unopened};
ghost use Rattle.lvl_job.specs.inside.Parts.{IsNoIgnore, IsViewFault, fault_of_run};
ghost use Rattle.lvl_view.specs.Views.{IsViewOf};

use crate::fault::JobFault;
use crate::files::Files;
use crate::lists::{Asked, do_check, do_list};
use crate::looked::{paths_of, say_answer};
use crate::pair::compare;
use crate::said::say;
use lvl::{Question, Tops};
use lvl_io::Write;
use lvl_line::Job;
use lvl_profile::{Ignore, Limits, Profile};
use lvl_refusal::Cause;
use lvl_report::{Outcome, Request, RunFault, Wanted, run_file};
use lvl_view::View;
use std::alloc::Global;

/// Opens the file of this name.
pub(crate) fn open<F: Files>(files: &mut F, name: String) -> Result<F::File, JobFault>
    ensures opened { F.opens files.old (string_bytes name) (held_by_job F.File.remaining result) files.new }
    ensures fresh { IfOk result (λ file. F.File.read_errors file ≡ 0) }
    ensures missing { IfErr result (λ fault. fault ≡ JobFault.NotOpened name (why_unopened fault)) }
{
    match files.open(name.as_str()) {
        Ok(file) => Ok(file),
        Err(why) => Err(JobFault::NotOpened(name, why)),
    }
}

/// The name of a top in bytes.
pub(crate) fn top_of(name: Option<String>) -> Option<Vec<u8>>
    ensures { given_name result ≡ option_map string_bytes name }
{
    match name {
        Some(name) => Some(name.into_bytes()),
        None => None,
    }
}

/// The view that the texts of a map and a window give.
fn view_of(alloc: Global, map: &Option<String>, window: &Option<String>) -> Result<View, JobFault>
    ensures view { IfOk result (IsViewOf (option_map string_bytes map.now) (option_map string_bytes window.now)) }
    ensures fault { IfErr result (IsViewFault (option_map string_bytes map.now) (option_map string_bytes window.now)) }
{
    match View::read(alloc, map.as_deref(), window.as_deref()) {
        Ok(view) => Ok(view),
        Err(Cause::Breach(fault)) => Err(JobFault::BadView(fault)),
        Err(Cause::OutOfMemory) => Err(JobFault::OutOfMemory),
    }
}

/// The set that a text of what is ignored gives; empty if there is no text.
fn ignore_of(alloc: Global, text: &Option<String>) -> Result<Ignore, JobFault>
    ensures asked { IfOk result (IsIgnoreAsked (option_map string_bytes text.now)) }
    ensures fault { IfErr result (IsNoIgnore (option_map string_bytes text.now)) }
{
    let Some(text) = text else {
        return Ok(Ignore::NOTHING);
    };
    match Ignore::read(alloc, text.as_str()) {
        Ok(ignore) => Ok(ignore),
        Err(Cause::Breach(fault)) => Err(JobFault::BadIgnore(fault)),
        Err(Cause::OutOfMemory) => Err(JobFault::OutOfMemory),
    }
}

/// The profile that is asked for: the text of what is ignored, whether the limits are those for whole chips, and
/// whether compressed blocks are read.
pub(crate) fn profile_of(
    alloc: Global,
    ignored: &Option<String>,
    large: bool,
    unpack: bool,
) -> Result<Profile, JobFault>
    ensures asked { IfOk result (IsProfileAsked (option_map string_bytes ignored.now) large unpack) }
    ensures fault { IfErr result (IsNoIgnore (option_map string_bytes ignored.now)) }
{
    let ignore = ignore_of(alloc, ignored)?;
    let limits = if large {
        Limits::LARGE
    } else {
        Limits::STANDARD
    };
    Ok(Profile {
        ignore,
        limits,
        unpack,
    })
}

/// The fault of a run as one of its job.
pub(crate) fn fault_of(fault: RunFault) -> JobFault
    ensures { result ≡ fault_of_run fault }
{
    match fault {
        RunFault::Output => JobFault::Output,
        RunFault::OutOfMemory => JobFault::OutOfMemory,
    }
}

/// Writes what is wanted of the file of a name.
fn inspect<F: Files, O: Write>(
    alloc: Global,
    name: String,
    wanted: Wanted,
    asked: Asked,
    files: &mut F,
    out: &mut O,
) -> Result<Outcome, JobFault>
    ensures answered { IfOk result (λ outcome. IsFileDone F.opens wanted name asked.top asked.ignore asked.large
        asked.unpack files.old files.new
        (O.contents out.old) (O.contents out.new) (Ok outcome)) }
    ensures fault { IfErr result (IsFileFault F.opens wanted name asked.top asked.ignore asked.large
        asked.unpack files.old files.new
        (O.contents out.old) (O.contents out.new)) }
    ensures errors { CountsFailure (O.write_errors out.old) (O.write_errors out.new) (is_cut result) }
{
    let profile = profile_of(alloc, &asked.ignore, asked.large, asked.unpack)?;
    let top = top_of(asked.top);
    let mut file = open(files, name)?;
    let request = Request {
        wanted,
        top: top.as_deref(),
        profile,
    };
    match run_file(alloc, &mut file, &request, out) {
        Ok(outcome) => Ok(outcome),
        Err(fault) => Err(fault_of(fault)),
    }
}

/// Does a job that has one answer, and writes nothing to standard error.
fn perform<F: Files, O: Write>(
    alloc: Global,
    job: Job,
    files: &mut F,
    out: &mut O,
) -> Result<Outcome, JobFault>
    requires { has_one_answer job ≡ true }
    ensures answered { IfOk result (λ outcome. IsJobRun F.opens job files.old files.new
        (O.contents out.old) (O.contents out.new) (Ok outcome)) }
    ensures fault { IfErr result (IsFaultOfJob F.opens job files.old files.new
        (O.contents out.old) (O.contents out.new)) }
    ensures errors { CountsFailure (O.write_errors out.old) (O.write_errors out.new) (is_cut result) }
{
    match job {
        Job::Compare {
            first,
            second,
            top_a,
            top_b,
            map,
            window,
            ignore,
            large,
            unpack,
            why,
            units,
        } => {
            let view = view_of(alloc, &map, &window)?;
            let profile = profile_of(alloc, &ignore, large, unpack)?;
            let tops = Tops {
                first: top_of(top_a),
                second: top_of(top_b),
            };
            let question = Question {
                tops: &tops,
                view: &view,
                profile,
                why,
                units,
            };
            compare(alloc, (first, second), &question, files, out)
        }
        Job::Show {
            file,
            top,
            ignore,
            large,
            unpack,
        } => {
            let asked = Asked {
                top,
                ignore,
                large,
                unpack,
            };
            inspect(alloc, file, Wanted::Show, asked, files, out)
        }
        Job::Digest {
            file,
            top,
            ignore,
            large,
            unpack,
        } => {
            let asked = Asked {
                top,
                ignore,
                large,
                unpack,
            };
            inspect(alloc, file, Wanted::Digest, asked, files, out)
        }
        Job::Cells {
            file,
            ignore,
            large,
            unpack,
        } => {
            let asked = Asked {
                top: None,
                ignore,
                large,
                unpack,
            };
            inspect(alloc, file, Wanted::Cells, asked, files, out)
        }
        Job::List { .. } | Job::Check { .. } => unreachable!(),
    }
}

/// Does a job that has one answer.
fn answer<F: Files, O: Write, E: Write>(
    alloc: Global,
    job: Job,
    files: &mut F,
    out: &mut O,
    err: &mut E,
) -> Result<Outcome, JobFault>
    requires { has_one_answer job ≡ true }
    ensures done { IsOneDone F.opens F.looks job files.old files.new
        (change (O.contents out.old) (O.contents out.new) (O.write_errors out.old) (O.write_errors out.new))
        (change (E.contents err.old) (E.contents err.new) (E.write_errors err.old) (E.write_errors err.new)) result }
    ensures errors { CountsFailure (O.write_errors out.old) (O.write_errors out.new) (is_cut result) }
{
    let Ok(paths) = paths_of(alloc, &job) else {
        say(err, &JobFault::OutOfMemory);
        return Err(JobFault::OutOfMemory);
    };
    let ended = perform(alloc, job, files, out);
    say_answer(files, &paths, &ended, err);
    ended
}

/// Does a job: reads the texts of its view and of what is ignored, takes the limits that it asks for, opens its files
/// by `files`, the first before the second, and writes its answer to `out`. If there is no answer, it writes one line
/// to `err` that says why, and some reasons on a second one; if the answer is a refusal that something would mend, one
/// line that says what, with the name of the only file; if it is a refusal since several cells could be the top, one
/// line that names these; if it is a verdict on files whose grid steps differ, or if they aren't compared since these
/// must agree, one line that says so; and if it is a verdict under a map with a source on which no cell of the second
/// file has a shape, one line that names it. After a refusal that none of these lines explains, its files are looked
/// at, and one line is written for each that is a directory or gzipped.
///
/// It writes an answer that [`run_question`](lvl_report::run_question) or [`run_file`] may write for these files.
///
/// A list of digests has a line for each file that has one, in the order of the files; why a file has none is a line
/// on `err`. To check a list it first reads the whole list. If a line of it is bad, it opens no other file. Then it
/// hashes the files that the list names, one after another, and writes a line for each; the last line on `err` counts
/// those that aren't the same. The status is the greatest of all files. One file is in memory at a time.
pub fn do_job<F: Files, O: Write, E: Write>(
    alloc: Global,
    job: Job,
    files: &mut F,
    out: &mut O,
    err: &mut E,
) -> Result<Outcome, JobFault>
    ensures done { IsDone F.opens F.looks job files.old files.new
        (change (O.contents out.old) (O.contents out.new) (O.write_errors out.old) (O.write_errors out.new))
        (change (E.contents err.old) (E.contents err.new) (E.write_errors err.old) (E.write_errors err.new)) result }
    ensures errors { CountsFailure (O.write_errors out.old) (O.write_errors out.new) (is_cut result) }
{
    match job {
        Job::List {
            files: names,
            top,
            ignore,
            large,
            unpack,
        } => {
            let asked = Asked {
                top,
                ignore,
                large,
                unpack,
            };
            do_list(alloc, &names, asked, files, out, err)
        }
        Job::Check {
            list,
            quiet,
            top,
            ignore,
            large,
            unpack,
        } => {
            let asked = Asked {
                top,
                ignore,
                large,
                unpack,
            };
            do_check(alloc, list, quiet, asked, files, out, err)
        }
        job => answer(alloc, job, files, out, err),
    }
}

/// The exit status of a job that ended in this way.
pub fn code_of(ended: &Result<Outcome, JobFault>) -> u8
    ensures { result ≡ end_code ended.now }
{
    match ended {
        Ok(outcome) => outcome.status.code(),
        Err(fault) => fault.code(),
    }
}
