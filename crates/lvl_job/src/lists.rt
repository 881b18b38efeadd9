//! The jobs on several files: to list their digests, and to check a list.
ghost use Rattle.std.specs.Prelude.{option_copied, option_map, string_bytes};
ghost use Rattle.lvl_io.specs.Bytes.{CountsFailure};
ghost use Rattle.lvl_job.specs.Done.{IsCheckDone, IsListDone, change};
ghost use Rattle.lvl_job.specs.Ends.{is_cut};
ghost use Rattle.lvl_job.specs.inside.Told.{IsCheckTold, IsEntriesTold, IsListTold, IsSummary};

use crate::checking::{Tally, check, read_entries};
use crate::fault::JobFault;
use crate::files::Files;
use crate::job::{profile_of, top_of};
use crate::listing::list;
use crate::looked::say_end;
use crate::said::{Said, say_more};
use crate::texts::summary_text;
use lvl_io::Write;
use lvl_list::Entry;
use lvl_profile::Profile;
use lvl_report::Outcome;
use std::alloc::Global;

/// What a job on several files asks for of each.
#[derive(Drop)]
pub(crate) struct Asked {
    pub(crate) top: Option<String>,
    pub(crate) ignore: Option<String>,
    pub(crate) large: bool,
    pub(crate) unpack: bool,
}

/// Lists the digests of files. `said` is whether all was said so far.
fn list_under<F: Files, O: Write, E: Write>(
    alloc: Global,
    names: &[String],
    asked: Asked,
    files: &mut F,
    out: &mut O,
    err: &mut E,
    said: &mut Said,
) -> Result<Outcome, JobFault>
    ensures told { IsListTold F.opens names.now (option_map string_bytes asked.top)
        asked.ignore asked.large asked.unpack
        files.old files.new (O.contents out.old) (O.contents out.new)
        (record { so_far = said.old; contents = E.contents err.old; errors = E.write_errors err.old })
        (record { so_far = said.new; contents = E.contents err.new; errors = E.write_errors err.new }) result }
    ensures errors { CountsFailure (O.write_errors out.old) (O.write_errors out.new) (is_cut result) }
{
    let profile = profile_of(alloc, &asked.ignore, asked.large, asked.unpack)?;
    let top = top_of(asked.top);
    list(alloc, names, top.as_deref(), profile, files, out, err, said)
}

/// Says how many of the files of a list aren't the same, and ends the check. The list has `all` files.
fn say_summary<E: Write>(
    alloc: Global,
    tally: Tally,
    all: usize,
    err: &mut E,
    said: &mut Said,
) -> Result<Outcome, JobFault>
    ensures { IsSummary tally all
        (record { so_far = said.old; contents = E.contents err.old; errors = E.write_errors err.old })
        (record { so_far = said.new; contents = E.contents err.new; errors = E.write_errors err.new }) result }
{
    let Ok(summary) = summary_text(alloc, tally.unlike, all) else {
        return Err(JobFault::OutOfMemory);
    };
    say_more(err, said, &summary);
    Ok(Outcome {
        status: tally.status,
        hint: None,
        line: None,
    })
}

/// Checks the files of a list, and says how many of them aren't the same.
fn check_entries<F: Files, O: Write, E: Write>(
    alloc: Global,
    entries: &[Entry],
    quiet: bool,
    top: Option<&[u8]>,
    profile: Profile,
    files: &mut F,
    out: &mut O,
    err: &mut E,
    said: &mut Said,
) -> Result<Outcome, JobFault>
    ensures told { IsEntriesTold F.opens entries.now quiet profile (option_copied top.entry)
        files.old files.new (O.contents out.old) (O.contents out.new)
        (record { so_far = said.old; contents = E.contents err.old; errors = E.write_errors err.old })
        (record { so_far = said.new; contents = E.contents err.new; errors = E.write_errors err.new }) result }
    ensures errors { CountsFailure (O.write_errors out.old) (O.write_errors out.new) (is_cut result) }
{
    match check(alloc, entries, quiet, top, profile, files, out) {
        Ok(tally) => say_summary(alloc, tally, entries.len(), err, said),
        Err(fault) => Err(fault),
    }
}

/// Reads a list, and checks its files.
fn check_under<F: Files, O: Write, E: Write>(
    alloc: Global,
    list: String,
    quiet: bool,
    asked: Asked,
    files: &mut F,
    out: &mut O,
    err: &mut E,
    said: &mut Said,
) -> Result<Outcome, JobFault>
    ensures told { IsCheckTold F.opens (string_bytes list) quiet (option_map string_bytes asked.top)
        asked.ignore asked.large asked.unpack
        files.old files.new (O.contents out.old) (O.contents out.new)
        (record { so_far = said.old; contents = E.contents err.old; errors = E.write_errors err.old })
        (record { so_far = said.new; contents = E.contents err.new; errors = E.write_errors err.new }) result }
    ensures errors { CountsFailure (O.write_errors out.old) (O.write_errors out.new) (is_cut result) }
{
    let profile = profile_of(alloc, &asked.ignore, asked.large, asked.unpack)?;
    let top = top_of(asked.top);
    match read_entries(alloc, list, profile.limits.file, files) {
        Ok(entries) => check_entries(
            alloc,
            &entries,
            quiet,
            top.as_deref(),
            profile,
            files,
            out,
            err,
            said,
        ),
        Err(fault) => Err(fault),
    }
}

/// Lists the digests of files, and says why a file has none.
pub(crate) fn do_list<F: Files, O: Write, E: Write>(
    alloc: Global,
    names: &[String],
    asked: Asked,
    files: &mut F,
    out: &mut O,
    err: &mut E,
) -> Result<Outcome, JobFault>
    ensures done { IsListDone F.opens names.now (option_map string_bytes asked.top)
        asked.ignore asked.large asked.unpack
        files.old files.new
        (change (O.contents out.old) (O.contents out.new) (O.write_errors out.old) (O.write_errors out.new))
        (change (E.contents err.old) (E.contents err.new) (E.write_errors err.old) (E.write_errors err.new)) result }
    ensures errors { CountsFailure (O.write_errors out.old) (O.write_errors out.new) (is_cut result) }
{
    let mut said = Ok(());
    let ended = list_under(alloc, names, asked, files, out, err, &mut said);
    say_end(err, &said, &ended);
    ended
}

/// Checks the files of a list, and says how many of them aren't the same.
pub(crate) fn do_check<F: Files, O: Write, E: Write>(
    alloc: Global,
    list: String,
    quiet: bool,
    asked: Asked,
    files: &mut F,
    out: &mut O,
    err: &mut E,
) -> Result<Outcome, JobFault>
    ensures done { IsCheckDone F.opens (string_bytes list) quiet (option_map string_bytes asked.top)
        asked.ignore asked.large asked.unpack
        files.old files.new
        (change (O.contents out.old) (O.contents out.new) (O.write_errors out.old) (O.write_errors out.new))
        (change (E.contents err.old) (E.contents err.new) (E.write_errors err.old) (E.write_errors err.new)) result }
    ensures errors { CountsFailure (O.write_errors out.old) (O.write_errors out.new) (is_cut result) }
{
    let mut said = Ok(());
    let ended = check_under(alloc, list, quiet, asked, files, out, err, &mut said);
    say_end(err, &said, &ended);
    ended
}
