//! Checks files against a list of their digests.
ghost use Rattle.std.specs.Prelude.{◌≡◌, IfOk, IfErr, length, option_copied, string_bytes};
ghost use Rattle.lvl_io.specs.Bytes.{CountsFailure};
ghost use Rattle.lvl_job.specs.Ends.{is_cut};
ghost use Rattle.lvl_job.specs.Listing.{checked_status, checked_text};
ghost use Rattle.lvl_job.specs.inside.Loops.{IsChecking, IsEntries, IsFileChecked, IsNoEntries};
ghost use Rattle.lvl_job.specs.inside.Steps.{IsPut};

use crate::fault::JobFault;
use crate::files::Files;
use crate::hash::{Hash, hash_file};
use crate::said::put;
use crate::texts::{checked_status, checked_text, unlike_of, worse};
use lvl_io::Write;
use lvl_list::{BadLine, Entry, TextFault, read_list, read_text};
use lvl_profile::Profile;
use lvl_refusal::Cause;
use lvl_report::Status;
use std::alloc::Global;

/// How the files of a list compare with it.
#[derive(Clone, Copy)]
pub(crate) struct Tally {
    /// The greatest status of a file.
    pub(crate) status: Status,
    /// How many files aren't the same.
    pub(crate) unlike: usize,
}

/// Reads the entries of the list in the file of a name, which may have at most `limit` bytes.
pub(crate) fn read_entries<F: Files>(
    alloc: Global,
    list: String,
    limit: u64,
    files: &mut F,
) -> Result<Vec<Entry>, JobFault>
    ensures read { IfOk result (λ entries.
        IsEntries F.opens (string_bytes list) files.old files.new entries.items) }
    ensures fault { IfErr result (IsNoEntries F.opens (string_bytes list) limit files.old files.new) }
{
    let mut file = match files.open(list.as_str()) {
        Ok(file) => file,
        Err(why) => return Err(JobFault::NotOpened(list, why)),
    };
    let text = match read_text(alloc, &mut file, limit) {
        Ok(text) => text,
        Err(TextFault::TooLong) => return Err(JobFault::LongList(list)),
        Err(TextFault::Read) => return Err(JobFault::UnreadList(list)),
        Err(TextFault::OutOfMemory) => return Err(JobFault::OutOfMemory),
    };
    match read_list(alloc, &text) {
        Ok(entries) => Ok(entries),
        Err(Cause::Breach(BadLine(line))) => Err(JobFault::BadLine(list, line)),
        Err(Cause::OutOfMemory) => Err(JobFault::OutOfMemory),
    }
}

/// Writes how a file that was hashed compares with its entry, and returns its status.
fn check_one<O: Write>(
    alloc: Global,
    quiet: bool,
    entry: &Entry,
    hash: &Hash,
    out: &mut O,
) -> Result<Status, JobFault>
    ensures status { IfOk result (λ status. status ≡ checked_status entry.now hash.now) }
    ensures written { IsPut (checked_text quiet entry.now hash.now) (O.contents out.old) (O.contents out.new) result }
    ensures errors { CountsFailure (O.write_errors out.old) (O.write_errors out.new) (is_cut result) }
{
    let status = checked_status(alloc, entry, hash)?;
    let line = checked_text(alloc, quiet, entry, status, hash)?;
    put(out, &line)?;
    Ok(status)
}

/// Hashes the file of an entry, and checks it as [`check_one`] does.
fn check_file<F: Files, O: Write>(
    alloc: Global,
    entry: &Entry,
    quiet: bool,
    top: Option<&[u8]>,
    profile: Profile,
    files: &mut F,
    out: &mut O,
) -> Result<Status, JobFault>
    ensures checked { IsFileChecked F.opens entry.now quiet
        (record { profile = profile; name = string_bytes entry.now.name; top = option_copied top.entry })
        files.old files.new (O.contents out.old) (O.contents out.new) result }
    ensures errors { CountsFailure (O.write_errors out.old) (O.write_errors out.new) (is_cut result) }
{
    let hash = hash_file(alloc, entry.name.as_str(), top, profile, files);
    check_one(alloc, quiet, entry, &hash, out)
}

/// Hashes the files of a list in order, and writes how each compares with its entry. If `quiet` is set, nothing is
/// written of files that are the same.
pub(crate) fn check<F: Files, O: Write>(
    alloc: Global,
    entries: &[Entry],
    quiet: bool,
    top: Option<&[u8]>,
    profile: Profile,
    files: &mut F,
    out: &mut O,
) -> Result<Tally, JobFault>
    ensures checking { IsChecking F.opens entries.now quiet profile (option_copied top.entry) files.old files.new
        (O.contents out.old) (O.contents out.new) result }
    ensures errors { CountsFailure (O.write_errors out.old) (O.write_errors out.new) (is_cut result) }
{
    let mut status = Status::Same;
    let mut unlike = 0;
    for entry in entries {
        match check_file(alloc, entry, quiet, top, profile, files, out) {
            Ok(found) => {
                status = worse(status, found);
                unlike += unlike_of(found);
            }
            Err(fault) => return Err(fault),
        }
    }
    Ok(Tally { status, unlike })
}
