//! Lists the digests of files.
ghost use Rattle.std.specs.Prelude.{◌≡◌, IfOk, option_copied};
ghost use Rattle.lvl_io.specs.Bytes.{CountsFailure};
ghost use Rattle.lvl_job.specs.Ends.{is_cut};
ghost use Rattle.lvl_job.specs.Listing.{listed_status, listed_text, unlisted_text};
ghost use Rattle.lvl_job.specs.inside.Loops.{IsFileListed, IsListing};
ghost use Rattle.lvl_job.specs.inside.Steps.{IsNoted, IsPut};

use crate::fault::JobFault;
use crate::files::Files;
use crate::hash::{Hash, hash_file};
use crate::said::{Said, put, say_more};
use crate::texts::{listed_status, listed_text, unlisted_text, worse};
use lvl_io::Write;
use lvl_profile::Profile;
use lvl_report::{Outcome, Status};
use std::alloc::Global;

/// Writes the line of a file that was hashed to `out`, or why it has none to `err`, and returns its status.
fn list_one<O: Write, E: Write>(
    alloc: Global,
    name: &str,
    hash: &Hash,
    out: &mut O,
    err: &mut E,
    said: &mut Said,
) -> Result<Status, JobFault>
    ensures status { IfOk result (λ status. status ≡ listed_status hash.now) }
    ensures written { IsPut (listed_text name.now hash.now) (O.contents out.old) (O.contents out.new) result }
    ensures noted { IsNoted (unlisted_text name.now hash.now)
        (record { so_far = said.old; contents = E.contents err.old; errors = E.write_errors err.old })
        (record { so_far = said.new; contents = E.contents err.new; errors = E.write_errors err.new }) result }
    ensures errors { CountsFailure (O.write_errors out.old) (O.write_errors out.new) (is_cut result) }
{
    let line = listed_text(alloc, name, hash)?;
    let note = unlisted_text(alloc, name, hash)?;
    put(out, &line)?;
    say_more(err, said, &note);
    Ok(listed_status(hash))
}

/// Hashes the file of a name, and lists it as [`list_one`] does.
fn list_file<F: Files, O: Write, E: Write>(
    alloc: Global,
    name: &str,
    top: Option<&[u8]>,
    profile: Profile,
    files: &mut F,
    out: &mut O,
    err: &mut E,
    said: &mut Said,
) -> Result<Status, JobFault>
    ensures listed { IsFileListed F.opens
        (record { profile = profile; name = name.now; top = option_copied top.entry }) files.old files.new
        (O.contents out.old) (O.contents out.new)
        (record { so_far = said.old; contents = E.contents err.old; errors = E.write_errors err.old })
        (record { so_far = said.new; contents = E.contents err.new; errors = E.write_errors err.new }) result }
    ensures errors { CountsFailure (O.write_errors out.old) (O.write_errors out.new) (is_cut result) }
{
    let hash = hash_file(alloc, name, top, profile, files);
    list_one(alloc, name, &hash, out, err, said)
}

/// Hashes the files of these names in order, and writes a line of each to `out`, or why it has none to `err`.
pub(crate) fn list<F: Files, O: Write, E: Write>(
    alloc: Global,
    names: &[String],
    top: Option<&[u8]>,
    profile: Profile,
    files: &mut F,
    out: &mut O,
    err: &mut E,
    said: &mut Said,
) -> Result<Outcome, JobFault>
    ensures listing { IsListing F.opens names.now profile (option_copied top.entry) files.old files.new
        (O.contents out.old) (O.contents out.new)
        (record { so_far = said.old; contents = E.contents err.old; errors = E.write_errors err.old })
        (record { so_far = said.new; contents = E.contents err.new; errors = E.write_errors err.new }) result }
    ensures errors { CountsFailure (O.write_errors out.old) (O.write_errors out.new) (is_cut result) }
{
    let mut status = Status::Shown;
    for name in names {
        match list_file(alloc, name.as_str(), top, profile, files, out, err, said) {
            Ok(found) => status = worse(status, found),
            Err(fault) => return Err(fault),
        }
    }
    Ok(Outcome {
        status,
        hint: None,
        line: None,
    })
}
