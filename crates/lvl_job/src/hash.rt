//! Hashes a file by its name.
ghost use Rattle.std.specs.Prelude.{option_copied};
ghost use Rattle.lvl_job.specs.Hashing.{IsHashed};

use crate::files::{Files, OpenFault};
use lvl::{Digested, Refusal, digest_file};
use lvl_profile::Profile;
use std::alloc::Global;

/// What became of a file: the answer of its digest, or why it can't be opened.
pub(crate) type Hash = Result<Result<Digested, Refusal>, OpenFault>;

/// Opens the file of a name, and hashes what it draws.
pub(crate) fn hash_file<F: Files>(
    alloc: Global,
    name: &str,
    top: Option<&[u8]>,
    profile: Profile,
    files: &mut F,
) -> Hash
    ensures { IsHashed F.opens (record { profile = profile; name = name.now; top = option_copied top.entry })
        files.old files.new result }
{
    match files.open(name) {
        Ok(mut file) => Ok(digest_file(alloc, &mut file, top, profile)),
        Err(why) => Err(why),
    }
}
