//! The digest of one layout: the file is read and checked, and what it draws is hashed strip by strip.
ghost use Rattle.std.specs.Prelude.{◌≡◌, IfOk, IfErr, option_copied};
ghost use Rattle.lvl.specs.Digested.{DigestsDecide, IsDigestedFile, IsDigestedKept};
ghost use Rattle.lvl.specs.Readers.{IsFoundBy, input};
ghost use Rattle.lvl.specs.Shown.{IsShowRefusal};
ghost use Rattle.lvl.specs.Sides.{kept_named};

use crate::digested::{Digested, digest_fitted};
use crate::layout::Head;
use crate::shown::top_name;
use crate::side::{check_named, fit_side, read_side};
use crate::verdict::Refusal;
use lvl_cells::Library;
use lvl_corners::masks_decide;
use lvl_io::Read;
use lvl_profile::{Limits, Profile};
use lvl_region::Side;
use std::alloc::Global;

/// The digest of a library that was read with this head.
fn digest_library(
    alloc: Global,
    head: Head,
    limits: Limits,
    library: Library,
    top: Option<&[u8]>,
) -> Result<Digested, Refusal>
    ensures head { IfOk result (λ digested. digested.head ≡ head) }
    ensures digested { IfOk result (IsDigestedKept (kept_named limits library (option_copied top.entry))) }
    ensures refused { IfErr result (IsShowRefusal (kept_named limits library (option_copied top.entry))) }
{
    let checked = check_named(alloc, Side::First, limits, library, top)?;
    let Ok(top) = top_name(alloc, &checked) else {
        return Err(Refusal::OutOfMemory);
    };
    let fitted = fit_side(alloc, Side::First, checked)?;
    let Ok(mask) = digest_fitted(alloc, &fitted) else {
        return Err(Refusal::OutOfMemory);
    };
    Ok(Digested { head, top, mask })
}

/// The digest of what a file draws: its head, the name of its top, the digest of each Layer on which the
/// top covers a square, and the SHA-256 of the lines of these Layers. A refusal is of [`Side::First`]; unless
/// it is out of memory or a failed read, the file isn't accepted.
///
/// Except for a collision of SHA-256, two files draw the same mask exactly if that SHA-256 is the same, as
/// [`digests_decide`] says. Only what is drawn in one strip is in memory.
///
/// `bytes` is a file that draws one square:
///
/// ```
/// use lvl::digest_file;
/// use lvl_profile::Profile;
/// use lvl_io::fake::Pieces;
///
/// let mut reader = Pieces::new(&bytes, usize::MAX);
/// let digested = digest_file(alloc, &mut reader, None, Profile::STANDARD)?;
/// assert_eq!(rt; digested.mask.layers.len(), 1);
/// ```
pub fn digest_file<R: Read>(
    alloc: Global,
    reader: &mut R,
    top: Option<&[u8]>,
    profile: Profile,
) -> Result<Digested, Refusal>
    ensures { IsFoundBy IsDigestedFile (input profile (R.remaining reader.old) (R.remaining reader.new)
        (R.read_errors reader.old) (R.read_errors reader.new) (option_copied top.entry)) result }
{
    let (library, head) = read_side(alloc, Side::First, reader, profile)?;
    digest_library(alloc, head, profile.limits, library, top)
}

/// Two files draw the same mask if and only if their digests are the same, except for a collision of
/// SHA-256. If both tops cover the same squares on every Layer, the digests are the same. If the SHA-256 of
/// both masks is the same though the tops don't cover the same, then two different texts with one SHA-256 are
/// in hand: the lines of the Layers, or the bytes of some Layer with the corners of what each top covers
/// there. This function states the law and computes nothing.
pub fn digests_decide()
    ensures { DigestsDecide }
{
    masks_decide()
}
