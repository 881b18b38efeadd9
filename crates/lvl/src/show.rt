//! Shows one layout: reads it, checks it, and counts its cells and rings.
ghost use Rattle.std.specs.Prelude.{◌≡◌, IfOk, IfErr, option_copied};
ghost use Rattle.lvl.specs.Readers.{IsFoundBy, input};
ghost use Rattle.lvl.specs.Shown.{IsShownFile, IsShownKept, IsShowRefusal};
ghost use Rattle.lvl.specs.Sides.{kept_named};

use crate::layout::Head;
use crate::shown::{Shown, top_name};
use crate::side::{check_named, fit_side, read_side};
use crate::verdict::Refusal;
use lvl_cells::Library;
use lvl_count::rings_by_layer;
use lvl_io::Read;
use lvl_profile::{Limits, Profile};
use lvl_region::Side;
use std::alloc::Global;

/// What is shown of a library that was read with this head.
fn show_library(
    alloc: Global,
    head: Head,
    limits: Limits,
    library: Library,
    top: Option<&[u8]>,
) -> Result<Shown, Refusal>
    ensures head { IfOk result (λ shown. shown.head ≡ head) }
    ensures shown { IfOk result (IsShownKept (kept_named limits library (option_copied top.entry))) }
    ensures refused { IfErr result (IsShowRefusal (kept_named limits library (option_copied top.entry))) }
{
    let checked = check_named(alloc, Side::First, limits, library, top)?;
    let Ok(top) = top_name(alloc, &checked) else {
        return Err(Refusal::OutOfMemory);
    };
    let fitted = fit_side(alloc, Side::First, checked)?;
    let checked = fitted.checked();
    let Ok(layers) = rings_by_layer(alloc, checked) else {
        return Err(Refusal::OutOfMemory);
    };
    Ok(Shown {
        head,
        top,
        cells: checked.cells().len(),
        layers,
    })
}

/// What a file has: its head, the name of its top, the number of its cells, and the number of rings that
/// the top places on each Layer. A refusal is of [`Side::First`]; unless it is out of memory or a failed
/// read, the file isn't accepted.
///
/// `bytes` is a file that draws one square:
///
/// ```
/// use lvl::show_file;
/// use lvl_profile::Profile;
/// use lvl_io::fake::Pieces;
///
/// let mut reader = Pieces::new(&bytes, usize::MAX);
/// let shown = show_file(alloc, &mut reader, None, Profile::STANDARD)?;
/// assert_eq!(rt; shown.layers.first().map(|layer| layer.rings), Some(1));
/// ```
pub fn show_file<R: Read>(
    alloc: Global,
    reader: &mut R,
    top: Option<&[u8]>,
    profile: Profile,
) -> Result<Shown, Refusal>
    ensures { IsFoundBy IsShownFile (input profile (R.remaining reader.old) (R.remaining reader.new)
        (R.read_errors reader.old) (R.read_errors reader.new) (option_copied top.entry)) result }
{
    let (library, head) = read_side(alloc, Side::First, reader, profile)?;
    show_library(alloc, head, profile.limits, library, top)
}
