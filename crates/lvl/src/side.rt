//! The steps for one of two files: read it, check its cells, test where its top places anything outside 64 bits, and
//! look for its shapes on the sources of a map.
ghost use Rattle.std.specs.Prelude.{◌≡◌, List, ℕ, Option, Some, None, IfOk, IfErr, IfSome, option_copied};
ghost use Rattle.lvl_cells.specs.Soundness.{AreReferred};
ghost use Rattle.lvl_count.specs.Drawn.{first_undrawn};
ghost use Rattle.lvl_count.specs.Listed.{tops};
ghost use Rattle.lvl_flat.specs.Flattened.{IsTopInRange};
ghost use Rattle.lvl_view.specs.Views.{sources};
ghost use Rattle.lvl.specs.Layouts.{IsLayoutOf};
ghost use Rattle.lvl.specs.Kept.{IsCheckedAs};
ghost use Rattle.lvl.specs.Readers.{IsReadBy, input, refusal_of};
ghost use Rattle.lvl.specs.Sides.{IsOfFile, IsCheckRefusal, IsFlattenRefusal, given_name, library_of};
ghost use Rattle.lvl.specs.Sides.{kept_named};
ghost use Rattle.lvl.specs.declared.verdict.Refusal.TheVariants.{OutOfMemory};

use crate::layout::{Head, read_layout_with};
use crate::verdict::{CellRefusal, Refusal};
use lvl_cells::{Checked, Library, Refused, check_or_return};
use lvl_count::{first_undrawn, top_names, unreferred_names};
use lvl_flat::Fitted;
use lvl_io::Read;
use lvl_names::{Layer, Name};
use lvl_profile::{Limits, Profile};
use lvl_refusal::Cause;
use lvl_region::Side;
use lvl_view::View;
use std::alloc::{AllocError, Global};

/// Reads a file, and returns its library and what it says about itself.
pub(crate) fn read_side<R: Read>(
    alloc: Global,
    side: Side,
    reader: &mut R,
    profile: Profile,
) -> Result<(Library, Head), Refusal>
    ensures read { (xs : List ℕ) → R.remaining reader.old ≡ Some xs
        → IfOk result (λ found. IsLayoutOf profile xs found.0 found.1) }
    ensures refused { (top : Option (List ℕ)) → IsReadBy side (input profile (R.remaining reader.old)
        (R.remaining reader.new) (R.read_errors reader.old) (R.read_errors reader.new) top) (refusal_of result) }
    ensures own { IfErr result (IsOfFile side) }
{
    match read_layout_with(alloc, reader, profile) {
        Ok(layout) => Ok(layout.into_parts()),
        Err(Cause::Breach(fault)) => Err(Refusal::File(side, fault)),
        Err(Cause::OutOfMemory) => Err(Refusal::OutOfMemory),
    }
}

/// The name that is given, as bytes.
fn name_of(top: &Option<Vec<u8>>) -> Option<&[u8]>
    ensures { option_copied result ≡ given_name top.now }
{
    match top {
        Some(name) => Some(name),
        None => None,
    }
}

/// The names of the cells to which no cell refers, if no top is named.
fn tops_of(alloc: Global, refused: &Refused, top: Option<&[u8]>) -> Result<Vec<Name>, AllocError>
    requires { IfSome refused.now.referred (λ marks. AreReferred refused.now.library marks.items) }
    ensures { IfOk result (λ names. option_copied top.entry ≡ None → names.items ≡ tops refused.now.library) }
{
    if top.is_some() {
        return Ok(Vec::new(alloc));
    }
    let cells = &refused.library.cells;
    match &refused.referred {
        Some(referred) => unreferred_names(alloc, cells, referred),
        None => top_names(alloc, cells),
    }
}

/// The library, if it is sound for the top of that name and within the limits.
pub(crate) fn check_named(
    alloc: Global,
    side: Side,
    limits: Limits,
    library: Library,
    top: Option<&[u8]>,
) -> Result<Checked, Refusal>
    ensures checked { IfOk result (IsCheckedAs (kept_named limits library (option_copied top.entry))) }
    ensures refused { IfErr result (IsCheckRefusal side (kept_named limits library (option_copied top.entry))) }
{
    match check_or_return(alloc, library, top, limits) {
        Ok(checked) => Ok(checked),
        Err(Cause::Breach(refused)) => {
            let Ok(tops) = tops_of(alloc, &refused, top) else {
                return Err(Refusal::OutOfMemory);
            };
            let fault = refused.fault;
            Err(Refusal::Cells(side, CellRefusal { fault, tops }))
        }
        Err(Cause::OutOfMemory) => Err(Refusal::OutOfMemory),
    }
}

/// The library, if it is sound for the top that is given and within the limits.
pub(crate) fn check_side(
    alloc: Global,
    side: Side,
    limits: Limits,
    library: Library,
    top: &Option<Vec<u8>>,
) -> Result<Checked, Refusal>
    ensures checked { IfOk result (IsCheckedAs (library_of limits library top.now)) }
    ensures refused { IfErr result (IsCheckRefusal side (library_of limits library top.now)) }
{
    check_named(alloc, side, limits, library, name_of(top))
}

/// The library, if what its top places fits in 64 bits.
pub(crate) fn fit_side(alloc: Global, side: Side, checked: Checked) -> Result<Fitted, Refusal>
    ensures same { IfOk result (λ fitted. fitted ≡ checked) }
    ensures in_range { IfOk result IsTopInRange }
    ensures refused { IfErr result (IsFlattenRefusal side checked) }
{
    match Fitted::new(alloc, checked) {
        Ok(fitted) => Ok(fitted),
        Err(Cause::Breach(fault)) => Err(Refusal::Flat(side, fault)),
        Err(Cause::OutOfMemory) => Err(Refusal::OutOfMemory),
    }
}

/// The first source of the map on which no cell of the second library has a shape, if there is one.
pub(crate) fn undrawn_of(
    alloc: Global,
    library: &Library,
    view: &View,
) -> Result<Option<Layer>, Refusal>
    ensures undrawn { IfOk result (λ found. found ≡ first_undrawn library.now (sources view.now.pairs)) }
    ensures memory { IfErr result (λ refusal. refusal ≡ OutOfMemory) }
{
    match first_undrawn(alloc, &library.cells, view) {
        Ok(found) => Ok(found),
        Err(_) => Err(Refusal::OutOfMemory),
    }
}
