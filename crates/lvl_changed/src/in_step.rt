//! References that two cells have in one order: they need no lists.
ghost use Rattle.std.specs.Prelude.{◌≡◌, ◌<◌, ◌≤◌, ◌+◌, ℕ, length, slice_get, IsTrue, IfOk, OnOk, Some};
ghost use Rattle.lvl_cells.specs.Cells.{PlainCell, Rings};
ghost use Rattle.lvl_cells.specs.Checks.{HasReference};
ghost use Rattle.lvl_changed.specs.inside.Areas.{Grows};
ghost use Rattle.lvl_changed.specs.inside.Arrays.{as_reference};
ghost use Rattle.lvl_changed.specs.inside.Pairs.{AreFoundIn};
ghost use Rattle.lvl_changed.specs.inside.Placements.{ReferAlike};
ghost use Rattle.lvl_changed.specs.inside.InStep.{ReferAlikeUpTo};

use crate::area::Area;
use crate::arrays::{Array, array_of};
use crate::found::Found;
use crate::shifts::are_same;
use lvl_cells::Checked;
use lvl_compare::Pair;
use std::alloc::AllocError;

/// Whether an array places the partner that was found, at the places of another array.
pub(crate) fn places_partner(array: &Array, found: &Found, other: &Array) -> bool
    ensures partner { IsTrue result → found.now.partner ≡ Some other.now.cell }
    ensures places { IsTrue result → as_reference other.now ≡ as_reference array.now }
{
    let Some(partner) = found.partner else {
        return false;
    };
    if partner != other.cell {
        return false;
    }
    if array.by == other.by {
        return are_same(&array.shifts, &other.shifts);
    }
    false
}

/// Whether reference `j` of cell `ours` places, with the partner in place of its cell, what reference `j` of
/// cell `theirs` does. If so, adds the area that was found for the cell, at each place.
fn hold_same_at(
    area: &mut Area,
    pair: &Pair<'_>,
    ours: usize,
    theirs: usize,
    j: usize,
    known: &[Option<Found>],
) -> Result<bool, AllocError>
    requires ours { ours < length pair.now.first.now.cells }
    requires theirs { theirs < length pair.now.second.now.cells }
    requires reference { HasReference pair.now.first.now.cells ours j }
    requires other { HasReference pair.now.second.now.cells theirs j }
    ensures more { IfOk result (λ same. IsTrue same → AreFoundIn pair.now known.now
        → ReferAlikeUpTo j area.old pair.now ours theirs → ReferAlikeUpTo (j + 1) area.new pair.now ours theirs) }
    ensures kept { OnOk result (Grows area.old area.new) }
{
    let array = array_of(pair.first.checked(), ours, j)?;
    let other = array_of(pair.second.checked(), theirs, j)?;
    let Some(Some(found)) = known.get(array.cell) else {
        return Ok(false);
    };
    if !places_partner(&array, found, &other) {
        return Ok(false);
    }
    area.hold_places(&found.area, &array)?;
    Ok(true)
}

/// The number of references of a cell.
pub(crate) fn reference_count(checked: &Checked, cell: usize) -> usize
    requires { cell < length checked.now.cells }
    ensures each { (j : ℕ) → j < result → HasReference checked.now.cells cell j }
    ensures all { (c : PlainCell Rings) → slice_get checked.now.cells cell ≡ Some c → length c.references ≤ result }
{
    let parent = &checked.cells()[cell];
    parent.references.len()
}

/// Whether the references of two cells place the same, one after the other, with partners in place of the
/// cells of the first. If so, adds the area that was found for each of these cells, at each place. So two
/// copies of a cell take no memory for lists of what they place.
pub(crate) fn hold_same(
    area: &mut Area,
    pair: &Pair<'_>,
    ours: usize,
    theirs: usize,
    known: &[Option<Found>],
) -> Result<bool, AllocError>
    requires ours { ours < length pair.now.first.now.cells }
    requires theirs { theirs < length pair.now.second.now.cells }
    ensures alike { IfOk result (λ same. IsTrue same → AreFoundIn pair.now known.now
        → ReferAlike area.new pair.now.view.now.pairs pair.now.first.now.cells ours pair.now.second.now.cells theirs) }
    ensures kept { OnOk result (Grows area.old area.new) }
{
    let count = reference_count(pair.first.checked(), ours);
    if reference_count(pair.second.checked(), theirs) != count {
        return Ok(false);
    }
    for j in 0..count {
        if !hold_same_at(area, pair, ours, theirs, j, known)? {
            return Ok(false);
        }
    }
    Ok(true)
}
