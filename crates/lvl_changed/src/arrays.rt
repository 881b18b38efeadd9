//! Arrays: cells that are placed, each at all of a list of shifts.
ghost use Rattle.std.specs.Prelude.{◌≡◌, ◌<◌, ◌↔◌, length, Contains, IsTrue, IfOk, IfSome};
ghost use Rattle.lvl_cells.specs.Checks.{HasReference};
ghost use Rattle.lvl_flat.specs.Placing.{IsPlacing};
ghost use Rattle.lvl_changed.specs.declared.arrays.Array.{Array as PlainArray};
ghost use Rattle.lvl_changed.specs.inside.Arrays.{as_reference, IsArrayOf, IsRebased, IsThrough};

use crate::lattices::{rebased, sums};
use crate::shifts::{are_same, moved};
use crate::spots::{AtSpot, Spot};
use lvl_cells::{Checked, KeptReference};
use lvl_grid::Map;
use lvl_names::Offsets;
use std::alloc::AllocError;

/// A cell, by its index, and a map that places it, moved by each of the shifts.
#[derive(Drop)]
pub(crate) struct Array {
    pub cell: usize,
    pub by: Map,
    pub shifts: Offsets,
}

/// The cell at the index `cell`, placed as the reference places its cell.
fn placing(reference: &KeptReference<'_>, cell: usize) -> Result<Array, AllocError>
    ensures { IfOk result (λ array. array ≡ record {
      cell = cell;
      by = record { flip = reference.now.flip; turn = reference.now.turn; at = reference.now.at };
      shifts = reference.now.shifts;
    }) }
{
    let by = Map {
        flip: reference.flip(),
        turn: reference.turn(),
        at: reference.at(),
    };
    let shifts = reference.copied_shifts()?;
    Ok(Array { cell, by, shifts })
}

/// What reference `j` of a cell places, as it is written.
pub(crate) fn reference_at(checked: &Checked, cell: usize, j: usize) -> Result<Array, AllocError>
    requires cell { cell < length checked.now.cells }
    requires reference { HasReference checked.now.cells cell j }
    ensures { IfOk result (IsArrayOf checked.now.cells cell j) }
{
    let target = checked.target_of(cell, j);
    let parent = &checked.cells()[cell];
    placing(&parent.references.reference(j), target)
}

/// What an array places by an array of its cell, or None if that can't be kept as one array.
pub(crate) fn inner_of(array: &Array, inner: &Array) -> Result<Option<Array>, AllocError>
    ensures { IfOk result (λ found. IfSome found (IsThrough array.now inner.now)) }
{
    let Some(by) = array.by.then(&inner.by) else {
        return Ok(None);
    };
    let found = sums(&array.shifts, &inner.shifts, &array.by)?;
    let Some(shifts) = found else {
        return Ok(None);
    };
    let cell = inner.cell;
    Ok(Some(Array { cell, by, shifts }))
}

/// The array from its least place on, with the steps of its lattice in their order.
pub(crate) fn in_order(array: Array) -> Array
    ensures { IsRebased array result }
{
    if array.shifts.is_single() {
        return array;
    }
    let Some((least, shifts)) = rebased(&array.shifts) else {
        return array;
    };
    let Map { flip, turn, at } = array.by;
    let Some(at) = moved(least, at) else {
        return array;
    };
    let cell = array.cell;
    let by = Map { flip, turn, at };
    Array { cell, by, shifts }
}

/// What reference `j` of a cell places. A lattice begins at its least place, and its steps are in an order of their
/// own.
pub(crate) fn array_of(checked: &Checked, cell: usize, j: usize) -> Result<Array, AllocError>
    requires cell { cell < length checked.now.cells }
    requires reference { HasReference checked.now.cells cell j }
    ensures { IfOk result (IsArrayOf checked.now.cells cell j) }
{
    Ok(in_order(reference_at(checked, cell, j)?))
}

impl Array {
    /// A copy.
    pub(crate) fn copied(&self) -> Result<Array, AllocError>
        ensures { IfOk result (λ copy. copy ≡ self.now) }
    {
        let Array { cell, by, .. } = *self;
        let shifts = self.shifts.clone()?;
        Ok(Array { cell, by, shifts })
    }

    /// The map by which the cell is placed at the shift of this index, or None if there is none, or
    /// if its place is outside 64 signed bits.
    pub(crate) fn place(&self, k: u64) -> Option<Map>
        ensures { IfSome result (IsPlacing (as_reference self.now) k) }
    {
        let Map { flip, turn, at } = self.by;
        let at = moved(self.shifts.at(k)?, at)?;
        Some(Map { flip, turn, at })
    }

    /// What arrays are sorted by. Different arrays can have the same key.
    fn key(&self) -> (usize, Spot) {
        (self.cell, self.spot())
    }

    /// Whether both place the same cell by the same map at the same shifts.
    fn is_same(&self, other: &Array) -> bool
        ensures { IsTrue result → self.now ≡ other.now }
    {
        if self.cell != other.cell {
            return false;
        }
        if self.by == other.by {
            return are_same(&self.shifts, &other.shifts);
        }
        false
    }
}

/// Sorts arrays by their keys.
pub(crate) fn sort_arrays(arrays: &mut Vec<Array>)
    ensures { (array : PlainArray) → Contains arrays.old.items array ↔ Contains arrays.new.items array }
{
    arrays.sort_unstable_by_key(|array| array.key());
}

/// The index of the first array, from index `from` on, whose key isn't less than that of `array`.
pub(crate) fn skip(arrays: &[Array], from: usize, array: &Array) -> usize {
    let key = array.key();
    for at in from..arrays.len() {
        if arrays[at].key() >= key {
            return at;
        }
    }
    arrays.len()
}

/// Whether the array at this index is `array`.
pub(crate) fn is_at(arrays: &[Array], at: usize, array: &Array) -> bool
    ensures { IsTrue result → Contains arrays.now array.now }
{
    match arrays.get(at) {
        Some(found) => found.is_same(array),
        None => false,
    }
}
