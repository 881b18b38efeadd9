//! Arrays that only one of two lists has, written out place by place.
ghost use Rattle.std.specs.Prelude.{◌≡◌, IfOk, IfSome, OnOk};
ghost use Rattle.lvl_changed.specs.inside.Arrays.{AddsArray, AreListed, all_places, each_place};

use crate::arrays::{Array, is_at, skip};
use crate::placed::Placed;
use crate::placements::Placement;
use std::alloc::{AllocError, Global};

/// The cell of the array, placed at each of its places, or None if one of these is outside 64 signed bits.
fn places_of(alloc: Global, array: &Array) -> Result<Option<Vec<Placement>>, AllocError>
    ensures { IfOk result (λ found. IfSome found (λ all. all.items ≡ each_place array.now)) }
{
    let mut all = Vec::new(alloc);
    for k in 0..array.shifts.len() {
        let Some(map) = array.place(k) else {
            return Ok(None);
        };
        let cell = array.cell;
        all.push(Placement { cell, map })?;
    }
    Ok(Some(all))
}

/// The places of an array if there are at most `most`, and if all of them are within 64 signed bits.
fn few_places_of(
    alloc: Global,
    array: &Array,
    most: u64,
) -> Result<Option<Vec<Placement>>, AllocError>
    ensures { IfOk result (λ found. IfSome found (λ all. all.items ≡ each_place array.now)) }
{
    if array.shifts.len() > most {
        return Ok(None);
    }
    places_of(alloc, array)
}

/// Adds an array place by place, or as it is if there would be more than `most` placements.
fn list_array(
    alloc: Global,
    placed: &mut Placed,
    array: &Array,
    most: u64,
) -> Result<(), AllocError>
    ensures { OnOk result (AddsArray (all_places placed.old) (all_places placed.new) array.now) }
{
    let room = most.saturating_sub(placed.singles.len() as u64);
    match few_places_of(alloc, array, room)? {
        Some(mut all) => placed.singles.append(&mut all)?,
        None => placed.arrays.push(array.copied()?)?,
    }
    Ok(())
}

/// Adds those arrays that aren't among the others, place by place unless there would be more than `most` placements.
/// Both lists of arrays should be sorted, or more are added than need be.
pub(crate) fn list_alone(
    alloc: Global,
    placed: &mut Placed,
    arrays: &[Array],
    others: &[Array],
    most: u64,
) -> Result<(), AllocError>
    ensures { OnOk result (AreListed (all_places placed.old) (all_places placed.new) arrays.now others.now) }
{
    let mut at = 0;
    for array in arrays {
        at = skip(others, at, array);
        if !is_at(others, at, array) {
            list_array(alloc, placed, array, most)?;
        }
    }
    Ok(())
}
