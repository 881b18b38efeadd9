//! How often the top places each cell.
ghost use Rattle.std.specs.Prelude.{◌≡◌, ◌≤◌, ◌<◌, ◌+◌, ◌*◌, length, IsTrue, IfOk, IfSome, IfNone, IsNone};
ghost use Rattle.lvl_cells.specs.Times.{AreTimes};
ghost use Rattle.lvl_cells.specs.inside.Times.{IsUnderWay, HasMoreChains};

use crate::linked::Linked;
use std::alloc::{AllocError, Global};

/// `sum + times * count`, or None if that is more than `most`.
pub(crate) fn plus_times(sum: u64, times: u64, count: u64, most: u64) -> Option<u64>
    ensures value { IfSome result (λ all. all ≡ sum + times * count) }
    ensures few { IfSome result (λ all. all ≤ most) }
    ensures many { IsNone result → most < sum + times * count }
{
    let more = times.checked_mul(count)?;
    let all = sum.checked_add(more)?;
    if all > most {
        return None;
    }
    Some(all)
}

/// Adds the placements that the references of the cell at index `i` of the order make. Returns whether no cell is
/// placed more than `most` times so far.
fn pass_on(linked: &Linked<'_>, i: usize, times: &mut [u64], most: u64) -> bool
    requires within { i < length linked.now.order }
    requires way { IsUnderWay linked.now i times.old }
    ensures passed { IsTrue result → IsUnderWay linked.now (i + 1) times.new }
    ensures many { (¬ IsTrue result) → HasMoreChains linked.now most }
{
    let index = linked.order()[i];
    let here = times[index];
    let cell = &linked.cells()[index];
    for j in 0..cell.references.len() {
        let reference = cell.references.reference(j);
        if let Some(target) = linked.target(index, j) {
            let Some(more) = plus_times(times[target], here, reference.shift_count(), most) else {
                return false;
            };
            times[target] = more;
        }
    }
    true
}

/// How often the top places each cell, by the index of the cell: the top once, any other cell as often as the
/// references to it say. None if one is placed more than `most` times.
pub(crate) fn times_of(
    alloc: Global,
    linked: &Linked<'_>,
    most: u64,
) -> Result<Option<Vec<u64>>, AllocError>
    ensures times { IfOk result (λ found. IfSome found (λ times. AreTimes linked.now times.items)) }
    ensures many { IfOk result (λ found. IfNone found (HasMoreChains linked.now most)) }
{
    let mut times = vec![in alloc; 0; linked.cells().len()]?;
    times[linked.top()] = 1;
    for i in 0..linked.order().len() {
        if !pass_on(linked, i, &mut times, most) {
            return Ok(None);
        }
    }
    Ok(Some(times))
}
