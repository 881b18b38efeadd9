//! How many chains and rings a top places, against a limit.
ghost use Rattle.std.specs.Prelude.{◌≡◌, ◌<◌, ◌≤◌, ◌+◌, ◌*◌, IsTrue, IfSome, IsNone};
ghost use Rattle.lvl_cells.specs.Cells.{each_ring};
ghost use Rattle.lvl_cells.specs.Chains.{own_rings};
ghost use Rattle.lvl_cells.specs.Times.{AreTimes};
ghost use Rattle.lvl_cells.specs.inside.Steps.{weigh};
ghost use Rattle.lvl_cells.specs.inside.Times.{HasFew, HasMore};

use crate::library::Cell;
use crate::linked::Linked;
use crate::times::plus_times;

/// What is added up over chains: 1 for each, or the number of rings of its last cell.
#[derive(Clone, Copy)]
pub(crate) enum Weight {
    One,
    OwnRings,
}

/// The number of rings that the cell itself draws: each counts once for each shift of its shape. None if there are more
/// than `most`.
fn rings_of(cell: &Cell, most: u64) -> Option<u64>
    ensures value { IfSome result (λ rings. rings ≡ own_rings each_ring cell.now) }
    ensures many { IsNone result → most < own_rings each_ring cell.now }
{
    let mut sum = 0;
    let shapes = &cell.shapes;
    for i in 0..shapes.len() {
        sum = plus_times(
            sum,
            shapes.ring_count(i) as u64,
            shapes.shift_count(i),
            most,
        )?;
    }
    Some(sum)
}

/// What a chain that ends in the cell adds. None if that is more than `most`.
fn weight_of(weight: Weight, cell: &Cell, most: u64) -> Option<u64>
    ensures value { IfSome result (λ added. added ≡ weigh weight cell.now) }
    ensures many { IsNone result → most < weigh weight cell.now }
{
    match weight {
        Weight::One => Some(1),
        Weight::OwnRings => rings_of(cell, most),
    }
}

/// The sum, and what `times` chains that end in the cell add to it. None if that is more than `most`.
fn plus_cell(sum: u64, weight: Weight, cell: &Cell, times: u64, most: u64) -> Option<u64>
    requires { sum ≤ most }
    ensures value { IfSome result (λ all. all ≡ sum + times * weigh weight cell.now) }
    ensures few { IfSome result (λ all. all ≤ most) }
    ensures many { IsNone result → most < sum + times * weigh weight cell.now }
{
    if times == 0 {
        return Some(sum);
    }
    let added = weight_of(weight, cell, most)?;
    plus_times(sum, times, added, most)
}

/// Whether the sum of the weights over the chains from the top is at most `most`, given how often each cell is placed.
pub(crate) fn are_few(weight: Weight, linked: &Linked<'_>, times: &[u64], most: u64) -> bool
    requires { AreTimes linked.now times.now }
    ensures few { IsTrue result → HasFew (weigh weight) linked.now most }
    ensures many { (¬ IsTrue result) → HasMore (weigh weight) linked.now most }
{
    let mut sum = 0;
    for index in linked.order() {
        let cell = &linked.cells()[*index];
        let Some(all) = plus_cell(sum, weight, cell, times[*index], most) else {
            return false;
        };
        sum = all;
    }
    true
}
