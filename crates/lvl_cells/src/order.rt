//! An order of the cells in which each is before those that it refers to.
ghost use Rattle.std.specs.Prelude.{◌≡◌, ℕ, [], length, slice_get, Some, IfOk, IfErr, IfSome, IfNone};
ghost use Rattle.lvl_cells.specs.Soundness.{AreLinked, IsOrder};
ghost use Rattle.lvl_cells.specs.inside.Steps.{AreAllTargets, IsCycleFault};
ghost use Rattle.lvl_cells.specs.inside.Walking.{EachTargetWithin, IsWalk, LeadsBack};
ghost use Rattle.lvl_refusal.specs.Refused.{Says};

use crate::fault::CellFault;
use crate::library::Cell;
use crate::round::{cycle_of, round_from};
use crate::rows::Targets;
use crate::walk::{Mark, Visit, walk_from};
use lvl_refusal::Cause;
use std::alloc::{AllocError, Global};

/// Walks from each cell that is still new. Returns a cell on the path if a reference leads back to
/// it.
fn walk_all(
    targets: &Targets,
    marks: &mut [Mark],
    path: &mut Vec<Visit>,
    finished: &mut Vec<usize>,
) -> Result<Option<usize>, AllocError>
    requires walk { IsWalk targets.now marks.old path.old.items finished.old.items }
    requires within { EachTargetWithin targets.now (length targets.now) }
    requires resting { path.old.items ≡ [] }
    ensures walk { IfOk result (λ _. IsWalk targets.now marks.new path.new.items finished.new.items) }
    ensures back { IfOk result (λ round. IfSome round (LeadsBack targets.now path.new.items)) }
    ensures resting { IfOk result (λ round. IfNone round (path.new.items ≡ [])) }
    ensures seen { IfOk result (λ round. IfNone round ((k : ℕ) → ¬ (slice_get marks.new k ≡ Some Mark.New))) }
{
    for root in 0..targets.len() {
        let Mark::New = marks[root] else {
            continue;
        };
        if let Some(start) = walk_from(targets, root, marks, path, finished)? {
            return Ok(Some(start));
        }
    }
    Ok(None)
}

/// The cells, each before those that it refers to, or a round of references.
pub(crate) fn order_of(
    alloc: Global,
    cells: &[Cell],
    targets: &Targets,
) -> Result<Vec<usize>, Cause<CellFault>>
    requires linked { AreLinked cells.now }
    requires targets { AreAllTargets cells.now targets.now }
    ensures ok { IfOk result (λ order. IsOrder cells.now order.items) }
    ensures err { IfErr result (λ refusal. Says refusal (IsCycleFault cells.now)) }
{
    let count = targets.len();
    let mut marks = vec![in alloc; Mark::New; count]?;
    let mut path = Vec::new(alloc);
    let mut finished = Vec::with_capacity(alloc, count)?;
    if let Some(start) = walk_all(targets, &mut marks, &mut path, &mut finished)? {
        let round = cycle_of(alloc, cells, round_from(&path, start))?;
        return Err(Cause::Breach(CellFault::Cycle(round)));
    }
    finished.reverse();
    Ok(finished)
}
