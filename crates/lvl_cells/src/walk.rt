//! A walk over the cells along their references, one step at a time.
//!
//! Every cell is new at first, open while it is on the path from a root, and done once all cells
//! that it refers to are done. A reference to an open cell closes a round: there is a cycle.
ghost use Rattle.std.specs.Prelude.{◌≡◌, ◌<◌, [], length, vec_len, slice_get, All, Some, IfOk, IfNone, IfSome};
ghost use Rattle.lvl_cells.specs.inside.Walking.{EachTargetWithin, IsStepFrom, IsWalk, NoneBecomesNew, LeadsBack};
ghost use Rattle.lvl_cells.specs.inside.Walking.{work_left};

use crate::rows::Targets;
use std::alloc::AllocError;

/// A cell on the path from a root, and how many of its references were followed.
#[derive(Clone, Copy)]
pub(crate) struct Visit {
    pub(crate) cell: usize,
    done: usize,
}

/// The state of a cell: not seen yet, on the path, or finished.
#[derive(Clone, Copy)]
pub(crate) enum Mark {
    New,
    Open,
    Done,
}

/// A step of a walk: into a new cell, past a reference to a cell that is done (then this many of
/// its references were followed), out of a cell without further references, or round to an open
/// cell.
#[derive(Clone, Copy)]
enum Move {
    Into(usize),
    Past(usize),
    Out,
    Round(usize),
}

/// The next step of the walk, from the last visit on its path.
fn next_step(targets: &Targets, marks: &[Mark], visit: Visit) -> Move
    requires cell { visit.cell < length targets.now }
    requires targets { EachTargetWithin targets.now (length marks.now) }
    ensures { IsStepFrom targets.now marks.now visit result }
{
    let row = targets.row(visit.cell);
    if visit.done >= row.len() {
        return Move::Out;
    }
    let Some(next) = row.get(visit.done) else {
        unreachable!()
    };
    match marks[next] {
        Mark::New => Move::Into(next),
        Mark::Open => Move::Round(next),
        Mark::Done => Move::Past(visit.done + 1),
    }
}

/// Makes one step of the walk. Returns a cell on the path if the step leads back to it.
fn advance(
    targets: &Targets,
    marks: &mut [Mark],
    path: &mut Vec<Visit>,
    finished: &mut Vec<usize>,
) -> Result<Option<usize>, AllocError>
    requires walk { IsWalk targets.now marks.old path.old.items finished.old.items }
    requires within { EachTargetWithin targets.now (length targets.now) }
    requires going { 0 < vec_len path.old }
    ensures walk { IfOk result (λ _. IsWalk targets.now marks.new path.new.items finished.new.items) }
    ensures on { IfOk result (λ _. NoneBecomesNew marks.old marks.new) }
    ensures back { IfOk result (λ round. IfSome round (LeadsBack targets.now path.new.items)) }
    ensures nearer { IfOk result (λ round. IfNone round
        (work_left targets.now marks.new path.new.items < work_left targets.now marks.old path.old.items)) }
{
    let Some(visit) = path.pop() else {
        return Ok(None);
    };
    match next_step(targets, marks, visit) {
        Move::Into(next) => {
            marks[next] = Mark::Open;
            path.push(visit)?;
            path.push(Visit {
                cell: next,
                done: 0,
            })?;
        }
        Move::Past(done) => path.push(Visit {
            cell: visit.cell,
            done,
        })?,
        Move::Out => {
            finished.push(visit.cell)?;
            marks[visit.cell] = Mark::Done;
        }
        Move::Round(start) => {
            path.push(visit)?;
            return Ok(Some(start));
        }
    }
    Ok(None)
}

/// Walks from a new root until all cells that it leads to are done. Returns a cell on the path if a
/// reference leads back to it.
pub(crate) fn walk_from(
    targets: &Targets,
    root: usize,
    marks: &mut [Mark],
    path: &mut Vec<Visit>,
    finished: &mut Vec<usize>,
) -> Result<Option<usize>, AllocError>
    requires walk { IsWalk targets.now marks.old path.old.items finished.old.items }
    requires within { EachTargetWithin targets.now (length targets.now) }
    requires resting { path.old.items ≡ [] }
    requires new { slice_get marks.old root ≡ Some Mark.New }
    ensures walk { IfOk result (λ _. IsWalk targets.now marks.new path.new.items finished.new.items) }
    ensures on { IfOk result (λ _. NoneBecomesNew marks.old marks.new) }
    ensures back { IfOk result (λ round. IfSome round (LeadsBack targets.now path.new.items)) }
    ensures resting { IfOk result (λ round. IfNone round (path.new.items ≡ [])) }
    ensures seen { IfOk result (λ _. ¬ (slice_get marks.new root ≡ Some Mark.New)) }
{
    marks[root] = Mark::Open;
    path.push(Visit {
        cell: root,
        done: 0,
    })?;
    while !path.is_empty() {
        if let Some(start) = advance(targets, marks, path, finished)? {
            return Ok(Some(start));
        }
    }
    Ok(None)
}
