//! Rounds: cells that refer to one another in a cycle, and their names.
ghost use Rattle.std.specs.Prelude.{◌≡◌, ◌<◌, ◌++◌, length, map, All, Contains, IfOk, OnOk, OnErr};
ghost use Rattle.lvl_cells.specs.Faults.{IsCycle};
ghost use Rattle.lvl_cells.specs.Soundness.{AreLinked};
ghost use Rattle.lvl_cells.specs.inside.Rounding.{IsFirstIn, IsFrom, IsRoundOf, visited_name};

use crate::library::Cell;
use crate::walk::Visit;
use std::alloc::{AllocError, Global};

/// The path from its visit of the cell `start` on.
pub(crate) fn round_from(path: &[Visit], start: usize) -> &[Visit]
    requires { Contains (map (λ v. v.cell) path.now) start }
    ensures { IsFrom path.now start result.now }
{
    for (k, visit) in path.iter().enumerate() {
        if visit.cell == start {
            return &path[k..];
        }
    }
    unreachable!()
}

/// The index of the visit whose cell comes first in the file.
fn first_of(round: &[Visit]) -> usize
    requires { 0 < length round.now }
    ensures { IsFirstIn round.now result }
{
    let mut first = 0;
    for (k, visit) in round.iter().enumerate() {
        if visit.cell < round[first].cell {
            first = k;
        }
    }
    first
}

/// Appends the names of the cells that are visited.
fn add_names(
    alloc: Global,
    cells: &[Cell],
    visits: &[Visit],
    names: &mut Vec<Vec<u8>>,
) -> Result<(), AllocError>
    requires { All (λ v. v.cell < length cells.now) visits.now }
    ensures { OnOk result (map (λ n. n.items) names.new.items
        ≡ map (λ n. n.items) names.old.items ++ map (visited_name cells.now) visits.now) }
{
    for visit in visits {
        let cell = &cells[visit.cell];
        names.push(Vec::from_slice(alloc, cell.name.as_bytes())?)?;
    }
    Ok(())
}

/// The names of the cells on the round, beginning with the one that comes first in the file.
pub(crate) fn cycle_of(
    alloc: Global,
    cells: &[Cell],
    round: &[Visit],
) -> Result<Vec<Vec<u8>>, AllocError>
    requires linked { AreLinked cells.now }
    requires round { IsRoundOf cells.now round.now }
    ensures { IfOk result (λ cycle. IsCycle cells.now (map (λ n. n.items) cycle.items)) }
{
    let first = first_of(round);
    let mut names = Vec::with_capacity(alloc, round.len())?;
    add_names(alloc, cells, &round[first..], &mut names)?;
    add_names(alloc, cells, &round[..first], &mut names)?;
    Ok(names)
}
