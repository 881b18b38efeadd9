//! The targets of references: the indexes of the cells that they name.
ghost use Rattle.std.specs.Prelude.{IfOk, IfErr, OnOk};
ghost use Rattle.lvl_cells.specs.Cells.{names};
ghost use Rattle.lvl_cells.specs.Resolving.{IsIndexOf};
ghost use Rattle.lvl_cells.specs.inside.Targets.{AreTargets, HasTargets, IsMissingFault};
ghost use Rattle.lvl_cells.specs.inside.Steps.{AreAllTargets, IsFirstMissingFault};
ghost use Rattle.lvl_refusal.specs.Refused.{Says};

use crate::fault::CellFault;
use crate::library::Cell;
use crate::rows::{Run, Targets, push_target};
use lvl_refusal::Cause;
use std::alloc::Global;
use std::collections::BTreeMap;

/// Adds a row for the targets of the references of a cell. Refuses with [`CellFault::MissingCell`]
/// and the first reference that names no cell, if there is one.
fn push_row(
    alloc: Global,
    runs: &mut Vec<Run>,
    cells: &[Cell],
    index: &BTreeMap<&[u8], usize>,
    cell: &Cell,
) -> Result<(), Cause<CellFault>>
    requires { IsIndexOf (names cells.now) index.now }
    ensures ok { OnOk result (HasTargets (names cells.now) cell.now.references runs.old.items runs.new.items) }
    ensures err { IfErr result (λ refusal. Says refusal (IsMissingFault (names cells.now) cell.now)) }
{
    let begin = runs.len();
    for j in 0..cell.references.len() {
        let reference = cell.references.reference(j);
        let name = reference.cell();
        let Some(target) = index.get(name) else {
            let from = Vec::from_slice(alloc, cell.name.as_bytes())?;
            let missing = Vec::from_slice(alloc, name)?;
            return Err(Cause::Breach(CellFault::MissingCell(from, missing)));
        };
        push_target(runs, begin, j, *target)?;
    }
    Ok(())
}

/// The targets of the references of each cell. Refuses with [`CellFault::MissingCell`] and the
/// first reference in file order that names no cell, if there is one.
pub(crate) fn all_targets(
    alloc: Global,
    cells: &[Cell],
    index: &BTreeMap<&[u8], usize>,
) -> Result<Targets, Cause<CellFault>>
    requires { IsIndexOf (names cells.now) index.now }
    ensures ok { IfOk result (λ targets. AreAllTargets cells.now targets) }
    ensures err { IfErr result (λ refusal. Says refusal (IsFirstMissingFault cells.now)) }
{
    let mut ends = Vec::with_capacity(alloc, cells.len())?;
    let mut runs = Vec::new(alloc);
    for cell in cells {
        push_row(alloc, &mut runs, cells, index, cell)?;
        ends.push(runs.len())?;
    }
    Ok(Targets::of(ends, runs))
}
