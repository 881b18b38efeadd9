//! The top of a library.
ghost use Rattle.std.specs.Prelude.{◌≡◌, ◌≢◌, ℕ, ◌<◌, ◌↔◌, ◌⊎◌, true, length, slice_get, vec_len, All, Contains, Some};
ghost use Rattle.std.specs.Prelude.{false, IsTrue, IfOk, IfErr, option_copied};
ghost use Rattle.lvl_cells.specs.Cells.{names};
ghost use Rattle.lvl_cells.specs.Resolving.{IsPlaceOf};
ghost use Rattle.lvl_cells.specs.Soundness.{AreLinked, AreReferred, IsOrder, IsTop};
ghost use Rattle.lvl_cells.specs.inside.Steps.{AreAllTargets, IsTopFault};
ghost use Rattle.lvl_cells.specs.inside.Walking.{EachTargetWithin};
ghost use Rattle.lvl_cells.specs.inside.Topping.{IsTarget, HasOtherRoot};
ghost use Rattle.lvl_refusal.specs.Refused.{Says};

use crate::fault::CellFault;
use crate::library::Cell;
use crate::rows::{Row, Targets};
use lvl_refusal::Cause;
use std::alloc::{AllocError, Global};

/// Sets the marks at the indexes of these targets.
fn mark_all(marks: &mut [bool], targets: &Row<'_>)
    requires { All (λ k. k < length marks.old) targets.now }
    ensures { (k : ℕ)
        → (slice_get marks.new k ≡ Some true) ↔ ((slice_get marks.old k ≡ Some true) ⊎ Contains targets.now k) }
{
    for j in 0..targets.len() {
        let Some(target) = targets.get(j) else {
            unreachable!()
        };
        marks[target] = true;
    }
}

/// For each cell, whether some cell refers to it.
fn referred_cells(alloc: Global, targets: &Targets) -> Result<Vec<bool>, AllocError>
    requires { EachTargetWithin targets.now (length targets.now) }
    ensures long { IfOk result (λ marks. vec_len marks ≡ length targets.now) }
    ensures marked { IfOk result (λ marks. (k : ℕ) → (slice_get marks.items k ≡ Some true) ↔ IsTarget targets.now k) }
{
    let mut referred = vec![in alloc; false; targets.len()]?;
    for cell in 0..targets.len() {
        mark_all(&mut referred, &targets.row(cell));
    }
    Ok(referred)
}

/// For each cell of a library, whether some cell refers to it.
pub(crate) fn referred_in(
    alloc: Global,
    cells: &[Cell],
    targets: &Targets,
) -> Result<Vec<bool>, AllocError>
    requires linked { AreLinked cells.now }
    requires targets { AreAllTargets cells.now targets.now }
    ensures { IfOk result (λ marks. AreReferred cells.now marks.items) }
{
    let _cells = cells;
    let referred = referred_cells(alloc, targets)?;
    Ok(referred)
}

/// Whether another mark than the one at index `root` is unset.
fn is_other_unset(marks: &[bool], root: usize) -> bool
    ensures { IsTrue result ↔ ((k : ℕ) × (k ≢ root) × (slice_get marks.now k ≡ Some false)) }
{
    for k in 0..marks.len() {
        if k == root {
            continue;
        }
        if !marks[k] {
            return true;
        }
    }
    false
}

/// Whether there is another cell than `root` to which no cell refers.
fn has_other_root(alloc: Global, targets: &Targets, root: usize) -> Result<bool, AllocError>
    requires { EachTargetWithin targets.now (length targets.now) }
    ensures { IfOk result (λ other. IsTrue other ↔ HasOtherRoot targets.now root) }
{
    let referred = referred_cells(alloc, targets)?;
    Ok(is_other_unset(&referred, root))
}

/// The index of the cell of the given name, which is `index`, or, if none is given, of the only
/// cell to which no cell refers. Refuses with [`CellFault::TopMissing`] or [`CellFault::ManyTops`]
/// if there is no such cell.
pub(crate) fn top_of(
    alloc: Global,
    cells: &[Cell],
    targets: &Targets,
    order: &[usize],
    given: Option<&[u8]>,
    index: Option<usize>,
) -> Result<usize, Cause<CellFault>>
    requires linked { AreLinked cells.now }
    requires index { IsPlaceOf (names cells.now) (option_copied given) index }
    requires targets { AreAllTargets cells.now targets.now }
    requires order { IsOrder cells.now order.now }
    requires some { 0 < length cells.now }
    ensures ok { IfOk result (λ top. IsTop cells.now (option_copied given.entry) top × (top < length cells.now)) }
    ensures err { IfErr result (λ refusal. Says refusal (IsTopFault cells.now (option_copied given.entry))) }
{
    let Some(_name) = given else {
        let root = order[0];
        if has_other_root(alloc, targets, root)? {
            return Err(Cause::Breach(CellFault::ManyTops));
        }
        return Ok(root);
    };
    match index {
        Some(index) => Ok(index),
        None => Err(Cause::Breach(CellFault::TopMissing)),
    }
}
