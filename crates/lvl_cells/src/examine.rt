//! What is found out about the cells of a library: whether they are sound, their order, the top, and how often it
//! places each.
ghost use Rattle.std.specs.Prelude.{◌<◌, length, slice_get, option_copied, IfOk, IfErr, IfSome, OnOk};
ghost use Rattle.lvl_profile.specs.declared.limits.Limits.{Limits as AllLimits};
ghost use Rattle.lvl_cells.specs.Checks.{IsSettled, PlacesFew};
ghost use Rattle.lvl_cells.specs.Faults.{IsFaultOf};
ghost use Rattle.lvl_cells.specs.Cells.{names};
ghost use Rattle.lvl_cells.specs.Resolving.{IsPlaceOf};
ghost use Rattle.lvl_cells.specs.Soundness.{AreLinked, AreReferred};
ghost use Rattle.lvl_cells.specs.Times.{AreTimes};
ghost use Rattle.lvl_cells.specs.inside.Steps.{AreAllTargets};
ghost use Rattle.lvl_cells.specs.inside.Times.{IsCountFault};
ghost use Rattle.lvl_refusal.specs.Refused.{Says};

use crate::counts::{Weight, are_few};
use crate::fault::CellFault;
use crate::library::Cell;
use crate::linked::Linked;
use crate::names::index_of;
use crate::order::order_of;
use crate::rows::Targets;
use crate::targets::all_targets;
use crate::times::times_of;
use crate::top::{referred_in, top_of};
use lvl_profile::Limits;
use lvl_refusal::Cause;
use std::alloc::Global;

/// What [`check_with`] finds out about the cells of a library that it accepts.
#[derive(Drop)]
pub(crate) struct Examined {
    pub top: usize,
    pub order: Vec<usize>,
    pub targets: Targets,
    pub times: Vec<u64>,
}

/// Why a library is refused.
#[derive(Drop)]
pub(crate) struct Reason {
    pub fault: CellFault,
    pub referred: Option<Vec<bool>>,
}

/// The targets of all references, and the index of the cell of the given name, if there is one. The
/// index of all names isn't kept.
fn resolve(
    alloc: Global,
    cells: &[Cell],
    given: Option<&[u8]>,
) -> Result<(Targets, Option<usize>), Cause<CellFault>>
    ensures linked { IfOk result (λ found. AreLinked cells.now) }
    ensures targets { IfOk result (λ found. AreAllTargets cells.now found.0) }
    ensures index { IfOk result (λ found. IsPlaceOf (names cells.now) (option_copied given.entry) found.1) }
    ensures err { IfErr result (λ refusal. Says refusal (λ fault. (limits : AllLimits)
        → IsFaultOf limits cells.now (option_copied given.entry) fault)) }
{
    let index = index_of(alloc, cells)?;
    let targets = all_targets(alloc, cells, &index)?;
    let Some(name) = given else {
        return Ok((targets, None));
    };
    match index.get(name) {
        Some(index) => Ok((targets, Some(*index))),
        None => Ok((targets, None)),
    }
}

/// How often the top places each cell. Refuses a library whose top places more cells or rings than the limits allow.
pub(crate) fn check_counts(
    alloc: Global,
    linked: &Linked<'_>,
    limits: Limits,
) -> Result<Vec<u64>, Cause<CellFault>>
    ensures times { IfOk result (λ times. AreTimes linked.now times.items) }
    ensures few { OnOk result (IfSome (slice_get linked.now.cells linked.now.top) (PlacesFew limits linked.now.cells)) }
    ensures err { IfErr result (λ refusal. Says refusal (IsCountFault limits linked.now)) }
{
    let most = limits.placed;
    let Some(times) = times_of(alloc, linked, most)? else {
        return Err(Cause::Breach(CellFault::TooManyPlacements));
    };
    if !are_few(Weight::One, linked, &times, most) {
        return Err(Cause::Breach(CellFault::TooManyPlacements));
    }
    if !are_few(Weight::OwnRings, linked, &times, most) {
        return Err(Cause::Breach(CellFault::TooManyRings));
    }
    Ok(times)
}

/// An order of the cells, the index of the top, and how often it places each cell.
fn settle(
    alloc: Global,
    cells: &[Cell],
    targets: &Targets,
    given: Option<&[u8]>,
    index: Option<usize>,
    limits: Limits,
) -> Result<(Vec<usize>, usize, Vec<u64>), Cause<CellFault>>
    requires some { 0 < length cells.now }
    requires linked { AreLinked cells.now }
    requires targets { AreAllTargets cells.now targets.now }
    requires index { IsPlaceOf (names cells.now) (option_copied given) index }
    ensures ok { IfOk result (λ found. IsSettled limits (option_copied given.entry)
        (record { cells = cells.now; top = found.1; order = found.0.items })) }
    ensures times { IfOk result (λ found. AreTimes (record { cells = cells.now; top = found.1; order = found.0.items })
        found.2.items) }
    ensures err { IfErr result (λ refusal. Says refusal (IsFaultOf limits cells.now (option_copied given.entry))) }
{
    let order = order_of(alloc, cells, targets)?;
    let top = top_of(alloc, cells, targets, &order, given, index)?;
    let linked = Linked {
        cells,
        targets,
        order: &order,
        top,
    };
    let times = check_counts(alloc, &linked, limits)?;
    Ok((order, top, times))
}

/// What is found out about the cells, if [`check_with`] accepts them.
pub(crate) fn examine(
    alloc: Global,
    cells: &[Cell],
    given: Option<&[u8]>,
    limits: Limits,
) -> Result<Examined, Cause<Reason>>
    requires { 0 < length cells.now }
    ensures ok { IfOk result
        (λ found. IsSettled limits (option_copied given.entry)
        (record { cells = cells.now; top = found.top; order = found.order.items })) }
    ensures targets { IfOk result (λ found. AreAllTargets cells.now found.targets) }
    ensures times { IfOk result
        (λ found. AreTimes (record { cells = cells.now; top = found.top; order = found.order.items })
        found.times.items) }
    ensures err { IfErr result (λ refusal. Says refusal
        (λ reason. IsFaultOf limits cells.now (option_copied given.entry) reason.fault)) }
    ensures referred { IfErr result (λ refusal. Says refusal
        (λ reason. IfSome reason.referred (λ marks. AreReferred cells.now marks.items))) }
{
    let (targets, index) = match resolve(alloc, cells, given) {
        Ok(found) => found,
        Err(Cause::Breach(fault)) => {
            return Err(Cause::Breach(Reason {
                fault,
                referred: None,
            }));
        }
        Err(Cause::OutOfMemory) => return Err(Cause::OutOfMemory),
    };
    match settle(alloc, cells, &targets, given, index, limits) {
        Ok((order, top, times)) => Ok(Examined {
            top,
            order,
            targets,
            times,
        }),
        Err(Cause::Breach(fault)) => {
            let referred = Some(referred_in(alloc, cells, &targets)?);
            Err(Cause::Breach(Reason { fault, referred }))
        }
        Err(Cause::OutOfMemory) => Err(Cause::OutOfMemory),
    }
}
