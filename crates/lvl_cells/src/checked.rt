//! The check that a library is sound for its top and that the top doesn't place too much.
ghost use Rattle.std.specs.Prelude.{◌≡◌, ◌<◌, Some, length, slice_get, option_copied};
ghost use Rattle.std.specs.Prelude.{IfOk, IfErr, IfSome, IfNone};
ghost use Rattle.lvl_profile.specs.Limits.{standard};
ghost use Rattle.lvl_cells.specs.Checks.{IsSettled, IsChecked, PlacesFew, IsTargetOf, HasReference};
ghost use Rattle.lvl_cells.specs.Faults.{IsFaultOf, IsSoundWith};
ghost use Rattle.lvl_cells.specs.Soundness.{AreReferred, IsOrder};
ghost use Rattle.lvl_cells.specs.Times.{AreTimes};
ghost use Rattle.lvl_refusal.specs.Refused.{Says};

use crate::examine::{Examined, Reason, check_counts, examine};
use crate::fault::CellFault;
use crate::library::{Cell, Library};
use crate::linked::Linked;
use crate::rows::Targets;
use lvl_profile::Limits;
use lvl_refusal::Cause;
use std::alloc::{AllocError, Global};
use std::marker::Model;
use std::rc::Rc;

/// The cells of a library, an order in which each comes before those that it refers to, and the
/// targets of all references.
#[derive(Drop)]
struct Resolved {
    cells: Vec<Cell>,
    order: Vec<usize>,
    targets: Targets,
}

/// A library that is sound for its top and within the limits on what the top places. Only [`check`]
/// makes one, or [`Checked::rooted`] of another.
#[derive(Drop)]
pub struct Checked {
    resolved: Rc<Resolved>,
    top: usize,
    times: Vec<u64>,
}

impl Model for Checked {
    ghost use Rattle.lvl_cells.specs.Checks.{Settled};

    ghost Value = { Settled };

    ghost use Rattle.lvl_cells.specs.inside.Settling.{settled, IsKeptSettled};

    ghost view = { settled };

    ghost invariant = { IsKeptSettled };
}

/// A library that [`check_or_return`] refuses.
#[derive(Drop)]
pub struct Refused {
    /// The fault.
    pub fault: CellFault,
    /// The library.
    pub library: Library,
    /// For each cell, whether some cell refers to it; None if the fault is one of names, so that this isn't known.
    pub referred: Option<Vec<bool>>,
}

/// Checks a library as [`check_with`] does, and gives it back with the fault if it is refused.
pub fn check_or_return(
    alloc: Global,
    library: Library,
    top: Option<&[u8]>,
    limits: Limits,
) -> Result<Checked, Cause<Refused>>
    ensures same { IfOk result (λ checked. checked.cells ≡ library) }
    ensures sound { IfOk result (λ checked. IsSettled limits (option_copied top.entry) checked) }
    ensures fault { IfErr result (λ refusal. Says refusal (λ refused.
        IsFaultOf limits library (option_copied top.entry) refused.fault)) }
    ensures returned { IfErr result (λ refusal. Says refusal (λ refused. refused.library ≡ library)) }
    ensures referred { IfErr result (λ refusal. Says refusal
        (λ refused. IfSome refused.referred (λ marks. AreReferred library marks.items))) }
{
    let Library { cells } = library;
    if cells.is_empty() {
        return Err(Cause::Breach(Refused {
            fault: CellFault::NoCell,
            library: Library { cells },
            referred: None,
        }));
    }
    let Examined {
        top,
        order,
        targets,
        times,
    } = match examine(alloc, &cells, top, limits) {
        Ok(examined) => examined,
        Err(Cause::Breach(Reason { fault, referred })) => {
            return Err(Cause::Breach(Refused {
                fault,
                library: Library { cells },
                referred,
            }));
        }
        Err(Cause::OutOfMemory) => return Err(Cause::OutOfMemory),
    };
    let resolved = Resolved {
        cells,
        order,
        targets,
    };
    let resolved = Rc::new(alloc, resolved)?;
    Ok(Checked {
        resolved,
        top,
        times,
    })
}

/// Checks that a library is sound for its top and that the top places no more than the limits allow (own rules).
///
/// A library is sound if it has a cell, the names of its cells are distinct, each reference names a
/// cell, no cell is placed in itself through any number of references, and there is a top: the cell
/// of the given name or, if `top` is None, the only cell to which no cell refers. The top may place
/// at most [`Limits::placed`] cells, itself included, and as many rings. If the library has
/// several faults, the first in the order of [`CellFault`] is reported.
pub fn check_with(
    alloc: Global,
    library: Library,
    top: Option<&[u8]>,
    limits: Limits,
) -> Result<Checked, Cause<CellFault>>
    ensures same { IfOk result (λ checked. checked.cells ≡ library) }
    ensures sound { IfOk result (λ checked. IsSettled limits (option_copied top.entry) checked) }
    ensures fault { IfErr result (λ refusal. Says refusal (IsFaultOf limits library (option_copied top.entry))) }
    ensures refused { IfErr result
        (λ refusal. Says refusal (λ _. ¬ IsSoundWith library (option_copied top.entry) (PlacesFew limits library))) }
{
    match check_or_return(alloc, library, top, limits) {
        Ok(checked) => Ok(checked),
        Err(Cause::Breach(refused)) => Err(Cause::Breach(refused.fault)),
        Err(Cause::OutOfMemory) => Err(Cause::OutOfMemory),
    }
}

/// Checks a library as [`check_with`] does, within the standard limits: the top may place at most 16,777,216 cells,
/// itself included, and at most 16,777,216 rings (own rules).
pub fn check(
    alloc: Global,
    library: Library,
    top: Option<&[u8]>,
) -> Result<Checked, Cause<CellFault>>
    ensures same { IfOk result (λ checked. checked.cells ≡ library) }
    ensures sound { IfOk result (λ checked. IsSettled standard (option_copied top.entry) checked) }
    ensures fault { IfErr result (λ refusal. Says refusal (IsFaultOf standard library (option_copied top.entry))) }
    ensures refused { IfErr result
        (λ refusal. Says refusal (λ _. ¬ IsSoundWith library (option_copied top.entry) (PlacesFew standard library))) }
{
    check_with(alloc, library, top, Limits::STANDARD)
}

impl Checked {
    /// The index of the top among the cells.
    pub fn top(&self) -> usize
        ensures value { result ≡ self.now.top }
        ensures checked { IsChecked self.now }
    {
        self.top
    }

    /// The cells, in file order.
    pub fn cells(&self) -> &[Cell]
        ensures value { result.now ≡ self.now.cells }
        ensures checked { IsChecked self.now }
    {
        &self.resolved.cells
    }

    /// The indexes of the cells, each once and before those of the cells that it refers to.
    pub fn order(&self) -> &[usize]
        ensures value { result.now ≡ self.now.order }
        ensures sorted { IsOrder self.now.cells self.now.order }
    {
        &self.resolved.order
    }

    /// The cell at an index.
    pub fn cell(&self, index: usize) -> &Cell
        requires { index < length self.now.cells }
        ensures { slice_get self.now.cells index ≡ Some result.now }
    {
        &self.resolved.cells[index]
    }

    /// How often the top places each cell, by the index of the cell: the number of chains from the top that end in it.
    pub fn times(&self) -> &[u64]
        ensures { AreTimes self.now result.now }
    {
        &self.times
    }

    fn linked(&self) -> Linked<'_>
        ensures { result ≡ self.now }
    {
        Linked {
            cells: &self.resolved.cells,
            targets: &self.resolved.targets,
            order: &self.resolved.order,
            top: self.top,
        }
    }

    // The library with the cell at this index in place of the top.
    fn linked_at(&self, top: usize) -> Linked<'_>
        requires { top < length self.now.cells }
        ensures { result ≡ record { cells = self.now.cells; top = top; order = self.now.order } }
    {
        Linked {
            cells: &self.resolved.cells,
            targets: &self.resolved.targets,
            order: &self.resolved.order,
            top,
        }
    }

    /// The same library with the cell at an index as its top. The cells aren't copied. None if
    /// there is no such cell, or if it places more than the limits for whole chips allow.
    pub fn rooted(&self, alloc: Global, top: usize) -> Result<Option<Checked>, AllocError>
        ensures { IfOk result (λ found. IfSome found (λ rooted.
            rooted ≡ record { cells = self.now.cells; top = top; order = self.now.order })) }
    {
        if top >= self.cells().len() {
            return Ok(None);
        }
        match check_counts(alloc, &self.linked_at(top), Limits::LARGE) {
            Ok(times) => {
                let resolved = self.resolved.clone()?;
                Ok(Some(Checked {
                    resolved,
                    top,
                    times,
                }))
            }
            Err(Cause::Breach(_)) => Ok(None),
            Err(Cause::OutOfMemory) => Err(AllocError),
        }
    }

    /// The index of the cell to which a reference refers, given the index of the cell that has the
    /// reference and that of the reference in this cell. None if there is no such reference.
    pub fn target(&self, cell: usize, reference: usize) -> Option<usize>
        ensures target { IfSome result (IsTargetOf self.now.cells cell reference) }
        ensures past { IfNone result (¬ HasReference self.now.cells cell reference) }
    {
        self.linked().target(cell, reference)
    }

    /// The index of the cell to which reference `reference` of the cell at index `cell` refers.
    pub fn target_of(&self, cell: usize, reference: usize) -> usize
        requires { HasReference self.now.cells cell reference }
        ensures { IsTargetOf self.now.cells cell reference result }
    {
        match self.target(cell, reference) {
            Some(target) => target,
            None => unreachable!(),
        }
    }
}
