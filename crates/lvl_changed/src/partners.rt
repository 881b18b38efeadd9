//! Partners: which cells of two libraries are compared with each other.
//!
//! Any choice is right. It is made so that cells that draw the same are compared, which costs
//! least.
ghost use Rattle.std.specs.Prelude.{◌<◌, length, IfSome};

use crate::arrays::array_of;
use crate::in_step::reference_count;
use crate::placed::Placed;
use crate::spots::{AtSpot, key_of, skip_to_spot, sort_by_spot};
use lvl_cells::{Checked, index_of};
use lvl_flat::Fitted;
use lvl_refusal::Cause;
use std::alloc::{AllocError, Global};
use std::collections::BTreeMap;

/// Of the spots of more references of two cells than these, only some are looked at.
const FEW: usize = 262_144;

/// About how many spots of a cell are looked at at least.
const SELDOM: u64 = 8;

/// After how many references of two cells it is seen whether all cells that these place have partners: cells that are
/// placed all over a layout mostly do by then.
const SOON: usize = 1024;

/// The cells of two libraries, while they are matched.
#[derive(Drop)]
struct Matching<'a> {
    first: &'a Fitted,
    second: &'a Fitted,
    names: BTreeMap<&'a [u8], usize>,
    partners: Vec<Option<usize>>,
    taken: Vec<bool>,
}

/// Which cells that are placed at the same spot become partners.
#[derive(Clone, Copy, PartialEq, Eq)]
enum Round {
    /// Those of the same name.
    Named,
    /// Those that aren't partners yet.
    Free,
    /// Those of which only the second is one already.
    Shared,
}

/// A map from the names of the cells to their indexes. It is empty if two cells have the same name,
/// which doesn't occur.
fn index_by_name(alloc: Global, checked: &Checked) -> Result<BTreeMap<&[u8], usize>, AllocError> {
    match index_of(alloc, checked.cells()) {
        Ok(index) => Ok(index),
        Err(Cause::Breach(_)) => Ok(BTreeMap::new(alloc)),
        Err(Cause::OutOfMemory) => Err(AllocError),
    }
}

/// The name of a cell, or no bytes if there is no such cell.
fn name_of(library: &Fitted, cell: usize) -> &[u8] {
    match library.checked().cells().get(cell) {
        Some(found) => found.name.as_bytes(),
        None => &[],
    }
}

/// Whether the top places a cell.
fn is_placed(library: &Fitted, cell: usize) -> bool {
    match library.checked().times().get(cell) {
        Some(times) => *times > 0,
        None => false,
    }
}

/// Whether two cells have as many shapes, as many references and the same extent.
fn look_alike(first: &Fitted, ours: usize, second: &Fitted, theirs: usize) -> bool {
    let (Some(a), Some(b)) = (
        first.checked().cells().get(ours),
        second.checked().cells().get(theirs),
    ) else {
        return false;
    };
    a.shapes.len() == b.shapes.len()
        && a.references.len() == b.references.len()
        && first.extent_of(ours) == second.extent_of(theirs)
}

/// Of how many spots one is looked at where two cells together have so many references.
fn share_of_all(references: usize) -> u64 {
    (references / FEW).saturating_add(1) as u64
}

/// Of how many spots one is looked at at which a cell is placed: a power of two, so that where it isn't the same for
/// two cells, one looks at all spots at which the other does. Of a cell that is placed seldom, all are.
fn share_of(times: u64, most: u64) -> u64 {
    let share = most.min(times / SELDOM).max(1);
    share.checked_next_power_of_two().unwrap_or(1)
}

/// What a cell places, at all spots, or at some if most cells are placed often.
fn some_placed(
    alloc: Global,
    checked: &Checked,
    cell: usize,
    most: u64,
) -> Result<Placed, AllocError>
    requires { cell < length checked.now.cells }
{
    let mut placed = Placed::none(alloc);
    for j in 0..reference_count(checked, cell) {
        let array = array_of(checked, cell, j)?;
        let times = checked.times().get(array.cell).copied().unwrap_or(0);
        let share = share_of(times, most);
        if key_of(&array).checked_rem(share) == Some(0) {
            placed.push(array)?;
        }
    }
    Ok(placed)
}

impl<'a> Matching<'a> {
    /// No partners, except that the tops are.
    fn new(
        alloc: Global,
        first: &'a Fitted,
        second: &'a Fitted,
    ) -> Result<Matching<'a>, AllocError> {
        let (ours, theirs) = (first.checked(), second.checked());
        let mut matching = Matching {
            first,
            second,
            names: index_by_name(alloc, theirs)?,
            partners: vec![in alloc; None; ours.cells().len()]?,
            taken: vec![in alloc; false; theirs.cells().len()]?,
        };
        matching.join(ours.top(), theirs.top());
        Ok(matching)
    }

    /// Makes two cells partners.
    fn join(&mut self, ours: usize, theirs: usize) {
        if ours < self.partners.len() && theirs < self.taken.len() {
            self.partners[ours] = Some(theirs);
            self.taken[theirs] = true;
        }
    }

    /// The partner of a cell, if it has one.
    fn partner(&self, ours: usize) -> Option<usize> {
        match self.partners.get(ours) {
            Some(partner) => *partner,
            None => None,
        }
    }

    /// Whether a cell of the second library is a partner, or isn't placed.
    fn is_taken(&self, theirs: usize) -> bool {
        match self.taken.get(theirs) {
            Some(taken) => *taken || !is_placed(self.second, theirs),
            None => true,
        }
    }

    /// The cell of the same name, if it can become a partner.
    fn namesake(&self, ours: usize) -> Option<usize> {
        let theirs = *self.names.get(name_of(self.first, ours))?;
        if self.is_taken(theirs) {
            return None;
        }
        Some(theirs)
    }

    /// Makes cells of the same name partners if they look alike.
    fn join_by_name(&mut self) {
        for ours in 0..self.partners.len() {
            if self.partner(ours).is_some() || !is_placed(self.first, ours) {
                continue;
            }
            let Some(theirs) = self.namesake(ours) else {
                continue;
            };
            if look_alike(self.first, ours, self.second, theirs) {
                self.join(ours, theirs);
            }
        }
    }

    /// Whether a reference of a cell is to one without a partner.
    fn places_alone(&self, cell: usize) -> bool {
        let checked = self.first.checked();
        let Some(found) = checked.cells().get(cell) else {
            return false;
        };
        for j in 0..found.references.len() {
            match checked.target(cell, j) {
                Some(target) if self.partner(target).is_none() => return true,
                _ => (),
            }
        }
        false
    }

    /// Makes two cells that are placed at the same spot partners, if the round says so.
    fn propose(&mut self, ours: usize, theirs: usize, round: Round) {
        if self.partner(ours).is_some() || !is_placed(self.second, theirs) {
            return;
        }
        let joins = match round {
            Round::Named => {
                !self.is_taken(theirs) && name_of(self.first, ours) == name_of(self.second, theirs)
            }
            Round::Free => !self.is_taken(theirs),
            Round::Shared => self.namesake(ours).is_none(),
        };
        if joins {
            self.join(ours, theirs);
        }
    }

    /// Proposes the cells that are placed at the same spots. Both lists are sorted by their spots.
    fn propose_all<T: AtSpot>(&mut self, ours: &[T], theirs: &[T], round: Round) {
        let mut at = 0;
        for placed in ours {
            at = skip_to_spot(theirs, at, &placed.spot());
            if at < theirs.len() && theirs[at].spot() == placed.spot() {
                self.propose(placed.cell(), theirs[at].cell(), round);
                at += 1;
            }
        }
    }

    /// Proposes the cells that two cells place, reference by reference. Returns whether no others need be proposed: if
    /// all references place them at the same spots, one after the other, or if all have partners soon.
    fn propose_in_step(
        &mut self,
        ours: usize,
        theirs: usize,
        round: Round,
    ) -> Result<bool, AllocError> {
        let (first, second) = (self.first.checked(), self.second.checked());
        if ours >= first.cells().len() || theirs >= second.cells().len() {
            return Ok(false);
        }
        let count = reference_count(first, ours);
        if reference_count(second, theirs) != count {
            return Ok(false);
        }
        for j in 0..count {
            let placed = array_of(first, ours, j)?;
            let other = array_of(second, theirs, j)?;
            if placed.spot() != other.spot() {
                return Ok(false);
            }
            self.propose(placed.cell, other.cell, round);
            if j == SOON && !self.places_alone(ours) {
                return Ok(true);
            }
        }
        Ok(true)
    }

    /// Looks for partners among the cells that two partners place.
    fn match_placed(
        &mut self,
        alloc: Global,
        ours: usize,
        theirs: usize,
    ) -> Result<(), AllocError> {
        let (first, second) = (self.first.checked(), self.second.checked());
        if ours >= first.cells().len() || theirs >= second.cells().len() {
            return Ok(());
        }
        if !self.places_alone(ours) {
            return Ok(());
        }
        if self.propose_in_step(ours, theirs, Round::Named)? {
            for round in [Round::Free, Round::Shared] {
                if self.places_alone(ours) {
                    self.propose_in_step(ours, theirs, round)?;
                }
            }
            return Ok(());
        }
        let references = reference_count(first, ours);
        let most = share_of_all(references.saturating_add(reference_count(second, theirs)));
        let mut placed = some_placed(alloc, first, ours, most)?;
        let mut others = some_placed(alloc, second, theirs, most)?;
        sort_by_spot(&mut placed.singles, first);
        sort_by_spot(&mut others.singles, second);
        sort_by_spot(&mut placed.arrays, first);
        sort_by_spot(&mut others.arrays, second);
        for round in [Round::Named, Round::Free, Round::Shared] {
            self.propose_all(&placed.singles, &others.singles, round);
            self.propose_all(&placed.arrays, &others.arrays, round);
        }
        Ok(())
    }
}

/// For each cell of the first library, the index of its partner, if it has one.
///
/// The tops are partners, and so are cells of the same name that look alike. Then the cells that
/// two partners place at the same spots become partners, from the tops on, and last cells of the
/// same name, whatever they look like. Cells that aren't placed have no partner.
pub(crate) fn partners_of(
    alloc: Global,
    first: &Fitted,
    second: &Fitted,
) -> Result<Vec<Option<usize>>, AllocError> {
    let mut matching = Matching::new(alloc, first, second)?;
    matching.join_by_name();
    for cell in first.checked().order() {
        let ours = *cell;
        if !is_placed(first, ours) {
            continue;
        }
        if let (None, Some(theirs)) = (matching.partner(ours), matching.namesake(ours)) {
            matching.join(ours, theirs);
        }
        if let Some(theirs) = matching.partner(ours) {
            matching.match_placed(alloc, ours, theirs)?;
        }
    }
    Ok(matching.partners)
}

/// The partner of a cell in a list of partners.
pub(crate) fn partner_in(partners: &[Option<usize>], cell: usize, second: &Checked) -> Option<usize>
    ensures { IfSome result (λ j. j < length second.now.cells) }
{
    match partners.get(cell) {
        Some(Some(partner)) if *partner < second.cells().len() => Some(*partner),
        _ => None,
    }
}
