//! Comparison of two cells as a whole, with all that they place.
ghost use Rattle.std.specs.Prelude.{◌≡◌, ◌↔◌, IfOk, IfSome, IsTrue, false};
ghost use Rattle.lvl_grid.specs.declared.point.Square.{Square};
ghost use Rattle.lvl_names.specs.declared.layer.Layer.{Layer};
ghost use Rattle.lvl_compare.specs.Pairs.{ours, theirs};
ghost use Rattle.lvl_changed.specs.Changed.{DrawSameBut};
ghost use Rattle.lvl_changed.specs.inside.Areas.{AlikeOutside};
ghost use Rattle.lvl_changed.specs.inside.Finding.{PartnerCovers};
ghost use Rattle.lvl_changed.specs.inside.Pairs.{IsFoundIn, first_covers, second_covers};

use crate::area::Area;
use crate::changes::{Changes, difference_among};
use crate::found::Found;
use crate::pays::{placed_in, placed_rings, size_of};
use lvl_cells::Checked;
use lvl_compare::Pair;
use lvl_flat::Fitted;
use std::alloc::{AllocError, Global};

/// What all comparisons of whole cells may cost together in any case.
const MOST_OF_ALL: u64 = 1_048_576;

/// How often what is in both files is added to what comparisons of whole cells may cost.
const FOR_EACH: u64 = 4;

/// Which part of what both tops place is added to what comparisons of whole cells may cost: if these
/// show nothing, they take an eighth of what a comparison of flat layouts takes.
const PART_OF_PLACED: u64 = 8;

/// The greatest part of what both tops place that is added: a flat comparison may end at once, at a
/// difference, however much is placed.
const MOST_OF_PLACED: u64 = 67_108_864;

/// The greatest number of points of a side in a part that is compared. It is small, so that cells that
/// differ everywhere cost little.
const POINTS: usize = 65_536;

/// How many levels of cells, one placing the other, are compared as wholes in vain. A cell that
/// places one that differs mostly differs too.
const MOST_IN_VAIN: u8 = 2;

/// Which part of what both tops place a cell may place that is placed once, if it is compared as a whole. So a block of
/// a chip whose placements were moved into its own cells, or drawn in it, is compared once, beside what it is placed
/// in.
const PART_OF_ONCE: u64 = 4;

/// What comparisons of whole cells may still cost. Each costs the rings that both cells place, and
/// once the cells and references of both libraries, since the places of these cells are counted.
#[derive(Drop)]
pub(crate) struct Budget {
    left: u64,
    each: u64,
    /// The most that a comparison of a cell that is placed once may cost.
    once: u64,
    /// For each cell of the first library, how many levels below it, with itself, were compared in
    /// vain.
    in_vain: Vec<u8>,
}

impl Budget {
    /// What they may cost for a pair of libraries.
    pub(crate) fn new(alloc: Global, pair: &Pair<'_>) -> Result<Budget, AllocError> {
        let (first, second) = (pair.first, pair.second);
        let (cells, rings) = size_of(first.checked());
        let (their_cells, their_rings) = size_of(second.checked());
        let each = cells.saturating_add(their_cells);
        let all = each.saturating_add(rings).saturating_add(their_rings);
        let window = pair.view.window();
        let placed = placed_in(first, window).saturating_add(placed_in(second, window));
        let left = MOST_OF_ALL
            .saturating_add(all.saturating_mul(FOR_EACH))
            .saturating_add((placed / PART_OF_PLACED).min(MOST_OF_PLACED));
        let count = first.checked().cells().len();
        let in_vain = (0..count).map(|_| 0).collect(alloc)?;
        Ok(Budget {
            left,
            each,
            once: placed / PART_OF_ONCE,
            in_vain,
        })
    }

    /// How many levels below a cell were compared in vain.
    fn in_vain_below(&self, checked: &Checked, cell: usize) -> u8 {
        let Some(found) = checked.cells().get(cell) else {
            return 0;
        };
        let mut most = 0;
        for j in 0..found.references.len() {
            if let Some(target) = checked.target(cell, j) {
                most = self.in_vain.get(target).copied().unwrap_or(0).max(most);
            }
        }
        most
    }

    fn set_in_vain(&mut self, cell: usize, levels: u8) {
        if let Some(kept) = self.in_vain.get_mut(cell) {
            *kept = levels;
        }
    }

    /// Notes what a comparison of a cell found.
    fn settle(&mut self, cell: usize, is_same: bool) {
        if is_same {
            self.set_in_vain(cell, 0);
        }
    }

    /// Whether it may pay to compare a cell. Until it is found to draw the same as its partner, that
    /// counts as in vain.
    fn takes_on(&mut self, checked: &Checked, cell: usize) -> bool {
        let below = self.in_vain_below(checked, cell);
        self.set_in_vain(cell, below.saturating_add(1));
        let each = self.each;
        below < MOST_IN_VAIN && self.takes(each)
    }

    /// Whether this much is left, which is then taken.
    fn takes(&mut self, cost: u64) -> bool {
        match self.left.checked_sub(cost) {
            Some(left) => {
                self.left = left;
                true
            }
            None => false,
        }
    }
}

/// Whether two layouts draw the same, if they do so but for the changes. `false` says nothing if they
/// place too many rings, or if the view has a window.
fn are_same_tops(
    alloc: Global,
    pair: &Pair<'_>,
    changes: &Changes,
    times: u64,
    budget: &mut Budget,
) -> Result<bool, AllocError>
    ensures { IfOk result (λ same. IsTrue same → DrawSameBut changes.now (ours pair.now) (theirs pair.now)
        → (layer : Layer) (s : Square) → ours pair.now layer s ↔ theirs pair.now layer s) }
{
    if pair.view.window().is_some() {
        return Ok(false);
    }
    let (first, second) = (pair.first.checked(), pair.second.checked());
    let rings = placed_rings(first).saturating_add(placed_rings(second));
    if times < 2 && rings > budget.once || !budget.takes(rings) {
        return Ok(false);
    }
    let found = difference_among(alloc, pair, changes, POINTS)?;
    Ok(found.is_none())
}

/// Two cells, each as the top of its library.
#[derive(Drop)]
struct Roots {
    ours: Fitted,
    theirs: Fitted,
}

/// Two cells as tops, or None if one of them can't be one.
fn roots_of(
    alloc: Global,
    pair: &Pair<'_>,
    cell: usize,
    partner: usize,
) -> Result<Option<Roots>, AllocError>
    ensures ours { IfOk result (λ found. IfSome found (λ roots.
        roots.ours ≡ record (pair.now.first.now) { top = cell })) }
    ensures theirs { IfOk result (λ found. IfSome found (λ roots.
        roots.theirs ≡ record (pair.now.second.now) { top = partner })) }
{
    let Some(ours) = pair.first.rooted(alloc, cell)? else {
        return Ok(None);
    };
    let Some(theirs) = pair.second.rooted(alloc, partner)? else {
        return Ok(None);
    };
    Ok(Some(Roots { ours, theirs }))
}

/// Whether two cells draw the same, with all that they place, if they do so outside of the area.
/// `false` says nothing if the comparison would cost too much.
fn are_same_cells(
    alloc: Global,
    pair: &Pair<'_>,
    cell: usize,
    partner: usize,
    area: &Area,
    times: u64,
    budget: &mut Budget,
) -> Result<bool, AllocError>
    ensures { IfOk result (λ same. IsTrue same
        → AlikeOutside area.now (first_covers pair.now cell) (second_covers pair.now partner)
        → (layer : Layer) (s : Square) → first_covers pair.now cell layer s ↔ second_covers pair.now partner layer s) }
{
    let Some(changes) = area.changes(alloc)? else {
        return Ok(false);
    };
    let Some(roots) = roots_of(alloc, pair, cell, partner)? else {
        return Ok(false);
    };
    let tops = Pair {
        first: &roots.ours,
        second: &roots.theirs,
        view: pair.view,
    };
    are_same_tops(alloc, &tops, &changes, times, budget)
}

/// Whether a cell draws the same as its partner, with all that they place, if it does so outside of
/// the area that was found. `false` says nothing if nothing was found, if what it places was compared in
/// vain, or if the comparison would cost too much.
pub(crate) fn is_same_pair(
    alloc: Global,
    pair: &Pair<'_>,
    cell: usize,
    found: &Found,
    times: u64,
    budget: &mut Budget,
) -> Result<bool, AllocError>
    ensures { IfOk result (λ same. IsTrue same → IsFoundIn pair.now cell found.now
        → (layer : Layer) (s : Square) → first_covers pair.now cell layer s
        ↔ PartnerCovers pair.now.view.now.pairs pair.now.second.now.cells found.now.partner layer s) }
{
    let Some(partner) = found.partner else {
        return Ok(false);
    };
    if found.area.windows.is_empty() || !budget.takes_on(pair.first.checked(), cell) {
        return Ok(false);
    }
    let is_same = are_same_cells(alloc, pair, cell, partner, &found.area, times, budget)?;
    budget.settle(cell, is_same);
    Ok(is_same)
}

/// What was found, with an empty area if the cell draws the same as its partner.
pub(crate) fn settled(alloc: Global, found: Found, is_same: bool) -> Found
    ensures partner { result.partner ≡ found.partner }
    ensures kept { is_same ≡ false → result ≡ found }
{
    if !is_same {
        return found;
    }
    let Found { partner, .. } = found;
    let area = Area::none(alloc, 1);
    Found { partner, area }
}
