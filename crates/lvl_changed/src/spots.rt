//! Spots: where cells are placed, whichever they are.
use crate::arrays::Array;
use crate::placements::{Placement, quarters};
use crate::shifts::{last_shift, shift_at};
use lvl_cells::Checked;
use lvl_grid::Map;
use std::hash::{FoldHasher, Hasher};

/// How a cell is placed first, then how many places there are, and the second and the last of them.
pub(crate) type Spot = ((i64, i64, u8, bool), (u64, i64, i64, i64, i64));

/// A cell that is placed.
pub(crate) trait AtSpot {
    /// Where it is placed.
    fn spot(&self) -> Spot;

    /// Its index.
    fn cell(&self) -> usize;
}

impl AtSpot for Placement {
    fn spot(&self) -> Spot {
        let Map { flip, turn, at } = self.map;
        ((at.x, at.y, quarters(turn), flip), (1, 0, 0, 0, 0))
    }

    fn cell(&self) -> usize {
        self.cell
    }
}

impl AtSpot for Array {
    fn spot(&self) -> Spot {
        let Map { flip, turn, at } = self.by;
        let count = self.shifts.len();
        let second = shift_at(&self.shifts, 1);
        let last = last_shift(&self.shifts);
        (
            (at.x, at.y, quarters(turn), flip),
            (count, second.x, second.y, last.x, last.y),
        )
    }

    fn cell(&self) -> usize {
        self.cell
    }
}

/// The numbers of the shapes and of the references of a cell.
fn counts_of(checked: &Checked, cell: usize) -> (usize, usize) {
    match checked.cells().get(cell) {
        Some(found) => (found.shapes.len(), found.references.len()),
        None => (0, 0),
    }
}

/// Sorts cells that are placed by their spots, and those at one spot by how much is in them.
pub(crate) fn sort_by_spot<T: AtSpot + Drop>(placed: &mut Vec<T>, checked: &Checked) {
    placed.sort_unstable_by_key(|each| (each.spot(), counts_of(checked, each.cell())));
}

/// The index of the first, from index `from` on, whose spot isn't before the given one.
pub(crate) fn skip_to_spot<T: AtSpot>(placed: &[T], from: usize, spot: &Spot) -> usize {
    for at in from..placed.len() {
        if placed[at].spot() >= *spot {
            return at;
        }
    }
    placed.len()
}

/// A number that arrays have in common that place cells at the same places, and few others have.
pub(crate) fn key_of(array: &Array) -> u64 {
    let mut hasher = FoldHasher::default();
    let by = array.by;
    hasher.write_i64(by.at.x);
    hasher.write_i64(by.at.y);
    hasher.write_u64(u64::from(quarters(by.turn)) * 2 + u64::from(by.flip));
    if !array.shifts.is_single() {
        let second = shift_at(&array.shifts, 1);
        let last = last_shift(&array.shifts);
        hasher.write_u64(array.shifts.len());
        hasher.write_i64(second.x);
        hasher.write_i64(second.y);
        hasher.write_i64(last.x);
        hasher.write_i64(last.y);
    }
    hasher.finish()
}
