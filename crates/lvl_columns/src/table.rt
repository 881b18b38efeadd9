//! A table that leads from the key of a ring to a ring of a list with this key. It only guides a search: what is
//! found is tested.
ghost use Rattle.std.specs.Prelude.{IsTrue};
ghost use Rattle.lvl_grid.specs.declared.point.Square.{Square as GridSquare};
ghost use Rattle.lvl_grid.specs.Winding.{Covers, SomeCovers};

use crate::keys::{are_alike, key_of};
use lvl_grid::{Point, Rings};
use std::alloc::{AllocError, Global};

/// How many slots are tried for a key, from its own on.
const MOST_TRIED: usize = 256;

/// The lower half of a slot.
const LOWER: u64 = 0xFFFF_FFFF;

/// A slot has the upper half of the key of a ring, and below it one more than the index of the ring, or is 0. At
/// least half of the slots are 0. Of rings with one key there is the first.
#[derive(Drop)]
pub(crate) struct Table {
    slots: Vec<u64>,
}

impl Table {
    /// The table of a list. It takes 16 to 32 bytes for each ring.
    pub(crate) fn of(alloc: Global, rings: &Rings) -> Result<Table, AllocError> {
        let slots = rings.len().saturating_mul(2).checked_next_power_of_two();
        let mut table = Table {
            slots: vec![in alloc; 0; slots.unwrap_or(0)]?,
        };
        for i in 0..rings.len() {
            table.add(key_of(rings.ring(i)), i);
        }
        Ok(table)
    }

    /// The first slot, from that of the key on, that is empty or of the key, if one is near.
    fn near(&self, key: u64) -> Option<usize> {
        for tried in 0..MOST_TRIED {
            let at = (key as usize).saturating_add(tried) & self.slots.len().saturating_sub(1);
            let slot = self.slots.get(at).copied().unwrap_or(0);
            if slot == 0 || slot & !LOWER == key & !LOWER {
                return Some(at);
            }
        }
        None
    }

    /// Adds the ring at an index, unless one of its key is in the table.
    fn add(&mut self, key: u64, ring: usize) {
        let Some(at) = self.near(key) else {
            return;
        };
        if let Some(slot) = self.slots.get_mut(at) {
            if *slot == 0 {
                *slot = (key & !LOWER) | ((ring as u64).saturating_add(1) & LOWER);
            }
        }
    }

    /// The index of a ring of the key, if the table has one.
    fn find(&self, key: u64) -> Option<usize> {
        let slot = self.slots.get(self.near(key)?)?;
        let ring = (*slot & LOWER).checked_sub(1)?;
        Some(ring as usize)
    }

    /// Whether a ring is found in the list of the table. `false` says nothing.
    pub(crate) fn has_alike(&self, others: &Rings, ring: &[Point]) -> bool
        ensures { IsTrue result → (s : GridSquare) → Covers ring.now s → SomeCovers others.now s }
    {
        match self.find(key_of(ring)) {
            Some(at) => is_alike_at(others, at, ring),
            None => false,
        }
    }
}

/// Whether the ring at this index of a list, if there is one, is alike.
fn is_alike_at(others: &Rings, i: usize, ring: &[Point]) -> bool
    ensures { IsTrue result → (s : GridSquare) → Covers ring.now s → SomeCovers others.now s }
{
    match others.get(i) {
        Some(other) => are_alike(ring, other),
        None => false,
    }
}
