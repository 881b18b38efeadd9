//! A table that leads from what a shape draws to the index of a shape.
//!
//! It only guides the search, so it has no contracts.
ghost use Rattle.std.specs.Prelude.{◌<◌, IfSome, vec_len};

use std::alloc::{AllocError, Global};

/// How many slots are looked at for a key, from its own on.
const MOST_TRIED: usize = 1024;

/// A shape, by one more than its index, and a part of its key. The number is zero in an empty slot.
#[derive(Clone, Copy)]
struct Slot {
    part: u32,
    next: u32,
}

/// What is found in the slot of a key: one more than the index of a shape with this key, or zero.
#[derive(Clone, Copy)]
pub(crate) struct Look {
    next: u32,
}

impl Look {
    /// Nothing is found.
    pub(crate) const NOTHING: Look = Look { next: 0 };

    /// The index of the shape that is found.
    pub(crate) fn shape(self) -> Option<usize> {
        (self.next as usize).checked_sub(1)
    }
}

/// The shapes of a list, each in the slot of its key or soon after it. Of those with one key there is one.
#[derive(Drop)]
pub(crate) struct Table {
    slots: Vec<Slot>,
}

/// The part of a key that is kept in a slot.
fn part_of(key: u64) -> u32 {
    (key % (1 << 32)) as u32
}

impl Table {
    /// An empty table with room for this number of shapes.
    pub(crate) fn with_room(alloc: Global, count: usize) -> Result<Table, AllocError> {
        let room = count.saturating_add(count / 2).saturating_add(MOST_TRIED);
        let slots = vec![in alloc; Slot { part: 0, next: 0 }; room]?;
        Ok(Table { slots })
    }

    /// The slot of a key: as far among all of them, but the last, as the key is among all keys.
    fn slot_of(&self, key: u64) -> usize {
        let slots = self.slots.len().saturating_sub(MOST_TRIED);
        let product = u128::from(key) * slots as u128;
        (product >> 64) as usize
    }

    /// What is in the slots of some keys, of as many as there are places for. The memory is waited for once for all
    /// of them.
    pub(crate) fn look(&self, keys: &[u64], looks: &mut [Look]) {
        for (look, key) in looks.iter_mut().zip(keys) {
            let slot = self.slots.get(self.slot_of(*key)).copied();
            *look = match slot {
                Some(Slot { part, next }) if part == part_of(*key) => Look { next },
                _ => Look::NOTHING,
            };
        }
    }

    /// The slot with a key from its own slot on, or the first empty one, or None if neither is near.
    fn near(&self, key: u64) -> Option<usize>
        ensures { IfSome result (λ at. at < vec_len self.now.slots) }
    {
        let part = part_of(key);
        let first = self.slot_of(key);
        for at in first..self.slots.len().min(first.saturating_add(MOST_TRIED)) {
            let slot = self.slots[at];
            if slot.next == 0 || slot.part == part {
                return Some(at);
            }
        }
        None
    }

    /// Puts a shape into the table, unless one with its key is in it, which is then returned.
    pub(crate) fn put(&mut self, key: u64, shape: usize) -> Option<usize> {
        let next = u32::try_from(shape.saturating_add(1)).unwrap_or(0);
        let part = part_of(key);
        let at = self.near(key)?;
        let before = self.slots[at].next;
        if before == 0 {
            self.slots[at] = Slot { part, next };
        }
        (before as usize).checked_sub(1)
    }

    /// The shape that a key leads to, by its index.
    pub(crate) fn find(&self, key: u64) -> Option<usize> {
        let at = self.near(key)?;
        let next = self.slots[at].next;
        (next as usize).checked_sub(1)
    }
}
