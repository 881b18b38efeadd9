//! A table of the forms of the rings of a cell, by which a ring finds an earlier one that has its
//! points, moved.
ghost use Rattle.std.specs.Prelude.{◌<◌, IfSome};

use crate::form::Form;
use lvl_grid::Point;
use std::alloc::{AllocError, Global};

/// With fewer rings there is no table.
const FEWEST: usize = 64;

/// A table has at most this number of slots, which take 16 KB. With more, rings of so many forms would be
/// shared that they no longer fit in the nearest caches, and each look at a shape would wait for memory.
const MOST: usize = 4_096;

/// A form has two slots, one after the other. A slot has one more than the index of the last ring that
/// was kept there, or 0 if there is none. Other forms may have the same slots, so a ring that is found
/// need not have the form: what a slot has only guides the search, and is tested where it is used.
#[derive(Drop)]
pub(crate) struct Forms {
    slots: Vec<u32>,
}

/// The multiplier of std's `FoldHasher`.
const MULTIPLIER: u64 = 0x9e37_79b9_7f4a_7c15;

/// The halves of a product, joined by xor.
fn folded(a: u64, b: u64) -> u64 {
    let product = a as u128 * b as u128;
    (product & 0xFFFF_FFFF_FFFF_FFFF) as u64 ^ (product >> 64) as u64
}

/// A hash with a number mixed into it, as `FoldHasher` does with eight bytes, but without a look at each byte: every
/// ring that is read is hashed.
fn mixed(hash: u64, number: i64) -> u64 {
    folded(hash ^ number.cast_unsigned(), MULTIPLIER)
}

/// The hash of the differences between successive points, which are the same for the ring moved.
fn hash_of(ring: &[Point]) -> u64 {
    let mut hash = 0;
    let mut last = match ring.first() {
        Some(point) => *point,
        None => return hash,
    };
    for point in ring {
        hash = mixed(hash, point.x.saturating_sub(last.x));
        hash = mixed(hash, point.y.saturating_sub(last.y));
        last = *point;
    }
    hash
}

/// The hash of a form, which is the same for the ring moved.
pub(crate) fn hash_of_form(form: &Form<'_>) -> u64 {
    match &form.rectangle {
        Some(it) => mixed(mixed(it.along_y as u64, it.diagonal.x), it.diagonal.y),
        None => hash_of(form.ring),
    }
}

/// The slots of a form with this hash in a table of this size, or None if there is no table.
fn slots_of(hash: u64, slots: usize) -> Option<(usize, usize)>
    ensures { IfSome result (λ found. (found.0 < slots) × (found.1 < slots)) }
{
    // The high half of the product spreads the hashes over the slots in less time than a remainder takes.
    let slot = (hash as u128 * slots as u128 >> 64) as usize;
    if slot >= slots {
        return None;
    }
    let after = slot + 1;
    Some((slot, if after < slots { after } else { 0 }))
}

impl Forms {
    /// No table yet. Allocates nothing.
    pub(crate) fn new(alloc: Global) -> Forms {
        Forms {
            slots: Vec::new(alloc),
        }
    }

    /// For each of two kept rings that may have the form with this hash, one more than its index, or 0.
    pub(crate) fn candidates(&self, hash: u64) -> (u32, u32) {
        match slots_of(hash, self.slots.len()) {
            Some((slot, next)) => (self.slots[slot], self.slots[next]),
            None => (0, 0),
        }
    }

    /// Notes a ring that was kept, by the hash of its form. `kept` is the number of kept rings, of which it is
    /// the last.
    pub(crate) fn keep(&mut self, hash: u64, kept: u32) -> Result<(), AllocError> {
        self.grow(kept as usize)?;
        if let Some((slot, next)) = slots_of(hash, self.slots.len()) {
            let free = if self.slots[slot] == 0 { slot } else { next };
            self.slots[free] = kept;
        }
        Ok(())
    }

    /// Replaces the table if it has fewer slots than there are kept rings. The new one takes at most
    /// 16 bytes for each of them, and is empty: to forget the earlier rings only costs memory.
    fn grow(&mut self, kept: usize) -> Result<(), AllocError> {
        let slots = self.slots.len();
        if kept < FEWEST || kept <= slots || slots >= MOST {
            return Ok(());
        }
        let more = kept.saturating_mul(4).min(MOST);
        self.slots = vec![in *self.slots.allocator(); 0; more]?;
        Ok(())
    }
}
