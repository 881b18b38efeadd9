//! Cells that are known not to cover a square, so that each is searched once.
ghost use Rattle.std.specs.Prelude.{◌≡◌, ◌<◌, ◌⊎◌, [], Contains, IfSome, IsTrue, OnOk, Some};
ghost use Rattle.lvl_witness.specs.inside.Known.{seen_at, HasNoOthers, HasNoMore};
ghost use Rattle.lvl_witness.specs.inside.Wide.{as_square};

use crate::wide::WidePoint;
use lvl_grid::Square;
use std::alloc::{AllocError, Global};
use std::hash::{FoldHasher, Hasher};
use std::marker::Model;

/// The number of slots of the first table.
const FIRST_SLOTS: usize = 1 << 10;

/// How many times larger each further table is.
const GROWTH: usize = 8;

/// The greatest number of slots of a table, which take 16 MB.
const MOST_SLOTS: usize = 1 << 19;

/// A cell, by its index, and a square in its coordinates.
#[derive(Clone, Copy, Debug, PartialEq, Eq)]
pub(crate) struct Seen {
    pub cell: usize,
    pub square: Square,
}

/// A table of cells and squares. It forgets some of them: each has one slot, which the last one takes,
/// and a table that is half full is replaced by a larger one, which is empty, up to 524,288 slots. To
/// forget one only costs time.
#[derive(Debug, Drop)]
pub(crate) struct Known {
    slots: Vec<Option<Seen>>,
    kept: usize,
}

impl Model for Known {
    ghost use Rattle.std.specs.Prelude.{List, Option};
    ghost use Rattle.lvl_witness.specs.declared.known.Seen.{Seen};

    ghost Value = { List (Option Seen) };

    ghost view = { λ k. k.slots.items };
}

/// The square, or None if a coordinate is outside 64 bits.
fn narrowed(wide: WidePoint) -> Option<Square>
    ensures { IfSome result (λ square. square ≡ as_square wide) }
{
    let x = i64::try_from(wide.x).ok()?;
    let y = i64::try_from(wide.y).ok()?;
    Some(Square { x, y })
}

/// The slot in a table of this size, or None if there is no table.
fn slot_of(seen: Seen, slots: usize) -> Option<usize>
    ensures { IfSome result (λ slot. slot < slots) }
{
    if slots == 0 {
        return None;
    }
    let mut hasher = FoldHasher::default();
    hasher.write_usize(seen.cell);
    hasher.write_i64(seen.square.x);
    hasher.write_i64(seen.square.y);
    Some(hasher.finish() as usize % slots)
}

impl Known {
    /// No table yet. Allocates nothing.
    pub(crate) fn new(alloc: Global) -> Known
        ensures { result ≡ [] }
    {
        Known {
            slots: Vec::new(alloc),
            kept: 0,
        }
    }

    /// Whether the table has the cell and the square.
    pub(crate) fn has(&self, cell: usize, square: WidePoint) -> bool
        ensures { IsTrue result → Contains self.now (Some (seen_at cell (as_square square))) }
    {
        let Some(square) = narrowed(square) else {
            return false;
        };
        let seen = Seen { cell, square };
        match slot_of(seen, self.slots.len()) {
            Some(slot) => self.slots[slot] == Some(seen),
            None => false,
        }
    }

    /// Keeps the cell and the square, unless a coordinate is outside 64 bits.
    pub(crate) fn keep(&mut self, cell: usize, square: WidePoint) -> Result<(), AllocError>
        ensures { OnOk result (HasNoOthers self.old self.new (seen_at cell (as_square square))) }
    {
        self.grow()?;
        let Some(square) = narrowed(square) else {
            return Ok(());
        };
        let seen = Seen { cell, square };
        if let Some(slot) = slot_of(seen, self.slots.len()) {
            self.slots[slot] = Some(seen);
            self.kept = self.kept.saturating_add(1);
        }
        Ok(())
    }

    /// Replaces the table if half as many were kept as it has slots.
    fn grow(&mut self) -> Result<(), AllocError>
        ensures { OnOk result (HasNoMore self.old self.new) }
    {
        let slots = self.slots.len();
        if self.kept < slots / 2 || slots >= MOST_SLOTS {
            return Ok(());
        }
        let more = slots.saturating_mul(GROWTH).max(FIRST_SLOTS);
        self.slots = vec![in *self.slots.allocator(); None; more]?;
        self.kept = 0;
        Ok(())
    }
}
