//! Placements: cells that are placed, one for each place.
ghost use Rattle.std.specs.Prelude.{Contains, IfOk, IsTrue};
ghost use Rattle.lvl_changed.specs.inside.Placements.{AreLeftPlaces, HaveSame};

use lvl_grid::{Map, Turn};
use std::alloc::{AllocError, Global};

/// What placements are sorted by. Different placements have different keys.
type Key = (usize, i64, i64, u8, bool);

/// A cell, by its index, and a map that places it.
#[derive(Clone, Copy, PartialEq, Eq)]
pub(crate) struct Placement {
    pub cell: usize,
    pub map: Map,
}

impl Placement {
    fn key(&self) -> Key {
        let Map { flip, turn, at } = self.map;
        (self.cell, at.x, at.y, quarters(turn), flip)
    }
}

/// The number of quarter turns.
pub(crate) fn quarters(turn: Turn) -> u8 {
    match turn {
        Turn::R0 => 0,
        Turn::R90 => 1,
        Turn::R180 => 2,
        Turn::R270 => 3,
    }
}

/// Sorts placements by their keys.
pub(crate) fn sort_places(placements: &mut Vec<Placement>)
    ensures { HaveSame placements.old.items placements.new.items }
{
    placements.sort_unstable_by_key(|placement| placement.key());
}

/// The index of the first placement, from index `from` on, whose key isn't less than `key`.
fn skip(placements: &[Placement], from: usize, key: Key) -> usize {
    for at in from..placements.len() {
        if placements[at].key() >= key {
            return at;
        }
    }
    placements.len()
}

/// Whether the placement at this index is `placement`.
fn is_at(placements: &[Placement], at: usize, placement: &Placement) -> bool
    ensures { IsTrue result → Contains placements.now placement.now }
{
    match placements.get(at) {
        Some(found) => *found == *placement,
        None => false,
    }
}

/// Those of the placements that aren't among the others. Both lists should be sorted, or more are left than need be.
pub(crate) fn missing_places(
    alloc: Global,
    placements: &[Placement],
    others: &[Placement],
) -> Result<Vec<Placement>, AllocError>
    ensures { IfOk result (λ left. AreLeftPlaces placements.now others.now left.items) }
{
    let mut left = Vec::new(alloc);
    let mut at = 0;
    for placement in placements {
        at = skip(others, at, placement.key());
        if !is_at(others, at, placement) {
            left.push(*placement)?;
        }
    }
    Ok(left)
}
