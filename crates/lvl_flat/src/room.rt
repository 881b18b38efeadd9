//! The room that drawing has, and what it frees when it is used up.
ghost use Rattle.std.specs.Prelude.{◌≡◌, ◌≢◌, ◌↔◌, IfOk, OnOk};
ghost use Rattle.lvl_grid.specs.declared.point.Square.{Square as GridSquare};
ghost use Rattle.lvl_grid.specs.Winding.{SomeCovers};

use crate::fault::OverBudget;
use lvl_grid::{PlaceFault, Rings};
use lvl_refusal::Cause;
use lvl_simplify::simplified;
use std::alloc::Global;
use std::mem;

/// What drawing may still take: an allocator and a number of points.
#[derive(Drop)]
pub(crate) struct Room {
    pub alloc: Global,
    /// The number of points that may still be drawn.
    pub points: usize,
    /// Whether there was too little room.
    pub is_used_up: bool,
}

/// Replaces rings by simpler ones that cover the same squares. Returns how many points fewer these
/// have, or 0 if that is less than half of them.
fn free_half(alloc: Global, rings: &mut Rings) -> Result<usize, PlaceFault>
    ensures covers { OnOk result ((q : GridSquare) → SomeCovers rings.new q ↔ SomeCovers rings.old q) }
    ensures memory { result ≢ Err PlaceFault.OutOfRange }
{
    let held = rings.points().len();
    let all = mem::replace(rings, Rings::new(alloc));
    let Ok(simpler) = simplified(alloc, all) else {
        return Err(PlaceFault::OutOfMemory);
    };
    let freed = held.saturating_sub(simpler.points().len());
    *rings = simpler;
    if freed < held / 2 {
        return Ok(0);
    }
    Ok(freed)
}

impl Room {
    /// Room for this number of points.
    pub(crate) fn of(alloc: Global, points: usize) -> Room {
        Room {
            alloc,
            points,
            is_used_up: false,
        }
    }

    /// Room for any number of points.
    pub(crate) fn unbounded(alloc: Global) -> Room {
        Room::of(alloc, usize::MAX)
    }

    /// Takes room for points that were drawn as part of `rings`. If there is less, the rings are
    /// made simpler, and if that frees at least half of their points, there is that much more room.
    /// So each search for simpler rings is paid for by the points that were drawn before it. If
    /// there is still too little, drawing ends as if out of memory, and [`Room::cause`] says why.
    pub(crate) fn take(&mut self, rings: &mut Rings, points: usize) -> Result<(), PlaceFault>
        ensures covers { OnOk result ((q : GridSquare) → SomeCovers rings.new q ↔ SomeCovers rings.old q) }
        ensures memory { result ≢ Err PlaceFault.OutOfRange }
    {
        if points <= self.points {
            self.points -= points;
            return Ok(());
        }
        let freed = free_half(self.alloc, rings)?;
        let room = self.points.saturating_add(freed);
        if points > room {
            self.is_used_up = true;
            return Err(PlaceFault::OutOfMemory);
        }
        self.points = room - points;
        Ok(())
    }

    /// Why drawing ended early.
    pub(crate) fn cause(&self) -> Cause<OverBudget> {
        if self.is_used_up {
            Cause::Breach(OverBudget)
        } else {
            Cause::OutOfMemory
        }
    }
}
