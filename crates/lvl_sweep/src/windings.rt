//! The windings of the rings at the squares that a walk has come to.
ghost use Rattle.std.specs.Prelude.{◌≡◌, ◌≢◌, ◌<◌, ◌+◌, ◌^◌, ℤ, pos, ◌+ℤ◌, length, unsigned_abs, slice_index_or};
ghost use Rattle.std.specs.Prelude.{slice_set, IfOk};
ghost use Rattle.lvl_sweep.specs.inside.Edges.{turn, weight, how_many_turn, AreAtRest};

use std::alloc::{AllocError, Global};

/// The winding of each ring, and how many of these counts aren't 0.
#[derive(Debug, Drop)]
pub struct Windings {
    pub counts: Vec<i64>,
    pub turning: usize,
}

/// The count after one more edge: increased by 1 if the edge goes up, else decreased by 1.
fn turned(count: i64, up: bool) -> i64
    requires { unsigned_abs count + 1 < 2 ^ 63 }
    ensures { result ≡ count +ℤ turn up }
{
    let turn = if up { 1 } else { -1 };
    count + turn
}

/// How many counts aren't 0 after one of them has changed from `old` to `new`.
fn still_turning(turning: usize, old: i64, new: i64) -> usize
    requires changes { old ≢ new }
    requires small { turning < 2 ^ 63 }
    requires one { old ≢ pos 0 → 0 < turning }
    ensures { result + weight old ≡ turning + weight new }
{
    if old == 0 {
        turning + 1
    } else if new == 0 {
        turning - 1
    } else {
        turning
    }
}

impl Windings {
    /// All counts 0.
    pub(crate) fn new(alloc: Global, rings: usize) -> Result<Windings, AllocError>
        ensures rest { IfOk result (λ w. AreAtRest w) }
        ensures rings { IfOk result (λ w. length w.counts.items ≡ rings) }
    {
        Ok(Windings {
            counts: vec![in alloc; 0; rings]?,
            turning: 0,
        })
    }

    /// Passes an edge of the ring with index `ring`.
    pub(crate) fn pass(&mut self, ring: usize, up: bool)
        requires ring { ring < length self.old.counts.items }
        requires small { unsigned_abs (slice_index_or self.old.counts.items ring (pos 0)) + 1 < 2 ^ 63 }
        requires turning { self.old.turning ≡ how_many_turn self.old.counts.items }
        ensures counts { self.new.counts.items ≡ slice_set self.old.counts.items ring
            (slice_index_or self.old.counts.items ring (pos 0) +ℤ turn up) }
        ensures turning { self.new.turning ≡ how_many_turn self.new.counts.items }
    {
        let old = self.counts[ring];
        let new = turned(old, up);
        self.counts[ring] = new;
        self.turning = still_turning(self.turning, old, new);
    }
}
