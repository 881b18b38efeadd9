//! How often a sweep of a list would pass its edges. This guides a choice of cost only, so it has
//! no contracts.

use crate::slices::Slices;
use lvl_grid::{Point, Rings};
use std::alloc::{AllocError, Global};

/// A list of fewer points is never too much work for a sweep.
const FEW: usize = 4096;

/// How often a sweep may pass each edge, on average.
const OFTEN: u128 = 64;

/// The ordinates at which vertical edges begin, and those at which they end, both sorted.
#[derive(Drop)]
struct Ends {
    lows: Vec<i64>,
    highs: Vec<i64>,
}

impl Ends {
    fn of(alloc: Global, rings: &Rings) -> Result<Ends, AllocError> {
        let mut ends = Ends {
            lows: Vec::new(alloc),
            highs: Vec::new(alloc),
        };
        for i in 0..rings.len() {
            ends.push(rings.ring(i))?;
        }
        ends.lows.sort_unstable();
        ends.highs.sort_unstable();
        Ok(ends)
    }

    /// Appends the ordinates of the edges of a ring.
    fn push(&mut self, ring: &[Point]) -> Result<(), AllocError> {
        let mut y = ring.last().map_or(0, |last| last.y);
        for point in ring {
            if point.y != y {
                self.lows.push(point.y.min(y))?;
                self.highs.push(point.y.max(y))?;
            }
            y = point.y;
        }
        Ok(())
    }

    /// The sum of the numbers of edges alive at the ordinates at which edges begin and at those at
    /// which edges end: at least the passes of a sweep, and at most twice as many.
    fn passes(&self) -> u128 {
        self.alive_at(&self.lows)
            .saturating_add(self.alive_at(&self.highs))
    }

    /// The sum of the numbers of edges alive at sorted ordinates. Repeated ordinates count once.
    fn alive_at(&self, ordinates: &[i64]) -> u128 {
        let mut begun = 0;
        let mut ended = 0;
        let mut alive: u128 = 0;
        let mut before = None;
        for y in ordinates {
            if before != Some(*y) {
                begun = passed(&self.lows, begun, *y);
                ended = passed(&self.highs, ended, *y);
                alive = alive.saturating_add(begun.saturating_sub(ended) as u128);
            }
            before = Some(*y);
        }
        alive
    }
}

/// How many of the sorted ordinates are at most `y`, given that the first `count` of them are.
fn passed(ordinates: &[i64], mut count: usize, y: i64) -> usize {
    while count < ordinates.len() && ordinates[count] <= y {
        count += 1;
    }
    count
}

/// Whether a sweep of the rings would pass each edge more often, on average, than [`OFTEN`]. The
/// edges are sorted to find out only if the bound by slices doesn't decide.
pub(crate) fn are_passed_often(alloc: Global, rings: &Rings) -> Result<bool, AllocError> {
    if rings.points().len() < FEW {
        return Ok(false);
    }
    let slices = Slices::of(alloc, rings)?;
    let most = slices.edges().saturating_mul(OFTEN);
    Ok(slices.passes() > most && Ends::of(alloc, rings)?.passes() > most)
}
