//! The height of a list of rings, cut into slices: a bound on the passes of a sweep, without
//! sorting.

use lvl_grid::{Point, Rings};
use std::alloc::{AllocError, Global};

/// There are at most 2^(`BITS` + 1) slices.
const BITS: u32 = 18;

/// The number of edges that begin in a slice, and of those that end there.
#[derive(Clone, Copy)]
struct Slice {
    begun: usize,
    ended: usize,
}

/// Slices of the height of a list, from the lowest on: at most about two for each point of the
/// list, and at most 524,288.
#[derive(Drop)]
pub struct Slices {
    slices: Vec<Slice>,
    low: i64,
    /// The height of each slice is two to the power of this.
    shift: u32,
    edges: usize,
}

/// The least and the greatest ordinate of points.
fn extent_along_y(points: &[Point]) -> (i64, i64) {
    let mut low = i64::MAX;
    let mut high = i64::MIN;
    for point in points {
        low = low.min(point.y);
        high = high.max(point.y);
    }
    (low, high)
}

impl Slices {
    pub(crate) fn of(alloc: Global, rings: &Rings) -> Result<Slices, AllocError> {
        let (low, high) = extent_along_y(rings.points());
        let height = high.abs_diff(low);
        let bits = rings.points().len().checked_ilog2().unwrap_or(0).min(BITS);
        let shift = height.checked_ilog2().unwrap_or(0).saturating_sub(bits);
        let last = height.checked_shr(shift).unwrap_or(0) as usize;
        let none = Slice { begun: 0, ended: 0 };
        let mut slices = Slices {
            slices: vec![in alloc; none; last.saturating_add(1)]?,
            low,
            shift,
            edges: 0,
        };
        for i in 0..rings.len() {
            slices.add(rings.ring(i));
        }
        Ok(slices)
    }

    /// The index of the slice that has an ordinate.
    fn at(&self, y: i64) -> usize {
        y.abs_diff(self.low).checked_shr(self.shift).unwrap_or(0) as usize
    }

    /// Adds the vertical edges of a ring.
    fn add(&mut self, ring: &[Point]) {
        let mut y = ring.last().map_or(0, |last| last.y);
        for point in ring {
            if point.y != y {
                self.add_edge(point.y.min(y), point.y.max(y));
            }
            y = point.y;
        }
    }

    fn add_edge(&mut self, low: i64, high: i64) {
        let (first, last) = (self.at(low), self.at(high));
        if let Some(slice) = self.slices.get_mut(first) {
            slice.begun = slice.begun.saturating_add(1);
        }
        if let Some(slice) = self.slices.get_mut(last) {
            slice.ended = slice.ended.saturating_add(1);
        }
        self.edges = self.edges.saturating_add(1);
    }

    /// The number of vertical edges.
    pub(crate) fn edges(&self) -> u128 {
        self.edges as u128
    }

    /// The passes of a sweep if all edges of each slice were alive at all of its ordinates: at
    /// least the true number, and close to it if slices have few edges.
    pub(crate) fn passes(&self) -> u128 {
        let rows = 1usize.checked_shl(self.shift).unwrap_or(usize::MAX);
        let mut alive: usize = 0;
        let mut passes: u128 = 0;
        for slice in &self.slices {
            alive = alive.saturating_add(slice.begun);
            let ends = slice.begun.saturating_add(slice.ended).min(rows);
            passes = passes.saturating_add(ends as u128 * alive as u128);
            alive = alive.saturating_sub(slice.ended);
        }
        passes
    }
}
