//! The band of a straight run.
ghost use Rattle.std.specs.Prelude.{◌≡◌, ◌<◌, length, IfOk, IfErr};
ghost use Rattle.lvl_path.specs.Runs.{run_band};
ghost use Rattle.lvl_path.specs.Bands.{band_between, band_ring, corner_ring, FitsBand};
ghost use Rattle.lvl_refusal.specs.Refused.{Says};

use crate::PathFault;
use crate::way::Way;
use lvl_grid::{Point, Ring};
use lvl_refusal::Cause;
use std::alloc::{AllocError, Global};

/// Half the width of a path, and how far it reaches beyond its start and its end, in grid steps.
#[derive(Clone, Copy)]
pub(crate) struct Reach {
    pub half: u64,
    pub start: u64,
    pub end: u64,
}

/// The squares with `x0 <= x < x1` and `y0 <= y < y1`. Any band fits in 128 bits.
#[derive(Clone, Copy)]
pub(crate) struct Band {
    pub x0: i128,
    pub y0: i128,
    pub x1: i128,
    pub y1: i128,
}

impl Band {
    /// The band of a run: `half` to both sides, `before` beyond its start and `after` beyond its
    /// end.
    pub(crate) fn between(from: Point, to: Point, half: u64, before: u64, after: u64) -> Band
        ensures { result ≡ band_between from to half before after }
    {
        let (half, before, after) = (i128::from(half), i128::from(before), i128::from(after));
        let (x0, y0) = (i128::from(from.x), i128::from(from.y));
        let (x1, y1) = (i128::from(to.x), i128::from(to.y));
        match Way::between(from, to) {
            Way::East => Band {
                x0: x0 - before,
                y0: y0 - half,
                x1: x1 + after,
                y1: y0 + half,
            },
            Way::North => Band {
                x0: x0 - half,
                y0: y0 - before,
                x1: x0 + half,
                y1: y1 + after,
            },
            Way::West => Band {
                x0: x1 - after,
                y0: y0 - half,
                x1: x0 + before,
                y1: y0 + half,
            },
            Way::South => Band {
                x0: x0 - half,
                y0: y1 - after,
                x1: x0 + half,
                y1: y0 + before,
            },
        }
    }

    /// The band as a ring: lower left, lower right, upper right, upper left. Out of range if a
    /// corner is outside 64 signed bits.
    pub(crate) fn ring(self, alloc: Global) -> Result<Ring, Cause<PathFault>>
        ensures ok { IfOk result (λ ring. ring ≡ band_ring self) }
        ensures fits { IfOk result (λ _. FitsBand self) }
        ensures err { IfErr result
            (λ refusal. Says refusal (λ fault. (fault ≡ PathFault.OutOfRange) × ¬ FitsBand self)) }
    {
        let (Ok(x0), Ok(y0)) = (i64::try_from(self.x0), i64::try_from(self.y0)) else {
            return Err(Cause::Breach(PathFault::OutOfRange));
        };
        let (Ok(x1), Ok(y1)) = (i64::try_from(self.x1), i64::try_from(self.y1)) else {
            return Err(Cause::Breach(PathFault::OutOfRange));
        };
        Ok(ring_between(alloc, Point { x: x0, y: y0 }, Point { x: x1, y: y1 })?)
    }
}

impl Reach {
    /// The band of the run between the points at two indexes. It reaches `half` beyond a corner,
    /// and beyond an end of the path the reach of that end.
    pub(crate) fn band(&self, points: &[Point], from: usize, to: usize) -> Band
        requires from_there { from < length points.now }
        requires to_there { to < length points.now }
        ensures { result ≡ run_band points.now self.now (from, to) }
    {
        let before = if from == 0 { self.start } else { self.half };
        let after = if to + 1 == points.len() {
            self.end
        } else {
            self.half
        };
        Band::between(points[from], points[to], self.half, before, after)
    }
}

/// The rectangle between two corners: lower left, lower right, upper right, upper left.
fn ring_between(alloc: Global, low: Point, high: Point) -> Result<Ring, AllocError>
    ensures { IfOk result (λ ring. ring ≡ corner_ring low high) }
{
    let corners = [
        low,
        Point {
            x: high.x,
            y: low.y,
        },
        high,
        Point {
            x: low.x,
            y: high.y,
        },
    ];
    match Ring::new(Vec::from_array(alloc, corners)?) {
        Ok(ring) => Ok(ring),
        Err(_) => unreachable!(),
    }
}
