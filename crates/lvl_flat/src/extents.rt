//! About how far the rings of a figure reach, or the edges of a long ring.
ghost use Rattle.std.specs.Prelude.{◌<◌, length};

use lvl_cells::{MovedRing, Shapes};
use lvl_grid::Point;

/// If a figure or a ring has at least so many points, they are taken to be all over its box: a window has its share of
/// them.
pub(crate) const LONG: u64 = 64;

/// How many rings of a figure, and how many corners of a ring, are looked at to estimate how far one of them reaches.
const SAMPLES: usize = 4;

/// How far something reaches along both axes.
#[derive(Clone, Copy)]
pub(crate) struct Extent {
    pub across: u64,
    pub up: u64,
}

impl Extent {
    /// That of a point.
    pub(crate) const NONE: Extent = Extent { across: 0, up: 0 };

    /// That of what has two points as opposite corners.
    pub(crate) fn between(low: Point, high: Point) -> Extent {
        Extent {
            across: low.x.abs_diff(high.x),
            up: low.y.abs_diff(high.y),
        }
    }

    /// The sum of both.
    fn plus(self, other: Extent) -> Extent {
        Extent {
            across: self.across.saturating_add(other.across),
            up: self.up.saturating_add(other.up),
        }
    }

    /// The mean of so many whose sum this is.
    fn mean(self, count: usize) -> Extent {
        let count = count.max(1) as u64;
        Extent {
            across: self.across / count,
            up: self.up / count,
        }
    }
}

/// About how far the two edges at a corner of a ring reach.
fn extent_of_corners(ring: &MovedRing<'_>) -> Extent {
    let step = ring.len() / SAMPLES;
    let mut sum = Extent::NONE;
    for k in 0..SAMPLES {
        let first = k.saturating_mul(step);
        if let (Some(from), Some(to)) = (ring.get(first), ring.get(first.saturating_add(2))) {
            sum = sum.plus(Extent::between(from, to));
        }
    }
    sum.mean(SAMPLES)
}

/// How far a ring reaches, or the edges at one of its corners if it is long.
fn extent_of_ring(ring: &MovedRing<'_>) -> Extent {
    if ring.len() as u64 >= LONG {
        return extent_of_corners(ring);
    }
    match ring.reach() {
        Some((low, high)) => Extent::between(low, high),
        None => Extent::NONE,
    }
}

/// About how far a ring of a figure reaches.
pub(crate) fn extent_of_figure(shapes: &Shapes, i: usize) -> Extent
    requires { i < length shapes.now }
{
    let count = shapes.ring_count(i);
    let samples = count.min(SAMPLES);
    let step = count / samples.max(1);
    let mut sum = Extent::NONE;
    for k in 0..samples {
        let j = k.saturating_mul(step);
        if j < count {
            sum = sum.plus(extent_of_ring(&shapes.ring(i, j)));
        }
    }
    sum.mean(samples)
}
