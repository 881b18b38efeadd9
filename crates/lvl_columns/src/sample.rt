//! Some rings of a list, taken at random, from which the work of a sweep is estimated. They guide a
//! choice of cost only, so they have no contracts.

use lvl_grid::{Point, Rings, Window};
use lvl_simplify::Outline;
use std::alloc::{AllocError, Global};

/// A window that has no point.
const NOWHERE: Window = Window {
    x0: i64::MAX,
    y0: i64::MAX,
    x1: i64::MIN,
    y1: i64::MIN,
};

/// A Lehmer generator of pseudo-random numbers. Its seed is fixed, so that a comparison takes the
/// same steps each time.
#[derive(Drop)]
pub(crate) struct Random(u64);

impl Random {
    pub(crate) fn new() -> Random {
        Random(12_345)
    }

    /// The next number, below `most`, or 0 if `most` is 0. A state is below 2^31, so the product is
    /// below 2^47.
    pub(crate) fn below(&mut self, most: usize) -> usize {
        self.0 = self.0.saturating_mul(48_271) % 0x7FFF_FFFF;
        (self.0 as usize).checked_rem(most).unwrap_or(0)
    }
}

/// What an estimate needs of a sampled ring. It is taken once, since a sample is estimated with many
/// numbers of columns.
#[derive(Clone, Copy)]
pub struct SampledRing {
    /// The least abscissa.
    pub left: i64,
    /// The greatest abscissa.
    pub right: i64,
    /// The number of vertical edges.
    pub edges: u64,
    /// The length of a vertical edge on average, in grid steps.
    pub height: u64,
    /// How many rectangles the ring leaves in a narrow column ([`Outline::folds`]).
    pub folds: u64,
}

/// The number, or the greatest of 64 bits if it is more.
fn narrowed(number: u128) -> u64 {
    u64::try_from(number).unwrap_or(u64::MAX)
}

impl SampledRing {
    fn of(outline: &Outline) -> SampledRing {
        SampledRing {
            left: outline.left,
            right: outline.right,
            edges: narrowed(outline.edges),
            height: narrowed(outline.heights.checked_div(outline.edges).unwrap_or(0)),
            folds: narrowed(outline.folds()),
        }
    }
}

/// Some rings of a list, taken at random, or all of them if there are few, and what they say of the
/// list without cuts.
#[derive(Drop)]
pub struct Sample {
    sampled: Vec<SampledRing>,
    points: Vec<Point>,
    ordinates: Vec<i64>,
    rings: u128,
    bounds: Window,
    unit: u128,
    /// The height of the sampled rings together, in units.
    height: u128,
    lines: u128,
    scattering: u128,
}

/// The quotient, or the greatest number if the divisor is 0.
pub(crate) fn over(a: u128, b: u128) -> u128 {
    a.checked_div(b).unwrap_or(u128::MAX)
}

/// The least number of rings that are taken, if there are that many.
const LEAST: usize = 256;

/// The greatest number of rings that are taken.
const MOST: usize = 4096;

/// One of that many points of a ring is taken, since points close to each other are often on one
/// line.
const APART: usize = 16;

/// Fewer points than this don't show how shapes are scattered.
const FEW: u128 = 16;

impl Sample {
    pub(crate) fn of(alloc: Global, rings: &Rings) -> Result<Sample, AllocError> {
        let taken = (rings.len() / 64).clamp(LEAST, MOST).min(rings.len());
        let mut sample = Sample {
            sampled: Vec::with_capacity(alloc, taken)?,
            points: Vec::with_capacity(alloc, taken)?,
            ordinates: Vec::with_capacity(alloc, taken)?,
            rings: rings.len() as u128,
            bounds: NOWHERE,
            unit: 1,
            height: 0,
            lines: 0,
            scattering: 0,
        };
        let mut random = Random::new();
        let points = LEAST.checked_div(rings.len()).unwrap_or(1).max(1);
        for i in 0..taken {
            let number = if rings.len() <= taken {
                i
            } else {
                random.below(rings.len())
            };
            if let Some(ring) = rings.get(number) {
                sample.push(ring, points, &mut random)?;
            }
        }
        sample.measure();
        Ok(sample)
    }

    /// Finds what the sampled rings say of the list.
    fn measure(&mut self) {
        self.points.sort_unstable_by_key(|point| point.x);
        self.ordinates.sort_unstable();
        self.unit = over(self.steps(), 1 << 32).saturating_add(1);
        self.height = self.scaled(self.steps());
        self.lines = self.estimated_lines();
        self.scattering = self.estimated_scattering();
    }

    /// Takes a ring, and at most `most` of its points (one if that is 0).
    fn push(&mut self, ring: &[Point], most: usize, random: &mut Random) -> Result<(), AllocError> {
        let outline = Outline::of(ring);
        self.sampled.push(SampledRing::of(&outline))?;
        self.bounds = Window {
            x0: self.bounds.x0.min(outline.left),
            y0: self.bounds.y0.min(outline.low),
            x1: self.bounds.x1.max(outline.right),
            y1: self.bounds.y1.max(outline.high),
        };
        for _ in 0..(ring.len() / APART).min(most).max(1) {
            if let Some(point) = ring.get(random.below(ring.len())) {
                self.points.push(*point)?;
                self.ordinates.push(point.y)?;
            }
        }
        Ok(())
    }

    /// The sampled rings.
    pub(crate) fn sampled(&self) -> &[SampledRing] {
        &self.sampled
    }

    /// The sampled points, in order of abscissa.
    pub(crate) fn points(&self) -> &[Point] {
        &self.points
    }

    /// The number of rings of the list.
    pub(crate) fn rings(&self) -> u128 {
        self.rings
    }

    /// The height of the sampled rings together, in grid steps.
    fn steps(&self) -> u128 {
        if self.bounds.y1 < self.bounds.y0 {
            return 0;
        }
        u128::from(self.bounds.y1.abs_diff(self.bounds.y0))
    }

    /// A height in units, given in grid steps. The sampled rings together are at most 2^32 units
    /// high, so products of heights and numbers of edges fit in 128 bits.
    fn scaled(&self, steps: u128) -> u128 {
        over(steps, self.unit)
    }

    /// The length of a vertical edge of a sampled ring on average, in units.
    pub(crate) fn height_of(&self, ring: &SampledRing) -> u64 {
        if self.unit == 1 {
            return ring.height;
        }
        narrowed(over(u128::from(ring.height), self.unit))
    }

    /// The height of the sampled rings together, in units.
    pub(crate) fn height(&self) -> u128 {
        self.height
    }

    /// An estimate of the number of distinct ordinates of points.
    pub(crate) fn lines(&self) -> u128 {
        self.lines
    }

    /// That number, by how often two sampled points have the same ordinate.
    fn estimated_lines(&self) -> u128 {
        let many = self.ordinates.len() as u128;
        let mut meetings: u128 = 0;
        let mut before = None;
        for y in &self.ordinates {
            if before == Some(*y) {
                meetings = meetings.saturating_add(1);
            }
            before = Some(*y);
        }
        over(many.saturating_mul(many), meetings.saturating_mul(2))
    }

    /// How far apart along `y` sampled points are that are neighbors along `x`, on average, in
    /// 256ths of a third of the height. It is about 256 if shapes are scattered, and less if they
    /// are along a slope.
    fn estimated_scattering(&self) -> u128 {
        let mut apart: u128 = 0;
        let mut before: Option<Point> = None;
        for point in &self.points {
            if let Some(last) = before {
                apart = apart.saturating_add(u128::from(point.y.abs_diff(last.y)));
            }
            before = Some(*point);
        }
        let many = self.points.len() as u128;
        if many < FEW {
            return 256;
        }
        let apart = self.scaled(apart);
        over(
            apart.saturating_mul(768),
            many.saturating_mul(self.height()),
        )
        .min(256)
    }

    /// The height of the part of a column that has shapes, on average, if there are `columns`
    /// columns, in units.
    pub(crate) fn room(&self, columns: u128) -> u128 {
        let part = self.scattering.max(over(256, columns));
        (self.height().saturating_mul(part) / 256).max(1)
    }

    /// The least and the greatest abscissa of the sampled rings.
    pub(crate) fn borders(&self) -> (i64, i64) {
        (self.bounds.x0, self.bounds.x1)
    }
}
