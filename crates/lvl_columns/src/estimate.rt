//! Estimates of the work of sweeps of a list of rings, with and without cuts. They guide a choice
//! of cost only, so they have no contracts.
//!
//! All sums are in 128 bits. A sample is at most 2^32 units high, and a list of rings has fewer
//! than 2^40 points on any machine of today, so sums of heights are below 2^72, and their products
//! with a number of edges below 2^112. For longer lists, sums and products saturate.

use crate::sample::{Sample, SampledRing, over};

/// The vertical edges of sampled rings, clipped to columns.
#[derive(Clone, Copy)]
struct Load {
    edges: u128,
    heights: u128,
    /// The number of rectangles that span a column. They are joined there.
    spanning: u128,
    /// The sum of their heights.
    spanned: u128,
}

/// The product of two numbers, for which 128 bits are enough.
fn product(a: u64, b: u64) -> u128 {
    u128::from(a) * u128::from(b)
}

impl Load {
    const NONE: Load = Load {
        edges: 0,
        heights: 0,
        spanning: 0,
        spanned: 0,
    };

    /// Adds a ring. Its edges are `height` high on average, `cuts` cuts go through it, and it spans
    /// `columns` columns.
    fn add(&mut self, ring: &SampledRing, height: u64, cuts: u64, columns: u64) {
        let spanning = columns.saturating_mul(ring.folds);
        let edges = ring
            .edges
            .saturating_add(cuts.saturating_mul(ring.folds).saturating_mul(2))
            .saturating_sub(spanning.saturating_mul(2));
        self.edges = self.edges.saturating_add(u128::from(edges));
        self.heights = self.heights.saturating_add(product(edges, height));
        self.spanning = self.spanning.saturating_add(u128::from(spanning));
        self.spanned = self.spanned.saturating_add(product(spanning, height));
    }

    /// The load of all rings of a list, given that of the sampled ones.
    fn scaled(self, rings: u128, sampled: u128) -> Load {
        let scale = |sum: u128| over(sum.saturating_mul(rings), sampled);
        Load {
            edges: scale(self.edges),
            heights: scale(self.heights),
            spanning: scale(self.spanning),
            spanned: scale(self.spanned),
        }
    }

    /// The load after the spanning pieces are joined and what is within them is dropped.
    fn joined(self, height: u128, columns: u128) -> Load {
        let room = height.saturating_mul(columns);
        let overlap = Overlap::of(self.spanned, room);
        let left = overlap.joined(self.spanning).saturating_mul(2);
        let heights = self.spanned.min(room).saturating_mul(2);
        Load {
            edges: overlap.uncovered(self.edges).saturating_add(left),
            heights: overlap.uncovered(self.heights).saturating_add(heights),
            ..self
        }
    }
}

/// How many spanning pieces overlap each other in a row, on average, in sixteenths. If they begin
/// at random, about `e` to the power of that number are joined to one.
#[derive(Clone, Copy)]
struct Overlap(u128);

impl Overlap {
    const MOST: u128 = 1 << 20;

    /// The overlap of pieces with the sum of heights `spanned` in columns with the sum of heights
    /// `room`.
    fn of(spanned: u128, room: u128) -> Overlap {
        let overlap = spanned.saturating_mul(16).checked_div(room).unwrap_or(0);
        Overlap(overlap.min(Overlap::MOST))
    }

    /// The square, the third and the fourth power, in units of 256, of 4,096 and of 65,536.
    fn powers(self) -> (u128, u128, u128) {
        let squared = self.0.saturating_mul(self.0);
        (
            squared,
            squared.saturating_mul(self.0),
            squared.saturating_mul(squared),
        )
    }

    /// How many rectangles are left of `pieces` pieces after they are joined, by the first terms of
    /// the series of `e`.
    fn joined(self, pieces: u128) -> u128 {
        let (second, third, fourth) = self.powers();
        let terms = [
            256,
            self.0.saturating_mul(16),
            second / 2,
            third / 96,
            fourth / 6_144,
        ];
        let sum = terms
            .iter()
            .fold(0, |sum: u128, term| sum.saturating_add(*term));
        over(pieces.saturating_mul(256), sum)
    }

    /// How many of `edges` edges aren't within one of the pieces, if they are about as high as
    /// these.
    fn uncovered(self, edges: u128) -> u128 {
        let (second, _, fourth) = self.powers();
        let sum = (second / 3)
            .saturating_add(fourth / 6_144)
            .saturating_add(256);
        over(edges.saturating_mul(256), sum)
    }
}

/// The work of sweeps. Its unit is to pass one edge in one row.
#[derive(Clone, Copy)]
pub struct Work {
    /// The number of edges.
    pub edges: u128,
    /// The sum of the numbers of edges alive at the ordinates at which a sweep stops, weighted as
    /// [`weighed`] says.
    pub passes: u128,
    /// The number of pieces that are joined before.
    pub joined: u128,
    /// The sum of the numbers of edges that are clipped when columns are halved again and again.
    pub clipped: u128,
}

impl Work {
    /// The work of all sweeps of a list that is cut at these abscissas, which are sorted.
    pub(crate) fn of(sample: &Sample, cuts: &[i64]) -> Work {
        let columns = (cuts.len() as u128).saturating_add(1);
        let height = sample.height();
        let sampled = (sample.sampled().len() as u128).max(1);
        let load = load_of(sample, cuts)
            .scaled(sample.rings(), sampled)
            .joined(height, columns);
        let room = sample.room(columns);
        let lines = over(sample.lines().min(height).saturating_mul(room), height);
        let stops = over(load.edges, columns).min(room).min(lines).min(height);
        let passes = over(stops.saturating_mul(load.heights), room);
        let alive = over(load.heights, room.saturating_mul(columns));
        Work {
            edges: load.edges,
            passes: weighed(passes, alive),
            joined: load.spanning,
            clipped: load.edges.saturating_mul(u128::from(columns.ilog2())),
        }
    }

    pub(crate) fn with(self, other: Work) -> Work {
        Work {
            edges: self.edges.saturating_add(other.edges),
            passes: self.passes.saturating_add(other.passes),
            joined: self.joined.saturating_add(other.joined),
            clipped: self.clipped.saturating_add(other.clipped),
        }
    }

    /// The cost of clipping, joining, sorting and sweeping in all, in passes of an edge. The
    /// factors are measured.
    fn cost(&self) -> u128 {
        self.passes
            .saturating_add(self.edges.saturating_mul(2))
            .saturating_add(self.joined.saturating_mul(4))
            .saturating_add(self.clipped / 2)
    }

    /// Whether this is less than nine tenths of the other.
    pub(crate) fn is_less_than(&self, other: &Work) -> bool {
        self.cost().saturating_mul(10) < other.cost().saturating_mul(9)
    }

    /// Whether the sweep is so little work that no cut can pay.
    pub(crate) fn is_little(&self) -> bool {
        self.passes < self.edges.saturating_mul(4)
    }
}

/// About how many edges alive in a row fit in the nearest caches.
const NEAR: u128 = 2_500;

/// The cost of `passes` passes with `alive` edges alive in a row. If these don't fit in the nearest
/// caches, each pass costs more, up to nine times as much.
fn weighed(passes: u128, alive: u128) -> u128 {
    let further = passes.saturating_mul(alive.min(NEAR * 8)) / NEAR;
    passes.saturating_add(further)
}

/// The load of the sampled rings, cut at these abscissas.
fn load_of(sample: &Sample, cuts: &[i64]) -> Load {
    let borders = sample.borders();
    let mut load = Load::NONE;
    for ring in sample.sampled() {
        let (through, spanned) = crossed(cuts, borders, ring);
        load.add(ring, sample.height_of(ring), through, spanned);
    }
    load
}

/// How many cuts go through a ring, and how many columns it spans. Without cuts it spans none, else
/// those that it reaches into, less those in which it begins, ends or has a further edge.
fn crossed(cuts: &[i64], borders: (i64, i64), ring: &SampledRing) -> (u64, u64) {
    if cuts.is_empty() {
        return (0, 0);
    }
    let (left, right) = borders;
    let before = cuts.partition_point(|cut| *cut <= ring.left);
    let after = cuts.partition_point(|cut| *cut < ring.right);
    let through = after.saturating_sub(before) as u64;
    let begins = ring.left != left && !is_cut(cuts, before.checked_sub(1), ring.left);
    let ends = ring.right != right && !is_cut(cuts, Some(after), ring.right);
    let spanned = through
        .saturating_add(1)
        .saturating_sub(u64::from(begins))
        .saturating_sub(u64::from(ends))
        .saturating_sub(ring.edges.saturating_sub(2));
    (through, spanned)
}

/// Whether the cut at an index, if there is one, is at this abscissa.
fn is_cut(cuts: &[i64], at: Option<usize>, x: i64) -> bool {
    match at {
        Some(index) => cuts.get(index) == Some(&x),
        None => false,
    }
}
