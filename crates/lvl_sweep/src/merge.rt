//! The edges alive in a row, kept by abscissa within the list of all edges.
ghost use Rattle.std.specs.Prelude.{◌≡◌, ◌⊎◌, ◌<◌, ◌≤◌, ◌+◌, ℕ, ℤ, ◌<ℤ◌, ◌≤ℤ◌, length, Option, IsTrue, IfSome, IfNone};
ghost use Rattle.std.specs.Prelude.{false, slice_index_or};
ghost use Rattle.std.specs.List.{AllWithin, SwappedAt};
ghost use Rattle.std.specs.List.Sorted.{IsPermutation};
ghost use Rattle.lvl_sweep.specs.declared.edge.Edge.{Edge as EdgeValue};
ghost use Rattle.lvl_sweep.specs.inside.Edges.{IsLower};
ghost use Rattle.lvl_sweep.specs.inside.Runs.{RiseWithin, IsEndOf, IsSameWithin, IsSameFrom, IsMerging, AreFresh};
ghost use Rattle.lvl_sweep.specs.inside.Runs.{AreActive, IsRenewed};

use crate::edge::Edge;

/// The state of a merge, as indexes of the list of edges. The edges still to be put are those that
/// begin, from index `low` up to `fresh`, and those that were alive, from `from` up to `alive`.
/// Those that are put are from `first` up to `end`. All others below `end` have ended.
#[derive(Clone, Copy)]
pub struct Merge {
    pub low: usize,
    pub fresh: usize,
    pub from: usize,
    pub alive: usize,
    pub first: usize,
    pub end: usize,
    /// The least of the ordinates at which edges that are put end and the next edge begins.
    pub top: Option<i64>,
}

/// The lower of two ordinates, the second of which may be missing.
fn lower(a: i64, b: Option<i64>) -> i64
    ensures { IsLower a b result }
{
    match b {
        Some(y) if y <= a => y,
        _ => a,
    }
}

/// Whether the edge at index `i` ends above `y`.
fn reaches_above(edges: &[Edge], i: usize, y: i64) -> bool
    requires within { i < length edges.now }
    ensures above { IsTrue result → (d : EdgeValue) → y <ℤ (slice_index_or edges.now i d).high }
    ensures ended { result ≡ false → (d : EdgeValue) → (slice_index_or edges.now i d).high ≤ℤ y }
{
    y < edges[i].high
}

/// Exchanges `count` edges from index `to` on with as many from index `from` on, which come after
/// them.
fn exchange(edges: &mut [Edge], to: usize, from: usize, count: usize)
    requires apart { to + count ≤ from }
    requires within { from + count ≤ length edges.old }
    ensures permutation { IsPermutation edges.old edges.new }
    ensures there { (k : ℕ) (d : EdgeValue) → k < count → slice_index_or edges.new (to + k) d
        ≡ slice_index_or edges.old (from + k) d }
    ensures back { (k : ℕ) (d : EdgeValue) → k < count → slice_index_or edges.new (from + k) d
        ≡ slice_index_or edges.old (to + k) d }
    ensures before { IsSameWithin edges.old edges.new 0 to }
    ensures between { IsSameWithin edges.old edges.new (to + count) from }
    ensures later { IsSameFrom edges.old edges.new (from + count) }
{
    for i in 0..count {
        edges.swap(to + i, from + i);
    }
}

/// Exchanges the edges at two indexes. These are often equal: then nothing is done.
fn exchange_two(edges: &mut [Edge], i: usize, j: usize)
    requires first { i < length edges.old }
    requires second { j < length edges.old }
    ensures swapped { SwappedAt edges.old edges.new i j }
    ensures permutation { IsPermutation edges.old edges.new }
{
    if i != j {
        edges.swap(i, j);
    }
}

impl Merge {
    /// Whether some edges are still to be put.
    fn is_left(&self) -> bool
        ensures left { IsTrue result → self.now.low < self.now.fresh ⊎ self.now.from < self.now.alive }
        ensures over { result ≡ false → (self.now.fresh ≤ self.now.low) × (self.now.alive ≤ self.now.from) }
    {
        self.low < self.fresh || self.from < self.alive
    }

    /// Whether, of the edges still to be put, the last by abscissa is one that begins.
    fn is_fresh_last(&self, edges: &[Edge]) -> bool
        requires left { self.now.low < self.now.fresh ⊎ self.now.from < self.now.alive }
        requires fresh_within { self.now.fresh ≤ length edges.now }
        requires alive_within { self.now.alive ≤ length edges.now }
        ensures fresh { IsTrue result → AreFresh edges.now self.now }
        ensures active { result ≡ false → AreActive edges.now self.now }
    {
        self.low < self.fresh
            && (self.from >= self.alive || edges[self.alive - 1].x <= edges[self.fresh - 1].x)
    }

    /// Puts the edge at index `at` in front of those that are put.
    fn put(&mut self, edges: &mut [Edge], at: usize)
        requires at { at < self.old.first }
        requires within { self.old.first ≤ length edges.old }
        ensures swapped { SwappedAt edges.old edges.new at self.new.first }
        ensures permutation { IsPermutation edges.old edges.new }
        ensures first { self.new.first + 1 ≡ self.old.first }
        ensures low { self.new.low ≡ self.old.low }
        ensures fresh { self.new.fresh ≡ self.old.fresh }
        ensures from { self.new.from ≡ self.old.from }
        ensures alive { self.new.alive ≡ self.old.alive }
        ensures end { self.new.end ≡ self.old.end }
        ensures some { IfNone self.new.top ⊥ }
        ensures top { IfSome self.new.top
            (λ t. (d : EdgeValue) → IsLower (slice_index_or edges.old at d).high self.old.top t) }
    {
        self.first -= 1;
        self.top = Some(lower(edges[at].high, self.top));
        exchange_two(edges, at, self.first);
    }

    /// Puts the last by abscissa of the edges still to be put, or leaves it out if it ends by `y`.
    fn step(&mut self, edges: &mut [Edge], y: i64)
        requires merging { IsMerging edges.old y self.old }
        requires left { self.old.low < self.old.fresh ⊎ self.old.from < self.old.alive }
        ensures merging { IsMerging edges.new y self.new }
        ensures permutation { IsPermutation edges.old edges.new }
        ensures later { IsSameFrom edges.old edges.new self.old.end }
        ensures fewer { self.new.fresh + self.new.alive < self.old.fresh + self.old.alive }
        ensures end { self.new.end ≡ self.old.end }
        ensures top { (b : Option ℤ) → IsEndOf edges.old self.old.first self.old.end b self.old.top
            → IsEndOf edges.new self.new.first self.old.end b self.new.top }
    {
        if self.is_fresh_last(edges) {
            self.fresh -= 1;
            self.put(edges, self.fresh);
        } else {
            self.alive -= 1;
            if reaches_above(edges, self.alive, y) {
                self.put(edges, self.alive);
            }
        }
    }

    /// Puts all edges that are left.
    fn run(&mut self, edges: &mut [Edge], y: i64)
        requires merging { IsMerging edges.old y self.old }
        ensures merging { IsMerging edges.new y self.new }
        ensures over { (self.new.fresh ≤ self.new.low) × (self.new.alive ≤ self.new.from) }
        ensures permutation { IsPermutation edges.old edges.new }
        ensures later { IsSameFrom edges.old edges.new self.old.end }
        ensures end { self.new.end ≡ self.old.end }
        ensures top { (b : Option ℤ) → IsEndOf edges.old self.old.first self.old.end b self.old.top
            → IsEndOf edges.new self.new.first self.old.end b self.new.top }
    {
        while self.is_left() {
            self.step(edges, y);
        }
    }
}

/// The start of a merge if at least as many edges have ended as begin: those that begin change
/// places with as many that have ended.
fn start_by_exchange(
    edges: &mut [Edge],
    from: usize,
    next: usize,
    end: usize,
    top: Option<i64>,
) -> Merge
    requires many { end ≤ from + next }
    requires order { (from ≤ next) × (next ≤ end) × (end ≤ length edges.old) }
    ensures merging { (y : ℤ) → IsRenewed edges.old y from next end → IsMerging edges.new y result }
    ensures permutation { IsPermutation edges.old edges.new }
    ensures later { IsSameFrom edges.old edges.new end }
    ensures first { result.first ≡ end }
    ensures end { result.end ≡ end }
    ensures top { result.top ≡ top }
{
    let count = end - next;
    let low = from - count;
    exchange(edges, low, next, count);
    Merge {
        low,
        fresh: from,
        from,
        alive: next,
        first: end,
        end,
        top,
    }
}

/// The start of a merge if fewer edges have ended than begin: those alive and those that begin are
/// sorted together.
fn start_by_sort(edges: &mut [Edge], from: usize, end: usize, top: Option<i64>) -> Merge
    requires order { (from ≤ end) × (end ≤ length edges.old) }
    ensures merging { (y : ℤ) (next : ℕ) → IsRenewed edges.old y from next end → IsMerging edges.new y result }
    ensures permutation { IsPermutation edges.old edges.new }
    ensures later { IsSameFrom edges.old edges.new end }
    ensures first { result.first ≡ end }
    ensures end { result.end ≡ end }
    ensures top { result.top ≡ top }
{
    edges[from..end].sort_unstable_by_key(|edge| edge.x);
    Merge {
        low: from,
        fresh: from,
        from,
        alive: end,
        first: end,
        end,
        top,
    }
}

/// The start of a merge.
fn start(edges: &mut [Edge], from: usize, next: usize, end: usize, top: Option<i64>) -> Merge
    requires order { (from ≤ next) × (next ≤ end) × (end ≤ length edges.old) }
    ensures merging { (y : ℤ) → IsRenewed edges.old y from next end → IsMerging edges.new y result }
    ensures permutation { IsPermutation edges.old edges.new }
    ensures later { IsSameFrom edges.old edges.new end }
    ensures first { result.first ≡ end }
    ensures end { result.end ≡ end }
    ensures top { result.top ≡ top }
{
    if end - next <= from {
        start_by_exchange(edges, from, next, end, top)
    } else {
        start_by_sort(edges, from, end, top)
    }
}

/// Goes on to row `y`: drops those of the edges from index `from` up to `next` that end by `y`, and
/// takes in those from `next` up to `end`, which begin at `y`. The edges alive are then those from
/// the result's `first` up to `end`, and the strip of rows ends at its `top`. `begins` is the
/// ordinate at which the next edge begins, if there is one.
pub(crate) fn renew(
    edges: &mut [Edge],
    from: usize,
    next: usize,
    end: usize,
    y: i64,
    begins: Option<i64>,
) -> Merge
    requires renewed { IsRenewed edges.old y from next end }
    ensures within { result.first ≤ end }
    ensures permutation { IsPermutation edges.old edges.new }
    ensures later { IsSameFrom edges.old edges.new end }
    ensures ended { AllWithin (λ e. e.high ≤ℤ y) edges.new 0 result.first }
    ensures begun { AllWithin (λ e. e.low ≤ℤ y) edges.new 0 end }
    ensures alive { AllWithin (λ e. y <ℤ e.high) edges.new result.first end }
    ensures rising { RiseWithin edges.new result.first end }
    ensures top { IsEndOf edges.new result.first end begins result.top }
{
    let mut merge = start(edges, from, next, end, begins);
    merge.run(edges, y);
    merge
}
