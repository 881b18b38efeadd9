//! Strips: the rows between consecutive ordinates at which edges begin or end, from the lowest on.
ghost use Rattle.std.specs.Prelude.{◌≡◌, ◌<◌, ◌≤◌, ◌+◌, ◌*◌, length, [], ℤ, ◌<ℤ◌, ◌≤ℤ◌, slice_index_or};
ghost use Rattle.std.specs.Prelude.{IfOk, IfSome, IfNone, count_by};
ghost use Rattle.std.specs.List.{AllWithin};
ghost use Rattle.std.specs.Vec.{vec_len, vec_capacity};
ghost use Rattle.lvl_sweep.specs.Bands.{is_vertical, all_edges};
ghost use Rattle.lvl_sweep.specs.inside.Alive.{AreEdgesOf, HasSame};
ghost use Rattle.lvl_sweep.specs.inside.Edges.{IsBeginOf};
ghost use Rattle.lvl_sweep.specs.inside.Rows.{row_at};
ghost use Rattle.lvl_sweep.specs.declared.edge.Edge.{Edge as EdgeValue};

use crate::edge::{Edge, edges_of};
use crate::merge::renew;
use crate::walk::collect_row;
use crate::windings::Windings;
use lvl_grid::RingList;
use std::alloc::{AllocError, Global};

/// The index of the first edge, from index `from` on, that begins above `y`.
fn end_of_start(edges: &[Edge], from: usize, y: i64) -> usize
    requires within { from ≤ length edges.now }
    ensures within { result ≤ length edges.now }
    ensures after { from ≤ result }
    ensures begun { AllWithin (λ e. e.low ≤ℤ y) edges.now from result }
    ensures coming { result < length edges.now → (d : EdgeValue) → y <ℤ (slice_index_or edges.now result d).low }
{
    for i in from..edges.len() {
        if y < edges[i].low {
            return i;
        }
    }
    edges.len()
}

/// The ordinate at which the edge at index `i` begins, or None if there is no such edge.
fn begins_at(edges: &[Edge], i: usize) -> Option<i64>
    ensures { IsBeginOf edges.now i result }
{
    if i < edges.len() {
        Some(edges[i].low)
    } else {
        None
    }
}

/// All vertical edges in one list: before index `from` those that have ended, then up to `next`
/// those alive in row `y`, in order of abscissa, and then those still to come, in order of the
/// ordinate at which they begin.
#[derive(Debug, Drop)]
pub struct Strips {
    pub edges: Vec<Edge>,
    pub from: usize,
    pub next: usize,
    /// Where the strip ends, or None if no edge is alive or still to come.
    pub top: Option<i64>,
    pub windings: Windings,
    pub y: i64,
}

impl Strips {
    ghost use Rattle.lvl_sweep.specs.inside.Strips.{IsAt, CanLoad, IsTop, IsOver};

    /// The strips of these rings, at the lowest one.
    pub(crate) fn new<R: RingList>(alloc: Global, rings: &R) -> Result<Strips, AllocError>
        ensures at { IfOk result (λ s. IsAt s) }
        ensures edges { IfOk result (λ s. AreEdgesOf (R.rings rings.now) s.edges.items) }
        ensures many { IfOk result (λ s. length s.edges.items ≡ count_by is_vertical (all_edges (R.rings rings.now))) }
        ensures counts { IfOk result (λ s. length s.windings.counts.items ≡ length (R.rings rings.now)) }
        ensures lowest { IfOk result (λ s. (v : ℤ) → v <ℤ s.y → row_at s.edges.items v ≡ []) }
    {
        let edges = edges_of(alloc, rings)?;
        let mut strips = Strips {
            from: 0,
            next: 0,
            top: None,
            windings: Windings::new(alloc, rings.len())?,
            y: 0,
            edges,
        };
        if let Some(y) = begins_at(&strips.edges, 0) {
            strips.load(y);
        }
        Ok(strips)
    }

    /// Where the strip ends, or None if no edge is alive or still to come.
    pub(crate) fn top(&self) -> Option<i64>
        requires { IsAt self.now }
        ensures top { IfSome result (λ t. IsTop self.now t) }
        ensures over { IfNone result (IsOver self.now) }
    {
        self.top
    }

    /// Goes on to the strip that begins at `y`.
    pub(crate) fn load(&mut self, y: i64)
        requires { CanLoad self.old y }
        ensures at { IsAt self.new }
        ensures here { self.new.y ≡ y }
        ensures edges { HasSame self.old.edges.items self.new.edges.items }
        ensures windings { self.new.windings ≡ self.old.windings }
    {
        let end = end_of_start(&self.edges, self.next, y);
        let begins = begins_at(&self.edges, end);
        let merge = renew(&mut self.edges, self.from, self.next, end, y, begins);
        self.from = merge.first;
        self.next = end;
        self.top = merge.top;
        self.y = y;
    }

    /// Replaces `intervals` by the intervals of the strip.
    pub(crate) fn collect(&mut self, intervals: &mut Vec<(i64, i64)>)
        requires at { IsAt self.old }
        requires room { length self.old.edges.items ≤ 2 * vec_capacity intervals.old + 1 }
        ensures at { IsAt self.new }
        ensures here { self.new.y ≡ self.old.y }
        ensures edges { self.new.edges.items ≡ self.old.edges.items }
        ensures row { intervals.new.items ≡ row_at self.old.edges.items self.old.y }
        ensures few { 2 * vec_len intervals.new ≤ length self.old.edges.items }
        ensures capacity { vec_capacity intervals.new ≡ vec_capacity intervals.old }
    {
        collect_row(
            &self.edges[self.from..self.next],
            &mut self.windings,
            intervals,
        );
    }
}
