//! The vertical edges of rings, in the order in which a sweep meets them.
ghost use Rattle.std.specs.Prelude.{◌≡◌, ◌<◌, ◌+◌, ◌&&◌, ◌==◌, ℕ, ◌<ℤ◌, All, length, count_by, IfOk, IfSome};
ghost use Rattle.std.specs.Prelude.{if◌then◌else◌};
ghost use Rattle.lvl_grid.specs.declared.point.Square.{Square as GridSquare};
ghost use Rattle.lvl_grid.specs.Winding.{goes_up, goes_down, edges as steps_round};
ghost use Rattle.lvl_sweep.specs.inside.Alive.{any_edge, edge_is, rises, falls, AreEdgesOf, AreInOrder};
ghost use Rattle.lvl_sweep.specs.Bands.{is_vertical, all_edges};

use lvl_grid::{Point, RingList};
use std::alloc::{AllocError, Global};

/// A vertical edge of the ring with the index `ring`, at the abscissa `x`: it crosses the rows from
/// `low` up to `high`, which is excluded, upward or downward.
#[derive(Clone, Copy, Debug)]
pub struct Edge {
    pub low: i64,
    pub x: i64,
    pub high: i64,
    pub ring: u32,
    pub up: bool,
}

/// The index of a ring as an edge stores it. 2^32 or more is reported as out of memory (own rule).
fn kept_number(number: usize) -> Result<u32, AllocError>
    ensures { IfOk result (λ kept. kept ≡ number) }
{
    u32::try_from(number).map_err(|_| AllocError)
}

/// The vertical edge from one point to the next, or None if both have the same ordinate.
fn edge_between(ring: u32, from: Point, to: Point) -> Option<Edge>
    ensures rising { (r : ℕ) (s : GridSquare) → edge_is (rises r s) result ≡ ((ring == r) && goes_up s (from, to)) }
    ensures falling { (r : ℕ) (s : GridSquare) → edge_is (falls r s) result ≡ ((ring == r) && goes_down s (from, to)) }
    ensures vertical { edge_is any_edge result ≡ is_vertical (from, to) }
    ensures number { IfSome result (λ e. (e.ring ≡ ring) × (e.low <ℤ e.high)) }
{
    if from.y < to.y {
        return Some(Edge {
            low: from.y,
            x: from.x,
            high: to.y,
            ring,
            up: true,
        });
    }
    if to.y < from.y {
        return Some(Edge {
            low: to.y,
            x: from.x,
            high: from.y,
            ring,
            up: false,
        });
    }
    None
}

/// Appends the vertical edge from one point to the next, unless both have the same ordinate.
fn push_edge(edges: &mut Vec<Edge>, ring: u32, from: Point, to: Point) -> Result<(), AllocError>
    ensures rising { IfOk result (λ _. (r : ℕ) (s : GridSquare) → count_by (rises r s) edges.new.items
        ≡ count_by (rises r s) edges.old.items + (if (ring == r) && goes_up s (from, to) then 1 else 0)) }
    ensures falling { IfOk result (λ _. (r : ℕ) (s : GridSquare) → count_by (falls r s) edges.new.items
        ≡ count_by (falls r s) edges.old.items + (if (ring == r) && goes_down s (from, to) then 1 else 0)) }
    ensures many { IfOk result (λ _. count_by any_edge edges.new.items
        ≡ count_by any_edge edges.old.items + (if is_vertical (from, to) then 1 else 0)) }
    ensures numbers { IfOk result (λ _. (n : ℕ) → ring < n → All (λ e. e.ring < n) edges.old.items
        → All (λ e. e.ring < n) edges.new.items) }
    ensures full { IfOk result (λ _. All (λ e. e.low <ℤ e.high) edges.old.items
        → All (λ e. e.low <ℤ e.high) edges.new.items) }
{
    if let Some(edge) = edge_between(ring, from, to) {
        edges.push(edge)?;
    }
    Ok(())
}

/// Appends the vertical edges of a ring.
fn push_edges(edges: &mut Vec<Edge>, ring: u32, points: &[Point]) -> Result<(), AllocError>
    requires { 0 < length points.now }
    ensures rising { IfOk result (λ _. (r : ℕ) (s : GridSquare) → count_by (rises r s) edges.new.items
        ≡ count_by (rises r s) edges.old.items
        + (if ring == r then count_by (goes_up s) (steps_round points.now) else 0)) }
    ensures falling { IfOk result (λ _. (r : ℕ) (s : GridSquare) → count_by (falls r s) edges.new.items
        ≡ count_by (falls r s) edges.old.items
        + (if ring == r then count_by (goes_down s) (steps_round points.now) else 0)) }
    ensures many { IfOk result (λ _. count_by any_edge edges.new.items
        ≡ count_by any_edge edges.old.items + count_by is_vertical (steps_round points.now)) }
    ensures numbers { IfOk result (λ _. (n : ℕ) → ring < n → All (λ e. e.ring < n) edges.old.items
        → All (λ e. e.ring < n) edges.new.items) }
    ensures full { IfOk result (λ _. All (λ e. e.low <ℤ e.high) edges.old.items
        → All (λ e. e.low <ℤ e.high) edges.new.items) }
{
    let mut previous = points[points.len() - 1];
    for point in points {
        push_edge(edges, ring, previous, *point)?;
        previous = *point;
    }
    Ok(())
}

/// The number of vertical edges of a ring.
fn how_many_of(points: &[Point]) -> usize {
    let mut many: usize = 0;
    let mut y = points.last().map_or(0, |last| last.y);
    for point in points {
        if point.y != y {
            many = many.saturating_add(1);
        }
        y = point.y;
    }
    many
}

/// The number of vertical edges of all rings.
fn how_many<R: RingList>(rings: &R) -> usize {
    let mut many: usize = 0;
    for number in 0..rings.len() {
        many = many.saturating_add(how_many_of(rings.ring(number)));
    }
    many
}

/// The vertical edges of all rings, in order of the ordinate at which they begin, then of abscissa.
pub(crate) fn edges_of<R: RingList>(alloc: Global, rings: &R) -> Result<Vec<Edge>, AllocError>
    ensures edges { IfOk result (λ edges. AreEdgesOf (R.rings rings.now) edges.items) }
    ensures many { IfOk result (λ edges. length edges.items ≡ count_by is_vertical (all_edges (R.rings rings.now))) }
    ensures order { IfOk result (λ edges. AreInOrder edges.items) }
{
    let mut edges = Vec::with_capacity(alloc, how_many(rings))?;
    for number in 0..rings.len() {
        let kept = kept_number(number)?;
        push_edges(&mut edges, kept, rings.ring(number))?;
    }
    edges.sort_unstable_by_key(|edge| (edge.low, edge.x));
    Ok(edges)
}
