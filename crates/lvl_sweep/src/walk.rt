//! The walk over the edges of one row, from left to right, that finds the intervals covered there.
ghost use Rattle.std.specs.Prelude.{◌≡◌, ◌≢◌, ◌<◌, ◌≤◌, ◌+◌, ◌*◌, ◌++◌, ◌∷◌, [], ℕ, length, not, false, IsTrue};
ghost use Rattle.std.specs.Prelude.{IfSome, IfNone, slice_index_or};
ghost use Rattle.std.specs.Vec.{vec_len, vec_capacity};
ghost use Rattle.lvl_sweep.specs.declared.edge.Edge.{Edge as EdgeValue};
ghost use Rattle.lvl_sweep.specs.inside.Edges.{AreAtRest};
ghost use Rattle.lvl_sweep.specs.inside.Rows.{row, row_from};
ghost use Rattle.lvl_sweep.specs.inside.Walks.{IsRowOf, HasPassed, IsPartedAt, IsParted, is_inside, HasTurned};
ghost use Rattle.lvl_sweep.specs.inside.Walks.{NeverTurns};

use crate::edge::Edge;
use crate::windings::Windings;

/// How far a walk has come: it has passed `at` edges, the last of them at the abscissa `x`.
#[derive(Clone, Copy)]
pub struct WalkPosition {
    pub at: usize,
    pub x: Option<i64>,
}

/// Whether there is an edge at index `i`, and its abscissa is `x`.
fn stands_at(active: &[Edge], i: usize, x: i64) -> bool
    ensures within { IsTrue result → i < length active.now }
    ensures here { IsTrue result → (d : EdgeValue) → (slice_index_or active.now i d).x ≡ x }
    ensures elsewhere { result ≡ false → i < length active.now → (d : EdgeValue)
        → (slice_index_or active.now i d).x ≢ x }
{
    i < active.len() && active[i].x == x
}

/// Passes the edge at index `at` and all after it at the same abscissa. Returns the index of the
/// next one.
fn pass_abscissa(active: &[Edge], at: usize, windings: &mut Windings) -> usize
    requires left { at < length active.now }
    requires row { IsRowOf active.now (length windings.old.counts.items) }
    requires passed { HasPassed active.now at windings.old }
    ensures passed { HasPassed active.now result windings.new }
    ensures parted { (d : EdgeValue) → IsPartedAt active.now result (slice_index_or active.now at d).x }
    ensures on { at < result }
    ensures rings { length windings.new.counts.items ≡ length windings.old.counts.items }
{
    let x = active[at].x;
    let mut next = at;
    while stands_at(active, next, x) {
        windings.pass(active[next].ring as usize, active[next].up);
        next += 1;
    }
    next
}

/// Passes edges until the squares after them are inside, or outside if `wanted` is false, and
/// returns the abscissa of the last one. None if that doesn't happen before the end of the row.
fn pass_until(
    active: &[Edge],
    position: &mut WalkPosition,
    windings: &mut Windings,
    wanted: bool,
) -> Option<i64>
    requires row { IsRowOf active.now (length windings.old.counts.items) }
    requires passed { HasPassed active.now position.old.at windings.old }
    requires parted { IsParted active.now position.old.at position.old.x }
    requires side { is_inside windings.old ≡ not wanted }
    ensures passed { HasPassed active.now position.new.at windings.new }
    ensures parted { IsParted active.now position.new.at position.new.x }
    ensures rings { length windings.new.counts.items ≡ length windings.old.counts.items }
    ensures turned { IfSome result (λ x. HasTurned active.now wanted position.old position.new windings.new x) }
    ensures never { IfNone result (NeverTurns active.now wanted position.old position.new) }
{
    while position.at < active.len() {
        let x = active[position.at].x;
        let at = pass_abscissa(active, position.at, windings);
        *position = WalkPosition { at, x: Some(x) };
        if (windings.turning != 0) == wanted {
            return Some(x);
        }
    }
    None
}

/// The next interval that is covered, or None if the row has no more.
fn next_interval(
    active: &[Edge],
    position: &mut WalkPosition,
    windings: &mut Windings,
) -> Option<(i64, i64)>
    requires row { IsRowOf active.now (length windings.old.counts.items) }
    requires passed { HasPassed active.now position.old.at windings.old }
    requires parted { IsParted active.now position.old.at position.old.x }
    requires outside { is_inside windings.old ≡ false }
    ensures passed { HasPassed active.now position.new.at windings.new }
    ensures parted { IsParted active.now position.new.at position.new.x }
    ensures rings { length windings.new.counts.items ≡ length windings.old.counts.items }
    ensures first { IfSome result (λ i. row_from active.now position.old.x ≡ i ∷ row_from active.now position.new.x) }
    ensures outside { IfSome result (λ _. is_inside windings.new ≡ false) }
    ensures on { IfSome result (λ _. position.old.at + 2 ≤ position.new.at) }
    ensures none { IfNone result (row_from active.now position.old.x ≡ []) }
    ensures all { IfNone result (position.new.at ≡ length active.now) }
{
    let start = pass_until(active, position, windings, true)?;
    let end = pass_until(active, position, windings, false)?;
    Some((start, end))
}

/// Replaces `intervals` by the intervals that the edges of a row cover.
pub(crate) fn collect_row(active: &[Edge], windings: &mut Windings, intervals: &mut Vec<(i64, i64)>)
    requires row { IsRowOf active.now (length windings.old.counts.items) }
    requires rest { AreAtRest windings.old }
    requires room { length active.now ≤ 2 * vec_capacity intervals.old + 1 }
    ensures row { intervals.new.items ≡ row active.now }
    ensures few { 2 * vec_len intervals.new ≤ length active.now }
    ensures rest { AreAtRest windings.new }
    ensures rings { length windings.new.counts.items ≡ length windings.old.counts.items }
    ensures capacity { vec_capacity intervals.new ≡ vec_capacity intervals.old }
{
    intervals.clear();
    let mut position = WalkPosition { at: 0, x: None };
    while let Some(interval) = next_interval(active, &mut position, windings) {
        intervals.push_reserved(interval);
    }
}
