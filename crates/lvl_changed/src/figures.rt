//! Comparison of shapes: the Layers as which they count, their figures and their shifts.
ghost use Rattle.std.specs.Prelude.{◌≡◌, ◌<◌, ◌≤◌, ◌↔◌, length, IsTrue, IfSome};
ghost use Rattle.lvl_grid.specs.declared.point.Square.{Square};
ghost use Rattle.lvl_grid.specs.Clip.{IsInWindow};
ghost use Rattle.lvl_grid.specs.Winding.{Covers, SomeCovers};
ghost use Rattle.lvl_cells.specs.Cells.{shape_at};
ghost use Rattle.lvl_changed.specs.inside.Figures.{AreAlike, HasAlike};

use crate::shifts::{are_same, last_shift};
use lvl_cells::{MovedRing, Shapes};
use lvl_grid::{Point, Window};
use lvl_simplify::window_of;
use lvl_view::View;
use std::hash::{FoldHasher, Hasher};

/// The shapes of a cell, whose Layers count as those to which a view maps them.
#[derive(Clone, Copy)]
pub(crate) struct Seen<'a> {
    pub shapes: &'a Shapes,
    pub view: &'a View,
}

/// Hashes a point.
fn hash_point(hasher: &mut FoldHasher, point: Point) {
    hasher.write_i64(point.x);
    hasher.write_i64(point.y);
}

/// A number that few other points have. A hasher, which reads bytes, takes several times as long.
pub(crate) fn mixed(point: Point) -> u64 {
    let x = u64::from_ne_bytes(point.x.to_ne_bytes()) ^ 0x9E37_79B9_7F4A_7C15;
    let y = u64::from_ne_bytes(point.y.to_ne_bytes()) ^ 0xC2B2_AE3D_27D4_EB4F;
    let product = u128::from(x).saturating_mul(u128::from(y));
    let low = (product & 0xFFFF_FFFF_FFFF_FFFF) as u64;
    let high = (product >> 64) as u64;
    low ^ high
}

/// Hashes a ring: of four points its reach, else all points in no order, so that a ring that is written from another
/// corner has the same hash.
fn hash_ring(hasher: &mut FoldHasher, ring: &MovedRing<'_>) {
    if let (4, Some((low, high))) = (ring.len(), ring.reach()) {
        hash_point(hasher, low);
        hash_point(hasher, high);
        return;
    }
    let mut all = 0;
    for k in 0..ring.len() {
        if let Some(point) = ring.get(k) {
            all ^= mixed(point);
        }
    }
    hasher.write_u64(all);
}

/// The window of the squares that a ring covers, if it is a rectangle of four points.
pub(crate) fn rectangle_of(ring: &MovedRing<'_>) -> Option<Window>
    ensures { IfSome result (λ window. (s : Square) → Covers ring.now s ↔ IsInWindow window s) }
{
    let (Some(a), Some(b), Some(c), Some(d), None) = (
        ring.get(0),
        ring.get(1),
        ring.get(2),
        ring.get(3),
        ring.get(4),
    ) else {
        return None;
    };
    window_of(&[a, b, c, d])
}

/// The index of the point of the second ring that is the first of the first ring, or its number of points if it has no
/// such point.
fn turn_of(first: &MovedRing<'_>, second: &MovedRing<'_>) -> usize
    ensures { result ≤ length second.now }
{
    let start = first.get(0);
    for k in 0..second.len() {
        if second.get(k) == start {
            return k;
        }
    }
    second.len()
}

/// Whether both rings have the same points in the same order, from the first point of the first on.
fn have_same_points(first: &MovedRing<'_>, second: &MovedRing<'_>) -> bool
    ensures { IsTrue result → (s : Square) → Covers first.now s ↔ Covers second.now s }
{
    let count = first.len();
    if second.len() != count {
        return false;
    }
    let turn = turn_of(first, second);
    let rest = count - turn;
    first.has_points_of(0, second, turn, rest) && first.has_points_of(rest, second, 0, turn)
}

/// Whether both rings have the same points in the same order, from some point of each on, or are the same rectangle.
pub(crate) fn are_same_rings(first: &MovedRing<'_>, second: &MovedRing<'_>) -> bool
    ensures { IsTrue result → (s : Square) → Covers first.now s ↔ Covers second.now s }
{
    if first.is_same_rectangle(second) {
        return true;
    }
    if have_same_points(first, second) {
        return true;
    }
    match (rectangle_of(first), rectangle_of(second)) {
        (Some(ours), Some(theirs)) => ours == theirs,
        _ => false,
    }
}

/// Whether the rings of shape `i` of the first and of shape `j` of the second are the same.
fn are_same_figures(first: &Shapes, i: usize, second: &Shapes, j: usize) -> bool
    requires first { i < length first.now }
    requires second { j < length second.now }
    ensures { IsTrue result → (s : Square)
        → SomeCovers (shape_at first.now i).figure s ↔ SomeCovers (shape_at second.now j).figure s }
{
    if first.ring_count(i) != second.ring_count(j) {
        return false;
    }
    for k in 0..first.ring_count(i) {
        if !are_same_rings(&first.ring(i, k), &second.ring(j, k)) {
            return false;
        }
    }
    true
}

/// Whether shape `i` of the first and shape `j` of the second have the same shifts.
pub(crate) fn have_same_shifts(first: &Shapes, i: usize, second: &Shapes, j: usize) -> bool
    requires first { i < length first.now }
    requires second { j < length second.now }
    ensures { IsTrue result → (shape_at first.now i).shifts ≡ (shape_at second.now j).shifts }
{
    match (first.shifts(i), second.shifts(j)) {
        (None, None) => true,
        (Some(ours), Some(theirs)) => are_same(ours, theirs),
        _ => false,
    }
}

impl<'a> Seen<'a> {
    /// A number that shapes have in common that are the same, and few others have. Keys only guide
    /// the search, so they have no contracts.
    pub(crate) fn key(&self, i: usize) -> u64
        requires { i < length self.now.shapes.now }
    {
        let layer = self.view.target(self.shapes.layer(i));
        let mut hasher = FoldHasher::default();
        hasher.write_i64(i64::from(layer.layer));
        hasher.write_i64(i64::from(layer.datatype));
        hasher.write_u64(self.shapes.shift_count(i));
        if let Some(shifts) = self.shapes.shifts(i) {
            let last = last_shift(shifts);
            hasher.write_i64(last.x);
            hasher.write_i64(last.y);
        }
        for j in 0..self.shapes.ring_count(i) {
            hash_ring(&mut hasher, &self.shapes.ring(i, j));
        }
        hasher.finish()
    }
}

/// Whether shape `i` of the first and shape `j` of the second are the same and count as being on
/// the same Layer.
fn are_same_shapes(first: Seen<'_>, i: usize, second: Seen<'_>, j: usize) -> bool
    requires { i < length first.shapes.now }
    ensures { IsTrue result → AreAlike first.entry.view.now.pairs first.entry.shapes.now i
        second.entry.view.now.pairs second.entry.shapes.now j }
{
    if j >= second.shapes.len() {
        return false;
    }
    let ours = first.view.target(first.shapes.layer(i));
    let theirs = second.view.target(second.shapes.layer(j));
    if ours.layer != theirs.layer || ours.datatype != theirs.datatype {
        return false;
    }
    if !are_same_figures(first.shapes, i, second.shapes, j) {
        return false;
    }
    have_same_shifts(first.shapes, i, second.shapes, j)
}

/// Whether the others have a shape that is the same as shape `i`, by the twin that shape `i` may have.
pub(crate) fn has_shape(others: Seen<'_>, twin: Option<usize>, seen: Seen<'_>, i: usize) -> bool
    requires { i < length seen.shapes.now }
    ensures { IsTrue result → HasAlike seen.entry.view.now.pairs seen.entry.shapes.now i
        others.entry.view.now.pairs others.entry.shapes.now }
{
    match twin {
        Some(j) => are_same_shapes(seen, i, others, j),
        None => false,
    }
}
