//! Rings of shapes: points that shapes can share, with a displacement.
ghost use Rattle.std.specs.Prelude.{◌≡◌, ◌↔◌, length, map, slice_get, All, Any, OnOk, OnErr, IfOk, Err};
ghost use Rattle.std.specs.Prelude.{SomeIff, IfSome, IsTrue, ◌++◌, ◌∷◌, [], take, drop};
ghost use Rattle.lvl_grid.specs.declared.point.Point.{Point as GridPoint};
ghost use Rattle.lvl_grid.specs.declared.point.Square.{Square as GridSquare};
ghost use Rattle.lvl_grid.specs.Placed.{placed_point, IsPlaceOfCovered};
ghost use Rattle.lvl_grid.specs.Turn.{FitsPoint, shifted};
ghost use Rattle.lvl_grid.specs.Winding.{Covers, IsRing};
ghost use Rattle.lvl_names.specs.Shifts.{IsBetween};
ghost use Rattle.lvl_cells.specs.Stretches.{stretch_at};
ghost use Rattle.lvl_cells.specs.inside.Outlines.{ring_of, IsInReach};
ghost use Rattle.lvl_cells.specs.inside.Spans.{IsMovable};

use crate::outline::Outline;
use crate::shared::{distance, is_again};
use lvl_grid::{Map, PlaceFault, Point, Rings};
use std::alloc::{AllocError, Global};
use std::marker::Model;

/// No displacement.
pub(crate) const ORIGIN: Point = Point { x: 0, y: 0 };

/// The number of points of a stretch of a ring.
pub const STRETCH: usize = 128;

/// A ring as a shape has it: a kept one, each of its points moved by the same displacement. Shapes that draw
/// the same ring at different places share it.
#[derive(Debug, Drop)]
pub struct MovedRing<'a> {
    outline: Outline<'a>,
    by: Point,
}

impl<'a> Model for MovedRing<'a> {
    ghost use Rattle.std.specs.Prelude.{List, map};
    ghost use Rattle.lvl_grid.specs.declared.point.Point.{Point};
    ghost use Rattle.lvl_grid.specs.Turn.{shifted};
    ghost use Rattle.lvl_cells.specs.inside.Outlines.{ring_of, IsInReach};
    ghost use Rattle.lvl_cells.specs.inside.Spans.{IsMovable};

    ghost Value = { List Point };

    ghost view = { λ r. map (shifted r.by) (ring_of r.outline) };

    ghost invariant = { λ r. IsMovable r.by (ring_of r.outline) × IsInReach r.outline };
}

/// The point moved by another, or None if that is outside 64 bits.
pub(crate) fn moved(point: Point, by: Point) -> Option<Point>
    ensures { SomeIff result (FitsPoint (shifted by point)) (shifted by point) }
{
    let x = point.x.checked_add(by.x)?;
    let y = point.y.checked_add(by.y)?;
    Some(Point { x, y })
}

/// A point with the lesser abscissa and the lesser ordinate of two points, and one with the greater
/// ones.
pub(crate) fn corners(low: Point, high: Point, point: Point) -> (Point, Point)
    ensures wider { (p : GridPoint) → IsBetween low high p → IsBetween result.0 result.1 p }
    ensures there { IsBetween result.0 result.1 point }
{
    let low = Point {
        x: low.x.min(point.x),
        y: low.y.min(point.y),
    };
    let high = Point {
        x: high.x.max(point.x),
        y: high.y.max(point.y),
    };
    (low, high)
}

/// The least and the greatest coordinates of some points, or None if there are none.
pub(crate) fn reach_of(points: &[Point]) -> Option<(Point, Point)>
    ensures { IfSome result (λ reach. All (IsBetween reach.0 reach.1) points.now) }
{
    let first = *points.first()?;
    let mut low = first;
    let mut high = first;
    for point in points {
        let wider = corners(low, high, *point);
        low = wider.0;
        high = wider.1;
    }
    Some((low, high))
}

/// Some of the points, from an index on, or None if there are fewer.
fn part_of(points: &[Point], from: usize, count: usize) -> Option<&[Point]>
    ensures { IfSome result (λ part. part.now ≡ take count (drop from points.now)) }
{
    let end = from.checked_add(count)?;
    if end > points.len() {
        return None;
    }
    Some(&points[from..end])
}

impl<'a> MovedRing<'a> {
    /// A kept ring, moved.
    pub(crate) fn new(outline: Outline<'a>, by: Point) -> MovedRing<'a>
        requires ring { IsMovable by (ring_of outline) }
        requires reach { IsInReach outline }
        ensures { result ≡ map (shifted by) (ring_of outline.entry) }
    {
        MovedRing { outline, by }
    }

    /// The number of points.
    pub fn len(&self) -> usize
        ensures { result ≡ length self.now }
    {
        self.outline.kept().as_slice().len()
    }

    /// The point at this index, moved, or None if there is none.
    pub fn get(&self, k: usize) -> Option<Point>
        ensures { result ≡ slice_get self.now k }
    {
        let point = self.outline.get(k)?;
        if self.by == ORIGIN {
            return Some(point);
        }
        moved(point, self.by)
    }

    /// The least and the greatest coordinates of its points, or None if it has no points or one of them would
    /// be outside 64 bits, which isn't so for a ring. They are found before they are moved, so this takes less
    /// than to look at each point.
    pub fn reach(&self) -> Option<(Point, Point)>
        ensures { IfSome result (λ reach. All (IsBetween reach.0 reach.1) self.now) }
    {
        let (low, high) = self.outline.reach()?;
        Some((moved(low, self.by)?, moved(high, self.by)?))
    }

    /// The least and the greatest coordinates of the points of stretch `k`, which are [`STRETCH`] points from index
    /// `k * STRETCH` on, or None if they aren't kept: those of a stretch with fewer points never are, nor those of a
    /// ring of few points in all.
    pub fn reach_of_stretch(&self, k: usize) -> Option<(Point, Point)>
        ensures { IfSome result (λ reach. All (IsBetween reach.0 reach.1) (stretch_at self.now k)) }
    {
        let (low, high) = self.outline.reach_of_stretch(k)?;
        Some((moved(low, self.by)?, moved(high, self.by)?))
    }

    /// Whether both are the same rectangle, written alike. `false` says nothing.
    pub fn is_same_rectangle(&self, other: &MovedRing<'_>) -> bool
        ensures { IsTrue result → self.now ≡ other.now }
    {
        self.by == other.by && self.outline.is_same_rectangle(&other.outline)
    }

    /// Whether `count` of its points, from an index on, are those of another ring from index `at` on. The points are
    /// compared as they are kept, by the difference of both displacements. `false` says nothing.
    pub fn has_points_of(&self, from: usize, other: &MovedRing<'_>, at: usize, count: usize) -> bool
        ensures { IsTrue result → take count (drop from self.now) ≡ take count (drop at other.now) }
    {
        let Some(by) = distance(other.by, self.by) else {
            return false;
        };
        let ours = self.outline.kept();
        let theirs = other.outline.kept();
        match (
            part_of(ours.as_slice(), from, count),
            part_of(theirs.as_slice(), at, count),
        ) {
            (Some(ours), Some(theirs)) => is_again(ours, by, theirs),
            _ => false,
        }
    }

    /// The ring, moved on, or None if its displacement or one of its points would be outside 64 bits. No point is
    /// looked at if the ring's reach is kept.
    pub fn moved_on(&self, shift: Point) -> Option<MovedRing<'a>>
        ensures is { IfSome result (λ ring. ring ≡ map (shifted shift) self.now) }
        ensures ring { IfSome result (λ ring. IsRing ring) }
    {
        let (least, greatest) = self.outline.reach()?;
        let by = moved(self.by, shift)?;
        moved(least, by)?;
        moved(greatest, by)?;
        Some(MovedRing::new(self.outline, by))
    }

    /// A copy of its points, moved.
    pub fn to_points(&self, alloc: Global) -> Result<Vec<Point>, AllocError>
        ensures { IfOk result (λ points. points.items ≡ self.now) }
    {
        let mut points = Vec::with_capacity(alloc, self.len())?;
        for k in 0..self.len() {
            let Some(point) = self.get(k) else {
                unreachable!()
            };
            points.push_reserved(point);
        }
        Ok(points)
    }

    /// Appends the image of the ring to `rings`, each of its points moved by `shift` before it is
    /// mapped, as [`Rings::push_placed`] does. Copies the points only if the sum of both
    /// displacements is outside 64 bits.
    pub fn push_placed(
        &self,
        alloc: Global,
        rings: &mut Rings,
        shift: Point,
        by: &Map,
    ) -> Result<(), PlaceFault>
        ensures ok { OnOk result (rings.new ≡ rings.old ++ map (placed_point by.now shift) self.now ∷ []) }
        ensures covers { OnOk result ((t : GridSquare)
            → Covers (map (placed_point by.now shift) self.now) t ↔ IsPlaceOfCovered by.now shift self.now t) }
        ensures in_range { OnOk result (All (λ v. FitsPoint (placed_point by.now shift v)) self.now) }
        ensures err { OnErr result (rings.new ≡ rings.old) }
        ensures out_of_range { result ≡ Err PlaceFault.OutOfRange
            → Any (λ v. ¬ FitsPoint (placed_point by.now shift v)) self.now }
    {
        if let Some(both) = moved(shift, self.by) {
            return rings.push_placed(self.outline.kept().as_slice(), both, by);
        }
        let Ok(points) = self.to_points(alloc) else {
            return Err(PlaceFault::OutOfMemory);
        };
        rings.push_placed(&points, shift, by)
    }
}
