//! Rings as they are kept: of a rectangle, only its diagonal.
ghost use Rattle.std.specs.Prelude.{◌≡◌, slice_get, All, IsTrue, IfSome};
ghost use Rattle.lvl_names.specs.Shifts.{IsBetween};
ghost use Rattle.lvl_cells.specs.Stretches.{stretch_at};
ghost use Rattle.lvl_cells.specs.inside.Outlines.{kept_points, rectangle_to, ring_of, IsInReach};
ghost use Rattle.lvl_cells.specs.inside.Spans.{IsAgain};

use crate::form::{Form, Rectangle};
use crate::moved::{ORIGIN, corners, reach_of};
use crate::shared::{displacement, is_again};
use lvl_grid::Point;

/// A kept ring. One point means the rectangle that has it and the origin as opposite corners, whose
/// first edge is along y or along x; of any other ring all points are kept.
#[derive(Clone, Copy, Debug)]
pub(crate) struct Outline<'a> {
    pub points: &'a [Point],
    pub along_y: bool,
    /// Its least and its greatest coordinates, if they are kept.
    pub reach: Option<(Point, Point)>,
    /// The least and the greatest coordinates of each of its first stretches, by two points each.
    pub corners: &'a [Point],
}

/// The points of a kept ring.
#[derive(Clone, Copy)]
pub(crate) enum Kept<'a> {
    /// They are kept.
    Points(&'a [Point]),
    /// They are the corners of a rectangle.
    Corners([Point; 4]),
}

impl Kept<'_> {
    /// All of them, in order.
    pub(crate) fn as_slice(&self) -> &[Point]
        ensures { result.now ≡ kept_points self.now }
    {
        match self {
            Kept::Points(points) => points,
            Kept::Corners(corners) => corners,
        }
    }
}

/// The rectangle from the origin to the opposite corner, whose first edge is along y or along x.
pub(crate) fn rectangle(diagonal: Point, along_y: bool) -> [Point; 4]
    ensures { result ≡ rectangle_to diagonal along_y }
{
    let on_x = Point {
        x: diagonal.x,
        y: 0,
    };
    let on_y = Point {
        x: 0,
        y: diagonal.y,
    };
    if along_y {
        [ORIGIN, on_y, diagonal, on_x]
    } else {
        [ORIGIN, on_x, diagonal, on_y]
    }
}

impl<'a> Outline<'a> {
    /// Its points.
    pub(crate) fn kept(&self) -> Kept<'a>
        ensures { kept_points result ≡ ring_of self.now }
    {
        if self.points.len() == 1 {
            return Kept::Corners(rectangle(self.points[0], self.along_y));
        }
        Kept::Points(self.points)
    }

    /// Its point at this index, or None if there is none.
    pub(crate) fn get(&self, k: usize) -> Option<Point>
        ensures { result ≡ slice_get (ring_of self.now) k }
    {
        if self.points.len() == 1 {
            return rectangle(self.points[0], self.along_y).get(k).copied();
        }
        self.points.get(k).copied()
    }

    /// The least and the greatest coordinates of its points, or None if it has none, which isn't so for a ring.
    pub(crate) fn reach(&self) -> Option<(Point, Point)>
        requires { IsInReach self.now }
        ensures { IfSome result (λ reach. All (IsBetween reach.0 reach.1) (ring_of self.now)) }
    {
        if self.reach.is_some() {
            return self.reach;
        }
        if self.points.len() == 1 {
            return Some(corners(ORIGIN, ORIGIN, self.points[0]));
        }
        reach_of(self.points)
    }

    /// The least and the greatest coordinates of the points of a stretch, if they are kept.
    pub(crate) fn reach_of_stretch(&self, k: usize) -> Option<(Point, Point)>
        requires { IsInReach self.now }
        ensures { IfSome result (λ reach. All (IsBetween reach.0 reach.1) (stretch_at (ring_of self.now) k)) }
    {
        let low = k.checked_mul(2)?;
        let high = low.checked_add(1)?;
        Some((*self.corners.get(low)?, *self.corners.get(high)?))
    }

    /// Whether a rectangle, moved to the origin, is this ring.
    fn has_diagonal(&self, of: &Rectangle) -> bool
        ensures { IsTrue result → ring_of self.now ≡ rectangle_to of.now.diagonal of.now.along_y }
    {
        self.points.len() == 1 && self.points[0] == of.diagonal && self.along_y == of.along_y
    }

    /// Whether both are kept as the same rectangle. `false` says nothing.
    pub(crate) fn is_same_rectangle(&self, other: &Outline<'_>) -> bool
        ensures { IsTrue result → ring_of self.now ≡ ring_of other.now }
    {
        if self.points.len() != 1 || other.points.len() != 1 {
            return false;
        }
        self.along_y == other.along_y && self.points[0] == other.points[0]
    }

    /// The displacement from this ring to another, or None if the other isn't this one, moved, or is kept in
    /// another way.
    pub(crate) fn displacement(&self, form: &Form<'_>) -> Option<Point>
        ensures { IfSome result (λ by. IsAgain (ring_of self.now) by form.now.ring.now) }
    {
        match &form.rectangle {
            Some(rectangle) if self.has_diagonal(rectangle) => Some(rectangle.from),
            Some(_) => None,
            None if self.points.len() == 1 => None,
            None => displacement(self.points, form.ring),
        }
    }

    /// The displacement from this ring to another, or None if the other isn't this one, moved. It looks at the
    /// points, in whichever way this ring is kept.
    pub(crate) fn displacement_to(&self, ring: &[Point]) -> Option<Point>
        ensures { IfSome result (λ by. IsAgain (ring_of self.now) by ring.now) }
    {
        displacement(self.kept().as_slice(), ring)
    }

    /// Whether a ring is this one, moved by `by`. A rectangle is never found to be.
    pub(crate) fn is_again(&self, by: Point, ring: &[Point]) -> bool
        ensures { IsTrue result → IsAgain (ring_of self.now) by ring.now }
    {
        self.points.len() != 1 && is_again(self.points, by, ring)
    }
}
