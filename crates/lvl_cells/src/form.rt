//! Rings that are to be kept: which of them are rectangles.
ghost use Rattle.std.specs.Prelude.{◌≡◌, IfSome};
ghost use Rattle.std.specs.Option.{ForSome};
ghost use Rattle.lvl_grid.specs.Turn.{FitsPoint};
ghost use Rattle.lvl_cells.specs.inside.Outlines.{IsRectangle, beside};

use crate::shared::distance;
use lvl_grid::Point;

/// A rectangle: its first point, the displacement from there to the opposite corner, and whether its first
/// edge is along y.
#[derive(Clone, Copy, Debug)]
pub(crate) struct Rectangle {
    pub from: Point,
    pub diagonal: Point,
    pub along_y: bool,
}

/// A ring that is to be kept, and the rectangle that it is. It is None for any other ring, and for a
/// rectangle whose diagonal is outside 64 bits.
#[derive(Clone, Copy)]
pub(crate) struct Form<'a> {
    pub ring: &'a [Point],
    pub rectangle: Option<Rectangle>,
    ghost is_rectangle: { ForSome rectangle (λ r. IsRectangle r ring.now) },
}

/// The corner of a rectangle that is beside the first one, on its edge along y or on that along x.
fn beside(from: Point, to: Point, along_y: bool) -> Point
    ensures value { result ≡ beside from to along_y }
    ensures fits { FitsPoint result }
{
    if along_y {
        Point { x: from.x, y: to.y }
    } else {
        Point { x: to.x, y: from.y }
    }
}

/// The rectangle that a ring is, or None, which is returned too if its diagonal is outside 64 bits.
fn rectangle_of(ring: &[Point]) -> Option<Rectangle>
    ensures { IfSome result (λ r. IsRectangle r ring.now) }
{
    if ring.len() != 4 {
        return None;
    }
    let from = ring[0];
    let to = ring[2];
    let along_y = ring[1].x == from.x;
    if ring[1] != beside(from, to, along_y) || ring[3] != beside(from, to, !along_y) {
        return None;
    }
    let diagonal = distance(from, to)?;
    Some(Rectangle {
        from,
        diagonal,
        along_y,
    })
}

impl<'a> Form<'a> {
    /// The form of a ring.
    pub(crate) fn of(ring: &'a [Point]) -> Form<'a>
        ensures { result.ring.now ≡ ring.now }
    {
        Form {
            ring,
            rectangle: rectangle_of(ring),
        }
    }
}
