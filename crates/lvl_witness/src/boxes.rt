//! The boxes of rings.
ghost use Rattle.std.specs.Prelude.{◌≡◌, map};
ghost use Rattle.std.specs.Int.{int_max, int_min};
ghost use Rattle.lvl_grid.specs.Turn.{shifted};
ghost use Rattle.lvl_grid.specs.Winding.{IsRing};
ghost use Rattle.lvl_witness.specs.Boxes.{IsBoxOf};
ghost use Rattle.lvl_witness.specs.Wide.{as_point};

use crate::wide::WidePoint;
use lvl_cells::MovedRing;
use lvl_grid::Point;

/// The lesser abscissa and the lesser ordinate of two points.
fn lesser(a: Point, b: Point) -> Point
    ensures { result ≡ record { x = int_min a.x b.x; y = int_min a.y b.y } }
{
    Point {
        x: a.x.min(b.x),
        y: a.y.min(b.y),
    }
}

/// The greater abscissa and the greater ordinate of two points.
fn greater(a: Point, b: Point) -> Point
    ensures { result ≡ record { x = int_max a.x b.x; y = int_max a.y b.y } }
{
    Point {
        x: a.x.max(b.x),
        y: a.y.max(b.y),
    }
}

/// The lower left and the upper right corner of the box of a ring.
fn box_of(ring: &MovedRing<'_>) -> (Point, Point)
    requires { IsRing ring.now }
    ensures { IsBoxOf result.0 result.1 ring.now }
{
    let Some(first) = ring.get(0) else {
        unreachable!()
    };
    let mut low = first;
    let mut high = first;
    for k in 0..ring.len() {
        let Some(point) = ring.get(k) else {
            unreachable!()
        };
        low = lesser(low, point);
        high = greater(high, point);
    }
    (low, high)
}

/// The lower left and the upper right corner of the box of a ring after a move by a displacement.
pub(crate) fn moved_box_of(ring: &MovedRing<'_>, by: Point) -> (WidePoint, WidePoint)
    requires { IsRing ring.now }
    ensures { IsBoxOf (as_point result.0) (as_point result.1) (map (shifted by) ring.now) }
{
    let (low, high) = box_of(ring);
    (
        WidePoint::from_point(low).moved(by),
        WidePoint::from_point(high).moved(by),
    )
}
