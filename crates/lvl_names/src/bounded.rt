//! Lists of shifts with their bounds.
ghost use Rattle.std.specs.Prelude.{◌≡◌, All};
ghost use Rattle.std.specs.Int.{int_min, int_max};
ghost use Rattle.lvl_names.specs.inside.Keeping.{IsBounded, IsReached};
ghost use Rattle.lvl_names.specs.Shifts.{IsBetween, StartsAtZero};

use lvl_grid::Point;

/// A list of shifts with the least and the greatest of their coordinates. If these fit in 64 bits
/// after a move, all shifts do, so a record that shares the list needs no pass over it.
#[derive(Debug, Drop)]
pub(crate) struct BoundedList {
    pub shifts: Vec<Point>,
    pub low: Point,
    pub high: Point,
}

/// The lesser abscissa and the lesser ordinate of two points.
pub(crate) fn lesser(a: Point, b: Point) -> Point
    ensures { result ≡ record { x = int_min a.x b.x; y = int_min a.y b.y } }
{
    Point {
        x: a.x.min(b.x),
        y: a.y.min(b.y),
    }
}

/// The greater abscissa and the greater ordinate of two points.
pub(crate) fn greater(a: Point, b: Point) -> Point
    ensures { result ≡ record { x = int_max a.x b.x; y = int_max a.y b.y } }
{
    Point {
        x: a.x.max(b.x),
        y: a.y.max(b.y),
    }
}

/// The least and the greatest coordinates of a list of shifts that begins with zero.
pub(crate) fn reach_of(shifts: &[Point]) -> (Point, Point)
    requires { StartsAtZero shifts.now }
    ensures between { All (IsBetween result.0 result.1) shifts.now }
    ensures reached { IsReached result.0 result.1 shifts.now }
{
    let mut low = Point { x: 0, y: 0 };
    let mut high = low;
    for shift in shifts {
        low = lesser(low, *shift);
        high = greater(high, *shift);
    }
    (low, high)
}

impl BoundedList {
    /// The list of these shifts with their bounds. The first shift is zero.
    pub(crate) fn new(shifts: Vec<Point>) -> BoundedList
        requires { StartsAtZero shifts.items }
        ensures same { result.shifts ≡ shifts }
        ensures bounded { IsBounded result }
    {
        let (low, high) = reach_of(&shifts);
        BoundedList { shifts, low, high }
    }
}
