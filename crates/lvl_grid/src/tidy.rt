//! Clipped rings, appended to a list of points without the points that may be dropped.
ghost use Rattle.std.specs.Prelude.{◌≡◌, ◌<◌, ◌≤◌, ◌+◌, ◌++◌, ◌∷◌, List, take, drop, vec_len, vec_capacity, length};
ghost use Rattle.std.specs.Prelude.{◌↔◌, IsTrue, OnOk, OnErr};
ghost use Rattle.lvl_grid.specs.declared.point.Point.{Point as GridPoint};
ghost use Rattle.lvl_grid.specs.Winding.{IsRing};
ghost use Rattle.lvl_grid.specs.Clip.{GoesOnByClip};
ghost use Rattle.lvl_grid.specs.Tidy.{AreLevel, IsLastNeedless, WindsAs};

use crate::part::Part;
use crate::point::Point;
use std::alloc::AllocError;

/// Whether three points have the same abscissa or the same ordinate.
fn are_level(a: Point, b: Point, c: Point) -> bool
    ensures { IsTrue result ↔ AreLevel a b c }
{
    a.x == b.x && b.x == c.x || a.y == b.y && b.y == c.y
}

/// Whether the last point may be dropped if `next` comes after it: it is level with `next` and with
/// the point before it. Only points from index `start` on count.
fn is_last_needless(points: &[Point], start: usize, next: Point) -> bool
    requires { start ≤ length points.now }
    ensures { IsTrue result → IsLastNeedless (drop start points.now) next }
{
    let len = points.len();
    if len - start < 2 {
        return false;
    }
    are_level(points[len - 2], points[len - 1], next)
}

/// Drops the last points from index `start` on as long as they are needless before `point`, then
/// appends `point`.
fn push_tidied(points: &mut Vec<Point>, start: usize, point: Point)
    requires from { start ≤ vec_len points.old }
    requires room { vec_len points.old < vec_capacity points.old }
    ensures kept { take start points.new.items ≡ take start points.old.items }
    ensures winds { (rest : List GridPoint)
        → WindsAs (drop start points.old.items ++ point ∷ rest) (drop start points.new.items ++ rest) }
    ensures from { start ≤ vec_len points.new }
    ensures len { vec_len points.new ≤ vec_len points.old + 1 }
    ensures capacity { vec_capacity points.new ≡ vec_capacity points.old }
{
    while is_last_needless(points, start, point) {
        points.truncate(points.len() - 1);
    }
    points.push_reserved(point);
}

/// Drops the last points from index `start` on as long as they are needless before the first of
/// these points, which comes after them in the ring.
fn close_tidied(points: &mut Vec<Point>, start: usize)
    requires { start ≤ vec_len points.old }
    ensures kept { take start points.new.items ≡ take start points.old.items }
    ensures winds { WindsAs (drop start points.old.items) (drop start points.new.items) }
    ensures from { start ≤ vec_len points.new }
{
    while points.len() - start >= 3 {
        if !is_last_needless(points, start, points[start]) {
            return;
        }
        points.truncate(points.len() - 1);
    }
}

/// Appends the points of a ring that covers what `ring` covers within the part, or nothing if fewer
/// than three points are left.
pub(crate) fn extend_clipped(
    points: &mut Vec<Point>,
    part: &Part,
    ring: &[Point],
) -> Result<(), AllocError>
    requires { IsRing ring.now }
    ensures ok { OnOk result (GoesOnByClip part.now ring.now points.old.items points.new.items) }
    ensures err { OnErr result (points.new.items ≡ points.old.items) }
{
    points.reserve(ring.len())?;
    let start = points.len();
    for point in ring {
        push_tidied(points, start, part.put(*point));
    }
    close_tidied(points, start);
    if points.len() - start < 3 {
        points.truncate(start);
    }
    Ok(())
}
