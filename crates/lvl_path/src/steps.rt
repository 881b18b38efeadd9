//! Faults of the steps of a path, and its corners.
ghost use Rattle.std.specs.Prelude.{◌≡◌, ◌<◌, ◌+◌, ◌↔◌, length, IsTrue};
ghost use Rattle.lvl_grid.specs.Winding.{IsStraight};
ghost use Rattle.lvl_path.specs.Runs.{SomeStep, TurnsBackSomewhere, is_corner, way_into};

use crate::way::Way;
use lvl_grid::Point;

/// Whether some step changes both coordinates.
pub(crate) fn has_oblique_step(points: &[Point]) -> bool
    ensures { IsTrue result ↔ SomeStep (λ p q. ¬ IsStraight (p, q)) points.now }
{
    for k in 1..points.len() {
        if !is_straight(points[k - 1], points[k]) {
            return true;
        }
    }
    false
}

fn is_straight(from: Point, to: Point) -> bool
    ensures { IsTrue result ↔ IsStraight (from, to) }
{
    from.x == to.x || from.y == to.y
}

/// Whether two consecutive points are equal.
pub(crate) fn has_repeated_point(points: &[Point]) -> bool
    ensures { IsTrue result ↔ SomeStep (λ p q. p ≡ q) points.now }
{
    for k in 1..points.len() {
        if is_same(points[k - 1], points[k]) {
            return true;
        }
    }
    false
}

fn is_same(from: Point, to: Point) -> bool
    ensures { IsTrue result ↔ (from ≡ to) }
{
    from.x == to.x && from.y == to.y
}

/// The direction of the step that ends at index `k`.
fn way_into(points: &[Point], k: usize) -> Way
    requires after_first { 0 < k }
    requires there { k < length points.now }
    ensures { result ≡ way_into points.now k }
{
    Way::between(points[k - 1], points[k])
}

/// Whether some step has the opposite direction of the step before it.
pub(crate) fn turns_back(points: &[Point]) -> bool
    ensures { IsTrue result ↔ TurnsBackSomewhere points.now }
{
    for k in 2..points.len() {
        if way_into(points, k).is_same(way_into(points, k - 1).opposite()) {
            return true;
        }
    }
    false
}

/// Whether the path ends at index `k` or changes its direction there.
pub(crate) fn is_corner(points: &[Point], k: usize) -> bool
    requires after_first { 0 < k }
    requires there { k < length points.now }
    ensures { result ≡ is_corner points.now k }
{
    k + 1 == points.len() || !way_into(points, k).is_same(way_into(points, k + 1))
}
