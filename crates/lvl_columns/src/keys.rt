//! Rings that are the same, and keys that they have in common and few others have.
ghost use Rattle.std.specs.Prelude.{◌↔◌, IsTrue};
ghost use Rattle.lvl_grid.specs.declared.point.Square.{Square as GridSquare};
ghost use Rattle.lvl_grid.specs.Winding.{Covers};

use lvl_grid::Point;
use lvl_simplify::window_of;

const START: u64 = 0x243f_6a88_85a3_08d3;

const MULTIPLIER: u64 = 0x9e37_79b9_7f4a_7c15;

/// The product of two numbers, its upper half folded into the lower one.
fn folded(a: u64, b: u64) -> u64 {
    let product = u128::from(a) * u128::from(b);
    (product & 0xFFFF_FFFF_FFFF_FFFF) as u64 ^ (product >> 64) as u64
}

/// A key that depends on an earlier one and on a point.
fn with_point(key: u64, x: i64, y: i64) -> u64 {
    folded(
        key ^ x.abs_diff(i64::MIN),
        MULTIPLIER ^ y.abs_diff(i64::MIN),
    )
}

/// The key of a ring: of a rectangle, that of its corners. It only guides a search.
pub(crate) fn key_of(ring: &[Point]) -> u64 {
    if let Some(window) = window_of(ring) {
        let low = with_point(START, window.x0, window.y0);
        return with_point(low, window.x1, window.y1);
    }
    let mut key = START;
    for point in ring {
        key = with_point(key, point.x, point.y);
    }
    key
}

/// Whether two rings have the same points in the same order, or are the same rectangle.
pub(crate) fn are_alike(first: &[Point], second: &[Point]) -> bool
    ensures { IsTrue result → (s : GridSquare) → Covers first.now s ↔ Covers second.now s }
{
    if first == second {
        return true;
    }
    match (window_of(first), window_of(second)) {
        (Some(ours), Some(theirs)) => ours == theirs,
        _ => false,
    }
}
