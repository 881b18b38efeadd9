//! Where to cut a column that has corners of large rings that go in and out many times. The choice
//! is one of cost only, so it has no contracts.
//!
//! A line through such a ring crosses thousands of its edges, and these go through every column. In
//! a column without corners of the ring they are joined at once, so few columns should have some.

use lvl_grid::{Point, Rings};
use lvl_simplify::Outline;
use std::alloc::{AllocError, Global};

/// The fewest points of a ring that is considered.
const MANY: usize = 1024;

/// Appends the abscissas of the points that are strictly between two abscissas.
pub(crate) fn push_between(
    abscissas: &mut Vec<i64>,
    points: &[Point],
    left: i64,
    right: i64,
) -> Result<(), AllocError> {
    for point in points {
        if left < point.x && point.x < right {
            abscissas.push(point.x)?;
        }
    }
    Ok(())
}

/// Appends the abscissas of the points of all large folded rings that are strictly between the
/// borders of their ring.
fn push_folded(abscissas: &mut Vec<i64>, rings: &Rings) -> Result<(), AllocError> {
    for i in 0..rings.len() {
        let ring = rings.ring(i);
        if ring.len() < MANY {
            continue;
        }
        let outline = Outline::of(ring);
        if outline.is_folded() {
            push_between(abscissas, ring, outline.left, outline.right)?;
        }
    }
    Ok(())
}

/// The median abscissa of the corners that large folded rings have strictly inside a column, or
/// None if they are few. A column costs about as much as it has points, and the rest of these rings
/// in it about the square of the number of those corners. The sum is least if both are about equal.
pub(crate) fn folded_cut(
    alloc: Global,
    first: &Rings,
    second: &Rings,
) -> Result<Option<i64>, AllocError> {
    let mut abscissas = Vec::new(alloc);
    push_folded(&mut abscissas, first)?;
    push_folded(&mut abscissas, second)?;
    let corners = abscissas.len() as u128;
    let points = (first.points().len() as u128).saturating_add(second.points().len() as u128);
    if corners.saturating_mul(corners) <= points.saturating_mul(4) {
        return Ok(None);
    }
    abscissas.sort_unstable();
    Ok(abscissas.get(abscissas.len() / 2).copied())
}
