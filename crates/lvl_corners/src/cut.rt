//! Whether and where a column is cut. The choice is one of cost only, so it has no contracts.

use lvl_columns::cut_at;
use lvl_grid::{Point, Rings};
use std::alloc::{AllocError, Global};

/// The greatest number of points that are swept in one column, unless they can't be cut. What a
/// sweep finds takes more memory than the rings.
const MOST_SWEPT: usize = 1 << 17;

/// About how many points are looked at to estimate the median of all.
const SAMPLED: usize = 1024;

/// The number of points left of an abscissa.
fn count_left(points: &[Point], at: i64) -> usize {
    points.iter().filter(|point| point.x < at).count()
}

/// The number of points right of an abscissa.
fn count_right(points: &[Point], at: i64) -> usize {
    points.iter().filter(|point| at < point.x).count()
}

/// The number of rings with points on both sides of an abscissa.
fn count_crossing(rings: &Rings, at: i64) -> usize {
    let mut crossing: usize = 0;
    for i in 0..rings.len() {
        let ring = rings.ring(i);
        if count_left(ring, at) > 0 && count_right(ring, at) > 0 {
            crossing = crossing.saturating_add(1);
        }
    }
    crossing
}

/// Whether a cut leaves at least a quarter of the points on each side and goes through at most an
/// eighth of the rings. So cuts come to an end, and there are few pieces of rings.
fn parts_well(rings: &Rings, at: i64) -> bool {
    let points = rings.points();
    let quarter = points.len() / 4;
    count_left(points, at) >= quarter
        && count_right(points, at) >= quarter
        && count_crossing(rings, at) <= rings.len() / 8
}

/// The median of some abscissas of the points, or None if there are no points.
fn middle(alloc: Global, points: &[Point]) -> Result<Option<i64>, AllocError> {
    let mut abscissas = Vec::new(alloc);
    for some in points.chunks((points.len() / SAMPLED).max(1)) {
        if let Some(point) = some.first() {
            abscissas.push(point.x)?;
        }
    }
    abscissas.sort_unstable();
    Ok(abscissas.get(abscissas.len() / 2).copied())
}

/// The abscissa at which to cut a column that comes from `depth` cuts, if sweeps are then less
/// work, or if the column has many points.
pub(crate) fn column_cut(
    alloc: Global,
    rings: &Rings,
    depth: u32,
) -> Result<Option<i64>, AllocError> {
    let nothing = Rings::new(alloc);
    if let Some(at) = cut_at(alloc, rings, &nothing, depth)? {
        return Ok(Some(at));
    }
    if rings.points().len() <= MOST_SWEPT {
        return Ok(None);
    }
    Ok(middle(alloc, rings.points())?.filter(|at| parts_well(rings, *at)))
}
