//! Whether and where a column is cut. The choice is one of cost only.
ghost use Rattle.std.specs.Prelude.{◌≡◌, ◌<ℤ◌, ◌++◌, Any, IsTrue, IfOk, IfSome};
ghost use Rattle.lvl_columns.specs.Corners.{IsInner, corners_of};

use crate::estimate::Work;
use crate::folded::{folded_cut, push_between};
use crate::passes::are_passed_often;
use crate::sample::Sample;
use lvl_grid::{Point, Rings};
use lvl_simplify::extent;
use std::alloc::{AllocError, Global};

/// About how many edges a column has at which cutting ends.
const COLUMN_EDGES: u128 = 500;

/// The least and the greatest abscissa of both lists.
fn extent_of_both(first: &Rings, second: &Rings) -> (i64, i64) {
    let (left, right) = extent(first);
    let (other_left, other_right) = extent(second);
    (left.min(other_left), right.max(other_right))
}

/// Whether one of the points is strictly between two abscissas.
fn has_between(points: &[Point], left: i64, right: i64) -> bool {
    points.iter().any(|point| left < point.x && point.x < right)
}

/// Whether all corners of both lists are at the least or the greatest abscissa. Then there is
/// nothing to cut, and each ring can be joined with others.
pub(crate) fn is_narrow(first: &Rings, second: &Rings) -> bool {
    let (left, right) = extent_of_both(first, second);
    !has_between(first.points(), left, right) && !has_between(second.points(), left, right)
}

/// The sampled abscissas strictly between the least and the greatest of them, sorted.
fn sampled_abscissas(
    alloc: Global,
    first: &Sample,
    second: &Sample,
) -> Result<Vec<i64>, AllocError> {
    let mut abscissas = Vec::new(alloc);
    push_between(&mut abscissas, first.points(), i64::MIN, i64::MAX)?;
    push_between(&mut abscissas, second.points(), i64::MIN, i64::MAX)?;
    abscissas.sort_unstable();
    let (Some(left), Some(right)) = (abscissas.first().copied(), abscissas.last().copied()) else {
        return Ok(abscissas);
    };
    abscissas.retain(|x| left < *x && *x < right);
    Ok(abscissas)
}

/// Those of the sorted abscissas at which they are cut into `parts` parts of about the same size,
/// without duplicates.
fn quantiles(alloc: Global, abscissas: &[i64], parts: usize) -> Result<Vec<i64>, AllocError> {
    let mut cuts = Vec::new(alloc);
    for part in 1..parts {
        let at = part
            .saturating_mul(abscissas.len())
            .checked_div(parts)
            .unwrap_or(0);
        if let Some(x) = abscissas.get(at) {
            cuts.push(*x)?;
        }
    }
    cuts.dedup();
    Ok(cuts)
}

/// Whether some number of columns is estimated to be less work than the whole. Powers of two up to
/// 1,024 are tried, since often one cut gains nothing and several do.
fn is_worth_while(
    alloc: Global,
    samples: (&Sample, &Sample),
    whole: Work,
    abscissas: &[i64],
) -> Result<bool, AllocError> {
    for power in 1..=10u32 {
        let columns = 1 << power;
        if power > 1 && whole.edges / columns < COLUMN_EDGES {
            return Ok(false);
        }
        let cuts = quantiles(alloc, abscissas, 1 << power)?;
        let parts = Work::of(samples.0, &cuts).with(Work::of(samples.1, &cuts));
        if parts.is_less_than(&whole) {
            return Ok(true);
        }
    }
    Ok(false)
}

/// The middle one of the sampled abscissas, if the estimate says that cutting pays.
fn sampled_cut(alloc: Global, first: &Rings, second: &Rings) -> Result<Option<i64>, AllocError> {
    let ours = Sample::of(alloc, first)?;
    let theirs = Sample::of(alloc, second)?;
    let whole = Work::of(&ours, &[]).with(Work::of(&theirs, &[]));
    if whole.is_little() {
        return Ok(None);
    }
    let abscissas = sampled_abscissas(alloc, &ours, &theirs)?;
    if is_worth_while(alloc, (&ours, &theirs), whole, &abscissas)? {
        return Ok(abscissas.get(abscissas.len() / 2).copied());
    }
    Ok(None)
}

/// The median of the abscissas of all corners that are strictly between the least and the greatest.
fn middle_cut(alloc: Global, first: &Rings, second: &Rings) -> Result<Option<i64>, AllocError> {
    let (left, right) = extent_of_both(first, second);
    let mut abscissas = Vec::new(alloc);
    push_between(&mut abscissas, first.points(), left, right)?;
    push_between(&mut abscissas, second.points(), left, right)?;
    abscissas.sort_unstable();
    Ok(abscissas.get(abscissas.len() / 2).copied())
}

/// How many cuts, one within the other, may be chosen from samples.
const SAMPLED: u32 = 32;

/// Where two lists are cut that come from `depth` cuts, one within the other. An estimate from
/// samples chooses. A file can be made to mislead it, so deep cuts are at the median of all
/// corners, and a sweep that turns out to be too much work is cut there too.
fn chosen_cut(
    alloc: Global,
    first: &Rings,
    second: &Rings,
    depth: u32,
) -> Result<Option<i64>, AllocError> {
    if let Some(at) = folded_cut(alloc, first, second)? {
        return Ok(Some(at));
    }
    if let Some(at) = sampled_cut(alloc, first, second)? {
        if depth < SAMPLED {
            return Ok(Some(at));
        }
        return middle_cut(alloc, first, second);
    }
    if are_passed_often(alloc, first)? || are_passed_often(alloc, second)? {
        return middle_cut(alloc, first, second);
    }
    Ok(None)
}

/// Whether a point is left of the abscissa.
fn has_left(points: &[Point], at: i64) -> bool
    ensures { IsTrue result → Any (λ p. p.x <ℤ at) points.now }
{
    points.iter().any(|point| point.x < at)
}

/// Whether a point of either slice is left of the abscissa.
fn either_has_left(first: &[Point], second: &[Point], at: i64) -> bool
    ensures { IsTrue result → Any (λ p. p.x <ℤ at) (first.now ++ second.now) }
{
    has_left(first, at) || has_left(second, at)
}

/// Whether a point is at the abscissa.
fn has_one(points: &[Point], at: i64) -> bool
    ensures { IsTrue result → Any (λ p. p.x ≡ at) points.now }
{
    points.iter().any(|point| point.x == at)
}

/// Whether a point of either slice is at the abscissa.
fn either_has_one(first: &[Point], second: &[Point], at: i64) -> bool
    ensures { IsTrue result → Any (λ p. p.x ≡ at) (first.now ++ second.now) }
{
    has_one(first, at) || has_one(second, at)
}

/// Whether a point is right of the abscissa.
fn has_right(points: &[Point], at: i64) -> bool
    ensures { IsTrue result → Any (λ p. at <ℤ p.x) points.now }
{
    points.iter().any(|point| at < point.x)
}

/// Whether a point of either slice is right of the abscissa.
fn either_has_right(first: &[Point], second: &[Point], at: i64) -> bool
    ensures { IsTrue result → Any (λ p. at <ℤ p.x) (first.now ++ second.now) }
{
    has_right(first, at) || has_right(second, at)
}

/// Whether one of the corners has the abscissa, one is left of it, and one is right of it.
fn is_inner(first: &[Point], second: &[Point], at: i64) -> bool
    ensures { IsTrue result → IsInner at (first.now ++ second.now) }
{
    if !either_has_left(first, second, at) {
        return false;
    }
    if !either_has_one(first, second, at) {
        return false;
    }
    either_has_right(first, second, at)
}

/// The abscissa at which to cut two lists that come from `depth` cuts, one within the other, or
/// None if a cut doesn't pay. The choice is one of cost only. The abscissa is that of a corner,
/// with others left and right of it, so each half has fewer abscissas strictly inside. For a single
/// list, the second one is empty. Fails only if out of memory.
pub fn cut_at(
    alloc: Global,
    first: &Rings,
    second: &Rings,
    depth: u32,
) -> Result<Option<i64>, AllocError>
    ensures { IfOk result (λ cut. IfSome cut (λ at. IsInner at (corners_of first.now second.now))) }
{
    let Some(at) = chosen_cut(alloc, first, second, depth)? else {
        return Ok(None);
    };
    if is_inner(first.points(), second.points(), at) {
        return Ok(Some(at));
    }
    Ok(None)
}
