//! What a layout draws in a strip: a few columns of squares, and the one left of them, or a few rows, and
//! the one below them.
ghost use Rattle.std.specs.Prelude.{◌≡◌, ◌<◌, ◌<ℤ◌, ◌≤ℤ◌, ◌+ℤ◌, pos, AllPairs, IfOk, IfSome};
ghost use Rattle.lvl_names.specs.Layers.{ComesBefore};
ghost use Rattle.lvl_flat.specs.Flattened.{IsFlattenedWithin};
ghost use Rattle.lvl.specs.Hashes.{below_at, last_of, sliced};

use crate::pace::{Pace, Points};
use lvl_flat::{Fitted, Flat, OverBudget};
use lvl_grid::{Point, Window};
use lvl_names::Layer;
use lvl_refusal::Cause;
use std::alloc::{AllocError, Global};

/// The direction in which strips follow one another: columns along x, or rows along y.
#[derive(Clone, Copy)]
pub(crate) enum Axis {
    X,
    Y,
}

/// What is drawn in a strip, unless it has more points than there is room for and no narrower one is tried.
/// Then the abscissa (or ordinate) at which the strip ends, which is excluded, and the pace of the next one.
#[derive(Drop)]
pub(crate) struct Strip {
    pub flat: Option<Flat>,
    pub end: i64,
    pub pace: Pace,
}

/// Whether a point is on one of the sides at which a strip begins and ends.
fn is_on_sides(point: Point, strip: &Window, axis: Axis) -> bool {
    match axis {
        Axis::X => point.x <= strip.x0 || strip.x1 <= point.x,
        Axis::Y => point.y <= strip.y0 || strip.y1 <= point.y,
    }
}

/// The points of the rings of a layout that was flattened in a strip.
fn points_of(flat: &Flat, strip: &Window, axis: Axis) -> Points {
    let mut all: usize = 0;
    let mut on_sides: usize = 0;
    for place in 0..flat.len() {
        if let Some(layer) = flat.layer(place) {
            let points = flat.rings(layer).points();
            let sides = points
                .iter()
                .filter(|point| is_on_sides(**point, strip, axis));
            all = all.saturating_add(points.len());
            on_sides = on_sides.saturating_add(sides.count());
        }
    }
    Points { all, on_sides }
}

/// The columns of a window from one before an abscissa up to another, which is excluded, or the rows
/// from one before an ordinate up to another.
pub(crate) fn slice_around(window: &Window, axis: Axis, from: i64, end: i64) -> Window
    ensures { result ≡ sliced axis window.now from end }
{
    let before = from.saturating_sub(1);
    match axis {
        Axis::X => Window {
            x0: before,
            x1: end,
            ..*window
        },
        Axis::Y => Window {
            y0: before,
            y1: end,
            ..*window
        },
    }
}

/// The abscissa (or ordinate) at which the columns (or rows) of a window end.
fn end_of_all(window: &Window, axis: Axis) -> i64
    ensures { result ≡ last_of axis window.now }
{
    match axis {
        Axis::X => window.x1,
        Axis::Y => window.y1,
    }
}

/// Where a strip of at most this width ends that begins at `from`, if all strips end at `last`.
pub(crate) fn end_of(last: i64, from: i64, width: u64) -> i64
    requires wide { 0 < width }
    requires squares { from <ℤ last }
    ensures further { from <ℤ result }
    ensures inside { result ≤ℤ last }
    ensures narrow { result ≤ℤ (from +ℤ pos width) }
{
    from.saturating_add_unsigned(width).min(last)
}

/// Where a strip ends, or None if all strips end there: their last corners are at that end.
pub(crate) fn end_before(end: i64, last: i64) -> Option<i64>
    ensures { result ≡ below_at end last }
{
    if end < last { Some(end) } else { None }
}

/// The rings of some Layers in a window, or None if they have more than `most` points.
fn drawn(
    alloc: Global,
    fitted: &Fitted,
    layers: &[Layer],
    window: &Window,
    most: usize,
) -> Result<Option<Flat>, AllocError>
    requires { AllPairs ComesBefore layers.now }
    ensures { IfOk result (λ found. IfSome found (IsFlattenedWithin fitted.now layers.now window.now)) }
{
    match fitted.within(alloc, layers, window, most) {
        Ok(flat) => Ok(Some(flat)),
        Err(Cause::Breach(OverBudget)) => Ok(None),
        Err(Cause::OutOfMemory) => Err(AllocError),
    }
}

/// The rings of some Layers in a window, however many points they have.
pub(crate) fn all_drawn(
    alloc: Global,
    fitted: &Fitted,
    layers: &[Layer],
    window: &Window,
) -> Result<Flat, AllocError>
    requires { AllPairs ComesBefore layers.now }
    ensures { IfOk result (IsFlattenedWithin fitted.now layers.now window.now) }
{
    match fitted.within(alloc, layers, window, usize::MAX) {
        Ok(flat) => Ok(flat),
        Err(_) => Err(AllocError),
    }
}

/// The rings of some Layers in the strip of a window that begins at `from`. The strip is at most as
/// wide as the pace allows, and is halved until it doesn't have too many points.
/// If no narrower one is tried, its rings are None.
pub(crate) fn next_strip(
    alloc: Global,
    fitted: &Fitted,
    layers: &[Layer],
    window: &Window,
    axis: Axis,
    from: i64,
    pace: Pace,
) -> Result<Strip, AllocError>
    requires wide { 0 < pace.width }
    requires squares { from <ℤ last_of axis window.now }
    requires rising { AllPairs ComesBefore layers.now }
    ensures flat { IfOk result (λ strip.
        IfSome strip.flat (IsFlattenedWithin fitted.now layers.now (sliced axis window.now from strip.end))) }
    ensures further { IfOk result (λ strip. from <ℤ strip.end) }
    ensures inside { IfOk result (λ strip. strip.end ≤ℤ last_of axis window.now) }
    ensures wide { IfOk result (λ strip. 0 < strip.pace.width) }
{
    let end = end_of(end_of_all(window, axis), from, pace.width);
    let strip = slice_around(window, axis, from, end);
    if let Some(flat) = drawn(alloc, fitted, layers, &strip, pace.points)? {
        let pace = pace.after(points_of(&flat, &strip, axis));
        return Ok(Strip {
            flat: Some(flat),
            end,
            pace,
        });
    }
    let Some(narrower) = pace.halved() else {
        return Ok(Strip {
            flat: None,
            end,
            pace,
        });
    };
    next_strip(alloc, fitted, layers, window, axis, from, narrower)
}
