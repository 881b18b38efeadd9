//! A ring near a window: stretches on one side of the window count by their ends alone.
ghost use Rattle.std.specs.Prelude.{◌≡◌, ◌<◌, ◌≤◌, ◌-◌, ◌*◌, ◌↔◌, ◌++◌, take, drop, length, All};
ghost use Rattle.std.specs.Prelude.{IfOk, IfSome, IsTrue, OnOk};
ghost use Rattle.lvl_grid.specs.declared.point.Square.{Square as GridSquare};
ghost use Rattle.lvl_grid.specs.Clip.{IsInWindow};
ghost use Rattle.lvl_grid.specs.Placed.{IsPlaceOfCovered};
ghost use Rattle.lvl_grid.specs.Winding.{Covers, IsRing};
ghost use Rattle.lvl_cells.specs.Stretches.{stretch_at};
ghost use Rattle.lvl_flat.specs.Boxes.{HoldsPoint};
ghost use Rattle.lvl_flat.specs.inside.Bounds.{Widens};
ghost use Rattle.lvl_flat.specs.inside.Near.{run_at, AddsRun, AreEnds, IsPlacedBeside, IsRunBeside, WindAlike};

use crate::bounds::Bounds;
use crate::within::placed_bounds;
use lvl_cells::{MovedRing, STRETCH};
use lvl_grid::{Map, PlaceFault, Point, Ring, Window};
use std::alloc::{AllocError, Global};

/// The greatest number of stretches that are tried at once.
const MOST: usize = 64;

/// Whether the box is found to be on one side of the window where it is placed.
fn is_placed_beside(bounds: Bounds, shift: Point, map: &Map, window: &Window) -> bool
    ensures { IsTrue result → IsPlacedBeside map.now shift window.now bounds }
{
    match placed_bounds(bounds, shift, map) {
        Some(placed) => placed.is_beside(window),
        None => false,
    }
}

/// The box of the points of stretch `k` of a ring, or None if it isn't kept.
fn bounds_of_stretch(ring: &MovedRing<'_>, k: usize) -> Option<Bounds>
    ensures { IfSome result (λ bounds. All (HoldsPoint bounds) (stretch_at ring.now k)) }
{
    let (low, high) = ring.reach_of_stretch(k)?;
    Some(Bounds { low, high })
}

/// A box that has the points of `bounds` and those of the stretches from one up to another, which is excluded. None if
/// the reach of one of these isn't kept.
fn joined_with(ring: &MovedRing<'_>, bounds: Bounds, begin: usize, end: usize) -> Option<Bounds>
    requires { begin ≤ end }
    ensures wider { IfSome result (Widens bounds) }
    ensures all { IfSome result (λ wider. All (HoldsPoint wider) (run_at ring.now begin end)) }
{
    let mut wider = bounds;
    for k in begin..end {
        wider = wider.joined(bounds_of_stretch(ring, k)?);
    }
    Some(wider)
}

/// A box as [`joined_with`] finds it, if it is found to be on one side of the window where it is placed.
fn joined_beside(
    ring: &MovedRing<'_>,
    bounds: Bounds,
    begin: usize,
    end: usize,
    shift: Point,
    map: &Map,
    window: &Window,
) -> Option<Bounds>
    requires { begin ≤ end }
    ensures wider { IfSome result (Widens bounds) }
    ensures all { IfSome result (λ wider. All (HoldsPoint wider) (run_at ring.now begin end)) }
    ensures beside { IfSome result (IsPlacedBeside map.now shift window.now) }
{
    let wider = joined_with(ring, bounds, begin, end)?;
    if !is_placed_beside(wider, shift, map, window) {
        return None;
    }
    Some(wider)
}

/// How many stretches are tried after so many that are on one side of the window.
fn next_step(step: usize, grows: bool) -> usize
    ensures { step ≤ 64 → result ≤ 64 }
{
    if grows {
        MOST.min(step.saturating_mul(2))
    } else {
        step / 2
    }
}

/// The end, which is excluded, of stretches from stretch `k` on that are found to be on one side of the window
/// together. None if stretch `k` isn't. Ever more of them are tried at once, and after some aren't, ever fewer.
fn end_beside(
    ring: &MovedRing<'_>,
    k: usize,
    shift: Point,
    map: &Map,
    window: &Window,
) -> Option<usize>
    ensures { IfSome result (IsRunBeside map.now shift window.now ring.now k) }
{
    let count = ring.len() / STRETCH;
    if k >= count {
        return None;
    }
    let mut bounds = bounds_of_stretch(ring, k)?;
    if !is_placed_beside(bounds, shift, map, window) {
        return None;
    }
    let mut end = k + 1;
    let mut step = 1;
    let mut grows = true;
    while end < count && step > 0 {
        let to = count.min(end.saturating_add(step));
        let Some(wider) = joined_beside(ring, bounds, end, to, shift, map, window) else {
            grows = false;
            step /= 2;
            continue;
        };
        bounds = wider;
        end = to;
        step = next_step(step, grows);
    }
    Some(end)
}

/// The ends of the stretches from stretch `k` up to another, which is excluded, and a corner between them.
fn ends_of(ring: &MovedRing<'_>, k: usize, end: usize) -> Option<[Point; 3]>
    requires order { k < end }
    requires whole { 128 * end ≤ length ring.now }
    ensures { IfSome result (AreEnds (run_at ring.now k end)) }
{
    let first = ring.get(k.checked_mul(STRETCH)?)?;
    let last = ring.get(end.checked_mul(STRETCH)?.checked_sub(1)?)?;
    let corner = Point {
        x: first.x,
        y: last.y,
    };
    Some([first, corner, last])
}

/// Appends the points of a ring with an index from `begin` up to `end`, which is excluded.
fn push_points(
    points: &mut Vec<Point>,
    ring: &MovedRing<'_>,
    begin: usize,
    end: usize,
) -> Result<(), AllocError>
    requires order { begin ≤ end }
    requires inside { end ≤ length ring.now }
    ensures { OnOk result (points.new.items ≡ points.old.items ++ take (end - begin) (drop begin ring.now)) }
{
    for i in begin..end {
        let Some(point) = ring.get(i) else {
            unreachable!()
        };
        points.push(point)?;
    }
    Ok(())
}

/// Appends the points of stretch `k` of a ring, or only the ends of the stretches from it on that are on one side of
/// the window, and a corner between them. Returns the stretch after these.
fn push_run(
    points: &mut Vec<Point>,
    ring: &MovedRing<'_>,
    k: usize,
    shift: Point,
    map: &Map,
    window: &Window,
) -> Result<usize, AllocError>
    requires { 128 * k ≤ length ring.now }
    ensures later { IfOk result (λ end. k < end) }
    ensures added { IfOk result (λ end.
        AddsRun map.now shift window.now (run_at ring.now k end) points.old.items points.new.items) }
{
    if let Some(end) = end_beside(ring, k, shift, map, window) {
        if let Some(ends) = ends_of(ring, k, end) {
            points.extend_from_slice(&ends)?;
            return Ok(end);
        }
    }
    let len = ring.len();
    let begin = k * STRETCH;
    push_points(points, ring, begin, len.min(begin.saturating_add(STRETCH)))?;
    Ok(k + 1)
}

/// The points of a ring, of which stretches that are on one side of the window have only their ends and a corner
/// between them.
fn near_points(
    alloc: Global,
    ring: &MovedRing<'_>,
    shift: Point,
    map: &Map,
    window: &Window,
) -> Result<Vec<Point>, AllocError>
    ensures { IfOk result (λ points. WindAlike map.now shift window.now ring.now points.items) }
{
    let mut points = Vec::new(alloc);
    let count = ring.len() / STRETCH;
    let mut k = 0;
    while k <= count {
        k = push_run(&mut points, ring, k, shift, map, window)?;
    }
    Ok(points)
}

/// A ring that covers what a ring, moved by the shift and placed by the map, covers in the window. None if it isn't
/// found to be one.
pub(crate) fn placed_near(
    alloc: Global,
    ring: &MovedRing<'_>,
    shift: Point,
    map: &Map,
    window: &Window,
) -> Result<Option<Ring>, AllocError>
    requires { IsRing ring.now }
    ensures { IfOk result (λ found. IfSome found (λ near. (q : GridSquare) → IsInWindow window.now q
        → Covers near q ↔ IsPlaceOfCovered map.now shift ring.now q)) }
{
    let points = near_points(alloc, ring, shift, map, window)?;
    let Ok(near) = Ring::new(points) else {
        return Ok(None);
    };
    match near.placed(alloc, shift, map) {
        Ok(placed) => Ok(Some(placed)),
        Err(PlaceFault::OutOfRange) => Ok(None),
        Err(PlaceFault::OutOfMemory) => Err(AllocError),
    }
}
