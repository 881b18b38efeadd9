//! A ring, placed by a map and clipped to a window.
ghost use Rattle.std.specs.Prelude.{◌≡◌, ◌↔◌, ◌⊎◌, All, OnOk, IfSome};
ghost use Rattle.lvl_grid.specs.declared.point.Point.{Point as GridPoint};
ghost use Rattle.lvl_grid.specs.declared.point.Square.{Square as GridSquare};
ghost use Rattle.lvl_grid.specs.Clip.{IsInWindow};
ghost use Rattle.lvl_grid.specs.Placed.{placed_point, IsPlaceOfCovered};
ghost use Rattle.lvl_grid.specs.Winding.{IsRing, SomeCovers};
ghost use Rattle.lvl_flat.specs.Flattened.{FitsRing};
ghost use Rattle.lvl_flat.specs.Boxes.{HoldsPoint, FitsBounds};
ghost use Rattle.lvl_flat.specs.inside.Drawn.{FitsAtEach, IsRingDrawn};

use crate::bounds::Bounds;
use crate::boxes::bounds_of_shifts;
use crate::missed::{LEAST_RUN, missed_from};
use crate::near::placed_near;
use crate::room::Room;
use crate::rows::known_row;
use crate::scope::Scope;
use lvl_cells::MovedRing;
use lvl_grid::{Map, Part, PlaceFault, Point, Rings, Window};
use lvl_names::Offsets;
use std::alloc::Global;

/// The box of the points of a ring.
pub(crate) fn bounds_of_ring(ring: &MovedRing<'_>) -> Bounds
    requires { IsRing ring.now }
    ensures { All (HoldsPoint result) ring.now }
{
    match ring.reach() {
        Some((low, high)) => Bounds { low, high },
        None => bounds_of_points(ring),
    }
}

/// The box of the points of a ring, which are looked at one by one.
fn bounds_of_points(ring: &MovedRing<'_>) -> Bounds
    requires { IsRing ring.now }
    ensures { All (HoldsPoint result) ring.now }
{
    let Some(first) = ring.get(0) else {
        unreachable!()
    };
    let mut bounds = Bounds::around(first);
    for k in 0..ring.len() {
        let Some(point) = ring.get(k) else {
            unreachable!()
        };
        bounds = bounds.joined(Bounds::around(point));
    }
    bounds
}

/// A box that has all points of `bounds` after a move by `shift` and mapped, or None if it is
/// outside 64 bits.
pub(crate) fn placed_bounds(bounds: Bounds, shift: Point, map: &Map) -> Option<Bounds>
    ensures held { IfSome result
        (λ placed. (p : GridPoint) → HoldsPoint bounds p → HoldsPoint placed (placed_point map.now shift p)) }
    ensures fits { IfSome result FitsBounds }
{
    bounds.moved(Bounds::around(shift))?.placed(map)
}

/// Appends a ring, moved by the shift, placed by the map and clipped to the window.
fn draw_cut(
    alloc: Global,
    rings: &mut Rings,
    ring: &MovedRing<'_>,
    shift: Point,
    map: &Map,
    window: &Window,
) -> Result<(), PlaceFault>
    requires { IsRing ring.now }
    ensures covers { OnOk result ((q : GridSquare) → SomeCovers rings.new q
        ↔ (SomeCovers rings.old q ⊎ (IsInWindow window.now q × IsPlaceOfCovered map.now shift ring.now q))) }
    ensures fits { OnOk result (FitsRing map.now shift ring.now) }
    ensures out { result ≡ Err PlaceFault.OutOfRange → ¬ FitsRing map.now shift ring.now }
{
    let mut placed = Rings::new(alloc);
    ring.push_placed(alloc, &mut placed, shift, map)?;
    let Ok(()) = rings.push_clipped(&Part::Within(*window), placed.ring(0)) else {
        return Err(PlaceFault::OutOfMemory);
    };
    Ok(())
}

/// Appends a ring that has stretches as [`draw_cut`] does, without those of its points that are on one side of the
/// window and needn't be placed.
fn draw_near(
    alloc: Global,
    rings: &mut Rings,
    ring: &MovedRing<'_>,
    shift: Point,
    map: &Map,
    window: &Window,
) -> Result<(), PlaceFault>
    requires { IsRing ring.now }
    ensures covers { OnOk result ((q : GridSquare) → SomeCovers rings.new q
        ↔ (SomeCovers rings.old q ⊎ (IsInWindow window.now q × IsPlaceOfCovered map.now shift ring.now q))) }
    ensures out { result ≡ Err PlaceFault.OutOfRange → ¬ FitsRing map.now shift ring.now }
{
    let Ok(found) = placed_near(alloc, ring, shift, map, window) else {
        return Err(PlaceFault::OutOfMemory);
    };
    let Some(near) = found else {
        return draw_cut(alloc, rings, ring, shift, map, window);
    };
    let Ok(()) = rings.push_clipped(&Part::Within(*window), near.points()) else {
        return Err(PlaceFault::OutOfMemory);
    };
    Ok(())
}

/// Appends a ring whose points are within `bounds`, moved by the shift, placed by the map and
/// clipped to the window. If the bounds show that it is outside of the window, or inside, it
/// needn't be clipped.
fn draw_ring_at(
    alloc: Global,
    rings: &mut Rings,
    ring: &MovedRing<'_>,
    bounds: Bounds,
    shift: Point,
    map: &Map,
    window: &Window,
) -> Result<(), PlaceFault>
    requires ring { IsRing ring.now }
    requires bounds { All (HoldsPoint bounds) ring.now }
    ensures covers { OnOk result ((q : GridSquare) → SomeCovers rings.new q
        ↔ (SomeCovers rings.old q ⊎ (IsInWindow window.now q × IsPlaceOfCovered map.now shift ring.now q))) }
    ensures fits { OnOk result (FitsRing map.now shift ring.now) }
    ensures out { result ≡ Err PlaceFault.OutOfRange → ¬ FitsRing map.now shift ring.now }
{
    if let Some(placed) = placed_bounds(bounds, shift, map) {
        if placed.misses(window) {
            return Ok(());
        }
        if placed.is_inside(window) {
            ring.push_placed(alloc, rings, shift, map)?;
            return Ok(());
        }
        if ring.reach_of_stretch(0).is_some() {
            draw_near(alloc, rings, ring, shift, map, window)?;
            return Ok(());
        }
    }
    draw_cut(alloc, rings, ring, shift, map, window)
}

/// Appends a ring as [`draw_ring_at`] does, and takes room for its points, for which the rings may
/// be made simpler. Returns how many points were drawn.
pub(crate) fn draw_place(
    room: &mut Room,
    rings: &mut Rings,
    ring: &MovedRing<'_>,
    bounds: Bounds,
    shift: Point,
    map: &Map,
    window: &Window,
) -> Result<usize, PlaceFault>
    requires ring { IsRing ring.now }
    requires bounds { All (HoldsPoint bounds) ring.now }
    ensures covers { OnOk result ((q : GridSquare) → SomeCovers rings.new q
        ↔ (SomeCovers rings.old q ⊎ (IsInWindow window.now q × IsPlaceOfCovered map.now shift ring.now q))) }
    ensures fits { OnOk result (FitsRing map.now shift ring.now) }
    ensures out { result ≡ Err PlaceFault.OutOfRange → ¬ FitsRing map.now shift ring.now }
{
    let held = rings.points().len();
    draw_ring_at(room.alloc, rings, ring, bounds, shift, map, window)?;
    let drawn = rings.points().len().saturating_sub(held);
    room.take(rings, drawn)?;
    Ok(drawn)
}

/// Appends a ring whose points are within `bounds` at each of the shifts, placed by the map and
/// clipped to the window. Skips runs of places at which the bounds miss the window.
pub(crate) fn draw_places(
    room: &mut Room,
    rings: &mut Rings,
    ring: &MovedRing<'_>,
    bounds: Bounds,
    shifts: &Offsets,
    map: &Map,
    window: &Window,
) -> Result<(), PlaceFault>
    requires ring { IsRing ring.now }
    requires bounds { All (HoldsPoint bounds) ring.now }
    ensures drawn { OnOk result
        (IsRingDrawn map.now (Scope.Within window.now) shifts.now ring.now rings.old rings.new) }
    ensures out { result ≡ Err PlaceFault.OutOfRange → ¬ FitsAtEach map.now shifts.now ring.now }
{
    if bounds.misses_moved(bounds_of_shifts(shifts), map, window) {
        return Ok(());
    }
    let count = shifts.len();
    let mut row = 0;
    let mut k = 0;
    while let Some(shift) = shifts.at(k) {
        let drawn = draw_place(room, rings, ring, bounds, shift, map, window)?;
        k += 1;
        if drawn == 0 && count - k >= LEAST_RUN {
            row = known_row(row, shifts);
            k = missed_from(shifts, k, row, bounds, map, window);
        }
    }
    Ok(())
}
