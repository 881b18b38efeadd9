//! The own shapes of a cell, placed by a map.
ghost use Rattle.std.specs.Prelude.{◌≡◌, ◌<◌, [], length, get_or, All, OnOk};
ghost use Rattle.lvl_cells.specs.Cells.{shape_at};
ghost use Rattle.lvl_flat.specs.Flattened.{FitShapes};
ghost use Rattle.lvl_flat.specs.Sheets.{AreSorted};
ghost use Rattle.lvl_flat.specs.inside.Drawn.{FitsAtEach, IsRingDrawn, IsFigureDrawn, AreDrawn};
ghost use Rattle.lvl_flat.specs.inside.Drawn.{AreDrawnAt, IsDrawnAt, IsShapeDrawn};

use crate::boxes::ORIGIN;
use crate::flat::{Sheet, place_of};
use crate::indexes::Indexes;
use crate::room::Room;
use crate::scope::Scope;
use crate::within::{bounds_of_ring, draw_place, draw_places};
use lvl_cells::{MovedRing, Shapes};
use lvl_grid::{Map, PlaceFault, Rings};
use std::alloc::Global;

/// Appends a ring at each of the shifts of shape `i`, placed by the map.
fn draw_everywhere(
    alloc: Global,
    rings: &mut Rings,
    ring: &MovedRing<'_>,
    shapes: &Shapes,
    i: usize,
    map: &Map,
) -> Result<(), PlaceFault>
    requires { i < length shapes.now }
    ensures drawn { OnOk result
        (IsRingDrawn map.now Scope.Everything (shape_at shapes.now i).shifts ring.now rings.old rings.new) }
    ensures out { result ≡ Err PlaceFault.OutOfRange
        → ¬ FitsAtEach map.now (shape_at shapes.now i).shifts ring.now }
{
    for k in 0..shapes.shift_count(i) {
        let Some(shift) = shapes.shift(i, k) else {
            unreachable!()
        };
        ring.push_placed(alloc, rings, shift, map)?;
    }
    Ok(())
}

/// Appends ring `j` of shape `i` at each of the shape's shifts, placed by the map and, within a
/// window, clipped to it.
fn draw_ring(
    room: &mut Room,
    rings: &mut Rings,
    shapes: &Shapes,
    i: usize,
    j: usize,
    map: &Map,
    scope: &Scope,
) -> Result<(), PlaceFault>
    requires shape { i < length shapes.now }
    requires ring { j < length (shape_at shapes.now i).figure }
    ensures drawn { OnOk result (IsRingDrawn map.now scope.now (shape_at shapes.now i).shifts
        (get_or (shape_at shapes.now i).figure j []) rings.old rings.new) }
    ensures out { result ≡ Err PlaceFault.OutOfRange
        → ¬ FitsAtEach map.now (shape_at shapes.now i).shifts (get_or (shape_at shapes.now i).figure j []) }
{
    let ring = shapes.ring(i, j);
    let Scope::Within(window) = scope else {
        return draw_everywhere(room.alloc, rings, &ring, shapes, i, map);
    };
    let bounds = bounds_of_ring(&ring);
    let Some(shifts) = shapes.shifts(i) else {
        draw_place(room, rings, &ring, bounds, ORIGIN, map, window)?;
        return Ok(());
    };
    draw_places(room, rings, &ring, bounds, shifts, map, window)
}

/// Appends the rings of shape `i`, each at each of the shape's shifts, placed by the map and,
/// within a window, clipped to it.
fn draw_shape(
    room: &mut Room,
    rings: &mut Rings,
    shapes: &Shapes,
    i: usize,
    map: &Map,
    scope: &Scope,
) -> Result<(), PlaceFault>
    requires { i < length shapes.now }
    ensures drawn { OnOk result (IsFigureDrawn map.now scope.now (shape_at shapes.now i).shifts
        (shape_at shapes.now i).figure rings.old rings.new) }
    ensures out { result ≡ Err PlaceFault.OutOfRange
        → ¬ All (FitsAtEach map.now (shape_at shapes.now i).shifts) (shape_at shapes.now i).figure }
{
    for j in 0..shapes.ring_count(i) {
        draw_ring(room, rings, shapes, i, j, map, scope)?;
    }
    Ok(())
}

/// Appends shape `i`, placed by the map and, within a window, clipped to it, to the sheet of its
/// Layer. A shape whose Layer has no sheet is skipped.
fn draw_on_sheet(
    room: &mut Room,
    sheets: &mut Vec<Sheet>,
    shapes: &Shapes,
    i: usize,
    map: &Map,
    scope: &Scope,
) -> Result<(), PlaceFault>
    requires sorted { AreSorted sheets.old.items }
    requires shape { i < length shapes.now }
    ensures drawn { OnOk result
        (IsShapeDrawn map.now scope.now (shape_at shapes.now i) sheets.old.items sheets.new.items) }
    ensures out { result ≡ Err PlaceFault.OutOfRange
        → ¬ All (FitsAtEach map.now (shape_at shapes.now i).shifts) (shape_at shapes.now i).figure }
{
    let Some(place) = place_of(sheets, shapes.layer(i)) else {
        return Ok(());
    };
    let sheet = &mut sheets[place];
    draw_shape(room, &mut sheet.rings, shapes, i, map, scope)?;
    Ok(())
}

/// Appends the shapes of a cell, placed by the map and, within a window, clipped to it, each to the
/// sheet of its Layer. A shape whose Layer has no sheet is skipped.
pub(crate) fn draw_shapes(
    room: &mut Room,
    sheets: &mut Vec<Sheet>,
    shapes: &Shapes,
    map: &Map,
    scope: &Scope,
) -> Result<(), PlaceFault>
    requires { AreSorted sheets.old.items }
    ensures drawn { OnOk result (AreDrawn map.now scope.now shapes.now sheets.old.items sheets.new.items) }
    ensures out { result ≡ Err PlaceFault.OutOfRange → ¬ FitShapes map.now shapes.now }
{
    for i in 0..shapes.len() {
        draw_on_sheet(room, sheets, shapes, i, map, scope)?;
    }
    Ok(())
}

/// Appends shape `i` as [`draw_on_sheet`] does, if there is one.
fn draw_at(
    room: &mut Room,
    sheets: &mut Vec<Sheet>,
    shapes: &Shapes,
    i: usize,
    map: &Map,
    scope: &Scope,
) -> Result<(), PlaceFault>
    requires { AreSorted sheets.old.items }
    ensures { OnOk result
        (IsDrawnAt map.now scope.now shapes.now i sheets.old.items sheets.new.items) }
{
    if i >= shapes.len() {
        return Ok(());
    }
    draw_on_sheet(room, sheets, shapes, i, map, scope)
}

/// Appends those shapes of a cell that have the indexes of a list, as [`draw_shapes`] does.
pub(crate) fn draw_listed(
    room: &mut Room,
    sheets: &mut Vec<Sheet>,
    shapes: &Shapes,
    list: &Indexes,
    map: &Map,
    scope: &Scope,
) -> Result<(), PlaceFault>
    requires { AreSorted sheets.old.items }
    ensures { OnOk result
        (AreDrawnAt map.now scope.now shapes.now list.now sheets.old.items sheets.new.items) }
{
    for place in 0..list.len() {
        draw_at(room, sheets, shapes, list.at(place), map, scope)?;
    }
    Ok(())
}
