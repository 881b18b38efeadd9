//! The rings of a cell that cover a square where the cell is placed.
ghost use Rattle.std.specs.Prelude.{◌≡◌, ◌<◌, ◌↔◌, get_or, length, All, IsTrue, IfOk, IfSome, IfNone, Contains};
ghost use Rattle.lvl_grid.specs.Placed.{placed_point, IsPlaceOfCovered};
ghost use Rattle.lvl_grid.specs.Winding.{IsRing};
ghost use Rattle.lvl_cells.specs.Cells.{shape_at};
ghost use Rattle.lvl_flat.specs.Flattened.{FitsRing, FitShapes};
ghost use Rattle.lvl_flat.specs.inside.Drawn.{FitsAtEach, RingPlacesCover, ShapePlacesCover};
ghost use Rattle.lvl_witness.specs.Witnesses.{IsCoveringRing};
ghost use Rattle.lvl_witness.specs.inside.Rings.{IsCoveringPlace, IsCoveringPart, IsRingAt, ShapesCover};

use crate::areas::area_of_ring;
use crate::boxes::moved_box_of;
use crate::places::next_place;
use crate::wide::pulled;
use crate::witness::PlacedRing;
use lvl_cells::{MovedRing, Shapes};
use lvl_grid::{Map, PlaceFault, Point, Rings, Square};
use lvl_names::{Layer, Offsets};
use std::alloc::{AllocError, Global};

/// Whether the ring, moved by the shift and placed by the map, covers the square.
fn covers_at(
    alloc: Global,
    ring: &MovedRing<'_>,
    shift: Point,
    map: &Map,
    square: Square,
) -> Result<bool, AllocError>
    requires ring { IsRing ring.now }
    requires fits { FitsRing map.now shift ring.now }
    ensures { IfOk result (λ covers. IsTrue covers ↔ IsPlaceOfCovered map.now shift ring.now square) }
{
    let mut rings = Rings::new(alloc);
    match ring.push_placed(alloc, &mut rings, shift, map) {
        Ok(()) => Ok(rings.covers(square)),
        Err(PlaceFault::OutOfMemory) => Err(AllocError),
        Err(PlaceFault::OutOfRange) => unreachable!(),
    }
}

/// Whether the Layer is in the list.
fn is_listed(layers: &[Layer], layer: Layer) -> bool
    ensures { IsTrue result ↔ Contains layers.now layer }
{
    layers.contains(&layer)
}

/// The index of a shift at which the ring, moved by it and placed by the map, covers the square.
fn place_of(
    alloc: Global,
    ring: &MovedRing<'_>,
    shifts: &Offsets,
    map: &Map,
    square: Square,
) -> Result<Option<u64>, AllocError>
    requires ring { IsRing ring.now }
    requires fits { FitsAtEach map.now shifts.now ring.now }
    ensures some { IfOk result (λ found. IfSome found (IsCoveringPlace map.now square shifts.now ring.now)) }
    ensures none { IfOk result (λ found. IfNone found (¬ RingPlacesCover map.now shifts.now square ring.now)) }
{
    let area = area_of_ring(ring, pulled(map, square));
    let count = shifts.len();
    let mut place = next_place(shifts, 0, area);
    while place < count {
        let Some(shift) = shifts.at(place) else {
            unreachable!()
        };
        if covers_at(alloc, ring, shift, map, square)? {
            return Ok(Some(place));
        }
        place = next_place(shifts, place + 1, area);
    }
    Ok(None)
}

/// The ring of the shape at index `i` that covers the square at one of the shape's shifts, where the
/// cell is placed by the map: the index of the ring, and that of the shift.
fn ring_at(
    alloc: Global,
    shapes: &Shapes,
    i: usize,
    shifts: &Offsets,
    map: &Map,
    square: Square,
) -> Result<Option<(usize, u64)>, AllocError>
    requires there { i < length shapes.now }
    requires shifts { shifts.now ≡ (shape_at shapes.now i).shifts }
    requires fits { All (FitsAtEach map.now shifts.now) (shape_at shapes.now i).figure }
    ensures some { IfOk result (λ found. IfSome found (IsCoveringPart map.now square (shape_at shapes.now i))) }
    ensures none { IfOk result (λ found. IfNone found (¬ ShapePlacesCover map.now square (shape_at shapes.now i))) }
{
    for j in 0..shapes.ring_count(i) {
        if let Some(place) = place_of(alloc, &shapes.ring(i, j), shifts, map, square)? {
            return Ok(Some((j, place)));
        }
    }
    Ok(None)
}

/// What [`ring_at`] returns, at the shape's own shifts.
fn ring_of(
    alloc: Global,
    shapes: &Shapes,
    i: usize,
    map: &Map,
    square: Square,
) -> Result<Option<(usize, u64)>, AllocError>
    requires there { i < length shapes.now }
    requires fits { All (FitsAtEach map.now (shape_at shapes.now i).shifts) (shape_at shapes.now i).figure }
    ensures some { IfOk result (λ found. IfSome found (IsCoveringPart map.now square (shape_at shapes.now i))) }
    ensures none { IfOk result (λ found. IfNone found (¬ ShapePlacesCover map.now square (shape_at shapes.now i))) }
{
    match shapes.shifts(i) {
        Some(shifts) => ring_at(alloc, shapes, i, shifts, map, square),
        None => ring_at(alloc, shapes, i, &Offsets::single(), map, square),
    }
}

/// The ring with these indexes, with the counts of what is beside it, and its box.
fn placed_ring(shapes: &Shapes, shape: usize, place: u64, ring: usize) -> PlacedRing
    requires shape { shape < length shapes.now }
    requires place { place < length (shape_at shapes.now shape).shifts }
    requires ring { ring < length (shape_at shapes.now shape).figure }
    ensures { IsRingAt shapes.now shape place ring result }
{
    let Some(shift) = shapes.shift(shape, place) else {
        unreachable!()
    };
    let (low, high) = moved_box_of(&shapes.ring(shape, ring), shift);
    PlacedRing {
        layer: shapes.layer(shape),
        shape,
        shapes: shapes.len(),
        place,
        places: shapes.shift_count(shape),
        ring,
        rings: shapes.ring_count(shape),
        low,
        high,
    }
}

/// A ring of the shapes that is on one of the Layers and covers the square, where their cell is
/// placed by the map.
pub(crate) fn find_ring(
    alloc: Global,
    shapes: &Shapes,
    map: &Map,
    layers: &[Layer],
    square: Square,
) -> Result<Option<PlacedRing>, AllocError>
    requires { FitShapes map.now shapes.now }
    ensures some { IfOk result
        (λ found. IfSome found (IsCoveringRing shapes.now map.now layers.now square)) }
    ensures none { IfOk result
        (λ found. IfNone found (¬ ShapesCover map.now layers.now square shapes.now)) }
{
    for shape in 0..shapes.len() {
        if !is_listed(layers, shapes.layer(shape)) {
            continue;
        }
        if let Some((ring, place)) = ring_of(alloc, shapes, shape, map, square)? {
            return Ok(Some(placed_ring(shapes, shape, place, ring)));
        }
    }
    Ok(None)
}
