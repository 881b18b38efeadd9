//! The boxes of the cells of a library, each of which has all that its cell places.
ghost use Rattle.std.specs.Prelude.{◌≡◌, ◌<◌, length, slice_get, List, Some, All, IsTrue, IfOk, IfSome};
ghost use Rattle.lvl_grid.specs.declared.point.Point.{Point as GridPoint};
ghost use Rattle.lvl_grid.specs.Turn.{image};
ghost use Rattle.lvl_cells.specs.Cells.{PlainCell, Rings, shape_at, map_at};
ghost use Rattle.lvl_grid.specs.declared.point.Square.{Square as GridSquare};
ghost use Rattle.lvl_grid.specs.Clip.{IsInWindow};
ghost use Rattle.lvl_names.specs.declared.layer.Layer.{Layer as PlainLayer};
ghost use Rattle.lvl_flat.specs.Flattened.{CoversAt, IsTopInRange, TopCovers};
ghost use Rattle.lvl_flat.specs.Boxes.{HoldsPoint, HoldsChains};
ghost use Rattle.lvl_flat.specs.inside.Bounds.{Widens, HoldsRing, HoldsOwn, HoldsPicks};
ghost use Rattle.lvl_flat.specs.Boxes.{AreBoxes, FitsBounds};
ghost use Rattle.lvl_flat.specs.inside.Bounds.{IsPlacedOutside};
ghost use Rattle.lvl_flat.specs.inside.Passing.{before_shifts};

use crate::bounds::Bounds;
use lvl_cells::{Checked, KeptReference, MovedRing, Shapes};
use lvl_grid::{Map, Point, Window};
use lvl_names::Offsets;
use std::alloc::{AllocError, Global};
use std::marker::Model;
use std::rc::Rc;

/// The origin of a cell, where chains from it begin: every box has it.
pub(crate) const ORIGIN: Point = Point { x: 0, y: 0 };

/// The box of the shifts.
pub(crate) fn bounds_of_shifts(shifts: &Offsets) -> Bounds
    ensures { All (HoldsPoint result) shifts.now }
{
    let (low, high) = shifts.reach();
    Bounds { low, high }
}

/// The box of the shifts of the shape at index `i`.
pub(crate) fn bounds_of_shape_shifts(shapes: &Shapes, i: usize) -> Bounds
    requires { i < length shapes.now }
    ensures { All (HoldsPoint result) (shape_at shapes.now i).shifts }
{
    match shapes.shifts(i) {
        Some(shifts) => bounds_of_shifts(shifts),
        None => Bounds::around(ORIGIN),
    }
}

/// The box of the shifts of a reference.
pub(crate) fn bounds_of_places(reference: &KeptReference<'_>) -> Bounds
    ensures { All (HoldsPoint result) reference.now.shifts }
{
    match reference.shifts() {
        Some(shifts) => bounds_of_shifts(shifts),
        None => Bounds::around(ORIGIN),
    }
}

/// The bounds, widened to have the points of a ring after a move by any displacement in `shifts`,
/// or None if a corner would be outside 64 bits.
fn hold_ring(bounds: Bounds, ring: &MovedRing<'_>, shifts: Bounds) -> Option<Bounds>
    ensures wider { IfSome result (Widens bounds) }
    ensures held { IfSome result (λ held. HoldsRing held shifts ring.now) }
{
    let (low, high) = ring.reach()?;
    let held = Bounds { low, high }.moved(shifts)?;
    Some(bounds.joined(held))
}

/// The bounds, widened to have the shape at index `i` at all of its shifts, or None if a corner
/// would be outside 64 bits.
pub(crate) fn hold_shape(bounds: Bounds, shapes: &Shapes, i: usize) -> Option<Bounds>
    requires { i < length shapes.now }
    ensures wider { IfSome result (Widens bounds) }
    ensures held { IfSome result (λ held. HoldsOwn held (shape_at shapes.now i)) }
{
    let shifts = bounds_of_shape_shifts(shapes, i);
    let mut held = bounds;
    for j in 0..shapes.ring_count(i) {
        held = hold_ring(held, &shapes.ring(i, j), shifts)?;
    }
    Some(held)
}

/// The bounds, widened to have all shapes, or None if a corner would be outside 64 bits.
fn hold_shapes(bounds: Bounds, shapes: &Shapes) -> Option<Bounds>
    ensures wider { IfSome result (Widens bounds) }
    ensures held { IfSome result (λ held. All (HoldsOwn held) shapes.now) }
{
    let mut held = bounds;
    for i in 0..shapes.len() {
        held = hold_shape(held, shapes, i)?;
    }
    Some(held)
}

/// A box that has all points of `target` as the reference places them, before a move by its shifts.
pub(crate) fn placed_by(target: Bounds, reference: &KeptReference<'_>) -> Option<Bounds>
    ensures { IfSome result (λ placed. (p : GridPoint) → HoldsPoint target p
        → HoldsPoint placed (image (before_shifts reference.now) p)) }
{
    target.placed(&Map {
        flip: reference.flip(),
        turn: reference.turn(),
        at: reference.at(),
    })
}

/// The bounds, widened to have all points of `target` as the reference places them at its shifts,
/// or None if a corner would be outside 64 bits.
fn hold_reference(bounds: Bounds, reference: &KeptReference<'_>, target: Bounds) -> Option<Bounds>
    ensures wider { IfSome result (Widens bounds) }
    ensures held { IfSome result (λ held. (p : GridPoint) → HoldsPoint target p
        → All (λ e. HoldsPoint held (image (map_at reference.now e) p)) reference.now.shifts) }
{
    let placed = placed_by(target, reference)?;
    let everywhere = placed.moved(bounds_of_places(reference))?;
    Some(bounds.joined(everywhere))
}

/// The bounds, widened to have all that the references of a cell place, given the boxes of the
/// cells that they name. None if one of those boxes isn't known, or if a corner would be outside 64
/// bits.
fn hold_references(
    bounds: Bounds,
    checked: &Checked,
    cell: usize,
    known: &[Option<Bounds>],
) -> Option<Bounds>
    requires { cell < length checked.now.cells }
    ensures wider { IfSome result (Widens bounds) }
    ensures held { IfSome result (λ held. AreBoxes checked.now.cells known.now
        → IfSome (slice_get checked.now.cells cell) (λ c. HoldsPicks checked.now.cells held c.references)) }
{
    let mut held = bounds;
    let place = &checked.cells()[cell];
    for j in 0..place.references.len() {
        let reference = place.references.reference(j);
        let Some(target) = checked.target(cell, j) else {
            unreachable!()
        };
        let Some(Some(inner)) = known.get(target) else {
            return None;
        };
        held = hold_reference(held, &reference, *inner)?;
    }
    Some(held)
}

/// A box that has all that a cell places, by its own shapes and through references, or None if a
/// corner would be outside 64 bits or a box of a cell that it refers to isn't known.
fn bounds_of_cell(checked: &Checked, cell: usize, known: &[Option<Bounds>]) -> Option<Bounds>
    requires { cell < length checked.now.cells }
    ensures fits { IfSome result FitsBounds }
    ensures held { IfSome result (λ held. AreBoxes checked.now.cells known.now
        → IfSome (slice_get checked.now.cells cell) (HoldsChains checked.now.cells held)) }
{
    let place = &checked.cells()[cell];
    let held = hold_shapes(Bounds::around(ORIGIN), &place.shapes)?;
    hold_references(held, checked, cell, known)
}

/// For each cell of a checked library, by index, a box that has all that the cell places through
/// all references, or None if the box would leave 64 signed bits.
#[derive(Debug, Drop)]
pub(crate) struct Boxes {
    known: Rc<Vec<Option<Bounds>>>,
}

impl Model for Boxes {
    ghost use Rattle.std.specs.Prelude.{List, Option};
    ghost use Rattle.lvl_flat.specs.declared.bounds.Bounds.{Bounds};

    ghost Value = { List (Option Bounds) };

    ghost view = { λ b. b.known.value.items };
}

impl Boxes {
    /// No boxes: that of no cell is known.
    pub(crate) fn unknown(alloc: Global) -> Result<Boxes, AllocError>
        ensures { IfOk result (λ boxes. (cells : List (PlainCell Rings)) → AreBoxes cells boxes) }
    {
        Boxes::of(alloc, Vec::new(alloc))
    }

    fn of(alloc: Global, known: Vec<Option<Bounds>>) -> Result<Boxes, AllocError>
        ensures { IfOk result (λ boxes. boxes ≡ known.items) }
    {
        match Rc::new(alloc, known) {
            Ok(known) => Ok(Boxes { known }),
            Err(_) => Err(AllocError),
        }
    }

    /// A handle on these boxes, which aren't copied.
    pub(crate) fn shared(&self) -> Result<Boxes, AllocError>
        ensures { IfOk result (λ boxes. boxes ≡ self.now) }
    {
        let known = self.known.clone()?;
        Ok(Boxes { known })
    }

    /// The boxes of the cells of a library. That of each cell is made from its own shapes and from
    /// the boxes of the cells that it refers to.
    pub(crate) fn new(alloc: Global, checked: &Checked) -> Result<Boxes, AllocError>
        ensures { IfOk result (AreBoxes checked.now.cells) }
    {
        let mut known: Vec<Option<Bounds>> = vec![in alloc; None; checked.cells().len()]?;
        for i in (0..checked.order().len()).rev() {
            let cell = checked.order()[i];
            known[cell] = bounds_of_cell(checked, cell, &known);
        }
        Boxes::of(alloc, known)
    }

    /// The box of the cell at this index, if it is known.
    pub(crate) fn get(&self, cell: usize) -> Option<Bounds>
        ensures { IfSome result (λ bounds. slice_get self.now cell ≡ Some (Some bounds)) }
    {
        match self.known.get(cell) {
            Some(Some(bounds)) => Some(*bounds),
            _ => None,
        }
    }

    /// Whether the box of the top is known, so that all that the top places is within 64 signed
    /// bits. `false` says nothing.
    pub(crate) fn hold_top(&self, checked: &Checked) -> bool
        requires { AreBoxes checked.now.cells self.now }
        ensures { IsTrue result → IsTopInRange checked.now }
    {
        match self.get(checked.top()) {
            Some(_) => true,
            None => false,
        }
    }

    /// A window that has every square that the top covers.
    pub(crate) fn extent(&self, checked: &Checked) -> Window
        requires boxes { AreBoxes checked.now.cells self.now }
        requires in_range { IsTopInRange checked.now }
        ensures { (layer : PlainLayer) (s : GridSquare) → TopCovers checked.now layer s → IsInWindow result s }
    {
        match self.get(checked.top()) {
            Some(bounds) => bounds.window(),
            None => Bounds::grid().window(),
        }
    }

    /// A window that has every square that the cell at this index covers, if its box is known.
    pub(crate) fn extent_of(&self, checked: &Checked, cell: usize) -> Option<Window>
        requires { AreBoxes checked.now.cells self.now }
        ensures { IfSome result (λ window. (layer : PlainLayer) (s : GridSquare)
            → CoversAt checked.now.cells cell layer s → IsInWindow window s) }
    {
        match self.get(cell) {
            Some(bounds) => Some(bounds.window()),
            None => None,
        }
    }

    /// Whether the box of the cell at this index shows that all that the cell places, itself placed
    /// by the map, is within 64 bits and covers no square of the window. `false` says nothing.
    pub(crate) fn miss(&self, cell: usize, map: &Map, window: &Window) -> bool
        ensures { IsTrue result → IsPlacedOutside self.now cell map.now window.now }
    {
        let Some(bounds) = self.get(cell) else {
            return false;
        };
        let Some(placed) = bounds.placed(map) else {
            return false;
        };
        placed.misses(window)
    }
}

/// Whether the boxes of the cells show that all that the top places is within 64 signed bits.
/// `false` says nothing: a box can be larger than what its cell places.
pub fn fits_by_boxes(alloc: Global, checked: &Checked) -> Result<bool, AllocError>
    ensures { IfOk result (λ fits. IsTrue fits → IsTopInRange checked.now) }
{
    let boxes = Boxes::new(alloc, checked)?;
    Ok(boxes.hold_top(checked))
}
