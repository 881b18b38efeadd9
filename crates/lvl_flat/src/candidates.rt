//! The own shapes and references of a top that may cover squares of a window.
ghost use Rattle.std.specs.Prelude.{◌≡◌, ◌<◌, false, length, IfOk, IfSome, slice_get, Some};
ghost use Rattle.lvl_cells.specs.Cells.{PlainCell, Rings, shape_at};
ghost use Rattle.lvl_grid.specs.Clip.{IsInWindow};
ghost use Rattle.lvl_grid.specs.declared.point.Square.{Square as GridSquare};
ghost use Rattle.lvl_names.specs.declared.layer.Layer.{Layer as PlainLayer};
ghost use Rattle.lvl_flat.specs.Boxes.{AreBoxes};
ghost use Rattle.lvl_flat.specs.Candidates.{HasAll};
ghost use Rattle.lvl_flat.specs.inside.Bounds.{HoldsOwn};
ghost use Rattle.lvl_flat.specs.inside.Parts.{HasParts, MissesPart};

use crate::bounds::Bounds;
use crate::boxes::{Boxes, bounds_of_places, hold_shape, placed_by};
use crate::estimate::{Count, Measures};
use crate::indexes::Indexes;
use lvl_cells::{Checked, Shapes};
use lvl_grid::Window;
use std::alloc::{AllocError, Global};

/// What an index is of.
#[derive(Clone, Copy, Debug)]
pub(crate) enum Part {
    /// An own shape of the top.
    Shape,
    /// A reference of the top.
    Reference,
}

/// Own shapes and references of a top, by their indexes. Those that aren't here are known not to
/// cover any square of a window.
#[derive(Debug, Drop)]
pub struct Candidates {
    pub(crate) shapes: Indexes,
    pub(crate) references: Indexes,
}

impl Candidates {
    /// The number of shapes and references.
    pub fn len(&self) -> usize {
        self.shapes.len().saturating_add(self.references.len())
    }
}

/// The box of the own shape at index `i` at all of its shifts, or None if a corner would be outside
/// 64 bits.
fn bounds_of_shape(shapes: &Shapes, i: usize) -> Option<Bounds>
    ensures { IfSome result (λ bounds. HoldsOwn bounds (shape_at shapes.now i)) }
{
    if i >= shapes.len() {
        return None;
    }
    hold_shape(Bounds::NOWHERE, shapes, i)
}

/// A box that has all that the reference at index `j` of the top places, or None if one isn't known.
fn bounds_of_reference(checked: &Checked, boxes: &Boxes, j: usize) -> Option<Bounds>
    requires { AreBoxes checked.now.cells boxes.now }
    ensures { IfSome result (HasParts checked.now Part.Reference j) }
{
    let top = checked.top();
    let target = checked.target(top, j)?;
    let reference = checked.cell(top).references.get(j)?;
    let placed = placed_by(boxes.get(target)?, &reference)?;
    placed.moved(bounds_of_places(&reference))
}

/// A box that has all squares that the own shape or the reference at this index of the top covers,
/// or None if one isn't known.
fn bounds_of(checked: &Checked, boxes: &Boxes, part: Part, index: usize) -> Option<Bounds>
    requires { AreBoxes checked.now.cells boxes.now }
    ensures { IfSome result (HasParts checked.now part index) }
{
    match part {
        Part::Shape => bounds_of_shape(&checked.cell(checked.top()).shapes, index),
        Part::Reference => bounds_of_reference(checked, boxes, index),
    }
}

/// Whether the own shape or the reference at this index of the top may cover a square of the window.
/// If so, its points are counted.
fn may_cover(
    checked: &Checked,
    boxes: &Boxes,
    measures: &Measures,
    part: Part,
    index: usize,
    window: &Window,
    count: &mut Count,
) -> bool
    requires { AreBoxes checked.now.cells boxes.now }
    ensures { result ≡ false → MissesPart checked.now window.now part index }
{
    let Some(bounds) = bounds_of(checked, boxes, part, index) else {
        count.add_unknown();
        return true;
    };
    if bounds.misses(window) {
        return false;
    }
    count.add(measures.of(checked, part, index), bounds);
    true
}

/// About how many shapes, and how many references, an estimate by a sample looks at.
const SAMPLED: usize = 4096;

/// Counts the points of every so many of the indexed shapes or references, as often, so that the sum is
/// about that of all. Of short lists, all are counted.
pub(crate) fn sampled(
    checked: &Checked,
    boxes: &Boxes,
    measures: &Measures,
    part: Part,
    list: &Indexes,
    window: &Window,
    count: &mut Count,
)
    requires { AreBoxes checked.now.cells boxes.now }
{
    let step = list.len() / SAMPLED + 1;
    let mut some = Count::new(window);
    for n in 0..SAMPLED {
        let place = n.saturating_mul(step);
        if place < list.len() {
            let index = list.at(place);
            may_cover(checked, boxes, measures, part, index, window, &mut some);
        }
    }
    count.add_times(some.estimate(), step as u64);
}

/// The index, in 32 bits. More parts than that don't fit in memory.
fn in_word(index: usize) -> Result<u32, AllocError>
    ensures { IfOk result (λ word. word ≡ index) }
{
    u32::try_from(index).map_err(|_| AllocError)
}

/// Those of the indexes whose shapes or references may cover a square of the window. Their points
/// are counted.
pub(crate) fn narrowed(
    alloc: Global,
    checked: &Checked,
    boxes: &Boxes,
    measures: &Measures,
    part: Part,
    list: &Indexes,
    window: &Window,
    count: &mut Count,
) -> Result<Indexes, AllocError>
    requires boxes { AreBoxes checked.now.cells boxes.now }
    requires all { HasAll checked.now window.now part list.now }
    ensures { IfOk result (HasAll checked.now window.now part) }
{
    let mut kept = Vec::new(alloc);
    for place in 0..list.len() {
        let index = list.at(place);
        if may_cover(checked, boxes, measures, part, index, window, count) {
            kept.push(in_word(index)?)?;
        }
    }
    Ok(Indexes::of(kept))
}
