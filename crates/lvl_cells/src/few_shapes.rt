//! How the shapes of a cell are stored if they are few, and each has one ring.
ghost use Rattle.std.specs.Prelude.{◌≡◌, ◌<◌, ◌≤◌, ◌-◌, ◌+◌, ◌++◌, ◌∷◌, [], length, take, drop, IfOk, IfSome};
ghost use Rattle.std.specs.Prelude.{All, OnOk, OnErr, IfNone};
ghost use Rattle.lvl_grid.specs.Turn.{FitsPoint};
ghost use Rattle.lvl_grid.specs.Winding.{IsRing};
ghost use Rattle.lvl_names.specs.Shifts.{one_place};
ghost use Rattle.lvl_cells.specs.Cells.{shape_at};
ghost use Rattle.lvl_cells.specs.inside.Few.{IsKeptRing};
ghost use Rattle.lvl_cells.specs.inside.Outlines.{outline, rectangle_at, stretch_in};
ghost use Rattle.lvl_cells.specs.inside.Spans.{IsPrefixOf};

use crate::form::{Form, Rectangle};
use crate::lists::push_item;
use crate::moved::{MovedRing, ORIGIN};
use crate::outline::Outline;
use crate::shape_lists::{ShapeLists, number_of};
use lvl_grid::Point;
use lvl_names::{Layer, Offsets};
use std::alloc::{AllocError, Global};
use std::marker::Model;

/// More shapes are stored as [`ShapeLists`].
const MOST_SHAPES: usize = 64;

/// So are shapes of more points. These have indexes of 16 bits.
const MOST_POINTS: usize = 4_096;

/// A shape of one ring: its Layer, the indexes of its points (from `begin` up to `end`, which is
/// excluded), whether the first edge of a rectangle is along y, the displacement of the ring, and the number
/// of its list of shifts, which is 0 for the zero shift alone, or else one more than an index.
#[derive(Clone, Copy)]
pub(crate) struct FewSpan {
    pub layer: Layer,
    pub by: Point,
    pub begin: u16,
    pub end: u16,
    pub shifts: u16,
    pub along_y: bool,
}

/// A ring: the outline of the kept points with an index from `begin` up to `end`, which is excluded, moved
/// by `by`.
#[derive(Clone, Copy)]
pub(crate) struct KeptRing {
    pub begin: u16,
    pub end: u16,
    pub along_y: bool,
    pub by: Point,
}

/// Shapes in file order, in few and small allocations. A shape shares the points of the shape before
/// it if it draws them, moved.
#[derive(Drop)]
pub(crate) struct FewShapes {
    points: Vec<Point>,
    spans: Vec<FewSpan>,
    shifts: Vec<Offsets>,
}

impl Model for FewShapes {
    ghost use Rattle.std.specs.Prelude.{List, map, All};
    ghost use Rattle.lvl_cells.specs.Cells.{PlainShape, Rings as Figure};
    ghost use Rattle.lvl_cells.specs.inside.Few.{few_shape_in, IsFewSpan};

    ghost Value = { List (PlainShape Figure) };

    ghost view = { λ s. map (few_shape_in s.points.items s.shifts.items) s.spans.items };

    ghost invariant = { λ s. All (IsFewSpan s.points.items s.shifts.items) s.spans.items };
}

/// Whether this number of points is at most [`MOST_POINTS`].
pub(crate) fn are_few(points: usize) -> bool {
    points <= MOST_POINTS
}

/// Takes room for this number of items more, or for an eighth of those that the list has, if it is full.
fn reserve_eighth<T>(list: &mut Vec<T>, more: usize) -> Result<(), AllocError>
    ensures { list.new.items ≡ list.old.items }
{
    if list.capacity() - list.len() < more {
        list.reserve_exact(more.max(list.len() / 8))?;
    }
    Ok(())
}

/// Appends an item. If there is no memory for it, the item is dropped, and the list stays as it was.
fn push_eighth<T: Drop>(list: &mut Vec<T>, item: T) -> Result<(), AllocError>
    ensures added { OnOk result (list.new.items ≡ list.old.items ++ item ∷ []) }
    ensures kept { OnErr result (list.new.items ≡ list.old.items) }
{
    reserve_eighth(list, 1)?;
    push_item(list, item)
}

/// An index of a point, or the number of a list. 2^16 or more is reported as out of memory (own rule), and
/// isn't reached by less than [`MOST_POINTS`] and [`MOST_SHAPES`].
fn kept_index(index: usize) -> Result<u16, AllocError>
    ensures { IfOk result (λ kept. kept ≡ index) }
{
    u16::try_from(index).map_err(|_| AllocError)
}

/// The index after more points.
fn point_end(begin: u16, more: usize) -> Result<u16, AllocError>
    ensures { IfOk result (λ end. end ≡ begin + more) }
{
    match (begin as usize).checked_add(more) {
        Some(end) => kept_index(end),
        None => Err(AllocError),
    }
}

/// The points with an index from `begin` up to `end`, which is excluded.
fn stretch(points: &[Point], begin: u16, end: u16) -> &[Point]
    requires rising { begin ≤ end }
    requires inside { end ≤ length points.now }
    ensures { result.now ≡ take (end - begin) (drop begin points.now) }
{
    &points[begin as usize..end as usize]
}

/// The ring, if it is the one of the last shape, moved.
fn ring_again(points: &[Point], last: &FewSpan, form: &Form<'_>) -> Option<KeptRing>
    requires rising { last.now.begin ≤ last.now.end }
    requires inside { last.now.end ≤ length points.now }
    requires ring { IsRing (outline (stretch_in points.now last.now.begin last.now.end) last.now.along_y) }
    ensures { IfSome result (λ kept. IsKeptRing points.now kept form.now.ring.now) }
{
    let outline = Outline {
        points: stretch(points, last.begin, last.end),
        along_y: last.along_y,
        reach: None,
        corners: &[],
    };
    Some(KeptRing {
        begin: last.begin,
        end: last.end,
        along_y: last.along_y,
        by: outline.displacement(form)?,
    })
}

/// Keeps a ring by its points.
fn keep_points(points: &mut Vec<Point>, ring: &[Point]) -> Result<KeptRing, AllocError>
    requires { IsRing ring.now }
    ensures kept { IfOk result (λ kept. IsKeptRing points.new.items kept ring.now) }
    ensures before { IsPrefixOf points.old.items points.new.items }
{
    let begin = kept_index(points.len())?;
    let end = point_end(begin, ring.len())?;
    reserve_eighth(points, ring.len())?;
    points.extend_from_slice(ring)?;
    Ok(KeptRing {
        begin,
        end,
        along_y: false,
        by: ORIGIN,
    })
}

/// Keeps a rectangle.
fn keep_rectangle(points: &mut Vec<Point>, kept: &Rectangle) -> Result<KeptRing, AllocError>
    requires { All FitsPoint (rectangle_at kept.now) }
    ensures kept { IfOk result (λ k. IsKeptRing points.new.items k (rectangle_at kept.now)) }
    ensures before { IsPrefixOf points.old.items points.new.items }
{
    let begin = kept_index(points.len())?;
    let end = point_end(begin, 1)?;
    push_eighth(points, kept.diagonal)?;
    Ok(KeptRing {
        begin,
        end,
        along_y: kept.along_y,
        by: kept.from,
    })
}

/// Keeps a ring.
fn keep_form(points: &mut Vec<Point>, form: &Form<'_>) -> Result<KeptRing, AllocError>
    requires { IsRing form.now.ring.now }
    ensures kept { IfOk result (λ kept. IsKeptRing points.new.items kept form.now.ring.now) }
    ensures before { IsPrefixOf points.old.items points.new.items }
{
    match &form.rectangle {
        Some(rectangle) => keep_rectangle(points, rectangle),
        None => keep_points(points, form.ring),
    }
}

/// The ring of the next shape. Keeps its points, unless they are those of the last shape, moved.
fn ring_of(
    points: &mut Vec<Point>,
    last: Option<&FewSpan>,
    ring: &[Point],
) -> Result<KeptRing, AllocError>
    requires last { IfSome last (λ s. (s.now.begin ≤ s.now.end) × (s.now.end ≤ length points.old.items)
        × IsRing (outline (stretch_in points.old.items s.now.begin s.now.end) s.now.along_y)) }
    requires ring { IsRing ring.now }
    ensures kept { IfOk result (λ kept. IsKeptRing points.new.items kept ring.now) }
    ensures before { IsPrefixOf points.old.items points.new.items }
{
    let form = Form::of(ring);
    if let Some(last) = last {
        if let Some(kept) = ring_again(points, last, &form) {
            return Ok(kept);
        }
    }
    keep_form(points, &form)
}

impl FewShapes {
    /// An empty list. Allocates nothing.
    pub(crate) fn new(alloc: Global) -> FewShapes
        ensures { result ≡ [] }
    {
        FewShapes {
            points: Vec::new(alloc),
            spans: Vec::new(alloc),
            shifts: Vec::new(alloc),
        }
    }

    /// Whether there is room for a shape of this number of points.
    pub(crate) fn has_room(&self, points: usize) -> bool {
        self.spans.len() < MOST_SHAPES && are_few(self.points.len().saturating_add(points))
    }

    /// The number of shapes.
    pub(crate) fn len(&self) -> usize
        ensures { result ≡ length self.now }
    {
        self.spans.len()
    }

    /// The number of rings of the shape at this index, which is 1.
    pub(crate) fn ring_count(&self, i: usize) -> usize
        requires { i < length self.now }
        ensures { result ≡ length (shape_at self.now i).figure }
    {
        let _span = &self.spans[i];
        1
    }

    /// The Layer of the shape at this index.
    pub(crate) fn layer(&self, i: usize) -> Layer
        requires { i < length self.now }
        ensures { result ≡ (shape_at self.now i).layer }
    {
        self.spans[i].layer
    }

    /// The ring of the shape at this index.
    pub(crate) fn ring(&self, i: usize) -> MovedRing<'_>
        requires { i < length self.now }
        ensures value { result ∷ [] ≡ (shape_at self.now i).figure }
        ensures ring { IsRing result }
    {
        let span = &self.spans[i];
        let outline = Outline {
            points: stretch(&self.points, span.begin, span.end),
            along_y: span.along_y,
            reach: None,
            corners: &[],
        };
        MovedRing::new(outline, span.by)
    }

    /// The shifts of the shape at this index, or None for the zero shift alone.
    pub(crate) fn shifts(&self, i: usize) -> Option<&Offsets>
        requires { i < length self.now }
        ensures some { IfSome result (λ shifts. shifts.now ≡ (shape_at self.now i).shifts) }
        ensures none { IfNone result ((shape_at self.now i).shifts ≡ one_place) }
    {
        match self.spans[i].shifts {
            0 => None,
            number => Some(&self.shifts[number as usize - 1]),
        }
    }

    /// Adds a shape. If there is no memory for it, nothing changes.
    pub(crate) fn push_ring(
        &mut self,
        layer: Layer,
        ring: &[Point],
        shifts: &Offsets,
    ) -> Result<(), AllocError>
        requires { IsRing ring.now }
        ensures added { OnOk result (self.new ≡ self.old
            ++ record { layer = layer; figure = ring.now ∷ []; shifts = shifts.now } ∷ []) }
        ensures kept { OnErr result (self.new ≡ self.old) }
    {
        let kept = ring_of(&mut self.points, self.spans.last(), ring)?;
        let number = number_of(&mut self.shifts, shifts)?;
        let span = FewSpan {
            layer,
            by: kept.by,
            begin: kept.begin,
            end: kept.end,
            shifts: kept_index(number as usize)?,
            along_y: kept.along_y,
        };
        push_eighth(&mut self.spans, span)?;
        Ok(())
    }

    /// Adds the shape at this index to lists.
    fn push_to(&self, alloc: Global, i: usize, lists: &mut ShapeLists) -> Result<(), AllocError>
        requires { i < length self.now }
        ensures { OnOk result (lists.new ≡ lists.old ++ shape_at self.now i ∷ []) }
    {
        let ring = self.ring(i).to_points(alloc)?;
        match self.shifts(i) {
            Some(shifts) => lists.push_ring(self.layer(i), &ring, shifts),
            None => lists.push_ring(self.layer(i), &ring, &Offsets::single()),
        }
    }

    /// Lists with these shapes.
    pub(crate) fn lists(&self, alloc: Global) -> Result<ShapeLists, AllocError>
        ensures { IfOk result (λ lists. lists ≡ self.now) }
    {
        let mut lists = ShapeLists::new(alloc);
        for i in 0..self.len() {
            self.push_to(alloc, i, &mut lists)?;
        }
        Ok(lists)
    }
}
