//! How the shapes of a cell are stored: the rings of all shapes are in one list, and each shape has
//! a range of its indexes.
ghost use Rattle.std.specs.Prelude.{◌≡◌, ◌<◌, ◌+◌, ◌^◌, ◌++◌, ◌∷◌, [], length, get_or, IfOk};
ghost use Rattle.std.specs.Prelude.{OnOk, OnErr, IfSome, IfNone};
ghost use Rattle.lvl_grid.specs.Winding.{IsRing};
ghost use Rattle.lvl_names.specs.Shifts.{one_place};
ghost use Rattle.lvl_cells.specs.Cells.{shape_at};
ghost use Rattle.lvl_cells.specs.inside.Spans.{IsPrefixOf, HasNumber};

use crate::forms::Forms;
use crate::lists::push_lean;
use crate::moved::MovedRing;
use crate::outlines::Outlines;
use crate::shared::{figure_of_ring, figure_of_rings, move_of, number_of_move};
use lvl_grid::{Point, Ring};
use lvl_names::{Layer, Offsets};
use std::alloc::{AllocError, Global};
use std::marker::Model;

/// A shape: its Layer, the indexes of its rings (from `begin` up to `end`, which is excluded), and
/// the numbers of its displacement and of its list of shifts. The number 0 means no displacement,
/// or the zero shift alone; any other is one more than an index of [`ShapeLists`].
#[derive(Clone, Copy)]
pub(crate) struct Span {
    pub layer: Layer,
    pub begin: u32,
    pub end: u32,
    pub moved: u32,
    pub shifts: u32,
}

/// Shapes in file order. A shape has no allocation of its own. A shape shares the points of the
/// shape before it if it draws them, moved. A shape of one ring shares those of any earlier ring
/// that the table of forms finds, too. Consecutive shapes with the same lattice share one list of
/// shifts. A shared list is never copied.
#[derive(Drop)]
pub(crate) struct ShapeLists {
    rings: Outlines,
    forms: Forms,
    spans: Vec<Span>,
    moves: Vec<Point>,
    shifts: Vec<Offsets>,
}

impl Model for ShapeLists {
    ghost use Rattle.std.specs.Prelude.{List, map, All};
    ghost use Rattle.lvl_cells.specs.Cells.{PlainShape, Rings as Figure};
    ghost use Rattle.lvl_cells.specs.inside.Spans.{shape_in, IsSpan};

    ghost Value = { List (PlainShape Figure) };

    ghost view = { λ s. map (shape_in s.rings s.moves.items s.shifts.items) s.spans.items };

    ghost invariant = { λ s. All (IsSpan s.rings s.moves.items s.shifts.items) s.spans.items };
}

/// A count as a span stores it. 2^32 or more is reported as out of memory (own rule).
pub(crate) fn kept_count(count: usize) -> Result<u32, AllocError>
    ensures { IfOk result (λ kept. (kept ≡ count) × (kept < 2 ^ 32)) }
{
    u32::try_from(count).map_err(|_| AllocError)
}

/// The sum of two counts, as a span stores it.
pub(crate) fn kept_sum(count: usize, more: usize) -> Result<u32, AllocError>
    ensures { IfOk result (λ kept. (kept ≡ count + more) × (kept < 2 ^ 32)) }
{
    match count.checked_add(more) {
        Some(sum) => kept_count(sum),
        None => Err(AllocError),
    }
}

/// The number of a list of shifts. Keeps the list, unless it is the zero shift alone or the same
/// lattice as the last that was kept.
pub(crate) fn number_of_owned(kept: &mut Vec<Offsets>, shifts: Offsets) -> Result<u32, AllocError>
    ensures number { IfOk result (λ number. HasNumber kept.new.items number shifts) }
    ensures before { IsPrefixOf kept.old.items kept.new.items }
{
    if shifts.is_single() {
        return Ok(0);
    }
    if let Some(last) = kept.last() {
        if last.is_same_lattice(&shifts) {
            return kept_count(kept.len());
        }
    }
    push_lean(kept, shifts)?;
    kept_count(kept.len())
}

/// The number of a list of shifts, as [`number_of_owned`] finds it for a copy. Nothing is copied for the zero
/// shift alone.
pub(crate) fn number_of(kept: &mut Vec<Offsets>, shifts: &Offsets) -> Result<u32, AllocError>
    ensures number { IfOk result (λ number. HasNumber kept.new.items number shifts.now) }
    ensures before { IsPrefixOf kept.old.items kept.new.items }
{
    if shifts.is_single() {
        return Ok(0);
    }
    number_of_owned(kept, shifts.clone()?)
}

impl ShapeLists {
    /// An empty list. Allocates nothing.
    pub(crate) fn new(alloc: Global) -> ShapeLists
        ensures { result ≡ [] }
    {
        ShapeLists {
            rings: Outlines::new(alloc),
            forms: Forms::new(alloc),
            spans: Vec::new(alloc),
            moves: Vec::new(alloc),
            shifts: Vec::new(alloc),
        }
    }

    /// The number of shapes.
    pub(crate) fn len(&self) -> usize
        ensures { result ≡ length self.now }
    {
        self.spans.len()
    }

    /// The Layer of the shape at this index.
    pub(crate) fn layer(&self, i: usize) -> Layer
        requires { i < length self.now }
        ensures { result ≡ (shape_at self.now i).layer }
    {
        self.spans[i].layer
    }

    /// The number of rings of the shape at this index.
    pub(crate) fn ring_count(&self, i: usize) -> usize
        requires { i < length self.now }
        ensures { result ≡ length (shape_at self.now i).figure }
    {
        let span = &self.spans[i];
        (span.end - span.begin) as usize
    }

    /// Ring `j` of shape `i`.
    pub(crate) fn ring(&self, i: usize, j: usize) -> MovedRing<'_>
        requires shape { i < length self.now }
        requires ring { j < length (shape_at self.now i).figure }
        ensures value { result ≡ get_or (shape_at self.now i).figure j [] }
        ensures ring { IsRing result }
    {
        let span = &self.spans[i];
        let outline = self.rings.outline(span.begin as usize + j);
        MovedRing::new(outline, move_of(&self.moves, span.moved))
    }

    /// The shifts of the shape at this index, or None for the zero shift alone.
    pub(crate) fn shifts(&self, i: usize) -> Option<&Offsets>
        requires { i < length self.now }
        ensures some { IfSome result (λ shifts. shifts.now ≡ (shape_at self.now i).shifts) }
        ensures none { IfNone result ((shape_at self.now i).shifts ≡ one_place) }
    {
        match self.spans[i].shifts {
            0 => None,
            number => Some(&self.shifts[number as usize - 1]),
        }
    }

    /// Adds a shape of one ring. If there is no memory for it, nothing changes.
    pub(crate) fn push_ring(
        &mut self,
        layer: Layer,
        ring: &[Point],
        shifts: &Offsets,
    ) -> Result<(), AllocError>
        requires { IsRing ring.now }
        ensures added { OnOk result (self.new ≡ self.old
            ++ record { layer = layer; figure = ring.now ∷ []; shifts = shifts.now } ∷ []) }
        ensures kept { OnErr result (self.new ≡ self.old) }
    {
        let last = self.spans.last();
        let figure = figure_of_ring(&mut self.rings, &mut self.forms, last, ring)?;
        let moved = number_of_move(&mut self.moves, figure.by)?;
        let number = number_of(&mut self.shifts, shifts)?;
        let span = Span {
            layer,
            begin: figure.begin,
            end: figure.end,
            moved,
            shifts: number,
        };
        push_lean(&mut self.spans, span)?;
        Ok(())
    }

    /// Adds a shape of these rings. If there is no memory for it, nothing changes.
    pub(crate) fn push_rings(
        &mut self,
        layer: Layer,
        rings: &[Ring],
        shifts: &Offsets,
    ) -> Result<(), AllocError>
        ensures added { OnOk result (self.new ≡ self.old
            ++ record { layer = layer; figure = rings.now; shifts = shifts.now } ∷ []) }
        ensures kept { OnErr result (self.new ≡ self.old) }
    {
        let last = self.spans.last();
        let figure = figure_of_rings(&mut self.rings, last, rings)?;
        let moved = number_of_move(&mut self.moves, figure.by)?;
        let number = number_of(&mut self.shifts, shifts)?;
        let span = Span {
            layer,
            begin: figure.begin,
            end: figure.end,
            moved,
            shifts: number,
        };
        push_lean(&mut self.spans, span)?;
        Ok(())
    }
}
