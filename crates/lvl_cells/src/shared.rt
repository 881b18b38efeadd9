//! Shared figures: rings that are kept already, moved, aren't kept again.
ghost use Rattle.std.specs.Prelude.{◌≡◌, ◌<◌, ◌+◌, ◌∷◌, [], length, All, IsTrue, IfOk, IfSome};
ghost use Rattle.lvl_grid.specs.Turn.{FitsPoint, shifted};
ghost use Rattle.lvl_grid.specs.Winding.{IsRing};
ghost use Rattle.lvl_cells.specs.inside.Outlines.{rectangle_at};
ghost use Rattle.lvl_cells.specs.inside.Spans.{displaced, IsPrefixOf, HasMove, IsAgain, IsFigure, IsStretch};

use crate::form::{Form, Rectangle};
use crate::forms::{Forms, hash_of_form};
use crate::lists::push_lean;
use crate::moved::{ORIGIN, moved};
use crate::outlines::Outlines;
use crate::shape_lists::{Span, kept_count, kept_sum};
use lvl_grid::{Point, Ring};
use std::alloc::AllocError;

/// A figure: the kept rings with an index from `begin` up to `end`, which is excluded, moved by
/// `by`.
#[derive(Clone, Copy)]
pub(crate) struct KeptFigure {
    pub begin: u32,
    pub end: u32,
    pub by: Point,
}

/// The displacement from the first point to the second, or None if it is outside 64 bits.
pub(crate) fn distance(from: Point, to: Point) -> Option<Point>
    ensures { IfSome result (λ by. shifted from by ≡ to) }
{
    let x = to.x.checked_sub(from.x)?;
    let y = to.y.checked_sub(from.y)?;
    Some(Point { x, y })
}

/// Whether a ring is the kept one, moved by `by`. Within its callers the loop would lack registers.
#[inline(never)]
pub(crate) fn is_again(kept: &[Point], by: Point, ring: &[Point]) -> bool
    ensures { IsTrue result → IsAgain kept.now by ring.now }
{
    if kept.len() != ring.len() {
        return false;
    }
    for (k, point) in kept.iter().enumerate() {
        let Some(point) = moved(*point, by) else {
            return false;
        };
        if point != ring[k] {
            return false;
        }
    }
    true
}

/// The displacement from the kept ring to this one, or None if this one isn't the kept one, moved.
pub(crate) fn displacement(kept: &[Point], ring: &[Point]) -> Option<Point>
    ensures { IfSome result (λ by. IsAgain kept.now by ring.now) }
{
    let by = distance(*kept.first()?, *ring.first()?)?;
    if !is_again(kept, by, ring) {
        return None;
    }
    Some(by)
}

/// The figure of one ring, if it is the last of the kept rings with an index below `end`, moved.
#[inline(always)]
fn ring_again(rings: &Outlines, end: u32, form: &Form<'_>) -> Option<KeptFigure>
    ensures { IfSome result (λ f. IsFigure rings.now f (form.now.ring.now ∷ [])) }
{
    let begin = end.checked_sub(1)?;
    if end as usize > rings.len() {
        return None;
    }
    let by = rings.outline(begin as usize).displacement(form)?;
    Some(KeptFigure { begin, end, by })
}

/// The figure of one ring, if it is one of two kept ones, moved.
fn ring_found(rings: &Outlines, ends: (u32, u32), form: &Form<'_>) -> Option<KeptFigure>
    ensures { IfSome result (λ f. IsFigure rings.now f (form.now.ring.now ∷ [])) }
{
    match ring_again(rings, ends.0, form) {
        Some(figure) => Some(figure),
        None => ring_again(rings, ends.1, form),
    }
}

/// The figure of several rings, if they are those of the last shape, all moved by the same
/// displacement.
fn rings_again(rings: &Outlines, last: &Span, figure: &[Ring]) -> Option<KeptFigure>
    requires { IsStretch rings.now last.now }
    ensures { IfSome result (λ f. IsFigure rings.now f figure.now) }
{
    let begin = last.begin as usize;
    if last.end as usize - begin != figure.len() {
        return None;
    }
    let first = figure.first()?;
    let by = rings.outline(begin).displacement_to(first.points())?;
    for (j, ring) in figure.iter().enumerate() {
        if !rings.outline(begin + j).is_again(by, ring.points()) {
            return None;
        }
    }
    Some(KeptFigure {
        begin: last.begin,
        end: last.end,
        by,
    })
}

/// The figure of one ring. Keeps the ring, unless it is the last ring of the last shape or one that
/// is found in the table, moved.
pub(crate) fn figure_of_ring(
    rings: &mut Outlines,
    forms: &mut Forms,
    last: Option<&Span>,
    ring: &[Point],
) -> Result<KeptFigure, AllocError>
    requires { IsRing ring.now }
    ensures figure { IfOk result (λ f. IsFigure rings.new f (ring.now ∷ [])) }
    ensures before { IsPrefixOf rings.old rings.new }
{
    let form = Form::of(ring);
    if let Some(last) = last {
        if let Some(figure) = ring_again(rings, last.end, &form) {
            return Ok(figure);
        }
    }
    let hash = hash_of_form(&form);
    if let Some(figure) = ring_found(rings, forms.candidates(hash), &form) {
        return Ok(figure);
    }
    let figure = keep_form(rings, &form)?;
    forms.keep(hash, figure.end)?;
    Ok(figure)
}

/// The figure of several rings. Keeps the rings, unless they are those of the last shape, moved.
pub(crate) fn figure_of_rings(
    rings: &mut Outlines,
    last: Option<&Span>,
    figure: &[Ring],
) -> Result<KeptFigure, AllocError>
    requires { IfSome last (λ s. IsStretch rings.old s.now) }
    ensures figure { IfOk result (λ f. IsFigure rings.new f figure.now) }
    ensures before { IsPrefixOf rings.old rings.new }
{
    if let Some(last) = last {
        if let Some(again) = rings_again(rings, last, figure) {
            return Ok(again);
        }
    }
    keep_rings(rings, figure)
}

/// Keeps a rectangle, and returns its figure.
fn keep_rectangle(rings: &mut Outlines, kept: &Rectangle) -> Result<KeptFigure, AllocError>
    requires { All FitsPoint (rectangle_at kept.now) }
    ensures figure { IfOk result (λ f. IsFigure rings.new f (rectangle_at kept.now ∷ [])) }
    ensures before { IsPrefixOf rings.old rings.new }
{
    let begin = kept_count(rings.len())?;
    let end = kept_sum(rings.len(), 1)?;
    rings.push_rectangle(kept.diagonal, kept.along_y)?;
    Ok(KeptFigure {
        begin,
        end,
        by: kept.from,
    })
}

/// Keeps a ring, and returns its figure.
fn keep_form(rings: &mut Outlines, form: &Form<'_>) -> Result<KeptFigure, AllocError>
    requires { IsRing form.now.ring.now }
    ensures figure { IfOk result (λ f. IsFigure rings.new f (form.now.ring.now ∷ [])) }
    ensures before { IsPrefixOf rings.old rings.new }
{
    match &form.rectangle {
        Some(rectangle) => keep_rectangle(rings, rectangle),
        None => keep_ring(rings, form.ring),
    }
}

/// Keeps a ring by its points, and returns its figure.
fn keep_ring(rings: &mut Outlines, ring: &[Point]) -> Result<KeptFigure, AllocError>
    requires { IsRing ring.now }
    ensures figure { IfOk result (λ f. IsFigure rings.new f (ring.now ∷ [])) }
    ensures before { IsPrefixOf rings.old rings.new }
{
    let begin = kept_count(rings.len())?;
    let end = kept_sum(rings.len(), 1)?;
    rings.push_ring(ring)?;
    Ok(KeptFigure {
        begin,
        end,
        by: ORIGIN,
    })
}

/// Keeps several rings, and returns their figure.
fn keep_rings(rings: &mut Outlines, figure: &[Ring]) -> Result<KeptFigure, AllocError>
    ensures figure { IfOk result (λ f. IsFigure rings.new f figure.now) }
    ensures before { IsPrefixOf rings.old rings.new }
{
    let begin = kept_count(rings.len())?;
    let end = kept_sum(rings.len(), figure.len())?;
    rings.push_all(figure)?;
    Ok(KeptFigure {
        begin,
        end,
        by: ORIGIN,
    })
}

/// The displacement with a number.
pub(crate) fn move_of(moves: &[Point], number: u32) -> Point
    requires { number < length moves.now + 1 }
    ensures { result ≡ displaced moves.now number }
{
    match number {
        0 => ORIGIN,
        number => moves[number as usize - 1],
    }
}

/// The number of a displacement. Keeps the displacement, unless it is zero or the last that was
/// kept.
pub(crate) fn number_of_move(moves: &mut Vec<Point>, by: Point) -> Result<u32, AllocError>
    ensures number { IfOk result (λ number. HasMove moves.new.items number by) }
    ensures before { IsPrefixOf moves.old.items moves.new.items }
{
    if by == ORIGIN {
        return Ok(0);
    }
    if moves.last() == Some(&by) {
        return kept_count(moves.len());
    }
    push_lean(moves, by)?;
    kept_count(moves.len())
}
