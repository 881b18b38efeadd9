//! Comparison of two flat layouts without the shapes that both have.
//!
//! A layout is edited in few places, or one Layer of it is written in other words: then most shapes are in both files.
//! Where what is left of both draws the same, so do both. A square that only one of both draws is one that only
//! what is left of it draws, so the first difference of what is left is that of both, unless a shape that both have
//! covers its square.
ghost use Rattle.std.specs.Prelude.{◌≡◌, ◌↔◌, [], slice_get, Some, IfOk, IfSome};
ghost use Rattle.lvl_grid.specs.declared.point.Square.{Square as GridSquare};
ghost use Rattle.lvl_names.specs.declared.layer.Layer.{Layer as PlainLayer};
ghost use Rattle.lvl_columns.specs.Windows.{IsShown};
ghost use Rattle.lvl_flat.specs.Flattened.{TopCovers};
ghost use Rattle.lvl_region.specs.Region.{IsAlone};
ghost use Rattle.lvl_view.specs.Moved.{IsMoved};
ghost use Rattle.lvl_compare.specs.Pairs.{ours, theirs};
ghost use Rattle.lvl_changed.specs.inside.Shapes.{ShapesCover};
ghost use Rattle.lvl_changed.specs.Changed.{DrawSameBut, IsChange};
ghost use Rattle.lvl_changed.specs.inside.Rests.{AreSameWhere, IsKnown};

use crate::area::Area;
use crate::changes::{Changes, difference_among};
use crate::figures::Seen;
use crate::left::{alone, cell_of};
use crate::shapes::hold_extents;
use crate::twins::{Twins, count_alone, have_many, twins_of};
use crate::windows::MOST_WINDOWS;
use lvl_cells::{Cell, Library, Shapes, check_or_return};
use lvl_compare::{Pair, difference_by_strips, difference_in_windows};
use lvl_flat::Fitted;
use lvl_grid::{Square, Window};
use lvl_names::Layer;
use lvl_profile::Limits;
use lvl_refusal::Cause;
use lvl_region::Side;
use lvl_view::View;
use std::alloc::{AllocError, Global};
use std::slice;

/// The least number of points that the shapes of both layouts have at one place each for which it pays to leave some
/// shapes out.
const FEWEST: usize = 262_144;

/// What is known of two layouts by what is left of them.
#[derive(Clone, Copy)]
pub(crate) enum Known {
    /// Nothing.
    Nothing,
    /// Both draw the same.
    Same,
    /// The first square that only one of them draws.
    Differ(Layer, Square, Side),
}

/// The top of a library.
fn top_of(library: &Fitted) -> &Cell
    ensures { slice_get library.now.cells library.now.top ≡ Some result.now }
{
    let checked = library.checked();
    checked.cell(checked.top())
}

/// A layout that draws these shapes. None if it isn't accepted.
fn layout_of(alloc: Global, shapes: Shapes) -> Result<Option<Fitted>, AllocError>
    ensures { IfOk result (λ found. IfSome found (λ fitted. (layer : PlainLayer) (s : GridSquare)
        → TopCovers fitted layer s ↔ ShapesCover shapes layer s)) }
{
    let mut cells = Vec::with_capacity(alloc, 1)?;
    cells.push_reserved(cell_of(alloc, shapes));
    let library = Library { cells };
    let checked = match check_or_return(alloc, library, None, Limits::LARGE) {
        Ok(checked) => checked,
        Err(Cause::Breach(_)) => return Ok(None),
        Err(Cause::OutOfMemory) => return Err(AllocError),
    };
    match Fitted::new(alloc, checked) {
        Ok(fitted) => Ok(Some(fitted)),
        Err(Cause::Breach(_)) => Ok(None),
        Err(Cause::OutOfMemory) => Err(AllocError),
    }
}

/// About the number of points that the shapes have at one place each, or some number of at least [`FEWEST`].
fn points_of(shapes: &Shapes) -> usize {
    let mut points: usize = 0;
    for i in 0..shapes.len() {
        if points >= FEWEST {
            break;
        }
        let count = shapes.ring_count(i);
        if count > 0 {
            points = points.saturating_add(shapes.ring(i, 0).len().saturating_mul(count));
        }
    }
    points
}

/// Which shapes of two tops may be the same, or None if they have few in common or few points at all.
fn much_in_common(
    alloc: Global,
    ours: Seen<'_>,
    theirs: Seen<'_>,
) -> Result<Option<Twins>, AllocError> {
    let points = points_of(ours.shapes).saturating_add(points_of(theirs.shapes));
    if points < FEWEST || !have_many(alloc, ours, theirs)? {
        return Ok(None);
    }
    let twins = twins_of(alloc, ours, theirs)?;
    let all = ours.shapes.len().saturating_add(theirs.shapes.len());
    if count_alone(&twins) > all / 8 * 3 {
        return Ok(None);
    }
    Ok(Some(twins))
}

/// What is left of two layouts whose tops have no references, without the shapes that both have. None if there are few
/// of these, if only a window is compared, so that most shapes needn't be looked at again, or if what is left isn't
/// accepted as a layout.
fn rests_of(alloc: Global, pair: &Pair<'_>) -> Result<Option<(Fitted, Fitted)>, AllocError>
    ensures same { IfOk result (λ found. IfSome found (λ rests. AreSameWhere (ours pair.now) (theirs pair.now)
        (TopCovers rests.0) (TopCovers rests.1))) }
    ensures window { IfOk result (λ found. IfSome found (λ _. pair.now.view.now.window ≡ None)) }
{
    let (first, second) = (top_of(pair.first), top_of(pair.second));
    if !first.references.is_empty() || !second.references.is_empty() {
        return Ok(None);
    }
    if pair.view.window().is_some() {
        return Ok(None);
    }
    let whole = View::whole(alloc);
    let ours = Seen {
        shapes: &first.shapes,
        view: &whole,
    };
    let theirs = Seen {
        shapes: &second.shapes,
        view: pair.view,
    };
    let Some(twins) = much_in_common(alloc, ours, theirs)? else {
        return Ok(None);
    };
    let left = alone(alloc, ours, theirs, &twins.ours)?;
    let their_left = alone(alloc, theirs, ours, &twins.theirs)?;
    drop(twins);
    let Some(rest) = layout_of(alloc, left)? else {
        return Ok(None);
    };
    let Some(their_rest) = layout_of(alloc, their_left)? else {
        return Ok(None);
    };
    Ok(Some((rest, their_rest)))
}

/// The side that alone draws a square on a Layer, if that is the first difference of the layouts at this square.
fn side_at(
    alloc: Global,
    pair: &Pair<'_>,
    layer: Layer,
    square: Square,
    most: usize,
) -> Result<Option<Side>, AllocError>
    ensures { IfOk result (λ found. IfSome found
        (λ side. IsAlone (ours pair.now layer) (theirs pair.now layer) square side)) }
{
    let Pair {
        first,
        second,
        view,
    } = *pair;
    let window = Window {
        x0: square.x,
        y0: square.y,
        x1: square.x.saturating_add(1),
        y1: square.y.saturating_add(1),
    };
    let windows = slice::from_ref(&window);
    let found = difference_in_windows(alloc, first, second, view, windows, most)?;
    let Some((on, at, side)) = found else {
        return Ok(None);
    };
    if on == layer && at == square {
        return Ok(Some(side));
    }
    Ok(None)
}

/// The number of own shapes of the tops of two layouts.
fn shapes_of(first: &Fitted, second: &Fitted) -> usize {
    let ours = top_of(first).shapes.len();
    ours.saturating_add(top_of(second).shapes.len())
}

/// The number of points that a side of what is left may have in a strip, where `most` were given for all: less by
/// one for every four shapes that were left out, since what is left takes memory beside them. At least a quarter.
fn most_of_rests(pair: &Pair<'_>, rest: &Fitted, their_rest: &Fitted, most: usize) -> usize {
    let all = shapes_of(pair.first, pair.second);
    let left_out = all.saturating_sub(shapes_of(rest, their_rest));
    most.saturating_sub(left_out / 4).max(most / 4)
}

/// Windows round all that is left of two layouts, on the Layers on which it draws. None if one of the tops has
/// references.
fn changes_round(
    alloc: Global,
    rest: &Fitted,
    their_rest: &Fitted,
) -> Result<Option<Changes>, AllocError>
    ensures ours { IfOk result (λ found. IfSome found (λ changes. (layer : PlainLayer) (s : GridSquare)
        → ¬ IsChange changes layer s → ¬ TopCovers rest.now layer s)) }
    ensures theirs { IfOk result (λ found. IfSome found (λ changes. (layer : PlainLayer) (s : GridSquare)
        → ¬ IsChange changes layer s → ¬ TopCovers their_rest.now layer s)) }
{
    let (first, second) = (top_of(rest), top_of(their_rest));
    if !first.references.is_empty() || !second.references.is_empty() {
        return Ok(None);
    }
    let whole = View::whole(alloc);
    let mut area = Area::none(alloc, MOST_WINDOWS);
    hold_extents(&mut area, &first.shapes, &whole)?;
    hold_extents(&mut area, &second.shapes, &whole)?;
    let changes = area.into_changes();
    Ok(changes)
}

/// What is known of two layouts that draw the same but for the changes, of which only these are compared.
fn known_among(
    alloc: Global,
    pair: &Pair<'_>,
    changes: Changes,
    most: usize,
) -> Result<Known, AllocError>
    requires { DrawSameBut changes (ours pair.now) (theirs pair.now) }
    ensures { IfOk result (IsKnown (IsShown pair.now.view.now.window) (ours pair.now) (theirs pair.now)) }
{
    let found = difference_among(alloc, pair, &changes, most)?;
    let Some((layer, square, side)) = found else {
        return Ok(Known::Same);
    };
    Ok(Known::Differ(layer, square, side))
}

/// What is known of two layouts whose tops have no references, by what is left of them without the shapes that both
/// have.
pub(crate) fn known_by_rests(
    alloc: Global,
    pair: &Pair<'_>,
    most: usize,
) -> Result<Known, AllocError>
    ensures { IfOk result (IsKnown (IsShown pair.now.view.now.window) (ours pair.now) (theirs pair.now)) }
{
    let Some((rest, their_rest)) = rests_of(alloc, pair)? else {
        return Ok(Known::Nothing);
    };
    let most = most_of_rests(pair, &rest, &their_rest, most);
    let found = difference_by_strips(alloc, &rest, &their_rest, &View::whole(alloc), most)?;
    let Some((layer, square, _)) = found else {
        return Ok(Known::Same);
    };
    if let Some(side) = side_at(alloc, pair, layer, square, most)? {
        return Ok(Known::Differ(layer, square, side));
    }
    let Some(changes) = changes_round(alloc, &rest, &their_rest)? else {
        return Ok(Known::Nothing);
    };
    drop(rest);
    drop(their_rest);
    known_among(alloc, pair, changes, most)
}
