//! Comparison of two libraries on some Layers, in some windows.
ghost use Rattle.std.specs.Prelude.{◌≡◌, ◌<◌, ◌≤◌, ◌⊎◌, AllPairs, Contains, IfOk, IfSome, IfNone, length, take, true};
ghost use Rattle.lvl_names.specs.declared.layer.Layer.{Layer as PlainLayer};
ghost use Rattle.lvl_names.specs.Layers.{ComesBefore};
ghost use Rattle.lvl_flat.specs.Flattened.{TopCovers};
ghost use Rattle.lvl_view.specs.Moved.{IsMoved};
ghost use Rattle.lvl_compare.specs.Parts.{IsSeenIn};
ghost use Rattle.lvl_compare.specs.Tops.{DrawSameOn, IsFirstDifferenceOn};
ghost use Rattle.lvl_compare.specs.inside.Groups.{is_of_span};
ghost use Rattle.lvl_compare.specs.inside.Listed.{IsFoundOn, IsUpTo};
ghost use Rattle.lvl_compare.specs.Pairs.{ours, seen_in, theirs};

use crate::groups::{Group, Span};
use crate::pair::Pair;
use crate::strips::Difference;
use crate::windows::difference_in_group;
use lvl_flat::Fitted;
use lvl_grid::{Square, Window};
use lvl_names::{Layer, comes_before, in_order};
use lvl_region::Side;
use lvl_view::View;
use std::alloc::{AllocError, Global};

/// The last of some Layers, which should be in order, that comes before this one.
fn last_before(layers: &[Layer], layer: Layer) -> Option<Layer>
    ensures { IfSome result (λ other. ComesBefore other layer) }
{
    let place = layers.partition_point(|other| comes_before(*other, layer));
    let other = *layers.get(place.checked_sub(1)?)?;
    if comes_before(other, layer) {
        return Some(other);
    }
    None
}

/// Whether none of the drawn Layers comes between the listed one at an index and the one before it.
fn follows(drawn: &[Layer], layers: &[Layer], place: usize) -> bool
    requires { place < length layers.now }
{
    let Some(previous) = place.checked_sub(1) else {
        return false;
    };
    match last_before(drawn, layers[place]) {
        Some(other) => !comes_before(layers[previous], other),
        None => true,
    }
}

/// The end of those listed Layers, from an index on, between which no other Layer is drawn.
fn run_end(drawn: &[Layer], layers: &[Layer], from: usize) -> usize
    requires { from < length layers.now }
    ensures later { from < result }
    ensures within { result ≤ length layers.now }
{
    for end in from + 1..layers.len() {
        if !follows(drawn, layers, end) {
            return end;
        }
    }
    layers.len()
}

/// The span of the listed Layers from an index on up to another one.
fn span_of(drawn: &[Layer], layers: &[Layer], from: usize, end: usize) -> Span
    requires rising { AllPairs ComesBefore layers.now }
    requires some { from < end }
    requires within { end ≤ length layers.now }
    ensures has { (layer : PlainLayer) → Contains (take end layers.now) layer
        → Contains (take from layers.now) layer ⊎ (is_of_span result layer ≡ true) }
    ensures last { IsUpTo result layers.now end }
{
    Span {
        after: last_before(drawn, layers[from]),
        last: Some(layers[end - 1]),
    }
}

/// The first difference of two layouts on some Layers, which are in order, in some windows. Listed
/// Layers between which no other is drawn are searched together.
fn difference_on_listed(
    alloc: Global,
    pair: &Pair<'_>,
    layers: &[Layer],
    windows: &[Window],
    most: usize,
) -> Result<Option<Difference>, AllocError>
    requires { AllPairs ComesBefore layers.now }
    ensures { IfOk result (IsFoundOn layers.now (seen_in pair.now windows.now) (ours pair.now) (theirs pair.now)) }
{
    let whole = Group::whole(alloc, pair)?;
    let drawn = whole.targets(alloc, pair.view)?;
    let mut from = 0;
    while from < layers.len() {
        let end = run_end(&drawn, layers, from);
        let span = span_of(&drawn, layers, from, end);
        let group = whole.part(alloc, pair, span)?;
        let found = difference_in_group(alloc, pair, &group, windows, most)?;
        if found.is_some() {
            return Ok(found);
        }
        from = end;
    }
    Ok(None)
}

/// The first Layer, and on it the first square of the windows, by `y` and then `x`, that only one
/// of two layouts draws, with its side; None if both draw the same squares of the windows on all of
/// the listed Layers. The Layers of the second are mapped by the view, and if the view has a window,
/// only its squares are compared.
///
/// The listed Layers are those of the first layout, and those of the second as they are mapped. No
/// other Layer is drawn, and so a difference on another one isn't found. Each window is searched by
/// itself, as [`difference_by_strips`](crate::difference_by_strips) does, which also explains
/// `most`. Fails only if out of memory.
pub fn difference_on_layers(
    alloc: Global,
    first: &Fitted,
    second: &Fitted,
    view: &View,
    layers: &[Layer],
    windows: &[Window],
    most: usize,
) -> Result<Option<(Layer, Square, Side)>, AllocError>
    ensures same { IfOk result (λ found. IfNone found
        (DrawSameOn layers.now (IsSeenIn view.now.window windows.now) (TopCovers first.now)
        (IsMoved view.now.pairs (TopCovers second.now)))) }
    ensures differ { IfOk result (λ found. IfSome found
        (λ at. IsFirstDifferenceOn layers.now (IsSeenIn view.now.window windows.now) (TopCovers first.now)
        (IsMoved view.now.pairs (TopCovers second.now)) at.0 at.1 at.2)) }
{
    let ordered = in_order(Vec::from_slice(alloc, layers)?)?;
    let pair = Pair {
        first,
        second,
        view,
    };
    difference_on_listed(alloc, &pair, &ordered, windows, most)
}
