//! Comparison of two flat layouts, Layer by Layer, up to their first difference.
ghost use Rattle.std.specs.Prelude.{◌≡◌, ◌↔◌, drop, Some, IfOk, IfNone, IfSome, IsTrue};
ghost use Rattle.lvl_names.specs.declared.layer.Layer.{Layer as PlainLayer};
ghost use Rattle.lvl_columns.specs.Windows.{window_of};
ghost use Rattle.lvl_compare.specs.Flats.{AlikeIn, AlikeOn, IsFirstApart, IsFirstApartIn, IsLesser, later, head_layer};

use lvl_columns::difference_in;
use lvl_flat::Flat;
use lvl_grid::{Square, Window};
use lvl_names::{Layer, comes_before};
use lvl_region::Side;
use std::alloc::{AllocError, Global};

/// The first difference: the first Layer, and on it the first square, by `y` and then `x`, that
/// only one of the two covers, with its side. None if both cover the same squares on every Layer. A
/// Layer that one of them doesn't have covers nothing there. Fails only if out of memory.
pub fn first_difference(
    alloc: Global,
    first: &Flat,
    second: &Flat,
) -> Result<Option<(Layer, Square, Side)>, AllocError>
    ensures same { IfOk result
        (λ found. IfNone found ((layer : PlainLayer) → AlikeOn first.now second.now layer)) }
    ensures differ { IfOk result
        (λ found. IfSome found (λ at. IsFirstApart first.now second.now at.0 at.1 at.2)) }
{
    first_difference_within(alloc, first, second, None)
}

/// The first difference in a window: the first Layer, and on it the first square of the window,
/// that only one of the two covers, with its side. None if both cover the same squares of the
/// window on every Layer. Without a window, all squares are compared. Fails only if out of memory.
pub fn first_difference_within(
    alloc: Global,
    first: &Flat,
    second: &Flat,
    window: Option<&Window>,
) -> Result<Option<(Layer, Square, Side)>, AllocError>
    ensures same { IfOk result
        (λ found. IfNone found ((layer : PlainLayer)
        → AlikeIn (window_of window.entry) first.now second.now layer)) }
    ensures differ { IfOk result
        (λ found. IfSome found
        (λ at. IsFirstApartIn (window_of window.entry) first.now second.now at.0 at.1 at.2)) }
{
    let mut ours = 0;
    let mut theirs = 0;
    while let Some(layer) = lesser(first.layer(ours), second.layer(theirs)) {
        let (a, b) = (first.rings(layer), second.rings(layer));
        if let Some((square, side)) = difference_in(alloc, a, b, window)? {
            return Ok(Some((layer, square, side)));
        }
        ours = past(first, ours, layer);
        theirs = past(second, theirs, layer);
    }
    Ok(None)
}

/// The lesser of two Layers, or the only one that there is.
pub fn lesser(first: Option<Layer>, second: Option<Layer>) -> Option<Layer>
    ensures { IsLesser first second result }
{
    match (first, second) {
        (Some(a), Some(b)) => Some(if comes_before(b, a) { b } else { a }),
        (Some(a), None) => Some(a),
        (None, other) => other,
    }
}

/// `index + 1` if the Layer at `index` is this one, else `index`.
pub fn past(flat: &Flat, index: usize, layer: Layer) -> usize
    ensures { drop result flat.now ≡ later layer (drop index flat.now) }
{
    if index < flat.len() && is_at(flat, index, layer) {
        index + 1
    } else {
        index
    }
}

/// Whether the Layer at `index` is this one.
fn is_at(flat: &Flat, index: usize, layer: Layer) -> bool
    ensures { IsTrue result ↔ (head_layer (drop index flat.now) ≡ Some layer) }
{
    match flat.layer(index) {
        Some(here) => here == layer,
        None => false,
    }
}
