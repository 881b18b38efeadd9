//! Comparison of two libraries only where something changed between them.
ghost use Rattle.std.specs.Prelude.{IfOk, IfSome, IfNone};
ghost use Rattle.lvl_columns.specs.Windows.{IsShown};
ghost use Rattle.lvl_flat.specs.Flattened.{TopCovers};
ghost use Rattle.lvl_view.specs.Moved.{IsMoved};
ghost use Rattle.lvl_compare.specs.Pairs.{ours, theirs};
ghost use Rattle.lvl_compare.specs.Tops.{DrawSame, IsFirstDifference};
ghost use Rattle.lvl_changed.specs.Changed.{DrawSameBut};

use crate::cells::changed;
use crate::changes::{Changes, difference_among};
use crate::pays::pays_by_cells;
use crate::rests::{Known, known_by_rests};
use lvl_compare::{Pair, difference_by_strips};
use lvl_flat::Fitted;
use lvl_grid::{Square, Window};
use lvl_names::Layer;
use lvl_region::Side;
use lvl_view::View;
use std::alloc::{AllocError, Global};

/// The greatest number of Layers on which large windows are compared without the others.
const FEW_LAYERS: usize = 8;

/// The number of squares of a window, at most `u64::MAX`.
fn area(window: &Window) -> u64 {
    let width = window.x0.abs_diff(window.x1);
    width.saturating_mul(window.y0.abs_diff(window.y1))
}

/// Whether the windows have at most half as many squares as the extent of the larger layout. The
/// answer is one of cost only.
fn are_small(windows: &[Window], pair: &Pair<'_>) -> bool {
    let all = area(&pair.first.extent()).max(area(&pair.second.extent()));
    let mut sum = 0u64;
    for window in windows {
        sum = sum.saturating_add(area(window));
    }
    sum <= all / 2
}

/// Whether it is likely to pay to compare only these changes.
fn pays(changes: &Changes, pair: &Pair<'_>) -> bool {
    match &changes.layers {
        Some(layers) if layers.len() <= FEW_LAYERS => true,
        _ => are_small(&changes.windows, pair),
    }
}

/// Where the layouts may differ, or None if it isn't likely to pay to search for that, or to compare
/// only what is there.
fn changes_to_compare(alloc: Global, pair: &Pair<'_>) -> Result<Option<Changes>, AllocError>
    ensures { IfOk result (λ found. IfSome found (λ changes.
        DrawSameBut changes (ours pair.now) (theirs pair.now))) }
{
    if !pays_by_cells(pair.first.checked()) || !pays_by_cells(pair.second.checked()) {
        return Ok(None);
    }
    let Some(changes) = changed(alloc, pair.first, pair.second, pair.view)? else {
        return Ok(None);
    };
    if !pays(&changes, pair) {
        return Ok(None);
    }
    Ok(Some(changes))
}

/// The first Layer, and on it the first square, by `y` and then `x`, that only one of two layouts
/// draws, with its side; None if both draw the same squares on every Layer. The Layers of the
/// second are mapped by the view, and if the view has a window, only its squares are compared.
///
/// If cells are placed often enough for it to pay, only what [`changed`] finds is compared: its
/// windows, and on its Layers only if these are few. Otherwise, or if the windows are more than half
/// of the layout and the Layers aren't few, everything is: see [`difference_by_strips`], which also
/// explains `most`. Of two tops without references that have many shapes, those that both have are left
/// out first, if the view has no window. Fails only if out of memory.
pub fn difference_by_changes(
    alloc: Global,
    first: &Fitted,
    second: &Fitted,
    view: &View,
    most: usize,
) -> Result<Option<(Layer, Square, Side)>, AllocError>
    ensures same { IfOk result (λ found. IfNone found
        (DrawSame (IsShown view.now.window) (TopCovers first.now) (IsMoved view.now.pairs (TopCovers second.now)))) }
    ensures differ { IfOk result (λ found. IfSome found
        (λ at. IsFirstDifference (IsShown view.now.window) (TopCovers first.now)
        (IsMoved view.now.pairs (TopCovers second.now)) at.0 at.1 at.2)) }
{
    let pair = Pair {
        first,
        second,
        view,
    };
    if let Some(changes) = changes_to_compare(alloc, &pair)? {
        return difference_among(alloc, &pair, &changes, most);
    }
    match known_by_rests(alloc, &pair, most)? {
        Known::Same => Ok(None),
        Known::Differ(layer, square, side) => Ok(Some((layer, square, side))),
        Known::Nothing => difference_by_strips(alloc, first, second, view, most),
    }
}
