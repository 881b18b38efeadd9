//! Comparison of two libraries, as a whole or in some windows.
ghost use Rattle.std.specs.Prelude.{◌<◌, ◌≤◌, length, IfOk, IfSome, IfNone};
ghost use Rattle.lvl_columns.specs.Windows.{IsShown};
ghost use Rattle.lvl_flat.specs.Flattened.{TopCovers};
ghost use Rattle.lvl_view.specs.Moved.{IsMoved};
ghost use Rattle.lvl_compare.specs.Parts.{IsSeenIn};
ghost use Rattle.lvl_compare.specs.Tops.{DrawSame, IsFirstDifference};
ghost use Rattle.lvl_compare.specs.inside.Groups.{AreListed, on};
ghost use Rattle.lvl_compare.specs.Pairs.{ours, seen_in, theirs};
ghost use Rattle.lvl_compare.specs.inside.Strips.{IsFoundIn, everywhere};

use crate::groups::{Group, Span};
use crate::lists::Lists;
use crate::pair::Pair;
use crate::strips::Difference;
use crate::together::difference_together;
use lvl_flat::Fitted;
use lvl_grid::{Square, Window};
use lvl_names::Layer;
use lvl_region::Side;
use lvl_view::View;
use std::alloc::{AllocError, Global};
use std::slice;

/// How many windows are searched together. Then a layout is looked at as a whole once for each eight windows near one
/// another, and not once for each.
const TOGETHER: usize = 8;

/// The number of squares of a window, at most `u128::MAX`.
fn area(window: &Window) -> u128 {
    let width = u128::from(window.x0.abs_diff(window.x1));
    width.saturating_mul(u128::from(window.y0.abs_diff(window.y1)))
}

/// The end, which is excluded, of the windows from an index on that are searched together: at most
/// [`TOGETHER`] of them, and with at most half of what both layouts draw between them.
fn end_of_near(pair: &Pair<'_>, windows: &[Window], from: usize) -> usize
    requires { from < length windows.now }
    ensures after { from < result }
    ensures inside { result ≤ length windows.now }
{
    let half = area(&pair.first.extent().joined(pair.second.extent())) / 2;
    let most = windows.len().min(from.saturating_add(TOGETHER));
    let mut hull = windows[from];
    for end in from + 1..most {
        hull = hull.joined(windows[end]);
        if area(&hull) > half {
            return end;
        }
    }
    most
}

/// The first difference of two layouts on the Layers of a group, in some windows, of which those that
/// follow one another should be near one another.
pub(crate) fn difference_in_group(
    alloc: Global,
    pair: &Pair<'_>,
    group: &Group,
    windows: &[Window],
    most: usize,
) -> Result<Option<Difference>, AllocError>
    requires { AreListed pair.now group.now }
    ensures { IfOk result (IsFoundIn (ours pair.now) (theirs pair.now)
        (on group.now.span (seen_in pair.now windows.now))) }
{
    let lists = Lists::whole(pair);
    let mut found = None;
    let mut from = 0;
    while from < windows.len() {
        let end = end_of_near(pair, windows, from);
        let near = &windows[from..end];
        found = difference_together(alloc, pair, group, &lists, near, most, found)?;
        from = end;
    }
    Ok(found)
}

/// The first difference of two layouts in some windows. The Layers are searched in groups, in their
/// order, up to the first group that has a difference.
pub(crate) fn difference_by_groups(
    alloc: Global,
    pair: &Pair<'_>,
    windows: &[Window],
    most: usize,
) -> Result<Option<Difference>, AllocError>
    ensures { IfOk result (IsFoundIn (ours pair.now) (theirs pair.now) (everywhere (seen_in pair.now windows.now))) }
{
    let layers = Group::whole(alloc, pair)?;
    let ends = layers.ends(alloc, pair.view)?;
    let mut after = None;
    for end in &ends {
        let last = Some(*end);
        let group = layers.part(alloc, pair, Span { after, last })?;
        let found = difference_in_group(alloc, pair, &group, windows, most)?;
        if found.is_some() {
            return Ok(found);
        }
        after = last;
    }
    let group = layers.part(alloc, pair, Span { after, last: None })?;
    difference_in_group(alloc, pair, &group, windows, most)
}

/// The first Layer, and on it the first square, by `y` and then `x`, that only one of two layouts
/// draws, with its side; None if both draw the same squares on every Layer. The Layers of the
/// second are mapped by the view, and if the view has a window, only its squares are compared.
///
/// The layouts are searched in windows, which are halved until neither side has more than `most`
/// points in one. Only one window is in memory at a time. After 256 cuts `most` is doubled. A window
/// of one square may have any number of points. Many Layers are searched in groups, one after
/// another. Fails only if out of memory.
pub fn difference_by_strips(
    alloc: Global,
    first: &Fitted,
    second: &Fitted,
    view: &View,
    most: usize,
) -> Result<Option<(Layer, Square, Side)>, AllocError>
    ensures same { IfOk result (λ found. IfNone found
        (DrawSame (IsShown view.now.window) (TopCovers first.now) (IsMoved view.now.pairs (TopCovers second.now)))) }
    ensures differ { IfOk result (λ found. IfSome found
        (λ at. IsFirstDifference (IsShown view.now.window) (TopCovers first.now)
        (IsMoved view.now.pairs (TopCovers second.now)) at.0 at.1 at.2)) }
{
    let window = first.extent().joined(second.extent());
    let windows = slice::from_ref(&window);
    difference_in_windows(alloc, first, second, view, windows, most)
}

/// The first Layer, and on it the first square of the windows, by `y` and then `x`, that only one
/// of two layouts draws, with its side; None if both draw the same squares of the windows on every
/// Layer. The Layers of the second are mapped by the view, and if the view has a window, only its
/// squares are compared.
///
/// Each window is searched by itself, as [`difference_by_strips`] does, which also explains
/// `most`. Fails only if out of memory.
pub fn difference_in_windows(
    alloc: Global,
    first: &Fitted,
    second: &Fitted,
    view: &View,
    windows: &[Window],
    most: usize,
) -> Result<Option<(Layer, Square, Side)>, AllocError>
    ensures same { IfOk result (λ found. IfNone found (DrawSame (IsSeenIn view.now.window windows.now)
        (TopCovers first.now) (IsMoved view.now.pairs (TopCovers second.now)))) }
    ensures differ { IfOk result (λ found. IfSome found
        (λ at. IsFirstDifference (IsSeenIn view.now.window windows.now) (TopCovers first.now)
        (IsMoved view.now.pairs (TopCovers second.now)) at.0 at.1 at.2)) }
{
    let pair = Pair {
        first,
        second,
        view,
    };
    difference_by_groups(alloc, &pair, windows, most)
}
