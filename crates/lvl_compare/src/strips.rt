//! Comparison of two libraries in a window, part by part, so that only what is drawn in one part is
//! in memory.
ghost use Rattle.std.specs.Prelude.{◌≡◌, ◌≤◌, ◌+◌, ◌*◌, ◌<ℤ◌, ◌↔◌, IsTrue, IfOk, IfSome};
ghost use Rattle.lvl_grid.specs.declared.point.Square.{Square as GridSquare};
ghost use Rattle.lvl_grid.specs.Clip.{IsInWindow};
ghost use Rattle.lvl_columns.specs.Windows.{window_of};
ghost use Rattle.lvl_compare.specs.inside.Strips.{AreHalves, Precedes, IsFoundIn, IsImproved, IsLeast, rows_to};
ghost use Rattle.lvl_compare.specs.inside.Strips.{seen_of};
ghost use Rattle.lvl_compare.specs.inside.Groups.{AreAbove, AreListed, AreRowsBefore, on};
ghost use Rattle.lvl_compare.specs.inside.Lists.{AreBoth};
ghost use Rattle.lvl_compare.specs.inside.Paces.{cuts_left};
ghost use Rattle.lvl_compare.specs.Pairs.{ours, theirs};

use crate::flats::first_difference;
use crate::groups::Group;
use crate::lists::{Lists, shorter};
use crate::pace::Pace;
use crate::pair::Pair;
use lvl_flat::OverBudget;
use lvl_grid::{Square, Window};
use lvl_names::{Layer, comes_before};
use lvl_refusal::Cause;
use lvl_region::Side;
use lvl_view::View;
use std::alloc::{AllocError, Global};

/// A Layer, a square that only one side draws there, and the side.
pub(crate) type Difference = (Layer, Square, Side);

/// How far a search is: the first difference that is known, the pace of what is still to be searched,
/// and how many windows were looked at.
#[derive(Clone, Copy)]
pub(crate) struct Search {
    pub found: Option<Difference>,
    pub pace: Pace,
    pub windows: u64,
}

/// Whether the first comes before the second: by Layer, then by square.
fn precedes(first: &Difference, second: &Difference) -> bool
    ensures { IsTrue result ↔ Precedes first.now.0 first.now.1 second.now.0 second.now.1 }
{
    comes_before(first.0, second.0) || first.0 == second.0 && first.1.is_before(second.1)
}

/// The lesser of two differences, or the only one that there is.
pub(crate) fn least(first: Option<Difference>, second: Option<Difference>) -> Option<Difference>
    ensures { IsLeast first second result }
{
    match (first, second) {
        (Some(a), Some(b)) => Some(if precedes(&b, &a) { b } else { a }),
        (Some(a), None) => Some(a),
        (None, other) => other,
    }
}

/// The intersection of two windows if the second is given, else the first.
pub(crate) fn shared(first: Window, second: Option<&Window>) -> Window
    ensures { result ≡ seen_of (window_of second.entry) first }
{
    let Some(second) = second else {
        return first;
    };
    Window {
        x0: first.x0.max(second.x0),
        y0: first.y0.max(second.y0),
        x1: first.x1.min(second.x1),
        y1: first.y1.min(second.y1),
    }
}

/// The first difference of two layouts on the Layers of a group within a window, unless one of them has
/// more than `most` points there.
fn drawn_difference(
    alloc: Global,
    pair: &Pair<'_>,
    group: &Group,
    lists: &Lists,
    window: &Window,
    most: usize,
) -> Result<Option<Difference>, Cause<OverBudget>>
    requires listed { AreListed pair.now group.now }
    requires lists { AreBoth pair.now window.now lists.now }
    ensures { IfOk result (IsFoundIn (ours pair.now) (theirs pair.now) (on group.now.span (IsInWindow window.now))) }
{
    let (first, second) = (pair.first, pair.second);
    let ours = first.within_of(alloc, &lists.ours, &group.ours, window, most)?;
    let theirs = second.within_of(alloc, &lists.theirs, &group.theirs, window, most)?;
    let mapped = theirs.mapped(alloc, pair.view)?;
    let found = first_difference(alloc, &ours, &mapped)?;
    Ok(found)
}

/// The rows of a window up to this one.
fn rows_up_to(window: Window, y: i64) -> Window
    ensures { result ≡ rows_to y window }
{
    Window {
        x0: window.x0,
        y0: window.y0,
        x1: window.x1,
        y1: window.y1.min(y.saturating_add(1)),
    }
}

/// The last row of a window that may have a square before this one: the row of the square or, if the
/// whole window is to the right of the square, the row below.
fn last_row(window: &Window, square: Square) -> i64
    ensures { AreAbove window.now result square }
{
    if square.x < window.x0 {
        square.y.saturating_sub(1)
    } else {
        square.y
    }
}

/// The rows of a window that may have a square before a known one, on the Layers of a group up to its
/// Layer: all rows, unless no Layer of the group comes before its Layer.
fn rows_before(
    alloc: Global,
    view: &View,
    group: &Group,
    window: &Window,
    known: &Difference,
) -> Window
    ensures { AreRowsBefore view.now.pairs group.now known.now window.now result }
{
    if group.has_before(alloc, view, known.0) {
        *window
    } else {
        rows_up_to(*window, last_row(window, known.1))
    }
}

/// Whether the window has no squares.
fn has_no_square(window: &Window) -> bool
    ensures { IsTrue result → (s : GridSquare) → ¬ IsInWindow window.now s }
{
    window.x0 >= window.x1 || window.y0 >= window.y1
}

/// Whether no square of a window may come before what is known, on the Layers of a group.
pub(crate) fn is_past(
    alloc: Global,
    pair: &Pair<'_>,
    group: &Group,
    window: &Window,
    found: Option<Difference>,
) -> Result<bool, AllocError>
    requires { AreListed pair.now group.now }
    ensures { IfOk result (λ past. IsTrue past → IsImproved (ours pair.now) (theirs pair.now)
        (on group.now.span (IsInWindow window.now)) found found) }
{
    let Some(known) = found else {
        return Ok(false);
    };
    if !has_no_square(&rows_up_to(*window, last_row(window, known.1))) {
        return Ok(false);
    }
    let lesser = group.part(alloc, pair, group.span.up_to(known.0))?;
    let rows = rows_before(alloc, pair.view, &lesser, window, &known);
    Ok(has_no_square(&rows))
}

/// The first difference of two layouts on the Layers of a group within a window, if it precedes what
/// is known, else what is known. Only what may precede the known difference is drawn: Layers up to
/// its Layer, and if there is none before that one, rows that may have a square before its own.
fn difference_after(
    alloc: Global,
    pair: &Pair<'_>,
    group: &Group,
    lists: &Lists,
    window: &Window,
    found: Option<Difference>,
    most: usize,
) -> Result<Option<Difference>, Cause<OverBudget>>
    requires listed { AreListed pair.now group.now }
    requires lists { AreBoth pair.now window.now lists.now }
    ensures { IfOk result (IsImproved (ours pair.now) (theirs pair.now)
        (on group.now.span (IsInWindow window.now)) found) }
{
    let Some(known) = found else {
        return drawn_difference(alloc, pair, group, lists, window, most);
    };
    let lesser = group.part(alloc, pair, group.span.up_to(known.0))?;
    let rows = rows_before(alloc, pair.view, &lesser, window, &known);
    let next = drawn_difference(alloc, pair, &lesser, lists, &rows, most)?;
    Ok(least(found, next))
}

/// The coordinate in the middle between two, or None if there is none between them.
fn middle(from: i64, to: i64) -> Option<i64>
    ensures { IfSome result (λ middle. (from <ℤ middle) × (middle <ℤ to)) }
{
    let middle = from.saturating_add_unsigned(from.abs_diff(to) / 2);
    if from < middle && middle < to {
        return Some(middle);
    }
    None
}

/// The part of a window left of an abscissa.
fn left_of(window: &Window, x: i64) -> Window
    ensures { result ≡ record { x0 = window.now.x0; y0 = window.now.y0; x1 = x; y1 = window.now.y1 } }
{
    Window { x1: x, ..*window }
}

/// The part of a window from an abscissa on.
fn right_of(window: &Window, x: i64) -> Window
    ensures { result ≡ record { x0 = x; y0 = window.now.y0; x1 = window.now.x1; y1 = window.now.y1 } }
{
    Window { x0: x, ..*window }
}

/// The part of a window below an ordinate.
fn below(window: &Window, y: i64) -> Window
    ensures { result ≡ record { x0 = window.now.x0; y0 = window.now.y0; x1 = window.now.x1; y1 = y } }
{
    Window { y1: y, ..*window }
}

/// The part of a window from an ordinate on.
fn above(window: &Window, y: i64) -> Window
    ensures { result ≡ record { x0 = window.now.x0; y0 = y; x1 = window.now.x1; y1 = window.now.y1 } }
{
    Window { y0: y, ..*window }
}

/// The left and the right half of a window, or None if it has less than two columns.
fn columns_of(window: &Window) -> Option<(Window, Window)>
    ensures { IfSome result (λ halves. AreHalves window.now halves.0 halves.1) }
{
    let x = middle(window.x0, window.x1)?;
    Some((left_of(window, x), right_of(window, x)))
}

/// The lower and the upper half of a window, or None if it has less than two rows.
fn rows_of(window: &Window) -> Option<(Window, Window)>
    ensures { IfSome result (λ halves. AreHalves window.now halves.0 halves.1) }
{
    let y = middle(window.y0, window.y1)?;
    Some((below(window, y), above(window, y)))
}

/// Two halves of a window, beside each other if it is to be cut across and can be. None if it is a
/// single square, or has none.
fn halves(window: &Window, across: bool) -> Option<(Window, Window)>
    ensures { IfSome result (λ halves. AreHalves window.now halves.0 halves.1) }
{
    let (better, other) = if across {
        (columns_of(window), rows_of(window))
    } else {
        (rows_of(window), columns_of(window))
    };
    match better {
        Some(halves) => Some(halves),
        None => other,
    }
}

/// The search after a window that is drawn as a whole, with at most this number of points on a side.
fn whole(
    alloc: Global,
    pair: &Pair<'_>,
    group: &Group,
    lists: &Lists,
    window: &Window,
    before: Search,
    most: usize,
) -> Result<Search, Cause<OverBudget>>
    requires listed { AreListed pair.now group.now }
    requires lists { AreBoth pair.now window.now lists.now }
    ensures found { IfOk result (λ after. IsImproved (ours pair.now) (theirs pair.now)
        (on group.now.span (IsInWindow window.now)) before.found after.found) }
    ensures few { IfOk result (λ after. after.windows + 2 * cuts_left after.pace
        ≤ before.windows + 2 * cuts_left before.pace + 1) }
{
    let known = before.found;
    let found = difference_after(alloc, pair, group, lists, window, known, most)?;
    Ok(Search {
        found,
        pace: before.pace,
        windows: before.windows.saturating_add(1),
    })
}

/// The search after a window that is tried as a whole, or None if a side has more than `most` points there.
fn tried(
    alloc: Global,
    pair: &Pair<'_>,
    group: &Group,
    lists: &Lists,
    window: &Window,
    before: Search,
    most: usize,
) -> Result<Option<Search>, AllocError>
    requires listed { AreListed pair.now group.now }
    requires lists { AreBoth pair.now window.now lists.now }
    ensures found { IfOk result (λ tried. IfSome tried (λ after. IsImproved (ours pair.now) (theirs pair.now)
        (on group.now.span (IsInWindow window.now)) before.found after.found)) }
    ensures few { IfOk result (λ tried. IfSome tried (λ after. after.windows + 2 * cuts_left after.pace
        ≤ before.windows + 2 * cuts_left before.pace + 1)) }
{
    match whole(alloc, pair, group, lists, window, before, most) {
        Ok(after) => Ok(Some(after)),
        Err(Cause::Breach(OverBudget)) => Ok(None),
        Err(Cause::OutOfMemory) => Err(AllocError),
    }
}

/// The search after a window that isn't cut. Rings that lie over one another are joined where there are more than
/// a side may have in a window; only if that doesn't help, a side may have any number of points.
fn uncut(
    alloc: Global,
    pair: &Pair<'_>,
    group: &Group,
    lists: &Lists,
    window: &Window,
    before: Search,
) -> Result<Search, AllocError>
    requires listed { AreListed pair.now group.now }
    requires lists { AreBoth pair.now window.now lists.now }
    ensures found { IfOk result (λ after. IsImproved (ours pair.now) (theirs pair.now)
        (on group.now.span (IsInWindow window.now)) before.found after.found) }
    ensures few { IfOk result (λ after. after.windows + 2 * cuts_left after.pace
        ≤ before.windows + 2 * cuts_left before.pace + 1) }
{
    let most = before.pace.points();
    if let Some(after) = tried(alloc, pair, group, lists, window, before, most)? {
        return Ok(after);
    }
    match whole(alloc, pair, group, lists, window, before, usize::MAX) {
        Ok(after) => Ok(after),
        Err(_) => Err(AllocError),
    }
}

/// The search of a window, where a side is expected to have this number of points at most. If that
/// fits the budget, the window is drawn as a whole; else, or if it has more points, its halves are searched one after
/// the other. A window of one square may have any number of
/// points, and so may each window once all cuts are made. Each window looks only at those own shapes
/// and references of the tops that may cover squares of the one that it is a half of, and none is looked
/// at of which no square may come before what is known.
///
/// There are at most two windows for each cut, and one more.
pub(crate) fn difference_within(
    alloc: Global,
    pair: &Pair<'_>,
    group: &Group,
    wider: &Lists,
    window: &Window,
    expected: u64,
    before: Search,
) -> Result<Search, AllocError>
    requires listed { AreListed pair.now group.now }
    requires lists { AreBoth pair.now window.now wider.now }
    ensures found { IfOk result (λ after. IsImproved (ours pair.now) (theirs pair.now)
        (on group.now.span (IsInWindow window.now)) before.found after.found) }
    ensures few { IfOk result (λ after. after.windows + 2 * cuts_left after.pace
        ≤ before.windows + 2 * cuts_left before.pace + 1) }
{
    if is_past(alloc, pair, group, window, before.found)? {
        return Ok(before);
    }
    let most = before.pace.points();
    if expected <= most as u64 {
        if let Some(after) = tried(alloc, pair, group, wider, window, before, most)? {
            return Ok(after);
        }
    }
    let (short, sizes) = wider.shortened(alloc, pair, window)?;
    let lists = shorter(&short, wider);
    if sizes.are_tried(expected, most) {
        if let Some(after) = tried(alloc, pair, group, lists, window, before, most)? {
            return Ok(after);
        }
    }
    let across = sizes.is_cut_across();
    let (Some(pace), Some((low, high))) = (before.pace.next(), halves(window, across)) else {
        return uncut(alloc, pair, group, lists, window, before);
    };
    let begun = Search {
        found: before.found,
        pace,
        windows: before.windows.saturating_add(1),
    };
    let (less, more) = sizes.of_halves(across);
    let half = difference_within(alloc, pair, group, lists, &low, less, begun)?;
    difference_within(alloc, pair, group, lists, &high, more, half)
}
