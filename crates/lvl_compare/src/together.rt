//! Windows that are searched together: what may cover squares of one of them is looked for once.
ghost use Rattle.std.specs.Prelude.{Contains, IfOk, IfSome, IsTrue};
ghost use Rattle.lvl_grid.specs.declared.point.Square.{Square as GridSquare};
ghost use Rattle.lvl_grid.specs.declared.point.Window.{Window as PlainWindow};
ghost use Rattle.lvl_grid.specs.Clip.{IsInWindow};
ghost use Rattle.lvl_compare.specs.Pairs.{ours, seen_in, theirs};
ghost use Rattle.lvl_compare.specs.Parts.{SomeHas};
ghost use Rattle.lvl_compare.specs.inside.Groups.{AreListed, on};
ghost use Rattle.lvl_compare.specs.inside.Lists.{AreBoth};
ghost use Rattle.lvl_compare.specs.inside.Strips.{IsImproved};

use crate::groups::Group;
use crate::lists::{Lists, shorter};
use crate::pace::Pace;
use crate::pair::Pair;
use crate::strips::{Difference, Search, difference_within, is_past, shared};
use lvl_grid::Window;
use std::alloc::{AllocError, Global};

/// A window that has all squares of some windows, or None if there are none.
pub fn hull_of(windows: &[Window]) -> Option<Window>
    ensures { IfSome result (λ hull. (s : GridSquare) → SomeHas windows.now s → IsInWindow hull s) }
{
    let mut hull = *windows.first()?;
    for window in windows {
        hull = hull.joined(*window);
    }
    Some(hull)
}

/// Lists for all of the windows that are at least a quarter shorter, or None. A single window needs
/// none.
fn shortened(
    alloc: Global,
    pair: &Pair<'_>,
    lists: &Lists,
    windows: &[Window],
) -> Result<Option<Lists>, AllocError>
    requires { (window : PlainWindow) → AreBoth pair.now window lists.now }
    ensures { IfOk result (λ short. IfSome short
        (λ shorter. (window : PlainWindow) → Contains windows.now window → AreBoth pair.now window shorter)) }
{
    if windows.len() < 2 {
        return Ok(None);
    }
    let Some(hull) = hull_of(windows) else {
        return Ok(None);
    };
    let (short, _) = lists.shortened(alloc, pair, &hull)?;
    Ok(short)
}

/// Whether no square of the windows may come before what is known, on the Layers of a group.
fn are_past(
    alloc: Global,
    pair: &Pair<'_>,
    group: &Group,
    windows: &[Window],
    known: Option<Difference>,
) -> Result<bool, AllocError>
    requires { AreListed pair.now group.now }
    ensures { IfOk result (λ past. IsTrue past → IsImproved (ours pair.now) (theirs pair.now)
        (on group.now.span (seen_in pair.now windows.now)) known known) }
{
    let Some(hull) = hull_of(windows) else {
        return Ok(false);
    };
    is_past(alloc, pair, group, &hull, known)
}

/// The first difference of two layouts on the Layers of a group within a window, if it precedes what is
/// known, else what is known.
fn difference_before(
    alloc: Global,
    pair: &Pair<'_>,
    group: &Group,
    lists: &Lists,
    window: &Window,
    most: usize,
    known: Option<Difference>,
) -> Result<Option<Difference>, AllocError>
    requires listed { AreListed pair.now group.now }
    requires lists { AreBoth pair.now window.now lists.now }
    ensures { IfOk result (IsImproved (ours pair.now) (theirs pair.now)
        (on group.now.span (IsInWindow window.now)) known) }
{
    let start = Search {
        found: known,
        pace: Pace::new(most),
        windows: 0,
    };
    let size = group.span.least_size();
    let end = difference_within(alloc, pair, group, lists, window, size, start)?;
    Ok(end.found)
}

/// The first difference of two layouts on the Layers of a group, in some windows near one another, if
/// it precedes what is known, else what is known.
pub(crate) fn difference_together(
    alloc: Global,
    pair: &Pair<'_>,
    group: &Group,
    wider: &Lists,
    windows: &[Window],
    most: usize,
    known: Option<Difference>,
) -> Result<Option<Difference>, AllocError>
    requires listed { AreListed pair.now group.now }
    requires lists { (window : PlainWindow) → AreBoth pair.now window wider.now }
    ensures { IfOk result (IsImproved (ours pair.now) (theirs pair.now)
        (on group.now.span (seen_in pair.now windows.now)) known) }
{
    if are_past(alloc, pair, group, windows, known)? {
        return Ok(known);
    }
    let short = shortened(alloc, pair, wider, windows)?;
    let lists = shorter(&short, wider);
    let mut found = known;
    for window in windows {
        let part = shared(*window, pair.view.window());
        found = difference_before(alloc, pair, group, lists, &part, most, found)?;
    }
    Ok(found)
}
