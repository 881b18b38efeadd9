//! Which windows are near one another. Nothing that is found depends on it, so these functions have no contracts.

use lvl_grid::Window;

/// Which part of the squares of two joined windows is added to what joining them costs: so of windows that get as many
/// squares the small ones are joined, and not all with the same one.
const PART: u128 = 64;

/// No squares.
const NOWHERE: Window = Window {
    x0: 0,
    y0: 0,
    x1: 0,
    y1: 0,
};

/// Whether the windows share a square.
pub(crate) fn meet(first: Window, second: Window) -> bool {
    let across = first.x0 < second.x1 && second.x0 < first.x1;
    across && first.y0 < second.y1 && second.y0 < first.y1
}

/// The number of squares of a window.
fn area(window: Window) -> u128 {
    u128::from(window.x0.abs_diff(window.x1)) * u128::from(window.y0.abs_diff(window.y1))
}

/// What it costs to join two windows: the squares that they get, and a small part of all that the joined one has.
pub(crate) fn cost_of_joining(first: Window, second: Window) -> u128 {
    let both = area(first).saturating_add(area(second));
    let joined = area(first.joined(second));
    joined.saturating_sub(both).saturating_add(joined / PART)
}

/// A window that has all of the windows, or one without squares if there are none.
fn hull_of(windows: &[Window]) -> Window {
    let mut hull = windows.first().copied().unwrap_or(NOWHERE);
    for window in windows {
        hull = hull.joined(*window);
    }
    hull
}

/// The number of squares of windows that share none.
pub(crate) fn squares_of(windows: &[Window]) -> u128 {
    let mut sum = 0u128;
    for window in windows {
        sum = sum.saturating_add(area(*window));
    }
    sum
}

/// Whether windows have at least half of the squares of their hull.
pub(crate) fn are_dense(windows: &[Window]) -> bool {
    squares_of(windows) >= area(hull_of(windows)) / 2
}

/// Whether the windows are spread more along x than along y.
pub(crate) fn spread_across(windows: &[Window]) -> bool {
    let hull = hull_of(windows);
    hull.x0.abs_diff(hull.x1) > hull.y0.abs_diff(hull.y1)
}

/// Where a window begins, first along the axis on which windows are spread more.
pub(crate) fn along(window: &Window, across: bool) -> (i64, i64) {
    if across {
        return (window.x0, window.y0);
    }
    (window.y0, window.x0)
}
