//! Windows and their corners.
ghost use Rattle.std.specs.Prelude.{◌≡◌};

use lvl_grid::{Point, Window};

/// The window from a point to the same point, which has no squares.
pub(crate) fn spot(point: Point) -> Window
    ensures { result ≡ record { x0 = point.x; y0 = point.y; x1 = point.x; y1 = point.y } }
{
    Window {
        x0: point.x,
        y0: point.y,
        x1: point.x,
        y1: point.y,
    }
}

/// The window between two corners.
pub(crate) fn between(low: Point, high: Point) -> Window
    ensures { result ≡ record { x0 = low.x; y0 = low.y; x1 = high.x; y1 = high.y } }
{
    Window {
        x0: low.x,
        y0: low.y,
        x1: high.x,
        y1: high.y,
    }
}

/// The lower left corner of a window.
pub(crate) fn low_corner(window: &Window) -> Point
    ensures { result ≡ record { x = window.now.x0; y = window.now.y0 } }
{
    Point {
        x: window.x0,
        y: window.y0,
    }
}

/// The upper right corner of a window.
pub(crate) fn high_corner(window: &Window) -> Point
    ensures { result ≡ record { x = window.now.x1; y = window.now.y1 } }
{
    Point {
        x: window.x1,
        y: window.y1,
    }
}
