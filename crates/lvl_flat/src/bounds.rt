//! Boxes of points.
ghost use Rattle.std.specs.Prelude.{◌≡◌, IfSome, IsTrue};
ghost use Rattle.lvl_grid.specs.declared.point.Point.{Point as GridPoint};
ghost use Rattle.lvl_grid.specs.Turn.{image, shifted, FitsPoint};
ghost use Rattle.lvl_flat.specs.Boxes.{HoldsPoint, FitsBounds};
ghost use Rattle.lvl_flat.specs.inside.Bounds.{Widens, IsBeside, IsOutside, IsInside};
ghost use Rattle.lvl_flat.specs.inside.Passing.{IsSpreadOutside};

use lvl_grid::{Map, Point, Window};

/// A box: the points from the lower left corner to the upper right one, borders included.
#[derive(Clone, Copy, Debug)]
pub(crate) struct Bounds {
    pub low: Point,
    pub high: Point,
}

impl Bounds {
    /// A box that has no point.
    pub(crate) const NOWHERE: Bounds = Bounds {
        low: Point {
            x: i64::MAX,
            y: i64::MAX,
        },
        high: Point {
            x: i64::MIN,
            y: i64::MIN,
        },
    };

    /// The box of one point.
    pub(crate) fn around(point: Point) -> Bounds
        ensures { HoldsPoint result point }
    {
        Bounds {
            low: point,
            high: point,
        }
    }

    /// The box of all points of 64 bits.
    pub(crate) fn grid() -> Bounds
        ensures { (p : GridPoint) → FitsPoint p → HoldsPoint result p }
    {
        Bounds {
            low: Point {
                x: i64::MIN,
                y: i64::MIN,
            },
            high: Point {
                x: i64::MAX,
                y: i64::MAX,
            },
        }
    }

    /// The squares in the box.
    pub(crate) fn window(self) -> Window
        ensures { result ≡ record { x0 = self.low.x; y0 = self.low.y; x1 = self.high.x; y1 = self.high.y } }
    {
        Window {
            x0: self.low.x,
            y0: self.low.y,
            x1: self.high.x,
            y1: self.high.y,
        }
    }

    /// A box that has all points of both.
    pub(crate) fn joined(self, other: Bounds) -> Bounds
        ensures first { Widens self result }
        ensures second { Widens other result }
    {
        Bounds {
            low: Point {
                x: self.low.x.min(other.low.x),
                y: self.low.y.min(other.low.y),
            },
            high: Point {
                x: self.high.x.max(other.high.x),
                y: self.high.y.max(other.high.y),
            },
        }
    }

    /// A box that has all points of this one after a move by any displacement in `by`, or None if
    /// it is outside 64 bits.
    pub(crate) fn moved(self, by: Bounds) -> Option<Bounds>
        ensures { IfSome result
            (λ bounds. (p e : GridPoint) → HoldsPoint self p → HoldsPoint by e → HoldsPoint bounds (shifted e p)) }
    {
        Some(Bounds {
            low: Point {
                x: self.low.x.checked_add(by.low.x)?,
                y: self.low.y.checked_add(by.low.y)?,
            },
            high: Point {
                x: self.high.x.checked_add(by.high.x)?,
                y: self.high.y.checked_add(by.high.y)?,
            },
        })
    }

    /// A box that has the images of all points of this one, or None if it is outside 64 bits.
    pub(crate) fn placed(self, map: &Map) -> Option<Bounds>
        ensures held { IfSome result
            (λ bounds. (p : GridPoint) → HoldsPoint self p → HoldsPoint bounds (image map.now p)) }
        ensures fits { IfSome result FitsBounds }
    {
        let low = map.place(self.low)?;
        let high = map.place(self.high)?;
        Some(Bounds::around(low).joined(Bounds::around(high)))
    }

    /// Whether the box is on one side of the window.
    pub(crate) fn is_beside(self, window: &Window) -> bool
        ensures { IsTrue result → IsBeside self window.now }
    {
        if self.high.x <= window.x0 || window.x1 <= self.low.x {
            return true;
        }
        self.high.y <= window.y0 || window.y1 <= self.low.y
    }

    /// Whether the box and the window don't overlap, so that no square of the box is in the window.
    pub(crate) fn misses(self, window: &Window) -> bool
        ensures { IsTrue result → IsOutside self window.now }
    {
        self.is_beside(window)
    }

    /// Whether the box, after a move by any displacement in `by` and mapped, is within 64 bits and
    /// has no square of the window. `false` says nothing.
    pub(crate) fn misses_moved(self, by: Bounds, map: &Map, window: &Window) -> bool
        ensures { IsTrue result → IsSpreadOutside self by map.now window.now }
    {
        let Some(moved) = self.moved(by) else {
            return false;
        };
        let Some(placed) = moved.placed(map) else {
            return false;
        };
        placed.misses(window)
    }

    /// Whether the box is in the window, so that each of its squares is.
    pub(crate) fn is_inside(self, window: &Window) -> bool
        ensures { IsTrue result → IsInside self window.now }
    {
        if window.x0 <= self.low.x
            && self.high.x <= window.x1
            && window.y0 <= self.low.y
            && self.high.y <= window.y1
        {
            return true;
        }
        false
    }
}
