//! Points, unit squares and windows.
ghost use Rattle.std.specs.Prelude.{◌≡◌, ◌↔◌, IsTrue, SomeIff, FitsSigned, ◌+ℤ◌, pos};
ghost use Rattle.std.specs.Int.{w64, int_min, int_max};
ghost use Rattle.lvl_grid.specs.Squares.{IsBefore};
ghost use Rattle.lvl_grid.specs.Turn.{FitsPoint, shifted};

/// A point of the grid, in grid steps.
#[derive(Clone, Copy, Debug, PartialEq, Eq)]
pub struct Point {
    pub x: i64,
    pub y: i64,
}

impl Point {
    /// The point `right` steps to the right and `up` steps up from this one, or None if a
    /// coordinate of it is outside 64 bits.
    pub fn offset(self, right: u64, up: u64) -> Option<Point>
        ensures { let far = shifted (record { x = pos right; y = pos up }) self in SomeIff result (FitsPoint far) far }
    {
        let x = offset_by(self.x, right)?;
        let y = offset_by(self.y, up)?;
        Some(Point { x, y })
    }
}

/// The sum, or None if it is outside 64 bits.
fn offset_by(a: i64, by: u64) -> Option<i64>
    ensures { SomeIff result (FitsSigned w64 (a +ℤ pos by)) (a +ℤ pos by) }
{
    i64::try_from(i128::from(a) + i128::from(by)).ok()
}

/// The unit square from `x` to `x + 1` and from `y` to `y + 1`, named by its lower left corner.
#[derive(Clone, Copy, Debug, PartialEq, Eq)]
pub struct Square {
    pub x: i64,
    pub y: i64,
}

impl Square {
    /// Whether it comes before the other: squares are ordered by `y`, then by `x` (own rule).
    pub fn is_before(self, other: Square) -> bool
        ensures { IsTrue result ↔ IsBefore self other }
    {
        self.y < other.y || self.y == other.y && self.x < other.x
    }
}

/// A rectangle of squares: those with `x0 <= x < x1` and `y0 <= y < y1`.
#[derive(Clone, Copy, Debug, PartialEq, Eq)]
pub struct Window {
    pub x0: i64,
    pub y0: i64,
    pub x1: i64,
    pub y1: i64,
}

impl Window {
    /// The least window between the corners of both, which has the squares of both.
    pub fn joined(self, other: Window) -> Window
        ensures { result ≡ record {
          x0 = int_min self.x0 other.x0;
          y0 = int_min self.y0 other.y0;
          x1 = int_max self.x1 other.x1;
          y1 = int_max self.y1 other.y1;
        } }
    {
        Window {
            x0: self.x0.min(other.x0),
            y0: self.y0.min(other.y0),
            x1: self.x1.max(other.x1),
            y1: self.y1.max(other.y1),
        }
    }
}
