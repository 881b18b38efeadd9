//! The eight maps of the grid onto itself, each with a shift.
ghost use Rattle.std.specs.Prelude.{◌≡◌, ◌≤◌, ◌↔◌, IsSome, IfSome, SomeIff, if◌then◌else◌, neg_ℤ, ◌+ℤ◌, ◌^◌};
ghost use Rattle.std.specs.Prelude.{unsigned_abs, FitsSigned};
ghost use Rattle.std.specs.Int.{w64};
ghost use Rattle.lvl_grid.specs.declared.point.Point.{Point as GridPoint};
ghost use Rattle.lvl_grid.specs.Turn.{image, turned, reflected, shifted, turn_after, mirrored, FitsPoint};
ghost use Rattle.lvl_grid.specs.Placed.{placed_point};
ghost use Rattle.lvl_grid.specs.Wide.{as_point, IsSmall};
ghost use Rattle.lvl_grid.specs.Squares.{KeepsCorners};

use crate::point::Point;

/// A counterclockwise turn about the origin.
#[derive(Clone, Copy, Debug, PartialEq, Eq)]
pub enum Turn {
    R0,
    R90,
    R180,
    R270,
}

/// Reflects about the X axis if `flip` is set, then turns, then shifts by `at`, as references of
/// GDSII and placements of OASIS do.
#[derive(Clone, Copy, Debug, PartialEq, Eq)]
pub struct Map {
    pub flip: bool,
    pub turn: Turn,
    pub at: Point,
}

/// The point moved by a displacement, or None if a coordinate of it is outside 64 bits.
fn sum(point: Point, by: Point) -> Option<Point>
    ensures { SomeIff result (FitsPoint (shifted by point)) (shifted by point) }
{
    let x = point.x.checked_add(by.x)?;
    let y = point.y.checked_add(by.y)?;
    Some(Point { x, y })
}

impl Map {
    /// The displacement by which the map moves every point, if it neither reflects nor turns.
    fn displacement(&self) -> Option<Point>
        ensures { IfSome result (λ by. (p : GridPoint) → image self.now p ≡ shifted by p) }
    {
        match (self.flip, self.turn) {
            (false, Turn::R0) => Some(self.at),
            _ => None,
        }
    }

    /// The image of a point, or None if a coordinate of the image is outside 64 bits. Intermediate
    /// coordinates may be outside (own rule).
    pub fn place(&self, point: Point) -> Option<Point>
        ensures { SomeIff result (FitsPoint (image self.now point)) (image self.now point) }
    {
        // Most maps only move, and need no arithmetic in 128 bits.
        if let Some(by) = self.displacement() {
            return sum(point, by);
        }
        Wide::from_point(point).place(self)
    }

    /// The map that applies `inner`, then `self`, or None if its shift is outside 64 bits.
    pub fn then(&self, inner: &Map) -> Option<Map>
        ensures fits { IsSome result ↔ FitsPoint (image self.now inner.now.at) }
        // For every point of the unbounded grid.
        ensures composed { IfSome result (λ m. (p : GridPoint) → image m p ≡ image self.now (image inner.now p)) }
    {
        let at = self.place(inner.at)?;
        Some(Map {
            flip: self.flip != inner.flip,
            turn: self.turn.after(inner.turn.mirrored(self.flip)),
            at,
        })
    }

    /// The image of a point that is first moved by `shift`, or None if a coordinate of the image is
    /// outside 64 bits. The moved point itself may be outside.
    pub(crate) fn place_moved(&self, shift: Point, point: Point) -> Option<Point>
        ensures { SomeIff result (FitsPoint (placed_point self.now shift point)) (placed_point self.now shift point) }
    {
        if let Some(by) = self.displacement() {
            if let Some(moved) = sum(point, shift) {
                return sum(moved, by);
            }
        }
        Wide::from_point(point).moved(shift).place(self)
    }
}

/// A law, for proofs: under every map, the corners of a square's image are exactly the images of
/// its corners. The call does nothing.
pub fn corners_keep()
    ensures { KeepsCorners }
{}

impl Turn {
    /// The turn that applies `first`, then `self`.
    fn after(self, first: Turn) -> Turn
        ensures { result ≡ turn_after self first }
    {
        match self {
            Turn::R0 => first,
            Turn::R90 => first.quarter_more(),
            Turn::R180 => first.quarter_more().quarter_more(),
            Turn::R270 => first.quarter_more().quarter_more().quarter_more(),
        }
    }

    /// The turn by a further 90 degrees.
    fn quarter_more(self) -> Turn
        ensures { result ≡ turn_after Turn.R90 self }
    {
        match self {
            Turn::R0 => Turn::R90,
            Turn::R90 => Turn::R180,
            Turn::R180 => Turn::R270,
            Turn::R270 => Turn::R0,
        }
    }

    /// The opposite turn if `flip` is set: to turn and then reflect is to reflect and then turn by
    /// this one.
    fn mirrored(self, flip: bool) -> Turn
        ensures { result ≡ mirrored flip self }
    {
        match (flip, self) {
            (true, Turn::R90) => Turn::R270,
            (true, Turn::R270) => Turn::R90,
            (_, turn) => turn,
        }
    }
}

/// A point in 128 bits: maps of points of up to 65 bits don't overflow in it.
#[derive(Clone, Copy)]
struct Wide {
    x: i128,
    y: i128,
}

impl Wide {
    fn from_point(point: Point) -> Wide
        ensures same { as_point result ≡ point }
        ensures small { IsSmall 63 result }
    {
        Wide {
            x: i128::from(point.x),
            y: i128::from(point.y),
        }
    }

    fn moved(self, shift: Point) -> Wide
        requires { IsSmall 63 self }
        ensures moved { as_point result ≡ shifted shift (as_point self) }
        ensures small { IsSmall 64 result }
    {
        Wide {
            x: self.x + i128::from(shift.x),
            y: self.y + i128::from(shift.y),
        }
    }

    fn place(self, map: &Map) -> Option<Point>
        requires { IsSmall 64 self }
        ensures { SomeIff result (FitsPoint (image map.now (as_point self))) (image map.now (as_point self)) }
    {
        self.reflected(map.flip).turned(map.turn).narrowed(map.at)
    }

    fn reflected(self, flip: bool) -> Wide
        requires { IsSmall 64 self }
        ensures reflected { as_point result ≡ reflected flip (as_point self) }
        ensures small { IsSmall 64 result }
    {
        Wide {
            x: self.x,
            y: if flip { -self.y } else { self.y },
        }
    }

    fn turned(self, turn: Turn) -> Wide
        requires { IsSmall 64 self }
        ensures turned { as_point result ≡ turned turn (as_point self) }
        ensures small { IsSmall 64 result }
    {
        let Wide { x, y } = self;
        match turn {
            Turn::R0 => Wide { x, y },
            Turn::R90 => Wide { x: -y, y: x },
            Turn::R180 => Wide { x: -x, y: -y },
            Turn::R270 => Wide { x: y, y: -x },
        }
    }

    /// The point moved by `shift`, or None if a coordinate of it is outside 64 bits.
    fn narrowed(self, shift: Point) -> Option<Point>
        requires { IsSmall 64 self }
        ensures { SomeIff result (FitsPoint (shifted shift (as_point self))) (shifted shift (as_point self)) }
    {
        let x = add_narrow(self.x, shift.x)?;
        let y = add_narrow(self.y, shift.y)?;
        Some(Point { x, y })
    }
}

/// The sum, or None if it is outside 64 bits.
fn add_narrow(a: i128, b: i64) -> Option<i64>
    requires { unsigned_abs a ≤ 2 ^ 64 }
    ensures { SomeIff result (FitsSigned w64 (a +ℤ b)) (a +ℤ b) }
{
    i64::try_from(a + i128::from(b)).ok()
}
