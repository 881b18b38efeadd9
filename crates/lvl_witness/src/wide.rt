//! Points in 128 bits: in the coordinates of a placed cell, a point of the top may be outside 64.
ghost use Rattle.std.specs.Prelude.{◌≡◌, ◌↔◌};
ghost use Rattle.lvl_grid.specs.declared.point.Square.{Square as GridSquare};
ghost use Rattle.lvl_grid.specs.Turn.{image, image_square, shifted, turned, reflected};
ghost use Rattle.lvl_cells.specs.Coverage.{moved_back};
ghost use Rattle.lvl_witness.specs.Wide.{as_point};
ghost use Rattle.lvl_witness.specs.inside.Wide.{as_square, turned_back, reflected_back, IsSmall};
ghost use Rattle.lvl_witness.specs.inside.Wide.{lesser_of, greater_of};

use lvl_grid::{Map, Point, Square, Turn};

/// A point of the grid, in grid steps, or the unit square of which it is the lower left corner. In the
/// coordinates of a placed cell it may be outside 64 bits.
#[derive(Clone, Copy, Debug, PartialEq, Eq)]
pub struct WidePoint {
    pub x: i128,
    pub y: i128,
}

impl WidePoint {
    pub(crate) fn from_point(point: Point) -> WidePoint
        ensures same { as_point result ≡ point }
        ensures small { IsSmall 63 result }
    {
        WidePoint {
            x: i128::from(point.x),
            y: i128::from(point.y),
        }
    }

    /// The point reflected about the X axis if the flag is set.
    fn reflected(self, flip: bool) -> WidePoint
        requires { IsSmall 63 self }
        ensures reflected { as_point result ≡ reflected flip (as_point self) }
        ensures small { IsSmall 63 result }
    {
        WidePoint {
            x: self.x,
            y: if flip { -self.y } else { self.y },
        }
    }

    /// The point turned about the origin.
    fn turned(self, turn: Turn) -> WidePoint
        requires { IsSmall 63 self }
        ensures turned { as_point result ≡ turned turn (as_point self) }
        ensures small { IsSmall 63 result }
    {
        let WidePoint { x, y } = self;
        match turn {
            Turn::R0 => WidePoint { x, y },
            Turn::R90 => WidePoint { x: -y, y: x },
            Turn::R180 => WidePoint { x: -x, y: -y },
            Turn::R270 => WidePoint { x: y, y: -x },
        }
    }

    /// The point moved by a displacement.
    pub(crate) fn moved(self, by: Point) -> WidePoint
        requires { IsSmall 63 self }
        ensures moved { as_point result ≡ shifted by (as_point self) }
        ensures small { IsSmall 64 result }
    {
        WidePoint {
            x: self.x + i128::from(by.x),
            y: self.y + i128::from(by.y),
        }
    }

    /// The square that the turn turns to this one.
    fn turned_back(self, turn: Turn) -> WidePoint
        requires { IsSmall 64 self }
        ensures square { as_square result ≡ turned_back turn (as_square self) }
        ensures small { IsSmall 65 result }
    {
        let WidePoint { x, y } = self;
        match turn {
            Turn::R0 => WidePoint { x, y },
            Turn::R90 => WidePoint { x: y, y: -1 - x },
            Turn::R180 => WidePoint {
                x: -1 - x,
                y: -1 - y,
            },
            Turn::R270 => WidePoint { x: -1 - y, y: x },
        }
    }

    /// The square that is reflected to this one if the flag is set.
    fn reflected_back(self, flip: bool) -> WidePoint
        requires { IsSmall 65 self }
        ensures square { as_square result ≡ reflected_back flip (as_square self) }
        ensures small { IsSmall 66 result }
    {
        WidePoint {
            x: self.x,
            y: if flip { -1 - self.y } else { self.y },
        }
    }

    /// The point with the lesser abscissa and the lesser ordinate of two points.
    pub(crate) fn lesser(self, other: WidePoint) -> WidePoint
        requires first { IsSmall 66 self }
        requires second { IsSmall 66 other }
        ensures lesser { as_point result ≡ lesser_of (as_point self) (as_point other) }
        ensures small { IsSmall 66 result }
    {
        WidePoint {
            x: self.x.min(other.x),
            y: self.y.min(other.y),
        }
    }

    /// The point with the greater abscissa and the greater ordinate of two points.
    pub(crate) fn greater(self, other: WidePoint) -> WidePoint
        requires first { IsSmall 66 self }
        requires second { IsSmall 66 other }
        ensures greater { as_point result ≡ greater_of (as_point self) (as_point other) }
        ensures small { IsSmall 66 result }
    {
        WidePoint {
            x: self.x.max(other.x),
            y: self.y.max(other.y),
        }
    }
}

/// The image of a point.
pub(crate) fn placed(map: &Map, point: Point) -> WidePoint
    ensures image { as_point result ≡ image map.now point }
    ensures small { IsSmall 66 result }
{
    WidePoint::from_point(point)
        .reflected(map.flip)
        .turned(map.turn)
        .moved(map.at)
}

/// The square less a displacement.
fn taken_back(square: Square, by: Point) -> WidePoint
    ensures square { as_square result ≡ moved_back by square }
    ensures small { IsSmall 64 result }
{
    WidePoint {
        x: i128::from(square.x) - i128::from(by.x),
        y: i128::from(square.y) - i128::from(by.y),
    }
}

/// The square whose image is this one.
pub(crate) fn pulled(map: &Map, square: Square) -> WidePoint
    ensures square { (t : GridSquare) → (image_square map.now t ≡ square) ↔ (t ≡ as_square result) }
    ensures small { IsSmall 66 result }
{
    taken_back(square, map.at)
        .turned_back(map.turn)
        .reflected_back(map.flip)
}
