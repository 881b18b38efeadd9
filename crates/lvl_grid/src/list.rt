//! Lists of rings that are read by index.
ghost use Rattle.std.specs.Prelude.{◌≡◌, ◌<◌, List, [], length, get_or};
ghost use Rattle.lvl_grid.specs.declared.point.Point.{Point as GridPoint};
ghost use Rattle.lvl_grid.specs.Winding.{IsRing};

use crate::point::Point;
use crate::ring::Ring;

/// A list of rings that can be read by index: a slice of [`Ring`], or [`crate::Rings`].
pub trait RingList {
    /// Its rings, in order.
    ghost rings: { Self → List (List GridPoint) };

    /// The number of rings.
    fn len(&self) -> usize
        ensures { result ≡ length (rings self.now) };

    /// The points of the ring at this index, in order.
    fn ring(&self, i: usize) -> &[Point]
        requires { i < length (rings self.now) }
        ensures value { result.now ≡ get_or (rings self.now) i [] }
        ensures ring { IsRing result.now };
}

impl RingList for &[Ring] {
    ghost rings = { λ s. s.now };

    fn len(&self) -> usize {
        <[Ring]>::len(self)
    }

    fn ring(&self, i: usize) -> &[Point] {
        self[i].points()
    }
}
