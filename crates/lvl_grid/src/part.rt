//! Parts of the grid, to which rings are clipped.
ghost use Rattle.std.specs.Prelude.{◌≡◌, IsTrue, All, map};
ghost use Rattle.lvl_grid.specs.Clip.{put, IsBeyond};

use crate::point::{Point, Window};

/// Some of the grid's squares: a half of the grid, or a window.
#[derive(Clone, Copy, Debug, PartialEq, Eq)]
pub enum Part {
    /// The squares with `x` less than this abscissa.
    Left(i64),
    /// The squares with `x` at least this abscissa.
    Right(i64),
    /// The squares of a window.
    Within(Window),
}

impl Part {
    /// The point with each coordinate clamped to the part, whose borders are included.
    pub fn put(&self, point: Point) -> Point
        ensures { result ≡ put self.now point }
    {
        match self {
            Part::Left(at) => Point {
                x: point.x.min(*at),
                y: point.y,
            },
            Part::Right(at) => Point {
                x: point.x.max(*at),
                y: point.y,
            },
            Part::Within(window) => Point {
                x: point.x.min(window.x1).max(window.x0),
                y: point.y.min(window.y1).max(window.y0),
            },
        }
    }

    /// Whether the point is on the part's border or beyond it. Windows aren't tested: the answer is
    /// `false`.
    fn is_beyond(&self, point: Point) -> bool
        ensures { IsTrue result → IsBeyond self.now point }
    {
        match self {
            Part::Left(at) => *at <= point.x,
            Part::Right(at) => point.x <= *at,
            Part::Within(_) => false,
        }
    }

    /// Whether all points of a ring are on the part's border or beyond it. Such a ring covers no
    /// square of the part.
    pub(crate) fn misses(&self, ring: &[Point]) -> bool
        ensures { IsTrue result → All (IsBeyond self.now) ring.now }
    {
        for point in ring {
            if !self.is_beyond(*point) {
                return false;
            }
        }
        true
    }

    /// Whether clamping to the part changes no point of the ring.
    pub(crate) fn keeps(&self, ring: &[Point]) -> bool
        ensures { IsTrue result → map (put self.now) ring.now ≡ ring.now }
    {
        for point in ring {
            if self.put(*point) != *point {
                return false;
            }
        }
        true
    }
}
