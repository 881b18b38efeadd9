//! The sum of the changes of the marks at a point.
ghost use Rattle.std.specs.Prelude.{◌≡◌, ◌↔◌, ◌+ℤ◌, pos, IsTrue, OnOk, FitsSigned, All};
ghost use Rattle.std.specs.Int.{w8, w128};
ghost use Rattle.lvl_corners.specs.Corners.{FitsCorner};
ghost use Rattle.lvl_corners.specs.inside.Marks.{change_of};
ghost use Rattle.lvl_corners.specs.inside.Sums.{started, added, corners_of_sum, IsAt};

use crate::corner::Corner;
use crate::mark::Mark;
use crate::sink::CornerSink;
use std::alloc::AllocError;

/// A point, and the sum of the changes of some marks there.
#[derive(Clone, Copy)]
pub struct Sum {
    pub x: i64,
    pub y: i64,
    pub change: i128,
}

impl Sum {
    /// The sum of no marks, at the point of this one.
    pub(crate) fn at(mark: Mark) -> Sum
        ensures { result ≡ record { x = mark.x; y = mark.y; change = pos 0 } }
    {
        Sum {
            x: mark.x,
            y: mark.y,
            change: 0,
        }
    }

    /// The sum of one mark.
    pub(crate) fn of(mark: Mark) -> Sum
        ensures { result ≡ started mark }
    {
        Sum {
            x: mark.x,
            y: mark.y,
            change: if mark.is_plus { 1 } else { -1 },
        }
    }

    /// Whether the mark is at the point.
    pub(crate) fn is_at(self, mark: Mark) -> bool
        ensures { IsTrue result ↔ IsAt self mark }
    {
        self.x == mark.x && self.y == mark.y
    }

    /// The sum with one more mark.
    pub(crate) fn with(self, mark: Mark) -> Sum
        requires { FitsSigned w128 (self.change +ℤ change_of mark) }
        ensures { result ≡ added self mark }
    {
        let change = if mark.is_plus {
            self.change + 1
        } else {
            self.change - 1
        };
        Sum { change, ..self }
    }

    /// Sends the corner at the point to a sink, if the sum isn't 0.
    pub(crate) fn send<S: CornerSink>(self, sink: &mut S) -> Result<(), AllocError>
        requires { FitsSigned w8 self.change }
        ensures received { OnOk result (S.takes sink.old sink.new (corners_of_sum self)) }
        ensures fits { OnOk result (All FitsCorner (corners_of_sum self)) }
    {
        if self.change == 0 {
            return Ok(());
        }
        sink.take(Corner {
            x: self.x,
            y: self.y,
            change: self.change as i8,
        })?;
        Ok(())
    }
}
