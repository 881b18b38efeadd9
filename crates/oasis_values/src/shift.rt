//! The shifts of a repetition: each is the one before it, moved by a space.
ghost use Rattle.std.specs.Prelude.{◌≡◌};
ghost use Rattle.oasis_values.specs.Repetitions.{stepped, moved, space, widened};

use crate::fault::ValueFault;
use crate::input::Input;
use lvl_grid::Point;
use lvl_io::Read;

/// How the spaces of a repetition are given.
#[derive(Clone, Copy, Drop)]
pub enum Spacing {
    /// Unsigned spaces along x.
    AlongX,
    /// Unsigned spaces along y.
    AlongY,
    /// g-deltas, in any direction.
    Free,
}

/// A space, which may be greater than a coordinate.
#[derive(Clone, Copy, Drop)]
pub struct Far {
    x: i128,
    y: i128,
}

// The coordinate moved by `times` times a space; `None` if it doesn't fit in 64 bits.
fn stepped(before: i64, by: i128, times: u64) -> Option<i64>
    ensures { result ≡ stepped before by times }
{
    let far = i128::from(times).checked_mul(by)?;
    let at = far.checked_add(i128::from(before))?;
    i64::try_from(at).ok()
}

// The shift moved by `times` times a space; `None` if it doesn't fit in 64 bits.
fn moved(before: Point, by: Far, times: u64) -> Option<Point>
    ensures { result ≡ moved before by times }
{
    let x = stepped(before.x, by.x, times)?;
    let y = stepped(before.y, by.y, times)?;
    Some(Point { x, y })
}

// A space along an axis.
fn space(along_x: bool, far: u64) -> Far
    ensures { result ≡ space along_x far }
{
    let far = i128::from(far);
    if along_x {
        Far { x: far, y: 0 }
    } else {
        Far { x: 0, y: far }
    }
}

// A g-delta as a space.
fn widened(delta: Point) -> Far
    ensures { result ≡ widened delta }
{
    Far {
        x: i128::from(delta.x),
        y: i128::from(delta.y),
    }
}

impl<R: Read> Input<R> {
    ghost use Rattle.oasis_values.specs.Reads.{Reads};
    ghost use Rattle.oasis_values.specs.Faults.{as_breach};
    ghost use Rattle.oasis_values.specs.Repetitions.{IsSpaceAlong, IsSpaceFree, IsSpace, IsShift};

    // A space.
    fn space(&mut self, spacing: Spacing) -> Result<Far, ValueFault>
        ensures reads { Reads R.remaining R.read_errors R.lent (IsSpace spacing) self.old self.new (as_breach result) }
    {
        match spacing {
            Spacing::AlongX => self.space_along(true),
            Spacing::AlongY => self.space_along(false),
            Spacing::Free => self.space_free(),
        }
    }

    // An unsigned space along an axis.
    fn space_along(&mut self, along_x: bool) -> Result<Far, ValueFault>
        ensures reads { Reads R.remaining R.read_errors R.lent
            (IsSpaceAlong along_x) self.old self.new (as_breach result) }
    {
        let far = self.unsigned()?;
        Ok(space(along_x, far))
    }

    // A g-delta as a space.
    fn space_free(&mut self) -> Result<Far, ValueFault>
        ensures reads { Reads R.remaining R.read_errors R.lent IsSpaceFree self.old self.new (as_breach result) }
    {
        let delta = self.g_delta()?;
        Ok(widened(delta))
    }

    // The next shift: the one before it, moved by a space times the grid.
    pub(crate) fn shift(
        &mut self,
        spacing: Spacing,
        grid: u64,
        before: Point,
    ) -> Result<Point, ValueFault>
        ensures reads { Reads R.remaining R.read_errors R.lent
            (IsShift spacing grid before) self.old self.new (as_breach result) }
    {
        let by = self.space(spacing)?;
        self.known(moved(before, by, grid), ValueFault::OutOfRange)
    }
}
