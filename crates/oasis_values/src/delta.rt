//! Deltas: displacements given by a direction and a magnitude, or by two signed coordinates.
ghost use Rattle.std.specs.Prelude.{◌≡◌, ◌<◌, ◌^◌};
ghost use Rattle.oasis_values.specs.Deltas.{direction_of, toward, free};

use crate::fault::ValueFault;
use crate::input::Input;
use crate::number::with_sign;
use lvl_grid::Point;
use lvl_io::Read;

/// The directions of deltas.
#[derive(Clone, Copy, Drop)]
pub enum Direction {
    East,
    North,
    West,
    South,
    Northeast,
    Northwest,
    Southwest,
    Southeast,
}

// The direction by its number, from 0 to 7.
fn direction_of(number: u64) -> Direction
    ensures { result ≡ direction_of number }
{
    match number {
        0 => Direction::East,
        1 => Direction::North,
        2 => Direction::West,
        3 => Direction::South,
        4 => Direction::Northeast,
        5 => Direction::Northwest,
        6 => Direction::Southwest,
        _ => Direction::Southeast,
    }
}

// The displacement by the magnitude in a direction; in a diagonal one, along each axis.
fn toward(direction: Direction, magnitude: u64) -> Point
    requires { magnitude < 2 ^ 63 }
    ensures { result ≡ toward direction magnitude }
{
    let far = magnitude as i64;
    match direction {
        Direction::East => Point { x: far, y: 0 },
        Direction::North => Point { x: 0, y: far },
        Direction::West => Point { x: -far, y: 0 },
        Direction::South => Point { x: 0, y: -far },
        Direction::Northeast => Point { x: far, y: far },
        Direction::Northwest => Point { x: -far, y: far },
        Direction::Southwest => Point { x: -far, y: -far },
        Direction::Southeast => Point { x: far, y: -far },
    }
}

// The displacement by two numbers, for x and y; the lowest bit of each is its sign.
fn free(across: u64, up: u64) -> Point
    ensures { result ≡ free across up }
{
    Point {
        x: with_sign(across),
        y: with_sign(up),
    }
}

impl<R: Read> Input<R> {
    ghost use Rattle.oasis_values.specs.Reads.{Reads, Refutes};
    ghost use Rattle.oasis_values.specs.Faults.{as_breach};
    ghost use Rattle.oasis_values.specs.Reals.{IsSigned};
    ghost use Rattle.oasis_values.specs.Deltas.{IsTwoDelta, IsThreeDelta, IsGDelta};

    /// A 1-delta, which is a signed integer.
    pub fn one_delta(&mut self) -> Result<i64, ValueFault>
        ensures reads { Reads R.remaining R.read_errors R.lent IsSigned self.old self.new (as_breach result) }
        ensures none { Refutes R.remaining IsSigned self.old (as_breach result) }
    {
        self.signed()
    }

    /// A 2-delta: the lowest two bits are a direction along an axis, and the others are the
    /// magnitude.
    pub fn two_delta(&mut self) -> Result<Point, ValueFault>
        ensures reads { Reads R.remaining R.read_errors R.lent IsTwoDelta self.old self.new (as_breach result) }
        ensures none { Refutes R.remaining IsTwoDelta self.old (as_breach result) }
    {
        let number = self.unsigned()?;
        Ok(toward(direction_of(number % 4), number / 4))
    }

    /// A 3-delta: the lowest three bits are a direction, and the others are the magnitude.
    pub fn three_delta(&mut self) -> Result<Point, ValueFault>
        ensures reads { Reads R.remaining R.read_errors R.lent IsThreeDelta self.old self.new (as_breach result) }
        ensures none { Refutes R.remaining IsThreeDelta self.old (as_breach result) }
    {
        let number = self.unsigned()?;
        Ok(toward(direction_of(number % 8), number / 8))
    }

    /// A g-delta. If the lowest bit is 0, the others are a 3-delta. If it is 1, the others are x, with the
    /// sign in their lowest bit, and a second integer is y in the same form.
    pub fn g_delta(&mut self) -> Result<Point, ValueFault>
        ensures reads { Reads R.remaining R.read_errors R.lent IsGDelta self.old self.new (as_breach result) }
        ensures none { Refutes R.remaining IsGDelta self.old (as_breach result) }
    {
        let number = self.unsigned()?;
        if number % 2 == 0 {
            return Ok(toward(direction_of(number / 2 % 8), number / 16));
        }
        let up = self.unsigned()?;
        Ok(free(number / 2, up))
    }
}
