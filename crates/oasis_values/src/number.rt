//! Signed integers and reals.
ghost use Rattle.std.specs.Prelude.{◌≡◌, false};
ghost use Rattle.oasis_values.specs.Known.{among};
ghost use Rattle.oasis_values.specs.Reals.{real_types, not_zero, with_sign};

use crate::fault::ValueFault;
use crate::input::Input;
use lvl_io::Read;

/// A real, as it is in the file.
#[derive(Clone, Copy, Debug, Drop, PartialEq, Eq)]
pub enum Real {
    /// A whole number.
    Whole(u64),
    /// A negative whole number.
    NegWhole(u64),
    /// One divided by a whole number, which isn't zero.
    Reciprocal(u64),
    /// The negative of such a number.
    NegReciprocal(u64),
    /// A whole number divided by another, which isn't zero.
    Ratio(u64, u64),
    /// The negative of such a number.
    NegRatio(u64, u64),
    /// The four bytes of an IEEE number, in the order of the file.
    Four([u8; 4]),
    /// The eight bytes of an IEEE number, in the order of the file.
    Eight([u8; 8]),
}

/// The types of reals.
#[derive(Clone, Copy, Drop)]
pub enum RealType {
    Whole,
    NegWhole,
    Reciprocal,
    NegReciprocal,
    Ratio,
    NegRatio,
    Four,
    Eight,
}

// The type of a real by its number.
fn real_type(number: u64) -> Option<RealType>
    ensures { result ≡ among 0 real_types number }
{
    match number {
        0 => Some(RealType::Whole),
        1 => Some(RealType::NegWhole),
        2 => Some(RealType::Reciprocal),
        3 => Some(RealType::NegReciprocal),
        4 => Some(RealType::Ratio),
        5 => Some(RealType::NegRatio),
        6 => Some(RealType::Four),
        7 => Some(RealType::Eight),
        _ => None,
    }
}

// The number, if it isn't zero.
fn not_zero(number: u64) -> Option<u64>
    ensures { result ≡ not_zero number }
{
    if number == 0 {
        return None;
    }
    Some(number)
}

// The number with the lowest bit as its sign and the others as its magnitude.
pub(crate) fn with_sign(number: u64) -> i64
    ensures { result ≡ with_sign number }
{
    let magnitude = (number / 2) as i64;
    if number % 2 == 0 {
        magnitude
    } else {
        -magnitude
    }
}

impl<R: Read> Input<R> {
    ghost use Rattle.oasis_values.specs.Input.{has_failed};
    ghost use Rattle.oasis_values.specs.Reads.{Reads, Refutes};
    ghost use Rattle.oasis_values.specs.Faults.{as_breach};
    ghost use Rattle.oasis_values.specs.Reals.{IsSigned, IsReal, IsRealOf, IsDenominator, IsBytes};

    /// A signed integer: an unsigned one whose lowest bit is the sign and whose other bits are the
    /// magnitude. Minus zero is 0.
    #[inline(always)]
    pub fn signed(&mut self) -> Result<i64, ValueFault>
        ensures reads { Reads R.remaining R.read_errors R.lent IsSigned self.old self.new (as_breach result) }
        ensures none { Refutes R.remaining IsSigned self.old (as_breach result) }
    {
        let number = self.unsigned()?;
        Ok(with_sign(number))
    }

    // An unsigned integer that isn't zero (own rule).
    fn denominator(&mut self) -> Result<u64, ValueFault>
        ensures reads { Reads R.remaining R.read_errors R.lent IsDenominator self.old self.new (as_breach result) }
    {
        let number = self.unsigned()?;
        self.known(not_zero(number), ValueFault::ZeroDenominator)
    }

    /// A real: its type from 0 to 7, and then a value of that type.
    pub fn real(&mut self) -> Result<Real, ValueFault>
        ensures reads { Reads R.remaining R.read_errors R.lent IsReal self.old self.new (as_breach result) }
        ensures none { Refutes R.remaining IsReal self.old (as_breach result) }
    {
        let number = self.unsigned()?;
        let kind = self.known(real_type(number), ValueFault::RealType)?;
        self.real_of(kind)
    }

    // A real of that type, after the type was read.
    pub(crate) fn real_of(&mut self, kind: RealType) -> Result<Real, ValueFault>
        requires { has_failed self.old ≡ false }
        ensures reads { Reads R.remaining R.read_errors R.lent (IsRealOf kind) self.old self.new (as_breach result) }
    {
        match kind {
            RealType::Whole => {
                let number = self.unsigned()?;
                Ok(Real::Whole(number))
            }
            RealType::NegWhole => {
                let number = self.unsigned()?;
                Ok(Real::NegWhole(number))
            }
            RealType::Reciprocal => {
                let below = self.denominator()?;
                Ok(Real::Reciprocal(below))
            }
            RealType::NegReciprocal => {
                let below = self.denominator()?;
                Ok(Real::NegReciprocal(below))
            }
            RealType::Ratio => {
                let above = self.unsigned()?;
                let below = self.denominator()?;
                Ok(Real::Ratio(above, below))
            }
            RealType::NegRatio => {
                let above = self.unsigned()?;
                let below = self.denominator()?;
                Ok(Real::NegRatio(above, below))
            }
            RealType::Four => {
                let bytes = self.bytes_of()?;
                Ok(Real::Four(bytes))
            }
            RealType::Eight => {
                let bytes = self.bytes_of()?;
                Ok(Real::Eight(bytes))
            }
        }
    }

    // `N` bytes of any value.
    fn bytes_of<const N: usize>(&mut self) -> Result<[u8; N], ValueFault>
        requires { has_failed self.old ≡ false }
        ensures reads { Reads R.remaining R.read_errors R.lent (IsBytes N) self.old self.new (as_breach result) }
    {
        let mut bytes = [0; N];
        for n in 0..N {
            bytes[n] = self.byte()?;
        }
        Ok(bytes)
    }
}
