//! The length of a grid step.
ghost use Rattle.std.specs.Prelude.{◌≡◌, ◌<◌, ◌≤◌, ◌↔◌, ◌+◌, ◌*◌, ◌^◌, IsTrue, IfSome, IsNone};
ghost use Rattle.std.specs.Int.{w64, from_be_bytes};
ghost use Rattle.lvl_units.specs.Steps.{Fraction, IsReadable, IsGdsStep, IsDoubleStep, IsFloatStep, IsOasisStep};
ghost use Rattle.lvl_units.specs.Steps.{AreApart, IsGreaterBy, IsNearest};

use crate::fraction::is_greater;
use oasis_values::Real;
use std::marker::Model;

/// Millionths of a nanometre in a metre.
const MILLIONTHS: u128 = 1_000_000_000_000_000;

/// Micrometres in a metre.
const MICROMETRES: u128 = 1_000_000;

/// The length of a step of a file's grid, as an exact fraction of a metre: at least a millionth of a nanometre, and at
/// most a metre (own rule).
#[derive(Clone, Copy, Debug)]
pub struct GridStep {
    numerator: u128,
    denominator: u128,
}

impl Model for GridStep {
    ghost use Rattle.lvl_units.specs.Steps.{Fraction};

    ghost Value = { Fraction };

    ghost use Rattle.lvl_units.specs.inside.Kept.{fraction_of, IsKept, step_of};

    ghost view = { fraction_of };

    ghost invariant = { IsKept };

    ghost inverse = { step_of };
}

/// The length of this fraction of a metre, if it is readable.
fn step(numerator: u128, denominator: u128) -> Option<GridStep>
    requires numerator { numerator < 2 ^ 74 }
    requires denominator { denominator < 2 ^ 106 }
    requires some { 0 < denominator }
    ensures value { IfSome result (λ step. step ≡ record { numerator = numerator; denominator = denominator }) }
    ensures none { IsNone result → ¬ IsReadable (record { numerator = numerator; denominator = denominator }) }
{
    if numerator > denominator || denominator > numerator * MILLIONTHS {
        return None;
    }
    Some(GridStep {
        numerator,
        denominator,
    })
}

/// The length of a step, given that there are `steps / parts` of them in a micrometre.
fn part_of_micrometre(parts: u64, steps: u64) -> Option<GridStep>
    ensures value { IfSome result (IsOasisStep (Real.Ratio steps parts)) }
    ensures none { IsNone result → (f : Fraction) → IsOasisStep (Real.Ratio steps parts) f → ¬ IsReadable f }
{
    if steps == 0 {
        return None;
    }
    step(parts as u128, steps as u128 * MICROMETRES)
}

/// The length of a step, given steps in a micrometre as a number of IEEE 754 of 64 bits.
fn of_double(bits: u64) -> Option<GridStep>
    ensures value { IfSome result (IsDoubleStep bits) }
    ensures none { IsNone result → (f : Fraction) → IsDoubleStep bits f → ¬ IsReadable f }
{
    const ONE: u64 = 1 << 52;
    let exponent = bits / ONE;
    if exponent < 1003 || exponent > 1052 {
        return None;
    }
    let significand = (ONE + bits % ONE) as u128;
    step(
        2u128.pow((1075 - exponent) as u32),
        significand * MICROMETRES,
    )
}

/// The length of a step, given steps in a micrometre as a number of IEEE 754 of 32 bits.
fn of_float(bits: u32) -> Option<GridStep>
    ensures value { IfSome result (IsFloatStep bits) }
    ensures none { IsNone result → (f : Fraction) → IsFloatStep bits f → ¬ IsReadable f }
{
    const ONE: u32 = 1 << 23;
    let exponent = bits / ONE;
    if exponent < 107 || exponent > 156 {
        return None;
    }
    let significand = (ONE + bits % ONE) as u128;
    step(2u128.pow(157 - exponent), significand * 128 * MICROMETRES)
}

/// The length of a step, given metres as a real of GDSII.
fn of_excess_64(bits: u64) -> Option<GridStep>
    ensures value { IfSome result (IsGdsStep bits) }
    ensures none { IsNone result → (f : Fraction) → IsGdsStep bits f → ¬ IsReadable f }
{
    const ONE: u64 = 1 << 56;
    let exponent = bits / ONE;
    if exponent < 52 || exponent > 78 {
        return None;
    }
    let fraction = bits % ONE;
    step(fraction as u128, 16u128.pow((78 - exponent) as u32))
}

impl GridStep {
    /// The length of a step of a GDSII file, by the bytes of the second real of UNITS: metres in a step. None if it is
    /// zero, negative or out of range.
    pub fn of_gds(real: [u8; 8]) -> Option<GridStep>
        ensures value { IfSome result (IsGdsStep (from_be_bytes w64 real)) }
        ensures readable { IfSome result IsReadable }
        ensures none { IsNone result → (f : Fraction) → IsGdsStep (from_be_bytes w64 real) f → ¬ IsReadable f }
    {
        of_excess_64(u64::from_be_bytes(real))
    }

    /// The length of a step of an OASIS file, by its unit: steps in a micrometre. None if it is zero, negative, no
    /// number or out of range.
    pub fn of_oasis(unit: &Real) -> Option<GridStep>
        ensures value { IfSome result (IsOasisStep unit.now) }
        ensures readable { IfSome result IsReadable }
        ensures none { IsNone result → (f : Fraction) → IsOasisStep unit.now f → ¬ IsReadable f }
    {
        match *unit {
            Real::Whole(steps) => part_of_micrometre(1, steps),
            Real::Reciprocal(parts) => part_of_micrometre(parts, 1),
            Real::Ratio(steps, parts) => part_of_micrometre(parts, steps),
            Real::Four(bytes) => of_float(u32::from_le_bytes(bytes)),
            Real::Eight(bytes) => of_double(u64::from_le_bytes(bytes)),
            Real::NegWhole(_) | Real::NegReciprocal(_) | Real::NegRatio(_, _) => None,
        }
    }

    // Whether this step is greater than the other by more than one part in 2^32.
    fn is_greater_by(self, other: GridStep) -> bool
        ensures { IsTrue result ↔ IsGreaterBy self other }
    {
        is_greater(
            self.numerator * 0xffff_ffff,
            self.denominator,
            other.numerator * 0x1_0000_0000,
            other.denominator,
        )
    }

    /// Whether two steps differ: whether they are further apart than one part in 2^32 (own rule).
    pub fn is_apart(self, other: GridStep) -> bool
        ensures { IsTrue result ↔ AreApart self other }
    {
        self.is_greater_by(other) || other.is_greater_by(self)
    }

    /// The nearest number of millionths of a nanometre.
    pub fn millionths(self) -> u64
        ensures { IsNearest self result }
    {
        let doubled = 2 * (self.numerator * MILLIONTHS) + self.denominator;
        (doubled / (2 * self.denominator)) as u64
    }
}
