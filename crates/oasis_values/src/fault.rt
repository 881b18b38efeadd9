//! Why no value was returned.
ghost use Rattle.std.specs.Prelude.{◌≡◌};

use lvl_refusal::Cause;
use thiserror::Error;

/// Why no value was returned. After any of these, every call except `offset` returns `Failed`.
#[derive(Clone, Copy, Debug, PartialEq, Eq, Error)]
pub enum ValueFault {
    /// The input ends within the value.
    #[error("the input ends in a value")]
    Truncated,
    /// An unsigned integer isn't below 2^64: its tenth byte is above 1 (own rule). If padding is
    /// ignored: its tenth or a later group is too large, or its 256th byte doesn't end it.
    #[error("an integer is 2^64 or more")]
    IntegerTooLarge,
    /// A string is empty although its kind doesn't allow it, is too long, or has a byte that its kind
    /// doesn't allow.
    #[error("a string has a length or a byte that it can't have")]
    StringByte,
    /// The type of a real is over 7, or the type of a property's value is over 15.
    #[error("a real has an unknown type")]
    RealType,
    /// A denominator is 0 (own rule).
    #[error("a real has the denominator 0")]
    ZeroDenominator,
    /// The type of a point list is over 5.
    #[error("a point list has an unknown type")]
    PointListType,
    /// A point list has too many or too few deltas (own rule), or an odd number of them in a
    /// polygon of type 0 or 1.
    #[error("a point list has a count that it can't have")]
    PointCount,
    /// The type of a repetition is over 11.
    #[error("a repetition has an unknown type")]
    RepetitionType,
    /// A repetition that is a lattice has more places than the limits allow (own rule).
    #[error("a repetition has too many places")]
    RepetitionSize,
    /// A repetition that lists its places has too many of them, within any limits (own rule).
    #[error("a repetition lists too many places")]
    ListSize,
    /// A vertex, a step or a shift doesn't fit in 64 signed bits (own rule).
    #[error("a coordinate is outside 64 bits")]
    OutOfRange,
    /// The input is longer than a file may be (own rule).
    #[error("the input is too long")]
    TooLong,
    /// The reader returned an error during this call.
    #[error("the input couldn't be read")]
    Read,
    /// An earlier call failed.
    #[error("an earlier value had a fault")]
    Failed,
    /// A repetition has type 0, but there is no modal repetition.
    #[error("there is no repetition to use again")]
    NoModal,
}

impl From<ValueFault> for Cause<ValueFault> {
    ghost use Rattle.lvl_refusal.specs.declared.Cause.TheVariants.{Breach};

    ghost from_gives = { λ f e. e ≡ Breach f };

    fn from(fault: ValueFault) -> Cause<ValueFault> {
        Cause::Breach(fault)
    }
}
