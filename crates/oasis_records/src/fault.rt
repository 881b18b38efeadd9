//! Why no record was returned.
ghost use Rattle.std.specs.Prelude.{◌≡◌};

use lvl_refusal::Cause;
use oasis_values::ValueFault;
use thiserror::Error;

/// A rule of records that was breached.
#[derive(Clone, Copy, Debug, Drop, PartialEq, Eq, Error)]
pub enum RecordRule {
    /// A byte differs from that of the magic string (SEMI P39, "Magic-bytes").
    #[error("the file doesn't begin with the magic string")]
    Magic,
    /// The version isn't `1.0` (SEMI P39, "START record").
    #[error("unknown version")]
    Version,
    /// The unit is a negative whole number, reciprocal or ratio (SEMI P39, "START record").
    #[error("the unit isn't positive")]
    Unit,
    /// Records of this id aren't read (own rule).
    #[error("a record isn't read")]
    Unsupported(u64),
    /// An info byte or a scheme byte sets a reserved bit, or two bits that exclude each other; or
    /// the type of an interval is over 4, or the offset flag over 1.
    #[error("an info byte has bits that it can't have")]
    Info,
    /// An END record doesn't have 256 bytes (SEMI P39, "END record").
    #[error("the END record hasn't 256 bytes")]
    EndLength,
    /// The validation scheme is over 2 (SEMI P39, "END record").
    #[error("unknown validation scheme")]
    Scheme,
    /// The type of compression of a block isn't 0, that of DEFLATE (SEMI P39, "CBLOCK record").
    #[error("unknown type of compression")]
    CompressionType,
}

/// Why no record was returned.
#[derive(Clone, Copy, Debug, PartialEq, Eq, Error)]
pub enum RecordFault {
    /// A value couldn't be read. After this, every call returns `Failed`.
    #[error("a value of a record can't be read")]
    Value(ValueFault),
    /// The bytes taken breach a rule of records. What comes after them can still be read.
    #[error("a record breaches a rule")]
    Rule(RecordRule),
}

impl From<ValueFault> for RecordFault {
    ghost use Rattle.oasis_records.specs.declared.fault.RecordFault.TheVariants.{Value};

    ghost from_gives = { λ f e. e ≡ Value f };

    fn from(fault: ValueFault) -> RecordFault {
        RecordFault::Value(fault)
    }
}

impl From<RecordFault> for Cause<RecordFault> {
    ghost use Rattle.lvl_refusal.specs.declared.Cause.TheVariants.{Breach};

    ghost from_gives = { λ f e. e ≡ Breach f };

    fn from(fault: RecordFault) -> Cause<RecordFault> {
        Cause::Breach(fault)
    }
}
