//! Integers with the number of bytes that were taken for them.
ghost use Rattle.std.specs.Prelude.{◌≡◌};
ghost use Rattle.oasis_values.specs.Faults.{as_breach};
ghost use Rattle.oasis_values.specs.Numbers.{IsUnsigned};
ghost use Rattle.oasis_values.specs.Reads.{Reads, Refutes};
ghost use Rattle.oasis_records.specs.Sizes.{Sized};

use lvl_io::Read;
use oasis_values::{Input, ValueFault};

/// An unsigned integer, and how many bytes were taken for it and for what was read before it.
#[derive(Clone, Copy, Debug, Drop, PartialEq, Eq)]
pub struct Measured {
    pub value: u64,
    /// In bytes.
    pub len: u64,
}

/// Reads the id of the next record (SEMI P39, "Records").
pub fn read_id<R: Read>(input: &mut Input<R>) -> Result<Measured, ValueFault>
    ensures reads { Reads R.remaining R.read_errors R.lent
        (Sized IsUnsigned) input.old input.new (as_breach result) }
    ensures none { Refutes R.remaining (Sized IsUnsigned) input.old (as_breach result) }
{
    let start = input.offset();
    let value = input.unsigned()?;
    Ok(Measured {
        value,
        len: input.offset() - start,
    })
}
