//! Rules that are tested when a value has been read.
ghost use Rattle.std.specs.Prelude.{◌≡◌, Ok};
ghost use Rattle.oasis_values.specs.Faults.{as_breach};
ghost use Rattle.oasis_records.specs.Rules.{reported, reported_breach, plain, obeyed};

use crate::fault::{RecordFault, RecordRule};
use lvl_refusal::Cause;
use oasis_values::ValueFault;

/// The value if the rule is kept, else the rule as a fault.
pub(crate) fn must<T: Drop>(is_kept: bool, value: T, rule: RecordRule) -> Result<T, RecordFault>
    ensures { reported_breach result ≡ Ok (obeyed is_kept value rule) }
{
    if is_kept {
        Ok(value)
    } else {
        Err(RecordFault::Rule(rule))
    }
}

/// The result of a call that tests no rule of records, as one that may.
pub(crate) fn of_values<T: Drop>(
    answer: Result<T, Cause<ValueFault>>,
) -> Result<T, Cause<RecordFault>>
    ensures { reported result ≡ plain answer }
{
    match answer {
        Ok(value) => Ok(value),
        Err(Cause::Breach(fault)) => Err(Cause::Breach(RecordFault::Value(fault))),
        Err(Cause::OutOfMemory) => Err(Cause::OutOfMemory),
    }
}

/// The result of a call that neither tests a rule of records nor allocates, as one that may test one.
pub(crate) fn no_rule<T: Drop>(answer: Result<T, ValueFault>) -> Result<T, RecordFault>
    ensures { reported_breach result ≡ plain (as_breach answer) }
{
    match answer {
        Ok(value) => Ok(value),
        Err(fault) => Err(RecordFault::Value(fault)),
    }
}
