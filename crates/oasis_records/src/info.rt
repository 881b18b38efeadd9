//! Info bytes.
ghost use Rattle.std.specs.Prelude.{◌≡◌, nat_lt};
ghost use Rattle.oasis_values.specs.Reads.{Reads};
ghost use Rattle.oasis_records.specs.Fields.{IsInfo};
ghost use Rattle.oasis_records.specs.Rules.{reported_breach};

use crate::fault::{RecordFault, RecordRule};
use crate::rules::must;
use lvl_io::Read;
use oasis_values::Input;

fn is_below(info: u8, limit: u8) -> bool
    ensures { result ≡ nat_lt info limit }
{
    info < limit
}

/// Reads an info byte whose highest bits are reserved, so that it must be below `limit`.
pub(crate) fn read_info<R: Read>(input: &mut Input<R>, limit: u8) -> Result<u8, RecordFault>
    ensures reads { Reads R.remaining R.read_errors R.lent
        (IsInfo limit) input.old input.new (reported_breach result) }
{
    let info = input.byte()?;
    must(is_below(info, limit), info, RecordRule::Info)
}
