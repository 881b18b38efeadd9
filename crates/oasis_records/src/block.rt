//! CBLOCK records, which are kept as they are packed.
ghost use Rattle.std.specs.Prelude.{◌≡◌, ◌==◌};
ghost use Rattle.oasis_values.specs.Reads.{Reads};
ghost use Rattle.oasis_records.specs.Blocks.{IsBlock, IsBlockOf, IsCompression};
ghost use Rattle.oasis_records.specs.Rules.{reported, reported_breach};

use crate::fault::{RecordFault, RecordRule};
use crate::record::Record;
use crate::rules::{must, of_values};
use lvl_io::Read;
use lvl_refusal::Cause;
use oasis_blocks::read_packed;
use oasis_values::{Input, ValueFault};
use std::alloc::Global;

/// The type of compression of DEFLATE.
const DEFLATE: u64 = 0;

fn is_deflate(compression: u64) -> bool
    ensures { result ≡ (compression == 0) }
{
    compression == DEFLATE
}

// Reads the type of compression.
fn read_compression<R: Read>(input: &mut Input<R>) -> Result<u64, RecordFault>
    ensures reads { Reads R.remaining R.read_errors R.lent
        IsCompression input.old input.new (reported_breach result) }
{
    let compression = input.unsigned()?;
    must(
        is_deflate(compression),
        compression,
        RecordRule::CompressionType,
    )
}

// Reads the fields after the type of compression.
fn block_of<R: Read>(input: &mut Input<R>, alloc: Global) -> Result<Record, Cause<ValueFault>>
    ensures reads { Reads R.remaining R.read_errors R.lent IsBlockOf input.old input.new result }
{
    let block = read_packed(input, alloc)?;
    Ok(Record::Block(block))
}

/// Reads a CBLOCK record after its id. It doesn't unpack it.
pub(crate) fn read_block<R: Read>(
    input: &mut Input<R>,
    alloc: Global,
) -> Result<Record, Cause<RecordFault>>
    ensures reads { Reads R.remaining R.read_errors R.lent IsBlock input.old input.new (reported result) }
{
    let _compression = read_compression(input)?;
    of_values(block_of(input, alloc))
}
