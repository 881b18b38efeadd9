//! Reads a block, packed as it is.
ghost use Rattle.std.specs.Prelude.{◌≡◌};
ghost use Rattle.oasis_values.specs.Reads.{Reads, Refutes};
ghost use Rattle.oasis_blocks.specs.Blocks.{IsPacked};

use lvl_io::Read;
use lvl_refusal::Cause;
use oasis_values::{Input, Text, ValueFault};
use std::alloc::Global;
use std::marker::Model;

/// A compressed block: how many bytes it has, and these bytes as they are packed.
#[derive(Debug, Drop)]
pub struct Block {
    pub(crate) count: u64,
    pub(crate) bytes: Vec<u8>,
}

impl Model for Block {
    ghost use Rattle.oasis_blocks.specs.Packed.{Packed, packed};

    ghost Value = { Packed };

    ghost view = { λ b. packed b.count b.bytes.items };
}

impl Block {
    /// How many bytes it has, unpacked, as it says.
    pub fn count(&self) -> u64
        ensures { result ≡ self.now.count }
    {
        self.count
    }
}

/// Reads a block after its type of compression (SEMI P39, "CBLOCK record"). It takes all packed bytes, whatever
/// they are, and doesn't unpack them.
pub fn read_packed<R: Read>(input: &mut Input<R>, alloc: Global) -> Result<Block, Cause<ValueFault>>
    ensures reads { Reads R.remaining R.read_errors R.lent IsPacked input.old input.new result }
    ensures none { Refutes R.remaining IsPacked input.old result }
{
    let count = input.unsigned()?;
    let bytes = input.string(alloc, Text::B, usize::MAX)?;
    Ok(Block { count, bytes })
}
