//! Strings of records.
ghost use Rattle.std.specs.Prelude.{◌≡◌};
ghost use Rattle.oasis_values.specs.Reads.{Reads};
ghost use Rattle.oasis_values.specs.Texts.{IsString};

use lvl_io::Read;
use lvl_refusal::Cause;
use oasis_values::{Input, Text, ValueFault};
use std::alloc::Global;
use std::marker::Model;

/// The greatest length of a name or a version in bytes (own rule).
pub(crate) const MOST_BYTES: usize = 255;

/// A string in a record.
#[derive(Debug, Drop)]
pub struct Name {
    bytes: Vec<u8>,
}

impl Model for Name {
    ghost use Rattle.std.specs.Prelude.{ℕ, List};

    ghost Value = { List ℕ };

    ghost view = { λ n. n.bytes.items };
}

impl Name {
    /// The bytes.
    pub fn into_bytes(self) -> Vec<u8>
        ensures { result.items ≡ self }
    {
        let Name { bytes } = self;
        bytes
    }

    /// The bytes, to look at.
    pub fn as_bytes(&self) -> &[u8]
        ensures { result.now ≡ self.now }
    {
        self.bytes.as_slice()
    }
}

/// Reads a string of that kind.
pub(crate) fn read_text<R: Read>(
    input: &mut Input<R>,
    alloc: Global,
    kind: Text,
) -> Result<Name, Cause<ValueFault>>
    ensures reads { Reads R.remaining R.read_errors R.lent (IsString kind 255) input.old input.new result }
{
    let bytes = input.string(alloc, kind, MOST_BYTES)?;
    Ok(Name { bytes })
}
