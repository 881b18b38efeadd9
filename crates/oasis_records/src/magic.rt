//! The magic string at the beginning of a file.
ghost use Rattle.std.specs.Prelude.{◌≡◌, ◌<◌, ◌==◌, get_or};
ghost use Rattle.oasis_values.specs.Reads.{Reads};
ghost use Rattle.oasis_records.specs.Magic.{magic, IsMagicByte, IsMagic};
ghost use Rattle.oasis_records.specs.Rules.{reported_breach, Denies};

use crate::fault::{RecordFault, RecordRule};
use crate::rules::must;
use lvl_io::Read;
use oasis_values::Input;

/// The length of the magic string in bytes.
const LEN: usize = 13;

/// `%SEMI-OASIS`, a carriage return and a line feed.
const MAGIC: [u8; 13] = [
    b'%', b'S', b'E', b'M', b'I', b'-', b'O', b'A', b'S', b'I', b'S', b'\r', b'\n',
];

// The byte of the magic string at an index.
fn magic_byte(at: usize) -> u8
    requires { at < 13 }
    ensures { result ≡ get_or magic at 0 }
{
    MAGIC[at]
}

fn is_byte(byte: u8, wanted: u8) -> bool
    ensures { result ≡ (byte == wanted) }
{
    byte == wanted
}

// Reads one byte of the magic string.
fn read_magic_byte<R: Read>(input: &mut Input<R>, wanted: u8) -> Result<u8, RecordFault>
    ensures reads { Reads R.remaining R.read_errors R.lent
        (IsMagicByte wanted) input.old input.new (reported_breach result) }
{
    let byte = input.byte()?;
    must(is_byte(byte, wanted), byte, RecordRule::Magic)
}

/// Reads the magic string at the beginning of a file. `Magic` is reported at the first byte that
/// differs.
pub fn read_magic<R: Read>(input: &mut Input<R>) -> Result<(), RecordFault>
    ensures reads { Reads R.remaining R.read_errors R.lent IsMagic input.old input.new (reported_breach result) }
    ensures none { Denies R.remaining IsMagic input.old (reported_breach result) }
{
    for n in 0..LEN {
        let _byte = read_magic_byte(input, magic_byte(n))?;
    }
    Ok(())
}
