//! Reads the text of a list.
ghost use Rattle.std.specs.Prelude.{◌≡◌, ◌<◌, ◌≤◌, ℕ, List, Some, length, IfOk, IfErr};
ghost use Rattle.lvl_io.specs.Bytes.{CountsFailure};
ghost use Rattle.lvl_list.specs.Text.{IsTextFault, is_read_fault};

use lvl_io::{Failure, Read};
use std::alloc::{AllocError, Global};

/// How many bytes are read at a time.
const PIECE: usize = 8192;

/// Why the text of a list isn't read.
#[derive(Clone, Copy, Debug, Drop, PartialEq, Eq)]
pub enum TextFault {
    /// It has more bytes than the limit.
    TooLong,
    /// A read failed.
    Read,
    /// An allocation failed.
    OutOfMemory,
}

impl From<AllocError> for TextFault {
    ghost use Rattle.lvl_list.specs.declared.text.TextFault.TheVariants.{OutOfMemory};

    ghost from_gives = { λ _ fault. fault ≡ OutOfMemory };

    fn from(_error: AllocError) -> TextFault {
        TextFault::OutOfMemory
    }
}

/// Reads all bytes of a reader, of which there may be at most `limit`. It fails at the first read that fails,
/// and as soon as there are more bytes.
pub fn read_text<R: Read>(alloc: Global, reader: &mut R, limit: u64) -> Result<Vec<u8>, TextFault>
    ensures whole { (xs : List ℕ) → R.remaining reader.old ≡ Some xs → IfOk result (λ text. text.items ≡ xs) }
    ensures within { IfOk result (λ text. length text.items ≤ limit) }
    ensures fault { IfErr result (λ fault. IsTextFault (R.remaining reader.old) limit fault) }
    ensures errors { CountsFailure (R.read_errors reader.old) (R.read_errors reader.new) (is_read_fault result) }
{
    let mut text = Vec::new(alloc);
    let mut piece = [0; PIECE];
    loop {
        let Ok(n) = reader.read(&mut piece) else {
            return Err(TextFault::Read);
        };
        if n == 0 {
            return Ok(text);
        }
        text.extend_from_slice(&piece[..n])?;
        if text.len() as u64 > limit {
            return Err(TextFault::TooLong);
        }
    }
}
