//! Skips zero bytes at the front.
ghost use Rattle.std.specs.Prelude.{◌≡◌, ◌==◌, ◌^◌, ◌<◌, ◌≤◌, ◌++◌, [], length, replicate};
ghost use Rattle.std.specs.List.{prefix_len};
ghost use Rattle.std.specs.Io.KnownBytes.{prepend_known};
ghost use Rattle.lvl_io.specs.Bytes.{CountsFailure};
ghost use Rattle.gds_records.specs.Tail.{IsNoZeroFirst, TakesZeros, is_failure};

use lvl_io::{Buffer, Read};

/// What comes after zero bytes.
#[derive(Clone, Copy)]
pub enum After {
    /// Nothing: the input ends.
    Nothing,
    /// A byte that isn't zero.
    Another,
    /// A byte beyond the limit.
    Limit,
    /// The reader returned an error.
    Failure,
}

// How many bytes at the front are zero.
fn leading_zeros(bytes: &[u8]) -> usize
    ensures { result ≡ prefix_len (λ b. b == 0) bytes.now }
{
    bytes.iter().take_while(|b| **b == 0).count()
}

// Skips zero bytes that are ahead, at most `most`, and returns how many.
fn skip_ahead(ahead: &mut Buffer<65536>, most: u64) -> u64
    ensures zeros { ahead.old ≡ replicate result 0 ++ ahead.new }
    ensures most { result ≤ most }
    ensures all { result < most → IsNoZeroFirst ahead.new }
{
    let zeros = leading_zeros(ahead.ahead()) as u64;
    let n = zeros.min(most);
    ahead.skip(n as usize);
    n
}

// Skips at most `room` zero bytes, and returns how many, and what comes after them.
pub(crate) fn skip_zeros<R: Read>(
    reader: &mut R,
    ahead: &mut Buffer<65536>,
    room: u64,
) -> (u64, After)
    ensures zeros { TakesZeros result.1 result.0 room (prepend_known ahead.old (R.remaining reader.old))
        (prepend_known ahead.new (R.remaining reader.new)) }
    ensures within { result.0 ≤ room }
    ensures another { result.1 ≡ After.Another → 0 < length ahead.new }
    ensures limit { result.1 ≡ After.Limit → (result.0 ≡ room) × (0 < length ahead.new) }
    ensures starved { result.1 ≡ After.Failure → ahead.new ≡ [] }
    ensures errors { CountsFailure (R.read_errors reader.old) (R.read_errors reader.new)
        (is_failure result.1) }
    ensures same { R.lent reader.new ≡ R.lent reader.old }
{
    let mut taken = 0;
    'zeros: loop {
        match ahead.fill(reader, 1) {
            Ok(true) => {}
            Ok(false) => return (taken, After::Nothing),
            Err(_) => return (taken, After::Failure),
        }
        taken += skip_ahead(ahead, room - taken);
        if ahead.len() > 0 {
            let after = if taken < room {
                After::Another
            } else {
                After::Limit
            };
            return (taken, after);
        }
    }
}
