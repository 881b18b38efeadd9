//! Writes a whole text.
ghost use Rattle.std.specs.Prelude.{◌≡◌, OnOk, OnErr, IfErr};
ghost use Rattle.std.specs.Io.KnownBytes.{Appends};
ghost use Rattle.lvl_io.specs.Bytes.{CountsFailure, failed};
ghost use Rattle.lvl_report.specs.Writing.{AppendsBeginning};

use crate::status::RunFault;
use lvl_io::{Failure, Write};

/// Writes the whole text. It fails at the first error of any kind, or if a write takes nothing of
/// some bytes; nothing is tried again, and a beginning of the text was written.
pub fn write_all<W: Write>(out: &mut W, text: &[u8]) -> Result<(), Failure>
    ensures whole { OnOk result (Appends (W.contents out.old) (W.contents out.new) text.now) }
    ensures begun { OnErr result (AppendsBeginning (W.contents out.old) (W.contents out.new) text.now) }
    ensures errors { CountsFailure (W.write_errors out.old) (W.write_errors out.new) (failed result) }
    ensures same { W.lent out.new ≡ W.lent out.old }
{
    let mut rest = text;
    while !rest.is_empty() {
        match out.write(rest) {
            Ok(0) | Err(Failure) => return Err(Failure),
            Ok(taken) => rest = &rest[taken..],
        }
    }
    Ok(())
}

/// Writes the whole text, and flushes; does nothing if the text is empty. It fails with `Output` where [`write_all`]
/// or the flush does.
pub(crate) fn put<W: Write>(out: &mut W, text: &[u8]) -> Result<(), RunFault>
    ensures whole { OnOk result (Appends (W.contents out.old) (W.contents out.new) text.now) }
    ensures begun { OnErr result (AppendsBeginning (W.contents out.old) (W.contents out.new) text.now) }
    ensures output { IfErr result (λ fault. fault ≡ RunFault.Output) }
    ensures errors { CountsFailure (W.write_errors out.old) (W.write_errors out.new) (failed result) }
    ensures same { W.lent out.new ≡ W.lent out.old }
{
    if text.is_empty() {
        return Ok(());
    }
    if write_all(out, text).is_err() || out.flush().is_err() {
        return Err(RunFault::Output);
    }
    Ok(())
}
