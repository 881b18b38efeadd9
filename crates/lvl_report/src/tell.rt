//! Writes the text of an answer, and returns how the run ends.
ghost use Rattle.std.specs.Prelude.{◌≡◌, OnOk, OnErr, IfOk, Err};
ghost use Rattle.std.specs.Io.KnownBytes.{Appends, Keeps};
ghost use Rattle.lvl_io.specs.Bytes.{CountsFailure};
ghost use Rattle.lvl_report.specs.Texts.{text_of, text_of_digested, text_of_list, text_of_shown};
ghost use Rattle.lvl_report.specs.Hints.{IsOutcomeOf, IsShownOutcome};
ghost use Rattle.lvl_report.specs.Writing.{AppendsBeginning, is_output};
ghost use Rattle.lvl_report.specs.inside.Steps.{DifferUnlessJudged};

use crate::beside::{line_beside, line_beside_one};
use crate::digest::digest_parts;
use crate::lines::put_parts;
use crate::list::form_list;
use crate::outcome::{Outcome, hint_in, shown_status, status_of};
use crate::output::put;
use crate::status::RunFault;
use crate::text::{form, form_shown};
use lvl::{Answer, CellList, Digested, Refusal, Shown};
use lvl_io::Write;
use lvl_profile::Profile;
use std::alloc::Global;

/// Writes the text of an answer about two files, and returns how the run ends. If they weren't compared, nothing is
/// written.
pub(crate) fn tell<W: Write>(
    alloc: Global,
    profile: Profile,
    answer: &Result<Answer, Refusal>,
    out: &mut W,
) -> Result<Outcome, RunFault>
    requires { IfOk answer.now DifferUnlessJudged }
    ensures whole { OnOk result (Appends (W.contents out.old) (W.contents out.new) (text_of answer.now)) }
    ensures ends { IfOk result (IsOutcomeOf profile answer.now) }
    ensures begun { OnErr result (AppendsBeginning (W.contents out.old) (W.contents out.new) (text_of answer.now)) }
    ensures nothing { result ≡ Err RunFault.OutOfMemory → Keeps (W.contents out.old) (W.contents out.new) }
    ensures errors { CountsFailure (W.write_errors out.old) (W.write_errors out.new) (is_output result) }
    ensures same { W.lent out.new ≡ W.lent out.old }
{
    let Ok(text) = form(alloc, answer) else {
        return Err(RunFault::OutOfMemory);
    };
    let Ok(line) = line_beside(alloc, answer) else {
        return Err(RunFault::OutOfMemory);
    };
    put(out, &text)?;
    Ok(Outcome {
        status: status_of(answer),
        hint: hint_in(profile, answer),
        line,
    })
}

/// Writes the text of what is shown, and returns how the run ends.
pub(crate) fn tell_shown<W: Write>(
    alloc: Global,
    profile: Profile,
    answer: &Result<Shown, Refusal>,
    out: &mut W,
) -> Result<Outcome, RunFault>
    ensures whole { OnOk result (Appends (W.contents out.old) (W.contents out.new) (text_of_shown answer.now)) }
    ensures ends { IfOk result (IsShownOutcome profile answer.now) }
    ensures begun { OnErr result
        (AppendsBeginning (W.contents out.old) (W.contents out.new) (text_of_shown answer.now)) }
    ensures nothing { result ≡ Err RunFault.OutOfMemory → Keeps (W.contents out.old) (W.contents out.new) }
    ensures errors { CountsFailure (W.write_errors out.old) (W.write_errors out.new) (is_output result) }
    ensures same { W.lent out.new ≡ W.lent out.old }
{
    let Ok(text) = form_shown(alloc, answer) else {
        return Err(RunFault::OutOfMemory);
    };
    let Ok(line) = line_beside_one(alloc, answer) else {
        return Err(RunFault::OutOfMemory);
    };
    put(out, &text)?;
    Ok(Outcome {
        status: shown_status(answer),
        hint: hint_in(profile, answer),
        line,
    })
}

/// Writes the text of a digest, and returns how the run ends.
pub(crate) fn tell_digest<W: Write>(
    alloc: Global,
    profile: Profile,
    answer: &Result<Digested, Refusal>,
    out: &mut W,
) -> Result<Outcome, RunFault>
    ensures whole { OnOk result (Appends (W.contents out.old) (W.contents out.new) (text_of_digested answer.now)) }
    ensures ends { IfOk result (IsShownOutcome profile answer.now) }
    ensures begun { OnErr result
        (AppendsBeginning (W.contents out.old) (W.contents out.new) (text_of_digested answer.now)) }
    ensures nothing { result ≡ Err RunFault.OutOfMemory → Keeps (W.contents out.old) (W.contents out.new) }
    ensures errors { CountsFailure (W.write_errors out.old) (W.write_errors out.new) (is_output result) }
    ensures same { W.lent out.new ≡ W.lent out.old }
{
    let Ok(parts) = digest_parts(alloc, answer) else {
        return Err(RunFault::OutOfMemory);
    };
    let Ok(line) = line_beside_one(alloc, answer) else {
        return Err(RunFault::OutOfMemory);
    };
    put_parts(out, &parts)?;
    Ok(Outcome {
        status: shown_status(answer),
        hint: hint_in(profile, answer),
        line,
    })
}

/// Writes the text of what is listed, and returns how the run ends.
pub(crate) fn tell_list<W: Write>(
    alloc: Global,
    profile: Profile,
    answer: &Result<CellList, Refusal>,
    out: &mut W,
) -> Result<Outcome, RunFault>
    ensures whole { OnOk result (Appends (W.contents out.old) (W.contents out.new) (text_of_list answer.now)) }
    ensures ends { IfOk result (IsShownOutcome profile answer.now) }
    ensures begun { OnErr result
        (AppendsBeginning (W.contents out.old) (W.contents out.new) (text_of_list answer.now)) }
    ensures nothing { result ≡ Err RunFault.OutOfMemory → Keeps (W.contents out.old) (W.contents out.new) }
    ensures errors { CountsFailure (W.write_errors out.old) (W.write_errors out.new) (is_output result) }
    ensures same { W.lent out.new ≡ W.lent out.old }
{
    let Ok(text) = form_list(alloc, answer) else {
        return Err(RunFault::OutOfMemory);
    };
    let Ok(line) = line_beside_one(alloc, answer) else {
        return Err(RunFault::OutOfMemory);
    };
    put(out, &text)?;
    Ok(Outcome {
        status: shown_status(answer),
        hint: hint_in(profile, answer),
        line,
    })
}
