//! Answers a question on the files of two names.
ghost use Rattle.std.specs.Prelude.{Ok, Err, IfOk, IfErr, string_bytes};
ghost use Rattle.lvl_io.specs.Bytes.{CountsFailure};
ghost use Rattle.lvl_job.specs.Ends.{is_cut};
ghost use Rattle.lvl_job.specs.Jobs.{IsFaultBy, IsMissing};
ghost use Rattle.lvl_job.specs.inside.Parts.{IsPairRun};

use crate::fault::JobFault;
use crate::files::Files;
use crate::job::{fault_of, open};
use lvl::Question;
use lvl_io::Write;
use lvl_report::{Outcome, RunFault, run_question};
use std::alloc::Global;

/// Answers a question on the files of two names, the first of which is opened before the second.
pub(crate) fn compare<F: Files, O: Write>(
    alloc: Global,
    names: (String, String),
    question: &Question<'_>,
    files: &mut F,
    out: &mut O,
) -> Result<Outcome, JobFault>
    ensures answered { IfOk result (λ outcome. IsPairRun F.opens question.now names.0 names.1 files.old files.new
        (O.contents out.old) (O.contents out.new) (Ok outcome)) }
    ensures fault { IfErr result (IsFaultBy (λ fault. ⊥) ⊥
        (IsMissing F.opens files.old files.new (string_bytes names.0) (string_bytes names.1))
        (IsPairRun F.opens question.now names.0 names.1 files.old files.new
        (O.contents out.old) (O.contents out.new) (Err RunFault.Output))
        files.old files.new
        (O.contents out.old) (O.contents out.new)) }
    ensures errors { CountsFailure (O.write_errors out.old) (O.write_errors out.new) (is_cut result) }
{
    let mut first = open(files, names.0)?;
    let mut second = open(files, names.1)?;
    match run_question(alloc, &mut first, &mut second, question, out) {
        Ok(outcome) => Ok(outcome),
        Err(fault) => Err(fault_of(fault)),
    }
}
