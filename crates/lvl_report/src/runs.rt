//! The runs of the program: each finds an answer and writes its text.
ghost use Rattle.std.specs.Prelude.{◌≡◌, Err, option_copied};
ghost use Rattle.std.specs.Io.KnownBytes.{Keeps};
ghost use Rattle.lvl_io.specs.Bytes.{CountsFailure};
ghost use Rattle.lvl.specs.Questions.{IsAnswerBy, asked};
ghost use Rattle.lvl.specs.Readers.{input};
ghost use Rattle.lvl.specs.Sides.{given_name};
ghost use Rattle.lvl_profile.specs.Profiles.{strict};
ghost use Rattle.lvl_report.specs.Runs.{IsComparedBy, IsFileRun, IsQuestionRun, IsRun, IsShownBy, only};
ghost use Rattle.lvl_report.specs.Texts.{text_of, text_of_shown};
ghost use Rattle.lvl_report.specs.Writing.{ends_by, is_output, status_of, shown_status};

use crate::outcome::Outcome;
use crate::status::{RunFault, Status};
use crate::tell::{tell, tell_digest, tell_list, tell_shown};
use lvl::{Question, Tops, compare_files, digest_file, list_cells, show_file};
use lvl_io::{Read, Write};
use lvl_profile::Profile;
use lvl_view::View;
use std::alloc::Global;

/// Compares two files and writes the answer: what each says about itself and the verdict, each on a line,
/// or the refusal on one line. The whole text is made before any of it is written.
///
/// It writes an answer that [`compare_files`](lvl::compare_files) may return for these files without a map
/// and a window.
pub fn run<A: Read, B: Read, W: Write>(
    alloc: Global,
    first: &mut A,
    second: &mut B,
    tops: &Tops,
    out: &mut W,
) -> Result<Status, RunFault>
    ensures run { IsRun
        (IsComparedBy (input strict (A.remaining first.old) (A.remaining first.new)
        (A.read_errors first.old) (A.read_errors first.new) (given_name tops.now.first))
        (input strict (B.remaining second.old) (B.remaining second.new)
        (B.read_errors second.old) (B.read_errors second.new) (given_name tops.now.second)))
        text_of (ends_by status_of) (W.contents out.old) (W.contents out.new) result }
    ensures nothing { result ≡ Err RunFault.OutOfMemory → Keeps (W.contents out.old) (W.contents out.new) }
    ensures errors { CountsFailure (W.write_errors out.old) (W.write_errors out.new) (is_output result) }
    ensures same { W.lent out.new ≡ W.lent out.old }
{
    run_view(alloc, first, second, tops, &View::whole(alloc), out)
}

/// Compares two files under a view, with the Layers of the second mapped and only within the
/// window, and writes the answer as [`run`] does.
///
/// It writes an answer that [`compare_files`](lvl::compare_files) may return for these files.
pub fn run_view<A: Read, B: Read, W: Write>(
    alloc: Global,
    first: &mut A,
    second: &mut B,
    tops: &Tops,
    view: &View,
    out: &mut W,
) -> Result<Status, RunFault>
    ensures run { IsRun
        (IsAnswerBy (only view.now) (input strict (A.remaining first.old) (A.remaining first.new)
        (A.read_errors first.old) (A.read_errors first.new) (given_name tops.now.first))
        (input strict (B.remaining second.old) (B.remaining second.new)
        (B.read_errors second.old) (B.read_errors second.new) (given_name tops.now.second)))
        text_of (ends_by status_of) (W.contents out.old) (W.contents out.new) result }
    ensures nothing { result ≡ Err RunFault.OutOfMemory → Keeps (W.contents out.old) (W.contents out.new) }
    ensures errors { CountsFailure (W.write_errors out.old) (W.write_errors out.new) (is_output result) }
    ensures same { W.lent out.new ≡ W.lent out.old }
{
    let question = Question {
        tops,
        view,
        profile: Profile::STANDARD,
        why: false,
        units: false,
    };
    let outcome = run_question(alloc, first, second, &question, out)?;
    Ok(outcome.status)
}

/// Answers a question on two files, and writes the answer as [`run`] does. If they differ and the reason is asked for,
/// it also writes why: the top of the side that alone covers the square, and on a line each, the references of a chain
/// that leads to a cell with a shape that covers it, and that shape. Numbers count from 1, in file order. If the grid
/// steps of both files must agree and don't, nothing is written, and the run ends with the status of a refusal and the
/// line that says so.
///
/// It writes an answer that [`compare_files`](lvl::compare_files) may return for this question.
pub fn run_question<A: Read, B: Read, W: Write>(
    alloc: Global,
    first: &mut A,
    second: &mut B,
    question: &Question<'_>,
    out: &mut W,
) -> Result<Outcome, RunFault>
    ensures run { IsQuestionRun (asked question.now)
        (input question.now.profile (A.remaining first.old) (A.remaining first.new)
        (A.read_errors first.old) (A.read_errors first.new) (given_name question.now.tops.now.first))
        (input question.now.profile (B.remaining second.old) (B.remaining second.new)
        (B.read_errors second.old) (B.read_errors second.new) (given_name question.now.tops.now.second))
        (W.contents out.old) (W.contents out.new) result }
    ensures nothing { result ≡ Err RunFault.OutOfMemory → Keeps (W.contents out.old) (W.contents out.new) }
    ensures errors { CountsFailure (W.write_errors out.old) (W.write_errors out.new) (is_output result) }
    ensures same { W.lent out.new ≡ W.lent out.old }
{
    let answer = compare_files(alloc, first, second, question);
    tell(alloc, question.profile, &answer, out)
}

/// What is wanted of one file.
#[derive(Clone, Copy)]
pub enum Wanted {
    /// What it says about itself, the name of its top, the number of its cells, and for each Layer, in their order,
    /// the number of rings that the top places.
    Show,
    /// What it says about itself; the name of its top; for each Layer on which the top covers a square, in their
    /// order, the number of corners of these squares and the SHA-256 of the Layer's bytes; and the SHA-256 of the
    /// lines of these Layers.
    Digest,
    /// What it says about itself, the number of its cells, and for each cell, in file order, its name, the numbers of
    /// its shapes and of its references, and whether no cell of the file refers to it. They needn't be sound.
    Cells,
}

/// What is asked about one file.
#[derive(Clone, Copy)]
pub struct Request<'a> {
    /// What is wanted of it.
    pub wanted: Wanted,
    /// The name of its top.
    pub top: Option<&'a [u8]>,
    /// The profile under which it is read.
    pub profile: Profile,
}

/// Shows a file: writes what [`Wanted::Show`] says, or the refusal on one line.
///
/// It writes an answer that [`show_file`](lvl::show_file) may return for this file.
pub fn run_show<R: Read, W: Write>(
    alloc: Global,
    reader: &mut R,
    top: Option<&[u8]>,
    out: &mut W,
) -> Result<Status, RunFault>
    ensures run { IsRun
        (IsShownBy (input strict (R.remaining reader.old) (R.remaining reader.new)
        (R.read_errors reader.old) (R.read_errors reader.new) (option_copied top.entry)))
        text_of_shown (ends_by shown_status) (W.contents out.old) (W.contents out.new) result }
    ensures nothing { result ≡ Err RunFault.OutOfMemory → Keeps (W.contents out.old) (W.contents out.new) }
    ensures errors { CountsFailure (W.write_errors out.old) (W.write_errors out.new) (is_output result) }
    ensures same { W.lent out.new ≡ W.lent out.old }
{
    let request = Request {
        wanted: Wanted::Show,
        top,
        profile: Profile::STANDARD,
    };
    let outcome = run_file(alloc, reader, &request, out)?;
    Ok(outcome.status)
}

/// Writes what is wanted of a file, or the refusal on one line. The whole text is made before any of it is written,
/// but for the lines of a digest's Layers.
///
/// It writes an answer that [`show_file`](lvl::show_file), [`digest_file`](lvl::digest_file) or
/// [`list_cells`](lvl::list_cells) may return for this file.
pub fn run_file<R: Read, W: Write>(
    alloc: Global,
    reader: &mut R,
    request: &Request<'_>,
    out: &mut W,
) -> Result<Outcome, RunFault>
    ensures run { IsFileRun request.now.wanted
        (input request.now.profile (R.remaining reader.old) (R.remaining reader.new)
        (R.read_errors reader.old) (R.read_errors reader.new) (option_copied request.now.top))
        (W.contents out.old) (W.contents out.new) result }
    ensures nothing { result ≡ Err RunFault.OutOfMemory → Keeps (W.contents out.old) (W.contents out.new) }
    ensures errors { CountsFailure (W.write_errors out.old) (W.write_errors out.new) (is_output result) }
    ensures same { W.lent out.new ≡ W.lent out.old }
{
    let profile = request.profile;
    match request.wanted {
        Wanted::Show => {
            let answer = show_file(alloc, reader, request.top, profile);
            tell_shown(alloc, profile, &answer, out)
        }
        Wanted::Digest => {
            let answer = digest_file(alloc, reader, request.top, profile);
            tell_digest(alloc, profile, &answer, out)
        }
        Wanted::Cells => {
            let answer = list_cells(alloc, reader, profile);
            tell_list(alloc, profile, &answer, out)
        }
    }
}
