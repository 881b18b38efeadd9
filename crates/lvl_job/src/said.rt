//! What a job writes to standard error.
ghost use Rattle.std.specs.Prelude.{◌≡◌, ◌++◌, false, true, codes, decimal, IfErr, OnOk, OnErr};
ghost use Rattle.std.specs.Io.KnownBytes.{Appends};
ghost use Rattle.lvl_io.specs.Bytes.{CountsFailure, failed};
ghost use Rattle.lvl_job.specs.Ends.{IsSaid, fault_text, hint_words, ignore_words, is_cut, open_form, view_form};
ghost use Rattle.lvl_job.specs.inside.Steps.{IsPut, Says};
ghost use Rattle.lvl_report.specs.Texts.{line};
ghost use Rattle.lvl_report.specs.Writing.{AppendsBeginning};

use crate::fault::JobFault;
use crate::files::OpenFault;
use itoa::Buffer;
use lvl_io::{Failure, Write};
use lvl_profile::Ignore;
use lvl_report::{Hint, write_all};
use lvl_text::{ignore_fault, view_fault};
use lvl_view::ViewFault;

/// Whether all that was to be written to standard error so far was written. After a write has failed, nothing more
/// is written.
pub(crate) type Said = Result<(), Failure>;

/// Writes a text, unless a write failed before.
pub(crate) fn say_more<E: Write>(err: &mut E, said: &mut Said, text: &[u8])
    ensures { Says text.now
        (record { so_far = said.old; contents = E.contents err.old; errors = E.write_errors err.old })
        (record { so_far = said.new; contents = E.contents err.new; errors = E.write_errors err.new }) }
{
    if said.is_ok() {
        *said = write_all(err, text);
    }
}

/// Writes a text to the output, and flushes it.
pub(crate) fn put<O: Write>(out: &mut O, text: &[u8]) -> Result<(), JobFault>
    ensures written { IsPut text.now (O.contents out.old) (O.contents out.new) result }
    ensures output { IfErr result (λ fault. fault ≡ JobFault.Output) }
    ensures errors { CountsFailure (O.write_errors out.old) (O.write_errors out.new) (is_cut result) }
{
    if write_all(out, text).is_err() || out.flush().is_err() {
        return Err(JobFault::Output);
    }
    Ok(())
}

/// Writes two texts as one line.
fn write_line<E: Write>(err: &mut E, why: &str, what: &str) -> Result<(), Failure>
    ensures whole { OnOk result (Appends (E.contents err.old) (E.contents err.new) (line (why.now ++ what.now))) }
    ensures begun { OnErr result
        (AppendsBeginning (E.contents err.old) (E.contents err.new) (line (why.now ++ what.now))) }
    ensures errors { CountsFailure (E.write_errors err.old) (E.write_errors err.new) (failed result) }
{
    write_all(err, why.as_bytes())?;
    write_all(err, what.as_bytes())?;
    write_all(err, b"\n")
}

/// Writes three texts. If that fails, nothing more is written.
fn say_parts<E: Write>(err: &mut E, first: &str, what: &str, more: &str)
    ensures { IsSaid (first.now ++ what.now ++ more.now)
        (E.contents err.old) (E.contents err.new) (E.write_errors err.old) (E.write_errors err.new) }
{
    let mut said = Ok(());
    say_more(err, &mut said, first.as_bytes());
    say_more(err, &mut said, what.as_bytes());
    say_more(err, &mut said, more.as_bytes());
}

/// What comes after the name of a fault of a view: the form that was expected, on a line of its own.
fn view_form(fault: ViewFault) -> &'static str
    ensures { result.now ≡ view_form fault }
{
    match fault {
        ViewFault::MapText => "\nlvl: --map takes pairs L/D=L/D, joined by commas\n",
        ViewFault::WindowText => "\nlvl: --window takes x=A..B,y=C..D\n",
        ViewFault::MapTwice(_) | ViewFault::EmptyWindow => "\n",
    }
}

/// What comes after the name of a file that wasn't opened: why that is, on a line of its own, if it is known.
pub(crate) fn open_form(why: OpenFault) -> &'static str
    ensures { result.now ≡ open_form why }
{
    match why {
        OpenFault::Missing => "\nlvl: no such file\n",
        OpenFault::Denied => "\nlvl: permission denied\n",
        OpenFault::Other => "\n",
    }
}

/// Writes that a line of the list in the file of a name is bad.
fn say_bad_line<E: Write>(err: &mut E, name: &str, number: usize)
    ensures { IsSaid (codes "lvl: " ++ name.now ++ codes ": bad line " ++ decimal number ++ codes "\n")
        (E.contents err.old) (E.contents err.new) (E.write_errors err.old) (E.write_errors err.new) }
{
    let mut digits = Buffer::new();
    let mut said = Ok(());
    say_more(err, &mut said, b"lvl: ");
    say_more(err, &mut said, name.as_bytes());
    say_more(err, &mut said, b": bad line ");
    say_more(err, &mut said, digits.format(number).as_bytes());
    say_more(err, &mut said, b"\n");
}

/// Writes two texts as one line. If that fails, nothing more is written.
fn say_line<E: Write>(err: &mut E, why: &str, what: &str)
    ensures { IsSaid (line (why.now ++ what.now)) (E.contents err.old) (E.contents err.new)
        (E.write_errors err.old) (E.write_errors err.new) }
{
    let _ = write_line(err, why, what);
}

/// Writes a text. If that fails, nothing more is written.
pub(crate) fn say_text<E: Write>(err: &mut E, text: &str)
    ensures { IsSaid text.now (E.contents err.old) (E.contents err.new)
        (E.write_errors err.old) (E.write_errors err.new) }
{
    let _ = write_all(err, text.as_bytes());
}

/// Writes on one line why a job has no answer, and if a text isn't of the form that was expected, that form on another.
/// If that fails, nothing more is written.
pub(crate) fn say<E: Write>(err: &mut E, fault: &JobFault)
    ensures { IsSaid (fault_text fault.now) (E.contents err.old) (E.contents err.new)
        (E.write_errors err.old) (E.write_errors err.new) }
{
    match fault {
        JobFault::BadView(fault) => {
            say_parts(err, "lvl: bad view ", view_fault(*fault), view_form(*fault))
        }
        JobFault::BadIgnore(fault) => say_parts(
            err,
            "lvl: bad ignore ",
            ignore_fault(*fault),
            "\nlvl: --ignore takes properties, texts, names, padding, points or all, joined by commas\n",
        ),
        JobFault::NotOpened(name, why) => {
            say_parts(err, "lvl: cannot open ", name.as_str(), open_form(*why))
        }
        JobFault::UnreadList(name) => say_parts(err, "lvl: ", name.as_str(), ": cannot read\n"),
        JobFault::LongList(name) => say_parts(err, "lvl: ", name.as_str(), ": too long\n"),
        JobFault::BadLine(name, line) => say_bad_line(err, name.as_str(), *line),
        JobFault::OutOfMemory => say_line(err, "lvl: out of memory", ""),
        JobFault::Output => say_line(err, "lvl: output failed", ""),
    }
}

/// What is ignored, as words joined by commas; points of paths aren't.
fn words_but_points(ignore: Ignore) -> &'static str
    requires { ignore.points ≡ false }
    ensures { result.now ≡ ignore_words ignore }
{
    let Ignore {
        properties,
        texts,
        names,
        padding,
        ..
    } = ignore;
    match (properties, texts, names, padding) {
        (false, false, false, false) => "",
        (false, false, false, true) => "padding",
        (false, false, true, false) => "names",
        (false, false, true, true) => "names,padding",
        (false, true, false, false) => "texts",
        (false, true, false, true) => "texts,padding",
        (false, true, true, false) => "texts,names",
        (false, true, true, true) => "texts,names,padding",
        (true, false, false, false) => "properties",
        (true, false, false, true) => "properties,padding",
        (true, false, true, false) => "properties,names",
        (true, false, true, true) => "properties,names,padding",
        (true, true, false, false) => "properties,texts",
        (true, true, false, true) => "properties,texts,padding",
        (true, true, true, false) => "properties,texts,names",
        (true, true, true, true) => "properties,texts,names,padding",
    }
}

/// What is ignored, as words joined by commas; points of paths are.
fn words_and_points(ignore: Ignore) -> &'static str
    requires { ignore.points ≡ true }
    ensures { result.now ≡ ignore_words ignore }
{
    let Ignore {
        properties,
        texts,
        names,
        padding,
        ..
    } = ignore;
    match (properties, texts, names, padding) {
        (false, false, false, false) => "points",
        (false, false, false, true) => "padding,points",
        (false, false, true, false) => "names,points",
        (false, false, true, true) => "names,padding,points",
        (false, true, false, false) => "texts,points",
        (false, true, false, true) => "texts,padding,points",
        (false, true, true, false) => "texts,names,points",
        (false, true, true, true) => "texts,names,padding,points",
        (true, false, false, false) => "properties,points",
        (true, false, false, true) => "properties,padding,points",
        (true, false, true, false) => "properties,names,points",
        (true, false, true, true) => "properties,names,padding,points",
        (true, true, false, false) => "properties,texts,points",
        (true, true, false, true) => "properties,texts,padding,points",
        (true, true, true, false) => "properties,texts,names,points",
        (true, true, true, true) => "properties,texts,names,padding,points",
    }
}

/// What is ignored, as words joined by commas.
fn ignore_words(ignore: Ignore) -> &'static str
    ensures { result.now ≡ ignore_words ignore }
{
    if ignore.points {
        words_and_points(ignore)
    } else {
        words_but_points(ignore)
    }
}

/// Says what to ignore so that more is read, or that all may be ignored, since more may come.
fn say_ignore<E: Write>(err: &mut E, said: &mut Said, more: Ignore)
    ensures { Says (hint_words (Hint.IgnoreMore more))
        (record { so_far = said.old; contents = E.contents err.old; errors = E.write_errors err.old })
        (record { so_far = said.new; contents = E.contents err.new; errors = E.write_errors err.new }) }
{
    say_more(err, said, b"try --ignore ");
    say_more(err, said, ignore_words(more).as_bytes());
    say_more(err, said, b", or --ignore all\n");
}

/// Says what would mend a refusal.
pub(crate) fn say_words<E: Write>(err: &mut E, said: &mut Said, hint: Hint)
    ensures { Says (hint_words hint)
        (record { so_far = said.old; contents = E.contents err.old; errors = E.write_errors err.old })
        (record { so_far = said.new; contents = E.contents err.new; errors = E.write_errors err.new }) }
{
    match hint {
        Hint::IgnoreMore(more) => say_ignore(err, said, more),
        Hint::LiftLimits => say_more(err, said, b"try --large\n"),
        Hint::Foreign => say_more(err, said, b"neither GDSII nor OASIS\n"),
        Hint::ReadBlocks => say_more(err, said, b"try --unpack\n"),
    }
}
