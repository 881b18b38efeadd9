//! Does what a command line asks for.
ghost use Rattle.std.specs.Prelude.{◌⊎◌, map};
ghost use Rattle.lvl_job.specs.Done.{change};
ghost use Rattle.lvl_job.specs.Lines.{IsLineDone, IsLineRefused, IsRefusalSaid};

use crate::fault::JobFault;
use crate::files::Files;
use crate::job::{code_of, do_job};
use crate::said::{say, say_text};
use lvl_io::Write;
use lvl_line::{LineFault, parse_line};
use std::alloc::Global;

/// The exit status if a command line is refused, or if memory runs out while it is read.
const BAD_LINE: u8 = 3;

/// Writes why a command line is refused: `clap`'s text, or that it is out of memory.
fn refuse<E: Write>(alloc: Global, fault: &LineFault, err: &mut E)
    ensures { IsRefusalSaid fault.now
        (change (E.contents err.old) (E.contents err.new) (E.write_errors err.old) (E.write_errors err.new)) }
{
    match fault {
        LineFault::Words(error) => match format!(in alloc; "{error}") {
            Ok(text) => say_text(err, text.as_str()),
            Err(_) => say(err, &JobFault::OutOfMemory),
        },
        LineFault::OutOfMemory => say(err, &JobFault::OutOfMemory),
    }
}

/// Does what the words of a command line ask for, as [`do_job`] does, and returns the exit status.
/// The first word is the name of the program. If the words are refused, or ask for help or the
/// version, it opens no file, writes `clap`'s text to `err`, and returns 3; the same if memory runs
/// out while they are read, when it writes that it is out of memory.
pub fn do_line<'a, F: Files, O: Write, E: Write>(
    alloc: Global,
    words: &'a [&'a str],
    files: &mut F,
    out: &mut O,
    err: &mut E,
) -> u8
    ensures { IsLineDone F.opens F.looks (map (λ s. s.now) words.entry.now) files.old files.new
        (change (O.contents out.old) (O.contents out.new) (O.write_errors out.old) (O.write_errors out.new))
        (change (E.contents err.old) (E.contents err.new) (E.write_errors err.old) (E.write_errors err.new)) result
        ⊎ IsLineRefused (map (λ s. s.now) words.entry.now) files.old files.new
        (change (O.contents out.old) (O.contents out.new) (O.write_errors out.old) (O.write_errors out.new))
        (change (E.contents err.old) (E.contents err.new) (E.write_errors err.old) (E.write_errors err.new)) result }
{
    match parse_line(alloc, words) {
        Ok(job) => {
            let ended = do_job(alloc, job, files, out, err);
            code_of(&ended)
        }
        Err(fault) => {
            refuse(alloc, &fault, err);
            BAD_LINE
        }
    }
}
