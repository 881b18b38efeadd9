//! The program `lvl`: compares two layout files, shows one, or hashes what one draws.
//!
//!     lvl compare A B [--top-a NAME] [--top-b NAME] [--map PAIRS] [--window RANGES] [--ignore WORDS] [--large] [--unpack]
//!     lvl show A [--top NAME] [--ignore WORDS] [--large] [--unpack]
//!     lvl digest A [--top NAME] [--ignore WORDS] [--large] [--unpack]
//!     lvl digest --list A.. [--top NAME] [--ignore WORDS] [--large] [--unpack]
//!     lvl digest --check [--quiet] LIST [--top NAME] [--ignore WORDS] [--large] [--unpack]
//!
//! A file whose name is `-` is standard input.
//!
//! The exit status is 0 if both layouts draw the same mask, or if one was shown or hashed; 1 if
//! they differ; 2 if a file is refused or can't be opened, or for out of memory; 3 if the command
//! line, a map, a window, the text of `--ignore` or a line of a list is invalid, for help, or if
//! memory runs out while the command line is read; and 4 if the output failed. Of several files it
//! is the greatest.
//!
//! While large files are read and compared, a line on standard error says how far that is, if standard
//! error is a terminal.
#![tactic(auto)]

use disk::{Command, Disk};
use lvl_io::Counted;
use lvl_job::do_line;
use lvl_progress::{Erasing, erase};
use std::io::{BufWriter, ErrorKind, IsTerminal, Stderr, Stdout};
use std::process::ExitCode;
use std::{env, io};

mod disk;
mod source;

/// Standard output with a buffer, of which a line of a terminal is erased first.
type Output = Counted<BufWriter<Erasing<Stdout, Stderr>>>;

/// The exit status if the words of the command line can't be read, also for lack of memory.
const BAD_LINE: u8 = 3;

/// The exit status if there is no memory for the buffer of the output.
const NOT_RUN: u8 = 2;

/// Prints why there is no answer, and returns the status.
fn end(rt: &impl Eprint, why: &str, code: u8) -> u8 {
    let _ = rt.eprintln(why);
    code
}

/// Standard error, if a line of it is to be erased.
fn terminal(rt: &HostRuntime, is_shown: bool) -> Option<Stderr> {
    if is_shown { Some(rt.stderr()) } else { None }
}

/// Standard output with a buffer, or the exit status.
fn output(rt: &HostRuntime, is_shown: bool) -> Result<Output, u8> {
    let out = Erasing::new(rt.stdout(), terminal(rt, is_shown));
    match BufWriter::new(rt.alloc(), out) {
        Ok(out) => Ok(Counted::new(out)),
        Err(_) => Err(end(rt, "lvl: out of memory", NOT_RUN)),
    }
}

/// The words of the command line, or the exit status.
fn words_of(rt: &HostRuntime) -> Result<Vec<String>, u8> {
    let words = match env::args(rt) {
        Ok(words) => words,
        Err(error) if error.kind() == ErrorKind::InvalidData => {
            return Err(end(
                rt,
                "lvl: a word of the command line is not UTF-8 text",
                BAD_LINE,
            ));
        }
        Err(_) => return Err(end(rt, "lvl: out of memory", BAD_LINE)),
    };
    match words.collect::<Vec<String>>(rt.alloc()) {
        Ok(words) => Ok(words),
        Err(_) => Err(end(rt, "lvl: out of memory", BAD_LINE)),
    }
}

/// Whether a line on standard error says how far the program is: if the words ask for it or, if they
/// don't say, on a terminal that isn't a dumb one.
fn is_progress_shown(rt: &HostRuntime, words: &[&str]) -> bool {
    let mut asked = None;
    for word in words {
        match *word {
            "--progress" => asked = Some(true),
            "--no-progress" => asked = Some(false),
            "--" => break,
            _ => {}
        }
    }
    asked.unwrap_or_else(|| rt.stderr().is_terminal() && !is_dumb(rt))
}

/// Whether the terminal can't erase a line.
fn is_dumb(rt: &HostRuntime) -> bool {
    match env::var(rt, "TERM") {
        Ok(name) => name.as_str() == "dumb",
        Err(_) => false,
    }
}

/// Does what the command line asks for, and returns the exit status.
fn status_of(rt: &HostRuntime) -> Result<u8, u8> {
    let words = words_of(rt)?;
    let texts = words.iter().map(|word| word.as_str());
    let Ok(texts) = texts.collect::<Vec<&str>>(rt.alloc()) else {
        return Err(end(rt, "lvl: out of memory", BAD_LINE));
    };
    let is_shown = is_progress_shown(rt, &texts);
    let mut out = output(rt, is_shown)?;
    let mut err = Counted::new(Erasing::new(rt.stderr(), terminal(rt, is_shown)));
    let mut files = Disk::new(rt, Command::of(&texts), is_shown);
    let code = do_line(rt.alloc(), texts.as_slice(), &mut files, &mut out, &mut err);
    if is_shown {
        erase(&mut rt.stderr());
    }
    Ok(code)
}

fn main(rt: HostRuntime) -> ExitCode {
    ExitCode::from(status_of(&rt).unwrap_or_else(|code| code))
}
