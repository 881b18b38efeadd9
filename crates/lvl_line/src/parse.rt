//! Makes a job of the words of a command line.
ghost use Rattle.std.specs.Prelude.{◌≡◌, ◌≢◌, ◌⊎◌, Some, true, false, codes, is_some, map, option_map, IfOk};
ghost use Rattle.std.specs.Prelude.{IfErr, count_by};
ghost use Rattle.std.specs.String.{string_bytes};
ghost use Rattle.clap.specs.Words.{all_of, first_of, found_of, kind_of, rows_of, subcommand_of, takes};
ghost use Rattle.lvl_line.specs.Line.{line, is_compared_twice, is_input, is_input_name, is_listed_twice, is_misplaced};
ghost use Rattle.lvl_line.specs.Line.{is_set, is_several, IsJob, IsMisplaced, IsNamed, IsRefusal};
ghost use Rattle.lvl_line.specs.declared.job.LineFault.TheVariants.{OutOfMemory, Words};
ghost use Rattle.lvl_line.specs.inside.Given.{HasValue, IsConflictFault, IsJobOf};

use crate::command::program;
use crate::job::{Job, LineFault};
use clap::error::ErrorKind;
use clap::{ArgMatches, Error};
use std::alloc::{AllocError, Global};

/// What is said if standard input is named twice.
const INPUT_TWICE: &str = "standard input, '-', cannot be used twice";

/// A copy of the value of an option, if it is given.
fn value_of(alloc: Global, matches: &ArgMatches<'_>, id: &str) -> Result<Option<String>, AllocError>
    ensures { IfOk result (λ text. first_of id.now (rows_of (found_of matches.now)) ≡ option_map string_bytes text) }
{
    match matches.get_str(id) {
        Some(text) => Ok(Some(String::from_str(alloc, text)?)),
        None => Ok(None),
    }
}

/// Whether an option with no value is given.
fn is_set(matches: &ArgMatches<'_>, id: &str) -> bool
    ensures { result ≡ is_set id.now (rows_of (found_of matches.now)) }
{
    match matches.get_str(id) {
        Some(text) => text == "true",
        None => false,
    }
}

/// Whether the name of a file is that of standard input.
fn is_input_name(name: &str) -> bool
    ensures { result ≡ is_input_name name.now }
{
    name == "-"
}

/// Whether the file of an argument is standard input.
fn is_input(matches: &ArgMatches<'_>, id: &str) -> bool
    ensures { result ≡ is_input id.now (rows_of (found_of matches.now)) }
{
    match matches.get_str(id) {
        Some(name) => is_input_name(name),
        None => false,
    }
}

/// Whether both files of `compare` are standard input.
fn is_compared_twice(matches: &ArgMatches<'_>) -> bool
    ensures { result ≡ is_compared_twice (rows_of (found_of matches.now)) }
{
    is_input(matches, "A") && is_input(matches, "B")
}

/// A copy of the name of a file, which `clap` has found in the line.
fn file_of(alloc: Global, matches: &ArgMatches<'_>, id: &str) -> Result<String, AllocError>
    requires { HasValue id.now (rows_of (found_of matches.now)) }
    ensures { IfOk result (λ text. first_of id.now (rows_of (found_of matches.now)) ≡ Some (string_bytes text)) }
{
    let Some(text) = matches.get_str(id) else {
        unreachable!()
    };
    String::from_str(alloc, text)
}

/// The job of `compare`, whose files aren't both standard input.
fn compare_of(alloc: Global, matches: &ArgMatches<'_>) -> Result<Job, AllocError>
    requires first { HasValue (codes "A") (rows_of (found_of matches.now)) }
    requires second { HasValue (codes "B") (rows_of (found_of matches.now)) }
    requires once { is_compared_twice (rows_of (found_of matches.now)) ≡ false }
    ensures { IfOk result (λ job. IsNamed job (Some (codes "compare", rows_of (found_of matches.now)))) }
{
    Ok(Job::Compare {
        first: file_of(alloc, matches, "A")?,
        second: file_of(alloc, matches, "B")?,
        top_a: value_of(alloc, matches, "top-a")?,
        top_b: value_of(alloc, matches, "top-b")?,
        map: value_of(alloc, matches, "map")?,
        window: value_of(alloc, matches, "window")?,
        ignore: value_of(alloc, matches, "ignore")?,
        large: is_set(matches, "large"),
        unpack: is_set(matches, "unpack"),
        why: is_set(matches, "why"),
        units: is_set(matches, "units"),
    })
}

/// The job of `show`.
fn show_of(alloc: Global, matches: &ArgMatches<'_>) -> Result<Job, AllocError>
    requires { HasValue (codes "A") (rows_of (found_of matches.now)) }
    ensures { IfOk result (λ job. IsNamed job (Some (codes "show", rows_of (found_of matches.now)))) }
{
    Ok(Job::Show {
        file: file_of(alloc, matches, "A")?,
        top: value_of(alloc, matches, "top")?,
        ignore: value_of(alloc, matches, "ignore")?,
        large: is_set(matches, "large"),
        unpack: is_set(matches, "unpack"),
    })
}

/// The job of `cells`.
fn cells_of(alloc: Global, matches: &ArgMatches<'_>) -> Result<Job, AllocError>
    requires { HasValue (codes "A") (rows_of (found_of matches.now)) }
    ensures { IfOk result (λ job. IsNamed job (Some (codes "cells", rows_of (found_of matches.now)))) }
{
    Ok(Job::Cells {
        file: file_of(alloc, matches, "A")?,
        ignore: value_of(alloc, matches, "ignore")?,
        large: is_set(matches, "large"),
        unpack: is_set(matches, "unpack"),
    })
}

/// Copies of texts, in their order.
fn copies(alloc: Global, texts: &[&str]) -> Result<Vec<String>, AllocError>
    ensures { IfOk result (λ copies. map string_bytes copies.items ≡ map (λ s. s.now) texts.now) }
{
    let mut copies = Vec::new(alloc);
    for text in texts {
        copies.push(String::from_str(alloc, text)?)?;
    }
    Ok(copies)
}

/// Copies of the names of files, which `clap` has found in the line.
fn files_of(alloc: Global, matches: &ArgMatches<'_>, id: &str) -> Result<Vec<String>, AllocError>
    requires { HasValue id.now (rows_of (found_of matches.now)) }
    ensures { IfOk result (λ files. all_of id.now (rows_of (found_of matches.now)) ≡ Some (map string_bytes files.items)) }
{
    let Some(texts) = matches.get_strs(id) else {
        unreachable!()
    };
    copies(alloc, texts)
}

/// Whether an argument has several values.
fn is_several(matches: &ArgMatches<'_>, id: &str) -> bool
    ensures { result ≡ is_several id.now (rows_of (found_of matches.now)) }
{
    match matches.get_strs(id) {
        Some(texts) => texts.len() > 1,
        None => false,
    }
}

/// How many of the files are standard input.
fn count_inputs(names: &[&str]) -> usize
    ensures { result ≡ count_by is_input_name (map (λ s. s.now) names.now) }
{
    names.iter().filter(|name| is_input_name(name)).count()
}

/// Whether several of the files of an argument are standard input.
fn is_listed_twice(matches: &ArgMatches<'_>, id: &str) -> bool
    ensures { result ≡ is_listed_twice id.now (rows_of (found_of matches.now)) }
{
    match matches.get_strs(id) {
        Some(names) => count_inputs(names) > 1,
        None => false,
    }
}

/// Why the options of `digest` don't go together; `None` if they do.
fn misplaced(matches: &ArgMatches<'_>) -> Option<&'static str>
    ensures { is_some result ≡ is_misplaced (rows_of (found_of matches.now)) }
{
    let list = is_set(matches, "list");
    let check = is_set(matches, "check");
    if list && check {
        return Some("the argument '--list' cannot be used with '--check'");
    }
    if is_set(matches, "quiet") && !check {
        return Some("the argument '--quiet' cannot be used without '--check'");
    }
    if !list && is_several(matches, "A") {
        return Some("several files cannot be used without '--list'");
    }
    if is_listed_twice(matches, "A") {
        return Some(INPUT_TWICE);
    }
    None
}

/// The job of `digest`, whose options go together.
fn digest_of(alloc: Global, matches: &ArgMatches<'_>) -> Result<Job, AllocError>
    requires file { HasValue (codes "A") (rows_of (found_of matches.now)) }
    requires placed { is_misplaced (rows_of (found_of matches.now)) ≡ false }
    ensures { IfOk result (λ job. IsNamed job (Some (codes "digest", rows_of (found_of matches.now)))) }
{
    let top = value_of(alloc, matches, "top")?;
    let ignore = value_of(alloc, matches, "ignore")?;
    let large = is_set(matches, "large");
    let unpack = is_set(matches, "unpack");
    if is_set(matches, "list") {
        return Ok(Job::List {
            files: files_of(alloc, matches, "A")?,
            top,
            ignore,
            large,
            unpack,
        });
    }
    let file = file_of(alloc, matches, "A")?;
    if is_set(matches, "check") {
        return Ok(Job::Check {
            list: file,
            quiet: is_set(matches, "quiet"),
            top,
            ignore,
            large,
            unpack,
        });
    }
    Ok(Job::Digest {
        file,
        top,
        ignore,
        large,
        unpack,
    })
}

/// The fault of a line whose words don't go together. `why` says which.
fn conflict(alloc: Global, why: &str) -> LineFault
    ensures { (result ≡ OutOfMemory) ⊎ IsConflictFault result }
{
    let Ok(mut command) = program(alloc) else {
        return LineFault::OutOfMemory;
    };
    match command.error(ErrorKind::ArgumentConflict, why) {
        Ok(error) => LineFault::Words(error),
        Err(_) => LineFault::OutOfMemory,
    }
}

/// The job of the subcommand that `clap` has found in the line, or why its words don't go together.
fn job_of(alloc: Global, name: &str, matches: &ArgMatches<'_>) -> Result<Job, LineFault>
    requires { IsJobOf name.now (rows_of (found_of matches.now)) }
    ensures job { IfOk result (λ job. IsNamed job (Some (name.now, rows_of (found_of matches.now)))) }
    ensures fault { IfErr result (λ fault. (fault ≡ OutOfMemory)
        ⊎ (IsMisplaced (Some (name.now, rows_of (found_of matches.now))) × IsConflictFault fault)) }
{
    let made = match name {
        "compare" => {
            if is_compared_twice(matches) {
                return Err(conflict(alloc, INPUT_TWICE));
            }
            compare_of(alloc, matches)
        }
        "show" => show_of(alloc, matches),
        "cells" => cells_of(alloc, matches),
        _ => {
            if let Some(why) = misplaced(matches) {
                return Err(conflict(alloc, why));
            }
            digest_of(alloc, matches)
        }
    };
    match made {
        Ok(job) => Ok(job),
        Err(_) => Err(LineFault::OutOfMemory),
    }
}

/// The fault for an error of `clap`, which may be a failed allocation.
fn refused(error: Error) -> LineFault
    ensures { (result ≡ OutOfMemory) ⊎ ((kind_of error ≢ ErrorKind.OutOfMemory) × (result ≡ Words error)) }
{
    match error.kind() {
        ErrorKind::OutOfMemory => LineFault::OutOfMemory,
        _ => LineFault::Words(error),
    }
}

/// What the words of a command line ask for. The first word is the name of the program.
///
/// The job is what the words mean by `clap` (see [`crate`]), and all files are given. `Words` is
/// returned with `clap`'s error if the words are no line of the program, or ask for help or the
/// version, and with an error of the kind `ArgumentConflict` if the options of `digest` don't go together or standard
/// input is named twice. If `clap` accepts the words, only that and a failed allocation are reported.
pub fn parse_line<'a>(alloc: Global, words: &'a [&'a str]) -> Result<Job, LineFault>
    ensures job { IfOk result (IsJob (map (λ s. s.now) words.entry.now)) }
    ensures refused { IfErr result (IsRefusal (map (λ s. s.now) words.entry.now)) }
    ensures taken { takes line (map (λ s. s.now) words.entry.now) ≡ true → IfErr result (λ f.
        (f ≡ OutOfMemory) ⊎ IsMisplaced (subcommand_of line (map (λ s. s.now) words.entry.now))) }
{
    let Ok(command) = program(alloc) else {
        return Err(LineFault::OutOfMemory);
    };
    let matches = match command.try_get_matches_from(words) {
        Ok(matches) => matches,
        Err(error) => return Err(refused(error)),
    };
    let Some((name, matches)) = matches.subcommand() else {
        unreachable!()
    };
    job_of(alloc, name, matches)
}
