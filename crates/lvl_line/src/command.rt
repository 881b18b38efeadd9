//! The command line of the program, as it is described to `clap`.
ghost use Rattle.std.specs.Prelude.{◌≡◌, IfOk, false};
ghost use Rattle.clap.specs.Words.{app_of, rule_of};
ghost use Rattle.lvl_line.specs.Line.{cells_app, compare_app, digest_app, file_rule, files_rule, flag_rule, line};
ghost use Rattle.lvl_line.specs.Line.{option_rule, show_app, watched_app};
ghost use Rattle.lvl_line.specs.inside.Begun.{comparing_line, hashing_line, several_app, tops_app};

use clap::{Arg, ArgAction, Command};
use std::alloc::{AllocError, Global};

/// The help of `digest`.
const DIGEST_HELP: &str =
    "Hashes what a layout draws: layouts of the same mask have the same digest";

/// The help of the files of `digest`.
const LAYOUTS_HELP: &str =
    "The layout, GDSII or OASIS; several with --list; with --check a list of digests";

/// The help of `--list`.
const LIST_HELP: &str = "Prints a line for each file: the digest of its mask, and its name";

/// The help of `--check`.
const CHECK_HELP: &str = "Reads such a list, and hashes the files that it names again";

/// The help of `--quiet`.
const QUIET_HELP: &str = "With --check, prints only the files that aren't the same";

/// The help of `--map`.
const MAP_HELP: &str = "Layers of the second layout, as those of the first: 1/0=2/0,3/1=3/0";

/// The help of `--window`.
const WINDOW_HELP: &str = "The only squares to be compared, in grid steps: x=0..100,y=-50..50";

/// The help of `--ignore`.
const IGNORE_HELP: &str =
    "What to read and ignore: properties, texts, names, padding, points or all, joined by commas";

/// The help of `--why`.
const WHY_HELP: &str = "Of a difference, says which references lead to which shape";

/// The help of `--units`.
const UNITS_HELP: &str = "Doesn't compare layouts whose grid steps differ";

/// The help of `--large`.
const LARGE_HELP: &str = "Takes the limits for whole chips";

/// The help of `--unpack`.
const UNPACK_HELP: &str = "Reads the compressed blocks of OASIS (CBLOCK)";

/// The help of `--progress`.
const PROGRESS_HELP: &str = "Shows on standard error how far it is, also if that isn't a terminal";

/// The help of `--no-progress`.
const NO_PROGRESS_HELP: &str = "Doesn't show how far it is";

/// A file, which must be given.
fn file<'a>(alloc: Global, id: &'a str, help: &'a str) -> Arg<'a>
    ensures rule { rule_of result ≡ file_rule id.entry.now }
    ensures local { result.global ≡ false }
{
    Arg::new(alloc, id).required(true).help(help)
}

/// Files, of which at least one must be given.
fn files<'a>(alloc: Global, id: &'a str, help: &'a str) -> Arg<'a>
    ensures rule { rule_of result ≡ files_rule id.entry.now }
    ensures local { result.global ≡ false }
{
    Arg::new(alloc, id)
        .required(true)
        .action(ArgAction::Append)
        .help(help)
}

/// An option with one value.
fn option<'a>(alloc: Global, id: &'a str, value: &'a str, help: &'a str) -> Arg<'a>
    ensures rule { rule_of result ≡ option_rule id.entry.now }
    ensures local { result.global ≡ false }
{
    Arg::new(alloc, id).long(id).value_name(value).help(help)
}

/// An option with no value.
fn flag<'a>(alloc: Global, id: &'a str, help: &'a str) -> Arg<'a>
    ensures rule { rule_of result ≡ flag_rule id.entry.now }
    ensures local { result.global ≡ false }
{
    Arg::new(alloc, id)
        .long(id)
        .action(ArgAction::SetTrue)
        .help(help)
}

/// `compare A B [--top-a NAME] [--top-b NAME]`.
fn compare_tops<'a>(alloc: Global) -> Result<Command<'a>, AllocError>
    ensures { IfOk result (λ c. app_of c ≡ tops_app) }
{
    Command::new(alloc, "compare")
        .about("Says whether two layouts draw the same mask")
        .arg(file(alloc, "A", "The first layout, GDSII or OASIS"))?
        .arg(file(alloc, "B", "The second layout, GDSII or OASIS"))?
        .arg(option(alloc, "top-a", "NAME", "The first layout's top cell"))?
        .arg(option(alloc, "top-b", "NAME", "The second layout's top cell"))
}

/// `compare A B`, tops, `[--map PAIRS] [--window RANGES] [--ignore WORDS] [--large] [--unpack] [--why] [--units]`.
fn compare<'a>(alloc: Global) -> Result<Command<'a>, AllocError>
    ensures { IfOk result (λ c. app_of c ≡ compare_app) }
{
    compare_tops(alloc)?
        .arg(option(alloc, "map", "PAIRS", MAP_HELP))?
        .arg(option(alloc, "window", "RANGES", WINDOW_HELP))?
        .arg(option(alloc, "ignore", "WORDS", IGNORE_HELP))?
        .arg(flag(alloc, "large", LARGE_HELP))?
        .arg(flag(alloc, "unpack", UNPACK_HELP))?
        .arg(flag(alloc, "why", WHY_HELP))?
        .arg(flag(alloc, "units", UNITS_HELP))
}

/// `show A [--top NAME] [--ignore WORDS] [--large] [--unpack]`.
fn show<'a>(alloc: Global) -> Result<Command<'a>, AllocError>
    ensures { IfOk result (λ c. app_of c ≡ show_app) }
{
    Command::new(alloc, "show")
        .about("Shows a layout's top cell, and how many rings it places on each layer")
        .arg(file(alloc, "A", "The layout, GDSII or OASIS"))?
        .arg(option(alloc, "top", "NAME", "The layout's top cell"))?
        .arg(option(alloc, "ignore", "WORDS", IGNORE_HELP))?
        .arg(flag(alloc, "large", LARGE_HELP))?
        .arg(flag(alloc, "unpack", UNPACK_HELP))
}

/// `digest A.. [--top NAME] [--ignore WORDS] [--large] [--unpack]`.
fn several<'a>(alloc: Global) -> Result<Command<'a>, AllocError>
    ensures { IfOk result (λ c. app_of c ≡ several_app) }
{
    Command::new(alloc, "digest")
        .about(DIGEST_HELP)
        .arg(files(alloc, "A", LAYOUTS_HELP))?
        .arg(option(alloc, "top", "NAME", "The top cell of each layout"))?
        .arg(option(alloc, "ignore", "WORDS", IGNORE_HELP))?
        .arg(flag(alloc, "large", LARGE_HELP))?
        .arg(flag(alloc, "unpack", UNPACK_HELP))
}

/// `digest` with these options and `[--list] [--check] [--quiet]`.
fn digest<'a>(alloc: Global) -> Result<Command<'a>, AllocError>
    ensures { IfOk result (λ c. app_of c ≡ digest_app) }
{
    several(alloc)?
        .arg(flag(alloc, "list", LIST_HELP))?
        .arg(flag(alloc, "check", CHECK_HELP))?
        .arg(flag(alloc, "quiet", QUIET_HELP))
}

/// `cells A [--ignore WORDS] [--large] [--unpack]`.
fn cells<'a>(alloc: Global) -> Result<Command<'a>, AllocError>
    ensures { IfOk result (λ c. app_of c ≡ cells_app) }
{
    Command::new(alloc, "cells")
        .about("Lists a layout's cells, and which of them could be its top")
        .arg(file(alloc, "A", "The layout, GDSII or OASIS"))?
        .arg(option(alloc, "ignore", "WORDS", IGNORE_HELP))?
        .arg(flag(alloc, "large", LARGE_HELP))?
        .arg(flag(alloc, "unpack", UNPACK_HELP))
}

/// A subcommand with `[--progress] [--no-progress]` too. No job depends on them.
fn watched<'a>(alloc: Global, command: Command<'a>) -> Result<Command<'a>, AllocError>
    ensures { IfOk result (λ c. app_of c ≡ watched_app (app_of command.entry)) }
{
    command
        .arg(flag(alloc, "progress", PROGRESS_HELP))?
        .arg(flag(alloc, "no-progress", NO_PROGRESS_HELP))
}

/// A line with the subcommand `compare` only.
fn comparing<'a>(alloc: Global) -> Result<Command<'a>, AllocError>
    ensures { IfOk result (λ c. app_of c ≡ comparing_line) }
{
    Command::new(alloc, "lvl")
        .version("2.0.0")
        .about("Compares two chip mask layouts by the mask that they draw")
        .subcommand_required(true)
        .subcommand(watched(alloc, compare(alloc)?)?)
}

/// A line with the subcommands `compare`, `show` and `digest`.
fn hashing<'a>(alloc: Global) -> Result<Command<'a>, AllocError>
    ensures { IfOk result (λ c. app_of c ≡ hashing_line) }
{
    comparing(alloc)?
        .subcommand(watched(alloc, show(alloc)?)?)?
        .subcommand(watched(alloc, digest(alloc)?)?)
}

/// The whole line: one of the subcommands `compare`, `show`, `digest` and `cells`.
pub(crate) fn program<'a>(alloc: Global) -> Result<Command<'a>, AllocError>
    ensures { IfOk result (λ c. app_of c ≡ line) }
{
    hashing(alloc)?.subcommand(watched(alloc, cells(alloc)?)?)
}
