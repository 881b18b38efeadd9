//! The line that names the cells that could be the top of a file.
ghost use Rattle.std.specs.Prelude.{◌≡◌, ◌++◌, flat_map, take, codes, IfOk, OnOk, option_map};
ghost use Rattle.lvl_report.specs.Tops.{line_of_one, line_of_two, names_text, others_text, tops_line, tops_text};
ghost use Rattle.lvl_report.specs.Tops.{top_option, which_file};

use crate::text::side_name;
use lvl::{CellRefusal, Refusal};
use lvl_cells::CellFault;
use lvl_names::Name;
use lvl_region::Side;
use std::alloc::Global;
use std::io;
use std::io::Write;

/// How many names are given at most.
const MOST_NAMES: usize = 8;

/// The option that names the top of the only file, or of that of a side.
fn top_option(side: Option<Side>) -> &'static str
    ensures { result.now ≡ top_option side }
{
    match side {
        None => "--top",
        Some(Side::First) => "--top-a",
        Some(Side::Second) => "--top-b",
    }
}

/// Appends which file it is: the only one, or that of a side.
fn push_file(text: &mut Vec<u8>, side: Option<Side>) -> io::Result<()>
    ensures { OnOk result (text.new.items ≡ text.old.items ++ which_file side) }
{
    match side {
        None => write!(text, "file"),
        Some(side) => write!(text, "{} file", side_name(side)),
    }
}

/// Appends a name after a comma.
fn push_other(text: &mut Vec<u8>, name: &[u8]) -> io::Result<()>
    ensures { OnOk result (text.new.items ≡ text.old.items ++ (codes ", " ++ name.now)) }
{
    text.write_all(b", ")?;
    text.write_all(name)
}

/// Appends names, each after a comma.
fn push_others(text: &mut Vec<u8>, names: &[Name]) -> io::Result<()>
    ensures { OnOk result
        (text.new.items ≡ text.old.items ++ flat_map (λ other. codes ", " ++ other) names.now) }
{
    for name in names {
        push_other(text, name.as_bytes())?;
    }
    Ok(())
}

/// Appends names, with a comma between them.
fn push_names(text: &mut Vec<u8>, names: &[Name]) -> io::Result<()>
    ensures { OnOk result (text.new.items ≡ text.old.items ++ names_text names.now) }
{
    match names {
        [] => Ok(()),
        [name, others @ ..] => {
            text.write_all(name.as_bytes())?;
            push_others(text, others)
        }
    }
}

/// Appends the first eight of the names, and whether there are more.
fn push_some(text: &mut Vec<u8>, names: &[Name]) -> io::Result<()>
    ensures { OnOk result
        (text.new.items ≡ text.old.items ++ (names_text (take 8 names.now) ++ others_text names.now)) }
{
    if names.len() <= MOST_NAMES {
        return push_names(text, names);
    }
    push_names(text, &names[..MOST_NAMES])?;
    write!(text, ", ..")
}

/// The line for the names of several tops.
fn tops_text(alloc: Global, side: Option<Side>, names: &[Name]) -> io::Result<Vec<u8>>
    ensures { IfOk result (λ text. text.items ≡ tops_text side names.now) }
{
    let mut text = Vec::new(alloc);
    write!(text, "lvl: the ")?;
    push_file(&mut text, side)?;
    let count = names.len();
    write!(text, " has {count} tops: ")?;
    push_some(&mut text, names)?;
    writeln!(text, ": choose one by {}", top_option(side))?;
    Ok(text)
}

/// The line for a library that is refused, if that is since several cells could be its top.
fn tops_line(
    alloc: Global,
    side: Option<Side>,
    refused: &CellRefusal,
) -> io::Result<Option<Vec<u8>>>
    ensures { IfOk result (λ line.
        option_map (λ text. text.items) line ≡ tops_line side refused.now.fault refused.now.tops.items) }
{
    match refused.fault {
        CellFault::ManyTops => Ok(Some(tops_text(alloc, side, &refused.tops)?)),
        _ => Ok(None),
    }
}

/// The line for a refusal of the only file.
pub(crate) fn line_of_one(alloc: Global, refusal: &Refusal) -> io::Result<Option<Vec<u8>>>
    ensures { IfOk result (λ line. option_map (λ text. text.items) line ≡ line_of_one refusal.now) }
{
    match refusal {
        Refusal::Cells(_, refused) => tops_line(alloc, None, refused),
        _ => Ok(None),
    }
}

/// The line for a refusal of one of two files.
pub(crate) fn line_of_two(alloc: Global, refusal: &Refusal) -> io::Result<Option<Vec<u8>>>
    ensures { IfOk result (λ line. option_map (λ text. text.items) line ≡ line_of_two refusal.now) }
{
    match refusal {
        Refusal::Cells(side, refused) => tops_line(alloc, Some(*side), refused),
        _ => Ok(None),
    }
}
