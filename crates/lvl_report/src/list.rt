//! The text of a list of cells.
ghost use Rattle.std.specs.Prelude.{◌≡◌, ◌++◌, flat_map, OnOk, IfOk};
ghost use Rattle.lvl_report.specs.Texts.{cell_line, list_text, text_of_list, top_mark};

use crate::text::{push_head, push_refusal};
use lvl::{CellList, ListedCell, Refusal};
use lvl_text::push_name;
use std::alloc::{AllocError, Global};
use std::io;
use std::io::Write;

/// What is at the end of the line of a cell.
fn top_mark(is_top: bool) -> &'static str
    ensures { result.now ≡ top_mark is_top }
{
    if is_top { " top" } else { "" }
}

/// Appends the line of a cell.
fn push_cell(text: &mut Vec<u8>, cell: &ListedCell) -> io::Result<()>
    ensures { OnOk result (text.new.items ≡ text.old.items ++ cell_line cell.now) }
{
    write!(text, "cell")?;
    push_name(text, cell.name.as_bytes())?;
    let (shapes, references) = (cell.shapes, cell.references);
    let mark = top_mark(cell.is_top);
    writeln!(text, " shapes {shapes} references {references}{mark}")
}

/// Appends the line of each cell.
fn push_cells(text: &mut Vec<u8>, cells: &[ListedCell]) -> io::Result<()>
    ensures { OnOk result (text.new.items ≡ text.old.items ++ flat_map cell_line cells.now) }
{
    for cell in cells {
        push_cell(text, cell)?;
    }
    Ok(())
}

/// Appends what is listed of a layout.
fn push_list(text: &mut Vec<u8>, list: &CellList) -> io::Result<()>
    ensures { OnOk result (text.new.items ≡ text.old.items ++ list_text list.now) }
{
    write!(text, "file: ")?;
    push_head(text, &list.head)?;
    let cells = list.cells.len();
    write!(text, "\ncells: {cells}\n")?;
    push_cells(text, &list.cells)
}

/// Appends what is listed, or a refusal.
fn push_list_answer(text: &mut Vec<u8>, answer: &Result<CellList, Refusal>) -> io::Result<()>
    ensures { OnOk result (text.new.items ≡ text.old.items ++ text_of_list answer.now) }
{
    match answer {
        Ok(list) => push_list(text, list),
        Err(refusal) => push_refusal(text, refusal),
    }
}

/// The text of what is listed: what the file says about itself, the number of its cells, and a line for each.
/// A refusal is one line. It fails only if it is out of memory.
pub(crate) fn form_list(
    alloc: Global,
    answer: &Result<CellList, Refusal>,
) -> Result<Vec<u8>, AllocError>
    ensures { IfOk result (λ text. text.items ≡ text_of_list answer.now) }
{
    let mut text = Vec::new(alloc);
    match push_list_answer(&mut text, answer) {
        Ok(()) => Ok(text),
        Err(_) => Err(AllocError),
    }
}
