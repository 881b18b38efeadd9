//! The number and the name of each fault that belongs to no format, and what it carries, as text.
ghost use Rattle.std.specs.Prelude.{◌≡◌, ◌++◌, flat_map, OnOk};
ghost use Rattle.lvl_text.specs.Faults.{spaced, path_fault, cell_fault, flat_fault, ignore_fault, view_fault};

use lvl_cells::CellFault;
use lvl_flat::FlatFault;
use lvl_path::PathFault;
use lvl_profile::IgnoreFault;
use lvl_view::ViewFault;
use std::io;
use std::io::Write;

/// The text of a fault of a path.
pub fn path_fault(fault: PathFault) -> &'static str
    ensures { result.now ≡ path_fault fault }
{
    match fault {
        PathFault::NoWidth => "1 NoWidth",
        PathFault::FewPoints => "2 FewPoints",
        PathFault::Oblique => "3 Oblique",
        PathFault::RepeatedPoint => "4 RepeatedPoint",
        PathFault::TurnsBack => "5 TurnsBack",
        PathFault::ShortRun => "6 ShortRun",
        PathFault::OutOfRange => "7 OutOfRange",
    }
}

/// The number and the name of a fault of a view, without the Layer that it carries.
pub fn view_fault(fault: ViewFault) -> &'static str
    ensures { result.now ≡ view_fault fault }
{
    match fault {
        ViewFault::MapText => "1 MapText",
        ViewFault::WindowText => "2 WindowText",
        ViewFault::MapTwice(_) => "3 MapTwice",
        ViewFault::EmptyWindow => "4 EmptyWindow",
    }
}

/// The number and the name of a fault of the text of what is ignored.
pub fn ignore_fault(fault: IgnoreFault) -> &'static str
    ensures { result.now ≡ ignore_fault fault }
{
    match fault {
        IgnoreFault::IgnoreText => "1 IgnoreText",
    }
}

/// Appends a space and the name.
pub fn push_name(text: &mut Vec<u8>, name: &[u8]) -> io::Result<()>
    ensures { OnOk result (text.new.items ≡ text.old.items ++ spaced name.now) }
{
    text.write_all(b" ")?;
    text.write_all(name)
}

/// Appends each name after a space.
fn push_names(text: &mut Vec<u8>, names: &[Vec<u8>]) -> io::Result<()>
    ensures { OnOk result (text.new.items ≡ text.old.items ++ flat_map (λ name. spaced name.items) names.now) }
{
    for name in names {
        push_name(text, name)?;
    }
    Ok(())
}

/// Appends a fault of the cells of a library.
pub fn push_cell_fault(text: &mut Vec<u8>, fault: &CellFault) -> io::Result<()>
    ensures { OnOk result (text.new.items ≡ text.old.items ++ cell_fault fault.now) }
{
    match fault {
        CellFault::NoCell => write!(text, "1 NoCell"),
        CellFault::DuplicateCell(name) => {
            write!(text, "2 DuplicateCell")?;
            push_name(text, name)
        }
        CellFault::MissingCell(from, name) => {
            write!(text, "3 MissingCell")?;
            push_name(text, from)?;
            push_name(text, name)
        }
        CellFault::Cycle(names) => {
            write!(text, "4 Cycle")?;
            push_names(text, names)
        }
        CellFault::TopMissing => write!(text, "5 TopMissing"),
        CellFault::ManyTops => write!(text, "6 ManyTops"),
        CellFault::TooManyPlacements => write!(text, "7 TooManyPlacements"),
        CellFault::TooManyRings => write!(text, "8 TooManyRings"),
    }
}

/// Appends a fault of what the top places.
pub fn push_flat_fault(text: &mut Vec<u8>, fault: &FlatFault) -> io::Result<()>
    ensures { OnOk result (text.new.items ≡ text.old.items ++ flat_fault fault.now) }
{
    match fault {
        FlatFault::OutOfRange(name) => {
            write!(text, "1 OutOfRange")?;
            push_name(text, name)
        }
    }
}
