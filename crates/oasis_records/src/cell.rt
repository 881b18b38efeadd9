//! CELL and CELLNAME records.
ghost use Rattle.std.specs.Prelude.{◌≡◌};
ghost use Rattle.oasis_values.specs.Reads.{Reads};
ghost use Rattle.oasis_records.specs.Cells.{IsCellRef, IsCell, IsCellName, IsNumberedName};

use crate::record::Record;
use crate::text::{Name, read_text};
use lvl_io::Read;
use lvl_refusal::Cause;
use oasis_values::{Input, Text, ValueFault};
use std::alloc::Global;

/// A cell by the number of its name, or by its name.
#[derive(Debug, Drop)]
pub enum CellRef {
    /// The number of a CELLNAME record.
    Number(u64),
    /// A name, of at most 255 bytes (own rule).
    Name(Name),
}

/// A CELLNAME record.
#[derive(Debug, Drop)]
pub struct CellName {
    /// The name, of at most 255 bytes (own rule).
    pub name: Name,
    /// Its number. If it has none, it is the number of such records before it.
    pub number: Option<u64>,
}

/// Reads a cell by its number or by its name.
pub(crate) fn read_cell_ref<R: Read>(
    input: &mut Input<R>,
    alloc: Global,
    by_number: bool,
) -> Result<CellRef, Cause<ValueFault>>
    ensures reads { Reads R.remaining R.read_errors R.lent (IsCellRef by_number) input.old input.new result }
{
    if by_number {
        let number = input.unsigned()?;
        return Ok(CellRef::Number(number));
    }
    let name = read_text(input, alloc, Text::N)?;
    Ok(CellRef::Name(name))
}

/// Reads a CELL record after its id.
pub(crate) fn read_cell<R: Read>(
    input: &mut Input<R>,
    alloc: Global,
    by_number: bool,
) -> Result<Record, Cause<ValueFault>>
    ensures reads { Reads R.remaining R.read_errors R.lent (IsCell by_number) input.old input.new result }
{
    let cell = read_cell_ref(input, alloc, by_number)?;
    Ok(Record::Cell(cell))
}

/// Reads a CELLNAME record without a number, after its id.
pub(crate) fn read_cell_name<R: Read>(
    input: &mut Input<R>,
    alloc: Global,
) -> Result<Record, Cause<ValueFault>>
    ensures reads { Reads R.remaining R.read_errors R.lent IsCellName input.old input.new result }
{
    let name = read_text(input, alloc, Text::N)?;
    Ok(Record::CellName(CellName { name, number: None }))
}

/// Reads a CELLNAME record with a number, after its id.
pub(crate) fn read_numbered_name<R: Read>(
    input: &mut Input<R>,
    alloc: Global,
) -> Result<Record, Cause<ValueFault>>
    ensures reads { Reads R.remaining R.read_errors R.lent IsNumberedName input.old input.new result }
{
    let name = read_text(input, alloc, Text::N)?;
    let number = input.unsigned()?;
    Ok(Record::CellName(CellName {
        name,
        number: Some(number),
    }))
}
