//! PLACEMENT records.
ghost use Rattle.std.specs.Prelude.{◌≡◌, ◌<◌, false};
ghost use Rattle.oasis_values.specs.Input.{has_failed};
ghost use Rattle.oasis_values.specs.Reads.{Reads};
ghost use Rattle.oasis_records.specs.Cells.{IsCellRef};
ghost use Rattle.oasis_records.specs.Fields.{has, If};
ghost use Rattle.oasis_records.specs.Placements.{turn_of, IsTurnedOf, IsTurned, IsScaledOf, IsScaled};

use crate::cell::{CellRef, read_cell_ref};
use crate::fields::{has, real_if};
use crate::figure::{Position, read_position};
use crate::record::Record;
use lvl_grid::Turn;
use lvl_io::Read;
use lvl_refusal::Cause;
use oasis_values::{Input, Real, ValueFault};
use std::alloc::Global;

const CELL: u8 = 0x80;

const NUMBER: u8 = 0x40;

const MAGNIFICATION: u8 = 0x04;

const ANGLE: u8 = 0x02;

const FLIP: u8 = 0x01;

/// How a placed cell is turned after its reflection, counterclockwise, and magnified.
#[derive(Clone, Copy, Debug, Drop, PartialEq, Eq)]
pub enum Transform {
    /// By a multiple of a right angle, and not magnified.
    Turned(Turn),
    /// By an angle in degrees, with a magnification; `None` for a field that isn't there.
    Scaled {
        magnification: Option<Real>,
        angle: Option<Real>,
    },
}

/// A PLACEMENT record. `None` for the cell stands for the modal variable.
#[derive(Debug, Drop)]
pub struct Placement {
    pub cell: Option<CellRef>,
    /// Whether it is reflected about the x axis.
    pub flip: bool,
    pub transform: Transform,
    pub position: Position,
}

// The turn by its number, from 0 to 3.
fn turn_of(number: u8) -> Turn
    ensures { result ≡ turn_of number }
{
    match number {
        0 => Turn::R0,
        1 => Turn::R90,
        2 => Turn::R180,
        _ => Turn::R270,
    }
}

// Reads the cell, by the letters C and N. Own rule: N without C is ignored.
fn cell_if<R: Read>(
    input: &mut Input<R>,
    alloc: Global,
    info: u8,
) -> Result<Option<CellRef>, Cause<ValueFault>>
    requires { has_failed input.old ≡ false }
    ensures reads { Reads R.remaining R.read_errors R.lent
        (If (has info 0x80) (IsCellRef (has info 0x40))) input.old input.new result }
{
    if has(info, CELL) {
        let by_number = has(info, NUMBER);
        let cell = read_cell_ref(input, alloc, by_number)?;
        return Ok(Some(cell));
    }
    Ok(None)
}

// Reads the fields after the info byte CNXYRAAF. X, Y and R are one bit higher than in a figure.
fn turned_of<R: Read>(
    input: &mut Input<R>,
    alloc: Global,
    info: u8,
) -> Result<Record, Cause<ValueFault>>
    requires { has_failed input.old ≡ false }
    ensures reads { Reads R.remaining R.read_errors R.lent (IsTurnedOf info) input.old input.new result }
{
    let cell = cell_if(input, alloc, info)?;
    let position = read_position(input, alloc, info / 2)?;
    Ok(Record::Placement(Placement {
        cell,
        flip: has(info, FLIP),
        transform: Transform::Turned(turn_of(info / 2 % 4)),
        position,
    }))
}

// Reads the fields after the info byte CNXYRMAF.
fn scaled_of<R: Read>(
    input: &mut Input<R>,
    alloc: Global,
    info: u8,
) -> Result<Record, Cause<ValueFault>>
    requires { has_failed input.old ≡ false }
    ensures reads { Reads R.remaining R.read_errors R.lent (IsScaledOf info) input.old input.new result }
{
    let cell = cell_if(input, alloc, info)?;
    let magnification = real_if(input, info, MAGNIFICATION)?;
    let angle = real_if(input, info, ANGLE)?;
    let position = read_position(input, alloc, info / 2)?;
    Ok(Record::Placement(Placement {
        cell,
        flip: has(info, FLIP),
        transform: Transform::Scaled {
            magnification,
            angle,
        },
        position,
    }))
}

/// Reads a PLACEMENT record with a turn, after its id.
pub(crate) fn read_turned<R: Read>(
    input: &mut Input<R>,
    alloc: Global,
) -> Result<Record, Cause<ValueFault>>
    ensures reads { Reads R.remaining R.read_errors R.lent IsTurned input.old input.new result }
{
    let info = input.byte()?;
    turned_of(input, alloc, info)
}

/// Reads a PLACEMENT record with a magnification and an angle, after its id.
pub(crate) fn read_scaled<R: Read>(
    input: &mut Input<R>,
    alloc: Global,
) -> Result<Record, Cause<ValueFault>>
    ensures reads { Reads R.remaining R.read_errors R.lent IsScaled input.old input.new result }
{
    let info = input.byte()?;
    scaled_of(input, alloc, info)
}
