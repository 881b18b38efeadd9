//! What figures have in common: a layer and datatype, and a position.
ghost use Rattle.std.specs.Prelude.{◌≡◌, false, true};
ghost use Rattle.oasis_values.specs.Faults.{as_breach};
ghost use Rattle.oasis_values.specs.Input.{has_failed};
ghost use Rattle.oasis_values.specs.Reads.{Reads};
ghost use Rattle.oasis_values.specs.Repetitions.{IsRepetition};
ghost use Rattle.oasis_records.specs.Fields.{has, If, IsOnLayer, IsPosition};
ghost use Rattle.oasis_records.specs.Rules.{written};

use crate::fields::{has, repetition_if, signed_if, unsigned_if};
use lvl_io::Read;
use lvl_refusal::Cause;
use oasis_values::{Input, Repetition, ValueFault};
use std::alloc::Global;

const LAYER: u8 = 0x01;

const DATATYPE: u8 = 0x02;

const REPETITION: u8 = 0x04;

const Y: u8 = 0x08;

const X: u8 = 0x10;

/// The layer and datatype in the record of a figure; `None` stands for the modal variable.
#[derive(Clone, Copy, Debug, Drop, PartialEq, Eq)]
pub struct OnLayer {
    pub layer: Option<u64>,
    pub datatype: Option<u64>,
}

/// The position and the repetition in a record, in grid steps; `None` for a field that isn't there.
#[derive(Debug, Drop)]
pub struct Position {
    pub x: Option<i64>,
    pub y: Option<i64>,
    pub repetition: Option<Repetition>,
}

// Reads the layer and the datatype, by the letters L and D.
#[inline(always)]
pub(crate) fn read_on_layer<R: Read>(input: &mut Input<R>, info: u8) -> Result<OnLayer, ValueFault>
    requires { has_failed input.old ≡ false }
    ensures reads { Reads R.remaining R.read_errors R.lent (IsOnLayer info) input.old input.new (as_breach result) }
{
    let layer = unsigned_if(input, info, LAYER)?;
    let datatype = unsigned_if(input, info, DATATYPE)?;
    Ok(OnLayer { layer, datatype })
}

impl Position {
    /// The position in a record that gives none.
    pub(crate) fn modal() -> Position {
        Position {
            x: None,
            y: None,
            repetition: None,
        }
    }
}

// Reads x, y and the repetition, by the letters X, Y and R.
pub(crate) fn read_position<R: Read>(
    input: &mut Input<R>,
    alloc: Global,
    info: u8,
) -> Result<Position, Cause<ValueFault>>
    requires { has_failed input.old ≡ false }
    ensures reads { Reads R.remaining R.read_errors R.lent (IsPosition info) input.old input.new result }
{
    let mut position = Position::modal();
    position_in(input, alloc, info, &mut position)?;
    Ok(position)
}

// Reads x, y and the repetition in place, by the letters X, Y and R.
#[inline(always)]
pub(crate) fn position_in<R: Read>(
    input: &mut Input<R>,
    alloc: Global,
    info: u8,
    position: &mut Position,
) -> Result<(), Cause<ValueFault>>
    requires { has_failed input.old ≡ false }
    ensures reads { Reads R.remaining R.read_errors R.lent
        (IsPosition info) input.old input.new (written result position.new) }
{
    position.x = signed_if(input, info, X)?;
    position.y = signed_if(input, info, Y)?;
    repetition_in(input, alloc, info, &mut position.repetition)
}

// Reads a repetition in place, by the letter R. Mostly there is none, neither in the record nor in its place.
#[inline(always)]
fn repetition_in<R: Read>(
    input: &mut Input<R>,
    alloc: Global,
    info: u8,
    repetition: &mut Option<Repetition>,
) -> Result<(), Cause<ValueFault>>
    requires { has_failed input.old ≡ false }
    ensures reads { Reads R.remaining R.read_errors R.lent
        (If (has info 0x04) (IsRepetition true)) input.old input.new (written result repetition.new) }
{
    if !has(info, REPETITION) && repetition.is_none() {
        return Ok(());
    }
    replace_repetition(input, alloc, info, repetition)
}

// Reads a repetition, by the letter R.
#[inline(never)]
fn replace_repetition<R: Read>(
    input: &mut Input<R>,
    alloc: Global,
    info: u8,
    repetition: &mut Option<Repetition>,
) -> Result<(), Cause<ValueFault>>
    requires { has_failed input.old ≡ false }
    ensures reads { Reads R.remaining R.read_errors R.lent
        (If (has info 0x04) (IsRepetition true)) input.old input.new (written result repetition.new) }
{
    *repetition = repetition_if(input, alloc, info, REPETITION)?;
    Ok(())
}
