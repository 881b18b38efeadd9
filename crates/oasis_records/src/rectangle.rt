//! RECTANGLE records.
ghost use Rattle.std.specs.Prelude.{◌≡◌, ◌&&◌, not, false};
ghost use Rattle.oasis_values.specs.Input.{has_failed};
ghost use Rattle.oasis_values.specs.Reads.{Reads};
ghost use Rattle.oasis_records.specs.Fields.{has};
ghost use Rattle.oasis_records.specs.Rectangles.{IsRectangleInfo, IsRectangleOf, IsRectangle};
ghost use Rattle.oasis_records.specs.Rules.{reported, reported_breach, written};

use crate::fault::{RecordFault, RecordRule};
use crate::fields::{has, unsigned_if};
use crate::figure::{OnLayer, Position, position_in, read_on_layer};
use crate::record::Record;
use crate::rules::{must, of_values};
use lvl_io::Read;
use lvl_refusal::Cause;
use oasis_values::{Input, ValueFault};
use std::alloc::Global;

const HEIGHT: u8 = 0x20;

const WIDTH: u8 = 0x40;

const SQUARE: u8 = 0x80;

/// A RECTANGLE record. Lengths are in grid steps, and `None` stands for the modal variable.
#[derive(Debug, Drop)]
pub struct Rectangle {
    /// Whether it is a square. Then the record has no height.
    pub is_square: bool,
    pub on: OnLayer,
    pub width: Option<u64>,
    pub height: Option<u64>,
    /// The position of its lower left corner.
    pub position: Position,
}

// Whether the info byte is allowed: a square has no height.
fn is_info(info: u8) -> bool
    ensures { result ≡ not (has info 0x80 && has info 0x20) }
{
    !(has(info, SQUARE) && has(info, HEIGHT))
}

// Reads the info byte SWHXYRDL.
fn read_rectangle_info<R: Read>(input: &mut Input<R>) -> Result<u8, RecordFault>
    ensures reads { Reads R.remaining R.read_errors R.lent
        IsRectangleInfo input.old input.new (reported_breach result) }
{
    let info = input.byte()?;
    must(is_info(info), info, RecordRule::Info)
}

// Reads the fields after the info byte in place.
#[inline(always)]
fn rectangle_of<R: Read>(
    input: &mut Input<R>,
    alloc: Global,
    info: u8,
    rectangle: &mut Rectangle,
) -> Result<(), Cause<ValueFault>>
    requires { has_failed input.old ≡ false }
    ensures reads { Reads R.remaining R.read_errors R.lent
        (IsRectangleOf info) input.old input.new (written result (Record.Rectangle rectangle.new)) }
{
    rectangle.is_square = has(info, SQUARE);
    rectangle.on = read_on_layer(input, info)?;
    rectangle.width = unsigned_if(input, info, WIDTH)?;
    rectangle.height = unsigned_if(input, info, HEIGHT)?;
    position_in(input, alloc, info, &mut rectangle.position)
}

// Reads the fields after the info byte of a rectangle that comes in the place of another record.
#[inline(never)]
fn first_rectangle<R: Read>(
    input: &mut Input<R>,
    alloc: Global,
    info: u8,
    record: &mut Record,
) -> Result<(), Cause<ValueFault>>
    requires { has_failed input.old ≡ false }
    ensures reads { Reads R.remaining R.read_errors R.lent
        (IsRectangleOf info) input.old input.new (written result record.new) }
{
    let mut rectangle = Rectangle {
        is_square: false,
        on: OnLayer {
            layer: None,
            datatype: None,
        },
        width: None,
        height: None,
        position: Position::modal(),
    };
    rectangle_of(input, alloc, info, &mut rectangle)?;
    *record = Record::Rectangle(rectangle);
    Ok(())
}

// Reads the fields after the info byte, in place if the record before was a rectangle, too.
#[inline(always)]
fn rectangle_in<R: Read>(
    input: &mut Input<R>,
    alloc: Global,
    info: u8,
    record: &mut Record,
) -> Result<(), Cause<ValueFault>>
    requires { has_failed input.old ≡ false }
    ensures reads { Reads R.remaining R.read_errors R.lent
        (IsRectangleOf info) input.old input.new (written result record.new) }
{
    match record {
        Record::Rectangle(rectangle) => rectangle_of(input, alloc, info, rectangle),
        _ => first_rectangle(input, alloc, info, record),
    }
}

/// Reads a RECTANGLE record after its id.
#[inline(always)]
pub(crate) fn read_rectangle<R: Read>(
    input: &mut Input<R>,
    alloc: Global,
    record: &mut Record,
) -> Result<(), Cause<RecordFault>>
    ensures reads { Reads R.remaining R.read_errors R.lent
        IsRectangle input.old input.new (reported (written result record.new)) }
{
    let info = read_rectangle_info(input)?;
    of_values(rectangle_in(input, alloc, info, record))
}
