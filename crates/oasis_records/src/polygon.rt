//! POLYGON records.
ghost use Rattle.std.specs.Prelude.{◌≡◌, false};
ghost use Rattle.oasis_values.specs.Input.{has_failed};
ghost use Rattle.oasis_values.specs.Reads.{Reads};
ghost use Rattle.oasis_records.specs.Polygons.{IsPolygonOf, IsPolygon};
ghost use Rattle.oasis_records.specs.Rules.{reported};

use crate::fault::RecordFault;
use crate::figure::{OnLayer, Position, read_on_layer, read_position};
use crate::info::read_info;
use crate::points::{Points, points_if};
use crate::record::Record;
use crate::rules::of_values;
use lvl_io::Read;
use lvl_refusal::Cause;
use oasis_values::{Input, Use, ValueFault};
use std::alloc::Global;

/// The info byte is below this: its two highest bits are reserved.
const RESERVED: u8 = 0x40;

/// A POLYGON record. Lengths are in grid steps, and `None` stands for the modal variable.
#[derive(Debug, Drop)]
pub struct Polygon {
    pub on: OnLayer,
    pub points: Option<Points>,
    /// The position of its first vertex.
    pub position: Position,
}

// Reads the fields after the info byte 00PXYRDL.
fn polygon_of<R: Read>(
    input: &mut Input<R>,
    alloc: Global,
    info: u8,
) -> Result<Record, Cause<ValueFault>>
    requires { has_failed input.old ≡ false }
    ensures reads { Reads R.remaining R.read_errors R.lent (IsPolygonOf info) input.old input.new result }
{
    let on = read_on_layer(input, info)?;
    let points = points_if(input, alloc, info, Use::Polygon)?;
    let position = read_position(input, alloc, info)?;
    Ok(Record::Polygon(Polygon {
        on,
        points,
        position,
    }))
}

/// Reads a POLYGON record after its id.
pub(crate) fn read_polygon<R: Read>(
    input: &mut Input<R>,
    alloc: Global,
) -> Result<Record, Cause<RecordFault>>
    ensures reads { Reads R.remaining R.read_errors R.lent IsPolygon input.old input.new (reported result) }
{
    let info = read_info(input, RESERVED)?;
    of_values(polygon_of(input, alloc, info))
}
