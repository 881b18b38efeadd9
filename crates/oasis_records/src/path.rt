//! PATH records.
ghost use Rattle.std.specs.Prelude.{◌≡◌, false};
ghost use Rattle.oasis_values.specs.Faults.{as_breach};
ghost use Rattle.oasis_values.specs.Input.{has_failed};
ghost use Rattle.oasis_values.specs.Reads.{Reads};
ghost use Rattle.oasis_records.specs.Paths.{kind_of, IsExtension, AreEndsOf, AreEnds, AreEndsIf, IsStrokeOf};
ghost use Rattle.oasis_records.specs.Paths.{IsStroke, IsPathOf, IsPath};
ghost use Rattle.oasis_records.specs.Fields.{has};
ghost use Rattle.oasis_records.specs.Rules.{reported, reported_breach};

use crate::fault::RecordFault;
use crate::fields::{has, unsigned_if};
use crate::figure::{OnLayer, Position, read_on_layer, read_position};
use crate::info::read_info;
use crate::points::{Points, points_if};
use crate::record::Record;
use crate::rules::of_values;
use lvl_io::Read;
use lvl_refusal::Cause;
use oasis_values::{Input, Use, ValueFault};
use std::alloc::Global;

const HALF_WIDTH: u8 = 0x40;

const ENDS: u8 = 0x80;

/// A scheme byte is below this: its four highest bits are reserved.
const RESERVED: u8 = 0x10;

/// How far a path reaches beyond an end.
#[derive(Clone, Copy, Debug, Drop, PartialEq, Eq)]
pub enum Extension {
    /// As far as the modal variable says.
    Modal,
    /// Not at all.
    Flush,
    /// Half its width.
    HalfWidth,
    /// This far, in grid steps.
    Explicit(i64),
}

/// The extensions at both ends of a path.
#[derive(Clone, Copy, Debug, Drop, PartialEq, Eq)]
pub struct Ends {
    pub start: Extension,
    pub end: Extension,
}

/// A PATH record. Lengths are in grid steps, and `None` stands for the modal variable.
#[derive(Debug, Drop)]
pub struct Path {
    pub on: OnLayer,
    pub half_width: Option<u64>,
    pub ends: Option<Ends>,
    pub points: Option<Points>,
    /// The position of its first point.
    pub position: Position,
}

/// The fields before the point list.
#[derive(Clone, Copy, Drop)]
pub struct Stroke {
    info: u8,
    on: OnLayer,
    half_width: Option<u64>,
    ends: Option<Ends>,
}

/// The kinds of extensions.
#[derive(Clone, Copy, Drop)]
pub enum Kind {
    Modal,
    Flush,
    HalfWidth,
    Explicit,
}

// The kind of an extension by its number, from 0 to 3.
fn kind_of(number: u8) -> Kind
    ensures { result ≡ kind_of number }
{
    match number {
        0 => Kind::Modal,
        1 => Kind::Flush,
        2 => Kind::HalfWidth,
        _ => Kind::Explicit,
    }
}

// Reads an extension of that kind.
fn read_extension<R: Read>(input: &mut Input<R>, kind: Kind) -> Result<Extension, ValueFault>
    requires { has_failed input.old ≡ false }
    ensures reads { Reads R.remaining R.read_errors R.lent
        (IsExtension kind) input.old input.new (as_breach result) }
{
    match kind {
        Kind::Modal => Ok(Extension::Modal),
        Kind::Flush => Ok(Extension::Flush),
        Kind::HalfWidth => Ok(Extension::HalfWidth),
        Kind::Explicit => {
            let far = input.signed()?;
            Ok(Extension::Explicit(far))
        }
    }
}

// Reads the extensions after the scheme byte 0000SSEE.
fn ends_of<R: Read>(input: &mut Input<R>, scheme: u8) -> Result<Ends, ValueFault>
    requires { has_failed input.old ≡ false }
    ensures reads { Reads R.remaining R.read_errors R.lent
        (AreEndsOf scheme) input.old input.new (as_breach result) }
{
    let first = kind_of(scheme / 4);
    let second = kind_of(scheme % 4);
    let start = read_extension(input, first)?;
    let end = read_extension(input, second)?;
    Ok(Ends { start, end })
}

// Reads the scheme byte and the extensions.
fn read_ends<R: Read>(input: &mut Input<R>) -> Result<Option<Ends>, RecordFault>
    ensures reads { Reads R.remaining R.read_errors R.lent AreEnds input.old input.new (reported_breach result) }
{
    let scheme = read_info(input, RESERVED)?;
    let ends = ends_of(input, scheme)?;
    Ok(Some(ends))
}

// Reads the scheme byte and the extensions, if the letter E is set.
fn ends_if<R: Read>(input: &mut Input<R>, info: u8) -> Result<Option<Ends>, RecordFault>
    requires { has_failed input.old ≡ false }
    ensures reads { Reads R.remaining R.read_errors R.lent
        (AreEndsIf (has info 0x80)) input.old input.new (reported_breach result) }
{
    if has(info, ENDS) {
        return read_ends(input);
    }
    Ok(None)
}

// Reads the fields after the info byte EWPXYRDL, before the point list.
fn stroke_of<R: Read>(input: &mut Input<R>, info: u8) -> Result<Stroke, RecordFault>
    requires { has_failed input.old ≡ false }
    ensures reads { Reads R.remaining R.read_errors R.lent
        (IsStrokeOf info) input.old input.new (reported_breach result) }
{
    let on = read_on_layer(input, info)?;
    let half_width = unsigned_if(input, info, HALF_WIDTH)?;
    let ends = ends_if(input, info)?;
    Ok(Stroke {
        info,
        on,
        half_width,
        ends,
    })
}

// Reads the info byte, and the fields before the point list.
fn read_stroke<R: Read>(input: &mut Input<R>) -> Result<Stroke, RecordFault>
    ensures reads { Reads R.remaining R.read_errors R.lent IsStroke input.old input.new (reported_breach result) }
{
    let info = input.byte()?;
    stroke_of(input, info)
}

// Reads the point list and the position.
fn path_of<R: Read>(
    input: &mut Input<R>,
    alloc: Global,
    stroke: Stroke,
) -> Result<Record, Cause<ValueFault>>
    requires { has_failed input.old ≡ false }
    ensures reads { Reads R.remaining R.read_errors R.lent (IsPathOf stroke) input.old input.new result }
{
    let points = points_if(input, alloc, stroke.info, Use::Path)?;
    let position = read_position(input, alloc, stroke.info)?;
    Ok(Record::Path(Path {
        on: stroke.on,
        half_width: stroke.half_width,
        ends: stroke.ends,
        points,
        position,
    }))
}

/// Reads a PATH record after its id.
pub(crate) fn read_path<R: Read>(
    input: &mut Input<R>,
    alloc: Global,
) -> Result<Record, Cause<RecordFault>>
    ensures reads { Reads R.remaining R.read_errors R.lent IsPath input.old input.new (reported result) }
{
    let stroke = read_stroke(input)?;
    of_values(path_of(input, alloc, stroke))
}
