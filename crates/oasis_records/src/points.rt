//! Point lists of records.
ghost use Rattle.std.specs.Prelude.{◌≡◌, ◌<◌, false};
ghost use Rattle.oasis_values.specs.Input.{has_failed};
ghost use Rattle.oasis_values.specs.PointLists.{IsPointList};
ghost use Rattle.oasis_values.specs.Reads.{Reads};
ghost use Rattle.oasis_records.specs.Fields.{has, If};

use crate::fields::has;
use lvl_grid::Point;
use lvl_io::Read;
use lvl_refusal::Cause;
use oasis_values::{Input, Use, ValueFault};
use std::alloc::Global;
use std::marker::Model;

const POINT_LIST: u8 = 0x20;

/// The vertices of a point list as displacements from its start, in grid steps. The first is the start
/// itself; in a polygon of type 0 or 1 the last is the implied vertex.
#[derive(Debug, Drop)]
pub struct Points {
    vertices: Vec<Point>,
}

impl Model for Points {
    ghost use Rattle.std.specs.Prelude.{List};
    ghost use Rattle.lvl_grid.specs.declared.point.Point.{Point};

    ghost Value = { List Point };

    ghost view = { λ p. p.vertices.items };
}

impl Points {
    /// The vertices.
    pub fn into_vertices(self) -> Vec<Point>
        ensures { result.items ≡ self }
    {
        let Points { vertices } = self;
        vertices
    }
}

// Reads a point list.
fn read_points<R: Read>(
    input: &mut Input<R>,
    alloc: Global,
    purpose: Use,
) -> Result<Points, Cause<ValueFault>>
    ensures reads { Reads R.remaining R.read_errors R.lent (IsPointList purpose) input.old input.new result }
{
    let vertices = input.point_list(alloc, purpose)?;
    Ok(Points { vertices })
}

/// Reads a point list, if the letter P is set.
pub(crate) fn points_if<R: Read>(
    input: &mut Input<R>,
    alloc: Global,
    info: u8,
    purpose: Use,
) -> Result<Option<Points>, Cause<ValueFault>>
    requires { has_failed input.old ≡ false }
    ensures reads { Reads R.remaining R.read_errors R.lent
        (If (has info 0x20) (IsPointList purpose)) input.old input.new result }
{
    if has(info, POINT_LIST) {
        let points = read_points(input, alloc, purpose)?;
        return Ok(Some(points));
    }
    Ok(None)
}
