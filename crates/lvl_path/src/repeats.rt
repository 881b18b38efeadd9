//! Points of a path that equal the point before.
ghost use Rattle.std.specs.Prelude.{◌≡◌, IfOk, IfErr};
ghost use Rattle.lvl_path.specs.Repeats.{asked, without_repeats};
ghost use Rattle.lvl_path.specs.Runs.{path_rings, IsPath, IsLowestFault};
ghost use Rattle.lvl_refusal.specs.Refused.{Says};

use crate::PathFault;
use crate::runs::bands;
use lvl_grid::{Point, Ring};
use lvl_refusal::Cause;
use std::alloc::Global;

/// The bands of a path, as [`bands`](crate::bands) returns them. A point that equals the one before is
/// left out first if these are ignored, and otherwise refused; the path draws the same without it (own
/// rule).
///
/// A breach is the fault of lowest number that the path has, without the points that are left out.
pub fn bands_by(
    alloc: Global,
    points: Vec<Point>,
    half: u64,
    start: u64,
    end: u64,
    ignore_repeats: bool,
) -> Result<Vec<Ring>, Cause<PathFault>>
    ensures rings { IfOk result (λ rings.
        rings.items ≡ path_rings (without_repeats points.items) (record { half = half; start = start; end = end })) }
    ensures ok { IfOk result
        (λ _. IsPath (asked ignore_repeats points.items) (record { half = half; start = start; end = end })) }
    ensures err { IfErr result (λ refusal. Says refusal
        (IsLowestFault (asked ignore_repeats points.items) (record { half = half; start = start; end = end }))) }
{
    let points = if ignore_repeats {
        without_repeats(points)
    } else {
        points
    };
    bands(alloc, &points, half, start, end)
}

/// The points without each that equals the one before it.
fn without_repeats(mut points: Vec<Point>) -> Vec<Point>
    ensures { result.items ≡ without_repeats points.items }
{
    points.dedup();
    points
}
