//! The lines of a grid: the coordinates of all vertices along an axis, sorted and without
//! duplicates.
ghost use Rattle.std.specs.Prelude.{◌≡◌, ◌+◌, ◌<◌, ◌≤◌, ◌⊎◌, ◌++◌, map, length, slice_index, IfOk, IfNone, IfSome};
ghost use Rattle.lvl_region.specs.Grid.{passed, along, AreLinesOf};
ghost use Rattle.lvl_region.specs.Joined.{IsNext};

use lvl_grid::{Point, Ring};
use std::alloc::{AllocError, Global};

/// One of the two axes.
#[derive(Clone, Copy)]
pub(crate) enum Axis {
    X,
    Y,
}

/// The coordinate of the point along the axis.
fn place_along(axis: Axis, point: Point) -> i64
    ensures { result ≡ along axis point }
{
    match axis {
        Axis::X => point.x,
        Axis::Y => point.y,
    }
}

/// Appends the points' coordinates along the axis to the lines.
fn push_places(lines: &mut Vec<i64>, axis: Axis, points: &[Point]) -> Result<(), AllocError>
    ensures { IfOk result (λ _. lines.new.items ≡ lines.old.items ++ map (along axis) points.now) }
{
    for point in points {
        lines.push(place_along(axis, *point))?;
    }
    Ok(())
}

/// The coordinates of all vertices along the axis, sorted and without duplicates.
pub(crate) fn lines_of(alloc: Global, rings: &[Ring], axis: Axis) -> Result<Vec<i64>, AllocError>
    ensures { IfOk result (λ lines. AreLinesOf rings.now axis lines.items) }
{
    let mut lines = Vec::new(alloc);
    for ring in rings {
        push_places(&mut lines, axis, ring.points())?;
    }
    lines.sort_unstable();
    lines.dedup();
    Ok(lines)
}

/// The number of lines that are at most `v`.
pub(crate) fn count_passed(lines: &[i64], v: i64) -> usize
    ensures { result ≡ passed lines.now v }
{
    lines.iter().filter(|line| **line <= v).count()
}

/// The lesser of line `i` of the first list and line `j` of the second, or the only one that there
/// is, or None if there is neither.
pub(crate) fn next_line(first: &[i64], i: usize, second: &[i64], j: usize) -> Option<i64>
    ensures some { IfSome result (λ line. IsNext first.now i line ⊎ IsNext second.now j line) }
    ensures past_first { IfNone result (length first.now ≤ i) }
    ensures past_second { IfNone result (length second.now ≤ j) }
{
    if i >= first.len() {
        return second.get(j).copied();
    }
    if j < second.len() && second[j] < first[i] {
        return Some(second[j]);
    }
    Some(first[i])
}

/// `i + 1` if line `i` of the list is `line`, else `i`.
pub(crate) fn step_past(lines: &[i64], i: usize, line: i64) -> usize
    ensures one { result ≤ i + 1 }
    ensures stays { i ≤ result }
    ensures steps { IsNext lines.now i line → result ≡ i + 1 }
    ensures only { i < result → IsNext lines.now i line }
{
    if i < lines.len() && lines[i] == line {
        i + 1
    } else {
        i
    }
}
