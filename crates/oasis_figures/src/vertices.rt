//! The vertices of polygons and paths: point lists, moved to the position of a figure.
ghost use Rattle.std.specs.Prelude.{◌≡◌, [], map, All, SomeIff, IfOk, IfErr, OnOk, is_some, option_map, unwrap_or};
ghost use Rattle.std.specs.Option.{option_or};
ghost use Rattle.lvl_refusal.specs.Refused.{Says};
ghost use Rattle.lvl_grid.specs.Turn.{FitsPoint, shifted};

use crate::rule::FigureRule;
use lvl_grid::Point;
use lvl_refusal::Cause;
use oasis_records::Points;
use std::alloc::Global;

/// The point moved by another; `None` if that doesn't fit in 64 bits.
fn shifted(by: Point, point: Point) -> Option<Point>
    ensures { SomeIff result (FitsPoint (shifted by point)) (shifted by point) }
{
    let x = point.x.checked_add(by.x)?;
    let y = point.y.checked_add(by.y)?;
    Some(Point { x, y })
}

/// The points, each moved by another, if all of them then fit in 64 bits.
pub(crate) fn all_shifted(
    alloc: Global,
    by: Point,
    points: &[Point],
) -> Result<Vec<Point>, Cause<FigureRule>>
    ensures value { IfOk result (λ vertices. vertices.items ≡ map (shifted by) points.now) }
    ensures fit { OnOk result (All FitsPoint (map (shifted by) points.now)) }
    ensures refused { IfErr result
        (λ e. Says e (λ rule. (rule ≡ FigureRule.OutOfRange) × ¬ All FitsPoint (map (shifted by) points.now))) }
{
    let mut vertices = Vec::with_capacity(alloc, points.len())?;
    for point in points {
        let Some(vertex) = shifted(by, *point) else {
            return Err(Cause::Breach(FigureRule::OutOfRange));
        };
        vertices.push_reserved(vertex);
    }
    Ok(vertices)
}

/// The points of a list, if there is one.
pub(crate) fn listed(points: Option<Points>) -> Option<Vec<Point>>
    ensures { option_map (λ v. v.items) result ≡ points }
{
    match points {
        Some(points) => Some(points.into_vertices()),
        None => None,
    }
}

/// Whether there is a point list: the record has one, or the modal one is defined.
pub(crate) fn are_known(points: &Option<Points>, modal: &Option<Vec<Point>>) -> bool
    ensures { result ≡ is_some (option_or points.now (option_map (λ v. v.items) modal.now)) }
{
    points.is_some() || modal.is_some()
}

/// The points of the list, or else those of the modal one; empty if there is neither.
pub(crate) fn known<'a>(
    listed: &'a Option<Vec<Point>>,
    modal: &'a Option<Vec<Point>>,
) -> &'a [Point]
    ensures { result.now
        ≡ unwrap_or (option_or (option_map (λ v. v.items) listed.now) (option_map (λ v. v.items) modal.now)) [] }
{
    match (listed, modal) {
        (Some(points), _) | (None, Some(points)) => points,
        (None, None) => &[],
    }
}
