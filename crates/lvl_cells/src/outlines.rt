//! A list of kept rings.
ghost use Rattle.std.specs.Prelude.{◌≡◌, ◌<◌, ◌++◌, ◌∷◌, [], length, get_or, All, IsTrue, IfOk, IfSome, OnOk};
ghost use Rattle.std.specs.Prelude.{◌+◌, ◌*◌};
ghost use Rattle.lvl_grid.specs.Winding.{IsRing};
ghost use Rattle.lvl_names.specs.Shifts.{IsBetween};
ghost use Rattle.lvl_cells.specs.Stretches.{stretch_at};
ghost use Rattle.lvl_cells.specs.inside.Outlines.{outline_in, rectangle_to, ring_of};
ghost use Rattle.lvl_cells.specs.inside.Outlines.{AddsStretches, AreStretches, HasCorners, IsInReach};
ghost use Rattle.lvl_cells.specs.inside.Outlines.{IsKept, IsOutline};
ghost use Rattle.lvl_cells.specs.inside.Spans.{IsPrefixOf};

use crate::lists::push_lean;
use crate::moved::{STRETCH, reach_of};
use crate::outline::Outline;
use crate::shape_lists::{kept_count, kept_sum};
use lvl_grid::{Point, Ring};
use std::alloc::{AllocError, Global};
use std::marker::Model;

/// The reach of a ring of at least so many points is kept.
const LONG: usize = 64;

/// A ring: the kept points with an index from `begin` up to `end`, which is excluded. One point is the
/// diagonal of a rectangle, whose first edge is along y or along x. Before them are, by two points each, the
/// corners of the reaches of the ring's `stretches`, and before these, if `has_reach`, those of its own reach.
#[derive(Clone, Copy)]
pub(crate) struct OutlineSpan {
    pub begin: u32,
    pub end: u32,
    pub along_y: bool,
    pub has_reach: bool,
    pub stretches: u16,
}

/// Rings, of which rectangles from the origin are kept by their diagonals.
#[derive(Drop)]
pub(crate) struct Outlines {
    points: Vec<Point>,
    spans: Vec<OutlineSpan>,
}

impl Model for Outlines {
    ghost use Rattle.std.specs.Prelude.{List, map, All};
    ghost use Rattle.lvl_grid.specs.declared.point.Point.{Point};
    ghost use Rattle.lvl_cells.specs.inside.Outlines.{outline_in, IsOutline};

    ghost Value = { List (List Point) };

    ghost view = { λ o. map (outline_in o.points.items) o.spans.items };

    ghost invariant = { λ o. All (IsOutline o.points.items) o.spans.items };
}

/// Appends the corners of the reach of a ring if it is long. Reports whether it did.
fn keep_reach(points: &mut Vec<Point>, ring: &[Point]) -> Result<bool, AllocError>
    ensures corners { IfOk result (λ kept. IsTrue kept → HasCorners points.new.items ring.now) }
    ensures before { IsPrefixOf points.old.items points.new.items }
{
    if ring.len() < LONG {
        return Ok(false);
    }
    let Some((low, high)) = reach_of(ring) else {
        return Ok(false);
    };
    points.extend_from_slice(&[low, high])?;
    Ok(true)
}

/// The least and the greatest coordinates of the points of a stretch of a ring, or None if it has fewer.
fn reach_of_stretch(ring: &[Point], k: u16) -> Option<(Point, Point)>
    ensures { IfSome result (λ reach. All (IsBetween reach.0 reach.1) (stretch_at ring.now k)) }
{
    let begin = STRETCH * usize::from(k);
    if ring.len() < begin + STRETCH {
        return None;
    }
    reach_of(&ring[begin..begin + STRETCH])
}

/// Appends the corners of the reach of each stretch of a ring. Returns the number of stretches.
fn keep_stretches(points: &mut Vec<Point>, ring: &[Point]) -> Result<u16, AllocError>
    ensures added { IfOk result (λ count. AddsStretches points.old.items points.new.items count ring.now) }
    ensures before { IsPrefixOf points.old.items points.new.items }
{
    let mut count = 0;
    while count < u16::MAX {
        let Some((low, high)) = reach_of_stretch(ring, count) else {
            return Ok(count);
        };
        points.extend_from_slice(&[low, high])?;
        count += 1;
    }
    Ok(count)
}

/// Keeps a ring by its points.
fn keep_points(points: &mut Vec<Point>, ring: &[Point]) -> Result<OutlineSpan, AllocError>
    requires { IsRing ring.now }
    ensures kept { IfOk result (λ span. IsKept points.new.items span ring.now) }
    ensures before { IsPrefixOf points.old.items points.new.items }
{
    let has_reach = keep_reach(points, ring)?;
    let stretches = keep_stretches(points, ring)?;
    let begin = kept_count(points.len())?;
    let end = kept_sum(points.len(), ring.len())?;
    points.extend_from_slice(ring)?;
    Ok(OutlineSpan {
        begin,
        end,
        along_y: false,
        has_reach,
        stretches,
    })
}

/// Keeps the rectangle from the origin to the opposite corner.
fn keep_diagonal(
    points: &mut Vec<Point>,
    diagonal: Point,
    along_y: bool,
) -> Result<OutlineSpan, AllocError>
    ensures kept { IfOk result (λ span. IsKept points.new.items span (rectangle_to diagonal along_y)) }
    ensures before { IsPrefixOf points.old.items points.new.items }
{
    let begin = kept_count(points.len())?;
    let end = kept_sum(points.len(), 1)?;
    push_lean(points, diagonal)?;
    Ok(OutlineSpan {
        begin,
        end,
        along_y,
        has_reach: false,
        stretches: 0,
    })
}

/// The least and the greatest coordinates of a ring, if they are kept.
fn kept_reach(points: &[Point], span: &OutlineSpan) -> Option<(Point, Point)>
    requires { IsOutline points.now span.now }
    ensures { IfSome result (λ reach. All (IsBetween reach.0 reach.1) (outline_in points.now span.now)) }
{
    if !span.has_reach {
        return None;
    }
    let end = span.begin as usize - 2 * usize::from(span.stretches);
    Some((points[end - 2], points[end - 1]))
}

/// The corners of the reaches of the stretches of a ring that are kept.
fn kept_stretches<'a>(points: &'a [Point], span: &OutlineSpan) -> &'a [Point]
    requires { IsOutline points.now span.now }
    ensures size { length result.now ≡ 2 * span.now.stretches }
    ensures are { AreStretches result.now 0 span.now.stretches (outline_in points.now span.now) }
{
    let end = span.begin as usize;
    &points[end - 2 * usize::from(span.stretches)..end]
}

impl Outlines {
    /// An empty list. Allocates nothing.
    pub(crate) fn new(alloc: Global) -> Outlines
        ensures { result ≡ [] }
    {
        Outlines {
            points: Vec::new(alloc),
            spans: Vec::new(alloc),
        }
    }

    /// The number of rings.
    pub(crate) fn len(&self) -> usize
        ensures { result ≡ length self.now }
    {
        self.spans.len()
    }

    /// The ring at this index.
    pub(crate) fn outline(&self, k: usize) -> Outline<'_>
        requires { k < length self.now }
        ensures value { ring_of result ≡ get_or self.now k [] }
        ensures ring { IsRing (ring_of result) }
        ensures reach { IsInReach result }
    {
        let span = &self.spans[k];
        Outline {
            points: &self.points[span.begin as usize..span.end as usize],
            along_y: span.along_y,
            reach: kept_reach(&self.points, span),
            corners: kept_stretches(&self.points, span),
        }
    }

    /// Adds a ring, by its points. If there is no memory for it, the rings stay the same.
    pub(crate) fn push_ring(&mut self, ring: &[Point]) -> Result<(), AllocError>
        requires { IsRing ring.now }
        ensures ok { OnOk result (self.new ≡ self.old ++ ring.now ∷ []) }
        ensures before { IsPrefixOf self.old self.new }
    {
        let span = keep_points(&mut self.points, ring)?;
        push_lean(&mut self.spans, span)?;
        Ok(())
    }

    /// Adds the rectangle from the origin to the opposite corner. If there is no memory for it, the rings
    /// stay the same.
    pub(crate) fn push_rectangle(
        &mut self,
        diagonal: Point,
        along_y: bool,
    ) -> Result<(), AllocError>
        ensures ok { OnOk result (self.new ≡ self.old ++ rectangle_to diagonal along_y ∷ []) }
        ensures before { IsPrefixOf self.old self.new }
    {
        let span = keep_diagonal(&mut self.points, diagonal, along_y)?;
        push_lean(&mut self.spans, span)?;
        Ok(())
    }

    /// Adds several rings, by their points. If there is no memory for all, the first of them may be added.
    pub(crate) fn push_all(&mut self, rings: &[Ring]) -> Result<(), AllocError>
        ensures ok { OnOk result (self.new ≡ self.old ++ rings.now) }
        ensures before { IsPrefixOf self.old self.new }
    {
        for ring in rings {
            self.push_ring(ring.points())?;
        }
        Ok(())
    }
}
