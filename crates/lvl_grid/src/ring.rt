//! Rings: closed outlines of edges along the grid, and the squares that they cover.
ghost use Rattle.std.specs.Prelude.{◌≡◌, ◌<◌, ◌↔◌, length, map, IsTrue, IfOk, IfErr, All, Any};
ghost use Rattle.lvl_grid.specs.declared.point.Square.{Square as GridSquare};
ghost use Rattle.lvl_grid.specs.Turn.{FitsPoint};
ghost use Rattle.lvl_grid.specs.Placed.{placed_point, IsPlaceOfCovered};
ghost use Rattle.lvl_grid.specs.Faults.{IsFaultOf};
ghost use Rattle.lvl_grid.specs.Winding.{IsRing, Covers, edges, IsStraight, goes_up, goes_down, rectangle_between};

use crate::map::Map;
use crate::point::{Point, Square};
use std::alloc::{AllocError, Global};
use std::marker::Model;
use thiserror::Error;

/// Why a list of points isn't a ring (own rule).
#[derive(Clone, Copy, Debug, Drop, PartialEq, Eq, Error)]
pub enum RingFault {
    /// There are fewer than three points.
    #[error("a ring has at least three points")]
    TooFew = 1,
    /// An edge changes both coordinates. The closing edge is the one from the last point to the
    /// first.
    #[error("an edge of a ring is parallel to an axis")]
    Oblique = 2,
}

/// Why a ring could not be placed.
#[derive(Clone, Copy, Debug, Drop, PartialEq, Eq, Error)]
pub enum PlaceFault {
    /// A coordinate of a placed vertex is outside 64 signed bits.
    #[error("a placed vertex is outside 64 bits")]
    OutOfRange = 1,
    /// An allocation failed.
    #[error("out of memory")]
    OutOfMemory = 2,
}

/// A closed outline of at least three points, each edge parallel to an axis. Points may repeat and
/// edges may overlap.
#[derive(Debug, Drop)]
pub struct Ring {
    points: Vec<Point>,
}

impl Model for Ring {
    ghost use Rattle.std.specs.Prelude.{List};
    ghost use Rattle.lvl_grid.specs.declared.point.Point.{Point};
    ghost use Rattle.lvl_grid.specs.Winding.{IsRing};

    ghost Value = { List Point };

    ghost view = { λ r. r.points.items };

    ghost invariant = { λ r. IsRing r.points.items };
}

fn is_straight(from: Point, to: Point) -> bool
    ensures { IsTrue result ↔ IsStraight (from, to) }
{
    from.x == to.x || from.y == to.y
}

fn rises_past(square: Square, from: Point, to: Point) -> bool
    ensures { result ≡ goes_up square (from, to) }
{
    square.x < from.x && from.y <= square.y && square.y < to.y
}

fn falls_past(square: Square, from: Point, to: Point) -> bool
    ensures { result ≡ goes_down square (from, to) }
{
    square.x < from.x && to.y <= square.y && square.y < from.y
}

/// Whether each edge, the closing one included, is parallel to an axis.
fn all_straight(points: &[Point]) -> bool
    requires { 0 < length points.now }
    ensures { IsTrue result ↔ All IsStraight (edges points.now) }
{
    let mut before = points[points.len() - 1];
    for point in points {
        if !is_straight(before, *point) {
            return false;
        }
        before = *point;
    }
    true
}

/// Whether the winding of these points at the square isn't 0.
pub(crate) fn winds_round(points: &[Point], square: Square) -> bool
    requires { 0 < length points.now }
    ensures { IsTrue result ↔ Covers points.now square }
{
    let mut up: usize = 0;
    let mut down: usize = 0;
    let mut previous = points[points.len() - 1];
    for point in points {
        if rises_past(square, previous, *point) {
            up += 1;
        }
        if falls_past(square, previous, *point) {
            down += 1;
        }
        previous = *point;
    }
    up != down
}

impl Ring {
    /// The ring of these points, or why they aren't one.
    pub fn new(points: Vec<Point>) -> Result<Ring, RingFault>
        ensures ok { IfOk result (λ ring. (ring ≡ points.items) × IsRing points.items) }
        ensures err { IfErr result (λ fault. IsFaultOf points.items fault) }
    {
        if points.len() < 3 {
            return Err(RingFault::TooFew);
        }
        if !all_straight(&points) {
            return Err(RingFault::Oblique);
        }
        Ok(Ring { points })
    }

    /// The rectangle between two corners: lower left, lower right, upper right, upper left.
    pub fn rectangle(alloc: Global, low: Point, high: Point) -> Result<Ring, AllocError>
        ensures { IfOk result (λ ring. ring ≡ rectangle_between low high) }
    {
        let lower_right = Point {
            x: high.x,
            y: low.y,
        };
        let upper_left = Point {
            x: low.x,
            y: high.y,
        };
        let points = vec![in alloc; low, lower_right, high, upper_left]?;
        Ok(Ring { points })
    }

    /// Its points, in order.
    pub fn points(&self) -> &[Point]
        ensures all { result.now ≡ self.now }
        ensures ring { IsRing self.now }
    {
        self.points.as_slice()
    }

    /// Whether it covers the square: its winding there isn't 0 (own rule).
    pub fn covers(&self, square: Square) -> bool
        ensures { IsTrue result ↔ Covers self.now square }
    {
        winds_round(&self.points, square)
    }

    /// The ring of the images of its points, each first moved by `shift`. Only the images must be
    /// within 64 bits, a moved point may be outside (own rule).
    pub fn placed(&self, alloc: Global, shift: Point, by: &Map) -> Result<Ring, PlaceFault>
        ensures points { IfOk result (λ ring. ring ≡ map (placed_point by.now shift) self.now) }
        ensures covers { IfOk result
            (λ ring. (t : GridSquare) → Covers ring t ↔ IsPlaceOfCovered by.now shift self.now t) }
        ensures in_range { IfOk result (λ _. All (λ v. FitsPoint (placed_point by.now shift v)) self.now) }
        ensures out_of_range { result ≡ Err PlaceFault.OutOfRange
            → Any (λ v. ¬ FitsPoint (placed_point by.now shift v)) self.now }
    {
        let Ok(mut points) = Vec::with_capacity(alloc, self.points.len()) else {
            return Err(PlaceFault::OutOfMemory);
        };
        for point in &self.points {
            let Some(image) = by.place_moved(shift, *point) else {
                return Err(PlaceFault::OutOfRange);
            };
            points.push_reserved(image);
        }
        Ok(Ring { points })
    }
}
