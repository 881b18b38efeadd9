//! Lists of rings: all their points in one list, and the index at which each ring ends.
ghost use Rattle.std.specs.Prelude.{◌≡◌, ◌<◌, ◌≤◌, ◌-◌, ◌<ℤ◌, ◌≤ℤ◌, List, take, drop, map, Any, All, ◌⊎◌, ◌↔◌, ◌++◌};
ghost use Rattle.std.specs.Prelude.{◌∷◌, [], length, flat_map, get_or, IsTrue, IsSome, IfSome, IfOk, OnOk, OnErr};
ghost use Rattle.lvl_grid.specs.declared.point.Square.{Square as GridSquare};
ghost use Rattle.lvl_grid.specs.Winding.{IsRing, Covers, SomeCovers};
ghost use Rattle.lvl_grid.specs.Pieces.{begin_of};
ghost use Rattle.lvl_grid.specs.Clip.{IsIn};
ghost use Rattle.lvl_grid.specs.Turn.{FitsPoint};
ghost use Rattle.lvl_grid.specs.Placed.{placed_point, IsPlaceOfCovered};

use crate::list::RingList;
use crate::map::Map;
use crate::part::Part;
use crate::point::{Point, Square};
use crate::ring::{PlaceFault, Ring, winds_round};
use crate::tidy::extend_clipped;
use std::alloc::{AllocError, Global};
use std::marker::Model;

/// A list of rings. The points of all rings are in one list, so a pass over many rings reads memory
/// in order, and no ring has an allocation of its own.
#[derive(Debug, Drop)]
pub struct Rings {
    points: Vec<Point>,
    ends: Vec<usize>,
}

impl Model for Rings {
    ghost use Rattle.std.specs.Prelude.{List};
    ghost use Rattle.lvl_grid.specs.declared.point.Point.{Point};
    ghost use Rattle.lvl_grid.specs.Pieces.{cut_from, AreRings};

    ghost Value = { List (List Point) };

    ghost view = { λ r. cut_from 0 r.ends.items r.points.items };

    ghost invariant = { λ r. AreRings r.ends.items r.points.items };
}

/// The index of the first point of ring `i`, given the index at which each ring ends.
fn begin(ends: &[usize], i: usize) -> usize
    requires { i < length ends.now }
    ensures { result ≡ begin_of 0 ends.now i }
{
    if i == 0 {
        return 0;
    }
    ends[i - 1]
}

/// The points with an index from `start` up to `end`, which is excluded.
fn stretch(points: &[Point], start: usize, end: usize) -> &[Point]
    requires rising { start ≤ end }
    requires inside { end ≤ length points.now }
    ensures { result.now ≡ take (end - start) (drop start points.now) }
{
    &points[start..end]
}

/// Appends the images of a ring's points, each moved by `shift` before it is mapped. If that fails,
/// nothing is appended.
fn extend_placed(
    points: &mut Vec<Point>,
    ring: &[Point],
    shift: Point,
    by: &Map,
) -> Result<(), PlaceFault>
    ensures ok { OnOk result (points.new.items ≡ points.old.items ++ map (placed_point by.now shift) ring.now) }
    ensures in_range { OnOk result (All (λ v. FitsPoint (placed_point by.now shift v)) ring.now) }
    ensures err { OnErr result (points.new.items ≡ points.old.items) }
    ensures out_of_range { result ≡ Err PlaceFault.OutOfRange
        → Any (λ v. ¬ FitsPoint (placed_point by.now shift v)) ring.now }
{
    let Ok(()) = points.reserve(ring.len()) else {
        return Err(PlaceFault::OutOfMemory);
    };
    let start = points.len();
    for point in ring {
        let Some(image) = by.place_moved(shift, *point) else {
            points.truncate(start);
            return Err(PlaceFault::OutOfRange);
        };
        points.push_reserved(image);
    }
    Ok(())
}

/// Appends the part of a ring with `x < at` to `left`, and the rest to `right`. Most rings are on
/// one side.
fn push_split(
    ring: &[Point],
    at: i64,
    left: &mut Rings,
    right: &mut Rings,
) -> Result<(), AllocError>
    requires { IsRing ring.now }
    ensures left { OnOk result ((s : GridSquare)
        → SomeCovers left.new s ↔ (SomeCovers left.old s ⊎ ((s.x <ℤ at) × Covers ring.now s))) }
    ensures right { OnOk result ((s : GridSquare)
        → SomeCovers right.new s ↔ (SomeCovers right.old s ⊎ ((at ≤ℤ s.x) × Covers ring.now s))) }
{
    if Part::Right(at).misses(ring) {
        return left.push(ring);
    }
    if Part::Left(at).misses(ring) {
        return right.push(ring);
    }
    left.push_clipped(&Part::Left(at), ring)?;
    right.push_clipped(&Part::Right(at), ring)?;
    Ok(())
}

impl Rings {
    /// An empty list. Allocates nothing.
    pub fn new(alloc: Global) -> Rings
        ensures { result ≡ [] }
    {
        Rings {
            points: Vec::new(alloc),
            ends: Vec::new(alloc),
        }
    }

    /// An empty list with room for `points` points in all and for `rings` rings.
    pub fn with_capacity(alloc: Global, points: usize, rings: usize) -> Result<Rings, AllocError>
        ensures { IfOk result (λ rings. rings ≡ []) }
    {
        Ok(Rings {
            points: Vec::with_capacity(alloc, points)?,
            ends: Vec::with_capacity(alloc, rings)?,
        })
    }

    /// The rings of a slice, in the same order.
    pub fn from_slice(alloc: Global, slice: &[Ring]) -> Result<Rings, AllocError>
        ensures { IfOk result (λ rings. rings ≡ slice.now) }
    {
        let mut rings = Rings::new(alloc);
        for ring in slice {
            rings.push_ring(ring)?;
        }
        Ok(rings)
    }

    /// The number of rings.
    pub fn len(&self) -> usize
        ensures { result ≡ length self.now }
    {
        self.ends.len()
    }

    /// Whether there is no ring.
    pub fn is_empty(&self) -> bool
        ensures { IsTrue result ↔ (self.now ≡ []) }
    {
        self.len() == 0
    }

    /// The points of the ring at this index, in order.
    pub fn ring(&self, i: usize) -> &[Point]
        requires { i < length self.now }
        ensures value { result.now ≡ get_or self.now i [] }
        ensures ring { IsRing result.now }
    {
        let start = begin(&self.ends, i);
        let end = self.ends[i];
        stretch(&self.points, start, end)
    }

    /// The points of the ring at this index, if there is one.
    pub fn get(&self, i: usize) -> Option<&[Point]>
        ensures inside { IsSome result ↔ (i < length self.now) }
        ensures value { IfSome result (λ ring. ring.now ≡ get_or self.now i []) }
        ensures ring { IfSome result (λ ring. IsRing ring.now) }
    {
        if i >= self.len() {
            return None;
        }
        Some(self.ring(i))
    }

    /// The points of all rings, ring by ring.
    pub fn points(&self) -> &[Point]
        ensures { result.now ≡ flat_map (λ ring. ring) self.now }
    {
        &self.points
    }

    /// Whether both have the same rings in the same order, point by point.
    pub fn is_same(&self, other: &Rings) -> bool
        ensures { IsTrue result ↔ (self.now ≡ other.now) }
    {
        self.ends.as_slice() == other.ends.as_slice()
            && self.points.as_slice() == other.points.as_slice()
    }

    /// Whether some ring covers the square.
    pub fn covers(&self, square: Square) -> bool
        ensures { IsTrue result ↔ SomeCovers self.now square }
    {
        for i in 0..self.len() {
            if winds_round(self.ring(i), square) {
                return true;
            }
        }
        false
    }

    /// Appends a ring, given by its points. If there is no memory for it, nothing is appended.
    pub fn push(&mut self, ring: &[Point]) -> Result<(), AllocError>
        requires { IsRing ring.now }
        ensures ok { OnOk result (self.new ≡ self.old ++ ring.now ∷ []) }
        ensures err { OnErr result (self.new ≡ self.old) }
    {
        self.ends.reserve(1)?;
        self.points.extend_from_slice(ring)?;
        self.ends.push_reserved(self.points.len());
        Ok(())
    }

    /// Appends a ring. If there is no memory for it, nothing is appended.
    pub fn push_ring(&mut self, ring: &Ring) -> Result<(), AllocError>
        ensures ok { OnOk result (self.new ≡ self.old ++ ring.now ∷ []) }
        ensures err { OnErr result (self.new ≡ self.old) }
    {
        self.push(ring.points())
    }

    /// Appends the rings of a slice, in the same order. If there is no memory for one of them,
    /// nothing is appended.
    pub fn push_all(&mut self, slice: &[Ring]) -> Result<(), AllocError>
        ensures ok { OnOk result (self.new ≡ self.old ++ slice.now) }
        ensures err { OnErr result (self.new ≡ self.old) }
    {
        let count = self.len();
        for ring in slice {
            if let Err(refused) = self.push_ring(ring) {
                self.truncate(count);
                return Err(refused);
            }
        }
        Ok(())
    }

    /// Keeps the first `count` rings, or all if there are fewer.
    pub fn truncate(&mut self, count: usize)
        ensures { self.new ≡ take count self.old }
    {
        if count >= self.len() {
            return;
        }
        let size = begin(&self.ends, count);
        self.points.truncate(size);
        self.ends.truncate(count);
    }

    /// Appends the image of a ring, each of its points moved by `shift` before it is mapped. Only
    /// the images must be within 64 bits, a moved point may be outside (own rule). If that fails,
    /// nothing is appended.
    pub fn push_placed(&mut self, ring: &[Point], shift: Point, by: &Map) -> Result<(), PlaceFault>
        requires { IsRing ring.now }
        ensures ok { OnOk result (self.new ≡ self.old ++ map (placed_point by.now shift) ring.now ∷ []) }
        ensures covers { OnOk result ((t : GridSquare)
            → Covers (map (placed_point by.now shift) ring.now) t ↔ IsPlaceOfCovered by.now shift ring.now t) }
        ensures in_range { OnOk result (All (λ v. FitsPoint (placed_point by.now shift v)) ring.now) }
        ensures err { OnErr result (self.new ≡ self.old) }
        ensures out_of_range { result ≡ Err PlaceFault.OutOfRange
            → Any (λ v. ¬ FitsPoint (placed_point by.now shift v)) ring.now }
    {
        let Ok(()) = self.ends.reserve(1) else {
            return Err(PlaceFault::OutOfMemory);
        };
        extend_placed(&mut self.points, ring, shift, by)?;
        self.ends.push_reserved(self.points.len());
        Ok(())
    }

    /// Appends a ring that covers what the given ring covers within the part, or nothing if that is
    /// no square. If there is no memory for it, nothing is appended.
    pub fn push_clipped(&mut self, part: &Part, ring: &[Point]) -> Result<(), AllocError>
        requires { IsRing ring.now }
        ensures covers { OnOk result ((s : GridSquare)
            → SomeCovers self.new s ↔ (SomeCovers self.old s ⊎ (IsIn part.now s × Covers ring.now s))) }
        ensures err { OnErr result (self.new ≡ self.old) }
    {
        if part.misses(ring) {
            return Ok(());
        }
        if part.keeps(ring) {
            return self.push(ring);
        }
        self.ends.reserve(1)?;
        let start = self.points.len();
        extend_clipped(&mut self.points, part, ring)?;
        if self.points.len() == start {
            return Ok(());
        }
        self.ends.push_reserved(self.points.len());
        Ok(())
    }

    /// The rings of a list, clipped to the part.
    pub fn clipped<R: RingList>(alloc: Global, rings: &R, part: &Part) -> Result<Rings, AllocError>
        ensures { IfOk result
            (λ clipped. (s : GridSquare)
            → SomeCovers clipped s ↔ (IsIn part.now s × SomeCovers (R.rings rings.now) s)) }
    {
        let mut clipped = Rings::new(alloc);
        for i in 0..rings.len() {
            clipped.push_clipped(part, rings.ring(i))?;
        }
        Ok(clipped)
    }

    /// An empty list with room for three quarters of the points and of the rings: a half of a list
    /// seldom has more.
    fn half_room(&self, alloc: Global) -> Result<Rings, AllocError>
        ensures { IfOk result (λ half. half ≡ []) }
    {
        let points = self.points.len();
        let rings = self.len();
        Rings::with_capacity(alloc, points - points / 4, rings - rings / 4)
    }

    /// The rings clipped to the squares with `x < at`, and the rings clipped to the others.
    pub fn split_at(&self, alloc: Global, at: i64) -> Result<(Rings, Rings), AllocError>
        ensures left { IfOk result
            (λ parts. (s : GridSquare) → SomeCovers parts.0 s ↔ ((s.x <ℤ at) × SomeCovers self.now s)) }
        ensures right { IfOk result
            (λ parts. (s : GridSquare) → SomeCovers parts.1 s ↔ ((at ≤ℤ s.x) × SomeCovers self.now s)) }
    {
        let mut left = self.half_room(alloc)?;
        let mut right = self.half_room(alloc)?;
        for i in 0..self.len() {
            push_split(self.ring(i), at, &mut left, &mut right)?;
        }
        Ok((left, right))
    }
}

impl RingList for Rings {
    ghost rings = { λ r. r };

    fn len(&self) -> usize {
        Rings::len(self)
    }

    fn ring(&self, i: usize) -> &[Point] {
        Rings::ring(self, i)
    }
}
