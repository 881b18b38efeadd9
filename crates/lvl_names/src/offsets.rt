//! Shifts: the displacements at which a shape or a cell is repeated, as a list or as a lattice.
ghost use Rattle.std.specs.Prelude.{◌≡◌, ◌<◌, ◌↔◌, ◌^◌, length, slice_get, pos, ◌+ℤ◌, ◌*ℤ◌, FitsSigned, IsTrue, IsSome};
ghost use Rattle.std.specs.Prelude.{IfSome, SomeIff, All};
ghost use Rattle.std.specs.Int.{w64};
ghost use Rattle.lvl_grid.specs.Turn.{shifted, FitsPoint};
ghost use Rattle.lvl_names.specs.inside.Keeping.{StaysWithin, HasFarCorner, AreFew, IsBounded};
ghost use Rattle.lvl_names.specs.Shifts.{steps, lattice, one_place, IsBetween, IsLattice, StartsAtZero};

use crate::bounded::{BoundedList, greater, lesser, reach_of};
use lvl_grid::Point;
use std::alloc::AllocError;
use std::marker::Model;
use std::mem;
use std::rc::Rc;

/// The greatest number of shifts of a lattice, 2^60 (own rule).
const MOST_PLACES: u64 = 1 << 60;

/// How shifts are stored. A lattice has a step and a count along each of its two directions.
#[derive(Debug, Drop)]
enum Kept {
    List(Vec<Point>),
    Shared(Rc<BoundedList>),
    Lattice(Point, u64, Point, u64),
}

/// A list of shifts in grid steps. It isn't empty, and its first shift is zero.
///
/// A lattice is stored as two steps and two counts, never as a list, but reads like the list of its
/// shifts. A clone of a lattice allocates nothing, nor does one of a list that is shared
/// ([`Offsets::share`]): all its clones use the same list.
#[derive(Debug, Drop)]
pub struct Offsets {
    kept: Kept,
}

impl Model for Offsets {
    ghost use Rattle.std.specs.Prelude.{List};
    ghost use Rattle.lvl_grid.specs.declared.point.Point.{Point};
    ghost use Rattle.lvl_grid.specs.Turn.{shifted, FitsPoint};
    ghost use Rattle.lvl_names.specs.inside.Keeping.{kept_shifts, IsKept};

    ghost Value = { List Point };

    ghost view = { λ o. kept_shifts o.kept };

    ghost invariant = { λ o. IsKept o.kept };
}

impl Clone for Offsets {
    ghost is_clone = { λ o copy. copy ≡ o };

    fn clone(&self) -> Result<Offsets, AllocError> {
        let kept = match &self.kept {
            Kept::List(shifts) => Kept::List(Vec::from_slice(*shifts.allocator(), shifts)?),
            Kept::Shared(list) => Kept::Shared(list.clone()?),
            Kept::Lattice(a, m, b, n) => Kept::Lattice(*a, *m, *b, *n),
        };
        Ok(Offsets { kept })
    }
}

/// The displacement of `i` steps by `a` and `j` steps by `b`, along one axis.
fn step(a: i64, i: u64, b: i64, j: u64) -> i64
    requires stays { StaysWithin a i b j }
    requires i_small { i < 2 ^ 63 }
    requires j_small { j < 2 ^ 63 }
    ensures { result ≡ (pos i *ℤ a) +ℤ (pos j *ℤ b) }
{
    i as i64 * a + j as i64 * b
}

/// The displacement of `i` steps by `a` and `j` steps by `b`.
fn point_at(a: Point, i: u64, b: Point, j: u64) -> Point
    requires xs { StaysWithin a.x i b.x j }
    requires ys { StaysWithin a.y i b.y j }
    requires i_small { i < 2 ^ 63 }
    requires j_small { j < 2 ^ 63 }
    ensures { result ≡ steps a i b j }
{
    Point {
        x: step(a.x, i, b.x, j),
        y: step(a.y, i, b.y, j),
    }
}

/// The product, or None if it is outside 64 bits.
fn times(i: u64, a: i64) -> Option<i64>
    requires { i < 2 ^ 63 }
    ensures { SomeIff result (FitsSigned w64 (pos i *ℤ a)) (pos i *ℤ a) }
{
    (i as i64).checked_mul(a)
}

/// Whether `i` steps by `a`, `j` steps by `b`, and their sum each fit in 64 bits.
fn stays(a: i64, i: u64, b: i64, j: u64) -> bool
    requires i_small { i < 2 ^ 63 }
    requires j_small { j < 2 ^ 63 }
    ensures { IsTrue result ↔ StaysWithin a i b j }
{
    let Some(across) = times(i, a) else {
        return false;
    };
    let Some(up) = times(j, b) else {
        return false;
    };
    across.checked_add(up).is_some()
}

/// Whether both counts are at least 1 and their product is at most [`MOST_PLACES`].
fn are_few(m: u64, n: u64) -> bool
    ensures few { IsTrue result ↔ AreFew m n }
    ensures small { IsTrue result → (m < 2 ^ 63) × (n < 2 ^ 63) }
{
    if m == 0 || n == 0 {
        return false;
    }
    n <= MOST_PLACES / m
}

/// Whether the lattice has at least one and at most [`MOST_PLACES`] shifts, all of which fit in 64
/// bits. The shifts at its corners decide.
fn has_far_corner(a: Point, m: u64, b: Point, n: u64) -> bool
    ensures { IsTrue result ↔ HasFarCorner a m b n }
{
    if !are_few(m, n) {
        return false;
    }
    stays(a.x, m - 1, b.x, n - 1) && stays(a.y, m - 1, b.y, n - 1)
}

/// Whether the point, moved by `by`, fits in 64 bits.
fn fits_moved(by: Point, point: Point) -> bool
    ensures { IsTrue result ↔ FitsPoint (shifted by point) }
{
    point.x.checked_add(by.x).is_some() && point.y.checked_add(by.y).is_some()
}

/// Whether each of these shifts, moved by `by`, fits in 64 bits.
fn list_fits_moved(by: Point, shifts: &[Point]) -> bool
    ensures { IsTrue result ↔ All (λ e. FitsPoint (shifted by e)) shifts.now }
{
    shifts.iter().all(|shift| fits_moved(by, *shift))
}

/// Whether each shift of the list, moved by `by`, fits in 64 bits. The list's bounds decide.
fn bounded_fits_moved(by: Point, list: &BoundedList) -> bool
    requires { IsBounded list.now }
    ensures { IsTrue result ↔ All (λ e. FitsPoint (shifted by e)) list.now.shifts.items }
{
    fits_moved(by, list.low) && fits_moved(by, list.high)
}

/// Whether each shift of the lattice, moved by `by`, fits in 64 bits. The shifts at its corners
/// decide.
fn lattice_fits_moved(by: Point, a: Point, m: u64, b: Point, n: u64) -> bool
    requires { HasFarCorner a m b n }
    ensures { IsTrue result ↔ All (λ e. FitsPoint (shifted by e)) (lattice a m b n) }
{
    let across = point_at(a, m - 1, b, 0);
    let up = point_at(a, 0, b, n - 1);
    let far = point_at(a, m - 1, b, n - 1);
    if !fits_moved(by, across) {
        return false;
    }
    if !fits_moved(by, up) {
        return false;
    }
    fits_moved(by, far)
}

/// The least and the greatest coordinates of the shifts of a lattice, which are those at its
/// corners.
fn lattice_reach(a: Point, m: u64, b: Point, n: u64) -> (Point, Point)
    requires { HasFarCorner a m b n }
    ensures { All (IsBetween result.0 result.1) (lattice a m b n) }
{
    let zero = Point { x: 0, y: 0 };
    let across = point_at(a, m - 1, b, 0);
    let up = point_at(a, 0, b, n - 1);
    let far = point_at(a, m - 1, b, n - 1);
    let low = lesser(lesser(zero, across), lesser(up, far));
    let high = greater(greater(zero, across), greater(up, far));
    (low, high)
}

impl Offsets {
    /// A list of these shifts, or None if there are none or the first isn't zero.
    pub fn new(shifts: Vec<Point>) -> Option<Offsets>
        ensures some { IsSome result ↔ StartsAtZero shifts.items }
        ensures same { IfSome result (λ offsets. offsets ≡ shifts.items) }
    {
        if shifts.first() != Some(&Point { x: 0, y: 0 }) {
            return None;
        }
        Some(Offsets {
            kept: Kept::List(shifts),
        })
    }

    /// The shifts `i * a + j * b` with `i < m` and `j < n`, ordered by `j`, then by `i`. None if
    /// `m` or `n` is 0, if there are more than 2^60 shifts, or if one is outside 64 signed
    /// bits (own rules). Takes constant time.
    pub fn lattice(a: Point, m: u64, b: Point, n: u64) -> Option<Offsets>
        ensures some { IsSome result ↔ IsLattice a m b n }
        ensures same { IfSome result (λ offsets. offsets ≡ lattice a m b n) }
    {
        if !has_far_corner(a, m, b, n) {
            return None;
        }
        Some(Offsets {
            kept: Kept::Lattice(a, m, b, n),
        })
    }

    /// The list of the zero shift alone. Allocates nothing.
    pub fn single() -> Offsets
        ensures { result ≡ one_place }
    {
        let zero = Point { x: 0, y: 0 };
        Offsets::lattice(zero, 1, zero, 1).unwrap()
    }

    /// Lets later clones share the list. Allocates a reference count with the list's bounds, or
    /// nothing for a lattice or a list that is shared already. If that fails, nothing changes.
    pub fn share(&mut self) -> Result<(), AllocError>
        ensures { self.new ≡ self.old }
    {
        let zero = Point { x: 0, y: 0 };
        match mem::replace(&mut self.kept, Kept::Lattice(zero, 1, zero, 1)) {
            Kept::List(shifts) => match Rc::new(*shifts.allocator(), BoundedList::new(shifts)) {
                Ok(shared) => self.kept = Kept::Shared(shared),
                Err(failed) => {
                    self.kept = Kept::List(failed.value.shifts);
                    return Err(AllocError);
                }
            },
            kept => self.kept = kept,
        }
        Ok(())
    }

    /// Whether this is the zero shift alone.
    pub fn is_single(&self) -> bool
        ensures { IsTrue result ↔ (self.now ≡ one_place) }
    {
        self.len() == 1
    }

    /// Whether both are stored as lattices with the same steps and counts. If not, they may still
    /// be the same shifts: lists aren't compared.
    pub fn is_same_lattice(&self, other: &Offsets) -> bool
        ensures { IsTrue result → self.now ≡ other.now }
    {
        match (&self.kept, &other.kept) {
            (Kept::Lattice(a, m, b, n), Kept::Lattice(c, p, d, q)) => {
                a == c && m == p && b == d && n == q
            }
            _ => false,
        }
    }

    /// The number of shifts.
    pub fn len(&self) -> u64
        ensures count { result ≡ length self.now }
        ensures zero_first { StartsAtZero self.now }
    {
        match &self.kept {
            Kept::List(shifts) => shifts.len() as u64,
            Kept::Shared(list) => list.shifts.len() as u64,
            Kept::Lattice(_, m, _, n) => m * n,
        }
    }

    /// Whether `at`, moved by any of the shifts, is within 64 signed bits. Takes constant time
    /// unless it is a list that isn't shared.
    pub fn all_fit_at(&self, at: Point) -> bool
        ensures { IsTrue result ↔ All (λ e. FitsPoint (shifted at e)) self.now }
    {
        match &self.kept {
            Kept::List(shifts) => list_fits_moved(at, shifts),
            Kept::Shared(list) => bounded_fits_moved(at, list),
            Kept::Lattice(a, m, b, n) => lattice_fits_moved(at, *a, *m, *b, *n),
        }
    }

    /// The least and the greatest coordinates of the shifts: the lower left and the upper right
    /// corner of their bounding box. Takes constant time unless it is a list that isn't shared.
    pub fn reach(&self) -> (Point, Point)
        ensures { All (IsBetween result.0 result.1) self.now }
    {
        match &self.kept {
            Kept::List(shifts) => reach_of(shifts),
            Kept::Shared(list) => (list.low, list.high),
            Kept::Lattice(a, m, b, n) => lattice_reach(*a, *m, *b, *n),
        }
    }

    /// The shift at index `k`, or None if there is none.
    pub fn at(&self, k: u64) -> Option<Point>
        ensures { result ≡ slice_get self.now k }
    {
        match &self.kept {
            Kept::List(shifts) => shifts.get(k as usize).copied(),
            Kept::Shared(list) => list.shifts.get(k as usize).copied(),
            Kept::Lattice(a, m, b, n) => {
                if k >= m * n {
                    return None;
                }
                Some(point_at(*a, k % m, *b, k / m))
            }
        }
    }
}
