//! Two lists of bands, walked in step up to the least square that only one of them covers.
ghost use Rattle.std.specs.Prelude.{◌≡◌, ◌↔◌, ◌∷◌, [], List, true, false, drop, Option, None, ℤ, ◌<ℤ◌, IsTrue, IfOk};
ghost use Rattle.std.specs.Prelude.{IfSome, IfNone};
ghost use Rattle.lvl_grid.specs.declared.point.Square.{Square as GridSquare};
ghost use Rattle.lvl_grid.specs.Squares.{IsBefore};
ghost use Rattle.lvl_grid.specs.Winding.{SomeCovers};
ghost use Rattle.lvl_region.specs.Region.{IsAlone};
ghost use Rattle.lvl_sweep.specs.Slab.{Slab, IsSlabList, slabs_cover};
ghost use Rattle.lvl_sweep.specs.Bands.{slab_of};
ghost use Rattle.lvl_sweep.specs.Ahead.{IsLeastAlone, IsUpTo};
ghost use Rattle.lvl_sweep.specs.inside.InStep.{IsMet, FirstIs, IsReported, ended_by};

use crate::band::Band;
use crate::rows::{Ahead, both, least_square};
use crate::sweep::Sweep;
use lvl_grid::{Ring, RingList, Square};
use lvl_region::Side;
use std::alloc::{AllocError, Global};

/// Bands that are read one at a time, from the lowest on.
pub trait Bands {
    /// The bands still to come.
    ghost left: { Self → List Slab };

    /// The first of the bands still to come, or None if there is none.
    fn band(&self) -> Option<&Band>
        ensures first { IfSome result (λ band. left self.now ≡ slab_of band.now ∷ drop 1 (left self.now)) }
        ensures none { IfNone result (left self.now ≡ []) };

    /// Drops the first of the bands still to come, if there is one.
    fn advance(&mut self)
        ensures { left self.new ≡ drop 1 (left self.old) };
}

impl Bands for Sweep {
    ghost left = { λ s. s };

    fn band(&self) -> Option<&Band> {
        Sweep::band(self)
    }

    fn advance(&mut self) {
        Sweep::advance(self)
    }
}

/// What the first bands on both sides say about the rows from `from` on.
fn look_ahead<B: Bands>(first: &B, second: &B, from: Option<i64>) -> Ahead
    requires ours { IsSlabList (B.left first.now) }
    requires theirs { IsSlabList (B.left second.now) }
    requires our_band { FirstIs (IsMet from) (Unit {0}) (B.left first.now) }
    requires their_band { FirstIs (IsMet from) (Unit {0}) (B.left second.now) }
    ensures { IsReported from (B.left first.now) (B.left second.now) result }
{
    match (first.band(), second.band()) {
        (Some(p), Some(q)) => both(p, q, from),
        (Some(p), None) => Ahead::Differ(least_square(p, from), Side::First),
        (None, Some(q)) => Ahead::Differ(least_square(q, from), Side::Second),
        (None, None) => Ahead::Nothing,
    }
}

/// Whether there is a first band, and it ends by row `y`.
fn ends_by<B: Bands>(bands: &B, y: i64) -> bool
    ensures yes { result ≡ true → ended_by y (B.left bands.now) ≡ drop 1 (B.left bands.now) }
    ensures no { result ≡ false → ended_by y (B.left bands.now) ≡ B.left bands.now }
{
    match bands.band() {
        Some(band) => band.y1 <= y,
        None => false,
    }
}

/// Drops the first band if it ends by row `y`.
fn drop_below<B: Bands>(bands: &mut B, y: i64)
    ensures { B.left bands.new ≡ ended_by y (B.left bands.old) }
{
    if ends_by(bands, y) {
        bands.advance();
    }
}

/// Whether there is a last row, and it is below row `y`.
fn is_past(last: Option<i64>, y: i64) -> bool
    ensures { IsTrue result → (z : ℤ) → IsUpTo last z → z <ℤ y }
{
    match last {
        Some(row) => row < y,
        None => false,
    }
}

/// The least square that only one of two sides covers, with that side. None says that both cover
/// the same in the rows up to `last`, which is included (in all rows if `last` is None). A square
/// above `last` may be returned instead.
pub(crate) fn walk_in_step<B: Bands>(
    first: &mut B,
    second: &mut B,
    last: Option<i64>,
) -> Option<(Square, Side)>
    requires ours { IsSlabList (B.left first.old) }
    requires theirs { IsSlabList (B.left second.old) }
    ensures same { IfNone result
        ((s : GridSquare) → IsUpTo last s.y → slabs_cover (B.left first.old) s ≡ slabs_cover (B.left second.old) s) }
    ensures differ { IfSome result
        (λ found. IsLeastAlone None (B.left first.old) (B.left second.old) found.0 found.1) }
{
    let mut from = None;
    loop {
        match look_ahead(first, second, from) {
            Ahead::Differ(square, side) => return Some((square, side)),
            Ahead::Nothing => return None,
            Ahead::Alike(y) => {
                if is_past(last, y) {
                    return None;
                }
                from = Some(y);
                drop_below(first, y);
                drop_below(second, y);
            }
        }
    }
}

/// The least square, by `y` and then `x`, that the rings of only one list cover, with its side, or
/// None if both lists cover the same squares. Fails only if out of memory.
pub fn first_difference_of(
    alloc: Global,
    first: &[Ring],
    second: &[Ring],
) -> Result<Option<(Square, Side)>, AllocError>
    ensures same { IfOk result
        (λ found. IfNone found ((s : GridSquare) → SomeCovers first.now s ↔ SomeCovers second.now s)) }
    ensures differ { IfOk result
        (λ found. IfSome found (λ at. IsAlone (SomeCovers first.now) (SomeCovers second.now) at.0 at.1)) }
    ensures least { IfOk result
        (λ found. IfSome found
        (λ at. (s : GridSquare) → IsBefore s at.0 → SomeCovers first.now s ↔ SomeCovers second.now s)) }
{
    first_difference_up_to(alloc, &first, &second, None)
}

/// The least square, by `y` and then `x`, that the rings of only one list cover, with its side.
/// None says that both lists cover the same squares in the rows up to `last`, which is included (in
/// all rows if `last` is None). A square above `last` may be returned instead. Fails only if out of
/// memory.
pub fn first_difference_up_to<R: RingList>(
    alloc: Global,
    first: &R,
    second: &R,
    last: Option<i64>,
) -> Result<Option<(Square, Side)>, AllocError>
    ensures same { IfOk result
        (λ found. IfNone found
        ((s : GridSquare)
        → IsUpTo last s.y
        → SomeCovers (R.rings first.now) s ↔ SomeCovers (R.rings second.now) s)) }
    ensures differ { IfOk result
        (λ found. IfSome found
        (λ at. IsAlone (SomeCovers (R.rings first.now)) (SomeCovers (R.rings second.now)) at.0 at.1)) }
    ensures least { IfOk result
        (λ found. IfSome found
        (λ at. (s : GridSquare)
        → IsBefore s at.0
        → SomeCovers (R.rings first.now) s ↔ SomeCovers (R.rings second.now) s)) }
{
    let mut a = Sweep::new(alloc, first)?;
    let mut b = Sweep::new(alloc, second)?;
    Ok(walk_in_step(&mut a, &mut b, last))
}
