//! Rings are made simpler: long ones are redrawn, those that span all abscissas are joined, and so
//! are rectangles of the same abscissas in a long list.
ghost use Rattle.std.specs.Prelude.{◌↔◌, ◌⊎◌, IfOk, IfSome, OnOk};
ghost use Rattle.lvl_grid.specs.declared.point.Square.{Square as GridSquare};
ghost use Rattle.lvl_grid.specs.Winding.{Covers, SomeCovers, IsRing};

use crate::outline::Outline;
use crate::redraw::redrawn;
use crate::spanning::{extent, joined};
use crate::stacked::stacked;
use lvl_grid::{Point, Ring, Rings};
use std::alloc::{AllocError, Global};

/// The fewest points of a ring that is redrawn.
const LONG: usize = 64;

/// Whether a ring has at least [`LONG`] points and goes in and out many times.
fn is_long(ring: &[Point]) -> bool {
    ring.len() >= LONG && Outline::of(ring).is_folded()
}

/// A long ring, redrawn, if the vertical edges are less than half as long in all, else None.
fn shorter(alloc: Global, ring: &[Point], left: i64, right: i64) -> Result<Option<Ring>, AllocError>
    ensures { IfOk result (λ shorter. IfSome shorter (λ other. (s : GridSquare)
        → Covers ring.now s ↔ Covers other s)) }
{
    if !is_long(ring) {
        return Ok(None);
    }
    let Some(redrawn) = redrawn(alloc, ring, left, right)? else {
        return Ok(None);
    };
    if Outline::of(redrawn.points()).heights < Outline::of(ring).heights / 2 {
        return Ok(Some(redrawn));
    }
    Ok(None)
}

/// Appends a ring, redrawn if that is shorter.
fn push_shorter(
    alloc: Global,
    rings: &mut Rings,
    ring: &[Point],
    borders: (i64, i64),
) -> Result<(), AllocError>
    requires { IsRing ring.now }
    ensures { OnOk result ((s : GridSquare) → SomeCovers rings.new s ↔ (SomeCovers rings.old s ⊎ Covers ring.now s)) }
{
    let (left, right) = borders;
    if let Some(shorter) = shorter(alloc, ring, left, right)? {
        return rings.push_ring(&shorter);
    }
    rings.push(ring)
}

/// Whether some ring is long.
fn has_long(rings: &Rings) -> bool {
    for i in 0..rings.len() {
        if is_long(rings.ring(i)) {
            return true;
        }
    }
    false
}

/// The rings, each redrawn if that is shorter.
fn all_shorter(alloc: Global, rings: Rings) -> Result<Rings, AllocError>
    ensures { IfOk result (λ shorter. (s : GridSquare) → SomeCovers shorter s ↔ SomeCovers rings s) }
{
    if !has_long(&rings) {
        return Ok(rings);
    }
    let borders = extent(&rings);
    let mut shorter = Rings::with_capacity(alloc, rings.points().len(), rings.len())?;
    for i in 0..rings.len() {
        push_shorter(alloc, &mut shorter, rings.ring(i), borders)?;
    }
    Ok(shorter)
}

/// Rings that cover the same squares as the given ones. Those that span all abscissas are joined if
/// their rows overlap or touch, and in a long list also rectangles of the same abscissas, if that
/// halves some of its rings. A long ring that goes in and out many times is redrawn if its vertical
/// edges are then less than half as long in all (own rule). Fails only if out of memory.
pub fn simplified(alloc: Global, rings: Rings) -> Result<Rings, AllocError>
    ensures { IfOk result (λ simplified. (s : GridSquare) → SomeCovers simplified s ↔ SomeCovers rings s) }
{
    let shorter = all_shorter(alloc, rings)?;
    joined(alloc, stacked(alloc, shorter)?)
}
