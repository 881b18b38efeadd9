//! Comparison of two lists of rings by their corners.
ghost use Rattle.std.specs.Prelude.{◌≡◌, ◌↔◌, IsTrue, IfOk, All};
ghost use Rattle.lvl_grid.specs.declared.point.Square.{Square as GridSquare};
ghost use Rattle.lvl_grid.specs.Winding.{SomeCovers};
ghost use Rattle.lvl_corners.specs.Corners.{AreCornersOf, FitsCorner};

use crate::columns::send_corners;
use crate::corner::Corner;
use lvl_grid::Rings;
use std::alloc::{AllocError, Global};

/// The corners of what the rings cover, in order of `x` and then `y`. Fails only if out of memory.
pub fn corners_of(alloc: Global, rings: &Rings) -> Result<Vec<Corner>, AllocError>
    ensures corners { IfOk result (λ corners. AreCornersOf (SomeCovers rings.now) corners.items) }
    ensures fits { IfOk result (λ corners. All FitsCorner corners.items) }
{
    let mut corners: Vec<Corner> = Vec::new(alloc);
    send_corners(alloc, rings, &mut corners)?;
    Ok(corners)
}

/// Whether the rings of both lists cover the same squares, by comparing the lists of their corners.
/// Fails only if out of memory.
pub fn cover_same(alloc: Global, first: &Rings, second: &Rings) -> Result<bool, AllocError>
    ensures { IfOk result (λ same. IsTrue same
        ↔ ((s : GridSquare) → SomeCovers first.now s ↔ SomeCovers second.now s)) }
{
    let ours = corners_of(alloc, first)?;
    let theirs = corners_of(alloc, second)?;
    Ok(ours.as_slice() == theirs.as_slice())
}
