//! The trait of regions, and the comparison of two lists of rings by a region.
ghost use Rattle.std.specs.Prelude.{◌↔◌, IsTrue, IfOk, IfNone, IfSome};
ghost use Rattle.lvl_grid.specs.declared.point.Square.{Square as GridSquare};
ghost use Rattle.lvl_region.specs.Region.{SomeCovers, IsAlone};

use lvl_grid::{Ring, Square};
use std::alloc::{AllocError, Global};

/// The only one of two sides that covers a square.
#[derive(Clone, Copy, Debug, PartialEq, Eq)]
pub enum Side {
    First,
    Second,
}

/// A set of squares of the unbounded grid, made from rings.
///
/// A region has the squares that at least one ring covers: rings that overlap never cancel (own
/// rule).
pub trait Region: Drop {
    /// Its squares.
    ghost holds: { Self → GridSquare → Type 0 };

    /// The squares that some ring covers. Fails only if out of memory.
    fn build(alloc: Global, rings: &[Ring]) -> Result<Self, AllocError>
    where
        Self: Sized,
        ensures { IfOk result (λ region. (s : GridSquare) → holds region s ↔ SomeCovers rings.now s) };

    /// Whether it has the square.
    fn covers(&self, square: Square) -> bool
        ensures { IsTrue result ↔ holds self.now square };

    /// A square that only one of the two has, with its side, or None if both have the same squares.
    fn first_difference(&self, other: &Self) -> Option<(Square, Side)>
        ensures same { IfNone result ((s : GridSquare) → holds self.now s ↔ holds other.now s) }
        ensures differ { IfSome result (λ found. IsAlone (holds self.now) (holds other.now) found.0 found.1) };
}

/// A square that the rings of only one list cover, with its side, or None if both lists cover the
/// same squares. Fails only if out of memory.
pub fn difference<R: Region>(
    alloc: Global,
    first: &[Ring],
    second: &[Ring],
) -> Result<Option<(Square, Side)>, AllocError>
    ensures same { IfOk result
        (λ found. IfNone found ((s : GridSquare) → SomeCovers first.now s ↔ SomeCovers second.now s)) }
    ensures differ { IfOk result
        (λ found. IfSome found (λ at. IsAlone (SomeCovers first.now) (SomeCovers second.now) at.0 at.1)) }
{
    let a: R = R::build(alloc, first)?;
    let b: R = R::build(alloc, second)?;
    Ok(a.first_difference(&b))
}
