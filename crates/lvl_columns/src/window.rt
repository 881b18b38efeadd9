//! Comparison of two lists of rings in a window.
ghost use Rattle.std.specs.Prelude.{◌↔◌, IfOk, IfNone, IfSome};
ghost use Rattle.lvl_grid.specs.declared.point.Square.{Square as GridSquare};
ghost use Rattle.lvl_grid.specs.Winding.{SomeCovers};
ghost use Rattle.lvl_grid.specs.Squares.{IsBefore};
ghost use Rattle.lvl_region.specs.Region.{IsAlone};
ghost use Rattle.lvl_columns.specs.Columns.{IsFirstIn};
ghost use Rattle.lvl_columns.specs.Windows.{IsShown, window_of};

use crate::columns::first_of;
use lvl_grid::{Part, Rings, Square, Window};
use lvl_region::Side;
use std::alloc::{AllocError, Global};

/// The least difference of two lists in a window, if one is given.
fn first_in(
    alloc: Global,
    first: &Rings,
    second: &Rings,
    window: Option<&Window>,
) -> Result<Option<(Square, Side)>, AllocError>
    ensures { IfOk result (IsFirstIn (IsShown (window_of window.entry)) (first.now, second.now)) }
{
    let Some(window) = window else {
        return Ok(first_of(alloc, first, second)?.found);
    };
    let part = Part::Within(*window);
    let ours = Rings::clipped(alloc, first, &part)?;
    let theirs = Rings::clipped(alloc, second, &part)?;
    Ok(first_of(alloc, &ours, &theirs)?.found)
}

/// The least square of the window, by `y` and then `x`, that the rings of only one list cover, with
/// its side, or None if both lists cover the same squares of the window. Without a window, all
/// squares are compared. Fails only if out of memory.
pub fn difference_in(
    alloc: Global,
    first: &Rings,
    second: &Rings,
    window: Option<&Window>,
) -> Result<Option<(Square, Side)>, AllocError>
    ensures same { IfOk result
        (λ found. IfNone found
        ((s : GridSquare) → IsShown (window_of window.entry) s → SomeCovers first.now s ↔ SomeCovers second.now s)) }
    ensures differ { IfOk result
        (λ found. IfSome found (λ at. IsAlone (SomeCovers first.now) (SomeCovers second.now) at.0 at.1)) }
    ensures shown { IfOk result (λ found. IfSome found (λ at. IsShown (window_of window.entry) at.0)) }
    ensures least { IfOk result
        (λ found. IfSome found
        (λ at. (s : GridSquare)
        → IsShown (window_of window.entry) s
        → IsBefore s at.0
        → SomeCovers first.now s ↔ SomeCovers second.now s)) }
{
    let found = first_in(alloc, first, second, window)?;
    Ok(found)
}
