//! Rectangles of the same abscissas are joined if their rows overlap or touch.
//!
//! Such rectangles need not span a column: where a path runs on itself again and again, clipped to a
//! strip, some of its runs begin there and others go on.
ghost use Rattle.std.specs.Prelude.{◌↔◌, ◌⊎◌, IfOk, OnOk};
ghost use Rattle.lvl_grid.specs.declared.point.Square.{Square as GridSquare};
ghost use Rattle.lvl_grid.specs.Winding.{Covers, SomeCovers, IsRing};
ghost use Rattle.lvl_simplify.specs.Spanning.{IsWithinSome};

use crate::spanning::{joined_in_order, push_windows, some_of, window_of};
use lvl_grid::{Point, Rings, Window};
use std::alloc::{AllocError, Global};

/// The fewest rings whose rectangles are joined. Fewer take little memory, and beside this many it
/// costs nothing to try some.
const MANY: usize = 4096;

/// Appends the window of a ring to `windows` if it is a rectangle, else the ring to `rest`.
fn part_rectangle(
    windows: &mut Vec<Window>,
    rest: &mut Rings,
    ring: &[Point],
) -> Result<(), AllocError>
    requires { IsRing ring.now }
    ensures { OnOk result ((s : GridSquare)
        → (SomeCovers rest.new s ⊎ IsWithinSome windows.new.items s)
        ↔ ((SomeCovers rest.old s ⊎ IsWithinSome windows.old.items s) ⊎ Covers ring.now s)) }
{
    if let Some(window) = window_of(ring) {
        windows.push(window)?;
        return Ok(());
    }
    rest.push(ring)
}

/// The windows of those rings that are rectangles, and the other rings.
fn rectangles(alloc: Global, rings: &Rings) -> Result<(Vec<Window>, Rings), AllocError>
    ensures { IfOk result (λ parts. (s : GridSquare)
        → (SomeCovers parts.1 s ⊎ IsWithinSome parts.0.items s) ↔ SomeCovers rings.now s) }
{
    let mut windows = Vec::with_capacity(alloc, rings.len())?;
    let mut rest = Rings::with_capacity(alloc, rings.points().len(), rings.len())?;
    for i in 0..rings.len() {
        part_rectangle(&mut windows, &mut rest, rings.ring(i))?;
    }
    Ok((windows, rest))
}

/// Rings that cover the same squares, with the rectangles of the same abscissas joined.
fn all_stacked(alloc: Global, rings: Rings) -> Result<Rings, AllocError>
    ensures { IfOk result (λ stacked. (s : GridSquare) → SomeCovers stacked s ↔ SomeCovers rings s) }
{
    let (mut windows, mut stacked) = rectangles(alloc, &rings)?;
    drop(rings);
    windows.sort_unstable_by_key(|window| (window.x0, window.x1, window.y0));
    let windows = joined_in_order(alloc, &windows)?;
    push_windows(&mut stacked, &windows)?;
    Ok(stacked)
}

/// Rings that cover the same squares. The rectangles of a long list are joined where they have the
/// same abscissas, if some of its rings are then half as many.
pub(crate) fn stacked(alloc: Global, rings: Rings) -> Result<Rings, AllocError>
    ensures { IfOk result (λ stacked. (s : GridSquare) → SomeCovers stacked s ↔ SomeCovers rings s) }
{
    if rings.len() < MANY {
        return Ok(rings);
    }
    let some = some_of(alloc, &rings)?;
    let half = some.len() / 2;
    if all_stacked(alloc, some)?.len() > half {
        return Ok(rings);
    }
    all_stacked(alloc, rings)
}
