//! The rows that a ring covers in a column, if all of its points are at the borders of the column.
ghost use Rattle.std.specs.Prelude.{◌≡◌, ◌≢◌, ◌↔◌, ◌+ℤ◌, ◌<◌, ℤ, pos, All, length, IsTrue, IfOk, IfSome, OnOk};
ghost use Rattle.lvl_grid.specs.declared.point.Square.{Square as GridSquare};
ghost use Rattle.lvl_grid.specs.Winding.{winding as winding_round, Covers};
ghost use Rattle.lvl_simplify.specs.Spanning.{IsWithinSome};
ghost use Rattle.lvl_simplify.specs.Rows.{IsBetween, IsAtBorder, change, turning, edge_turning};

use lvl_grid::{Point, Window};
use std::alloc::{AllocError, Global};

/// An ordinate from which on upward the winding of a ring at the squares of a column is greater by
/// 1 if `more` is set, or else less by 1.
#[derive(Clone, Copy)]
pub struct Turn {
    pub y: i64,
    pub more: bool,
}

/// Whether each point of a ring is at one of two abscissas.
fn is_at_borders(ring: &[Point], left: i64, right: i64) -> bool
    ensures { IsTrue result → All (IsAtBorder left right) ring.now }
{
    for point in ring {
        if point.x != left && point.x != right {
            return false;
        }
    }
    true
}

/// Appends the turns of the edge from one point to another, if it is vertical and at the right
/// border.
pub(crate) fn push_turns(
    turns: &mut Vec<Turn>,
    from: Point,
    to: Point,
    right: i64,
) -> Result<(), AllocError>
    ensures { OnOk result ((y : ℤ)
        → turning y turns.new.items ≡ turning y turns.old.items +ℤ edge_turning right y (from, to)) }
{
    if from.x != right || from.y == to.y {
        return Ok(());
    }
    turns.push(Turn {
        y: from.y,
        more: true,
    })?;
    turns.push(Turn {
        y: to.y,
        more: false,
    })?;
    Ok(())
}

/// The turns of a ring whose points are at two abscissas.
fn turns_of(alloc: Global, ring: &[Point], left: i64, right: i64) -> Result<Vec<Turn>, AllocError>
    requires some { 0 < length ring.now }
    requires borders { All (IsAtBorder left right) ring.now }
    ensures { IfOk result (λ turns. (s : GridSquare) → IsBetween left right s
        → winding_round ring.now s ≡ turning s.y turns.items) }
{
    let mut turns = Vec::new(alloc);
    let mut previous = ring[ring.len() - 1];
    for point in ring {
        push_turns(&mut turns, previous, *point, right)?;
        previous = *point;
    }
    Ok(turns)
}

impl Turn {
    /// The winding after the turn, given that before it, or None if it is outside 64 bits.
    pub(crate) fn counted(self, windings: i64) -> Option<i64>
        ensures { IfSome result (λ counted. counted ≡ windings +ℤ change self) }
    {
        if self.more {
            windings.checked_add(1)
        } else {
            windings.checked_sub(1)
        }
    }
}

/// The rows that a ring with these turns covers between two abscissas, as windows. None if the
/// turns aren't sorted from below, or if their sum isn't 0.
fn rows_between(
    alloc: Global,
    turns: &[Turn],
    left: i64,
    right: i64,
) -> Result<Option<Vec<Window>>, AllocError>
    ensures { IfOk result (λ rows. IfSome rows (λ windows. (s : GridSquare) → IsWithinSome windows.items s
        ↔ (IsBetween left right s × (turning s.y turns.now ≢ pos 0)))) }
{
    let mut windows = Vec::new(alloc);
    let mut windings: i64 = 0;
    let mut low = i64::MIN;
    for turn in turns {
        if turn.y < low {
            return Ok(None);
        }
        if windings != 0 {
            windows.push(Window {
                x0: left,
                y0: low,
                x1: right,
                y1: turn.y,
            })?;
        }
        let Some(counted) = turn.counted(windings) else {
            return Ok(None);
        };
        windings = counted;
        low = turn.y;
    }
    if windings != 0 {
        return Ok(None);
    }
    Ok(Some(windows))
}

/// The rows that a ring covers, as windows, if all of its points are at two abscissas, else None.
/// If both abscissas are equal, the windows have no squares.
pub(crate) fn rows(
    alloc: Global,
    ring: &[Point],
    left: i64,
    right: i64,
) -> Result<Option<Vec<Window>>, AllocError>
    ensures { IfOk result (λ rows. IfSome rows (λ windows. (s : GridSquare)
        → Covers ring.now s ↔ IsWithinSome windows.items s)) }
{
    if ring.is_empty() || right < left || !is_at_borders(ring, left, right) {
        return Ok(None);
    }
    let mut turns = turns_of(alloc, ring, left, right)?;
    turns.sort_unstable_by_key(|turn| turn.y);
    rows_between(alloc, &turns, left, right)
}
