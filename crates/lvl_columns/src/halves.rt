//! The two halves of a column that is cut.
ghost use Rattle.std.specs.Prelude.{◌↔◌, ◌<ℤ◌, ◌≤ℤ◌, IfOk};
ghost use Rattle.lvl_grid.specs.declared.point.Square.{Square as GridSquare};
ghost use Rattle.lvl_grid.specs.Winding.{SomeCovers};
ghost use Rattle.lvl_columns.specs.Columns.{IsPartOf, lists_of};

use crate::columns::Column;
use lvl_grid::Rings;
use lvl_simplify::simplified;
use std::alloc::{AllocError, Global};

/// The rings clipped to both sides of an abscissa, and simplified.
fn split(alloc: Global, rings: Rings, at: i64) -> Result<(Rings, Rings), AllocError>
    ensures left { IfOk result
        (λ parts. (s : GridSquare) → SomeCovers parts.0 s ↔ ((s.x <ℤ at) × SomeCovers rings s)) }
    ensures right { IfOk result
        (λ parts. (s : GridSquare) → SomeCovers parts.1 s ↔ ((at ≤ℤ s.x) × SomeCovers rings s)) }
{
    let (left, right) = rings.split_at(alloc, at)?;
    drop(rings);
    let left = simplified(alloc, left)?;
    let right = simplified(alloc, right)?;
    Ok((left, right))
}

/// Both halves of a column that is cut at an abscissa. Each list is freed as soon as it is split.
pub(crate) fn halves_at(
    alloc: Global,
    column: Column,
    at: i64,
) -> Result<(Column, Column), AllocError>
    ensures left { IfOk result (λ halves. IsPartOf (λ s. s.x <ℤ at) (lists_of column) (lists_of halves.0)) }
    ensures right { IfOk result (λ halves. IsPartOf (λ s. at ≤ℤ s.x) (lists_of column) (lists_of halves.1)) }
{
    let depth = column.depth.saturating_add(1);
    let (left_first, right_first) = split(alloc, column.first, at)?;
    let (left_second, right_second) = split(alloc, column.second, at)?;
    Ok((
        Column {
            first: left_first,
            second: left_second,
            depth,
        },
        Column {
            first: right_first,
            second: right_second,
            depth,
        },
    ))
}
