//! Columns, each swept or cut in two.
ghost use Rattle.std.specs.Prelude.{◌≡◌, ◌*◌, ◌≤◌, ◌⊎◌, ◌↔◌, IfOk, IfNone, IfSome, IsTrue, length};
ghost use Rattle.lvl_grid.specs.Clip.{IsIn};
ghost use Rattle.lvl_grid.specs.declared.point.Square.{Square as GridSquare};
ghost use Rattle.lvl_grid.specs.Winding.{SomeCovers};
ghost use Rattle.lvl_grid.specs.Squares.{IsBefore};
ghost use Rattle.lvl_region.specs.Region.{IsAlone};
ghost use Rattle.lvl_columns.specs.Columns.{IsFirst, IsFoundIn, IsLeastWith, IsPartOf, NotBefore, last_row, lists_of};
ghost use Rattle.lvl_columns.specs.Corners.{corners_of};

use crate::cancel::difference_left;
use crate::cut::{cut_at, is_narrow};
use crate::halves::halves_at;
use lvl_grid::{Part, Rings, Square};
use lvl_region::Side;
use lvl_simplify::simplified;
use lvl_sweep::first_difference_up_to;
use std::alloc::{AllocError, Global};

/// Two lists of rings, clipped to a column of the grid. `depth` is the number of cuts, one within
/// the other, that made the column.
#[derive(Drop)]
pub struct Column {
    pub first: Rings,
    pub second: Rings,
    pub depth: u32,
}

/// What a comparison by columns found, and how many columns it made.
#[derive(Clone, Copy, Debug)]
pub struct ColumnComparison {
    /// The least square, by `y` and then `x`, that the rings of only one list cover, with its side,
    /// or None if both lists cover the same squares.
    pub found: Option<(Square, Side)>,
    /// The number of columns that were made: two for each cut.
    pub columns: u64,
}

/// The one of two differences whose square is less, or the only one that there is.
fn lesser(best: Option<(Square, Side)>, found: Option<(Square, Side)>) -> Option<(Square, Side)>
    ensures one { (result ≡ best) ⊎ (result ≡ found) }
    ensures bound { (s : GridSquare) → (NotBefore s best ⊎ NotBefore s found) → NotBefore s result }
{
    let Some((old, _)) = best else {
        return found;
    };
    let Some((new, _)) = found else {
        return best;
    };
    if new.is_before(old) { found } else { best }
}

/// The row of the square, if there is one: no column need be compared above that row.
fn row_of(best: Option<(Square, Side)>) -> Option<i64>
    ensures { result ≡ last_row best }
{
    match best {
        Some((square, _)) => Some(square.y),
        None => None,
    }
}

/// The rings of a list, clipped to a part and simplified.
fn clipped(alloc: Global, rings: &Rings, part: &Part) -> Result<Rings, AllocError>
    ensures { IfOk result
        (λ clipped. (s : GridSquare) → SomeCovers clipped s ↔ (IsIn part.now s × SomeCovers rings.now s)) }
{
    simplified(alloc, Rings::clipped(alloc, rings, part)?)
}

/// The column of a part of two lists.
fn column_of(
    alloc: Global,
    first: &Rings,
    second: &Rings,
    part: &Part,
) -> Result<Column, AllocError>
    ensures { IfOk result (λ column. IsPartOf (IsIn part.now) (first.now, second.now) (lists_of column)) }
{
    Ok(Column {
        first: clipped(alloc, first, part)?,
        second: clipped(alloc, second, part)?,
        depth: 1,
    })
}

/// The lesser of the difference that is known and of the least one of two lists, found by a sweep of each.
fn swept(
    alloc: Global,
    first: &Rings,
    second: &Rings,
    known: Option<(Square, Side)>,
) -> Result<Option<(Square, Side)>, AllocError>
    ensures { IfOk result (IsLeastWith (first.now, second.now) known) }
{
    let found = first_difference_up_to(alloc, first, second, row_of(known))?;
    Ok(lesser(known, found))
}

/// Where a column is cut, or None if that doesn't pay or fewer than two columns may be made.
fn column_cut(alloc: Global, column: &Column, left: u64) -> Result<Option<i64>, AllocError>
    ensures { IfOk result (λ cut. IfSome cut (λ _. 2 ≤ left)) }
{
    if left < 2 {
        return Ok(None);
    }
    cut_at(alloc, &column.first, &column.second, column.depth)
}

/// The lesser of the difference that is known and of the least one of a column, which is swept or cut in two, with
/// at most `most` columns in all.
fn compared(
    alloc: Global,
    column: Column,
    known: ColumnComparison,
    most: u64,
) -> Result<ColumnComparison, AllocError>
    requires { known.columns ≤ most }
    ensures found { IfOk result (λ it. IsLeastWith (lists_of column) known.found it.found) }
    ensures columns { IfOk result (λ it. (known.columns ≤ it.columns) × (it.columns ≤ most)) }
{
    if column.first.is_same(&column.second) {
        return Ok(known);
    }
    let Some(at) = column_cut(alloc, &column, most - known.columns)? else {
        let found = swept(alloc, &column.first, &column.second, known.found)?;
        return Ok(ColumnComparison { found, ..known });
    };
    let (left, right) = halves_at(alloc, column, at)?;
    let columns = known.columns + 2;
    let made = ColumnComparison { columns, ..known };
    let half = compared(alloc, left, made, most)?;
    compared(alloc, right, half, most)
}

/// A copy of a list of rings.
fn copied(alloc: Global, rings: &Rings) -> Result<Rings, AllocError>
    ensures { IfOk result (λ copy. copy ≡ rings.now) }
{
    let mut copy = Rings::with_capacity(alloc, rings.points().len(), rings.len())?;
    for i in 0..rings.len() {
        copy.push(rings.ring(i))?;
    }
    Ok(copy)
}

/// The least difference of two lists that aren't cut. If all corners are at two abscissas, copies
/// of both lists are simplified first, since then each ring can be joined with others.
fn uncut(alloc: Global, first: &Rings, second: &Rings) -> Result<Option<(Square, Side)>, AllocError>
    ensures { IfOk result (IsFirst (first.now, second.now)) }
{
    if !is_narrow(first, second) {
        return swept(alloc, first, second, None);
    }
    let ours = simplified(alloc, copied(alloc, first)?)?;
    let theirs = simplified(alloc, copied(alloc, second)?)?;
    swept(alloc, &ours, &theirs, None)
}

/// The least difference of two lists that are cut at the abscissa `at`: first the part left of it,
/// then the other, with at most `most` columns in all.
fn in_parts(
    alloc: Global,
    first: &Rings,
    second: &Rings,
    at: i64,
    most: u64,
) -> Result<ColumnComparison, AllocError>
    requires { 2 ≤ most }
    ensures found { IfOk result (λ it. IsFirst (first.now, second.now) it.found) }
    ensures columns { IfOk result (λ it. it.columns ≤ most) }
{
    let none = ColumnComparison {
        found: None,
        columns: 2,
    };
    let left = column_of(alloc, first, second, &Part::Left(at))?;
    let half = compared(alloc, left, none, most)?;
    let right = column_of(alloc, first, second, &Part::Right(at))?;
    let whole = compared(alloc, right, half, most)?;
    Ok(whole)
}

/// The least difference of two lists, by columns if a cut pays, of which at most `most` are made.
pub(crate) fn least_difference(
    alloc: Global,
    first: &Rings,
    second: &Rings,
    most: u64,
) -> Result<ColumnComparison, AllocError>
    ensures found { IfOk result (λ it. IsFirst (first.now, second.now) it.found) }
    ensures columns { IfOk result (λ it. it.columns ≤ most) }
{
    if most >= 2 {
        if let Some(at) = cut_at(alloc, first, second, 0)? {
            return in_parts(alloc, first, second, at, most);
        }
    }
    let found = uncut(alloc, first, second)?;
    Ok(ColumnComparison { found, columns: 0 })
}

/// The greatest number of columns of two lists: two for each corner, since each cut is at another
/// corner.
fn most_columns(first: &Rings, second: &Rings) -> u64
    ensures { result ≤ 2 * length (corners_of first.now second.now) }
{
    let corners = (first.points().len() as u64).saturating_add(second.points().len() as u64);
    corners.saturating_mul(2)
}

/// Whether only the list of that side covers the square.
fn is_alone(first: &Rings, second: &Rings, square: Square, side: Side) -> bool
    ensures { IsTrue result → IsAlone (SomeCovers first.now) (SomeCovers second.now) square side }
{
    match side {
        Side::First => first.covers(square) && !second.covers(square),
        Side::Second => second.covers(square) && !first.covers(square),
    }
}

/// Whether what was found, if anything, is a square that only the list of its side covers.
fn is_found_in(first: &Rings, second: &Rings, found: Option<(Square, Side)>) -> bool
    ensures { IsTrue result → IsFoundIn (first.now, second.now) found }
{
    match found {
        Some((square, side)) => is_alone(first, second, square, side),
        None => true,
    }
}

/// The least difference of two lists: of what is left of them without the rings that both have, if that is little.
/// Where a common ring covers the difference that is found so, all rings are compared.
pub(crate) fn first_of(
    alloc: Global,
    first: &Rings,
    second: &Rings,
) -> Result<ColumnComparison, AllocError>
    ensures found { IfOk result (λ it. IsFirst (first.now, second.now) it.found) }
    ensures columns { IfOk result (λ it. it.columns ≤ 2 * length (corners_of first.now second.now)) }
{
    let found = None;
    if first.is_same(second) {
        return Ok(ColumnComparison { found, columns: 0 });
    }
    let most = most_columns(first, second);
    let Some(left) = difference_left(alloc, first, second, most)? else {
        return least_difference(alloc, first, second, most);
    };
    if is_found_in(first, second, left.found) {
        return Ok(left);
    }
    let whole = least_difference(alloc, first, second, most - left.columns)?;
    let columns = left.columns + whole.columns;
    Ok(ColumnComparison { columns, ..whole })
}

/// The least square, by `y` and then `x`, that the rings of only one list cover, with its side, or
/// None if both lists cover the same squares; and the number of columns that were made to find it,
/// at most two for each corner of both lists. Fails only if out of memory.
///
/// The right half is copied after the left one is compared, so in addition to the lists there are
/// copies of at most about three quarters of them.
pub fn compare_by_columns(
    alloc: Global,
    first: &Rings,
    second: &Rings,
) -> Result<ColumnComparison, AllocError>
    ensures same { IfOk result
        (λ it. IfNone it.found ((s : GridSquare) → SomeCovers first.now s ↔ SomeCovers second.now s)) }
    ensures differ { IfOk result
        (λ it. IfSome it.found (λ at. IsAlone (SomeCovers first.now) (SomeCovers second.now) at.0 at.1)) }
    ensures least { IfOk result
        (λ it. IfSome it.found
        (λ at. (s : GridSquare) → IsBefore s at.0 → SomeCovers first.now s ↔ SomeCovers second.now s)) }
    ensures columns { IfOk result (λ it. it.columns ≤ 2 * length (corners_of first.now second.now)) }
{
    let found = first_of(alloc, first, second)?;
    Ok(found)
}

/// What [`compare_by_columns`] finds, without the number of columns.
pub fn difference_by_columns(
    alloc: Global,
    first: &Rings,
    second: &Rings,
) -> Result<Option<(Square, Side)>, AllocError>
    ensures same { IfOk result
        (λ found. IfNone found ((s : GridSquare) → SomeCovers first.now s ↔ SomeCovers second.now s)) }
    ensures differ { IfOk result
        (λ found. IfSome found (λ at. IsAlone (SomeCovers first.now) (SomeCovers second.now) at.0 at.1)) }
    ensures least { IfOk result
        (λ found. IfSome found
        (λ at. (s : GridSquare) → IsBefore s at.0 → SomeCovers first.now s ↔ SomeCovers second.now s)) }
{
    Ok(compare_by_columns(alloc, first, second)?.found)
}
