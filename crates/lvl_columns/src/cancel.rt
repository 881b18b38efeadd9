//! Two lists of rings without those that both have. The lists differ where what is left of them does, unless a ring
//! that both have covers the square.
ghost use Rattle.std.specs.Prelude.{◌⊎◌, ◌≤◌, IfOk, IfSome, OnOk};
ghost use Rattle.lvl_grid.specs.declared.point.Square.{Square as GridSquare};
ghost use Rattle.lvl_grid.specs.Winding.{Covers, IsRing, SomeCovers};
ghost use Rattle.lvl_columns.specs.Columns.{Agree, NotBefore};
ghost use Rattle.lvl_columns.specs.Left.{AreLeft, IsLeft};

use crate::columns::{ColumnComparison, least_difference};
use crate::sample::Random;
use crate::table::Table;
use lvl_grid::{Point, Rings};
use std::alloc::{AllocError, Global};

/// Shorter lists are swept as fast as common rings are found.
const FEWEST: usize = 256;

/// The number of rings that say whether lists have many in common.
const SAMPLED: usize = 128;

/// Appends a ring, unless it is found in another list.
fn push_left(
    left: &mut Rings,
    table: &Table,
    others: &Rings,
    ring: &[Point],
) -> Result<(), AllocError>
    requires { IsRing ring.now }
    ensures within { OnOk result
        ((s : GridSquare) → SomeCovers left.new s → SomeCovers left.old s ⊎ Covers ring.now s) }
    ensures all { OnOk result ((s : GridSquare) → (SomeCovers left.old s ⊎ Covers ring.now s)
        → SomeCovers left.new s ⊎ SomeCovers others.now s) }
{
    if table.has_alike(others, ring) {
        return Ok(());
    }
    left.push(ring)
}

/// The rings of a list that aren't found in another one, whose table is given, or None if they have more than
/// `most` points.
fn left_of(
    alloc: Global,
    rings: &Rings,
    table: Table,
    others: &Rings,
    most: usize,
) -> Result<Option<Rings>, AllocError>
    ensures { IfOk result (λ found. IfSome found (IsLeft rings.now others.now)) }
{
    let mut left = Rings::new(alloc);
    for i in 0..rings.len() {
        push_left(&mut left, &table, others, rings.ring(i))?;
        if left.points().len() > most {
            return Ok(None);
        }
    }
    Ok(Some(left))
}

/// Whether at least half of some rings of a list, taken at random, are found in another one. If fewer are, it doesn't
/// pay to find all.
fn have_many(rings: &Rings, table: &Table, others: &Rings) -> bool {
    let mut random = Random::new();
    let mut found: usize = 0;
    for _ in 0..SAMPLED {
        if let Some(ring) = rings.get(random.below(rings.len())) {
            if table.has_alike(others, ring) {
                found = found.saturating_add(1);
            }
        }
    }
    found >= SAMPLED / 2
}

/// The rings of each of two lists that aren't found in the other, or None if they are more than three sevenths of
/// all: then they, and the columns of them, would take more memory than the columns of all.
fn left_over(
    alloc: Global,
    first: &Rings,
    second: &Rings,
) -> Result<Option<(Rings, Rings)>, AllocError>
    ensures { IfOk result (λ found. IfSome found (λ left. AreLeft first.now second.now left.0 left.1)) }
{
    if first.len() < FEWEST || second.len() < FEWEST {
        return Ok(None);
    }
    let table = Table::of(alloc, second)?;
    if !have_many(first, &table, second) {
        return Ok(None);
    }
    let points = first.points().len().saturating_add(second.points().len());
    let most = points / 7 * 3;
    let Some(ours) = left_of(alloc, first, table, second, most)? else {
        return Ok(None);
    };
    let rest = most.saturating_sub(ours.points().len());
    let Some(theirs) = left_of(alloc, second, Table::of(alloc, first)?, first, rest)? else {
        return Ok(None);
    };
    Ok(Some((ours, theirs)))
}

/// The least difference of what is left of two lists without the rings that both have, by at most `most` columns.
/// Before it the lists agree; at it they differ unless a ring that both have covers it. None if too few are common.
pub(crate) fn difference_left(
    alloc: Global,
    first: &Rings,
    second: &Rings,
    most: u64,
) -> Result<Option<ColumnComparison>, AllocError>
    ensures least { IfOk result (λ left. IfSome left (λ it. (s : GridSquare)
        → Agree (first.now, second.now) s ⊎ NotBefore s it.found)) }
    ensures columns { IfOk result (λ left. IfSome left (λ it. it.columns ≤ most)) }
{
    let Some((ours, theirs)) = left_over(alloc, first, second)? else {
        return Ok(None);
    };
    let found = least_difference(alloc, &ours, &theirs, most)?;
    Ok(Some(found))
}
