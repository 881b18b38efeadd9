//! The targets of references as they are stored: for each cell a row of runs.
ghost use Rattle.std.specs.Prelude.{◌≡◌, ◌<◌, ◌≤◌, ◌-◌, ◌++◌, ◌∷◌, [], ℕ, List, length, take, drop, slice_get, nat_le};
ghost use Rattle.std.specs.Prelude.{Some, IsTrue, OnOk, option_map};
ghost use Rattle.lvl_grid.specs.Pieces.{begin_of};
ghost use Rattle.lvl_cells.specs.declared.rows.Run.{Run as PlainRun};
ghost use Rattle.lvl_cells.specs.inside.Rows.{spread, spread_rows, AreRows, HasRow, Rises};

use crate::lists::push_item;
use crate::shape_lists::{kept_count, kept_sum};
use std::alloc::AllocError;
use std::marker::Model;

/// References that follow one another in a cell and have the same target.
#[derive(Clone, Copy)]
pub(crate) struct Run {
    /// The index after the last of them, among the references of the cell.
    end: u32,
    target: u32,
}

/// Adds the target of the reference at index `reference` of a cell whose row of runs begins at index
/// `begin`. If the reference before has the same target, its run goes on.
pub(crate) fn push_target(
    runs: &mut Vec<Run>,
    begin: usize,
    reference: usize,
    target: usize,
) -> Result<(), AllocError>
    ensures { OnOk result ((front : List PlainRun) (targets : List ℕ)
        → length front ≡ begin → length targets ≡ reference
        → HasRow front runs.old.items targets → HasRow front runs.new.items (targets ++ target ∷ [])) }
{
    let run = Run {
        end: kept_sum(reference, 1)?,
        target: kept_count(target)?,
    };
    let count = runs.len();
    if count > begin && runs[count - 1].target == run.target {
        runs[count - 1] = run;
        return Ok(());
    }
    push_item(runs, run)
}

/// Whether run `run` has the reference at this index.
fn has_reference(runs: &[Run], run: usize, reference: usize) -> bool
    requires { Rises 0 runs.now }
    ensures { IsTrue result
        → slice_get (spread 0 runs.now) reference ≡ option_map (λ r. r.target) (slice_get runs.now run) }
{
    if run >= runs.len() || runs[run].end as usize <= reference {
        return false;
    }
    if run == 0 {
        return true;
    }
    let before = runs[run - 1].end as usize;
    before <= reference
}

/// The index of the run with the reference at this index, if all runs are equally long.
fn guessed(runs: &[Run], reference: usize) -> usize {
    let count = runs.len();
    if count <= 1 {
        return 0;
    }
    let references = runs[count - 1].end as usize;
    if references == count {
        return reference;
    }
    let product = reference.saturating_mul(count);
    product.checked_div(references).unwrap_or(0)
}

/// The index of the run with the reference at this index, or the number of runs if there is none. It
/// is guessed first, since a search through millions of runs misses the cache again and again.
fn run_of(runs: &[Run], reference: usize) -> usize
    requires { Rises 0 runs.now }
    ensures { slice_get (spread 0 runs.now) reference ≡ option_map (λ r. r.target) (slice_get runs.now result) }
{
    let guess = guessed(runs, reference);
    if has_reference(runs, guess, reference) {
        return guess;
    }
    runs.partition_point(
        |run: &Run| -> bool
            ensures { result ≡ nat_le run.now.end reference }
        { run.end as usize <= reference },
    )
}

/// The targets of the references of a cell.
#[derive(Drop)]
pub(crate) struct Row<'a> {
    runs: &'a [Run],
}

impl<'a> Model for Row<'a> {
    ghost use Rattle.std.specs.Prelude.{ℕ, List};
    ghost use Rattle.lvl_cells.specs.inside.Rows.{spread, Rises};

    ghost Value = { List ℕ };

    ghost view = { λ r. spread 0 r.runs.now };

    ghost invariant = { λ r. Rises 0 r.runs.now };
}

impl<'a> Row<'a> {
    /// The number of references.
    pub(crate) fn len(&self) -> usize
        ensures { result ≡ length self.now }
    {
        let count = self.runs.len();
        if count == 0 {
            return 0;
        }
        self.runs[count - 1].end as usize
    }

    /// The target of the reference at this index, if there is one.
    pub(crate) fn get(&self, reference: usize) -> Option<usize>
        ensures { result ≡ slice_get self.now reference }
    {
        let run = run_of(self.runs, reference);
        if run >= self.runs.len() {
            return None;
        }
        Some(self.runs[run].target as usize)
    }
}

/// The index of the first run of row `i`, given the index after the last run of each.
fn begin(ends: &[usize], i: usize) -> usize
    requires { i < length ends.now }
    ensures { result ≡ begin_of 0 ends.now i }
{
    if i == 0 {
        return 0;
    }
    ends[i - 1]
}

/// The runs with an index from `start` up to `end`, which is excluded.
fn stretch(runs: &[Run], start: usize, end: usize) -> &[Run]
    requires rising { start ≤ end }
    requires inside { end ≤ length runs.now }
    ensures { result.now ≡ take (end - start) (drop start runs.now) }
{
    &runs[start..end]
}

/// The targets of the references of all cells. A cell takes 8 bytes, and each run of references
/// that follow one another to the same cell 8 more.
#[derive(Drop)]
pub(crate) struct Targets {
    ends: Vec<usize>,
    runs: Vec<Run>,
}

impl Model for Targets {
    ghost use Rattle.std.specs.Prelude.{ℕ, List};
    ghost use Rattle.lvl_cells.specs.inside.Rows.{spread_rows, AreRows};

    ghost Value = { List (List ℕ) };

    ghost view = { λ t. spread_rows t.ends.items t.runs.items };

    ghost invariant = { λ t. AreRows t.ends.items t.runs.items };
}

impl Targets {
    /// The targets in these runs, given the index after the last run of each cell.
    pub(crate) fn of(ends: Vec<usize>, runs: Vec<Run>) -> Targets
        requires { AreRows ends.items runs.items }
        ensures { result ≡ spread_rows ends.items runs.items }
    {
        Targets { ends, runs }
    }

    /// The number of cells.
    pub(crate) fn len(&self) -> usize
        ensures { result ≡ length self.now }
    {
        self.ends.len()
    }

    /// The targets of the references of the cell at this index.
    pub(crate) fn row(&self, cell: usize) -> Row<'_>
        requires { cell < length self.now }
        ensures { slice_get self.now cell ≡ Some result }
    {
        let start = begin(&self.ends, cell);
        let end = self.ends[cell];
        Row {
            runs: stretch(&self.runs, start, end),
        }
    }
}
