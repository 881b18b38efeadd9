//! Repetitions: the shifts at which a shape or a placement is repeated, as a lattice or as a list.
ghost use Rattle.std.specs.Prelude.{◌≡◌, ◌<◌, ◌≤◌, ◌^◌, false, IfOk, IfSome, vec_len, vec_capacity};
ghost use Rattle.oasis_values.specs.Known.{among};
ghost use Rattle.oasis_values.specs.Repetitions.{kinds, place_limit, line_size, matrix_size, list_size, modal};
ghost use Rattle.oasis_values.specs.Repetitions.{lattice_in_range};
ghost use Rattle.lvl_names.specs.Shifts.{StartsAtZero};
ghost use Rattle.oasis_values.specs.inside.Sizes.{IsFew, IsSmall};

use crate::fault::ValueFault;
use crate::input::Input;
use crate::shift::Spacing;
use lvl_grid::Point;
use lvl_io::Read;
use lvl_names::Offsets;
use lvl_profile::Limits;
use lvl_refusal::Cause;
use std::alloc::{AllocError, Global};

/// A repetition, as a record has it.
#[derive(Debug, Drop)]
pub enum Repetition {
    /// The modal repetition. It isn't copied.
    Modal,
    /// These shifts. If they are a list, all clones share it.
    New(Offsets),
}

/// How the places of a repetition lie, by its type.
#[derive(Clone, Copy, Drop)]
pub enum Kind {
    /// They are those of the modal repetition.
    Modal,
    /// Along two steps, by a spacing for each.
    Matrix(Spacing, Spacing),
    /// Along one step.
    Line(Spacing),
    /// At successive spaces, each multiplied by a grid if the flag is set.
    List(Spacing, bool),
}

/// The numbers of places along two steps.
#[derive(Clone, Copy, Drop)]
pub struct Size {
    columns: u64,
    rows: u64,
}

const ORIGIN: Point = Point { x: 0, y: 0 };

/// The greatest number of places of a lattice within any limits, 2^60 (own rule).
const MOST_PLACES: u64 = 1 << 60;

/// The greatest number of places of a list (own rule).
const MOST_LISTED: u64 = 1_048_576;

// How the places of a repetition lie, by the number of its type.
fn kind_of(number: u64) -> Option<Kind>
    ensures { result ≡ among 0 kinds number }
{
    match number {
        0 => Some(Kind::Modal),
        1 => Some(Kind::Matrix(Spacing::AlongX, Spacing::AlongY)),
        2 => Some(Kind::Line(Spacing::AlongX)),
        3 => Some(Kind::Line(Spacing::AlongY)),
        4 => Some(Kind::List(Spacing::AlongX, false)),
        5 => Some(Kind::List(Spacing::AlongX, true)),
        6 => Some(Kind::List(Spacing::AlongY, false)),
        7 => Some(Kind::List(Spacing::AlongY, true)),
        8 => Some(Kind::Matrix(Spacing::Free, Spacing::Free)),
        9 => Some(Kind::Line(Spacing::Free)),
        10 => Some(Kind::List(Spacing::Free, false)),
        11 => Some(Kind::List(Spacing::Free, true)),
        _ => None,
    }
}

// The greatest number of places of a lattice.
fn place_limit(limits: Limits) -> u64
    ensures { result ≡ place_limit limits }
{
    limits.placed.min(MOST_PLACES)
}

// The number of places along a step, `dimension + 2`; `None` if there are too many.
fn line_size(limits: Limits, dimension: u64) -> Option<u64>
    ensures value { result ≡ line_size limits dimension }
    ensures few { IfSome result (λ n. n ≤ 1152921504606846976) }
{
    let places = dimension.checked_add(2)?;
    if places > place_limit(limits) {
        return None;
    }
    Some(places)
}

// The numbers of places along two steps, `columns + 2` and `rows + 2`; `None` if there are too many.
fn matrix_size(limits: Limits, columns: u64, rows: u64) -> Option<Size>
    ensures value { result ≡ matrix_size limits columns rows }
    ensures small { IfSome result IsSmall }
{
    let columns = line_size(limits, columns)?;
    let rows = line_size(limits, rows)?;
    if columns.checked_mul(rows)? > place_limit(limits) {
        return None;
    }
    Some(Size { columns, rows })
}

// The number of spaces in a list, `dimension + 1`; `None` if its places are too many.
fn list_size(dimension: u64) -> Option<usize>
    ensures value { result ≡ list_size dimension }
    ensures few { IfSome result (λ n. n ≤ 1048576) }
{
    if dimension > MOST_LISTED - 2 {
        return None;
    }
    Some(dimension as usize + 1)
}

// The modal repetition, if there is one.
fn modal(has_modal: bool) -> Option<Repetition>
    ensures { result ≡ modal has_modal }
{
    if has_modal {
        Some(Repetition::Modal)
    } else {
        None
    }
}

// The lattice of two steps; `None` if a shift doesn't fit in 64 bits.
fn lattice(a: Point, m: u64, b: Point, n: u64) -> Option<Offsets>
    requires { IsFew m n }
    ensures { result ≡ lattice_in_range a m b n }
{
    Offsets::lattice(a, m, b, n)
}

// The shifts, of which the first is zero: two as a row, which takes no memory, and more as a list that all clones share.
fn listed(shifts: Vec<Point>) -> Result<Offsets, AllocError>
    requires { StartsAtZero shifts.items }
    ensures { IfOk result (λ offsets. offsets ≡ shifts.items) }
{
    if let [_, second] = shifts.as_slice() {
        if let Some(row) = Offsets::lattice(*second, 2, ORIGIN, 1) {
            return Ok(row);
        }
    }
    let mut offsets = Offsets::new(shifts).unwrap();
    offsets.share()?;
    Ok(offsets)
}

impl<R: Read> Input<R> {
    ghost use Rattle.oasis_values.specs.Input.{has_failed};
    ghost use Rattle.oasis_values.specs.Reads.{Reads, Refutes};
    ghost use Rattle.oasis_values.specs.Faults.{as_breach};
    ghost use Rattle.oasis_values.specs.Repetitions.{IsModal};
    ghost use Rattle.oasis_values.specs.Repetitions.{IsLineOf, IsLine, IsColumns, IsMatrixOf, IsMatrix};
    ghost use Rattle.oasis_values.specs.Repetitions.{IsGrid, AreShifts, IsSpreadOf, IsSpread, IsRepetition};

    /// A repetition. Type 0 is the modal repetition, if there is one.
    ///
    /// The dimensions are tested after all of them were read, and before it allocates. The shifts of a step
    /// or a space are tested when it is read. Types 1, 2, 3, 8 and 9 are kept as lattices, which are never
    /// written out.
    pub fn repetition(
        &mut self,
        alloc: Global,
        has_modal: bool,
    ) -> Result<Repetition, Cause<ValueFault>>
        ensures reads { Reads R.remaining R.read_errors R.lent (IsRepetition has_modal) self.old self.new result }
        ensures none { Refutes R.remaining (IsRepetition has_modal) self.old result }
    {
        let number = self.unsigned()?;
        let kind = self.known(kind_of(number), ValueFault::RepetitionType)?;
        match kind {
            Kind::Modal => self.modal(has_modal),
            Kind::Matrix(first, second) => self.matrix(first, second),
            Kind::Line(spacing) => self.line(spacing),
            Kind::List(spacing, gridded) => self.spread(alloc, spacing, gridded),
        }
    }

    // The modal repetition, if there is one.
    fn modal(&mut self, has_modal: bool) -> Result<Repetition, Cause<ValueFault>>
        ensures reads { Reads R.remaining R.read_errors R.lent (IsModal has_modal) self.old self.new result }
    {
        let again = self.known(modal(has_modal), ValueFault::NoModal)?;
        Ok(again)
    }

    // Places along one step.
    fn line(&mut self, spacing: Spacing) -> Result<Repetition, Cause<ValueFault>>
        ensures reads { Reads R.remaining R.read_errors R.lent (IsLine spacing) self.old self.new result }
    {
        let number = self.unsigned()?;
        let count = self.known(
            line_size(self.profile().limits, number),
            ValueFault::RepetitionSize,
        )?;
        self.line_of(spacing, count)
    }

    // `count` places along one step.
    fn line_of(&mut self, spacing: Spacing, count: u64) -> Result<Repetition, Cause<ValueFault>>
        requires some { 0 < count }
        requires few { count ≤ 1152921504606846976 }
        ensures reads { Reads R.remaining R.read_errors R.lent (IsLineOf spacing count) self.old self.new result }
    {
        let step = self.shift(spacing, 1, ORIGIN)?;
        let places = self.known(lattice(step, count, ORIGIN, 1), ValueFault::OutOfRange)?;
        Ok(Repetition::New(places))
    }

    // Places along two steps.
    fn matrix(&mut self, first: Spacing, second: Spacing) -> Result<Repetition, Cause<ValueFault>>
        ensures reads { Reads R.remaining R.read_errors R.lent (IsMatrix first second) self.old self.new result }
    {
        let columns = self.unsigned()?;
        let rows = self.unsigned()?;
        let size = matrix_size(self.profile().limits, columns, rows);
        let size = self.known(size, ValueFault::RepetitionSize)?;
        self.matrix_of(first, second, size)
    }

    // Places along two steps, `size` of them.
    fn matrix_of(
        &mut self,
        first: Spacing,
        second: Spacing,
        size: Size,
    ) -> Result<Repetition, Cause<ValueFault>>
        requires { IsSmall size }
        ensures reads { Reads R.remaining R.read_errors R.lent (IsMatrixOf first second size) self.old self.new result }
    {
        let across = self.columns(first, size.columns)?;
        let up = self.shift(second, 1, ORIGIN)?;
        let places = lattice(across, size.columns, up, size.rows);
        let places = self.known(places, ValueFault::OutOfRange)?;
        Ok(Repetition::New(places))
    }

    // The first of two steps, whose `count` places must be in range.
    fn columns(&mut self, spacing: Spacing, count: u64) -> Result<Point, ValueFault>
        requires some { 0 < count }
        requires few { count ≤ 1152921504606846976 }
        ensures reads { Reads R.remaining R.read_errors R.lent
            (IsColumns spacing count) self.old self.new (as_breach result) }
    {
        let step = self.shift(spacing, 1, ORIGIN)?;
        let row = self.known(lattice(step, count, ORIGIN, 1), ValueFault::OutOfRange)?;
        drop(row);
        Ok(step)
    }

    // A list of places.
    fn spread(
        &mut self,
        alloc: Global,
        spacing: Spacing,
        gridded: bool,
    ) -> Result<Repetition, Cause<ValueFault>>
        ensures reads { Reads R.remaining R.read_errors R.lent (IsSpread spacing gridded) self.old self.new result }
    {
        let number = self.unsigned()?;
        let count = self.known(list_size(number), ValueFault::ListSize)?;
        self.spread_of(alloc, spacing, gridded, count)
    }

    // A list of places: the first, and `count` after it.
    fn spread_of(
        &mut self,
        alloc: Global,
        spacing: Spacing,
        gridded: bool,
        count: usize,
    ) -> Result<Repetition, Cause<ValueFault>>
        requires live { has_failed self.old ≡ false }
        requires few { count ≤ 1048576 }
        ensures reads { Reads R.remaining R.read_errors R.lent
            (IsSpreadOf spacing gridded count) self.old self.new result }
    {
        let grid = self.grid(gridded)?;
        self.shifts(alloc, spacing, grid, count)
    }

    // The grid by which spaces are multiplied; 1 if there is none.
    fn grid(&mut self, gridded: bool) -> Result<u64, ValueFault>
        requires { has_failed self.old ≡ false }
        ensures reads { Reads R.remaining R.read_errors R.lent (IsGrid gridded) self.old self.new (as_breach result) }
    {
        if gridded {
            return self.unsigned();
        }
        Ok(1)
    }

    // The zero shift, and `count` shifts after it.
    fn shifts(
        &mut self,
        alloc: Global,
        spacing: Spacing,
        grid: u64,
        count: usize,
    ) -> Result<Repetition, Cause<ValueFault>>
        requires live { has_failed self.old ≡ false }
        requires few { count ≤ 1048576 }
        ensures reads { Reads R.remaining R.read_errors R.lent (AreShifts spacing count grid) self.old self.new result }
    {
        let Ok(mut shifts) = Vec::with_capacity(alloc, count + 1) else {
            self.stop();
            return Err(Cause::OutOfMemory);
        };
        shifts.push_reserved(ORIGIN);
        let mut at = ORIGIN;
        for n in 0..count {
            at = self.shift(spacing, grid, at)?;
            shifts.push_reserved(at);
        }
        let Ok(places) = listed(shifts) else {
            self.stop();
            return Err(Cause::OutOfMemory);
        };
        Ok(Repetition::New(places))
    }
}
