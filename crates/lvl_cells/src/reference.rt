//! A reference to another cell.
ghost use Rattle.std.specs.Prelude.{◌≡◌, ◌↔◌, length, slice_get, All, IsSome, IfSome, IfNone, IfOk};
ghost use Rattle.lvl_grid.specs.Turn.{shifted, FitsPoint};
ghost use Rattle.lvl_names.specs.Shifts.{one_place};

use lvl_grid::{Map, Point, Turn};
use lvl_names::{Name, Offsets};
use std::alloc::AllocError;
use std::marker::Model;

/// A reference to a cell by its name. The cell is reflected, then turned, then placed at each place
/// of the reference: `at` moved by each of the shifts.
#[derive(Debug, Drop)]
pub struct Reference {
    pub(crate) cell: Name,
    pub(crate) flip: bool,
    pub(crate) turn: Turn,
    pub(crate) at: Point,
    pub(crate) shifts: Offsets,
}

impl Model for Reference {
    ghost use Rattle.std.specs.Prelude.{All};
    ghost use Rattle.lvl_grid.specs.Turn.{FitsPoint, shifted};
    ghost use Rattle.lvl_cells.specs.Cells.{PlainReference};

    ghost Value = { PlainReference };

    ghost view = { λ r. record { cell = r.cell; flip = r.flip; turn = r.turn; at = r.at; shifts = r.shifts } };

    ghost invariant = { λ r. All (λ e. FitsPoint (shifted r.at e)) r.shifts };
}

impl Reference {
    /// A reference to the cell of that name, or None if one of its places, each `at` moved by one
    /// of the shifts, is outside 64 signed bits.
    pub fn new(cell: Name, flip: bool, turn: Turn, at: Point, shifts: Offsets) -> Option<Reference>
        ensures some { IsSome result ↔ All (λ e. FitsPoint (shifted at e)) shifts }
        ensures same { IfSome result
            (λ r. r ≡ record { cell = cell; flip = flip; turn = turn; at = at; shifts = shifts }) }
    {
        if !shifts.all_fit_at(at) {
            return None;
        }
        Some(Reference {
            cell,
            flip,
            turn,
            at,
            shifts,
        })
    }

    /// The name of the cell that it places.
    pub fn cell(&self) -> &[u8]
        ensures { result.now ≡ self.now.cell }
    {
        self.cell.as_bytes()
    }

    /// Whether the cell is reflected about the X axis before it is turned.
    pub fn flip(&self) -> bool
        ensures { result ≡ self.now.flip }
    {
        self.flip
    }

    /// How the cell is turned before it is moved to a place.
    pub fn turn(&self) -> Turn
        ensures { result ≡ self.now.turn }
    {
        self.turn
    }

    /// The first of its places, in grid steps.
    pub fn at(&self) -> Point
        ensures { result ≡ self.now.at }
    {
        self.at
    }

    /// The displacement of each of its places from the first one. `at` moved by any of them is
    /// within 64 signed bits.
    pub fn shifts(&self) -> &Offsets
        ensures all { result.now ≡ self.now.shifts }
        ensures in_range { All (λ e. FitsPoint (shifted self.now.at e)) self.now.shifts }
    {
        &self.shifts
    }

    /// The reference, borrowed.
    pub(crate) fn kept(&self) -> KeptReference<'_>
        ensures { result ≡ self.now }
    {
        KeptReference {
            cell: &self.cell,
            by: Map {
                flip: self.flip,
                turn: self.turn,
                at: self.at,
            },
            shifts: Some(&self.shifts),
        }
    }
}

/// A reference of a cell, borrowed from its [`crate::References`].
#[derive(Debug, Drop)]
pub struct KeptReference<'a> {
    pub(crate) cell: &'a Name,
    pub(crate) by: Map,
    /// None for the zero shift alone.
    pub(crate) shifts: Option<&'a Offsets>,
}

impl<'a> Model for KeptReference<'a> {
    ghost use Rattle.std.specs.Prelude.{All};
    ghost use Rattle.lvl_grid.specs.Turn.{FitsPoint, shifted};
    ghost use Rattle.lvl_cells.specs.Cells.{PlainReference};
    ghost use Rattle.lvl_cells.specs.inside.Beside.{borrowed_shifts};

    ghost Value = { PlainReference };

    ghost view = { λ r. record {
      cell = r.cell.now;
      flip = r.by.flip;
      turn = r.by.turn;
      at = r.by.at;
      shifts = borrowed_shifts r.shifts;
    } };

    ghost invariant = { λ r. All (λ e. FitsPoint (shifted r.by.at e)) (borrowed_shifts r.shifts) };
}

impl<'a> KeptReference<'a> {
    /// The name of the cell that it places.
    pub fn cell(&self) -> &[u8]
        ensures { result.now ≡ self.now.cell }
    {
        self.cell.as_bytes()
    }

    /// Whether the cell is reflected about the X axis before it is turned.
    pub fn flip(&self) -> bool
        ensures { result ≡ self.now.flip }
    {
        self.by.flip
    }

    /// How the cell is turned before it is moved to a place.
    pub fn turn(&self) -> Turn
        ensures { result ≡ self.now.turn }
    {
        self.by.turn
    }

    /// The first of its places, in grid steps.
    pub fn at(&self) -> Point
        ensures { result ≡ self.now.at }
    {
        self.by.at
    }

    /// The displacement of each of its places from the first one, or None for the zero shift alone.
    pub fn shifts(&self) -> Option<&Offsets>
        ensures some { IfSome result (λ shifts. shifts.now ≡ self.now.shifts) }
        ensures none { IfNone result (self.now.shifts ≡ one_place) }
        ensures in_range { All (λ e. FitsPoint (shifted self.now.at e)) self.now.shifts }
    {
        self.shifts
    }

    /// The number of shifts.
    pub fn shift_count(&self) -> u64
        ensures { result ≡ length self.now.shifts }
    {
        match self.shifts {
            Some(shifts) => shifts.len(),
            None => 1,
        }
    }

    /// The shift at index `k`, or None if there is none. `at` moved by it is within 64 signed bits.
    pub fn shift(&self, k: u64) -> Option<Point>
        ensures value { result ≡ slice_get self.now.shifts k }
        ensures in_range { IfSome result (λ e. FitsPoint (shifted self.now.at e)) }
    {
        match self.shifts {
            Some(shifts) => shifts.at(k),
            None => Offsets::single().at(k),
        }
    }

    /// A copy of the shifts, which shares a shared list.
    pub fn copied_shifts(&self) -> Result<Offsets, AllocError>
        ensures { IfOk result (λ shifts. shifts ≡ self.now.shifts) }
    {
        match self.shifts {
            Some(shifts) => shifts.clone(),
            None => Ok(Offsets::single()),
        }
    }

    /// A copy, which shares the name and a shared list of shifts.
    pub(crate) fn copied(&self) -> Result<Reference, AllocError>
        ensures { IfOk result (λ reference. reference ≡ self.now) }
    {
        Ok(Reference {
            cell: self.cell.clone()?,
            flip: self.by.flip,
            turn: self.by.turn,
            at: self.by.at,
            shifts: self.copied_shifts()?,
        })
    }
}
