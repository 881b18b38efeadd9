//! Placements of cells that are given by the numbers of their names or by their names.
ghost use Rattle.std.specs.Prelude.{◌≡◌, ◌<◌, ◌++◌, ◌∷◌, [], length, map, IfOk, OnOk, IsTrue, All};
ghost use Rattle.lvl_grid.specs.Turn.{FitsPoint, shifted};
ghost use Rattle.oasis_library.specs.inside.Kept.{target_ref, placed, placed_from, IsKeyOf};
ghost use Rattle.lvl_cells.specs.inside.Spans.{IsPrefixOf};

use lvl_cells::Placements;
use lvl_grid::Map;
use lvl_names::{Name, Offsets};
use oasis_records::CellRef;
use std::alloc::{AllocError, Global};
use std::marker::Model;
use std::mem;

/// The cell that is placed.
#[derive(Drop)]
pub(crate) enum Target {
    /// By the number of its name.
    Number(u64),
    Name(Name),
}

impl Target {
    /// The target that is this cell.
    pub(crate) fn of(alloc: Global, cell: &CellRef) -> Result<Target, AllocError>
        ensures { IfOk result (λ target. target_ref target ≡ cell.now) }
    {
        match cell {
            CellRef::Number(number) => Ok(Target::Number(*number)),
            CellRef::Name(name) => {
                let name = Name::of(alloc, name.as_bytes())?;
                Ok(Target::Name(name))
            }
        }
    }

    /// Whether it is this cell, by the same number or the same name.
    pub(crate) fn is(&self, cell: &CellRef) -> bool
        ensures { IsTrue result → target_ref self.now ≡ cell.now }
    {
        match (self, cell) {
            (Target::Number(number), CellRef::Number(other)) => *number == *other,
            (Target::Name(name), CellRef::Name(other)) => name.as_bytes() == other.as_bytes(),
            _ => false,
        }
    }
}

/// A placement.
#[derive(Drop)]
pub(crate) struct PlacedCell {
    target: Target,
    by: Map,
    shifts: Offsets,
}

impl Model for PlacedCell {
    ghost use Rattle.std.specs.Prelude.{All};
    ghost use Rattle.lvl_grid.specs.Turn.{FitsPoint, shifted};
    ghost use Rattle.oasis_figures.specs.Figures.{Placed};
    ghost use Rattle.oasis_library.specs.inside.Kept.{placed, target_ref};

    ghost Value = { Placed };

    ghost view = { λ p. placed (target_ref p.target) p.by p.shifts };

    ghost invariant = { λ p. All (λ e. FitsPoint (shifted p.by.at e)) p.shifts };
}

/// Some placements, in the order of the file. What consecutive placements of the same cell share is
/// kept once.
#[derive(Drop)]
pub(crate) struct PlacementLists {
    targets: Vec<Target>,
    placements: Placements,
}

impl Model for PlacementLists {
    ghost use Rattle.std.specs.Prelude.{◌<◌, List, length, map, All};
    ghost use Rattle.oasis_figures.specs.Figures.{Placed};

    ghost Value = { List Placed };

    ghost use Rattle.oasis_library.specs.inside.Kept.{placed_from};

    ghost view = { λ p. map (placed_from p.targets.items) p.placements };

    ghost invariant = { λ p. All (λ q. q.key < length p.targets.items) p.placements };
}

/// The index of a cell among the targets. Keeps the cell, unless it is the last that was kept.
fn key_of(targets: &mut Vec<Target>, alloc: Global, cell: &CellRef) -> Result<usize, AllocError>
    ensures key { IfOk result (λ k. IsKeyOf targets.new.items k cell.now) }
    ensures before { IsPrefixOf targets.old.items targets.new.items }
{
    if let Some(last) = targets.last() {
        if last.is(cell) {
            return Ok(targets.len() - 1);
        }
    }
    let key = targets.len();
    let target = Target::of(alloc, cell)?;
    targets.push(target)?;
    Ok(key)
}

impl PlacementLists {
    /// A single placement.
    fn of(alloc: Global, single: PlacedCell) -> Result<PlacementLists, AllocError>
        ensures { IfOk result (λ lists. lists ≡ single ∷ []) }
    {
        let PlacedCell { target, by, shifts } = single;
        let mut targets = Vec::with_capacity(alloc, 1)?;
        targets.push(target)?;
        let mut placements = Placements::new(alloc);
        placements.push(0, by, shifts)?;
        Ok(PlacementLists {
            targets,
            placements,
        })
    }

    /// Adds a placement of the cell by the map, at each of the shifts.
    fn push(
        &mut self,
        alloc: Global,
        cell: &CellRef,
        by: Map,
        shifts: Offsets,
    ) -> Result<(), AllocError>
        requires { All (λ e. FitsPoint (shifted by.at e)) shifts }
        ensures { OnOk result (self.new ≡ self.old ++ placed cell.now by shifts ∷ []) }
    {
        let key = key_of(&mut self.targets, alloc, cell)?;
        self.placements.push(key, by, shifts)?;
        Ok(())
    }

    /// The cells that are placed, and for each placement the index of its cell among them.
    fn into_parts(self) -> (Vec<Target>, Placements)
        ensures placed { map (placed_from result.0.items) result.1 ≡ self }
        ensures keys { All (λ p. p.key < length result.0.items) result.1 }
    {
        let PlacementLists {
            targets,
            placements,
        } = self;
        (targets, placements)
    }
}

/// The placements of a cell, in the order of the file. A single one is kept as it is.
#[derive(Drop)]
pub(crate) struct PlacedCells {
    stored: Stored,
}

/// How the placements of a cell are stored.
#[derive(Drop)]
enum Stored {
    None,
    One(Box<PlacedCell>),
    Several(Box<PlacementLists>),
}

impl Model for PlacedCells {
    ghost use Rattle.std.specs.Prelude.{List};
    ghost use Rattle.oasis_figures.specs.Figures.{Placed};
    ghost use Rattle.oasis_library.specs.inside.Stored.{stored_placements};

    ghost Value = { List Placed };

    ghost view = { λ p. stored_placements p.stored };
}

impl PlacedCells {
    /// No placements. Allocates nothing.
    pub(crate) fn new() -> PlacedCells
        ensures { result ≡ [] }
    {
        PlacedCells {
            stored: Stored::None,
        }
    }

    /// Adds a placement of the cell by the map, at each of the shifts.
    pub(crate) fn push(
        &mut self,
        alloc: Global,
        cell: &CellRef,
        by: Map,
        shifts: Offsets,
    ) -> Result<(), AllocError>
        requires { All (λ e. FitsPoint (shifted by.at e)) shifts }
        ensures { OnOk result (self.new ≡ self.old ++ placed cell.now by shifts ∷ []) }
    {
        self.stored = match mem::replace(&mut self.stored, Stored::None) {
            Stored::None => {
                let target = Target::of(alloc, cell)?;
                let single = PlacedCell { target, by, shifts };
                Stored::One(Box::new(alloc, single)?)
            }
            Stored::One(first) => {
                let mut lists = PlacementLists::of(alloc, Box::into_inner(first))?;
                lists.push(alloc, cell, by, shifts)?;
                Stored::Several(Box::new(alloc, lists)?)
            }
            Stored::Several(mut lists) => {
                lists.push(alloc, cell, by, shifts)?;
                Stored::Several(lists)
            }
        };
        Ok(())
    }

    /// The cells that are placed, and for each placement the index of its cell among them.
    pub(crate) fn into_parts(self, alloc: Global) -> Result<(Vec<Target>, Placements), AllocError>
        ensures placed { IfOk result (λ parts. map (placed_from parts.0.items) parts.1 ≡ self) }
        ensures keys { IfOk result (λ parts. All (λ p. p.key < length parts.0.items) parts.1) }
    {
        match self.stored {
            Stored::None => Ok((Vec::new(alloc), Placements::new(alloc))),
            Stored::One(first) => {
                let lists = PlacementLists::of(alloc, Box::into_inner(first))?;
                Ok(lists.into_parts())
            }
            Stored::Several(lists) => Ok(Box::into_inner(lists).into_parts()),
        }
    }
}
