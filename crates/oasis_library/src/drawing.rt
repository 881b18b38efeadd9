//! A cell whose records are being read.
ghost use Rattle.std.specs.Prelude.{◌≡◌, ◌++◌, ◌∷◌, [], All, OnOk, List, Some};
ghost use Rattle.lvl_grid.specs.Turn.{FitsPoint, shifted};
ghost use Rattle.lvl_grid.specs.Winding.{IsRing, rectangle_between};
ghost use Rattle.oasis_records.specs.declared.record.Record.{Record};
ghost use Rattle.oasis_figures.specs.declared.drawn.DrawnRecord.TheVariants.{Placement as APlacement};
ghost use Rattle.oasis_library.specs.inside.Kept.{begun, placed, target_ref};
ghost use Rattle.oasis_library.specs.inside.Taken.{IsTaken, grown};

use crate::placement::{PlacedCells, Target};
use lvl_cells::Shapes;
use lvl_grid::{Map, Point};
use lvl_names::Offsets;
use oasis_figures::{DrawnRecord, Modal};
use oasis_records::CellRef;
use std::alloc::{AllocError, Global};
use std::marker::Model;

/// A cell by its number or its name, with what its records so far draw and place.
#[derive(Drop)]
pub(crate) struct Drawing {
    pub(crate) name: Target,
    pub(crate) shapes: Shapes,
    pub(crate) placements: PlacedCells,
}

impl Model for Drawing {
    ghost use Rattle.lvl_cells.specs.Cells.{Rings};
    ghost use Rattle.oasis_library.specs.Cells.{PlainDrawing};

    ghost Value = { PlainDrawing Rings };

    ghost use Rattle.oasis_library.specs.inside.Kept.{target_ref};

    ghost view = { λ d. record {
      name = target_ref d.name;
      shapes = d.shapes;
      placements = d.placements;
    } };
}

// The corners of a rectangle: lower left, lower right, upper right, upper left.
fn corners(low: Point, high: Point) -> [Point; 4]
    ensures corners { result ≡ rectangle_between low high }
    ensures ring { IsRing (rectangle_between low high) }
{
    let lower_right = Point {
        x: high.x,
        y: low.y,
    };
    let upper_left = Point {
        x: low.x,
        y: high.y,
    };
    [low, lower_right, high, upper_left]
}

impl Drawing {
    /// A cell that has no shapes or placements yet.
    pub(crate) fn new(alloc: Global, name: Target) -> Drawing
        ensures { result ≡ begun (target_ref name) }
    {
        Drawing {
            name,
            shapes: Shapes::new(alloc),
            placements: PlacedCells::new(),
        }
    }

    /// Adds what the last record draws, of which `modal` has the shifts and the cell.
    pub(crate) fn add(
        &mut self,
        alloc: Global,
        drawn: Option<DrawnRecord>,
        modal: &Modal,
    ) -> Result<(), AllocError>
        requires { (earlier : List Record) × (r : Record) × IsTaken earlier r drawn modal.now }
        ensures { OnOk result ((earlier : List Record) (r : Record) → IsTaken earlier r drawn modal.now
            → self.new ≡ grown earlier r self.old) }
    {
        match drawn {
            Some(DrawnRecord::Rectangle(layer, low, high)) => {
                let ring = corners(low, high);
                self.shapes.push_ring(layer, &ring, modal.shifts())?;
                Ok(())
            }
            Some(DrawnRecord::Ring(layer, ring)) => {
                self.shapes.push_ring(layer, ring.points(), modal.shifts())?;
                Ok(())
            }
            Some(DrawnRecord::Rings(layer, rings)) => {
                self.shapes.push_rings(layer, &rings, modal.shifts())?;
                Ok(())
            }
            Some(DrawnRecord::Placement(by)) => self.place(alloc, by, modal),
            None => Ok(()),
        }
    }

    // Adds a placement of the modal cell.
    fn place(&mut self, alloc: Global, by: Map, modal: &Modal) -> Result<(), AllocError>
        requires { (earlier : List Record) × (r : Record) × IsTaken earlier r (Some (APlacement by)) modal.now }
        ensures { OnOk result ((earlier : List Record) (r : Record)
            → IsTaken earlier r (Some (APlacement by)) modal.now → self.new ≡ grown earlier r self.old) }
    {
        let Some(cell) = modal.cell() else {
            unreachable!()
        };
        let shifts = modal.shifts().clone()?;
        self.placements.push(alloc, cell, by, shifts)?;
        Ok(())
    }
}
