//! A library under construction, cell by cell. The readers of both formats use it.
ghost use Rattle.std.specs.Prelude.{◌≡◌, [], ◌∷◌, ◌++◌, length, OnOk, OnErr};
ghost use Rattle.lvl_grid.specs.Winding.{IsRing};
ghost use Rattle.lvl_cells.specs.Building.{no_cell, with_shape, with_reference};

use crate::library::{Cell, Library};
use crate::reference::Reference;
use crate::references::References;
use crate::shapes::Shapes;
use lvl_grid::{Point, Ring};
use lvl_names::{Layer, Name, Offsets};
use std::alloc::{AllocError, Global};
use std::marker::Model;
use std::mem;

/// The cells that are finished, in file order, and the cell that is open.
///
/// [`Builder::open`] begins a cell, [`Builder::close`] finishes it. If there is no memory for an
/// addition, the builder stays as it was.
#[derive(Drop)]
pub struct Builder {
    cells: Vec<Cell>,
    current: Cell,
}

impl Model for Builder {
    ghost use Rattle.lvl_cells.specs.Building.{Built};

    ghost Value = { Built };

    ghost view = { λ b. record { cells = b.cells.items; current = b.current } };
}

fn empty_cell(alloc: Global) -> Cell
    ensures { result ≡ no_cell }
{
    Cell {
        name: Name::empty(),
        shapes: Shapes::new(alloc),
        references: References::new(alloc),
    }
}

/// Takes the open cell, and leaves an empty one.
fn taken(alloc: Global, current: &mut Cell) -> Cell
    ensures taken { result ≡ current.old }
    ensures left { current.new ≡ no_cell }
{
    mem::replace(current, empty_cell(alloc))
}

impl Builder {
    /// A builder without cells.
    pub fn new(alloc: Global) -> Builder
        ensures { result ≡ record { cells = []; current = no_cell } }
    {
        Builder {
            cells: Vec::new(alloc),
            current: empty_cell(alloc),
        }
    }

    /// The number of cells that are finished.
    pub fn len(&self) -> usize
        ensures { result ≡ length self.now.cells }
    {
        self.cells.len()
    }

    /// Opens an empty cell of this name. If another cell was open, it is dropped.
    pub fn open(&mut self, alloc: Global, name: &[u8]) -> Result<(), AllocError>
        ensures opened { OnOk result (self.new ≡ record {
          cells = self.old.cells;
          current = record { name = name.now; shapes = []; references = [] };
        }) }
        ensures kept { OnErr result (self.new ≡ self.old) }
    {
        self.current = Cell {
            name: Name::of(alloc, name)?,
            shapes: Shapes::new(alloc),
            references: References::new(alloc),
        };
        Ok(())
    }

    /// Adds a shape of one ring to the open cell. The ring is given by its points.
    pub fn add_ring(
        &mut self,
        layer: Layer,
        ring: &[Point],
        shifts: &Offsets,
    ) -> Result<(), AllocError>
        requires { IsRing ring.now }
        ensures added { OnOk result (self.new ≡ record {
          cells = self.old.cells;
          current = with_shape self.old.current
              (record { layer = layer; figure = ring.now ∷ []; shifts = shifts.now });
        }) }
        ensures kept { OnErr result (self.new ≡ self.old) }
    {
        self.current.shapes.push_ring(layer, ring, shifts)
    }

    /// Adds a shape of these rings to the open cell.
    pub fn add_rings(
        &mut self,
        layer: Layer,
        rings: &[Ring],
        shifts: &Offsets,
    ) -> Result<(), AllocError>
        ensures added { OnOk result (self.new ≡ record {
          cells = self.old.cells;
          current = with_shape self.old.current
              (record { layer = layer; figure = rings.now; shifts = shifts.now });
        }) }
        ensures kept { OnErr result (self.new ≡ self.old) }
    {
        self.current.shapes.push_rings(layer, rings, shifts)
    }

    /// Adds a reference to the open cell. If the reference before is to the same cell, both share
    /// the name.
    pub fn add_reference(&mut self, reference: Reference) -> Result<(), AllocError>
        ensures added { OnOk result
            (self.new ≡ record { cells = self.old.cells; current = with_reference self.old.current reference }) }
        ensures kept { OnErr result (self.new ≡ self.old) }
    {
        self.current.references.push(reference)
    }

    /// Finishes the open cell. If there is no memory for it, it stays open.
    pub fn close(&mut self, alloc: Global) -> Result<(), AllocError>
        ensures closed { OnOk result
            (self.new ≡ record { cells = self.old.cells ++ self.old.current ∷ []; current = no_cell }) }
        ensures kept { OnErr result (self.new ≡ self.old) }
    {
        self.cells.reserve(1)?;
        let cell = taken(alloc, &mut self.current);
        self.cells.push_reserved(cell);
        Ok(())
    }

    /// The library of the cells that are finished, without the one that is open.
    pub fn finish(self) -> Library
        ensures { result ≡ self.cells }
    {
        let Builder {
            cells,
            current: _current,
        } = self;
        Library { cells }
    }
}
