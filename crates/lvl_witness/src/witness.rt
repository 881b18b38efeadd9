//! What a witness says: a chain of references, and a ring of the cell that it leads to.

use crate::wide::WidePoint;
use lvl_grid::Map;
use lvl_names::Layer;

/// One reference of a chain, at one of its places. Indexes count from 0, in file order.
#[derive(Clone, Copy, Debug)]
pub struct Step {
    /// The index of the reference among those of its cell.
    pub reference: usize,
    /// The number of references of that cell.
    pub references: usize,
    /// The index of the place, in the order of the array or the repetition of the reference.
    pub place: u64,
    /// The number of its places.
    pub places: u64,
    /// The index of the cell that the reference places.
    pub cell: usize,
    /// How this cell is placed in the coordinates of the one before: it is reflected if `flip` is
    /// set, then turned, and its origin is moved to `at`.
    pub map: Map,
}

/// A ring of a shape of a cell, at one of the places of the shape. Indexes count from 0, in file
/// order.
#[derive(Clone, Copy, Debug)]
pub struct PlacedRing {
    /// The Layer of the shape.
    pub layer: Layer,
    /// The index of the shape among those of its cell.
    pub shape: usize,
    /// The number of shapes of the cell.
    pub shapes: usize,
    /// The index of the place, in the order of the repetition of the shape.
    pub place: u64,
    /// The number of its places.
    pub places: u64,
    /// The index of the ring among those of the shape. A path has one for each of its bands.
    pub ring: usize,
    /// The number of rings of the shape.
    pub rings: usize,
    /// The lower left corner of the box of the ring at this place, in the coordinates of the cell.
    pub low: WidePoint,
    /// The upper right corner of this box.
    pub high: WidePoint,
}

/// Why a top covers a square: a chain of references from the top, and a ring of the cell that the
/// chain leads to. If the chain is empty, it is a ring of the top.
#[derive(Debug, Drop)]
pub struct Witness {
    pub steps: Vec<Step>,
    pub ring: PlacedRing,
}
