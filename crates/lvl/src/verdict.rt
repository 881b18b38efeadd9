//! The result of a comparison: a verdict or a refusal.

use crate::layout::FileFault;
use lvl_cells::CellFault;
use lvl_flat::FlatFault;
use lvl_grid::Square;
use lvl_names::{Layer, Name};
use lvl_region::Side;
use thiserror::Error;

/// The names of the top cells of both files. Without a name, the top of a file is the only cell to
/// which no other refers.
#[derive(Debug, Drop)]
pub struct Tops {
    pub first: Option<Vec<u8>>,
    pub second: Option<Vec<u8>>,
}

/// Whether two layouts draw the same mask.
#[derive(Clone, Copy, Debug, PartialEq, Eq)]
pub enum Verdict {
    /// On every Layer both cover the same unit squares.
    Same,
    /// They differ: this is the first Layer on which they do, and the first square on it, by y and
    /// then x, that only one side covers.
    Differ {
        layer: Layer,
        square: Square,
        side: Side,
    },
}

/// Why the cells of a file aren't sound for its top, or place too much.
#[derive(Debug, Drop)]
pub struct CellRefusal {
    pub fault: CellFault,
    /// If no top was named, the names of the cells to which no cell refers, in file order.
    pub tops: Vec<Name>,
}

/// Why two layouts weren't compared: the first step that failed, and for which side. The steps are to read
/// both files, to check the cells of both, and to test that what both place is in range; always the first
/// file before the second.
#[derive(Debug, Drop, Error)]
pub enum Refusal {
    /// The file wasn't read.
    #[error("a file is refused")]
    File(Side, FileFault),
    /// Its cells aren't sound for the top, or they place too much.
    #[error("the cells of a file are refused")]
    Cells(Side, CellRefusal),
    /// What its top places doesn't fit in 64 signed bits.
    #[error("a file cannot be flattened")]
    Flat(Side, FlatFault),
    /// An allocation failed, at any step.
    #[error("out of memory")]
    OutOfMemory,
}
