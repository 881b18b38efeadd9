//! Why a library is refused.
use thiserror::Error;

/// Why a library isn't sound for its top or places too much (own rules). Names are bytes.
#[derive(Debug, Drop, PartialEq, Eq, Error)]
pub enum CellFault {
    /// The library has no cell.
    #[error("the library has no cell")]
    NoCell,
    /// Two cells have the same name: that of the first cell in file order whose name an earlier
    /// cell has.
    #[error("two cells have one name")]
    DuplicateCell(Vec<u8>),
    /// A reference names no cell. The first such in file order: the name of the cell that has the
    /// reference, then the name that it refers to.
    #[error("a reference is to a cell that is not there")]
    MissingCell(Vec<u8>, Vec<u8>),
    /// The names of distinct cells, each referring to the next and the last to the first. The list
    /// begins with the one that comes first in the file. If there are several cycles, any of them
    /// may be reported.
    #[error("cells refer to one another in a cycle")]
    Cycle(Vec<Vec<u8>>),
    /// No cell has the given name of the top.
    #[error("the named top is not a cell")]
    TopMissing,
    /// No top was given, and there are two or more cells to which no cell refers.
    #[error("two or more cells are referred to by none")]
    ManyTops,
    /// More cells are placed from the top than the limits allow, the top counted once.
    #[error("too many cells are placed")]
    TooManyPlacements,
    /// More rings are placed from the top than the limits allow.
    #[error("too many rings are placed")]
    TooManyRings,
}
