//! Why a library can't be flattened, or not in the room that is given.
use thiserror::Error;

/// Why a library can't be flattened (own rule).
#[derive(Debug, Drop, Error)]
pub enum FlatFault {
    /// A chain of references from the top places the cell of this name so that the shift of the
    /// chain, or a vertex of the cell's own shapes, is outside 64 signed bits. If there are several
    /// such cells, any of them may be reported.
    #[error("a placed coordinate is outside 64 bits")]
    OutOfRange(Vec<u8>),
}

/// What is to be drawn has more points than are allowed (own rule).
#[derive(Clone, Copy, Debug, PartialEq, Eq, Error)]
#[error("too many points")]
pub struct OverBudget;
