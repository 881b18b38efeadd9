//! What is said of a square that a top covers.

use lvl_witness::{PlacedRing, Step};

/// A reference of a chain, and the name of the cell that it places.
#[derive(Debug, Drop)]
pub struct NamedStep {
    pub step: Step,
    pub cell: Vec<u8>,
}

/// Why a top covers a square: the name of the top, the references of a chain from it, and a ring of the cell that
/// the chain leads to. The ring covers the square as the chain places it.
#[derive(Debug, Drop)]
pub struct Why {
    pub top: Vec<u8>,
    pub steps: Vec<NamedStep>,
    pub ring: PlacedRing,
}
