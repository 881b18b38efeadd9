//! What was found for a cell.
use crate::area::Area;

/// Outside of the area, a cell covers what its partner in the other library does, or nothing if it
/// has no partner.
#[derive(Drop)]
pub(crate) struct Found {
    pub partner: Option<usize>,
    pub area: Area,
}
