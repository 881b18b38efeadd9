//! What is shown of a layout.
ghost use Rattle.std.specs.Prelude.{◌≡◌, slice_get, Some, IfOk};
ghost use Rattle.lvl_cells.specs.Cells.{PlainCell, Rings};

use crate::layout::Head;
use lvl_cells::Checked;
use lvl_count::LayerRings;
use std::alloc::{AllocError, Global};

/// What is shown of a layout.
#[derive(Debug, Drop)]
pub struct Shown {
    /// What its file says about itself.
    pub head: Head,
    /// The name of its top.
    pub top: Vec<u8>,
    /// The number of its cells.
    pub cells: usize,
    /// Each Layer on which the top places rings, with their number, in the order of the Layers.
    pub layers: Vec<LayerRings>,
}

/// The name of the top.
pub(crate) fn top_name(alloc: Global, checked: &Checked) -> Result<Vec<u8>, AllocError>
    ensures { IfOk result (λ name. (top : PlainCell Rings) → slice_get checked.now.cells checked.now.top ≡ Some top
        → name.items ≡ top.name) }
{
    let top = &checked.cells()[checked.top()];
    Vec::from_slice(alloc, top.name.as_bytes())
}
