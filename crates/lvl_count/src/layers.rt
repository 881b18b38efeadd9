//! The Layers of the cells that are placed.
ghost use Rattle.std.specs.Prelude.{◌≡◌, length, All, IfOk};
ghost use Rattle.lvl_count.specs.inside.Counts.{AreListed};

use lvl_cells::Checked;
use lvl_names::Layer;
use std::alloc::{AllocError, Global};

/// The Layers of the shapes of all cells that are placed, in no order and with duplicates.
pub(crate) fn layers_of(
    alloc: Global,
    checked: &Checked,
    times: &[u64],
) -> Result<Vec<Layer>, AllocError>
    requires { length times.now ≡ length checked.now.cells }
    ensures { IfOk result (λ layers. All (AreListed checked.now.cells times.now layers.items) checked.now.order) }
{
    let mut layers = Vec::new(alloc);
    for index in checked.order() {
        if times[*index] > 0 {
            let cell = &checked.cells()[*index];
            cell.shapes.push_layers(&mut layers)?;
        }
    }
    Ok(layers)
}
