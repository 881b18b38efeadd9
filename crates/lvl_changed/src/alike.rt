//! Whether two libraries draw the same, as far as a comparison cell by cell can show it.
ghost use Rattle.std.specs.Prelude.{◌↔◌, IfOk, IsTrue};
ghost use Rattle.lvl_flat.specs.Flattened.{TopCovers};
ghost use Rattle.lvl_grid.specs.declared.point.Square.{Square as GridSquare};
ghost use Rattle.lvl_names.specs.declared.layer.Layer.{Layer};

use crate::cells::changed;
use lvl_flat::Fitted;
use lvl_view::View;
use std::alloc::{AllocError, Global};

/// Whether [`changed`] finds no window, so that both tops cover the same squares on every Layer.
/// `false` says nothing about what they cover. Fails only if out of memory.
pub fn same_by_cells(alloc: Global, first: &Fitted, second: &Fitted) -> Result<bool, AllocError>
    ensures { IfOk result (λ same. IsTrue same → (layer : Layer) (s : GridSquare)
        → TopCovers first.now layer s ↔ TopCovers second.now layer s) }
{
    match changed(alloc, first, second, &View::whole(alloc))? {
        Some(changes) => Ok(changes.windows.is_empty()),
        None => Ok(false),
    }
}
