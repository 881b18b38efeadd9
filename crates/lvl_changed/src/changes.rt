//! Where two libraries may draw differently, and their comparison only there.
ghost use Rattle.std.specs.Prelude.{IfOk, IfSome, IfNone};
ghost use Rattle.lvl_columns.specs.Windows.{IsShown};
ghost use Rattle.lvl_compare.specs.Pairs.{ours, theirs};
ghost use Rattle.lvl_compare.specs.Tops.{DrawSame, IsFirstDifference};
ghost use Rattle.lvl_changed.specs.Changed.{DrawSameBut};

use lvl_compare::{Pair, difference_in_windows, difference_on_layers};
use lvl_grid::{Square, Window};
use lvl_names::Layer;
use lvl_region::Side;
use std::alloc::{AllocError, Global};

/// Where two libraries may draw differently: in the windows, on the Layers.
#[derive(Debug, Drop)]
pub struct Changes {
    /// The windows, those with the least `y` first.
    pub windows: Vec<Window>,
    /// Layers of the first library, and of the second as they are mapped; None if it may be any.
    pub layers: Option<Vec<Layer>>,
}

/// The first square that only one of two layouts draws, if they draw the same but for the changes.
/// Only these are compared.
pub(crate) fn difference_among(
    alloc: Global,
    pair: &Pair<'_>,
    changes: &Changes,
    most: usize,
) -> Result<Option<(Layer, Square, Side)>, AllocError>
    ensures same { IfOk result (λ found. DrawSameBut changes.now (ours pair.now) (theirs pair.now)
        → IfNone found (DrawSame (IsShown pair.now.view.now.window) (ours pair.now) (theirs pair.now))) }
    ensures differ { IfOk result (λ found. DrawSameBut changes.now (ours pair.now) (theirs pair.now)
        → IfSome found (λ at. IsFirstDifference (IsShown pair.now.view.now.window) (ours pair.now) (theirs pair.now)
        at.0 at.1 at.2)) }
{
    let Pair {
        first,
        second,
        view,
    } = *pair;
    let windows = &changes.windows;
    match &changes.layers {
        Some(layers) => difference_on_layers(alloc, first, second, view, layers, windows, most),
        None => difference_in_windows(alloc, first, second, view, windows, most),
    }
}
