//! Compares two libraries under a view, up to the first square that only one of them draws.
ghost use Rattle.std.specs.Prelude.{IfOk};
ghost use Rattle.lvl_columns.specs.Windows.{IsShown};
ghost use Rattle.lvl_flat.specs.Flattened.{TopCovers};
ghost use Rattle.lvl_view.specs.Moved.{IsMoved};
ghost use Rattle.lvl.specs.Views.{IsVerdictOf};

use crate::verdict::Verdict;
use lvl_changed::difference_by_changes;
use lvl_flat::Fitted;
use lvl_view::View;
use std::alloc::{AllocError, Global};

/// The number of points that the rings of one side may have in a strip of small files. With the
/// columns that compare them, the points of both sides then take about 50 megabytes.
const LEAST_BUDGET: usize = 600_000;

/// The number of shapes in the cells of a library.
pub(crate) fn shapes_of(fitted: &Fitted) -> usize {
    let mut shapes: usize = 0;
    for cell in fitted.checked().cells() {
        shapes = shapes.saturating_add(cell.shapes.len());
    }
    shapes
}

/// The number of shapes in the cells of a library, where two references count as one: a digest looks at all of
/// the top's for each strip, so strips grow with them too.
pub(crate) fn shapes_and_references_of(fitted: &Fitted) -> usize {
    let mut references: usize = 0;
    for cell in fitted.checked().cells() {
        references = references.saturating_add(cell.references.len());
    }
    shapes_of(fitted).saturating_add(references / 2)
}

/// The greatest number of points that the rings of one side have in a strip of files with this
/// number of shapes. Each strip looks at all shapes, so strips grow with the files: a strip takes
/// about a fifth of what the shapes take.
pub(crate) fn most_points(shapes: usize) -> usize {
    LEAST_BUDGET.saturating_add(shapes / 4)
}

/// The first Layer, and the first square of the window on it, that only one of the two draws, with the Layers of
/// the second mapped. If cells are placed often enough, only those parts are flattened in which the two may
/// differ.
pub(crate) fn compare_fitted(
    alloc: Global,
    first: &Fitted,
    second: &Fitted,
    view: &View,
) -> Result<Verdict, AllocError>
    ensures { IfOk result (IsVerdictOf (IsShown view.now.window) (TopCovers first.now)
        (IsMoved view.now.pairs (TopCovers second.now))) }
{
    let most = most_points(shapes_of(first).saturating_add(shapes_of(second)));
    match difference_by_changes(alloc, first, second, view, most)? {
        Some((layer, square, side)) => Ok(Verdict::Differ {
            layer,
            square,
            side,
        }),
        None => Ok(Verdict::Same),
    }
}
