//! Why one of two layouts alone covers the square in which they differ.
ghost use Rattle.std.specs.Prelude.{◌≡◌, All, Contains, IfOk};
ghost use Rattle.lvl_columns.specs.Windows.{IsShown};
ghost use Rattle.lvl_flat.specs.Flattened.{TopCovers};
ghost use Rattle.lvl_grid.specs.declared.point.Square.{Square};
ghost use Rattle.lvl_names.specs.declared.layer.Layer.{Layer as PlainLayer};
ghost use Rattle.lvl_view.specs.Moved.{IsMoved};
ghost use Rattle.lvl_view.specs.Views.{target_of};
ghost use Rattle.lvl.specs.Questions.{IfAsked};
ghost use Rattle.lvl.specs.Reasons.{IsReasonOf};
ghost use Rattle.lvl.specs.Views.{IsVerdictOf};

use crate::fitted::compare_fitted;
use crate::verdict::Verdict;
use lvl_flat::Fitted;
use lvl_names::Layer;
use lvl_region::Side;
use lvl_view::View;
use lvl_why::{Why, explain};
use std::alloc::{AllocError, Global};

/// The Layers of the second layout that count as this one under the view.
fn sources(
    alloc: Global,
    second: &Fitted,
    view: &View,
    layer: Layer,
) -> Result<Vec<Layer>, AllocError>
    ensures counted { IfOk result (λ layers. All (λ l. target_of view.now.pairs l ≡ layer) layers.items) }
    ensures all { IfOk result (λ layers. (l : PlainLayer) (s : Square) → TopCovers second.now l s
        → target_of view.now.pairs l ≡ layer → Contains layers.items l) }
{
    let listed = second.layers(alloc)?;
    let mut layers = Vec::new(alloc);
    for source in &listed {
        if view.target(*source) == layer {
            layers.push(*source)?;
        }
    }
    Ok(layers)
}

/// Why the side that a verdict names covers the square, or None if both draw the same.
fn reason_of(
    alloc: Global,
    first: &Fitted,
    second: &Fitted,
    view: &View,
    verdict: &Verdict,
) -> Result<Option<Why>, AllocError>
    requires { IsVerdictOf (IsShown view.now.window) (TopCovers first.now)
        (IsMoved view.now.pairs (TopCovers second.now)) verdict.now }
    ensures { IfOk result (IsReasonOf view.now.pairs first.now second.now verdict.now) }
{
    let Verdict::Differ {
        layer,
        square,
        side,
    } = verdict
    else {
        return Ok(None);
    };
    match side {
        Side::First => explain(alloc, first, &[*layer], *square),
        Side::Second => {
            let layers = sources(alloc, second, view, *layer)?;
            explain(alloc, second, &layers, *square)
        }
    }
}

/// The verdict on two libraries under a view, and its reason if that is asked for.
pub(crate) fn judge(
    alloc: Global,
    first: &Fitted,
    second: &Fitted,
    view: &View,
    explained: bool,
) -> Result<(Verdict, Option<Why>), AllocError>
    ensures verdict { IfOk result (λ found. IsVerdictOf (IsShown view.now.window) (TopCovers first.now)
        (IsMoved view.now.pairs (TopCovers second.now)) found.0) }
    ensures reason { IfOk result
        (λ found. IfAsked explained (IsReasonOf view.now.pairs first.now second.now found.0) found.1) }
{
    let verdict = compare_fitted(alloc, first, second, view)?;
    if !explained {
        return Ok((verdict, None));
    }
    let why = reason_of(alloc, first, second, view, &verdict)?;
    Ok((verdict, why))
}
