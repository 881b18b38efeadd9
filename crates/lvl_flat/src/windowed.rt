//! Flattening of some Layers within a window: what doesn't reach into it is skipped.
ghost use Rattle.std.specs.Prelude.{◌⊎◌, AllPairs, IfOk, IfErr};
ghost use Rattle.lvl_names.specs.Layers.{ComesBefore};
ghost use Rattle.lvl_flat.specs.Flattened.{IsFlattenedWithin, IsFlatFault, IsTopInRange};
ghost use Rattle.lvl_flat.specs.Boxes.{AreBoxes};
ghost use Rattle.lvl_flat.specs.inside.Walking.{AllListed};
ghost use Rattle.lvl_refusal.specs.Refused.{Says};

use crate::advance::draw_all;
use crate::boxes::Boxes;
use crate::fault::FlatFault;
use crate::flat::Flat;
use crate::layers::{empty_sheets, layers_of};
use crate::room::Room;
use crate::scope::Scope;
use lvl_cells::Checked;
use lvl_grid::Window;
use lvl_names::Layer;
use lvl_refusal::Cause;
use std::alloc::Global;

/// The rings that the top places on each of the Layers, clipped to a window.
///
/// On each of these Layers the rings together cover exactly the squares of the window that the top
/// covers there through all references. What a cell places is skipped if its box shows that it
/// doesn't reach into the window, so only what is drawn in the window takes memory. The layout must
/// be in range, or the Layers must be those of all its shapes: then a layout that
/// [`flatten`](crate::flatten) refuses is refused, whatever the window. If the rings would have
/// more than `most` points, those that lie over one another are joined ([`Room::take`]). If that
/// doesn't halve them, that is reported as out of memory.
pub(crate) fn flatten_within(
    alloc: Global,
    checked: &Checked,
    boxes: &Boxes,
    layers: &[Layer],
    window: &Window,
    most: usize,
) -> Result<Flat, Cause<FlatFault>>
    requires boxes { AreBoxes checked.now.cells boxes.now }
    requires rising { AllPairs ComesBefore layers.now }
    requires fits { IsTopInRange checked.now ⊎ AllListed layers.now checked.now.cells }
    ensures ok { IfOk result (IsFlattenedWithin checked.now layers.now window.now) }
    ensures err { IfErr result (λ refusal. Says refusal (IsFlatFault checked.now)) }
{
    let room = Room::of(alloc, most);
    let sheets = empty_sheets(alloc, layers)?;
    draw_all(room, checked, boxes, sheets, &Scope::Within(*window))
}
/// Refuses a layout that [`flatten`](crate::flatten) refuses. Draws nothing, and walks only through
/// cells whose boxes leave 64 signed bits.
pub(crate) fn check_range(
    alloc: Global,
    checked: &Checked,
    boxes: &Boxes,
) -> Result<(), Cause<FlatFault>>
    requires { AreBoxes checked.now.cells boxes.now }
    ensures ok { IfOk result (λ _. IsTopInRange checked.now) }
    ensures err { IfErr result (λ refusal. Says refusal (IsFlatFault checked.now)) }
{
    if boxes.hold_top(checked) {
        return Ok(());
    }
    let nowhere = Window {
        x0: 0,
        y0: 0,
        x1: 0,
        y1: 0,
    };
    let layers = layers_of(alloc, checked.cells())?;
    let _nothing = flatten_within(alloc, checked, boxes, &layers, &nowhere, 0)?;
    Ok(())
}
