//! Areas that have all that remains of two cells.
ghost use Rattle.std.specs.Prelude.{OnOk};
ghost use Rattle.lvl_grid.specs.declared.point.Square.{Square};
ghost use Rattle.lvl_names.specs.declared.layer.Layer.{Layer};
ghost use Rattle.lvl_view.specs.Views.{target_of};
ghost use Rattle.lvl_changed.specs.inside.Areas.{AlikeOutside, Grows, IsIn};
ghost use Rattle.lvl_changed.specs.inside.Arrays.{all_places, every_place};
ghost use Rattle.lvl_changed.specs.inside.Drawing.{AreDrawnOn};
ghost use Rattle.lvl_changed.specs.inside.Placements.{PlacedCover};
ghost use Rattle.lvl_changed.specs.inside.Remains.{OursDraw, TheirsDraw};

use crate::area::Area;
use crate::arrays::Array;
use crate::layers::Layers;
use crate::placed::Placed;
use crate::placements::Placement;
use crate::remains::{Remains, Rests};
use crate::shapes::hold_shapes;
use lvl_compare::Pair;
use lvl_flat::Fitted;
use lvl_view::View;
use std::alloc::{AllocError, Global};

/// Adds all that arrays cover, with their Layers as the view maps them.
fn hold_arrays(
    area: &mut Area,
    library: &Fitted,
    drawn: &[Option<Layers>],
    view: &View,
    arrays: &[Array],
) -> Result<(), AllocError>
    requires { AreDrawnOn library.now.cells drawn.now }
    ensures held { OnOk result ((layer : Layer) (s : Square)
        → ¬ IsIn area.new (target_of view.now.pairs layer) s
        → ¬ PlacedCover library.now.cells (every_place arrays.now) layer s) }
    ensures kept { OnOk result (Grows area.old area.new) }
{
    for array in arrays {
        area.hold_array(library, drawn, view, array)?;
    }
    Ok(())
}

/// Adds all that placements cover, with their Layers as the view maps them.
fn hold_singles(
    area: &mut Area,
    library: &Fitted,
    drawn: &[Option<Layers>],
    view: &View,
    placements: &[Placement],
) -> Result<(), AllocError>
    requires { AreDrawnOn library.now.cells drawn.now }
    ensures held { OnOk result ((layer : Layer) (s : Square)
        → ¬ IsIn area.new (target_of view.now.pairs layer) s
        → ¬ PlacedCover library.now.cells placements.now layer s) }
    ensures kept { OnOk result (Grows area.old area.new) }
{
    for placement in placements {
        area.hold_placed_cell(library, drawn, view, placement.cell, &placement.map)?;
    }
    Ok(())
}

/// Adds all that is placed, with its Layers as the view maps them.
fn hold_placed(
    area: &mut Area,
    library: &Fitted,
    drawn: &[Option<Layers>],
    view: &View,
    placed: &Placed,
) -> Result<(), AllocError>
    requires { AreDrawnOn library.now.cells drawn.now }
    ensures held { OnOk result ((layer : Layer) (s : Square)
        → ¬ IsIn area.new (target_of view.now.pairs layer) s
        → ¬ PlacedCover library.now.cells (all_places placed.now) layer s) }
    ensures kept { OnOk result (Grows area.old area.new) }
{
    hold_singles(area, library, drawn, view, &placed.singles)?;
    hold_arrays(area, library, drawn, view, &placed.arrays)
}

/// Adds an area outside of which what remains of two cells covers the same.
pub(crate) fn hold_rests(
    area: &mut Area,
    alloc: Global,
    pair: &Pair<'_>,
    our_drawn: &[Option<Layers>],
    their_drawn: &[Option<Layers>],
    rests: Rests,
) -> Result<(), AllocError>
    requires ours { AreDrawnOn pair.now.first.now.cells our_drawn.now }
    requires theirs { AreDrawnOn pair.now.second.now.cells their_drawn.now }
    ensures held { OnOk result (AlikeOutside area.new (OursDraw pair.now rests) (TheirsDraw pair.now rests)) }
    ensures kept { OnOk result (Grows area.old area.new) }
{
    let Rests {
        ours,
        alone,
        theirs,
    } = rests;
    let whole = View::whole(alloc);
    hold_arrays(area, pair.first, our_drawn, &whole, &alone)?;
    hold_placed(area, pair.second, their_drawn, pair.view, &ours.placed)?;
    hold_placed(area, pair.second, their_drawn, pair.view, &theirs.placed)?;
    hold_shapes(area, alloc, ours.shapes, theirs.shapes)
}
