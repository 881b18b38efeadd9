//! Flat layouts under a map of layers.
ghost use Rattle.std.specs.Prelude.{◌≡◌, ◌++◌, [], map, Contains, OnOk, IfOk, if◌then◌else◌};
ghost use Rattle.lvl_names.specs.declared.layer.Layer.{Layer as PlainLayer};
ghost use Rattle.lvl_names.specs.Layers.{same_layer};
ghost use Rattle.lvl_view.specs.Views.{target_of};
ghost use Rattle.lvl_flat.specs.Mapped.{IsMapped, mapped_on};
ghost use Rattle.lvl_flat.specs.Sheets.{rings_on, AreSorted};

use crate::flat::{Flat, Sheet, place_of};
use crate::layers::sheets_for;
use lvl_grid::Rings;
use lvl_names::Layer;
use lvl_view::View;
use std::alloc::{AllocError, Global};

/// Appends the rings of another list. If there are none so far, that list is taken as it is.
fn append(rings: &mut Rings, more: Rings) -> Result<(), AllocError>
    ensures { OnOk result (rings.new ≡ rings.old ++ more) }
{
    if rings.is_empty() {
        *rings = more;
        return Ok(());
    }
    for i in 0..more.len() {
        rings.push(more.ring(i))?;
    }
    Ok(())
}

/// Appends rings to the sheet of a Layer.
fn append_on(sheets: &mut Vec<Sheet>, layer: Layer, rings: Rings) -> Result<(), AllocError>
    requires sorted { AreSorted sheets.old.items }
    requires there { Contains (map (λ s. s.layer) sheets.old.items) layer }
    ensures appended { OnOk result ((l : PlainLayer) → rings_on l sheets.new.items
        ≡ rings_on l sheets.old.items ++ (if same_layer layer l then rings else [])) }
    ensures layers_stay { OnOk result (map (λ s. s.layer) sheets.new.items ≡ map (λ s. s.layer) sheets.old.items) }
{
    let Some(place) = place_of(sheets, layer) else {
        unreachable!()
    };
    let sheet = &mut sheets[place];
    append(&mut sheet.rings, rings)?;
    Ok(())
}

/// The Layers that the Layers of the sheets count as.
fn targets_of(alloc: Global, sheets: &[Sheet], view: &View) -> Result<Vec<Layer>, AllocError>
    ensures { IfOk result (λ targets. targets.items ≡ map (λ s. target_of view.now.pairs s.layer) sheets.now) }
{
    let mut targets = Vec::with_capacity(alloc, sheets.len())?;
    for sheet in sheets {
        targets.push(view.target(sheet.layer))?;
    }
    Ok(targets)
}

impl Flat {
    /// The layout under a view: the rings of each Layer are moved to the Layer's target. If several
    /// Layers have the same target, it gets the rings of all of them.
    pub fn mapped(self, alloc: Global, view: &View) -> Result<Flat, AllocError>
        ensures covers { IfOk result (IsMapped view.now.pairs self) }
        ensures rings { IfOk result (λ flat. (layer : PlainLayer)
            → rings_on layer flat ≡ mapped_on view.now.pairs layer self) }
    {
        let sheets = self.into_sheets();
        let mut mapped = sheets_for(alloc, targets_of(alloc, &sheets, view)?)?;
        for sheet in sheets {
            append_on(&mut mapped, view.target(sheet.layer), sheet.rings)?;
        }
        Flat::filled(alloc, mapped)
    }
}
