//! Squares of some windows on some Layers.
ghost use Rattle.std.specs.Prelude.{Contains, IfOk, IfSome, OnOk};
ghost use Rattle.lvl_grid.specs.declared.point.Point.{Point as GridPoint};
ghost use Rattle.lvl_grid.specs.declared.point.Square.{Square};
ghost use Rattle.lvl_grid.specs.Clip.{IsInWindow};
ghost use Rattle.lvl_grid.specs.Turn.{image_square};
ghost use Rattle.lvl_names.specs.declared.layer.Layer.{Layer as PlainLayer};
ghost use Rattle.lvl_cells.specs.Cells.{map_at};
ghost use Rattle.lvl_flat.specs.Flattened.{CoversAt};
ghost use Rattle.lvl_view.specs.Views.{target_of};
ghost use Rattle.lvl_changed.specs.Changed.{IsChange};
ghost use Rattle.lvl_changed.specs.inside.Areas.{Grows, HasImages, IsIn};
ghost use Rattle.lvl_changed.specs.inside.Arrays.{as_reference, each_place};
ghost use Rattle.lvl_changed.specs.inside.Drawing.{AreDrawnOn};
ghost use Rattle.lvl_changed.specs.inside.Placements.{PlacedCover};

use crate::arrays::Array;
use crate::changes::Changes;
use crate::drawing::add_drawn;
use crate::layers::Layers;
use crate::windows::Windows;
use lvl_flat::Fitted;
use lvl_grid::{Map, Window};
use lvl_names::Layer;
use lvl_view::View;
use std::alloc::{AllocError, Global};

/// The squares of some windows, on each of some Layers.
#[derive(Drop)]
pub(crate) struct Area {
    pub windows: Windows,
    pub layers: Layers,
}

impl Area {
    /// The empty area, of which at most twice `most` windows are kept.
    pub(crate) fn none(alloc: Global, most: usize) -> Area {
        Area {
            windows: Windows::none(alloc, most),
            layers: Layers::none(alloc),
        }
    }

    /// Makes the area the whole grid on every Layer.
    pub(crate) fn hold_anywhere(&mut self)
        ensures { (layer : PlainLayer) (s : Square) → IsIn self.new layer s }
    {
        self.layers.add_every();
        self.windows.hold_anywhere();
    }

    /// The windows and the Layers, or None if the windows are the whole grid.
    pub(crate) fn into_changes(self) -> Option<Changes>
        ensures { IfSome result
            (λ changes. (layer : PlainLayer) (s : Square) → IsIn self layer s → IsChange changes layer s) }
    {
        let Area { windows, layers } = self;
        let windows = windows.into_list()?;
        let layers = layers.into_list();
        Some(Changes { windows, layers })
    }

    /// A copy of the windows and the Layers, or None if the windows are the whole grid.
    pub(crate) fn changes(&self, alloc: Global) -> Result<Option<Changes>, AllocError>
        ensures { IfOk result (λ copied. IfSome copied
            (λ changes. (layer : PlainLayer) (s : Square) → IsIn self.now layer s → IsChange changes layer s)) }
    {
        let Some(windows) = self.windows.copied(alloc)? else {
            return Ok(None);
        };
        let layers = self.layers.copied(alloc)?;
        Ok(Some(Changes { windows, layers }))
    }

    /// Adds a window on a Layer.
    pub(crate) fn hold(&mut self, layer: Layer, window: Window) -> Result<(), AllocError>
        ensures held { OnOk result ((s : Square) → IsInWindow window s → IsIn self.new layer s) }
        ensures kept { OnOk result (Grows self.old self.new) }
    {
        self.layers.add(layer)?;
        self.windows.hold(window)
    }

    /// Adds the images of another area at each place of the array.
    pub(crate) fn hold_places(&mut self, held: &Area, array: &Array) -> Result<(), AllocError>
        ensures held { OnOk result ((e : GridPoint) → Contains array.now.shifts e
            → HasImages (map_at (as_reference array.now) e) held.now self.new) }
        ensures kept { OnOk result (Grows self.old self.new) }
    {
        self.layers.add_all(&held.layers)?;
        self.windows.hold_places(&held.windows, array)
    }

    /// Adds all that an array covers, with its Layers as the view maps them.
    pub(crate) fn hold_array(
        &mut self,
        library: &Fitted,
        drawn: &[Option<Layers>],
        view: &View,
        array: &Array,
    ) -> Result<(), AllocError>
        requires { AreDrawnOn library.now.cells drawn.now }
        ensures held { OnOk result ((layer : PlainLayer) (s : Square)
            → ¬ IsIn self.new (target_of view.now.pairs layer) s
            → ¬ PlacedCover library.now.cells (each_place array.now) layer s) }
        ensures kept { OnOk result (Grows self.old self.new) }
    {
        add_drawn(&mut self.layers, drawn, array.cell, view)?;
        self.windows.hold_array(library, array)
    }

    /// Adds all that a cell covers, with its Layers as the view maps them.
    pub(crate) fn hold_cell(
        &mut self,
        library: &Fitted,
        drawn: &[Option<Layers>],
        view: &View,
        cell: usize,
    ) -> Result<(), AllocError>
        requires { AreDrawnOn library.now.cells drawn.now }
        ensures held { OnOk result ((layer : PlainLayer) (s : Square)
            → CoversAt library.now.cells cell layer s → IsIn self.new (target_of view.now.pairs layer) s) }
        ensures kept { OnOk result (Grows self.old self.new) }
    {
        add_drawn(&mut self.layers, drawn, cell, view)?;
        self.windows.hold_cell(library, cell)
    }

    /// Adds all that a cell covers where the map places it, with its Layers as the view maps them.
    pub(crate) fn hold_placed_cell(
        &mut self,
        library: &Fitted,
        drawn: &[Option<Layers>],
        view: &View,
        cell: usize,
        map: &Map,
    ) -> Result<(), AllocError>
        requires { AreDrawnOn library.now.cells drawn.now }
        ensures held { OnOk result ((layer : PlainLayer) (s : Square) → CoversAt library.now.cells cell layer s
            → IsIn self.new (target_of view.now.pairs layer) (image_square map.now s)) }
        ensures kept { OnOk result (Grows self.old self.new) }
    {
        add_drawn(&mut self.layers, drawn, cell, view)?;
        self.windows.hold_placed_cell(library, cell, map)
    }
}
