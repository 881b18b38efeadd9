//! What a cell places: single placements and arrays.
ghost use Rattle.std.specs.Prelude.{◌≡◌, ◌<◌, ◌↔◌, [], length, slice_get, IfOk, IfSome, OnOk};
ghost use Rattle.lvl_grid.specs.declared.point.Square.{Square};
ghost use Rattle.lvl_names.specs.declared.layer.Layer.{Layer};
ghost use Rattle.lvl_changed.specs.inside.Arrays.{all_places, every_place, AddsArray, AddsArrays};
ghost use Rattle.lvl_changed.specs.inside.Placements.{PlaceSame, PlacedCover, ReferencesCover};

use crate::arrays::{Array, array_of};
use crate::placements::Placement;
use lvl_cells::Checked;
use lvl_names::Offsets;
use std::alloc::{AllocError, Global};

/// Placements, and arrays of more than one place, which aren't written out place by place.
#[derive(Drop)]
pub(crate) struct Placed {
    pub singles: Vec<Placement>,
    pub arrays: Vec<Array>,
}

impl Placed {
    /// Nothing is placed. Allocates nothing.
    pub(crate) fn none(alloc: Global) -> Placed
        ensures { all_places result ≡ [] }
    {
        Placed {
            singles: Vec::new(alloc),
            arrays: Vec::new(alloc),
        }
    }

    /// Adds an array, or a placement if it has a single place.
    pub(crate) fn push(&mut self, array: Array) -> Result<(), AllocError>
        ensures { OnOk result (AddsArray (all_places self.old) (all_places self.new) array) }
    {
        if !array.shifts.is_single() {
            self.arrays.push(array)?;
            return Ok(());
        }
        let Array { cell, by, .. } = array;
        self.singles.push(Placement { cell, map: by })?;
        Ok(())
    }

    /// Adds arrays.
    pub(crate) fn push_all(&mut self, arrays: Vec<Array>) -> Result<(), AllocError>
        ensures { OnOk result (AddsArrays (all_places self.old) (all_places self.new) (every_place arrays.items)) }
    {
        for array in arrays {
            self.push(array)?;
        }
        Ok(())
    }

    /// Adds all that another has.
    pub(crate) fn append(&mut self, more: Placed) -> Result<(), AllocError>
        ensures { OnOk result (AddsArrays (all_places self.old) (all_places self.new) (all_places more)) }
    {
        let Placed {
            mut singles,
            mut arrays,
        } = more;
        self.singles.append(&mut singles)?;
        self.arrays.append(&mut arrays)?;
        Ok(())
    }

    /// All as arrays.
    pub(crate) fn into_arrays(self, alloc: Global) -> Result<Vec<Array>, AllocError>
        ensures { IfOk result (λ all. PlaceSame (every_place all.items) (all_places self)) }
    {
        let Placed { singles, arrays } = self;
        let mut all = arrays;
        for Placement { cell, map } in singles {
            all.push(Array {
                cell,
                by: map,
                shifts: Offsets::single(),
            })?;
        }
        Ok(all)
    }
}

/// What a cell's references place, with the indexes of the cells that these name.
pub(crate) fn placed_of(alloc: Global, checked: &Checked, cell: usize) -> Result<Placed, AllocError>
    requires { cell < length checked.now.cells }
    ensures { IfOk result (λ placed. IfSome (slice_get checked.now.cells cell)
        (λ c. (layer : Layer) (s : Square)
        → PlacedCover checked.now.cells (all_places placed) layer s
        ↔ ReferencesCover checked.now.cells c.references layer s)) }
{
    let mut placed = Placed::none(alloc);
    let parent = &checked.cells()[cell];
    for j in 0..parent.references.len() {
        placed.push(array_of(checked, cell, j)?)?;
    }
    Ok(placed)
}
