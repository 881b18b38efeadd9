//! What the references of two cells place, as cells of the second library, and what of it both have.
ghost use Rattle.std.specs.Prelude.{◌≡◌, ◌<◌, length, IfOk, IfSome, OnOk, slice_get};
ghost use Rattle.lvl_grid.specs.declared.point.Square.{Square};
ghost use Rattle.lvl_names.specs.declared.layer.Layer.{Layer};
ghost use Rattle.lvl_changed.specs.inside.Areas.{AlikeOutside, Grows};
ghost use Rattle.lvl_changed.specs.inside.Arrays.{AreListed, all_places, each_place, every_place};
ghost use Rattle.lvl_changed.specs.inside.Pairs.{AreFoundIn, IsFoundIn};
ghost use Rattle.lvl_changed.specs.inside.Placements.{AreLeftPlaces, PlaceSame, PlacedCover, ReferencesCover};
ghost use Rattle.lvl_changed.specs.inside.Remains.{AddsOutside, PartnersDraw};
ghost use Rattle.lvl_compare.specs.declared.pair.Pair.{Pair as PlainPair};

use crate::area::Area;
use crate::arrays::{Array, array_of, sort_arrays};
use crate::found::Found;
use crate::listing::list_alone;
use crate::placed::Placed;
use crate::placements::{Placement, missing_places, sort_places};
use crate::rows::split_alone;
use lvl_cells::Checked;
use std::alloc::{AllocError, Global};

/// The greatest number of placements of a cell for which arrays that only one side has are written
/// out place by place, and as many again as the other side has single placements.
const MOST_LISTED: u64 = 1_048_576;

/// What is placed of the first library: partners in place of the cells that have one, and the others.
#[derive(Drop)]
pub(crate) struct Partners {
    /// Cells of the second library.
    pub placed: Placed,
    /// Cells of the first library that have no partner.
    pub alone: Vec<Array>,
}

impl Partners {
    /// Nothing is placed. Allocates nothing.
    pub(crate) fn none(alloc: Global) -> Partners
        ensures { (pair : PlainPair) (layer : Layer) (s : Square) → ¬ PartnersDraw pair result layer s }
    {
        Partners {
            placed: Placed::none(alloc),
            alone: Vec::new(alloc),
        }
    }

    /// Adds an array of a cell for which something was found: of its partner, if it has one. The area that was found
    /// is added at each place of the array.
    fn push(&mut self, area: &mut Area, array: Array, found: &Found) -> Result<(), AllocError>
        ensures added { OnOk result ((pair : PlainPair) → IsFoundIn pair array.cell found.now
            → AddsOutside area.new (PartnersDraw pair self.old) (PartnersDraw pair self.new)
            (PlacedCover pair.first.now.cells (each_place array))) }
        ensures kept { OnOk result (Grows area.old area.new) }
    {
        let Some(cell) = found.partner else {
            self.alone.push(array)?;
            return Ok(());
        };
        area.hold_places(&found.area, &array)?;
        let Array { by, shifts, .. } = array;
        self.placed.push(Array { cell, by, shifts })
    }

    /// Adds an array of a cell of the first library. If nothing is known for the cell, the area becomes the whole
    /// grid on every Layer.
    pub(crate) fn add(
        &mut self,
        area: &mut Area,
        array: Array,
        known: &[Option<Found>],
    ) -> Result<(), AllocError>
        ensures added { OnOk result ((pair : PlainPair) → AreFoundIn pair known.now
            → AddsOutside area.new (PartnersDraw pair self.old) (PartnersDraw pair self.new)
            (PlacedCover pair.first.now.cells (each_place array))) }
        ensures kept { OnOk result (Grows area.old area.new) }
    {
        match known.get(array.cell) {
            Some(Some(found)) => self.push(area, array, found),
            _ => {
                area.hold_anywhere();
                Ok(())
            }
        }
    }

    /// Adds arrays of cells of the first library.
    pub(crate) fn add_all(
        &mut self,
        area: &mut Area,
        arrays: Vec<Array>,
        known: &[Option<Found>],
    ) -> Result<(), AllocError>
        ensures added { OnOk result ((pair : PlainPair) → AreFoundIn pair known.now
            → AddsOutside area.new (PartnersDraw pair self.old) (PartnersDraw pair self.new)
            (PlacedCover pair.first.now.cells (every_place arrays.items))) }
        ensures kept { OnOk result (Grows area.old area.new) }
    {
        for array in arrays {
            self.add(area, array, known)?;
        }
        Ok(())
    }
}

/// What a cell's references place, with partners in place of the cells that have one.
pub(crate) fn partners_placed(
    area: &mut Area,
    alloc: Global,
    checked: &Checked,
    cell: usize,
    known: &[Option<Found>],
) -> Result<Partners, AllocError>
    requires { cell < length checked.now.cells }
    ensures covers { IfOk result (λ partners. (pair : PlainPair) → AreFoundIn pair known.now
        → checked.now.cells ≡ pair.first.now.cells → IfSome (slice_get checked.now.cells cell)
        (λ c. AlikeOutside area.new (ReferencesCover checked.now.cells c.references) (PartnersDraw pair partners))) }
    ensures kept { OnOk result (Grows area.old area.new) }
{
    let mut partners = Partners::none(alloc);
    let parent = &checked.cells()[cell];
    for j in 0..parent.references.len() {
        partners.add(area, array_of(checked, cell, j)?, known)?;
    }
    Ok(partners)
}

/// What is placed, with the arrays sorted.
fn in_order(placed: Placed) -> Placed
    ensures { PlaceSame (all_places result) (all_places placed) }
{
    let Placed {
        singles,
        mut arrays,
    } = placed;
    sort_arrays(&mut arrays);
    Placed { singles, arrays }
}

/// What each of both places, with those arrays that the other doesn't have as rows.
fn left_rows(alloc: Global, first: Placed, second: Placed) -> Result<(Placed, Placed), AllocError>
    ensures ours { IfOk result (λ left. AreLeftPlaces (all_places first) (all_places second) (all_places left.0)) }
    ensures theirs { IfOk result (λ left. AreLeftPlaces (all_places second) (all_places first) (all_places left.1)) }
{
    let first = in_order(first);
    let second = in_order(second);
    let rows = split_alone(alloc, &first.arrays, &second.arrays)?;
    let their_rows = split_alone(alloc, &second.arrays, &first.arrays)?;
    let Placed { singles, .. } = first;
    let Placed {
        singles: others,
        ..
    } = second;
    let ours = Placed {
        singles,
        arrays: rows,
    };
    let theirs = Placed {
        singles: others,
        arrays: their_rows,
    };
    Ok((ours, theirs))
}

/// What is placed, with those arrays that the others don't have place by place.
fn in_places(
    alloc: Global,
    singles: Vec<Placement>,
    arrays: &[Array],
    others: &[Array],
    most: u64,
) -> Result<Placed, AllocError>
    ensures { IfOk result (λ placed. AreListed singles.items (all_places placed) arrays.now others.now) }
{
    let mut placed = Placed {
        singles,
        arrays: Vec::new(alloc),
    };
    list_alone(alloc, &mut placed, arrays, others, most)?;
    Ok(placed)
}

/// What each of both places that the other doesn't, where arrays are looked at as a whole.
fn left_arrays(alloc: Global, first: Placed, second: Placed) -> Result<(Placed, Placed), AllocError>
    ensures ours { IfOk result (λ left. AreLeftPlaces (all_places first) (all_places second) (all_places left.0)) }
    ensures theirs { IfOk result (λ left. AreLeftPlaces (all_places second) (all_places first) (all_places left.1)) }
{
    let first = in_order(first);
    let second = in_order(second);
    let most = MOST_LISTED.saturating_add(second.singles.len() as u64);
    let their_most = MOST_LISTED.saturating_add(first.singles.len() as u64);
    let Placed { singles, arrays } = first;
    let Placed {
        singles: others,
        arrays: other_arrays,
    } = second;
    let ours = in_places(alloc, singles, &arrays, &other_arrays, most)?;
    let theirs = in_places(alloc, others, &other_arrays, &arrays, their_most)?;
    Ok((ours, theirs))
}

/// What each of both places at single places that the other doesn't, and all arrays.
fn left_singles(
    alloc: Global,
    first: Placed,
    second: Placed,
) -> Result<(Placed, Placed), AllocError>
    ensures ours { IfOk result (λ left. AreLeftPlaces (all_places first) (all_places second) (all_places left.0)) }
    ensures theirs { IfOk result (λ left. AreLeftPlaces (all_places second) (all_places first) (all_places left.1)) }
{
    let Placed {
        mut singles,
        arrays,
    } = first;
    let Placed {
        singles: mut others,
        arrays: other_arrays,
    } = second;
    sort_places(&mut singles);
    sort_places(&mut others);
    let ours = missing_places(alloc, &singles, &others)?;
    let theirs = missing_places(alloc, &others, &singles)?;
    let first = Placed {
        singles: ours,
        arrays,
    };
    let second = Placed {
        singles: theirs,
        arrays: other_arrays,
    };
    Ok((first, second))
}

/// What each of both places that the other doesn't: first arrays are compared, then their rows, then single places.
pub(crate) fn left_placed(
    alloc: Global,
    first: Placed,
    second: Placed,
) -> Result<(Placed, Placed), AllocError>
    ensures ours { IfOk result (λ left. AreLeftPlaces (all_places first) (all_places second) (all_places left.0)) }
    ensures theirs { IfOk result (λ left. AreLeftPlaces (all_places second) (all_places first) (all_places left.1)) }
{
    let (first, second) = left_rows(alloc, first, second)?;
    let (first, second) = left_arrays(alloc, first, second)?;
    left_singles(alloc, first, second)
}
