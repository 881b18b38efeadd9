//! Places: which shifts of a list are in an area.
ghost use Rattle.std.specs.Prelude.{◌≤◌, IfSome, Some};
ghost use Rattle.lvl_witness.specs.inside.Areas.{AreApart, IsSmallArea};

use crate::areas::Area;
use crate::lattice::{lattice_of, next_in_lattice};
use lvl_cells::KeptReference;
use lvl_names::Offsets;

/// The fewest places of a lattice for which there is arithmetic. Fewer are as fast one by one.
const LEAST_LATTICE: u64 = 8;

/// The place of the next shift in the area, from place `from` on, or the number of shifts if there
/// is none. They are looked at one by one.
fn next_listed(shifts: &Offsets, from: u64, area: &Area) -> u64
    ensures on { from ≤ result }
    ensures apart { AreApart shifts.now from result (Some area.now) }
{
    for place in from..shifts.len() {
        let Some(shift) = shifts.at(place) else {
            unreachable!()
        };
        if area.has(shift) {
            return place;
        }
    }
    from.max(shifts.len())
}

/// The place of the next shift in the area, from place `from` on, or the number of shifts if there
/// is none. Without an area it is `from`.
pub(crate) fn next_place(shifts: &Offsets, from: u64, area: Option<Area>) -> u64
    requires { IfSome area (IsSmallArea 70) }
    ensures on { from ≤ result }
    ensures apart { AreApart shifts.now from result area }
{
    let Some(area) = area else {
        return from;
    };
    if shifts.len() < LEAST_LATTICE {
        return next_listed(shifts, from, &area);
    }
    match lattice_of(shifts) {
        Some(lattice) => next_in_lattice(shifts, &lattice, from, &area),
        None => next_listed(shifts, from, &area),
    }
}

/// The place of the reference's next shift in the area, from place `from` on, as [`next_place`] finds it.
pub(crate) fn next_place_of(reference: &KeptReference<'_>, from: u64, area: Option<Area>) -> u64
    requires { IfSome area (IsSmallArea 70) }
    ensures on { from ≤ result }
    ensures apart { AreApart reference.now.shifts from result area }
{
    match reference.shifts() {
        Some(shifts) => next_place(shifts, from, area),
        None => next_place(&Offsets::single(), from, area),
    }
}
