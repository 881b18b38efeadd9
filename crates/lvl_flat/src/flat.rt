//! Flat layouts: the rings of each Layer, in the order of the Layers.
ghost use Rattle.std.specs.Prelude.{◌≡◌, ◌≢◌, ◌↔◌, filter, length, map, slice_get, All, IsTrue, IfOk, IfSome, IfNone};
ghost use Rattle.lvl_flat.specs.Sheets.{rings_on, is_filled, IsInOrder, AreSorted, SheetAt};
ghost use Rattle.lvl_names.specs.Layers.{ComesBefore};

use lvl_grid::Rings;
use lvl_names::{Layer, comes_before};
use std::alloc::{AllocError, Global};
use std::marker::Model;

/// The rings of one Layer.
#[derive(Debug, Drop)]
pub(crate) struct Sheet {
    pub layer: Layer,
    pub rings: Rings,
}

impl Model for Sheet {
    ghost use Rattle.lvl_flat.specs.Sheet.{PlainSheet};

    ghost Value = { PlainSheet };

    ghost view = { λ s. record { layer = s.layer; rings = s.rings } };
}

/// The placed rings of each Layer that has any, in the order of the Layers.
#[derive(Debug, Drop)]
pub struct Flat {
    sheets: Vec<Sheet>,
    /// The rings of a Layer that has none.
    none: Rings,
}

impl Model for Flat {
    ghost use Rattle.std.specs.Prelude.{List};
    ghost use Rattle.lvl_flat.specs.Sheet.{PlainSheet};
    ghost use Rattle.lvl_flat.specs.inside.Kept.{IsFlat};

    ghost Value = { List PlainSheet };

    ghost view = { λ f. f.sheets.items };

    ghost invariant = { λ f. IsFlat f.sheets.items f.none };
}

impl Flat {
    /// The flat layout of these sheets. Those without rings are left out.
    pub(crate) fn filled(alloc: Global, sheets: Vec<Sheet>) -> Result<Flat, AllocError>
        requires { AreSorted sheets.items }
        ensures { IfOk result (λ flat. flat ≡ filter is_filled sheets.items) }
    {
        let mut filled = Vec::new(alloc);
        for sheet in sheets {
            if !sheet.rings.is_empty() {
                filled.push(sheet)?;
            }
        }
        Ok(Flat {
            sheets: filled,
            none: Rings::new(alloc),
        })
    }

    /// The sheets of all Layers that have rings.
    pub(crate) fn into_sheets(self) -> Vec<Sheet>
        ensures sheets { result.items ≡ self }
        ensures in_order { IsInOrder self }
    {
        self.sheets
    }

    /// The number of Layers that have rings.
    pub fn len(&self) -> usize
        ensures { result ≡ length self.now }
    {
        self.sheets.len()
    }

    /// The Layer at this index, or None if there is none. Layers are in their order, and each has
    /// at least one ring.
    pub fn layer(&self, place: usize) -> Option<Layer>
        ensures layer { result ≡ slice_get (map (λ s. s.layer) self.now) place }
        ensures in_order { IsInOrder self.now }
    {
        self.sheets.get(place).map(|sheet| sheet.layer)
    }

    /// The rings of the Layer: an empty list if the Layer isn't there.
    pub fn rings(&self, layer: Layer) -> &Rings
        ensures { result.now ≡ rings_on layer self.now }
    {
        match place_of(&self.sheets, layer) {
            Some(place) => {
                let sheet = &self.sheets[place];
                &sheet.rings
            }
            None => &self.none,
        }
    }
}

/// Whether the Layer comes before those of all sheets, or after them.
fn is_outside(sheets: &[Sheet], layer: Layer) -> bool
    requires { AreSorted sheets.now }
    ensures { IsTrue result → All (λ s. s.layer ≢ layer) sheets.now }
{
    if sheets.is_empty() {
        return true;
    }
    let first = &sheets[0];
    let last = &sheets[sheets.len() - 1];
    comes_before(layer, first.layer) || comes_before(last.layer, layer)
}

/// The index of the sheet for the Layer, or None if there is none. A binary search, unless the Layer is outside of all
/// sheets, as most are of a group of many Layers.
pub(crate) fn place_of(sheets: &[Sheet], layer: Layer) -> Option<usize>
    requires { AreSorted sheets.now }
    ensures found { IfSome result (λ i. SheetAt sheets.now i layer) }
    ensures absent { IfNone result (All (λ s. s.layer ≢ layer) sheets.now) }
{
    if is_outside(sheets, layer) {
        return None;
    }
    let mut low = 0;
    let mut high = sheets.len();
    while low < high {
        let middle = low + (high - low) / 2;
        let sheet = &sheets[middle];
        if comes_before(sheet.layer, layer) {
            low = middle + 1;
        } else {
            high = middle;
        }
    }
    let sheet = sheets.get(low)?;
    if sheet.layer != layer {
        return None;
    }
    Some(low)
}
