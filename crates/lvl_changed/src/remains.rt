//! What remains of two cells where both have the same.
ghost use Rattle.std.specs.Prelude.{◌↔◌, ◌⊎◌, IfOk, OnOk};
ghost use Rattle.lvl_grid.specs.declared.point.Square.{Square};
ghost use Rattle.lvl_names.specs.declared.layer.Layer.{Layer as PlainLayer};
ghost use Rattle.lvl_view.specs.Moved.{IsMoved};
ghost use Rattle.lvl_compare.specs.declared.pair.Pair.{Pair as PlainPair};
ghost use Rattle.lvl_changed.specs.inside.Areas.{Grows, IsIn};
ghost use Rattle.lvl_changed.specs.inside.Arrays.{each_place, every_place};
ghost use Rattle.lvl_changed.specs.inside.Pairs.{AreFoundIn};
ghost use Rattle.lvl_changed.specs.inside.Placements.{PlacedCover};
ghost use Rattle.lvl_changed.specs.inside.Remains.{AreSameIf, OursDraw, PartnersDraw, Remain, RemainsDraw, TheirsDraw};
ghost use Rattle.lvl_changed.specs.inside.Rests.{AreSameWhere};
ghost use Rattle.lvl_changed.specs.inside.Shapes.{ShapesCover};

use crate::area::Area;
use crate::arrays::Array;
use crate::figures::Seen;
use crate::found::Found;
use crate::left::left_of_shapes;
use crate::opening::open_array;
use crate::placed::Placed;
use crate::placements::Placement;
use crate::references::{Partners, left_placed};
use lvl_cells::{Checked, Shapes};
use lvl_compare::Pair;
use lvl_view::View;
use std::alloc::{AllocError, Global};

/// How many times as many shapes and references as remain of one cell the other may have after its references are
/// opened.
const GROWTH: u64 = 2;

/// The greatest number of shapes and references that a cell may have after its references are opened.
const MOST_OPENED: u64 = 1_048_576;

/// How many levels of references are opened at most.
const MOST_LEVELS: usize = 8;

/// What remains of a cell: shapes, on the Layers that count, and what is placed of the second library.
#[derive(Drop)]
pub(crate) struct Remains {
    pub shapes: Shapes,
    pub placed: Placed,
}

/// What remains of a cell and its partner. Of the first there are cells without a partner besides.
#[derive(Drop)]
pub(crate) struct Rests {
    pub ours: Remains,
    pub alone: Vec<Array>,
    pub theirs: Remains,
}

/// Which references are opened.
#[derive(Clone, Copy, PartialEq, Eq)]
enum Side {
    Ours,
    Theirs,
}

/// The number of shapes and references of a cell.
fn size_of(checked: &Checked, cell: usize) -> u64 {
    match checked.cells().get(cell) {
        Some(found) => found.shapes.len().saturating_add(found.references.len()) as u64,
        None => 0,
    }
}

/// The number of shapes and references of the cells of arrays.
fn size_of_arrays(checked: &Checked, arrays: &[Array]) -> u64 {
    let mut size: u64 = 0;
    for array in arrays {
        size = size.saturating_add(size_of(checked, array.cell));
    }
    size
}

/// The number of shapes and references of the cells of placements.
fn size_of_singles(checked: &Checked, singles: &[Placement]) -> u64 {
    let mut size: u64 = 0;
    for single in singles {
        size = size.saturating_add(size_of(checked, single.cell));
    }
    size
}

impl Remains {
    /// The number of shapes, placements and arrays.
    fn len(&self) -> u64 {
        let placed = self
            .placed
            .singles
            .len()
            .saturating_add(self.placed.arrays.len());
        self.shapes.len().saturating_add(placed) as u64
    }

    /// Whether nothing is placed.
    fn places_nothing(&self) -> bool {
        self.placed.singles.is_empty() && self.placed.arrays.is_empty()
    }

    /// The number of shapes and references once all references are opened.
    fn opened_len(&self, checked: &Checked) -> u64 {
        (self.shapes.len() as u64)
            .saturating_add(size_of_singles(checked, &self.placed.singles))
            .saturating_add(size_of_arrays(checked, &self.placed.arrays))
    }

    /// Adds an array of the second library, opened if it can be.
    fn open(&mut self, alloc: Global, pair: &Pair<'_>, array: Array) -> Result<(), AllocError>
        ensures { OnOk result ((layer : PlainLayer) (s : Square) → RemainsDraw pair.now self.new layer s
            ↔ (RemainsDraw pair.now self.old layer s
            ⊎ IsMoved pair.now.view.now.pairs (PlacedCover pair.now.second.now.cells (each_place array)) layer s)) }
    {
        let (checked, view) = (pair.second.checked(), pair.view);
        let mut inner = Vec::new(alloc);
        if open_array(alloc, &mut self.shapes, &mut inner, checked, view, &array)? {
            return self.placed.push_all(inner);
        }
        self.placed.push(array)?;
        self.placed.push_all(inner)
    }

    /// The same with all references opened that can be.
    fn opened(self, alloc: Global, pair: &Pair<'_>) -> Result<Remains, AllocError>
        ensures { IfOk result (λ opened. (layer : PlainLayer) (s : Square)
            → RemainsDraw pair.now opened layer s ↔ RemainsDraw pair.now self layer s) }
    {
        let Remains { shapes, placed } = self;
        let mut arrays = placed.into_arrays(alloc)?;
        let mut opened = Remains {
            shapes,
            placed: Placed::none(alloc),
        };
        while let Some(array) = arrays.pop() {
            opened.open(alloc, pair, array)?;
        }
        Ok(opened)
    }
}

/// What remains of two cells without what both have.
fn left_of(alloc: Global, ours: Remains, theirs: Remains) -> Result<(Remains, Remains), AllocError>
    ensures { IfOk result (λ left. (pair : PlainPair) (layer : PlainLayer) (s : Square) → Remain
        (RemainsDraw pair ours layer s) (RemainsDraw pair theirs layer s)
        (RemainsDraw pair left.0 layer s) (RemainsDraw pair left.1 layer s)) }
{
    let whole = View::whole(alloc);
    let first = Seen {
        shapes: &ours.shapes,
        view: &whole,
    };
    let second = Seen {
        shapes: &theirs.shapes,
        view: &whole,
    };
    let (shapes, their_shapes) = left_of_shapes(alloc, first, second)?;
    let (placed, their_placed) = left_placed(alloc, ours.placed, theirs.placed)?;
    let ours = Remains { shapes, placed };
    let theirs = Remains {
        shapes: their_shapes,
        placed: their_placed,
    };
    Ok((ours, theirs))
}

/// Adds an array of the first library, opened if it can be: shapes, and what it places with partners in place of cells.
fn open_alone(
    area: &mut Area,
    alloc: Global,
    pair: &Pair<'_>,
    known: &[Option<Found>],
    shapes: &mut Shapes,
    partners: &mut Partners,
    array: Array,
) -> Result<(), AllocError>
    ensures added { OnOk result (AreFoundIn pair.now known.now → (layer : PlainLayer) (s : Square)
        → (¬ IsIn area.new layer s) → (ShapesCover shapes.new layer s ⊎ PartnersDraw pair.now partners.new layer s)
        ↔ ((ShapesCover shapes.old layer s ⊎ PartnersDraw pair.now partners.old layer s)
        ⊎ PlacedCover pair.now.first.now.cells (each_place array) layer s)) }
    ensures kept { OnOk result (Grows area.old area.new) }
{
    let (checked, whole) = (pair.first.checked(), View::whole(alloc));
    let mut inner = Vec::new(alloc);
    if open_array(alloc, shapes, &mut inner, checked, &whole, &array)? {
        return partners.add_all(area, inner, known);
    }
    partners.alone.push(array)?;
    partners.add_all(area, inner, known)
}

/// Adds arrays of the first library, each opened if it can be.
fn open_all_alone(
    area: &mut Area,
    alloc: Global,
    pair: &Pair<'_>,
    known: &[Option<Found>],
    shapes: &mut Shapes,
    arrays: Vec<Array>,
) -> Result<Partners, AllocError>
    ensures opened { IfOk result (λ partners. AreFoundIn pair.now known.now → (layer : PlainLayer) (s : Square)
        → (¬ IsIn area.new layer s) → (ShapesCover shapes.new layer s ⊎ PartnersDraw pair.now partners layer s)
        ↔ (ShapesCover shapes.old layer s ⊎ PlacedCover pair.now.first.now.cells (every_place arrays.items) layer s)) }
    ensures kept { OnOk result (Grows area.old area.new) }
{
    let mut partners = Partners::none(alloc);
    let mut left = arrays;
    while let Some(array) = left.pop() {
        open_alone(area, alloc, pair, known, shapes, &mut partners, array)?;
    }
    Ok(partners)
}

impl Rests {
    /// The same without what both have.
    fn left(self, alloc: Global) -> Result<Rests, AllocError>
        ensures { IfOk result (λ left. (pair : PlainPair) → AreSameWhere (OursDraw pair self) (TheirsDraw pair self)
            (OursDraw pair left) (TheirsDraw pair left)) }
    {
        let Rests {
            ours,
            alone,
            theirs,
        } = self;
        let (ours, theirs) = left_of(alloc, ours, theirs)?;
        Ok(Rests {
            ours,
            alone,
            theirs,
        })
    }

    /// Which side's references to open: so that it has at most twice as much as remains of the other.
    fn to_open(&self, pair: &Pair<'_>) -> Option<Side> {
        let (first, second) = (pair.first.checked(), pair.second.checked());
        let ours = self.ours.len().saturating_add(self.alone.len() as u64);
        let theirs = self.theirs.len();
        let our_most = self
            .ours
            .opened_len(second)
            .saturating_add(size_of_arrays(first, &self.alone));
        let their_most = self.theirs.opened_len(second);
        let opens_ours = !(self.ours.places_nothing() && self.alone.is_empty())
            && our_most <= theirs.saturating_mul(GROWTH).min(MOST_OPENED);
        let opens_theirs = !self.theirs.places_nothing()
            && their_most <= ours.saturating_mul(GROWTH).min(MOST_OPENED);
        if opens_ours && !(opens_theirs && their_most < our_most) {
            return Some(Side::Ours);
        }
        if opens_theirs {
            return Some(Side::Theirs);
        }
        None
    }

    /// The same with the references of the second cell opened.
    fn open_theirs(self, alloc: Global, pair: &Pair<'_>) -> Result<Rests, AllocError>
        ensures { IfOk result (λ opened. (layer : PlainLayer) (s : Square)
            → (OursDraw pair.now opened layer s ↔ OursDraw pair.now self layer s)
            × (TheirsDraw pair.now opened layer s ↔ TheirsDraw pair.now self layer s)) }
    {
        let Rests {
            ours,
            alone,
            theirs,
        } = self;
        let theirs = theirs.opened(alloc, pair)?;
        Ok(Rests {
            ours,
            alone,
            theirs,
        })
    }

    /// The same with the references of the first cell opened.
    fn open_ours(
        self,
        area: &mut Area,
        alloc: Global,
        pair: &Pair<'_>,
        known: &[Option<Found>],
    ) -> Result<Rests, AllocError>
        ensures opened { IfOk result (λ opened. AreFoundIn pair.now known.now → (layer : PlainLayer) (s : Square)
            → (¬ IsIn area.new layer s) → (OursDraw pair.now opened layer s ↔ OursDraw pair.now self layer s)
            × (TheirsDraw pair.now opened layer s ↔ TheirsDraw pair.now self layer s)) }
        ensures kept { OnOk result (Grows area.old area.new) }
    {
        let Rests {
            ours,
            alone,
            theirs,
        } = self;
        let Remains {
            mut shapes,
            mut placed,
        } = ours.opened(alloc, pair)?;
        let partners = open_all_alone(area, alloc, pair, known, &mut shapes, alone)?;
        let Partners {
            placed: more,
            alone,
        } = partners;
        placed.append(more)?;
        Ok(Rests {
            ours: Remains { shapes, placed },
            alone,
            theirs,
        })
    }
}

/// What remains of two cells once references of one of them are opened, and what both have then is left out.
fn opened(
    area: &mut Area,
    alloc: Global,
    pair: &Pair<'_>,
    known: &[Option<Found>],
    rests: Rests,
    side: Side,
) -> Result<Rests, AllocError>
    ensures same { IfOk result (λ left. AreFoundIn pair.now known.now → AreSameIf area.new (OursDraw pair.now rests)
        (TheirsDraw pair.now rests) (OursDraw pair.now left) (TheirsDraw pair.now left)) }
    ensures kept { OnOk result (Grows area.old area.new) }
{
    match side {
        Side::Ours => rests.open_ours(area, alloc, pair, known)?.left(alloc),
        Side::Theirs => rests.open_theirs(alloc, pair)?.left(alloc),
    }
}

/// What remains of two cells where both have the same, also once references of one of them are opened.
pub(crate) fn settled(
    area: &mut Area,
    alloc: Global,
    pair: &Pair<'_>,
    known: &[Option<Found>],
    rests: Rests,
) -> Result<Rests, AllocError>
    ensures same { IfOk result (λ left. AreFoundIn pair.now known.now → AreSameIf area.new (OursDraw pair.now rests)
        (TheirsDraw pair.now rests) (OursDraw pair.now left) (TheirsDraw pair.now left)) }
    ensures kept { OnOk result (Grows area.old area.new) }
{
    let mut left = rests.left(alloc)?;
    for _ in 0..MOST_LEVELS {
        let Some(side) = left.to_open(pair) else {
            return Ok(left);
        };
        left = opened(area, alloc, pair, known, left, side)?;
    }
    Ok(left)
}
