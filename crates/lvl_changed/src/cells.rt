//! Comparison of two libraries cell by cell, without flattening them.
ghost use Rattle.std.specs.Prelude.{◌≡◌, ◌<◌, length, List, map, None, Some, IfOk, IfSome, slice_get, slice_set, vec_len};
ghost use Rattle.std.specs.List.{range_with_len};
ghost use Rattle.lvl_grid.specs.declared.point.Square.{Square};
ghost use Rattle.lvl_names.specs.declared.layer.Layer.{Layer};
ghost use Rattle.lvl_cells.specs.Cells.{PlainCell, Rings};
ghost use Rattle.lvl_flat.specs.Flattened.{CoversAt, TopCovers};
ghost use Rattle.lvl_view.specs.declared.map.LayerPair.{LayerPair};
ghost use Rattle.lvl_view.specs.Moved.{IsMoved};
ghost use Rattle.lvl_changed.specs.Changed.{DrawSameBut};
ghost use Rattle.lvl_changed.specs.inside.Areas.{AlikeOutside, IsIn};
ghost use Rattle.lvl_changed.specs.inside.Drawing.{AreDrawnOn};
ghost use Rattle.lvl_changed.specs.inside.Finding.{AreFound};
ghost use Rattle.lvl_changed.specs.inside.Pairs.{AreFoundIn, IsFoundIn, first_covers, second_covers};
ghost use Rattle.lvl_changed.specs.inside.Placements.{ReferencesCover};
ghost use Rattle.lvl_changed.specs.inside.Remains.{AreSameIf, OursDraw, PartnersDraw, PlacedDraws, RemainOutside};
ghost use Rattle.lvl_changed.specs.inside.Remains.{TheirsDraw};

use crate::area::Area;
use crate::changes::Changes;
use crate::drawing::drawn_by_cells;
use crate::figures::Seen;
use crate::found::Found;
use crate::holding::hold_rests;
use crate::in_step::hold_same;
use crate::layers::Layers;
use crate::left::left_of_shapes;
use crate::partners::{partner_in, partners_of};
use crate::placed::{Placed, placed_of};
use crate::references::{Partners, partners_placed};
use crate::remains::{Remains, Rests, settled as settled_rests};
use crate::whole::{Budget, is_same_pair, settled};
use crate::windows::MOST_WINDOWS;
use lvl_compare::Pair;
use lvl_flat::Fitted;
use lvl_view::View;
use std::alloc::{AllocError, Global};

/// The greatest number of windows of a cell that are placed, at all its places together; but at
/// least one is kept.
const MOST_PLACED: u64 = 4096;

/// The greatest number of windows that are kept for a cell that is placed `times` times.
fn most_windows(times: u64) -> usize {
    if times <= MOST_PLACED / MOST_WINDOWS as u64 {
        return MOST_WINDOWS;
    }
    if times < MOST_PLACED {
        return (MOST_PLACED / times) as usize;
    }
    1
}

/// A list that says that nothing is known for `count` cells.
fn none_known(alloc: Global, count: usize) -> Result<Vec<Option<Found>>, AllocError>
    ensures { IfOk result (λ known. known.items ≡ map (λ _. None) (range_with_len 0 count)) }
{
    (0..count).map(|_| None).collect(alloc)
}

/// What the references of two cells place that has to be compared: nothing if they place the same, one after the other.
fn referred(
    area: &mut Area,
    alloc: Global,
    pair: &Pair<'_>,
    ours: usize,
    theirs: usize,
    known: &[Option<Found>],
) -> Result<(Partners, Placed), AllocError>
    requires ours { ours < length pair.now.first.now.cells }
    requires theirs { theirs < length pair.now.second.now.cells }
    ensures { IfOk result (λ placed. AreFoundIn pair.now known.now → (c d : PlainCell Rings)
        → slice_get pair.now.first.now.cells ours ≡ Some c → slice_get pair.now.second.now.cells theirs ≡ Some d
        → RemainOutside area.new (ReferencesCover pair.now.first.now.cells c.references)
        (IsMoved pair.now.view.now.pairs (ReferencesCover pair.now.second.now.cells d.references))
        (PartnersDraw pair.now placed.0) (PlacedDraws pair.now placed.1)) }
{
    if hold_same(area, pair, ours, theirs, known)? {
        return Ok((Partners::none(alloc), Placed::none(alloc)));
    }
    let partners = partners_placed(area, alloc, pair.first.checked(), ours, known)?;
    let placed = placed_of(alloc, pair.second.checked(), theirs)?;
    Ok((partners, placed))
}

/// What remains of cell `ours` of the first library and of cell `theirs` of the second where both have the same.
fn rests_of(
    area: &mut Area,
    alloc: Global,
    pair: &Pair<'_>,
    ours: usize,
    theirs: usize,
    known: &[Option<Found>],
) -> Result<Rests, AllocError>
    requires ours { ours < length pair.now.first.now.cells }
    requires theirs { theirs < length pair.now.second.now.cells }
    ensures { IfOk result (λ rests. AreFoundIn pair.now known.now → AreSameIf area.new (first_covers pair.now ours)
        (second_covers pair.now theirs) (OursDraw pair.now rests) (TheirsDraw pair.now rests)) }
{
    let whole = View::whole(alloc);
    let our_shapes = Seen {
        shapes: &pair.first.checked().cell(ours).shapes,
        view: &whole,
    };
    let their_shapes = Seen {
        shapes: &pair.second.checked().cell(theirs).shapes,
        view: pair.view,
    };
    let (shapes, their_shapes) = left_of_shapes(alloc, our_shapes, their_shapes)?;
    let (partners, their_placed) = referred(area, alloc, pair, ours, theirs, known)?;
    let Partners { placed, alone } = partners;
    let ours = Remains { shapes, placed };
    let theirs = Remains {
        shapes: their_shapes,
        placed: their_placed,
    };
    Ok(Rests {
        ours,
        alone,
        theirs,
    })
}

/// An area outside of which cell `ours` of the first library covers what cell `theirs` of the
/// second does.
fn changes_of(
    alloc: Global,
    pair: &Pair<'_>,
    ours: usize,
    our_drawn: &[Option<Layers>],
    theirs: usize,
    their_drawn: &[Option<Layers>],
    known: &[Option<Found>],
    most: usize,
) -> Result<Area, AllocError>
    requires ours { ours < length pair.now.first.now.cells }
    requires our_drawn { AreDrawnOn pair.now.first.now.cells our_drawn.now }
    requires theirs { theirs < length pair.now.second.now.cells }
    requires their_drawn { AreDrawnOn pair.now.second.now.cells their_drawn.now }
    ensures { IfOk result (λ area. AreFoundIn pair.now known.now
        → AlikeOutside area (first_covers pair.now ours) (second_covers pair.now theirs)) }
{
    let mut area = Area::none(alloc, most);
    let rests = rests_of(&mut area, alloc, pair, ours, theirs, known)?;
    let rests = settled_rests(&mut area, alloc, pair, known, rests)?;
    hold_rests(&mut area, alloc, pair, our_drawn, their_drawn, rests)?;
    Ok(area)
}

/// An area that has all squares that a cell covers.
fn extent_of(
    alloc: Global,
    library: &Fitted,
    drawn: &[Option<Layers>],
    cell: usize,
) -> Result<Area, AllocError>
    requires { AreDrawnOn library.now.cells drawn.now }
    ensures { IfOk result (λ area. (layer : Layer) (s : Square)
        → CoversAt library.now.cells cell layer s → IsIn area layer s) }
{
    let whole = View::whole(alloc);
    let mut area = Area::none(alloc, 1);
    area.hold_cell(library, drawn, &whole, cell)?;
    Ok(area)
}

/// An area outside of which a cell covers what its partner does, or nothing if it has no partner.
fn found_of(
    alloc: Global,
    pair: &Pair<'_>,
    our_drawn: &[Option<Layers>],
    cell: usize,
    their_drawn: &[Option<Layers>],
    partner: Option<usize>,
    known: &[Option<Found>],
    most: usize,
) -> Result<Found, AllocError>
    requires ours { AreDrawnOn pair.now.first.now.cells our_drawn.now }
    requires cell { cell < length pair.now.first.now.cells }
    requires theirs { AreDrawnOn pair.now.second.now.cells their_drawn.now }
    requires partner { IfSome partner (λ n. n < length pair.now.second.now.cells) }
    ensures partner { IfOk result (λ found. found.partner ≡ partner) }
    ensures found { IfOk result (λ found. AreFoundIn pair.now known.now → IsFoundIn pair.now cell found) }
{
    let Some(theirs) = partner else {
        let area = extent_of(alloc, pair.first, our_drawn, cell)?;
        return Ok(Found {
            partner: None,
            area,
        });
    };
    let area = changes_of(
        alloc,
        pair,
        cell,
        our_drawn,
        theirs,
        their_drawn,
        known,
        most,
    )?;
    Ok(Found {
        partner: Some(theirs),
        area,
    })
}

/// Stores what was found for the cell at an index.
fn keep(known: &mut Vec<Option<Found>>, cell: usize, found: Found)
    requires { cell < vec_len known.old }
    ensures kept { known.new.items ≡ slice_set known.old.items cell (Some found) }
    ensures long { vec_len known.new ≡ vec_len known.old }
{
    known[cell] = Some(found);
}

/// What was found for a cell, if it was compared with the cell `partner` and it isn't the whole
/// grid.
fn changes_in(mut known: Vec<Option<Found>>, cell: usize, partner: usize) -> Option<Changes>
    requires { cell < vec_len known }
    ensures { IfSome result (λ changes. (pairs : List LayerPair) (ours theirs : List (PlainCell Rings))
        → AreFound pairs ours theirs known.items
        → DrawSameBut changes (CoversAt ours cell) (IsMoved pairs (CoversAt theirs partner))) }
{
    let Found {
        partner: compared,
        area,
    } = known.swap_remove(cell)?;
    if compared? != partner {
        return None;
    }
    area.into_changes()
}

/// Windows and Layers such that both tops cover the same squares outside of the windows, and on all
/// other Layers, with the Layers of the second mapped by the view. None if no such windows are found.
/// There are at most 64 windows, and none if both are found to draw the same everywhere; and at most
/// 64 Layers, or it may be any. Fails only if out of memory.
///
/// The tops are compared with each other, and any other cell with one that it is likely to be the
/// same as: one of its name that looks like it, one that is placed where it is, or else the one of
/// its name. What both have is left out: own shapes, and references as they are written, as rows, and
/// place by place. Then references that remain of one of both are opened, so that what their cells
/// draw is compared with what remains of the other, as long as that gives at most twice as much. What
/// remains is flattened, or becomes windows if it is large, on the Layers on which it draws. What is
/// found for a cell is added to what is found for the cells that place it, at each place. A cell that
/// isn't placed is no partner, since nothing limits how much it draws.
///
/// Two cells that differ shape by shape, and are placed more than once, are compared once with all
/// that they place, where that doesn't cost too much. If they draw the same, nothing is found for
/// them.
pub fn changed(
    alloc: Global,
    first: &Fitted,
    second: &Fitted,
    view: &View,
) -> Result<Option<Changes>, AllocError>
    ensures { IfOk result (λ found. IfSome found (λ changes.
        DrawSameBut changes (TopCovers first.now) (IsMoved view.now.pairs (TopCovers second.now)))) }
{
    let ours = first.checked();
    let theirs = second.checked();
    let partners = partners_of(alloc, first, second)?;
    let our_drawn = drawn_by_cells(alloc, ours)?;
    let their_drawn = drawn_by_cells(alloc, theirs)?;
    let times = ours.times();
    let everywhere = view.everywhere(alloc)?;
    let pair = Pair {
        first,
        second,
        view,
    };
    let unbounded = Pair {
        view: &everywhere,
        ..pair
    };
    let mut budget = Budget::new(alloc, &pair)?;
    let mut known = none_known(alloc, ours.cells().len())?;
    for i in (0..ours.order().len()).rev() {
        let cell = ours.order()[i];
        if times[cell] == 0 {
            continue;
        }
        let partner = partner_in(&partners, cell, theirs);
        let most = most_windows(times[cell]);
        let found = found_of(
            alloc,
            &pair,
            &our_drawn,
            cell,
            &their_drawn,
            partner,
            &known,
            most,
        )?;
        let is_same = is_same_pair(alloc, &unbounded, cell, &found, times[cell], &mut budget)?;
        keep(&mut known, cell, settled(alloc, found, is_same));
    }
    Ok(changes_in(known, ours.top(), theirs.top()))
}
