//! Where two lists of rings may cover different squares.
ghost use Rattle.std.specs.Prelude.{◌≡◌, ◌↔◌, Contains, IsTrue, OnOk};
ghost use Rattle.lvl_grid.specs.declared.point.Square.{Square};
ghost use Rattle.lvl_grid.specs.Clip.{IsInWindow};
ghost use Rattle.lvl_grid.specs.Winding.{Covers, SomeCovers};
ghost use Rattle.lvl_changed.specs.inside.Areas.{Grows, IsIn};
ghost use Rattle.lvl_changed.specs.inside.Windows.{Has, Widens};

use crate::area::Area;
use crate::corners::spot;
use crate::windows::Windows;
use lvl_columns::difference_in;
use lvl_grid::{Point, Rings, Window};
use lvl_names::Layer;
use std::alloc::{AllocError, Global};
use std::cmp::Ordering;

/// A window that has all squares that the ring covers.
fn box_of(ring: &[Point]) -> Window
    ensures { (s : Square) → Covers ring.now s → IsInWindow result s }
{
    let mut held = Window {
        x0: i64::MAX,
        y0: i64::MAX,
        x1: i64::MIN,
        y1: i64::MIN,
    };
    for point in ring {
        held = held.joined(spot(*point));
    }
    held
}

/// The points of the ring at an index, or no points if there is no such ring.
fn points_at(rings: &Rings, i: usize) -> &[Point] {
    match rings.get(i) {
        Some(ring) => ring,
        None => &[],
    }
}

/// Compares two rings point by point, then by length.
fn compare_rings(first: &[Point], second: &[Point]) -> Ordering {
    for (a, b) in first.iter().zip(second) {
        let order = (a.x, a.y).cmp(&(b.x, b.y));
        if order != Ordering::Equal {
            return order;
        }
    }
    first.len().cmp(&second.len())
}

/// The indexes of the rings, sorted by [`compare_rings`].
fn order_of(alloc: Global, rings: &Rings) -> Result<Vec<usize>, AllocError> {
    let mut order: Vec<usize> = (0..rings.len()).collect(alloc)?;
    order.sort_unstable_by(|i, j| compare_rings(points_at(rings, *i), points_at(rings, *j)));
    Ok(order)
}

/// Whether the ring at an index has these points.
fn is_at(rings: &Rings, i: usize, ring: &[Point]) -> bool
    ensures { IsTrue result → Contains rings.now ring.now }
{
    match rings.get(i) {
        Some(found) => found == ring,
        None => false,
    }
}

/// Whether the list has the ring. `order` has the sorted indexes of the list, else `false` says
/// nothing.
fn has_ring(rings: &Rings, order: &[usize], ring: &[Point]) -> bool
    ensures { IsTrue result → Contains rings.now ring.now }
{
    match order.binary_search_by(|i| compare_rings(points_at(rings, *i), ring)) {
        Ok(place) => is_at(rings, order[place], ring),
        Err(_) => false,
    }
}

/// Adds the boxes of those rings that the list `others` doesn't have.
fn hold_missing(
    windows: &mut Windows,
    alloc: Global,
    rings: &Rings,
    others: &Rings,
) -> Result<(), AllocError>
    ensures held { OnOk result ((s : Square)
        → ¬ Has windows.new s → SomeCovers rings.now s → SomeCovers others.now s) }
    ensures kept { OnOk result (Widens windows.old windows.new) }
{
    let order = order_of(alloc, others)?;
    for i in 0..rings.len() {
        let ring = rings.ring(i);
        if !has_ring(others, &order, ring) {
            windows.hold(box_of(ring))?;
        }
    }
    Ok(())
}

/// Adds an area outside of which both lists cover the same squares on the Layer: nothing if both
/// cover the same everywhere, else the boxes of the rings that only one list has.
pub(crate) fn hold_rings(
    area: &mut Area,
    alloc: Global,
    layer: Layer,
    ours: &Rings,
    theirs: &Rings,
) -> Result<(), AllocError>
    ensures held { OnOk result ((s : Square)
        → ¬ IsIn area.new layer s → SomeCovers ours.now s ↔ SomeCovers theirs.now s) }
    ensures kept { OnOk result (Grows area.old area.new) }
{
    if difference_in(alloc, ours, theirs, None)?.is_none() {
        return Ok(());
    }
    area.layers.add(layer)?;
    hold_missing(&mut area.windows, alloc, ours, theirs)?;
    hold_missing(&mut area.windows, alloc, theirs, ours)?;
    Ok(())
}
