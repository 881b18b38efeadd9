//! Comparison of two flat layouts, Layer by Layer, by any type of region.
ghost use Rattle.std.specs.Prelude.{◌≡◌, ◌↔◌, IfOk, IfNone, IfSome};
ghost use Rattle.lvl_names.specs.declared.layer.Layer.{Layer as PlainLayer};
ghost use Rattle.lvl_grid.specs.Winding.{IsRing};
ghost use Rattle.lvl_grid.specs.declared.point.Square.{Square as GridSquare};
ghost use Rattle.lvl_region.specs.Region.{SomeCovers, IsAlone};
ghost use Rattle.lvl_compare.specs.Flats.{AlikeOn, IsApart};

use crate::flats::{lesser, past};
use lvl_flat::Flat;
use lvl_grid::{Point, Ring, Rings, Square};
use lvl_names::Layer;
use lvl_region::{Region, Side, difference};
use std::alloc::{AllocError, Global};

/// The ring of these points.
fn ring_of(alloc: Global, points: &[Point]) -> Result<Ring, AllocError>
    requires { IsRing points.now }
    ensures { IfOk result (λ ring. ring ≡ points.now) }
{
    match Ring::new(Vec::from_slice(alloc, points)?) {
        Ok(ring) => Ok(ring),
        Err(_) => unreachable!(),
    }
}

/// A list of the rings, each with its own points.
fn each_ring(alloc: Global, rings: &Rings) -> Result<Vec<Ring>, AllocError>
    ensures { IfOk result (λ list. list.items ≡ rings.now) }
{
    let mut list = Vec::new(alloc);
    for i in 0..rings.len() {
        list.push(ring_of(alloc, rings.ring(i))?)?;
    }
    Ok(list)
}

/// A square that the rings of only one list cover, by regions of this type.
fn difference_of<R: Region>(
    alloc: Global,
    first: &Rings,
    second: &Rings,
) -> Result<Option<(Square, Side)>, AllocError>
    ensures same { IfOk result
        (λ found. IfNone found ((s : GridSquare) → SomeCovers first.now s ↔ SomeCovers second.now s)) }
    ensures differ { IfOk result
        (λ found. IfSome found (λ at. IsAlone (SomeCovers first.now) (SomeCovers second.now) at.0 at.1)) }
{
    let first = each_ring(alloc, first)?;
    let second = each_ring(alloc, second)?;
    difference::<R>(alloc, &first, &second)
}

/// The first Layer on which two flat layouts differ, and a square of it that only one of them
/// covers, with its side; None if both cover the same squares on every Layer. Which square it is
/// depends on the type of region: [`crate::first_difference`] returns the least. Fails only if out
/// of memory.
pub fn difference_with<R: Region>(
    alloc: Global,
    first: &Flat,
    second: &Flat,
) -> Result<Option<(Layer, Square, Side)>, AllocError>
    ensures same { IfOk result
        (λ found. IfNone found ((layer : PlainLayer) → AlikeOn first.now second.now layer)) }
    ensures differ { IfOk result
        (λ found. IfSome found (λ at. IsApart first.now second.now at.0 at.1 at.2)) }
{
    let mut ours = 0;
    let mut theirs = 0;
    while let Some(layer) = lesser(first.layer(ours), second.layer(theirs)) {
        let (a, b) = (first.rings(layer), second.rings(layer));
        if let Some((square, side)) = difference_of::<R>(alloc, a, b)? {
            return Ok(Some((layer, square, side)));
        }
        ours = past(first, ours, layer);
        theirs = past(second, theirs, layer);
    }
    Ok(None)
}
