//! Maps, rings, regions and sweeps.

use crate::memory::fence::fence;
use lvl_grid::{Map, Point, Ring, Rings, Square, Turn};
use lvl_region::{GridRegion, Region, Side};
use lvl_sweep::{SlabRegion, Sweep};
use std::alloc::{AllocError, Global};
use std::test::Fail;

const TURNED: Map = Map {
    flip: true,
    turn: Turn::R90,
    at: Point { x: 3, y: -4 },
};

const INSIDE: Square = Square { x: 1, y: 1 };

/// Squares up a staircase, each of which lies over a part of the one before.
fn stairs(alloc: Global, count: i64) -> Result<Vec<Ring>, AllocError> {
    let mut rings = Vec::new(alloc);
    for k in 0..count {
        let low = Point { x: k, y: k };
        let high = Point {
            x: k.saturating_add(5),
            y: k.saturating_add(2),
        };
        rings.push(Ring::rectangle(alloc, low, high)?)?;
    }
    Ok(rings)
}

#[test]
fn no_growths_of_maps_and_rings(rt: HostRuntime) -> Result<(), Fail> {
    let alloc = rt.alloc();
    let points = Ring::rectangle(alloc, Point { x: 0, y: 0 }, Point { x: 4, y: 2 })?;
    let points = Vec::from_slice(alloc, points.points())?;
    fence(alloc)?;
    let ring = Ring::new(points)?;
    let is_placed = TURNED.place(Point { x: 1, y: 2 }).is_some();
    let is_composed = TURNED.then(&TURNED).is_some();
    let is_ring = ring.covers(INSIDE) && ring.points().len() == 4;
    fence(alloc)?;
    assert!(rt; is_placed && is_composed && is_ring);
    Ok(())
}

/// All of the memory of a sweep is taken by `Sweep::new`.
#[test]
fn no_growths_of_sweeps(rt: HostRuntime) -> Result<(), Fail> {
    let alloc = rt.alloc();
    let rings = Rings::from_slice(alloc, &stairs(alloc, 300)?)?;
    let mut sweep = Sweep::new(alloc, &rings)?;
    let mut bands = 0u32;
    fence(alloc)?;
    for _ in 0..400u32 {
        bands = bands.saturating_add(u32::from(sweep.band().is_some()));
        sweep.advance();
    }
    fence(alloc)?;
    assert!(rt; bands == 301);
    Ok(())
}

/// The regions of two lists, by grids.
fn grids(
    alloc: Global,
    first: &[Ring],
    second: &[Ring],
) -> Result<(GridRegion, GridRegion), AllocError> {
    let region = GridRegion::build(alloc, first)?;
    Ok((region, GridRegion::build(alloc, second)?))
}

/// The same by slabs.
fn slabs(
    alloc: Global,
    first: &[Ring],
    second: &[Ring],
) -> Result<(SlabRegion, SlabRegion), AllocError> {
    let region = SlabRegion::build(alloc, first)?;
    Ok((region, SlabRegion::build(alloc, second)?))
}

fn are_grids(first: &GridRegion, second: &GridRegion) -> bool {
    first.covers(INSIDE) && first.first_difference(second).is_some()
}

fn are_slabs(first: &SlabRegion, second: &SlabRegion) -> bool {
    first.covers(INSIDE)
        && first.bands().len() == 31
        && first.first_difference(second) == Some((Square { x: 34, y: 30 }, Side::Second))
}

/// Whether the regions answer as they should, between two fences.
fn are_regions(
    alloc: Global,
    grids: &(GridRegion, GridRegion),
    slabs: &(SlabRegion, SlabRegion),
) -> Result<bool, AllocError> {
    fence(alloc)?;
    let are_regions = are_grids(&grids.0, &grids.1) && are_slabs(&slabs.0, &slabs.1);
    fence(alloc)?;
    Ok(are_regions)
}

#[test]
fn no_growths_of_regions(rt: HostRuntime) -> Result<(), Fail> {
    let alloc = rt.alloc();
    let few = stairs(alloc, 30)?;
    let more = stairs(alloc, 31)?;
    assert!(rt;
        are_regions(
            alloc,
            &grids(alloc, &few, &more)?,
            &slabs(alloc, &few, &more)?
        )?
    );
    Ok(())
}
