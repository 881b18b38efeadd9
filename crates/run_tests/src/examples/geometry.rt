//! What the documentation of the crates shows, line by line.

use lvl_columns::difference_by_columns;
use lvl_corners::corners_of;
use lvl_grid::{Part, Point, Ring, Rings, Square};
use lvl_path::bands;
use lvl_region::{GridRegion, Side, difference};
use lvl_simplify::simplified;
use lvl_sweep::Sweep;
use std::test::Fail;

#[test]
fn rings_of_the_grid(rt: HostRuntime) -> Result<(), Fail> {
    let alloc = rt.alloc();
    let ring = Ring::rectangle(alloc, Point { x: 0, y: 0 }, Point { x: 4, y: 2 })?;
    let mut clipped = Rings::new(alloc);
    clipped.push_clipped(&Part::Left(3), ring.points())?;
    assert!(rt; ring.covers(Square { x: 3, y: 1 }));
    assert!(rt; clipped.covers(Square { x: 2, y: 1 }));
    assert!(rt; !clipped.covers(Square { x: 3, y: 1 }));
    Ok(())
}

#[test]
fn regions(rt: HostRuntime) -> Result<(), Fail> {
    let alloc = rt.alloc();
    let wide = Ring::rectangle(alloc, Point { x: 0, y: 0 }, Point { x: 4, y: 2 })?;
    let narrow = Ring::rectangle(alloc, Point { x: 0, y: 0 }, Point { x: 3, y: 2 })?;
    let first = vec![in alloc; wide]?;
    let second = vec![in alloc; narrow]?;
    let found = difference::<GridRegion>(alloc, &first, &second)?;
    assert_eq!(rt; found, Some((Square { x: 3, y: 0 }, Side::First)));
    Ok(())
}

#[test]
fn bands_of_a_sweep(rt: HostRuntime) -> Result<(), Fail> {
    let alloc = rt.alloc();
    let mut rings = Rings::new(alloc);
    rings.push_ring(&Ring::rectangle(alloc, Point { x: 0, y: 0 }, Point { x: 4, y: 2 })?)?;
    let mut sweep = Sweep::new(alloc, &rings)?;
    assert_eq!(rt; sweep.band().map(|band| (band.y0, band.y1)), Some((0, 2)));
    sweep.advance();
    assert!(rt; sweep.band().is_none());
    Ok(())
}

#[test]
fn rings_made_simpler(rt: HostRuntime) -> Result<(), Fail> {
    let alloc = rt.alloc();
    let mut rings = Rings::new(alloc);
    rings.push_ring(&Ring::rectangle(alloc, Point { x: 0, y: 0 }, Point { x: 9, y: 2 })?)?;
    rings.push_ring(&Ring::rectangle(alloc, Point { x: 0, y: 1 }, Point { x: 9, y: 5 })?)?;
    assert_eq!(rt; simplified(alloc, rings)?.len(), 1);
    Ok(())
}

#[test]
fn columns(rt: HostRuntime) -> Result<(), Fail> {
    let alloc = rt.alloc();
    let mut first = Rings::new(alloc);
    first.push_ring(&Ring::rectangle(alloc, Point { x: 0, y: 0 }, Point { x: 4, y: 2 })?)?;
    let second = Rings::new(alloc);
    let found = difference_by_columns(alloc, &first, &second)?;
    assert_eq!(rt; found, Some((Square { x: 0, y: 0 }, Side::First)));
    Ok(())
}

#[test]
fn paths(rt: HostRuntime) -> Result<(), Fail> {
    let alloc = rt.alloc();
    let points = [Point { x: 0, y: 0 }, Point { x: 10, y: 0 }];
    let rings = bands(alloc, &points, 2, 0, 3)?;
    assert_eq!(rt; rings.len(), 1);
    assert!(rt; rings[0].covers(Square { x: 12, y: -2 }));
    Ok(())
}

#[test]
fn corners(rt: HostRuntime) -> Result<(), Fail> {
    let alloc = rt.alloc();
    let mut rings = Rings::new(alloc);
    rings.push_ring(&Ring::rectangle(alloc, Point { x: 0, y: 0 }, Point { x: 4, y: 2 })?)?;
    let corners = corners_of(alloc, &rings)?;
    assert_eq!(rt; corners.len(), 4);
    assert_eq!(rt; (corners[3].x, corners[3].y, corners[3].change), (4, 2, 1));
    Ok(())
}
