//! What the documentation of the crates shows, line by line.

use lvl_cells::{Builder, Checked, check};
use lvl_compare::first_difference;
use lvl_flat::flatten;
use lvl_grid::{Point, Ring, Square};
use lvl_names::{Layer, Offsets};
use lvl_region::Side;
use lvl_view::View;
use std::alloc::{AllocError, Global};
use std::test::Fail;

const METAL: Layer = Layer {
    layer: 1,
    datatype: 0,
};

/// Two libraries that are compared.
#[derive(Drop)]
struct Pair {
    first: Checked,
    second: Checked,
}

/// Adds a cell, which draws a rectangle.
fn draw(alloc: Global, builder: &mut Builder, name: &[u8], high: Point) -> Result<(), AllocError> {
    let ring = Ring::rectangle(alloc, Point { x: 0, y: 0 }, high)?;
    builder.open(alloc, name)?;
    builder.add_ring(METAL, ring.points(), &Offsets::single())?;
    builder.close(alloc)
}

/// A library with one cell, which draws a rectangle.
fn checked(alloc: Global, name: &[u8], high: Point) -> Result<Checked, Fail> {
    let mut builder = Builder::new(alloc);
    draw(alloc, &mut builder, name, high)?;
    Ok(check(alloc, builder.finish(), None)?)
}

/// A library with a rectangle, and one with a rectangle narrower by one.
fn wide_and_narrow(alloc: Global) -> Result<Pair, Fail> {
    let first = checked(alloc, b"TOP", Point { x: 4, y: 2 })?;
    let second = checked(alloc, b"MASK", Point { x: 3, y: 2 })?;
    Ok(Pair { first, second })
}

#[test]
fn shifts(rt: HostRuntime) -> Result<(), Fail> {
    let across = Point { x: 10, y: 0 };
    let up = Point { x: 0, y: 20 };
    let shifts = Offsets::lattice(across, 4, up, 3).ok_or("out of range")?;
    assert_eq!(rt; shifts.len(), 12);
    assert_eq!(rt; shifts.at(5), Some(Point { x: 10, y: 20 }));
    assert!(rt; shifts.all_fit_at(Point { x: -5, y: -5 }));
    Ok(())
}

#[test]
fn libraries(rt: HostRuntime) -> Result<(), Fail> {
    let alloc = rt.alloc();
    let ring = Ring::rectangle(alloc, Point { x: 0, y: 0 }, Point { x: 4, y: 2 })?;
    let mut builder = Builder::new(alloc);
    builder.open(alloc, b"TOP")?;
    builder.add_ring(METAL, ring.points(), &Offsets::single())?;
    builder.close(alloc)?;
    let checked = check(alloc, builder.finish(), None)?;
    assert_eq!(rt; checked.top(), 0);
    Ok(())
}

#[test]
fn flat_layouts(rt: HostRuntime) -> Result<(), Fail> {
    let alloc = rt.alloc();
    let checked = checked(alloc, b"TOP", Point { x: 4, y: 2 })?;
    let flat = flatten(alloc, &checked)?;
    assert_eq!(rt; flat.len(), 1);
    assert_eq!(rt; flat.layer(0), Some(METAL));
    assert!(rt; flat.rings(METAL).covers(Square { x: 3, y: 1 }));
    Ok(())
}

#[test]
fn differences(rt: HostRuntime) -> Result<(), Fail> {
    let alloc = rt.alloc();
    let pair = wide_and_narrow(alloc)?;
    let (wide, narrow) = (&pair.first, &pair.second);
    let first = flatten(alloc, &wide)?;
    let second = flatten(alloc, &narrow)?;
    let found = first_difference(alloc, &first, &second)?;
    assert_eq!(rt; found, Some((METAL, Square { x: 3, y: 0 }, Side::First)));
    Ok(())
}

#[test]
fn views(rt: HostRuntime) -> Result<(), Fail> {
    let alloc = rt.alloc();
    let view = View::read(alloc, Some("1/0=2/0"), Some("x=-5..20,y=0..9"))?;
    assert_eq!(rt; view.target(METAL).layer, 2);
    assert_eq!(rt; view.window().map(|window| window.x1), Some(20));
    Ok(())
}
