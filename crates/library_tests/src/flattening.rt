//! Libraries flattened as a whole, which the program doesn't do.
use lvl_cells::{Builder, Checked, Reference, check};
use lvl_flat::{Flat, FlatFault, flatten};
use lvl_grid::{Point, Ring, Square, Turn};
use lvl_names::{Layer, Name, Offsets};
use lvl_refusal::Cause;
use lvl_view::View;
use std::alloc::Global;
use std::test::Fail;

const METAL: Layer = Layer {
    layer: 1,
    datatype: 0,
};

const ORIGIN: Point = Point { x: 0, y: 0 };

/// Adds a cell that draws a square of one step.
fn add_square(alloc: Global, builder: &mut Builder, low: Point) -> Result<(), Fail> {
    let high = low.offset(1, 1).ok_or("a corner")?;
    let ring = Ring::rectangle(alloc, low, high)?;
    builder.open(alloc, b"A")?;
    builder.add_ring(METAL, ring.points(), &Offsets::single())?;
    builder.close(alloc).map_err(Fail::from)
}

/// Adds a cell that places another turned about.
fn add_placing(
    alloc: Global,
    builder: &mut Builder,
    name: &[u8],
    placed: &[u8],
    at: Point,
) -> Result<(), Fail> {
    let shifts = Offsets::single();
    let placing = Reference::new(Name::of(alloc, placed)?, false, Turn::R180, at, shifts);
    builder.open(alloc, name)?;
    builder.add_reference(placing.ok_or("places")?)?;
    builder.close(alloc).map_err(Fail::from)
}

/// A square that a cell places turned about, and a top turned back, so far beside.
fn turned_twice(alloc: Global, low: Point, beside: i64) -> Result<Checked, Fail> {
    let mut builder = Builder::new(alloc);
    add_square(alloc, &mut builder, low)?;
    add_placing(alloc, &mut builder, b"M", b"A", Point { x: beside, y: 0 })?;
    add_placing(alloc, &mut builder, b"TOP", b"M", ORIGIN)?;
    check(alloc, builder.finish(), None).map_err(Fail::from)
}

fn flat_of(alloc: Global, low: Point, beside: i64) -> Result<Flat, Fail> {
    let checked = turned_twice(alloc, low, beside)?;
    flatten(alloc, &checked).map_err(Fail::from)
}

/// How many Layers a flat layout has, how many rings on METAL, and whether they cover the square.
fn seen(flat: &Flat, x: i64, y: i64) -> (usize, usize, bool) {
    let rings = flat.rings(METAL);
    (flat.len(), rings.len(), rings.covers(Square { x, y }))
}

/// Run with each allocation refused in turn as well.
#[test]
fn growths_of_flattening(rt: HostRuntime) -> Result<(), Fail> {
    let flat = flat_of(rt.alloc(), Point { x: 3, y: 1 }, 10)?;
    assert_eq!(rt; seen(&flat, -7, 1), (1, 1, true));
    Ok(())
}

/// The cell for which a library is refused.
fn refused_cell(alloc: Global, low: Point, beside: i64) -> Result<Vec<u8>, Fail> {
    match flatten(alloc, &turned_twice(alloc, low, beside)?) {
        Err(Cause::Breach(FlatFault::OutOfRange(name))) => Ok(name),
        _ => Err(Fail::from("not out of range")),
    }
}

#[test]
fn out_of_range(rt: HostRuntime) -> Result<(), Fail> {
    let low = Point { x: i64::MIN, y: 0 };
    let name = refused_cell(rt.alloc(), low, 1)?;
    assert!(rt; name.as_slice() == b"A".as_slice());
    Ok(())
}

/// That flat layout with its Layer as another.
fn mapped(alloc: Global) -> Result<Flat, Fail> {
    let view = View::read(alloc, Some("1/0=2/0"), None)?;
    let flat = flat_of(alloc, ORIGIN, 0)?;
    flat.mapped(alloc, &view).map_err(Fail::from)
}

#[test]
fn growths_of_mapping(rt: HostRuntime) -> Result<(), Fail> {
    let flat = mapped(rt.alloc())?;
    assert_eq!(rt; seen(&flat, 0, 0), (1, 0, false));
    assert_eq!(rt; flat.layer(0).map(|layer| layer.layer), Some(2));
    Ok(())
}
