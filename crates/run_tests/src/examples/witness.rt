//! What the documentation of the crates of witnesses and of changes shows, line by line.

use lvl_cells::{Builder, Reference, check};
use lvl_changed::{changed, difference_by_changes};
use lvl_flat::Fitted;
use lvl_grid::{Point, Ring, Square, Turn};
use lvl_names::{Layer, Name, Offsets};
use lvl_region::Side;
use lvl_view::View;
use lvl_why::explain;
use lvl_witness::find_witness;
use std::alloc::{AllocError, Global};
use std::process::Abort;
use std::test::Fail;

const METAL: Layer = Layer {
    layer: 1,
    datatype: 0,
};

fn add_box(alloc: Global, cells: &mut Builder, low: Point, high: Point) -> Result<(), AllocError> {
    let ring = Ring::rectangle(alloc, low, high)?;
    cells.add_ring(METAL, ring.points(), &Offsets::single())
}

/// Places the cell LEAF this often, ten steps apart.
fn add_places(alloc: Global, cells: &mut Builder, count: u64) -> Result<(), Fail> {
    let (across, none) = (Point { x: 10, y: 0 }, Point { x: 0, y: 0 });
    let shifts = Offsets::lattice(across, count, none, 1).ok_or("shifts")?;
    let name = Name::of(alloc, b"LEAF")?;
    let placing = Reference::new(name, false, Turn::R0, none, shifts).ok_or("places")?;
    cells.add_reference(placing).map_err(Fail::from)
}

/// A library whose top places a cell with one rectangle this often, and perhaps draws a square at (3, 0).
fn library(alloc: Global, high: Point, count: u64, is_edited: bool) -> Result<Fitted, Fail> {
    let mut cells = Builder::new(alloc);
    cells.open(alloc, b"LEAF")?;
    add_box(alloc, &mut cells, Point { x: 0, y: 0 }, high)?;
    cells.close(alloc)?;
    cells.open(alloc, b"TOP")?;
    add_places(alloc, &mut cells, count)?;
    if is_edited {
        add_box(
            alloc,
            &mut cells,
            Point { x: 3, y: 0 },
            Point { x: 4, y: 1 },
        )?;
    }
    cells.close(alloc)?;
    Fitted::new(alloc, check(alloc, cells.finish(), None)?).map_err(Fail::from)
}

#[test]
fn a_ring_is_found(rt: HostRuntime) -> Result<(), Fail> {
    let alloc = rt.alloc();
    let fitted = library(alloc, Point { x: 4, y: 2 }, 1, false)?;
    let witness = find_witness(alloc, &fitted, &[METAL], Square { x: 3, y: 1 })?.ok_or("none")?;
    assert_eq!(rt; witness.steps.len(), 1);
    assert_eq!(rt; witness.ring.shape, 0);
    Ok(())
}

#[test]
fn a_ring_is_found_with_names(rt: HostRuntime) -> Result<(), Fail> {
    let alloc = rt.alloc();
    let fitted = library(alloc, Point { x: 4, y: 2 }, 1, false)?;
    let why = explain(alloc, &fitted, &[METAL], Square { x: 3, y: 1 })?.ok_or("none")?;
    assert_eq!(rt; why.top.as_slice(), b"TOP".as_slice());
    assert_eq!(rt; why.steps.len(), 1);
    Ok(())
}

fn check_changes(
    rt: &impl Abort,
    alloc: Global,
    kept: &Fitted,
    edited: &Fitted,
) -> Result<(), Fail> {
    let view = View::whole(alloc);
    let changes = changed(alloc, &kept, &edited, &view)?.ok_or("windows")?;
    assert_eq!(rt; changes.windows.len(), 1);
    let layers = changes.layers.ok_or("layers")?;
    assert_eq!(rt; layers.as_slice(), [METAL].as_slice());
    let found = difference_by_changes(alloc, &kept, &edited, &view, 1 << 20)?;
    assert_eq!(rt; found, Some((METAL, Square { x: 3, y: 0 }, Side::Second)));
    Ok(())
}

#[test]
fn changes(rt: HostRuntime) -> Result<(), Fail> {
    let alloc = rt.alloc();
    let kept = library(alloc, Point { x: 2, y: 1 }, 1000, false)?;
    let edited = library(alloc, Point { x: 2, y: 1 }, 1000, true)?;
    check_changes(&rt, alloc, &kept, &edited)
}
