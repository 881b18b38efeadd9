//! Witnesses in libraries that place so much that no comparison of them ends: a witness, or that there is none, takes
//! little time.
use lvl_cells::{Builder, Reference, check_with};
use lvl_flat::Fitted;
use lvl_grid::{Point, Ring, Square, Turn};
use lvl_names::{Layer, Name, Offsets};
use lvl_profile::Limits;
use lvl_witness::find_witness;
use std::alloc::{AllocError, Global};
use std::test::Fail;

const METAL: Layer = Layer {
    layer: 1,
    datatype: 0,
};

const ORIGIN: Point = Point { x: 0, y: 0 };

fn name(alloc: Global, number: u32) -> Result<String, AllocError> {
    format!(in alloc; "C{number}")
}

fn add_box(alloc: Global, cells: &mut Builder, low: Point, high: Point) -> Result<(), AllocError> {
    let ring = Ring::rectangle(alloc, low, high)?;
    cells.add_ring(METAL, ring.points(), &Offsets::single())
}

/// Draws two rectangles far apart.
fn add_corners(alloc: Global, cells: &mut Builder) -> Result<(), AllocError> {
    add_box(alloc, cells, ORIGIN, Point { x: 4, y: 2 })?;
    add_box(
        alloc,
        cells,
        Point { x: 96, y: 98 },
        Point { x: 100, y: 100 },
    )
}

/// Places the cell of that number at the shifts.
fn add_places(
    alloc: Global,
    cells: &mut Builder,
    number: u32,
    shifts: Offsets,
) -> Result<(), Fail> {
    let name = Name::of(alloc, name(alloc, number)?.as_bytes())?;
    let placing = Reference::new(name, false, Turn::R0, ORIGIN, shifts).ok_or("places")?;
    cells.add_reference(placing).map_err(Fail::from)
}

/// Adds the cell of that number, which places the one before, or draws two rectangles.
fn add_cell(alloc: Global, cells: &mut Builder, number: u32, shifts: &Offsets) -> Result<(), Fail> {
    cells.open(alloc, name(alloc, number)?.as_bytes())?;
    match number.checked_sub(1) {
        Some(before) => add_places(alloc, cells, before, shifts.clone()?)?,
        None => add_corners(alloc, cells)?,
    }
    cells.close(alloc).map_err(Fail::from)
}

/// A row of cells, each of which places the one before at the shifts.
fn row(alloc: Global, count: u32, shifts: &Offsets) -> Result<Fitted, Fail> {
    let mut cells = Builder::new(alloc);
    for number in 0..count {
        add_cell(alloc, &mut cells, number, shifts)?;
    }
    let limits = Limits {
        placed: 1 << 40,
        ..Limits::STANDARD
    };
    let checked = check_with(alloc, cells.finish(), None, limits)?;
    Fitted::new(alloc, checked).map_err(Fail::from)
}

/// How many steps a witness for the square has, if there is one.
fn steps_at(alloc: Global, fitted: &Fitted, x: i64, y: i64) -> Result<Option<usize>, AllocError> {
    Ok(
        match find_witness(alloc, fitted, &[METAL], Square { x, y })? {
            Some(witness) => Some(witness.steps.len()),
            None => None,
        },
    )
}

/// Two places at one point, and four places a step apart each way.
fn places(apart: i64) -> Result<Offsets, Fail> {
    let (across, up) = (Point { x: apart, y: 0 }, Point { x: 0, y: apart });
    let rows = if apart == 0 { 1 } else { 2 };
    Offsets::lattice(across, 2, up, rows)
        .ok_or("a lattice")
        .map_err(Fail::from)
}

#[test]
fn a_cell_is_searched_once(rt: HostRuntime) -> Result<(), Fail> {
    let alloc = rt.alloc();
    let doubling = row(alloc, 25, &places(0)?)?;
    assert_eq!(rt; steps_at(alloc, &doubling, 50, 50)?, None);
    assert_eq!(rt; steps_at(alloc, &doubling, 99, 99)?, Some(24));
    Ok(())
}

#[test]
fn a_cell_is_searched_once_at_each_square(rt: HostRuntime) -> Result<(), Fail> {
    let alloc = rt.alloc();
    let spread = row(alloc, 20, &places(1)?)?;
    assert_eq!(rt; steps_at(alloc, &spread, 50, 50)?, None);
    assert_eq!(rt; steps_at(alloc, &spread, 99, 99)?, Some(19));
    Ok(())
}

#[test]
fn a_long_chain_is_followed(rt: HostRuntime) -> Result<(), Fail> {
    let alloc = rt.alloc();
    let chain = row(alloc, 1 << 20, &Offsets::single())?;
    assert_eq!(rt; steps_at(alloc, &chain, 3, 1)?, Some(1_048_575));
    assert_eq!(rt; steps_at(alloc, &chain, 50, 50)?, None);
    Ok(())
}
