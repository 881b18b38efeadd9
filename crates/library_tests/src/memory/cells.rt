//! Lists of shifts, references, checked libraries, flat layouts and views.

use crate::memory::fence::fence;
use lvl_cells::{Builder, Cell, Checked, Library, Reference, References, Shapes, check};
use lvl_flat::{Flat, flatten};
use lvl_grid::{Point, Ring, Turn};
use lvl_names::{Layer, Name, Offsets};
use lvl_view::View;
use std::alloc::Global;
use std::test::Fail;

const ORIGIN: Point = Point { x: 0, y: 0 };

const METAL: Layer = Layer {
    layer: 1,
    datatype: 0,
};

/// The last place of a list of shifts.
fn last_place(shifts: Vec<Point>) -> Option<Point> {
    let list = Offsets::new(shifts)?;
    list.at(list.len().saturating_sub(1))
}

/// A reference that places at a lattice of a million places, if the lattice is right.
fn placed_a_million_times(name: Name) -> Option<Reference> {
    let lattice = Offsets::lattice(Point { x: 2, y: 0 }, 1000, Point { x: 0, y: 3 }, 1000)?;
    let far = lattice.at(999_999)?;
    if lattice.len() != 1_000_000 || far != (Point { x: 1998, y: 2997 }) {
        return None;
    }
    Reference::new(name, true, Turn::R90, ORIGIN, lattice)
}

fn is_kept(reference: &Reference) -> bool {
    let is_placed = reference.turn() == Turn::R90 && reference.at() == ORIGIN;
    let is_named = reference.cell().len() == 25 && reference.shifts().len() == 1_000_000;
    reference.flip() && is_placed && is_named
}

#[test]
fn no_growths_of_lists(rt: HostRuntime) -> Result<(), Fail> {
    let alloc = rt.alloc();
    let shifts = Vec::from_slice(alloc, &[ORIGIN, Point { x: 5, y: 0 }])?;
    fence(alloc)?;
    let last = last_place(shifts);
    fence(alloc)?;
    assert!(rt; last == Some(Point { x: 5, y: 0 }));
    Ok(())
}

#[test]
fn no_growths_of_references(rt: HostRuntime) -> Result<(), Fail> {
    let alloc = rt.alloc();
    let name = Name::new(Vec::from_slice(alloc, b"A CELL WITH A LONGER NAME")?)?;
    fence(alloc)?;
    let is_kept = match placed_a_million_times(name) {
        Some(reference) => is_kept(&reference),
        None => false,
    };
    fence(alloc)?;
    assert!(rt; is_kept);
    Ok(())
}

/// Adds the cell A with the ring.
fn add_a(alloc: Global, builder: &mut Builder, ring: &Ring) -> Result<(), Fail> {
    builder.open(alloc, b"A")?;
    builder.add_ring(METAL, ring.points(), &Offsets::single())?;
    builder.close(alloc)?;
    Ok(())
}

/// Adds the cell TOP, which places A.
fn add_top(alloc: Global, builder: &mut Builder) -> Result<(), Fail> {
    builder.open(alloc, b"TOP")?;
    builder.add_reference(placing_of_a(alloc)?)?;
    builder.close(alloc)?;
    Ok(())
}

/// The cell A with a rectangle, and the cell TOP that places it.
fn library(alloc: Global) -> Result<Library, Fail> {
    let ring = Ring::rectangle(alloc, ORIGIN, Point { x: 4, y: 2 })?;
    let mut builder = Builder::new(alloc);
    add_a(alloc, &mut builder, &ring)?;
    add_top(alloc, &mut builder)?;
    Ok(builder.finish())
}

/// Whether a cell without shapes and references takes no memory, with a name of 15 bytes.
fn is_empty(alloc: Global, name: &[u8]) -> Result<bool, Fail> {
    let cell = Cell {
        name: Name::of(alloc, name)?,
        shapes: Shapes::new(alloc),
        references: References::new(alloc),
    };
    Ok(cell.name.as_bytes() == name && cell.shapes.is_empty() && cell.references.is_empty())
}

#[test]
fn no_growths_of_empty_cells(rt: HostRuntime) -> Result<(), Fail> {
    let alloc = rt.alloc();
    fence(alloc)?;
    let is_empty = is_empty(alloc, b"FIFTEEN_LETTERS")?;
    fence(alloc)?;
    assert!(rt; is_empty);
    Ok(())
}

fn placing_of_a(alloc: Global) -> Result<Reference, Fail> {
    let name = Name::new(Vec::from_slice(alloc, b"A")?)?;
    let placing = Reference::new(name, false, Turn::R0, ORIGIN, Offsets::single());
    Ok(placing.ok_or("a reference")?)
}

/// Whether a checked library, its flat layout and a view answer as they should.
fn are_read(checked: &Checked, flat: &Flat, view: &View) -> bool {
    let is_checked = checked.top() == 1 && checked.cells().len() == 2 && checked.order().len() == 2;
    let is_flat = flat.layer(0) == Some(METAL) && flat.rings(METAL).len() == 1;
    is_checked && is_flat && checked.target(1, 0) == Some(0) && view.window().is_some()
}

/// The answer of `are_read`, between two fences.
fn fenced(alloc: Global, checked: &Checked, flat: &Flat) -> Result<bool, Fail> {
    let view = View::read(alloc, Some("1/0=2/0"), Some("x=0..10,y=0..10"))?;
    fence(alloc)?;
    let are_read = are_read(checked, flat, &view);
    fence(alloc)?;
    Ok(are_read)
}

#[test]
fn no_growths_of_libraries(rt: HostRuntime) -> Result<(), Fail> {
    let alloc = rt.alloc();
    let checked = check(alloc, library(alloc)?, None)?;
    let flat = flatten(alloc, &checked)?;
    assert!(rt; fenced(alloc, &checked, &flat)?);
    Ok(())
}
