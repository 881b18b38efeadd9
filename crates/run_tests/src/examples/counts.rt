//! What the documentation of `lvl_count` shows, line by line.

use lvl_cells::{Builder, Checked, Reference, check};
use lvl_count::{LayerRings, rings_by_layer};
use lvl_grid::{Point, Ring, Turn};
use lvl_names::{Layer, Name, Offsets};
use std::alloc::{AllocError, Global};
use std::test::Fail;

const METAL: Layer = Layer {
    layer: 1,
    datatype: 0,
};

const ORIGIN: Point = Point { x: 0, y: 0 };

fn add_square(alloc: Global, cells: &mut Builder) -> Result<(), AllocError> {
    let ring = Ring::rectangle(alloc, ORIGIN, Point { x: 1, y: 1 })?;
    cells.open(alloc, b"A")?;
    cells.add_ring(METAL, ring.points(), &Offsets::single())?;
    cells.close(alloc)
}

/// What places the cell at three columns and two rows.
fn placing(alloc: Global) -> Result<Reference, Fail> {
    let (across, up) = (Point { x: 9, y: 0 }, Point { x: 0, y: 9 });
    let shifts = Offsets::lattice(across, 3, up, 2).ok_or("shifts")?;
    let placing = Reference::new(Name::of(alloc, b"A")?, false, Turn::R0, ORIGIN, shifts);
    placing.ok_or("places").map_err(Fail::from)
}

fn placed(alloc: Global) -> Result<Checked, Fail> {
    let mut cells = Builder::new(alloc);
    add_square(alloc, &mut cells)?;
    cells.open(alloc, b"TOP")?;
    cells.add_reference(placing(alloc)?)?;
    cells.close(alloc)?;
    check(alloc, cells.finish(), None).map_err(Fail::from)
}

#[test]
fn counts_of_a_layer(rt: HostRuntime) -> Result<(), Fail> {
    let alloc = rt.alloc();
    let checked = placed(alloc)?;
    let counts = rings_by_layer(alloc, &checked)?;
    let metal = LayerRings {
        layer: METAL,
        rings: 6,
    };
    assert_eq!(rt; counts.as_slice(), [metal].as_slice());
    Ok(())
}
