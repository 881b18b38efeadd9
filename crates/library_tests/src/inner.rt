//! Calls that may give up by their contracts, and don't here: another top of a library, and equal parts of rings; and
//! the reach of shifts, which is exact.
use crate::words::{cut, holds, is_text, point, points_of, ring_of, rows_hold};
use lvl_cells::{Builder, Checked, MovedRing, Reference, Shapes, check};
use lvl_flat::Fitted;
use lvl_grid::{Point, Ring, Turn};
use lvl_names::{Layer, Name, Offsets};
use std::alloc::{AllocError, Global};
use std::test::Fail;

const METAL: Layer = Layer {
    layer: 1,
    datatype: 0,
};

const ORIGIN: Point = Point { x: 0, y: 0 };

fn add_placing(alloc: Global, cells: &mut Builder, name: &str) -> Result<(), Fail> {
    let name = Name::of(alloc, name.as_bytes())?;
    let placing = Reference::new(name, false, Turn::R0, ORIGIN, Offsets::single());
    cells.add_reference(placing.ok_or("places")?)?;
    Ok(())
}

/// Adds a cell that places the cells of these words.
fn add_cell(alloc: Global, cells: &mut Builder, name: &[u8], placed: &str) -> Result<(), Fail> {
    cells.open(alloc, name)?;
    for word in placed.split_whitespace() {
        add_placing(alloc, cells, word)?;
    }
    cells.close(alloc).map_err(Fail::from)
}

/// D is placed by A and B, and B by A.
fn three_cells(alloc: Global) -> Result<Checked, Fail> {
    let mut cells = Builder::new(alloc);
    add_cell(alloc, &mut cells, b"D", "")?;
    add_cell(alloc, &mut cells, b"A", "B D")?;
    add_cell(alloc, &mut cells, b"B", "D")?;
    check(alloc, cells.finish(), None).map_err(Fail::from)
}

/// Whether a library with the cell `top` as its top places its cells this often.
fn are_placed(
    rooted: Result<Option<Checked>, AllocError>,
    top: usize,
    times: &[u64],
) -> Result<bool, Fail> {
    match rooted? {
        Some(rooted) => Ok(
            rooted.top() == top
                && rooted.times() == times
                && rooted.order() == [1, 2, 0].as_slice(),
        ),
        None => Ok(false),
    }
}

/// Whether the three cells have any of them as their top, and no fourth.
fn are_rooted(alloc: Global, checked: &Checked) -> Result<bool, Fail> {
    Ok(
        are_placed(checked.rooted(alloc, 0), 0, &[1, 0, 0])?
            && are_placed(checked.rooted(alloc, 1), 1, &[2, 1, 1])?
            && are_placed(checked.rooted(alloc, 2), 2, &[1, 0, 1])?
            && checked.rooted(alloc, 3)?.is_none(),
    )
}

/// Whether the first of three cells can be the top where all coordinates fit, and a fourth can't.
fn is_rooted(alloc: Global, fitted: &Fitted) -> Result<bool, Fail> {
    Ok(fitted.rooted(alloc, 0)?.is_some() && fitted.rooted(alloc, 3)?.is_none())
}

#[test]
fn another_top(rt: HostRuntime) -> Result<(), Fail> {
    let alloc = rt.alloc();
    holds(are_rooted(alloc, &three_cells(alloc)?))?;
    let fitted = Fitted::new(alloc, three_cells(alloc)?)?;
    holds(is_rooted(alloc, &fitted))
}

/// The shifts of a lattice, as `1,0*3 0,1*2`, or of a list.
fn shifts(alloc: Global, text: &str) -> Result<Offsets, Fail> {
    if !text.contains("*") {
        return Ok(Offsets::new(points_of(alloc, text)?).ok_or("a list")?);
    }
    let (across, up) = cut(text, " ");
    let (a, m) = cut(across, "*");
    let (b, n) = cut(up, "*");
    let lattice = Offsets::lattice(point(a)?, m.parse::<u64>()?, point(b)?, n.parse::<u64>()?);
    Ok(lattice.ok_or("a lattice")?)
}

fn reach(alloc: Global, shifts: &Offsets) -> Result<String, Fail> {
    let (low, high) = shifts.reach();
    Ok(format!(in alloc; "{},{} {},{}", low.x, low.y, high.x, high.y)?)
}

/// Shifts, and their least and greatest coordinates.
const REACHES: &str = "\
1,0*1 0,1*1 | 0,0 0,0
3,1*4 2,5*3 | 0,0 13,13
-3,1*4 2,-5*3 | -9,-10 4,3
-3,-1*4 -2,-5*3 | -13,-13 0,0
0,0 5,-2 -1,7 | -1,-2 5,7
";

/// Whether the shifts of a row reach as far as it says, before and after they are shared.
fn row_reaches(alloc: Global, row: &str) -> Result<bool, Fail> {
    let (text, want) = cut(row, " | ");
    let mut shifts = shifts(alloc, text)?;
    let is_owned = is_text(reach(alloc, &shifts), want)?;
    shifts.share()?;
    Ok(is_owned && is_text(reach(alloc, &shifts), want)?)
}

#[test]
fn reaches(rt: HostRuntime) -> Result<(), Fail> {
    rows_hold(rt.alloc(), REACHES, row_reaches)
}

/// The corners of an L, and the same from the third corner on, 100 to the right.
const ELL: &str = "0,0 0,3 1,3 1,1 2,1 2,0";

const MOVED: &str = "101,3 101,1 102,1 102,0 100,0 100,3";

fn add_ring(shapes: &mut Shapes, ring: &Ring) -> Result<(), AllocError> {
    shapes.push_ring(METAL, ring.points(), &Offsets::single())
}

/// Two shapes of a ring each.
fn two(alloc: Global) -> Result<Shapes, Fail> {
    let mut shapes = Shapes::new(alloc);
    add_ring(&mut shapes, &ring_of(alloc, ELL)?)?;
    add_ring(&mut shapes, &ring_of(alloc, MOVED)?)?;
    Ok(shapes)
}

/// Parts of the first ring and of the second where it is moved back by 100, by their first indexes and their number of
/// points, and whether they have the same points.
const PARTS: [(usize, usize, usize, bool); 8] = [
    (0, 4, 2, true),
    (2, 0, 4, true),
    (0, 0, 6, false),
    (2, 0, 5, false),
    (0, 4, 3, false),
    (6, 6, 0, true),
    (7, 0, 0, false),
    (usize::MAX, 0, 2, false),
];

/// The index of the first row that isn't answered so, or how many rows there are.
fn first_wrong(ours: &MovedRing<'_>, theirs: &MovedRing<'_>) -> usize {
    for (row, (from, at, count, same)) in PARTS.iter().enumerate() {
        if ours.has_points_of(*from, theirs, *at, *count) != *same {
            return row;
        }
    }
    PARTS.len()
}

#[test]
fn parts_of_a_ring_moved_back(rt: HostRuntime) -> Result<(), Fail> {
    let shapes = two(rt.alloc())?;
    assert!(rt; shapes.len() == 2 && shapes.ring_count(0) == 1 && shapes.ring_count(1) == 1);
    let back = Point { x: -100, y: 0 };
    let theirs = shapes.ring(1, 0).moved_on(back).ok_or("moved back")?;
    assert_eq!(rt; first_wrong(&shapes.ring(0, 0), &theirs), PARTS.len());
    Ok(())
}

#[test]
fn a_ring_moved_to_the_ends_of_the_grid(rt: HostRuntime) -> Result<(), Fail> {
    let shapes = two(rt.alloc())?;
    assert!(rt; shapes.len() == 2 && shapes.ring_count(0) == 1);
    let ring = shapes.ring(0, 0);
    let far = i64::MAX - 2;
    let moved = ring.moved_on(Point { x: far, y: 0 }).ok_or("far")?;
    assert_eq!(rt; moved.get(5), Some(Point { x: i64::MAX, y: 0 }));
    assert!(rt; ring.moved_on(Point { x: far + 1, y: 0 }).is_none());
    assert!(rt; moved.moved_on(Point { x: far, y: 0 }).is_none());
    Ok(())
}
