//! Lattices and lists of shifts.
//!
//! A lattice is written as its two steps, each with how many places there are along it, as `9,0*3 0,9*2`.
use crate::words::{cut, is_text, point, points_of, rows_hold};
use lvl_grid::Point;
use lvl_names::Offsets;
use std::alloc::{AllocError, Global};
use std::test::Fail;

/// A step, and how many places there are along it.
fn step(word: &str) -> Result<(Point, u64), Fail> {
    let (by, count) = cut(word, "*");
    Ok((point(by)?, count.parse::<u64>()?))
}

/// The lattice of a text, if it is one.
fn lattice(text: &str) -> Result<Option<Offsets>, Fail> {
    let (across, up) = cut(text, " ");
    let (a, m) = step(across)?;
    let (b, n) = step(up)?;
    Ok(Offsets::lattice(a, m, b, n))
}

fn place_text(alloc: Global, place: Option<Point>) -> Result<String, AllocError> {
    match place {
        Some(Point { x, y }) => format!(in alloc; "{x},{y} "),
        None => String::from_str(alloc, "none"),
    }
}

/// Each of the shifts, and what is after the last.
fn places(alloc: Global, shifts: &Offsets) -> Result<String, Fail> {
    let mut text = String::new(alloc);
    for place in 0..=shifts.len() {
        text.push_str(&place_text(alloc, shifts.at(place))?)?;
    }
    Ok(text)
}

/// The shifts of the lattice or the list of a text.
fn places_of(alloc: Global, text: &str) -> Result<String, Fail> {
    let shifts = if text.contains("*") {
        lattice(text)?
    } else {
        Offsets::new(points_of(alloc, text)?)
    };
    match shifts {
        Some(shifts) => places(alloc, &shifts),
        None => Ok(String::from_str(alloc, "no shifts")?),
    }
}

/// A lattice or a list, and its shifts.
const SHIFTS: &str = "\
4611686018427387904,0*2 0,1*3 | \
    0,0 4611686018427387904,0 0,1 4611686018427387904,1 0,2 4611686018427387904,2 none
4611686018427387904,0*3 0,1*1 | no shifts
0,0 1,0 | 0,0 1,0 none
1,0 0,0 | no shifts
";

/// Whether the shifts of a row are those that it says.
fn row_has_shifts(alloc: Global, row: &str) -> Result<bool, Fail> {
    let (text, want) = cut(row, " | ");
    is_text(places_of(alloc, text), want)
}

#[test]
fn shifts(rt: HostRuntime) -> Result<(), Fail> {
    rows_hold(rt.alloc(), SHIFTS, row_has_shifts)?;
    assert!(rt; Offsets::new(Vec::new(rt.alloc())).is_none());
    Ok(())
}

/// Two steps with how many places there are along each, and whether that is a lattice.
const LATTICES: &str = "\
4611686018427387904,0*2 4611686018427387904,0*2 | false
-9223372036854775808,0*2 4611686018427387904,0*3 | false
-9223372036854775808,0*2 4611686018427387904,0*2 | true
1,0*0 0,1*1 | false
1,0*1 0,1*0 | false
1,0*1152921504606846976 0,1*1 | true
1,0*1152921504606846977 0,1*1 | false
1,0*1073741824 0,1*1073741824 | true
1,0*1073741824 0,1*1073741825 | false
0,0*18446744073709551615 0,0*18446744073709551615 | false
";

/// Whether the steps of a row are a lattice where it says so.
fn row_is_lattice(_: Global, row: &str) -> Result<bool, Fail> {
    let (text, want) = cut(row, " | ");
    Ok(lattice(text)?.is_some() == (want == "true"))
}

#[test]
fn lattices(rt: HostRuntime) -> Result<(), Fail> {
    rows_hold(rt.alloc(), LATTICES, row_is_lattice)
}
