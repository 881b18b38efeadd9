//! Maps, and rings placed by them, worked by hand.
use crate::words::ring_of;
use lvl_grid::{Map, PlaceFault, Point, Ring, Square, Turn};
use std::alloc::Global;
use std::test::Fail;

const ORIGIN: Point = Point { x: 0, y: 0 };

/// How many squares of the rows and columns -2 to 9 a ring covers, and the least and the
/// greatest of them.
type Covered = Option<(u32, Square, Square)>;

fn covered(ring: &Ring) -> Covered {
    let mut found: Covered = None;
    for y in -2..10 {
        for x in -2..10 {
            let here = Square { x, y };
            if ring.covers(here) {
                found = match found {
                    None => Some((1, here, here)),
                    Some((n, first, _)) => Some((n.saturating_add(1), first, here)),
                };
            }
        }
    }
    found
}

const FLIP_AND_RISE: Map = Map {
    flip: true,
    turn: Turn::R0,
    at: Point { x: 0, y: 5 },
};

const TURN_AND_GO: Map = Map {
    flip: false,
    turn: Turn::R90,
    at: Point { x: 10, y: 0 },
};

/// What a rectangle of 3 by 1 covers where the map places it.
fn covered_by_placed(alloc: Global, by: &Map) -> Result<Covered, Fail> {
    let rectangle = ring_of(alloc, "0,0 3,0 3,1 0,1")?;
    Ok(covered(&rectangle.placed(alloc, ORIGIN, by)?))
}

/// Both maps, one after the other.
const BOTH: Map = Map {
    flip: true,
    turn: Turn::R270,
    at: Point { x: 10, y: 5 },
};

/// A map after which the other leaves 64 bits.
const FAR: Map = Map {
    flip: false,
    turn: Turn::R0,
    at: Point { x: i64::MAX, y: 0 },
};

/// Whether the maps, one after the other, are the one that is both, and none where they leave 64 bits.
fn are_composed() -> bool {
    FLIP_AND_RISE.then(&TURN_AND_GO) == Some(BOTH)
        && BOTH.place(Point { x: 3, y: 1 }) == Some(Point { x: 9, y: 2 })
        && FAR.then(&TURN_AND_GO).is_none()
}

#[test]
fn map_composition(rt: HostRuntime) {
    assert!(rt; are_composed());
}

#[test]
fn a_map_that_is_composed(rt: HostRuntime) -> Result<(), Fail> {
    let (first, last) = (Square { x: 9, y: 2 }, Square { x: 9, y: 4 });
    assert!(rt; covered_by_placed(rt.alloc(), &BOTH)? == Some((3, first, last)));
    Ok(())
}

/// At the very edge of 64 bits, one column of one square.
const EDGE: &str = "\
-9223372036854775807,0 -9223372036854775808,0 -9223372036854775808,1 -9223372036854775807,1";

/// The ring at the edge where the map places it once it is moved.
fn edge_placed(alloc: Global, shift: Point, by: &Map) -> Result<Ring, Fail> {
    Ok(ring_of(alloc, EDGE)?.placed(alloc, shift, by)?)
}

/// The first point of that ring.
fn first_point(alloc: Global, shift: Point, by: &Map) -> Result<Option<Point>, Fail> {
    let placed = edge_placed(alloc, shift, by)?;
    Ok(placed.points().first().copied())
}

/// Why the map cannot place the ring at the edge.
fn refusal(alloc: Global, by: &Map) -> Result<Option<PlaceFault>, Fail> {
    Ok(ring_of(alloc, EDGE)?.placed(alloc, ORIGIN, by).err())
}

const HALF_TURN: Map = Map {
    flip: false,
    turn: Turn::R180,
    at: Point { x: -1, y: 0 },
};

const LAST: i64 = i64::MAX - 1;

/// Whether the ring begins at the upper end of 64 bits, and covers the last square there alone.
fn is_at_end(ring: &Ring) -> bool {
    ring.points().first().copied() == Some(Point { x: LAST, y: 0 })
        && ring.covers(Square { x: LAST, y: -1 })
        && !ring.covers(Square { x: LAST, y: 0 })
        && !ring.covers(Square { x: LAST - 1, y: -1 })
}

#[test]
fn edge_of_range(rt: HostRuntime) -> Result<(), Fail> {
    assert!(rt; is_at_end(&edge_placed(rt.alloc(), ORIGIN, &HALF_TURN)?));
    Ok(())
}

#[test]
fn past_the_edge_of_range(rt: HostRuntime) -> Result<(), Fail> {
    let at_origin = Map {
        at: ORIGIN,
        ..HALF_TURN
    };
    assert!(rt; refusal(rt.alloc(), &at_origin)? == Some(PlaceFault::OutOfRange));
    Ok(())
}

/// The moved vertices are outside 64 bits, and their images are not.
#[test]
fn there_and_back(rt: HostRuntime) -> Result<(), Fail> {
    let there = Point { x: -1, y: 0 };
    let back = Map {
        flip: false,
        turn: Turn::R0,
        at: Point { x: 1, y: 0 },
    };
    let first = Point {
        x: i64::MIN + 1,
        y: 0,
    };
    assert!(rt; first_point(rt.alloc(), there, &back)? == Some(first));
    Ok(())
}

#[test]
fn growths(rt: HostRuntime) -> Result<(), Fail> {
    let ring = ring_of(rt.alloc(), EDGE)?;
    let result = ring.placed(rt.alloc(), Point { x: 1, y: 0 }, &FLIP_AND_RISE);
    assert!(rt; ring.points().len() == 4);
    assert!(rt; result?.points().len() == 4);
    Ok(())
}
