//! A thousand made lists of rings, compared in each way, and a thousand squares in a column.
ghost use Rattle.std.specs.Prelude.{◌<◌, ◌^◌, pos, ◌<ℤ◌, ◌≤ℤ◌};

use super::{at, differ_at};
use lvl_grid::{Point, Ring};
use lvl_region::{GridRegion, Side, difference};
use std::alloc::{AllocError, Global};
use std::test::Fail;

fn ring(alloc: Global, outline: &[(i64, i64)]) -> Result<Ring, Fail> {
    let mut points = Vec::with_capacity(alloc, outline.len())?;
    for (x, y) in outline {
        points.push(Point { x: *x, y: *y })?;
    }
    Ring::new(points).map_err(Fail::from)
}

fn rectangle(alloc: Global, xs: (i64, i64), ys: (i64, i64)) -> Result<Ring, AllocError> {
    let low = Point { x: xs.0, y: ys.0 };
    let high = Point { x: xs.1, y: ys.1 };
    Ring::rectangle(alloc, low, high)
}

/// The next of a row of made numbers.
fn next_made(seed: u64) -> u64 {
    seed.wrapping_mul(6_364_136_223_846_793_005)
        .wrapping_add(1_442_695_040_888_963_407)
}

/// A made number below `most`.
fn made(seed: u64, shift: u32, most: u64) -> i64
    requires shift { shift < 64 }
    requires most { 0 < most }
    requires small { most < 2 ^ 16 }
    ensures least { pos 0 ≤ℤ result }
    ensures below { result <ℤ pos most }
{
    ((seed >> shift) % most) as i64
}

/// A made ring near a corner: a rectangle that may be flat or turned over, one that spans all, one
/// that winds twice, or one with a corner taken out.
fn made_ring(alloc: Global, seed: u64, at: i64) -> Result<Ring, Fail> {
    let x = at.wrapping_add(made(seed, 20, 7));
    let y = at.wrapping_add(made(seed, 26, 7));
    let right = x.wrapping_add(made(seed, 32, 5) - 1);
    let top = y.wrapping_add(made(seed, 38, 5) - 1);
    let far = at.wrapping_add(8);
    match made(seed, 44, 8) {
        0 => Ok(rectangle(alloc, (at, far), (y, top))?),
        1 => ring(
            alloc,
            &[
                (x, y),
                (right, y),
                (right, top),
                (x, top),
                (x, y),
                (right, y),
                (right, top),
                (x, top),
            ],
        ),
        2 | 3 => ring(
            alloc,
            &[
                (x, y),
                (far, y),
                (far, top),
                (right, top),
                (right, far),
                (x, far),
            ],
        ),
        _ => Ok(rectangle(alloc, (x, right), (y, top))?),
    }
}

fn made_rings(alloc: Global, start: u64, many: u64, at: i64) -> Result<Vec<Ring>, Fail> {
    let mut rings = Vec::new(alloc);
    let mut seed = start;
    for _ in 0..many {
        seed = next_made(seed);
        rings.push(made_ring(alloc, seed, at)?)?;
    }
    Ok(rings)
}

/// Whether two made lists differ first where their grids do, in each way of comparing them.
fn made_lists_differ(alloc: Global, number: u64, near: i64) -> Result<bool, Fail> {
    let first = made_rings(alloc, number.wrapping_mul(7919), number % 5, near)?;
    let second = made_rings(alloc, number.wrapping_mul(104_729), number % 4, near)?;
    let want = difference::<GridRegion>(alloc, &first, &second)?;
    Ok(differ_at(alloc, &first, &second, want)?)
}

/// Made lists: about 0, and at both ends of the range.
#[test]
fn a_thousand_lists(rt: HostRuntime) -> Result<(), Fail> {
    for n in 0..1000u64 {
        let near = match n % 4 {
            0 => i64::MIN,
            1 => i64::MAX - 20,
            _ => -4,
        };
        assert!(rt; made_lists_differ(rt.alloc(), n, near)?, "{n}");
    }
    Ok(())
}

/// So many squares above each other.
fn column(alloc: Global, many: i64) -> Result<Vec<Ring>, AllocError> {
    let mut rings = Vec::new(alloc);
    for k in 0..many {
        let y = k.wrapping_mul(2);
        rings.push(rectangle(alloc, (0, 1), (y, y.wrapping_add(1)))?)?;
    }
    Ok(rings)
}

#[test]
fn the_last_rectangle_missing(rt: HostRuntime) -> Result<(), Fail> {
    let alloc = rt.alloc();
    let all = column(alloc, 1000)?;
    let most = column(alloc, 999)?;
    let is_found = differ_at(alloc, &all, &most, at(0, 1998, Side::First))?;
    assert!(rt; is_found && differ_at(alloc, &all, &all, None) == Ok(true));
    Ok(())
}
