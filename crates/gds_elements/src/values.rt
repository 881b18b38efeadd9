//! The values that payloads spell.
ghost use Rattle.std.specs.Prelude.{◌≡◌, ◌<◌, ◌≤◌, ◌+◌, ◌*◌, ◌↔◌, IsTrue, IfOk, length, take, drop};
ghost use Rattle.gds_elements.specs.Values.{short, long, bits, point, points, nth, name, IsNarrow};

use lvl_grid::Point;
use std::alloc::{AllocError, Global};

/// A number of two bytes, the highest first, in two's complement (GDSII Stream Format Manual,
/// Release 6).
pub(crate) fn short(payload: &[u8]) -> i16
    requires { length payload.now ≡ 2 }
    ensures { result ≡ short payload.now }
{
    i16::from_be_bytes([payload[0], payload[1]])
}

/// Two bytes as a bit array.
pub(crate) fn bits(payload: &[u8]) -> u16
    requires { length payload.now ≡ 2 }
    ensures { result ≡ bits payload.now }
{
    u16::from_be_bytes([payload[0], payload[1]])
}

/// A number of four bytes, the highest first, in two's complement.
pub(crate) fn long(bytes: &[u8]) -> i32
    requires { length bytes.now ≡ 4 }
    ensures { result ≡ long bytes.now }
{
    i32::from_be_bytes([bytes[0], bytes[1], bytes[2], bytes[3]])
}

/// A point: x and y, of four bytes each.
pub(crate) fn point(bytes: &[u8]) -> Point
    requires { length bytes.now ≡ 8 }
    ensures value { result ≡ point bytes.now }
    ensures narrow { IsNarrow result }
{
    let (x, y) = bytes.split_at(4);
    Point {
        x: i64::from(long(x)),
        y: i64::from(long(y)),
    }
}

/// All points of a payload, of eight bytes each.
pub(crate) fn points(alloc: Global, payload: &[u8]) -> Result<Vec<Point>, AllocError>
    ensures { IfOk result (λ ps. ps.items ≡ points payload.now) }
{
    let mut points = Vec::with_capacity(alloc, payload.len() / 8)?;
    let mut rest = payload;
    for _ in 0..payload.len() / 8 {
        let (first, others) = rest.split_at(8);
        points.push_reserved(point(first));
        rest = others;
    }
    Ok(points)
}

/// The name in a STRNAME or an SNAME, without the zero byte that may pad it.
pub fn name(payload: &[u8]) -> &[u8]
    ensures { result.now ≡ name payload.now }
{
    match payload {
        [name @ .., 0] => name,
        _ => payload,
    }
}

/// How many points a payload has.
pub(crate) fn point_count(payload: &[u8]) -> usize
    ensures count { result ≡ length (points payload.now) }
    ensures bytes { 8 * result ≤ length payload.now }
{
    payload.len() / 8
}

/// The point of a payload at an index from 0.
pub(crate) fn point_at(payload: &[u8], k: usize) -> Point
    requires { 8 * k + 8 ≤ length payload.now }
    ensures value { result ≡ nth (points payload.now) k }
    ensures narrow { IsNarrow result }
{
    let (_, rest) = payload.split_at(8 * k);
    let (first, _) = rest.split_at(8);
    point(first)
}
