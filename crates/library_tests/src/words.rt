//! The words of rows of tables.
use lvl_grid::{Point, Ring};
use std::alloc::Global;
use std::test::Fail;

/// What is before the mark, and what is after it.
pub(crate) fn cut<'a>(text: &'a str, mark: &str) -> (&'a str, &'a str) {
    text.split_once(mark).unwrap_or((text, ""))
}

/// The point of a word, as `3,-1`.
pub(crate) fn point(word: &str) -> Result<Point, Fail> {
    let (x, y) = cut(word, ",");
    Ok(Point {
        x: x.parse::<i64>()?,
        y: y.parse::<i64>()?,
    })
}

/// The points of a text such as `0,0 4,0 4,4`.
pub(crate) fn points_of(alloc: Global, text: &str) -> Result<Vec<Point>, Fail> {
    let mut points = Vec::new(alloc);
    for word in text.split_whitespace() {
        points.push(point(word)?)?;
    }
    Ok(points)
}

pub(crate) fn ring_of(alloc: Global, corners: &str) -> Result<Ring, Fail> {
    let points = points_of(alloc, corners)?;
    Ring::new(points).map_err(Fail::from)
}

/// Appends the ring of these corners, if there are any.
fn push_ring(alloc: Global, rings: &mut Vec<Ring>, corners: &str) -> Result<(), Fail> {
    if !corners.is_empty() {
        rings.push(ring_of(alloc, corners)?)?;
    }
    Ok(())
}

/// The rings of a text, by their corners, with a semicolon between two.
pub(crate) fn rings_of(alloc: Global, text: &str) -> Result<Vec<Ring>, Fail> {
    let mut rings = Vec::new(alloc);
    for ring in text.split(';') {
        push_ring(alloc, &mut rings, ring.trim())?;
    }
    Ok(rings)
}

/// Fails unless this holds.
pub(crate) fn holds(given: Result<bool, Fail>) -> Result<(), Fail> {
    if given? {
        Ok(())
    } else {
        Err("it does not hold".into())
    }
}

/// Fails at the first row of the table that doesn't hold.
pub(crate) fn rows_hold(
    alloc: Global,
    rows: &str,
    row_holds: fn(Global, &str) -> Result<bool, Fail>,
) -> Result<(), Fail>
    requires { IsAlwaysCallable row_holds }
{
    for row in rows.lines() {
        if !row_holds(alloc, row)? {
            return Err(Fail::new(row));
        }
    }
    Ok(())
}

/// Whether this text was made.
pub(crate) fn is_text(made: Result<String, Fail>, want: &str) -> Result<bool, Fail> {
    Ok(made?.as_str() == want)
}
