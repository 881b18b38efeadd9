//! Rings that span a column are joined if their rows overlap or touch.
//!
//! Such a ring is determined by its rows, so a few joined ones can cover what thousands of nested
//! ones do. Rings within the joined ones are left out.
ghost use Rattle.std.specs.Prelude.{◌↔◌, ◌⊎◌, ◌∷◌, [], IsTrue, IfSome, IfOk, OnOk};
ghost use Rattle.lvl_grid.specs.declared.point.Square.{Square as GridSquare};
ghost use Rattle.lvl_grid.specs.Clip.{IsInWindow};
ghost use Rattle.lvl_grid.specs.Winding.{Covers, SomeCovers, IsRing};
ghost use Rattle.lvl_simplify.specs.Spanning.{IsWithinSome};

use crate::rows::rows;
use lvl_grid::{Part, Point, Rings, Window};
use std::alloc::{AllocError, Global};

/// The window of the squares that a ring of four points covers, if it is a rectangle whose first
/// edge is vertical, else None.
fn window_of_four(a: Point, b: Point, c: Point, d: Point) -> Option<Window>
    ensures { IfSome result (λ window. (s : GridSquare) → Covers (a ∷ b ∷ c ∷ d ∷ []) s ↔ IsInWindow window s) }
{
    if a.x != b.x || b.y != c.y || c.x != d.x || d.y != a.y {
        return None;
    }
    Some(Window {
        x0: a.x.min(c.x),
        y0: a.y.min(c.y),
        x1: a.x.max(c.x),
        y1: a.y.max(c.y),
    })
}

/// The window of the squares that a ring covers, if it is a rectangle of four points, else None.
pub fn window_of(ring: &[Point]) -> Option<Window>
    ensures { IfSome result (λ window. (s : GridSquare) → Covers ring.now s ↔ IsInWindow window s) }
{
    let [a, b, c, d] = ring else {
        return None;
    };
    if a.x == b.x {
        return window_of_four(*a, *b, *c, *d);
    }
    window_of_four(*b, *c, *d, *a)
}

/// The least and the greatest abscissa of the rings, or `(i64::MAX, i64::MIN)` if they have no
/// points.
pub fn extent(rings: &Rings) -> (i64, i64) {
    let mut left = i64::MAX;
    let mut right = i64::MIN;
    for point in rings.points() {
        left = left.min(point.x);
        right = right.max(point.x);
    }
    (left, right)
}

/// The window of a ring, if it is a rectangle from the abscissa `left` to `right`, else None.
fn spanned(ring: &[Point], left: i64, right: i64) -> Option<Window>
    ensures { IfSome result (λ window. (s : GridSquare) → Covers ring.now s ↔ IsInWindow window s) }
{
    let [a, _, c, _] = ring else {
        return None;
    };
    if a.x.min(c.x) != left || a.x.max(c.x) != right {
        return None;
    }
    window_of(ring)
}

/// Appends the rows of a ring to `windows` if all its points are at the two borders, else the ring
/// to `rest`.
fn part(
    alloc: Global,
    windows: &mut Vec<Window>,
    rest: &mut Rings,
    ring: &[Point],
    borders: (i64, i64),
) -> Result<(), AllocError>
    requires { IsRing ring.now }
    ensures { OnOk result ((s : GridSquare)
        → (SomeCovers rest.new s ⊎ IsWithinSome windows.new.items s)
        ↔ ((SomeCovers rest.old s ⊎ IsWithinSome windows.old.items s) ⊎ Covers ring.now s)) }
{
    let (left, right) = borders;
    if let Some(window) = spanned(ring, left, right) {
        windows.push(window)?;
        return Ok(());
    }
    if let Some(rows) = rows(alloc, ring, left, right)? {
        windows.extend_from_slice(&rows)?;
        return Ok(());
    }
    rest.push(ring)
}

/// The rows of those rings whose points are all at the least or the greatest abscissa of all rings,
/// and the other rings.
fn parted(alloc: Global, rings: &Rings) -> Result<(Vec<Window>, Rings), AllocError>
    ensures { IfOk result (λ parts. (s : GridSquare)
        → (SomeCovers parts.1 s ⊎ IsWithinSome parts.0.items s) ↔ SomeCovers rings.now s) }
{
    let borders = extent(rings);
    let mut windows = Vec::new(alloc);
    let mut rest = Rings::with_capacity(alloc, rings.points().len(), rings.len())?;
    for i in 0..rings.len() {
        part(alloc, &mut windows, &mut rest, rings.ring(i), borders)?;
    }
    Ok((windows, rest))
}

/// The window that has exactly the squares of both, if they have the same abscissas and the second
/// begins within the rows of the first or where these end, else None.
pub fn join_rows(first: Window, second: Window) -> Option<Window>
    ensures { IfSome result
        (λ window. (s : GridSquare) → IsInWindow window s ↔ (IsInWindow first s ⊎ IsInWindow second s)) }
{
    if second.x0 != first.x0 || second.x1 != first.x1 {
        return None;
    }
    if second.y0 < first.y0 || first.y1 < second.y0 {
        return None;
    }
    Some(Window {
        y1: first.y1.max(second.y1),
        ..first
    })
}

/// Joins a window with the last one if they overlap or touch, else appends it.
fn push_joined(windows: &mut Vec<Window>, next: Window) -> Result<(), AllocError>
    ensures { OnOk result ((s : GridSquare)
        → IsWithinSome windows.new.items s ↔ (IsWithinSome windows.old.items s ⊎ IsInWindow next s)) }
{
    let Some(last) = windows.pop() else {
        windows.push(next)?;
        return Ok(());
    };
    if let Some(window) = join_rows(last, next) {
        windows.push(window)?;
        return Ok(());
    }
    windows.push(last)?;
    windows.push(next)?;
    Ok(())
}

/// The windows, each joined with the one before it if both have the same abscissas and the rows
/// overlap or touch.
pub(crate) fn joined_in_order(alloc: Global, windows: &[Window]) -> Result<Vec<Window>, AllocError>
    ensures { IfOk result (λ joined. (s : GridSquare) → IsWithinSome joined.items s ↔ IsWithinSome windows.now s) }
{
    let mut joined = Vec::new(alloc);
    for window in windows {
        push_joined(&mut joined, *window)?;
    }
    Ok(joined)
}

/// The windows in order from below, joined if their rows overlap or touch.
fn joined_windows(alloc: Global, mut windows: Vec<Window>) -> Result<Vec<Window>, AllocError>
    ensures { IfOk result (λ joined. (s : GridSquare) → IsWithinSome joined.items s ↔ IsWithinSome windows.items s) }
{
    windows.sort_unstable_by_key(|window| window.y0);
    joined_in_order(alloc, &windows)
}

/// Appends the rectangle of a window, if it has squares.
fn push_window(rings: &mut Rings, window: Window) -> Result<(), AllocError>
    ensures { OnOk result ((s : GridSquare)
        → SomeCovers rings.new s ↔ (SomeCovers rings.old s ⊎ IsInWindow window s)) }
{
    let Window { x0, y0, x1, y1 } = window;
    if x1 <= x0 || y1 <= y0 {
        return Ok(());
    }
    rings.push(&[
        Point { x: x0, y: y0 },
        Point { x: x0, y: y1 },
        Point { x: x1, y: y1 },
        Point { x: x1, y: y0 },
    ])
}

/// Appends the rectangles of windows.
pub(crate) fn push_windows(rings: &mut Rings, windows: &[Window]) -> Result<(), AllocError>
    ensures { OnOk result ((s : GridSquare)
        → SomeCovers rings.new s ↔ (SomeCovers rings.old s ⊎ IsWithinSome windows.now s)) }
{
    for window in windows {
        push_window(rings, *window)?;
    }
    Ok(())
}

/// Whether all points of a ring are in a window, borders included.
fn is_inside(ring: &[Point], window: Window) -> bool
    ensures { IsTrue result → (s : GridSquare) → Covers ring.now s → IsInWindow window s }
{
    let part = Part::Within(window);
    for point in ring {
        if part.put(*point) != *point {
            return false;
        }
    }
    true
}

/// Whether a ring is in one of the windows. These are apart and in order from below, else `false`
/// says nothing.
fn is_covered(ring: &[Point], windows: &[Window]) -> bool
    ensures { IsTrue result → (s : GridSquare) → Covers ring.now s → IsWithinSome windows.now s }
{
    let Some(point) = ring.first() else {
        return false;
    };
    let after = windows.partition_point(|window| window.y0 <= point.y);
    let Some(last) = after.checked_sub(1) else {
        return false;
    };
    match windows.get(last) {
        Some(window) => is_inside(ring, *window),
        None => false,
    }
}

/// The rings that aren't in one of the windows, with room for a rectangle for each window.
fn uncovered(alloc: Global, rings: &Rings, windows: &[Window]) -> Result<Rings, AllocError>
    ensures { IfOk result (λ rest. (s : GridSquare)
        → (SomeCovers rest s ⊎ IsWithinSome windows.now s)
        ↔ (SomeCovers rings.now s ⊎ IsWithinSome windows.now s)) }
{
    let corners = windows.len().saturating_mul(4);
    let points = rings.points().len().saturating_add(corners);
    let many = rings.len().saturating_add(windows.len());
    let mut rest = Rings::with_capacity(alloc, points, many)?;
    for i in 0..rings.len() {
        let ring = rings.ring(i);
        if !is_covered(ring, windows) {
            rest.push(ring)?;
        }
    }
    Ok(rest)
}

/// How many rings of a list are tried before all are.
const LOOKED_AT: usize = 64;

/// At most [`LOOKED_AT`] rings of a list, evenly spaced.
pub(crate) fn some_of(alloc: Global, rings: &Rings) -> Result<Rings, AllocError> {
    let step = rings.len() / LOOKED_AT + 1;
    let mut some = Rings::new(alloc);
    for i in 0..LOOKED_AT {
        if let Some(ring) = rings.get(i.saturating_mul(step)) {
            some.push(ring)?;
        }
    }
    Ok(some)
}

/// Rings that cover the same squares. Those that span all abscissas are joined, and others within
/// them are left out.
pub(crate) fn joined(alloc: Global, rings: Rings) -> Result<Rings, AllocError>
    ensures { IfOk result (λ joined. (s : GridSquare) → SomeCovers joined s ↔ SomeCovers rings s) }
{
    let some = some_of(alloc, &rings)?;
    if parted(alloc, &some)?.1.len() == some.len() {
        return Ok(rings);
    }
    let (windows, rest) = parted(alloc, &rings)?;
    drop(rings);
    let windows = joined_windows(alloc, windows)?;
    let mut joined = uncovered(alloc, &rest, &windows)?;
    push_windows(&mut joined, &windows)?;
    Ok(joined)
}
