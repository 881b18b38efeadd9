//! Long rings are redrawn with shorter vertical edges.
//!
//! A ring that goes in and out many times, clipped to a column, runs up and down the right border
//! again and again. Its winding at a square depends only on the vertical edges, and of those at the
//! border only on how many begin and how many end at or below the row of the square.
ghost use Rattle.std.specs.Prelude.{◌≡◌, ◌≢◌, ◌↔◌, ◌++◌, ◌+ℤ◌, ◌≤ℤ◌, ◌<◌, ℤ, pos, All, length, cond, int_le};
ghost use Rattle.std.specs.Prelude.{IsTrue, IfOk, IfSome, OnOk};
ghost use Rattle.lvl_grid.specs.declared.point.Square.{Square as GridSquare};
ghost use Rattle.lvl_grid.specs.Winding.{winding as winding_round, Covers};
ghost use Rattle.lvl_simplify.specs.Rows.{change, turning};
ghost use Rattle.lvl_simplify.specs.Redraw.{NotLeftOf, if_right, winds, winding_by, edges_winding, ends_turning};
ghost use Rattle.lvl_simplify.specs.Redraw.{within, tooth};

use crate::rows::{Turn, push_turns};
use lvl_grid::{Point, Ring};
use std::alloc::{AllocError, Global};

/// A vertical edge at the abscissa `x`, from one ordinate to another.
#[derive(Clone, Copy)]
pub struct Upright {
    pub x: i64,
    pub from: i64,
    pub to: i64,
}

/// The vertical edges of a ring in a column, without those at the left border: the inner ones, and
/// the turns of those at the right border.
#[derive(Drop)]
pub struct Edges {
    pub inner: Vec<Upright>,
    pub turns: Vec<Turn>,
}

/// The ordinates at which edges at the right border begin, and those at which they end.
#[derive(Drop)]
pub struct Ends {
    pub begins: Vec<i64>,
    pub ends: Vec<i64>,
}

/// Appends an edge, unless both ordinates are equal.
fn push_upright(uprights: &mut Vec<Upright>, x: i64, from: i64, to: i64) -> Result<(), AllocError>
    ensures { OnOk result ((s : GridSquare)
        → winding_by s uprights.new.items ≡ winding_by s uprights.old.items +ℤ winds s x from to) }
{
    if from == to {
        return Ok(());
    }
    uprights.push(Upright { x, from, to })?;
    Ok(())
}

impl Edges {
    /// Appends the edge from one point to another, if it is vertical and not at the left border.
    fn push(&mut self, from: Point, to: Point, left: i64, right: i64) -> Result<(), AllocError>
        ensures { OnOk result ((s : GridSquare) → left ≤ℤ s.x → edges_winding s right self.new
            ≡ edges_winding s right self.old +ℤ winds s from.x from.y to.y) }
    {
        if from.x <= left {
            return Ok(());
        }
        if from.x == right {
            return push_turns(&mut self.turns, from, to, right);
        }
        push_upright(&mut self.inner, from.x, from.y, to.y)
    }

    /// The vertical edges of a ring.
    fn of(alloc: Global, ring: &[Point], left: i64, right: i64) -> Result<Edges, AllocError>
        requires { 0 < length ring.now }
        ensures { IfOk result (λ edges. (s : GridSquare) → left ≤ℤ s.x
            → edges_winding s right edges ≡ winding_round ring.now s) }
    {
        let mut edges = Edges {
            inner: Vec::new(alloc),
            turns: Vec::new(alloc),
        };
        let mut previous = ring[ring.len() - 1];
        for point in ring {
            edges.push(previous, *point, left, right)?;
            previous = *point;
        }
        Ok(edges)
    }
}

impl Ends {
    /// Appends the ordinate of a turn.
    fn push(&mut self, turn: Turn) -> Result<(), AllocError>
        ensures { OnOk result ((y : ℤ)
            → ends_turning y self.new ≡ ends_turning y self.old +ℤ cond (int_le turn.y y) (change turn) (pos 0)) }
    {
        if turn.more {
            self.begins.push(turn.y)?;
        } else {
            self.ends.push(turn.y)?;
        }
        Ok(())
    }
}

/// Whether a turn that changes the winding from `windings` to `counted` is kept when windings are
/// capped: both are within the bounds.
fn is_kept(windings: i64, counted: i64, least: i64, most: i64) -> bool
    ensures { IsTrue result ↔ (((least ≤ℤ windings) × (windings ≤ℤ most)) × (least ≤ℤ counted) × (counted ≤ℤ most)) }
{
    least <= windings && windings <= most && least <= counted && counted <= most
}

/// The ends of edges whose winding in each row is that of these turns, clamped to the bounds. None
/// if the turns aren't sorted from below.
fn capped(alloc: Global, turns: &[Turn], least: i64, most: i64) -> Result<Option<Ends>, AllocError>
    requires { (least ≤ℤ pos 0) × (pos 0 ≤ℤ most) }
    ensures { IfOk result (λ capped. IfSome capped (λ ends. (y : ℤ)
        → ends_turning y ends ≡ within least most (turning y turns.now))) }
{
    let mut ends = Ends {
        begins: Vec::new(alloc),
        ends: Vec::new(alloc),
    };
    let mut windings: i64 = 0;
    let mut low = i64::MIN;
    for turn in turns {
        if turn.y < low {
            return Ok(None);
        }
        let Some(counted) = turn.counted(windings) else {
            return Ok(None);
        };
        if is_kept(windings, counted, least, most) {
            ends.push(*turn)?;
        }
        windings = counted;
        low = turn.y;
    }
    Ok(Some(ends))
}

/// Whether no point of a ring is left of the abscissa.
fn is_from(ring: &[Point], left: i64) -> bool
    ensures { IsTrue result → All (NotLeftOf left) ring.now }
{
    for point in ring {
        if point.x < left {
            return false;
        }
    }
    true
}

/// The edges, with those at the right border appended: each goes from a beginning to the end with
/// the same index. None if there aren't as many ends as beginnings.
fn paired(
    mut uprights: Vec<Upright>,
    ends: &Ends,
    right: i64,
) -> Result<Option<Vec<Upright>>, AllocError>
    ensures { IfOk result (λ paired. IfSome paired (λ all. (s : GridSquare)
        → winding_by s all.items ≡ winding_by s uprights.items +ℤ if_right s right (ends_turning s.y ends.now))) }
{
    if ends.begins.len() != ends.ends.len() {
        return Ok(None);
    }
    for i in 0..ends.begins.len() {
        push_upright(&mut uprights, right, ends.begins[i], ends.ends[i])?;
    }
    Ok(Some(uprights))
}

/// Vertical edges with which the same squares are covered, or None if the winding at the border
/// isn't found to be 0 in the end. If the winding in a row by edges at the border is greater than
/// the number of the other edges, the row is covered whatever these do. So that winding is capped
/// at one more than the number of the other edges.
fn least_edges(alloc: Global, edges: Edges, right: i64) -> Result<Option<Vec<Upright>>, AllocError>
    ensures { IfOk result (λ least. IfSome least (λ uprights. (s : GridSquare)
        → (winding_by s uprights.items ≢ pos 0) ↔ (edges_winding s right edges ≢ pos 0))) }
{
    let inner = edges.inner;
    let mut turns = edges.turns;
    let Ok(many) = i64::try_from(inner.len()) else {
        return Ok(None);
    };
    let Some(most) = many.checked_add(1) else {
        return Ok(None);
    };
    let Some(least) = (-1i64).checked_sub(many) else {
        return Ok(None);
    };
    turns.sort_unstable_by_key(|turn| turn.y);
    let Some(ends) = capped(alloc, &turns, least, most)? else {
        return Ok(None);
    };
    paired(inner, &ends, right)
}

/// The points of a ring that has these vertical edges, and others at the left border only: for each
/// edge, a tooth from there.
fn drawn(alloc: Global, uprights: &[Upright], left: i64) -> Result<Vec<Point>, AllocError>
    ensures { IfOk result (λ points. (s : GridSquare) → left ≤ℤ s.x
        → winding_round points.items s ≡ winding_by s uprights.now) }
{
    let mut points = Vec::new(alloc);
    for upright in uprights {
        push_tooth(&mut points, *upright, left)?;
    }
    Ok(points)
}

/// Appends the points of a tooth.
fn push_tooth(points: &mut Vec<Point>, upright: Upright, left: i64) -> Result<(), AllocError>
    ensures { OnOk result (points.new.items ≡ points.old.items ++ tooth left upright) }
{
    let Upright { x, from, to } = upright;
    points.push(Point { x: left, y: from })?;
    points.push(Point { x, y: from })?;
    points.push(Point { x, y: to })?;
    points.push(Point { x: left, y: to })?;
    Ok(())
}

/// A ring that covers the same squares, with shorter edges at the right border. None if the ring
/// isn't right of `left`, or can't be redrawn.
pub(crate) fn redrawn(
    alloc: Global,
    ring: &[Point],
    left: i64,
    right: i64,
) -> Result<Option<Ring>, AllocError>
    ensures { IfOk result (λ redrawn. IfSome redrawn (λ other. (s : GridSquare)
        → Covers ring.now s ↔ Covers other s)) }
{
    if ring.is_empty() || !is_from(ring, left) {
        return Ok(None);
    }
    let Some(uprights) = least_edges(alloc, Edges::of(alloc, ring, left, right)?, right)? else {
        return Ok(None);
    };
    let points = drawn(alloc, &uprights, left)?;
    if !is_from(&points, left) {
        return Ok(None);
    }
    Ok(Ring::new(points).ok())
}
