//! Point lists: a type, a count and that many deltas. Each vertex is the one before it, moved by a
//! delta.
ghost use Rattle.std.specs.Prelude.{◌≡◌, ◌<◌, ◌≤◌, ◌++◌, false, IfSome, vec_len, vec_capacity};
ghost use Rattle.oasis_values.specs.Known.{among};
ghost use Rattle.oasis_values.specs.Ranges.{sum};
ghost use Rattle.oasis_values.specs.PointLists.{list_types, comes_in_pairs, point_count};
ghost use Rattle.oasis_values.specs.PointLists.{along, start_of, walked, implied, if_any};

use crate::fault::ValueFault;
use crate::input::Input;
use lvl_grid::Point;
use lvl_io::Read;
use lvl_refusal::Cause;
use std::alloc::Global;

/// What a point list is for.
#[derive(Clone, Copy, Debug, Drop, PartialEq, Eq)]
pub enum Use {
    /// A closed outline. In types 0 and 1 its last vertex is implied.
    Polygon,
    /// An open path. No vertex is implied.
    Path,
}

/// The types of point lists.
#[derive(Clone, Copy, Drop)]
pub enum ListType {
    /// 1-deltas, along x and along y in turn.
    HorizontalFirst,
    /// 1-deltas, along y and along x in turn.
    VerticalFirst,
    /// 2-deltas.
    Manhattan,
    /// 3-deltas.
    Octangular,
    /// g-deltas.
    AllAngle,
    /// g-deltas, each added to the step before.
    DoubleDelta,
}

/// How far a list was read: the last vertex, the last step, and the axis of the next 1-delta.
#[derive(Clone, Copy, Drop)]
pub struct Walk {
    at: Point,
    by: Point,
    along_x: bool,
}

const ORIGIN: Point = Point { x: 0, y: 0 };

/// The greatest number of deltas of a list (own rule).
const MOST_POINTS: u64 = 65_536;

// The type of a list by its number.
fn list_type(number: u64) -> Option<ListType>
    ensures { result ≡ among 0 list_types number }
{
    match number {
        0 => Some(ListType::HorizontalFirst),
        1 => Some(ListType::VerticalFirst),
        2 => Some(ListType::Manhattan),
        3 => Some(ListType::Octangular),
        4 => Some(ListType::AllAngle),
        5 => Some(ListType::DoubleDelta),
        _ => None,
    }
}

// Whether the last vertex of such a list is implied, so that the number of its deltas is even.
fn comes_in_pairs(purpose: Use, kind: ListType) -> bool
    ensures { result ≡ comes_in_pairs purpose kind }
{
    match (purpose, kind) {
        (Use::Polygon, ListType::HorizontalFirst | ListType::VerticalFirst) => true,
        _ => false,
    }
}

// The count, if such a list may have it.
fn point_count(purpose: Use, kind: ListType, count: u64) -> Option<usize>
    ensures value { result ≡ point_count purpose kind count }
    ensures few { IfSome result (λ n. n ≤ 65536) }
{
    let least = match purpose {
        Use::Polygon => 2,
        Use::Path => 1,
    };
    if count < least || MOST_POINTS < count {
        return None;
    }
    if comes_in_pairs(purpose, kind) && count % 2 != 0 {
        return None;
    }
    Some(count as usize)
}

// The step by a distance along x or along y.
fn along(along_x: bool, far: i64) -> Point
    ensures { result ≡ along along_x far }
{
    if along_x {
        Point { x: far, y: 0 }
    } else {
        Point { x: 0, y: far }
    }
}

// The sum; `None` if it doesn't fit in 64 bits.
fn sum(point: Point, by: Point) -> Option<Point>
    ensures { result ≡ sum point by }
{
    let x = point.x.checked_add(by.x)?;
    let y = point.y.checked_add(by.y)?;
    Some(Point { x, y })
}

// The start of a list.
fn start_of(kind: ListType) -> Walk
    ensures { result ≡ start_of kind }
{
    Walk {
        at: ORIGIN,
        by: ORIGIN,
        along_x: kind == ListType::HorizontalFirst,
    }
}

impl Walk {
    // The walk after a step; `None` if the vertex doesn't fit in 64 bits.
    fn walked(self, by: Point) -> Option<Walk>
        ensures { result ≡ walked self by }
    {
        let at = sum(self.at, by)?;
        Some(Walk {
            at,
            by,
            along_x: !self.along_x,
        })
    }
}

// The vertex that is implied after the last one, if any.
fn implied(purpose: Use, kind: ListType, last: Point) -> Option<Point>
    ensures { result ≡ implied purpose kind last }
{
    match (purpose, kind) {
        (Use::Polygon, ListType::HorizontalFirst) => Some(Point { x: 0, y: last.y }),
        (Use::Polygon, ListType::VerticalFirst) => Some(Point { x: last.x, y: 0 }),
        _ => None,
    }
}

// Adds the implied vertex, if there is one.
fn close(points: &mut Vec<Point>, corner: Option<Point>)
    requires { vec_len points.old < vec_capacity points.old }
    ensures { points.new.items ≡ points.old.items ++ if_any corner }
{
    if let Some(corner) = corner {
        points.push_reserved(corner);
    }
}

impl<R: Read> Input<R> {
    ghost use Rattle.oasis_values.specs.Input.{has_failed};
    ghost use Rattle.oasis_values.specs.Reads.{Reads, Refutes};
    ghost use Rattle.oasis_values.specs.Faults.{as_breach, items};
    ghost use Rattle.oasis_values.specs.PointLists.{IsAlong, IsMore, IsStep, IsNext};
    ghost use Rattle.oasis_values.specs.PointLists.{AreVertices, IsListOf, IsPointList};

    /// The vertices of a point list, as displacements from its start. The first is the start itself, and
    /// the last is the implied vertex if there is one.
    ///
    /// The type and the count are tested before it allocates, and each step and vertex when it is read.
    pub fn point_list(
        &mut self,
        alloc: Global,
        purpose: Use,
    ) -> Result<Vec<Point>, Cause<ValueFault>>
        ensures reads { Reads R.remaining R.read_errors R.lent (IsPointList purpose) self.old self.new (items result) }
        ensures none { Refutes R.remaining (IsPointList purpose) self.old (items result) }
    {
        let number = self.unsigned()?;
        let kind = self.known(list_type(number), ValueFault::PointListType)?;
        self.list_of(alloc, purpose, kind)
    }

    // A list of that type, after the type was read.
    fn list_of(
        &mut self,
        alloc: Global,
        purpose: Use,
        kind: ListType,
    ) -> Result<Vec<Point>, Cause<ValueFault>>
        ensures reads { Reads R.remaining R.read_errors R.lent
            (IsListOf purpose kind) self.old self.new (items result) }
    {
        let number = self.unsigned()?;
        let count = self.known(point_count(purpose, kind, number), ValueFault::PointCount)?;
        self.vertices(alloc, purpose, kind, count)
    }

    // The start, `count` vertices after it, and the implied one if there is one.
    fn vertices(
        &mut self,
        alloc: Global,
        purpose: Use,
        kind: ListType,
        count: usize,
    ) -> Result<Vec<Point>, Cause<ValueFault>>
        requires live { has_failed self.old ≡ false }
        requires few { count ≤ 65536 }
        ensures reads { Reads R.remaining R.read_errors R.lent
            (AreVertices purpose kind count) self.old self.new (items result) }
    {
        let Ok(mut points) = Vec::with_capacity(alloc, count + 2) else {
            self.stop();
            return Err(Cause::OutOfMemory);
        };
        points.push_reserved(ORIGIN);
        let mut walk = start_of(kind);
        for n in 0..count {
            walk = self.next_vertex(kind, walk)?;
            points.push_reserved(walk.at);
        }
        close(&mut points, implied(purpose, kind, walk.at));
        Ok(points)
    }

    // The next vertex.
    fn next_vertex(&mut self, kind: ListType, walk: Walk) -> Result<Walk, ValueFault>
        ensures reads { Reads R.remaining R.read_errors R.lent (IsNext kind walk) self.old self.new (as_breach result) }
    {
        let by = self.step(kind, walk)?;
        self.known(walk.walked(by), ValueFault::OutOfRange)
    }

    // The step to the next vertex.
    fn step(&mut self, kind: ListType, walk: Walk) -> Result<Point, ValueFault>
        ensures reads { Reads R.remaining R.read_errors R.lent (IsStep kind walk) self.old self.new (as_breach result) }
    {
        match kind {
            ListType::HorizontalFirst | ListType::VerticalFirst => self.step_along(walk.along_x),
            ListType::Manhattan => self.two_delta(),
            ListType::Octangular => self.three_delta(),
            ListType::AllAngle => self.g_delta(),
            ListType::DoubleDelta => self.step_more(walk.by),
        }
    }

    // A 1-delta along x or along y.
    fn step_along(&mut self, along_x: bool) -> Result<Point, ValueFault>
        ensures reads { Reads R.remaining R.read_errors R.lent (IsAlong along_x) self.old self.new (as_breach result) }
    {
        let far = self.one_delta()?;
        Ok(along(along_x, far))
    }

    // The sum of the step before and a g-delta.
    fn step_more(&mut self, before: Point) -> Result<Point, ValueFault>
        ensures reads { Reads R.remaining R.read_errors R.lent (IsMore before) self.old self.new (as_breach result) }
    {
        let more = self.g_delta()?;
        self.known(sum(before, more), ValueFault::OutOfRange)
    }
}
