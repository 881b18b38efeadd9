//! Estimates of how many points are drawn in a window.
ghost use Rattle.std.specs.Prelude.{◌<◌, length};

use crate::bounds::Bounds;
use crate::candidates::Part;
use crate::extents::{Extent, LONG, extent_of_figure};
use lvl_cells::{Checked, Shapes};
use lvl_grid::Window;
use std::alloc::{AllocError, Global};
use std::rc::Rc;

/// About how many points are drawn in a window, and how many in each of its halves. Points that lie
/// in both halves count in both.
#[derive(Clone, Copy, Debug)]
pub struct Estimate {
    /// In the window.
    pub all: u64,
    /// Left of its middle.
    pub left: u64,
    /// Right of its middle.
    pub right: u64,
    /// Below its middle.
    pub low: u64,
    /// Above its middle.
    pub high: u64,
}

/// How far the things reach of which a part of the top consists: all points of one of them count in each window that it
/// meets.
#[derive(Clone, Copy)]
enum Things {
    /// The part is one thing, which has all of its box.
    One,
    /// What is left of the box of the part, since its places reach so far from each other.
    Placed(Extent),
    /// So far, each.
    Spread(Extent),
}

/// A part of the top: the number of its points, and the things that have them.
#[derive(Clone, Copy)]
pub(crate) struct Size {
    points: u64,
    things: Things,
}

/// Sizes of what cells place.
#[derive(Debug, Drop)]
pub(crate) struct Measures {
    /// For each cell, by index, the number of points that it places through all references.
    points: Rc<Vec<u64>>,
}

/// A stretch of one axis.
#[derive(Clone, Copy)]
struct Stretch {
    from: i64,
    to: i64,
}

impl Stretch {
    fn len(self) -> u64 {
        if self.from < self.to {
            return self.from.abs_diff(self.to);
        }
        0
    }

    /// What both have.
    fn shared(self, other: Stretch) -> Stretch {
        Stretch {
            from: self.from.max(other.from),
            to: self.to.min(other.to),
        }
    }

    /// Its two halves.
    fn halves(self) -> (Stretch, Stretch) {
        let middle = self.from.saturating_add_unsigned(self.len() / 2);
        let first = Stretch {
            from: self.from,
            to: middle,
        };
        let second = Stretch {
            from: middle,
            to: self.to,
        };
        (first, second)
    }
}

/// The share of the points of things that are spread evenly over the stretch `whole`, each
/// `each` long, of which those count that meet `part`.
fn share(points: u64, whole: Stretch, each: u64, part: Stretch) -> u64 {
    let shared = whole.shared(part).len();
    if shared == 0 {
        return 0;
    }
    let met = shared.saturating_add(each);
    let length = whole.len();
    if met >= length {
        return points;
    }
    scaled(points, met, length)
}

/// The fraction `part / whole` of a number, or more if the product is outside 64 bits.
fn scaled(number: u64, part: u64, whole: u64) -> u64 {
    match number.checked_mul(part) {
        Some(product) => product.checked_div(whole).unwrap_or(number),
        None => (number / (whole / part.max(1)).max(1)).saturating_add(1),
    }
}

/// The number of points of a shape at one place.
fn points_of_figure(shapes: &Shapes, i: usize) -> u64 {
    if i >= shapes.len() {
        return 0;
    }
    let mut points: u64 = 0;
    for j in 0..shapes.ring_count(i) {
        points = points.saturating_add(shapes.ring(i, j).len() as u64);
    }
    points
}

/// The number of points that a cell places, given those of the cells that it refers to.
fn points_of_cell(checked: &Checked, cell: usize, known: &[u64]) -> u64 {
    let Some(place) = checked.cells().get(cell) else {
        return 0;
    };
    let mut points = points_of_shapes(&place.shapes);
    for j in 0..place.references.len() {
        let Some(target) = checked.target(cell, j) else {
            return points;
        };
        let inner = known.get(target).copied().unwrap_or(0);
        let count = place.references.reference(j).shift_count();
        points = points.saturating_add(inner.saturating_mul(count));
    }
    points
}

/// The number of points of the shapes at all their shifts.
fn points_of_shapes(shapes: &Shapes) -> u64 {
    let mut points: u64 = 0;
    for i in 0..shapes.len() {
        let figure = points_of_figure(shapes, i);
        points = points.saturating_add(figure.saturating_mul(shapes.shift_count(i)));
    }
    points
}

impl Measures {
    /// The sizes of what the cells of a library place.
    pub(crate) fn new(alloc: Global, checked: &Checked) -> Result<Measures, AllocError> {
        let mut points: Vec<u64> = vec![in alloc; 0; checked.cells().len()]?;
        for i in (0..checked.order().len()).rev() {
            let cell = checked.order()[i];
            let placed = points_of_cell(checked, cell, &points);
            if let Some(known) = points.get_mut(cell) {
                *known = placed;
            }
        }
        match Rc::new(alloc, points) {
            Ok(points) => Ok(Measures { points }),
            Err(_) => Err(AllocError),
        }
    }

    /// A handle on these sizes, which aren't copied.
    pub(crate) fn shared(&self) -> Result<Measures, AllocError> {
        let points = self.points.clone()?;
        Ok(Measures { points })
    }

    /// The size of an own shape or of a reference of the top.
    pub(crate) fn of(&self, checked: &Checked, part: Part, index: usize) -> Size {
        match part {
            Part::Shape => size_of_shape(&checked.cell(checked.top()).shapes, index),
            Part::Reference => self.of_reference(checked, index),
        }
    }

    /// The size of a reference of the top: what it places is taken to be spread over all of its box.
    fn of_reference(&self, checked: &Checked, j: usize) -> Size {
        let top = checked.top();
        let target = checked.target(top, j).unwrap_or(usize::MAX);
        let inner = self.points.get(target).copied().unwrap_or(0);
        let places = match checked.cell(top).references.get(j) {
            Some(reference) => reference.shift_count(),
            None => 0,
        };
        Size {
            points: inner.saturating_mul(places),
            things: Things::Spread(Extent::NONE),
        }
    }
}

/// The things of which a shape of so many points consists.
fn things_of_shape(shapes: &Shapes, i: usize, points: u64) -> Things
    requires { i < length shapes.now }
{
    if points >= LONG {
        return Things::Spread(extent_of_figure(shapes, i));
    }
    match shapes.shifts(i) {
        Some(shifts) => {
            let (low, high) = shifts.reach();
            Things::Placed(Extent::between(low, high))
        }
        None => Things::One,
    }
}

/// The size of the shape at index `i`.
fn size_of_shape(shapes: &Shapes, i: usize) -> Size {
    if i >= shapes.len() {
        return Size {
            points: 0,
            things: Things::One,
        };
    }
    let points = points_of_figure(shapes, i);
    Size {
        points: points.saturating_mul(shapes.shift_count(i)),
        things: things_of_shape(shapes, i, points),
    }
}

/// A window, its halves, and an estimate that grows.
#[derive(Clone, Copy)]
pub(crate) struct Count {
    columns: Stretch,
    rows: Stretch,
    left: Stretch,
    right: Stretch,
    low: Stretch,
    high: Stretch,
    so_far: Estimate,
}

impl Count {
    /// No points in the window.
    pub(crate) fn new(window: &Window) -> Count {
        let columns = Stretch {
            from: window.x0,
            to: window.x1,
        };
        let rows = Stretch {
            from: window.y0,
            to: window.y1,
        };
        let (left, right) = columns.halves();
        let (low, high) = rows.halves();
        Count {
            columns,
            rows,
            left,
            right,
            low,
            high,
            so_far: Estimate::none(),
        }
    }

    /// The estimate.
    pub(crate) fn estimate(&self) -> Estimate {
        self.so_far
    }

    /// Adds an estimate a number of times.
    pub(crate) fn add_times(&mut self, some: Estimate, times: u64) {
        self.so_far.add(
            some.all.saturating_mul(times),
            some.left.saturating_mul(times),
            some.right.saturating_mul(times),
            some.low.saturating_mul(times),
            some.high.saturating_mul(times),
        );
    }

    /// Adds what is so large that its box isn't known.
    pub(crate) fn add_unknown(&mut self) {
        self.so_far.add(1, 1, 1, 1, 1);
    }

    /// Adds a part of this size, which is spread over its box and meets the window.
    pub(crate) fn add(&mut self, size: Size, bounds: Bounds) {
        match size.things {
            Things::One => self.add_single(size.points, bounds),
            Things::Spread(each) => self.add_spread(size.points, each, bounds),
            Things::Placed(apart) => {
                let box_of_all = Extent::between(bounds.low, bounds.high);
                let each = Extent {
                    across: box_of_all.across.saturating_sub(apart.across),
                    up: box_of_all.up.saturating_sub(apart.up),
                };
                self.add_spread(size.points, each, bounds);
            }
        }
    }

    /// Adds a part that is one thing.
    fn add_single(&mut self, points: u64, bounds: Bounds) {
        let left = if bounds.low.x < self.left.to {
            points
        } else {
            0
        };
        let right = if bounds.high.x > self.left.to {
            points
        } else {
            0
        };
        let low = if bounds.low.y < self.low.to {
            points
        } else {
            0
        };
        let high = if bounds.high.y > self.low.to {
            points
        } else {
            0
        };
        self.so_far.add(points, left, right, low, high);
    }

    /// Adds the points of things that reach so far, each, and are spread over a box.
    fn add_spread(&mut self, points: u64, each: Extent, bounds: Bounds) {
        let across = Stretch {
            from: bounds.low.x,
            to: bounds.high.x,
        };
        let up = Stretch {
            from: bounds.low.y,
            to: bounds.high.y,
        };
        let in_columns = share(points, across, each.across, self.columns);
        let in_rows = share(points, up, each.up, self.rows);
        self.so_far.add(
            share(in_columns, up, each.up, self.rows),
            share(in_rows, across, each.across, self.left),
            share(in_rows, across, each.across, self.right),
            share(in_columns, up, each.up, self.low),
            share(in_columns, up, each.up, self.high),
        );
    }
}

impl Estimate {
    /// No points.
    fn none() -> Estimate {
        Estimate {
            all: 0,
            left: 0,
            right: 0,
            low: 0,
            high: 0,
        }
    }

    /// Adds these numbers.
    fn add(&mut self, all: u64, left: u64, right: u64, low: u64, high: u64) {
        self.all = self.all.saturating_add(all);
        self.left = self.left.saturating_add(left);
        self.right = self.right.saturating_add(right);
        self.low = self.low.saturating_add(low);
        self.high = self.high.saturating_add(high);
    }
}
