//! Marks: the corners of rectangles.

/// A corner of a rectangle. If rectangles share no squares, the change at a point of what they
/// cover together is the sum of the changes of their corners there.
#[derive(Clone, Copy)]
pub struct Mark {
    pub x: i64,
    pub y: i64,
    /// Whether it is a lower left or an upper right corner: the change is 1 at these, and -1 at the
    /// others.
    pub is_plus: bool,
}
