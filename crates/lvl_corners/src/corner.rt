//! Corners of a set of squares.

/// A point at which the outline of a set of squares turns, in grid steps (own rule).
///
/// What a ring covers is between its points, so the corners of what rings cover are points of 64
/// bits like these.
#[derive(Clone, Copy, Debug, PartialEq, Eq)]
pub struct Corner {
    pub x: i64,
    pub y: i64,
    /// Of the four squares around the point, the number of covered ones at its upper right and
    /// lower left, less the number of covered ones at its upper left and lower right: -2, -1, 1 or
    /// 2.
    pub change: i8,
}
