//! Bands: consecutive rows with the same intervals.

/// The rows from `y0` up to `y1`, which is excluded, and the intervals that are covered in each of
/// them. An interval goes from its first abscissa up to its second, which is excluded. All numbers
/// are in grid steps.
#[derive(Debug, Drop, PartialEq, Eq)]
pub struct Band {
    pub y0: i64,
    pub y1: i64,
    pub intervals: Vec<(i64, i64)>,
}
