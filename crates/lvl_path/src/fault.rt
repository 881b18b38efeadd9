//! Why a list of points isn't a path.
use thiserror::Error;

/// Why points and a width aren't a path (own rules). If several apply, the one of lowest number is
/// reported.
#[derive(Clone, Copy, Debug, Drop, PartialEq, Eq, Error)]
pub enum PathFault {
    /// Half the width is 0.
    #[error("a path has a width")]
    NoWidth = 1,
    /// There are fewer than two points.
    #[error("a path has at least two points")]
    FewPoints = 2,
    /// Two consecutive points differ in both coordinates.
    #[error("a step of a path is parallel to an axis")]
    Oblique = 3,
    /// Two consecutive points are equal.
    #[error("two neighbours of a path differ")]
    RepeatedPoint = 4,
    /// A step has the opposite direction of the step before it.
    #[error("a path does not turn back")]
    TurnsBack = 5,
    /// There are two or more runs, and one of them is shorter than half the width.
    #[error("a run of a path is at least half its width long")]
    ShortRun = 6,
    /// A corner of a band is outside 64 signed bits.
    #[error("a corner of a band is outside 64 bits")]
    OutOfRange = 7,
}
