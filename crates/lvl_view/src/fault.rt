//! Why the texts of a view are refused.
use lvl_names::Layer;
use thiserror::Error;

/// Why the texts of a view are refused (own rules). If several apply, the first in this order is
/// reported.
#[derive(Clone, Copy, Debug, Drop, PartialEq, Eq, Error)]
pub enum ViewFault {
    /// The text of the map isn't one or more pairs `L/D=L/D` joined by commas.
    #[error("MapText")]
    MapText,
    /// The text of the window isn't `x=A..B,y=C..D`.
    #[error("WindowText")]
    WindowText,
    /// Two pairs of the map have the same source: the first source that an earlier pair has.
    #[error("MapTwice")]
    MapTwice(Layer),
    /// The window has no squares: `x0 >= x1` or `y0 >= y1`.
    #[error("EmptyWindow")]
    EmptyWindow,
}
