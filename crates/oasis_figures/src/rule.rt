//! Why a record of a cell is refused.
ghost use Rattle.std.specs.Prelude.{◌≡◌};

use crate::variable::Variable;
use lvl_path::PathFault;
use lvl_refusal::Cause;
use thiserror::Error;

/// The rules of figures and placements. They are tested in this order.
#[derive(Clone, Copy, Debug, Drop, PartialEq, Eq, Error)]
pub enum FigureRule {
    /// A field isn't in the record, and its modal variable is undefined (SEMI P39, "Modal variables").
    #[error("a modal variable is undefined")]
    Undefined(Variable),
    /// A layer or datatype is 2^32 or more (own rule).
    #[error("a layer or datatype is 2^32 or more")]
    Layer,
    /// A position, a vertex or a place doesn't fit in 64 signed bits (own rule).
    #[error("a position, a vertex or a place is outside 64 bits")]
    OutOfRange,
    /// A magnification isn't 1, by a real of type 0, 2 or 4 (own rule).
    #[error("a cell is magnified")]
    Magnification,
    /// An angle isn't 0, 90, 180 or 270 degrees, by a real of type 0, 2 or 4 (own rule).
    #[error("a cell is turned by another than a right angle")]
    Angle,
    /// An extension of a path is negative (own rule).
    #[error("an extension of a path is negative")]
    Extension,
    /// An edge of a polygon changes both coordinates (own rule).
    #[error("an edge of a polygon is oblique")]
    Oblique,
    /// The points, the half-width and the extensions of a path breach a rule of paths (own rule).
    #[error("invalid path")]
    Path(PathFault),
}

impl From<FigureRule> for Cause<FigureRule> {
    ghost use Rattle.lvl_refusal.specs.declared.Cause.TheVariants.{Breach};

    ghost from_gives = { λ f e. e ≡ Breach f };

    fn from(rule: FigureRule) -> Cause<FigureRule> {
        Cause::Breach(rule)
    }
}
