//! Why a record of an element is refused.
ghost use Rattle.std.specs.Prelude.{◌≡◌};
ghost use Rattle.gds_elements.specs.inside.Misplaced.{breach};

use lvl_path::PathFault;
use lvl_refusal::Cause;
use thiserror::Error;

/// Why a record may not come next.
#[derive(Clone, Copy, Debug, Drop, PartialEq, Eq, Error)]
pub enum Misplaced {
    /// A record of this type is read, but it may not come here.
    #[error("a record is out of order")]
    Unexpected(u8),
    /// A record of this type isn't read.
    #[error("a record of this type isn't read")]
    Unsupported(u8),
}

/// The rules of elements. A rule that is marked as own is this project's.
#[derive(Clone, Copy, Debug, Drop, PartialEq, Eq, Error)]
pub enum ElementRule {
    /// The LAYER or DATATYPE of a shape is negative (own).
    #[error("a layer or datatype is negative")]
    Layer,
    /// The number of points of an XY is wrong: under four in a boundary, under two in a path, not
    /// three in an AREF, or not one in an SREF or a TEXT.
    #[error("an element has a wrong number of points")]
    Points,
    /// A boundary's last point isn't its first.
    #[error("a boundary isn't closed")]
    NotClosed,
    /// A STRANS sets another bit than the one that reflects (own).
    #[error("a cell is transformed in another way than by a reflection")]
    Strans,
    /// A MAG isn't spelled as the real 1 (own).
    #[error("a cell is magnified")]
    Magnification,
    /// An ANGLE isn't spelled as the real 0, 90, 180 or 270, in degrees (own).
    #[error("a cell is turned by another than a right angle")]
    Angle,
    /// An array has less than one column or row.
    #[error("an array has no column or no row")]
    ColRow,
    /// A step of an array isn't a whole number of grid steps.
    #[error("a step of an array isn't whole")]
    ArrayStep,
    /// An SNAME isn't the name of a cell: it is empty, longer than 255 bytes, or has a byte outside 0x21 to
    /// 0x7E (own).
    #[error("invalid cell name")]
    Name,
    /// The points and the width of a path breach a rule of paths (own).
    #[error("invalid path")]
    Path(PathFault),
    /// The WIDTH of a path is missing, odd or not positive (own).
    #[error("missing, odd or non-positive width")]
    Width,
    /// The PATHTYPE of a path is neither 0 nor 2 (own).
    #[error("unsupported path type")]
    PathType,
    /// An edge of a boundary changes both coordinates (own).
    #[error("an edge of a boundary is oblique")]
    Oblique,
    /// An array has more places than the limits allow (own).
    #[error("an array has too many places")]
    Repetition,
}

/// Why a record of an element is refused.
#[derive(Clone, Copy, Debug, Drop, PartialEq, Eq, Error)]
pub enum ElementFault {
    /// It may not come next.
    #[error("a record is out of order or isn't read")]
    Misplaced(Misplaced),
    /// It breaches this rule.
    #[error("a record breaches a rule of its element")]
    Rule(ElementRule),
}

/// The refusal of a record that breaches this rule.
pub(crate) fn breach(rule: ElementRule) -> Cause<ElementFault>
    ensures { result ≡ breach rule }
{
    Cause::Breach(ElementFault::Rule(rule))
}
