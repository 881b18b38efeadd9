//! Which record may come next in an element.
ghost use Rattle.std.specs.Prelude.{◌≡◌, ◌==◌, ◌<◌, if◌then◌else◌};
ghost use Rattle.gds_elements.specs.inside.Misplaced.{IsMisplacement, IsMisplaced};

use crate::fault::{ElementFault, Misplaced};
use gds_records::record_type;
use lvl_refusal::Cause;

/// What a record leads to.
#[derive(Clone, Copy)]
pub(crate) enum Next<P> {
    /// It may come next, and this comes after it.
    Goes(P),
    /// It may come next, and only ENDEL may come after it.
    Ends,
    /// It may not come next.
    Nowhere,
}

/// `next` if the record has the only type that may come, else `Nowhere`.
pub(crate) fn only<P>(kind: u8, wanted: u8, next: Next<P>) -> Next<P>
where
    P: Copy,
    ensures { result ≡ (if kind == wanted then next else Next.Nowhere) }
{
    if kind == wanted { next } else { Next::Nowhere }
}

/// Why a record may not come next: `Unexpected` if its type is one of those that are always read,
/// else `Unsupported`.
pub fn misplaced(kind: u8) -> Misplaced
    ensures { IsMisplacement kind result }
{
    match kind {
        record_type::HEADER
        | record_type::BGNLIB
        | record_type::LIBNAME
        | record_type::UNITS
        | record_type::ENDLIB
        | record_type::BGNSTR
        | record_type::STRNAME
        | record_type::ENDSTR
        | record_type::BOUNDARY
        | record_type::PATH
        | record_type::SREF
        | record_type::AREF
        | record_type::TEXT
        | record_type::LAYER
        | record_type::DATATYPE
        | record_type::WIDTH
        | record_type::XY
        | record_type::ENDEL
        | record_type::SNAME
        | record_type::COLROW
        | record_type::TEXTTYPE
        | record_type::PRESENTATION
        | record_type::STRING
        | record_type::STRANS
        | record_type::MAG
        | record_type::ANGLE
        | record_type::PATHTYPE => Misplaced::Unexpected(kind),
        _ => Misplaced::Unsupported(kind),
    }
}

/// The refusal of a record that may not come next.
pub(crate) fn out_of_order(kind: u8) -> Cause<ElementFault>
    ensures { IsMisplaced kind result }
{
    Cause::Breach(ElementFault::Misplaced(misplaced(kind)))
}
