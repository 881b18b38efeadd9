//! Extensions of paths, as numbers.
ghost use Rattle.std.specs.Prelude.{◌≡◌, Some, pos, option_map};
ghost use Rattle.std.specs.Option.{option_or};
ghost use Rattle.oasis_figures.specs.Modal.{extended};
ghost use Rattle.oasis_figures.specs.inside.Extents.{extent, ends_of, reaches};

use oasis_records::{Ends, Extension};

/// How far a path reaches beyond an end, in grid steps.
#[derive(Clone, Copy)]
pub(crate) enum Extent {
    Beyond(u64),
    Negative,
}

/// The extensions at both ends. Without the field both are modal.
pub(crate) fn ends_of(ends: Option<Ends>) -> Ends
    ensures { result ≡ ends_of ends }
{
    ends.unwrap_or(Ends {
        start: Extension::Modal,
        end: Extension::Modal,
    })
}

/// The extension of a path with this half-width. `modal` is the value of the modal variable; the result is
/// `None` if that is needed and undefined.
pub(crate) fn resolve(extension: Extension, half: u64, modal: Option<u64>) -> Option<Extent>
    ensures { result ≡ option_map extent (option_or (extended (Some half) extension) (option_map pos modal)) }
{
    match extension {
        Extension::Modal => modal.map(Extent::Beyond),
        Extension::Flush => Some(Extent::Beyond(0)),
        Extension::HalfWidth => Some(Extent::Beyond(half)),
        Extension::Explicit(far) => match u64::try_from(far) {
            Ok(far) => Some(Extent::Beyond(far)),
            Err(_) => Some(Extent::Negative),
        },
    }
}

/// How far a path reaches beyond its ends; `None` if an extension is negative.
pub(crate) fn reaches(start: Extent, end: Extent) -> Option<(u64, u64)>
    ensures { result ≡ reaches start end }
{
    match (start, end) {
        (Extent::Beyond(start), Extent::Beyond(end)) => Some((start, end)),
        _ => None,
    }
}
