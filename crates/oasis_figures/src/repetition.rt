//! Repetitions of records, and the modal one.
ghost use Rattle.std.specs.Prelude.{◌≡◌, ◌↔◌, IsTrue, All};
ghost use Rattle.lvl_grid.specs.Turn.{FitsPoint, shifted};
ghost use Rattle.std.specs.Option.{option_or};
ghost use Rattle.oasis_figures.specs.Figures.{shifts_by};
ghost use Rattle.oasis_figures.specs.Modal.{listed};
ghost use Rattle.oasis_figures.specs.inside.Repeating.{is_known};

use lvl_grid::Point;
use lvl_names::Offsets;
use oasis_values::Repetition;

/// Whether the shifts of a repetition are known: it has its own, or the modal one is defined, or
/// there is none.
pub(crate) fn is_known(repetition: &Option<Repetition>, modal: &Option<Offsets>) -> bool
    ensures { result ≡ is_known repetition.now modal.now }
{
    match repetition {
        Some(Repetition::Modal) => modal.is_some(),
        _ => true,
    }
}

/// The modal repetition after a record with this repetition.
pub(crate) fn after(repetition: Option<Repetition>, modal: Option<Offsets>) -> Option<Offsets>
    ensures { result ≡ option_or (listed repetition) modal }
{
    match repetition {
        Some(Repetition::New(shifts)) => Some(shifts),
        _ => modal,
    }
}

/// Whether each place of a record at `at` with this repetition fits in 64 bits, if the modal one has these
/// shifts. The position itself does.
pub(crate) fn all_fit_at(
    at: Point,
    repetition: &Option<Repetition>,
    modal: &Option<Offsets>,
) -> bool
    ensures { IsTrue result
        ↔ All (λ e. FitsPoint (shifted at e)) (shifts_by repetition.now (option_or (listed repetition.now) modal.now)) }
{
    match (repetition, modal) {
        (Some(Repetition::New(shifts)), _) | (Some(Repetition::Modal), Some(shifts)) => {
            shifts.all_fit_at(at)
        }
        _ => true,
    }
}
