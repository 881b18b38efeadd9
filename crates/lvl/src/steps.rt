//! Whether the grid steps of two files agree.
ghost use Rattle.std.specs.Prelude.{◌≡◌, false, true, IsTrue, IsNone, IfSome};
ghost use Rattle.lvl.specs.Steps.{AgreeInSteps, DifferInSteps, HasNoStep, IsReadStep};

use crate::layout::Head;
use lvl_units::GridStep;

impl Head {
    /// The length of a step of the file's grid; `None` if it isn't readable.
    pub fn grid_step(&self) -> Option<GridStep>
        ensures value { IfSome result (IsReadStep self.now) }
        ensures none { IsNone result → HasNoStep self.now }
    {
        match self {
            Head::Gds(head) => GridStep::of_gds(head.units[1]),
            Head::Oasis(head) => GridStep::of_oasis(&head.unit),
        }
    }
}

/// Whether the grid steps of two files agree: both are readable, and they aren't further apart than one part in 2^32
/// (own rule).
pub fn agree_in_steps(first: &Head, second: &Head) -> bool
    ensures agree { IsTrue result → AgreeInSteps first.now second.now }
    ensures differ { result ≡ false → DifferInSteps first.now second.now }
{
    match (first.grid_step(), second.grid_step()) {
        (Some(ours), Some(theirs)) => !ours.is_apart(theirs),
        _ => false,
    }
}

/// Whether two files may be compared. `asked` says whether their grid steps must agree.
pub(crate) fn may_compare(asked: bool, first: &Head, second: &Head) -> bool
    ensures unasked { asked ≡ false → result ≡ true }
    ensures agree { IsTrue asked → IsTrue result → AgreeInSteps first.now second.now }
    ensures differ { result ≡ false → DifferInSteps first.now second.now }
{
    !asked || agree_in_steps(first, second)
}
