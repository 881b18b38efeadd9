//! Sinks of corners.
ghost use Rattle.std.specs.Prelude.{◌≡◌, ◌++◌, ◌∷◌, [], List, OnOk};
ghost use Rattle.lvl_corners.specs.declared.corner.Corner.{Corner as GridCorner};
ghost use Rattle.lvl_corners.specs.inside.Sinks.{vec_takes_none, vec_takes_both};

use crate::corner::Corner;
use std::alloc::AllocError;

/// A sink that takes the corners of a set of squares, one at a time.
pub trait CornerSink {
    /// Whether it has taken these corners, in this order, from its first state to its second.
    ghost takes: { Self → Self → List GridCorner → Type 0 };

    /// Takes the next corner. Fails only if out of memory.
    fn take(&mut self, corner: Corner) -> Result<(), AllocError>
        ensures { OnOk result (takes self.old self.new (corner ∷ [])) };

    /// If its state is unchanged, it has taken no corners.
    ghost takes_none: { (s : Self) → takes s s [] };

    /// Two steps, one after the other, take the corners of both.
    ghost takes_both: { (a b c : Self) (ks ls : List GridCorner)
        → takes a b ks → takes b c ls → takes a c (ks ++ ls) };
}

impl CornerSink for Vec<Corner> {
    ghost takes = { λ v w taken. w.items ≡ v.items ++ taken };

    ghost takes_none = { λ v. vec_takes_none v.items };

    ghost takes_both = { λ a b c ks ls. vec_takes_both a.items b.items c.items ks ls };

    fn take(&mut self, corner: Corner) -> Result<(), AllocError> {
        self.push(corner)?;
        Ok(())
    }
}
