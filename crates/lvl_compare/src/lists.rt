//! What of two tops may cover squares of a window.
ghost use Rattle.std.specs.Prelude.{◌≡◌, IfOk, IfSome, None};
ghost use Rattle.lvl_grid.specs.declared.point.Window.{Window as PlainWindow};
ghost use Rattle.lvl_compare.specs.inside.Lists.{AreBoth};

use crate::pair::Pair;
use crate::sizes::Sizes;
use lvl_flat::Candidates;
use lvl_grid::Window;
use std::alloc::{AllocError, Global};

/// The own shapes and references of two tops that may cover squares of a window.
#[derive(Drop)]
pub(crate) struct Lists {
    pub ours: Candidates,
    pub theirs: Candidates,
}

/// Whether a window has all squares of another.
fn has(window: &Window, other: &Window) -> bool {
    let columns = window.x0 <= other.x0 && other.x1 <= window.x1;
    columns && window.y0 <= other.y0 && other.y1 <= window.y1
}

impl Lists {
    /// All own shapes and references of both tops.
    pub(crate) fn whole(pair: &Pair<'_>) -> Lists
        ensures { (window : PlainWindow) → AreBoth pair.now window result }
    {
        Lists {
            ours: pair.first.candidates(),
            theirs: pair.second.candidates(),
        }
    }

    /// The number of shapes and references.
    fn len(&self) -> usize {
        self.ours.len().saturating_add(self.theirs.len())
    }

    /// Those that may cover squares of the window, and estimates of what they draw there.
    fn narrowed(
        &self,
        alloc: Global,
        pair: &Pair<'_>,
        window: &Window,
    ) -> Result<(Lists, Sizes), AllocError>
        requires { AreBoth pair.now window.now self.now }
        ensures { IfOk result (λ narrowed. AreBoth pair.now window.now narrowed.0) }
    {
        let (ours, our_size) = pair.first.narrowed(alloc, &self.ours, window)?;
        let (theirs, their_size) = pair.second.narrowed(alloc, &self.theirs, window)?;
        let sizes = Sizes {
            ours: our_size,
            theirs: their_size,
        };
        Ok((Lists { ours, theirs }, sizes))
    }

    /// Estimates of what is drawn in the window, by samples of the lists if they are long.
    fn sampled(&self, pair: &Pair<'_>, window: &Window) -> Sizes {
        Sizes {
            ours: pair.first.sampled(&self.ours, window),
            theirs: pair.second.sampled(&self.theirs, window),
        }
    }

    /// Lists for the window that are at least a quarter shorter, or None, and estimates of what is
    /// drawn in the window. So the lists of windows within windows take at most four times what the
    /// first ones take. If the window has all that both draw, none are made.
    pub(crate) fn shortened(
        &self,
        alloc: Global,
        pair: &Pair<'_>,
        window: &Window,
    ) -> Result<(Option<Lists>, Sizes), AllocError>
        requires { AreBoth pair.now window.now self.now }
        ensures { IfOk result (λ shortened. IfSome shortened.0 (AreBoth pair.now window.now)) }
    {
        if has(window, &pair.first.extent()) && has(window, &pair.second.extent()) {
            return Ok((None, self.sampled(pair, window)));
        }
        let (lists, sizes) = self.narrowed(alloc, pair, window)?;
        let len = self.len();
        if lists.len() > len - len / 4 {
            return Ok((None, sizes));
        }
        Ok((Some(lists), sizes))
    }
}

/// The shorter lists if there are any, else the longer ones.
pub(crate) fn shorter<'a>(short: &'a Option<Lists>, long: &'a Lists) -> &'a Lists
    ensures some { IfSome short.now (λ lists. result.now ≡ lists) }
    ensures none { short.now ≡ None → result.now ≡ long.now }
{
    match short {
        Some(lists) => lists,
        None => long,
    }
}
