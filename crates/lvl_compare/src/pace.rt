//! How many points a window may have, and how often windows may be cut.
ghost use Rattle.std.specs.Prelude.{◌≡◌, ◌<◌, IfSome};
ghost use Rattle.lvl_compare.specs.inside.Paces.{cuts_left};

/// How many cuts are made with one budget of points. The budget is then doubled.
const MOST_CUTS: u32 = 256;

/// How often the budget is doubled: then it is any number of points.
const MOST_DOUBLINGS: u32 = 64;

/// How many points the rings of a side may have in a window, and how many more cuts may be made with
/// this number of points.
#[derive(Clone, Copy)]
pub(crate) struct Pace {
    most: usize,
    doublings: u32,
    cuts: u32,
}

impl Pace {
    /// The pace at which a search begins, with this number of points.
    pub(crate) fn new(most: usize) -> Pace
        ensures { cuts_left result ≡ 16640 }
    {
        Pace {
            most: most.max(1),
            doublings: 0,
            cuts: MOST_CUTS,
        }
    }

    /// The number of points that a side may have.
    pub(crate) fn points(self) -> usize {
        let times = 1_usize.checked_shl(self.doublings).unwrap_or(usize::MAX);
        self.most.saturating_mul(times)
    }

    /// The pace after one more cut, or None if no more may be made.
    pub(crate) fn next(self) -> Option<Pace>
        ensures { IfSome result (λ next. cuts_left next < cuts_left self) }
    {
        if self.cuts > 0 {
            return Some(Pace {
                cuts: self.cuts - 1,
                ..self
            });
        }
        if self.doublings >= MOST_DOUBLINGS {
            return None;
        }
        Some(Pace {
            doublings: self.doublings + 1,
            cuts: MOST_CUTS - 1,
            ..self
        })
    }
}
