//! Estimates of what two layouts draw in a window, by which it is chosen how the window is cut.
use lvl_flat::Estimate;

/// Estimates of how many points both layouts draw in a window.
#[derive(Clone, Copy)]
pub(crate) struct Sizes {
    pub ours: Estimate,
    pub theirs: Estimate,
}

impl Sizes {
    /// Whether the window is to be drawn as a whole now that its size is known, where more or less was
    /// expected before: if neither side has more points than may be had, or if its halves would have
    /// hardly less.
    pub(crate) fn are_tried(&self, expected: u64, most: usize) -> bool {
        let most = most as u64;
        let fit = self.ours.all.max(self.theirs.all) <= most;
        fit && expected > most || !self.are_halved()
    }

    /// The points of a side in the left and in the right half of the window, or in the lower and in
    /// the upper half.
    pub(crate) fn of_halves(&self, across: bool) -> (u64, u64) {
        if across {
            (
                self.ours.left.max(self.theirs.left),
                self.ours.right.max(self.theirs.right),
            )
        } else {
            (
                self.ours.low.max(self.theirs.low),
                self.ours.high.max(self.theirs.high),
            )
        }
    }

    /// The points of both sides in the window.
    fn all(&self) -> u64 {
        self.ours.all.saturating_add(self.theirs.all)
    }

    /// Those of its left and its right half.
    fn of_columns(&self) -> u64 {
        let ours = self.ours.left.saturating_add(self.ours.right);
        let theirs = self.theirs.left.saturating_add(self.theirs.right);
        ours.saturating_add(theirs)
    }

    /// Those of its lower and its upper half.
    fn of_rows(&self) -> u64 {
        let ours = self.ours.low.saturating_add(self.ours.high);
        let theirs = self.theirs.low.saturating_add(self.theirs.high);
        ours.saturating_add(theirs)
    }

    /// Whether a window is better cut into a left and a right half than into a lower and an upper
    /// one: if few things cross its middle, or more would cross the other one.
    pub(crate) fn is_cut_across(&self) -> bool {
        let all = self.all();
        let columns = self.of_columns();
        columns <= all.saturating_add(all / 4) || columns <= self.of_rows()
    }

    /// Whether halves have much less than the window.
    fn are_halved(&self) -> bool {
        let all = self.all();
        let least = self.of_columns().min(self.of_rows());
        least <= all.saturating_add(all / 2)
    }
}
