//! Lists of indexes in ascending order.
ghost use Rattle.std.specs.Prelude.{◌≡◌, ◌<◌, AllPairs, length, get_or};
ghost use Rattle.std.specs.List.{range_with_len};
ghost use Rattle.lvl_flat.specs.inside.Listed.{IsNext};

use std::marker::Model;

/// How indexes are kept: as all below a number, or one by one.
#[derive(Debug, Drop)]
enum Kept {
    Below(usize),
    These(Vec<u32>),
}

/// Indexes in ascending order. All below a number take no memory, others take 4 bytes each.
#[derive(Debug, Drop)]
pub(crate) struct Indexes {
    kept: Kept,
}

impl Model for Indexes {
    ghost use Rattle.std.specs.Prelude.{List, ℕ, ◌<◌, AllPairs};
    ghost use Rattle.lvl_flat.specs.inside.Listed.{listed};

    ghost Value = { List ℕ };

    ghost view = { λ x. listed x.kept };

    ghost invariant = { λ x. AllPairs (λ a b. a < b) (listed x.kept) };
}

impl Indexes {
    /// All indexes below this number.
    pub(crate) fn below(end: usize) -> Indexes
        ensures { result ≡ range_with_len 0 end }
    {
        Indexes {
            kept: Kept::Below(end),
        }
    }

    /// These indexes.
    pub(crate) fn of(list: Vec<u32>) -> Indexes
        requires { AllPairs (λ a b. a < b) list.items }
        ensures { result ≡ list.items }
    {
        Indexes {
            kept: Kept::These(list),
        }
    }

    /// The number of indexes.
    pub(crate) fn len(&self) -> usize
        ensures value { result ≡ length self.now }
        ensures rising { AllPairs (λ a b. a < b) self.now }
    {
        match &self.kept {
            Kept::Below(end) => *end,
            Kept::These(list) => list.len(),
        }
    }

    /// The index at this place of the list.
    pub(crate) fn at(&self, place: usize) -> usize
        requires { place < length self.now }
        ensures { result ≡ get_or self.now place 0 }
    {
        match &self.kept {
            Kept::Below(_) => place,
            Kept::These(list) => list[place] as usize,
        }
    }

    /// The first index that isn't less than `from`, or the greatest number if there is none. A binary
    /// search.
    pub(crate) fn next(&self, from: usize) -> usize
        ensures { IsNext self.now from result }
    {
        let _ = &self.kept;
        let mut low = 0;
        let mut high = self.len();
        while low < high {
            let middle = low + (high - low) / 2;
            if self.at(middle) < from {
                low = middle + 1;
            } else {
                high = middle;
            }
        }
        if low < self.len() {
            return self.at(low);
        }
        usize::MAX
    }
}
