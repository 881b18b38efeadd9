//! Stretches of indexes: which multiples of a step are between two numbers.
ghost use Rattle.std.specs.Prelude.{◌≡◌, ◌<◌, ◌≤◌, ◌-◌, ◌*◌, ◌^◌, ◌≤ℤ◌, ◌*ℤ◌, ℕ, min, pos, unsigned_abs};
ghost use Rattle.lvl_witness.specs.inside.Stretches.{IsInStretch};

/// The indexes from `first` up to `last`, both included. There are none if `last` is less.
#[derive(Clone, Copy, Debug)]
pub(crate) struct Stretch {
    pub first: u64,
    pub last: u64,
}

impl Stretch {
    const ALL: Stretch = Stretch {
        first: 0,
        last: u64::MAX,
    };

    const NONE: Stretch = Stretch { first: 1, last: 0 };

    /// The indexes of both.
    pub(crate) fn common(self, other: Stretch) -> Stretch
        ensures { (k : ℕ) → IsInStretch self k → IsInStretch other k → IsInStretch result k }
    {
        Stretch {
            first: self.first.max(other.first),
            last: self.last.min(other.last),
        }
    }
}

/// The number, or the greatest of 64 bits if it is more.
fn capped(number: u128) -> u64
    ensures { result ≡ min number (2 ^ 64 - 1) }
{
    u64::try_from(number).unwrap_or(u64::MAX)
}

/// The least index whose product with the step is at least `low`.
fn least_index(step: u128, low: i128) -> u128
    requires step { 0 < step }
    requires low { unsigned_abs low ≤ 2 ^ 80 }
    ensures { (k : ℕ) → low ≤ℤ pos (k * step) → result ≤ k }
{
    if low <= 0 {
        return 0;
    }
    (low.unsigned_abs() - 1) / step + 1
}

/// The greatest index whose product with the step is at most `high`, which isn't negative.
fn greatest_index(step: u128, high: i128) -> u128
    requires step { 0 < step }
    requires high { pos 0 ≤ℤ high }
    ensures { (k : ℕ) → pos (k * step) ≤ℤ high → k ≤ result }
{
    high.unsigned_abs() / step
}

/// The indexes whose products with the step are at least `low` and at most `high`.
fn products(step: u64, low: i128, high: i128) -> Stretch
    requires { unsigned_abs low ≤ 2 ^ 80 }
    ensures { (k : ℕ) → k < 2 ^ 64 → low ≤ℤ pos (k * step) → pos (k * step) ≤ℤ high → IsInStretch result k }
{
    if high < 0 {
        return Stretch::NONE;
    }
    if step == 0 {
        return if low > 0 { Stretch::NONE } else { Stretch::ALL };
    }
    let step = u128::from(step);
    Stretch {
        first: capped(least_index(step, low)),
        last: capped(greatest_index(step, high)),
    }
}

/// The indexes whose multiples of the step are at least `low` and at most `high`.
pub(crate) fn multiples(step: i64, low: i128, high: i128) -> Stretch
    requires low { unsigned_abs low ≤ 2 ^ 80 }
    requires high { unsigned_abs high ≤ 2 ^ 80 }
    ensures { (k : ℕ) → k < 2 ^ 64 → low ≤ℤ (pos k *ℤ step) → (pos k *ℤ step) ≤ℤ high → IsInStretch result k }
{
    if step < 0 {
        return products(step.unsigned_abs(), -high, -low);
    }
    products(step.unsigned_abs(), low, high)
}
