//! Fractions, compared exactly.
ghost use Rattle.std.specs.Prelude.{◌*◌, ◌<◌, ◌↔◌, IsTrue};

/// Whether `a / b` is greater than `c / d`.
pub(crate) fn is_greater(a: u128, b: u128, c: u128, d: u128) -> bool
    requires first { 0 < b }
    requires second { 0 < d }
    ensures { IsTrue result ↔ (c * b < a * d) }
{
    let whole = a / b;
    let other = c / d;
    if whole != other {
        return other < whole;
    }
    let rest = a % b;
    let left = c % d;
    if rest == 0 || left == 0 {
        return left < rest;
    }
    is_greater(d, left, b, rest)
}
