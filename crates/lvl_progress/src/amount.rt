//! How much of a file was read.
ghost use Rattle.std.specs.Prelude.{◌≡◌};
ghost use Rattle.lvl_progress.specs.Amounts.{amount_of as shown_amount};

/// How much was read, as it is shown.
#[derive(Clone, Copy, Debug, PartialEq, Eq)]
pub enum Amount {
    /// Whole percents of the size of a file.
    Percent(u64),
    /// Whole megabytes of a file whose size isn't known.
    Megabytes(u64),
}

/// How much of a file of this size was read, in bytes: whole percents, at most 100, or whole
/// megabytes if the size isn't known or is 0 (own rule).
pub fn amount_of(read: u64, size: Option<u64>) -> Amount
    ensures { result ≡ shown_amount read size }
{
    match size {
        Some(size) if size > 0 => {
            let percent = u128::from(read) * 100 / u128::from(size);
            Amount::Percent(percent.min(100) as u64)
        }
        _ => Amount::Megabytes(read / 1_000_000),
    }
}
