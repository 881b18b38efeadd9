//! Numbers in the texts of a view.
ghost use Rattle.std.specs.Prelude.{◌↔◌, IsTrue};
ghost use Rattle.lvl_view.specs.Texts.{IsDigits, IsNumber, IsCoordinate, IsOnly};

/// The greatest number of digits of a layer or a datatype (own rule).
const MOST_NUMBER_DIGITS: usize = 10;

/// The greatest number of digits of a coordinate (own rule).
const MOST_COORDINATE_DIGITS: usize = 19;

/// Whether a text is 1 to `most` decimal digits.
fn is_digits(text: &str, most: usize) -> bool
    ensures { IsTrue result ↔ IsDigits most text.now }
{
    !text.is_empty()
        && text.len() <= most
        && text.as_bytes().iter().all(|b| b'0' <= *b && *b <= b'9')
}

/// The number of a layer or a datatype: 1 to 10 decimal digits, below 2^32.
pub(crate) fn number_of(text: &str) -> Option<u32>
    ensures { IsOnly (IsNumber text.now) result }
{
    if !is_digits(text, MOST_NUMBER_DIGITS) {
        return None;
    }
    text.parse::<u32>().ok()
}

/// A coordinate of a window: an optional minus and 1 to 19 decimal digits, within 64 signed bits.
pub(crate) fn coordinate_of(text: &str) -> Option<i64>
    ensures { IsOnly (IsCoordinate text.now) result }
{
    let digits = text.strip_prefix('-').unwrap_or(text);
    if !is_digits(digits, MOST_COORDINATE_DIGITS) {
        return None;
    }
    text.parse::<i64>().ok()
}
