//! Reads a line of a list.
ghost use Rattle.std.specs.Prelude.{◌≡◌, ℕ, List, ◌∷◌, Some, IfOk, IfSome, option_map};
ghost use Rattle.std.specs.List.{list_all};
ghost use Rattle.std.specs.String.{string_bytes};
ghost use Rattle.lvl_list.specs.List.{is_digest, is_digit, space};
ghost use Rattle.lvl_list.specs.inside.Read.{IsRead, IsSplit, is_marked, unmarked};

use crate::entry::{Entry, MARK, has_special};
use crate::escape::unescaped;
use std::alloc::{AllocError, Global};

/// The number of hexadecimal digits of a SHA-256.
const DIGITS: usize = 64;

/// Whether a byte is a hexadecimal digit in lower case.
fn is_digit(byte: u8) -> bool
    ensures { result ≡ is_digit byte }
{
    matches!(byte, b'0'..=b'9' | b'a'..=b'f')
}

/// Whether all bytes are such digits.
fn are_digits(text: &[u8]) -> bool
    ensures { result ≡ list_all is_digit text.now }
{
    text.iter().all(|byte| is_digit(*byte))
}

/// Whether a text is the digits of a digest.
fn is_digest(text: &[u8]) -> bool
    ensures { result ≡ is_digest text.now }
{
    text.len() == DIGITS && are_digits(text)
}

/// Whether a line begins with a backslash, and the rest of the line.
fn split_mark(line: &[u8]) -> (bool, &[u8])
    ensures marked { result.0 ≡ is_marked line.now }
    ensures rest { result.1.now ≡ unmarked line.now }
{
    match line {
        [MARK, rest @ ..] => (true, rest),
        _ => (false, line),
    }
}

/// What comes after two spaces, if a text begins with these.
fn after_spaces(text: &[u8]) -> Option<&[u8]>
    ensures spelled { IfSome result (λ rest. text.now ≡ space ∷ space ∷ rest.now) }
    ensures exact { (rest : List ℕ) → text.now ≡ space ∷ space ∷ rest
        → option_map (λ after. after.now) result ≡ Some rest }
{
    match text {
        [b' ', b' ', rest @ ..] => Some(rest),
        _ => None,
    }
}

/// The digits of a digest and what comes after two spaces, if a text has these.
fn split_digits(text: &[u8]) -> Option<(&[u8], &[u8])>
    ensures { IsSplit text.now (option_map (λ parts. (parts.0.now, parts.1.now)) result) }
{
    if text.len() < DIGITS {
        return None;
    }
    let (digits, rest) = text.split_at(DIGITS);
    match after_spaces(rest) {
        Some(name) if is_digest(digits) => Some((digits, name)),
        _ => None,
    }
}

/// The entry whose line this is, without its line feed; `None` if it is the line of no file.
pub(crate) fn read_line(alloc: Global, line: &[u8]) -> Result<Option<Entry>, AllocError>
    ensures { IfOk result (λ entry. IsRead line.now (option_map (λ e. (e.digits.items, string_bytes e.name)) entry)) }
{
    let (is_marked, rest) = split_mark(line);
    let Some((digits, text)) = split_digits(rest) else {
        return Ok(None);
    };
    let Some(name) = unescaped(alloc, text)? else {
        return Ok(None);
    };
    if has_special(&name) != is_marked {
        return Ok(None);
    }
    let Ok(name) = String::from_utf8(name) else {
        return Ok(None);
    };
    let digits = Vec::from_slice(alloc, digits)?;
    Ok(Some(Entry { digits, name }))
}
