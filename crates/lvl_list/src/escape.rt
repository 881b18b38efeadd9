//! The bytes of a name, some of them escaped.
ghost use Rattle.std.specs.Prelude.{◌≡◌, ◌≢◌, ◌++◌, ℕ, List, [], ◌∷◌, Some, IfOk, IfSome, MatchOption, option_map};
ghost use Rattle.lvl_list.specs.List.{escaped, escaped_byte, is_special};
ghost use Rattle.lvl_list.specs.inside.Read.{IsNext, IsUnescaped};

use std::alloc::{AllocError, Global};

/// Whether a byte of a name is written in another form: a backslash, a line feed or a carriage return.
pub(crate) fn is_special(byte: u8) -> bool
    ensures { result ≡ is_special byte }
{
    matches!(byte, b'\\' | b'\n' | b'\r')
}

/// What is written for a byte, if it isn't written as it is.
pub(crate) fn escape_of(byte: u8) -> Option<[u8; 2]>
    ensures { MatchOption result (escaped_byte byte ≡ byte ∷ []) (λ escape. escaped_byte byte ≡ escape) }
{
    match byte {
        b'\\' => Some(*b"\\\\"),
        b'\n' => Some(*b"\\n"),
        b'\r' => Some(*b"\\r"),
        _ => None,
    }
}

/// The first byte that a text spells, and the text after it; `None` if it begins with no byte of a name.
fn next_byte(text: &[u8]) -> Option<(u8, &[u8])>
    ensures spelled { IfSome result (λ next. text.now ≡ escaped_byte next.0 ++ next.1.now) }
    ensures exact { (byte : ℕ) (rest : List ℕ) → text.now ≡ escaped_byte byte ++ rest
        → IsNext (option_map (λ next. (next.0, next.1.now)) result) byte rest }
{
    match text {
        [b'\\', b'\\', rest @ ..] => Some((b'\\', rest)),
        [b'\\', b'n', rest @ ..] => Some((b'\n', rest)),
        [b'\\', b'r', rest @ ..] => Some((b'\r', rest)),
        [b'\\' | b'\n' | b'\r', ..] | [] => None,
        [byte, rest @ ..] => Some((*byte, rest)),
    }
}

/// The name that a text spells; `None` if it spells none.
pub(crate) fn unescaped(alloc: Global, text: &[u8]) -> Result<Option<Vec<u8>>, AllocError>
    ensures { IfOk result (λ found. IsUnescaped text.now (option_map (λ name. name.items) found)) }
{
    let mut name = Vec::new(alloc);
    let mut rest = text;
    while !rest.is_empty() {
        let Some((byte, after)) = next_byte(rest) else {
            return Ok(None);
        };
        name.push(byte)?;
        rest = after;
    }
    Ok(Some(name))
}
