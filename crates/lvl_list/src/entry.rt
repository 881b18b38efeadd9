//! A line of a list, and how it is written.
ghost use Rattle.std.specs.Prelude.{◌≡◌, ◌++◌, OnOk};
ghost use Rattle.std.specs.List.{list_any};
ghost use Rattle.lvl_list.specs.List.{entry_text, escaped, is_special, mark, name_text};

use crate::escape::{escape_of, is_special};
use std::alloc::AllocError;

/// The byte that begins the line of a name with a byte that is escaped.
pub(crate) const MARK: u8 = b'\\';

/// A line of a list: the digest of a file's mask, and the file's name.
#[derive(Debug, Drop, PartialEq, Eq)]
pub struct Entry {
    /// The mask's SHA-256, in 64 hexadecimal digits in lower case.
    pub digits: Vec<u8>,
    /// The name of the file.
    pub name: String,
}

/// Whether a name has a byte that is escaped.
pub(crate) fn has_special(name: &[u8]) -> bool
    ensures { result ≡ list_any is_special name.now }
{
    name.iter().any(|byte| is_special(*byte))
}

/// Appends a backslash if the name has a byte that is escaped.
fn push_mark(text: &mut Vec<u8>, name: &[u8]) -> Result<(), AllocError>
    ensures { OnOk result (text.new.items ≡ text.old.items ++ mark name.now) }
{
    if has_special(name) {
        text.push(MARK)?;
    }
    Ok(())
}

/// Appends the bytes of a name, those that are special escaped.
fn push_escaped(text: &mut Vec<u8>, name: &[u8]) -> Result<(), AllocError>
    ensures { OnOk result (text.new.items ≡ text.old.items ++ escaped name.now) }
{
    for byte in name {
        match escape_of(*byte) {
            Some(escape) => text.extend_from_slice(&escape)?,
            None => text.push(*byte)?,
        }
    }
    Ok(())
}

/// Appends a name as the lines of a list have it: if it has a backslash, a line feed or a carriage return,
/// these are written `\\`, `\n` and `\r`, after a backslash that says so.
pub fn push_name(text: &mut Vec<u8>, name: &[u8]) -> Result<(), AllocError>
    ensures { OnOk result (text.new.items ≡ text.old.items ++ name_text name.now) }
{
    push_mark(text, name)?;
    push_escaped(text, name)
}

/// Appends the line of a file: the digits of its digest, two spaces, and its name. If the name is written with
/// escapes, the line begins with a backslash.
pub fn push_line(text: &mut Vec<u8>, digits: &[u8], name: &[u8]) -> Result<(), AllocError>
    ensures { OnOk result (text.new.items ≡ text.old.items ++ entry_text digits.now name.now) }
{
    push_mark(text, name)?;
    text.extend_from_slice(digits)?;
    text.extend_from_slice(b"  ")?;
    push_escaped(text, name)?;
    text.push(b'\n')?;
    Ok(())
}
