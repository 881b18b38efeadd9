//! Lists of digests: a line for each file, with the digest of its mask and its name.
//!
//! A line is the 64 hexadecimal digits of the mask's SHA-256, two spaces, and the name, as `sha256sum` writes
//! it: in a name a backslash, a line feed and a carriage return are written `\\`, `\n` and `\r`, and the line
//! of such a name begins with a backslash. [`push_line`] writes a line, [`read_list`] reads a list, and
//! [`read_text`] reads the text of one.
//!
//! `text` is a list of two files, `a.gds` and `b.oas`:
//!
//! ```
//! use lvl_list::read_list;
//!
//! let entries = read_list(alloc, &text)?;
//! assert_eq!(rt; entries.len(), 2);
//! assert_eq!(rt; entries[1].name.as_str(), "b.oas");
//! ```
#![tactic(auto)]

pub use entry::{Entry, push_line, push_name};
pub use list::{BadLine, read_list};
pub use text::{TextFault, read_text};

mod entry;
mod escape;
mod line;
mod list;
mod text;
