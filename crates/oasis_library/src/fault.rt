//! Why no library was read.

use oasis_stream::OasisKind;
use thiserror::Error;

/// Why no library was read.
#[derive(Clone, Copy, Debug, PartialEq, Eq, Error)]
pub enum OasisFault {
    /// A record is missing, malformed, or breaches a rule. The offset, in bytes, is that of the
    /// record, or of the byte after END; 0 in the magic string, and the length of the input if a
    /// record is missing.
    #[error("the file is refused")]
    At {
        offset: u64,
        /// What is wrong there.
        kind: OasisKind,
    },
    /// No CELLNAME has this number. It is the first such number, in the order of the file, that a
    /// CELL or a PLACEMENT uses.
    #[error("no cell name has a number that is used")]
    Unresolved(u64),
}
