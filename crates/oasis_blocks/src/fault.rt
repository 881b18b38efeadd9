//! Why a block is refused.

use thiserror::Error;

/// A rule that a block breaches when it is unpacked.
#[derive(Clone, Copy, Debug, Drop, PartialEq, Eq, Error)]
pub enum BlockRule {
    /// It has more bytes, unpacked, than are left within the limit (own rule).
    #[error("a block unpacks to too many bytes")]
    TooLong,
    /// The packed bytes are malformed, or end before their stream does.
    #[error("the packed bytes of a block aren't a DEFLATE stream")]
    Deflate,
    /// The packed bytes unpack to another number of bytes than the block says, or some of them come after the end of
    /// their stream.
    #[error("a block has another length than it says")]
    BlockLength,
}
