//! What a file may be, in one value.

use crate::ignore::Ignore;
use crate::limits::Limits;

/// What a file may be: what of it is read and ignored, how much it may have, and whether it may be compressed.
#[derive(Clone, Copy, Debug, PartialEq, Eq)]
pub struct Profile {
    /// What is ignored.
    pub ignore: Ignore,
    /// How much the file may have.
    pub limits: Limits,
    /// Whether compressed blocks of OASIS are read (SEMI P39, "CBLOCK record"). Otherwise they are refused.
    pub unpack: bool,
}

impl Profile {
    /// Nothing is ignored, within the standard limits, and no compressed block is read.
    pub const STANDARD: Profile = Profile {
        ignore: Ignore::NOTHING,
        limits: Limits::STANDARD,
        unpack: false,
    };
}
