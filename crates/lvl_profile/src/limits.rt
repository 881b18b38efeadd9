//! How much a file may have.

/// How much a file may have, and how much its top may place (own rules). A file that has more of something is
/// refused, with the fault that names it. What takes memory by its count alone has limits of its own, which no
/// `Limits` lift: the points of a shape, and the places of a repetition that lists them one by one.
#[derive(Clone, Copy, Debug, PartialEq, Eq)]
pub struct Limits {
    /// The greatest number of bytes of a file.
    pub file: u64,
    /// The greatest number of cells of a file.
    pub cells: u64,
    /// The greatest number of chains of references from the top, the empty one included, of the rings that they place,
    /// and of the places of an OASIS repetition that is a lattice (which never has more than 2^60).
    pub placed: u64,
    /// The greatest number of places of an AREF of GDSII.
    pub array: u64,
}

impl Limits {
    /// The limits that hold unless others are asked for.
    pub const STANDARD: Limits = Limits {
        file: 4_294_967_295,
        cells: 1_048_576,
        placed: 16_777_216,
        array: 1_048_576,
    };

    /// The limits for whole chips. An AREF may have as many places as its two numbers can say.
    pub const LARGE: Limits = Limits {
        file: 1 << 60,
        cells: 1 << 24,
        placed: 1 << 60,
        array: 32_767 * 32_767,
    };
}
