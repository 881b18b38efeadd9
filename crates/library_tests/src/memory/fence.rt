//! Where a test begins to take no memory, and where it may again.

use std::alloc::{AllocError, Global};

/// As `.ci/refuse.c` has it.
const FENCE: usize = 1_000_003;

/// The first one begins what takes no memory, the next one ends it, and so on.
pub fn fence(alloc: Global) -> Result<(), AllocError> {
    let mut bytes: Vec<u8> = Vec::with_capacity(alloc, FENCE)?;
    bytes.push(1)?;
    Ok(())
}
