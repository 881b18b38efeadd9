//! What only a call of a library shows: promised calls that the program doesn't make, whole runs over files in memory whose
//! readers and writers fail, and examples of the documentation.
//!
//! The rows in `tests/` at the top of the repository are run by the program.
#![tactic(auto)]

#[cfg(test)]
mod calls;
#[cfg(test)]
mod examples;
#[cfg(test)]
mod gds_bytes;
#[cfg(test)]
mod runs;
