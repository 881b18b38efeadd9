//! What only a call of a library shows: calls that take no memory, and laws of what the program doesn't make by itself.
//!
//! The rows in `tests/` at the top of the repository are run by the program.
#![tactic(auto)]

#[cfg(test)]
mod flattening;
#[cfg(test)]
mod inner;
#[cfg(test)]
mod maps;
#[cfg(test)]
mod memory;
#[cfg(test)]
mod numbers;
#[cfg(test)]
mod offsets;
#[cfg(test)]
mod regions;
#[cfg(test)]
mod values;
#[cfg(test)]
mod views;
#[cfg(test)]
mod witness;
#[cfg(test)]
mod words;
#[cfg(test)]
mod writers;
