//! How far a program is, on one line of a terminal.
//!
//! A [`Watched`] reader shows how much of a file was read, in a line that is written over again and
//! again; an [`Erasing`] writer erases the line before it writes anything. What they read and write is
//! what the reader and the writer inside do.
//!
//! ```
//! use lvl_progress::{After, Meter, Watched};
//! use std::io::Read;
//!
//! let terminal: Vec<u8> = Vec::new(alloc);
//! let meter = Meter::new(alloc, terminal, "mask.gds", Some(4), After::Nothing)?;
//! let bytes: &[u8] = b"mask";
//! let mut reader = Watched::new(bytes, Some(meter));
//! let mut buf = [0; 3];
//! assert_eq!(rt; reader.read(&mut buf).ok(), Some(3));
//! ```
#![tactic(auto)]

pub use amount::{Amount, amount_of};
pub use erasing::{Erasing, erase};
pub use meter::{After, Meter};
pub use watched::Watched;

mod amount;
mod erasing;
mod meter;
mod watched;
