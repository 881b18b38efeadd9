//! Why a top covers a square, with the names that its file has.
//!
//! [`explain`] finds a witness for the square and adds the names of the cells that it leads through.
//!
//! Here `fitted` is a library whose top places a cell with one rectangle on the Layer `METAL`:
//!
//! ```
//! use lvl_grid::Square;
//! use lvl_why::explain;
//!
//! let why = explain(alloc, &fitted, &[METAL], Square { x: 3, y: 1 })?.ok_or("none")?;
//! assert_eq!(rt; why.top.as_slice(), b"TOP".as_slice());
//! assert_eq!(rt; why.steps.len(), 1);
//! ```
#![tactic(auto)]

pub use finding::explain;
pub use why::{NamedStep, Why};

mod finding;
mod why;
