//! Why a top covers a square: which references lead to which ring that covers it.
//!
//! [`find_witness`] returns a [`Witness`]: a chain of references from the top, each by its index in
//! its cell and at one of its places, and a ring of the cell that it leads to. Whoever follows it
//! in the file finds the ring, placed over the square.
//!
//! Here `fitted` is a library whose top places a cell with one rectangle on the Layer `METAL`:
//!
//! ```
//! use lvl_grid::Square;
//! use lvl_witness::find_witness;
//!
//! let witness = find_witness(alloc, &fitted, &[METAL], Square { x: 3, y: 1 })?.ok_or("none")?;
//! assert_eq!(rt; witness.steps.len(), 1);
//! assert_eq!(rt; witness.ring.shape, 0);
//! ```
#![tactic(auto)]

pub use search::find_witness;
pub use wide::WidePoint;
pub use witness::{PlacedRing, Step, Witness};

mod areas;
mod boxes;
mod frame;
mod known;
mod lattice;
mod places;
mod rings;
mod search;
mod stretch;
mod wide;
mod witness;
