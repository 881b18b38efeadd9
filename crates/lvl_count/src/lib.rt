//! How many rings a checked library places on each Layer, counted without placing any.
//!
//! A reference places its cell once for each of its shifts, each time that the cell with the
//! reference is placed. So one pass over the cells, from the top down, finds how often each is
//! placed. [`rings_by_layer`] then adds up the rings of the cells, multiplied by how often each
//! cell is placed. Time and memory depend on the size of the library, and not on how much it
//! places.
//!
//! [`listed_cells`] lists the cells of a library, sound or not, [`top_names`] gives the names of
//! those that could be its top, and [`first_undrawn`] a Layer on which none of them has a shape.
//!
//! Here `checked` is a library whose top places a cell at 3 by 2 places, and that cell draws a
//! square on `METAL`:
//!
//! ```
//! use lvl_count::{LayerRings, rings_by_layer};
//!
//! let counts = rings_by_layer(alloc, &checked)?;
//! let metal = LayerRings {
//!     layer: METAL,
//!     rings: 6,
//! };
//! assert_eq!(rt; counts.as_slice(), [metal].as_slice());
//! ```
#![tactic(auto)]

pub use counts::{LayerRings, rings_by_layer};
pub use drawn::first_undrawn;
pub use listed::{ListedCell, listed_cells, top_names, unreferred_names};

mod counts;
mod drawn;
mod layers;
mod listed;
