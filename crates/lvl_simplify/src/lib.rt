//! Fewer and shorter rings that cover the same squares.
//!
//! Shapes that are wider than a column, clipped to it, span it from side to side, so only their
//! rows count: rectangles whose rows overlap or touch are joined to one. A ring that goes in and
//! out many times runs up and down the borders of the column again and again. Of these edges only
//! the winding in each row counts, so the ring is redrawn with shorter ones.
//!
//! A path that runs on itself again and again draws the same few rectangles thousands of times. In a
//! long list those of the same abscissas are joined, whether they span the column or not.
//!
//! ```
//! use lvl_grid::{Point, Ring, Rings};
//! use lvl_simplify::simplified;
//!
//! let mut rings = Rings::new(alloc);
//! rings.push_ring(&Ring::rectangle(alloc, Point { x: 0, y: 0 }, Point { x: 9, y: 2 })?)?;
//! rings.push_ring(&Ring::rectangle(alloc, Point { x: 0, y: 1 }, Point { x: 9, y: 5 })?)?;
//! assert_eq!(rt; simplified(alloc, rings)?.len(), 1);
//! ```
#![tactic(auto)]

pub use outline::Outline;
pub use simplify::simplified;
pub use spanning::{extent, join_rows, window_of};

mod outline;
mod redraw;
mod rows;
mod simplify;
mod spanning;
mod stacked;
