//! Comparison of two lists of rings, column by column.
//!
//! A sweep passes every edge that is alive at every ordinate at which an edge begins or ends, so
//! for n scattered shapes its cost grows as n to the power 1.5. [`difference_by_columns`] first
//! cuts the grid into columns, clips the rings to them, and sweeps each column by itself. Where to
//! cut and when to stop is a question of cost only: the answer is the same for every choice. Shapes
//! that are wider than a column would be work in all columns that they span, so in each column the
//! rings are simplified first.
//!
//! ```
//! use lvl_columns::difference_by_columns;
//! use lvl_grid::{Point, Ring, Rings, Square};
//! use lvl_region::Side;
//!
//! let mut first = Rings::new(alloc);
//! first.push_ring(&Ring::rectangle(alloc, Point { x: 0, y: 0 }, Point { x: 4, y: 2 })?)?;
//! let second = Rings::new(alloc);
//! let found = difference_by_columns(alloc, &first, &second)?;
//! assert_eq!(rt; found, Some((Square { x: 0, y: 0 }, Side::First)));
//! ```
#![tactic(auto)]

pub use columns::{ColumnComparison, compare_by_columns, difference_by_columns};
pub use cut::cut_at;
pub use window::difference_in;

mod cancel;
mod columns;
mod cut;
mod estimate;
mod folded;
mod halves;
mod keys;
mod passes;
mod sample;
mod slices;
mod table;
mod window;
