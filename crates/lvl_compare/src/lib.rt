//! Comparison of two layouts: of flat ones Layer by Layer, and of libraries strip by strip.
//!
//! [`first_difference`] finds the first square that only one of two flat layouts covers, and
//! [`first_difference_within`] the first in a window. [`difference_by_strips`] finds the first that
//! only one of two libraries draws, without flattening them as a whole,
//! [`difference_in_windows`] the first in some windows, and [`difference_on_layers`] the first
//! there on some Layers.
//!
//! Here `wide` and `narrow` are checked libraries whose tops draw rectangles of 4 by 2 and of 3 by
//! 2 squares:
//!
//! ```
//! use lvl_compare::first_difference;
//! use lvl_flat::flatten;
//! use lvl_grid::Square;
//! use lvl_region::Side;
//!
//! let first = flatten(alloc, &wide)?;
//! let second = flatten(alloc, &narrow)?;
//! let found = first_difference(alloc, &first, &second)?;
//! assert_eq!(rt; found, Some((METAL, Square { x: 3, y: 0 }, Side::First)));
//! ```
#![tactic(auto)]

pub use flats::{first_difference, first_difference_within, lesser, past};
pub use listed::difference_on_layers;
pub use pair::Pair;
pub use regions::difference_with;
pub use together::hull_of;
pub use windows::{difference_by_strips, difference_in_windows};

mod flats;
mod groups;
mod listed;
mod lists;
mod pace;
mod pair;
mod regions;
mod sizes;
mod strips;
mod together;
mod windows;
