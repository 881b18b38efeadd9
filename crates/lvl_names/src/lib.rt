//! Layers, names of cells, and shifts: the values that cells and the records of both formats share.
//!
//! Each shape is on a [`Layer`], a layer and a datatype. A [`Name`] is the name by which a cell is
//! referred to, and [`is_name`] says which bytes are one. [`Offsets`] are the shifts at which a
//! shape or a cell is repeated. A lattice of shifts is kept by its steps and counts, and clones can
//! share a list of shifts.
//!
//! ```
//! use lvl_grid::Point;
//! use lvl_names::Offsets;
//!
//! let across = Point { x: 10, y: 0 };
//! let up = Point { x: 0, y: 20 };
//! let shifts = Offsets::lattice(across, 4, up, 3).ok_or("out of range")?;
//! assert_eq!(rt; shifts.len(), 12);
//! assert_eq!(rt; shifts.at(5), Some(Point { x: 10, y: 20 }));
//! assert!(rt; shifts.all_fit_at(Point { x: -5, y: -5 }));
//! ```
#![tactic(auto)]

pub use layer::{Layer, comes_before, in_order};
pub use name::{MOST_NAME_BYTES, Name, is_name};
pub use offsets::Offsets;

mod bounded;
mod layer;
mod name;
mod offsets;
