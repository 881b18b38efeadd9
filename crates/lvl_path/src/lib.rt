//! Paths: the bands that the straight runs of a path cover.
//!
//! A path is a list of points with each step along an axis. Points at which it goes straight on are
//! left out, and what is left are straight runs that meet at right angles. Each run covers a band,
//! a rectangle of squares, and [`bands`] returns these as rings.
//!
//! ```
//! use lvl_grid::{Point, Square};
//! use lvl_path::bands;
//!
//! let points = [Point { x: 0, y: 0 }, Point { x: 10, y: 0 }];
//! let rings = bands(alloc, &points, 2, 0, 3)?;
//! assert_eq!(rt; rings.len(), 1);
//! assert!(rt; rings[0].covers(Square { x: 12, y: -2 }));
//! ```
#![tactic(auto)]

pub use fault::PathFault;
pub use repeats::bands_by;
pub use runs::bands;

mod band;
mod fault;
mod repeats;
mod runs;
mod steps;
mod way;
