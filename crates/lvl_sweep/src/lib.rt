//! The sweep line: the bands of what rings cover, one at a time, from the lowest on.
//!
//! A band is some consecutive rows in which the same intervals are covered; the slab list of rings
//! is the list of their bands. A [`Sweep`] computes it band by band, and allocates only when it is
//! made. [`first_difference_of`] compares two lists of rings by two sweeps in step. [`SlabRegion`]
//! is a region that stores the whole list. `docs/SWEEP.md` says how a sweep keeps its edges, with an example.
//!
//! ```
//! use lvl_grid::{Point, Ring, Rings};
//! use lvl_sweep::Sweep;
//!
//! let mut rings = Rings::new(alloc);
//! rings.push_ring(&Ring::rectangle(alloc, Point { x: 0, y: 0 }, Point { x: 4, y: 2 })?)?;
//! let mut sweep = Sweep::new(alloc, &rings)?;
//! assert_eq!(rt; sweep.band().map(|band| (band.y0, band.y1)), Some((0, 2)));
//! sweep.advance();
//! assert!(rt; sweep.band().is_none());
//! ```
#![tactic(auto)]

pub use band::Band;
pub use differ::{first_difference_of, first_difference_up_to};
pub use slab_region::SlabRegion;
pub use sweep::Sweep;

mod band;
mod differ;
mod edge;
mod merge;
mod rows;
mod slab_region;
mod strips;
mod sweep;
mod walk;
mod windings;
