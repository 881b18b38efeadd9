//! Regions: the sets of squares that rings cover, and where two of them differ.
//!
//! A [`Region`] is made from rings and has exactly the squares that at least one ring covers.
//! [`difference`] compares two lists of rings by any type of region. [`GridRegion`] is the plain
//! one, for tests.
//!
//! ```
//! use lvl_grid::{Point, Ring, Square};
//! use lvl_region::{GridRegion, Side, difference};
//!
//! let wide = Ring::rectangle(alloc, Point { x: 0, y: 0 }, Point { x: 4, y: 2 })?;
//! let narrow = Ring::rectangle(alloc, Point { x: 0, y: 0 }, Point { x: 3, y: 2 })?;
//! let first = vec![in alloc; wide]?;
//! let second = vec![in alloc; narrow]?;
//! let found = difference::<GridRegion>(alloc, &first, &second)?;
//! assert_eq!(rt; found, Some((Square { x: 3, y: 0 }, Side::First)));
//! ```
#![tactic(auto)]

pub use grid::GridRegion;
pub use region::{Region, Side, difference};

mod grid;
mod lines;
mod region;
