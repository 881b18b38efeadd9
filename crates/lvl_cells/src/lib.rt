//! Layout libraries: cells that draw shapes and place one another, and the check that a library
//! is sound.
//!
//! A [`Library`] is what a file draws: named cells in file order. A [`Cell`] has [`Shapes`], each
//! a list of rings on a layer at a list of shifts, and [`References`], each to another cell by its
//! name, reflected, turned, and placed at a list of shifts. A [`Builder`] makes a library cell by
//! cell. [`check`] finds the top, resolves the names, and refuses a library that isn't sound or
//! places too much. What it returns is a [`Checked`].
//!
//! Here `METAL` is layer 1, datatype 0:
//!
//! ```
//! use lvl_cells::{Builder, check};
//! use lvl_grid::{Point, Ring};
//! use lvl_names::Offsets;
//!
//! let ring = Ring::rectangle(alloc, Point { x: 0, y: 0 }, Point { x: 4, y: 2 })?;
//! let mut builder = Builder::new(alloc);
//! builder.open(alloc, b"TOP")?;
//! builder.add_ring(METAL, ring.points(), &Offsets::single())?;
//! builder.close(alloc)?;
//! let checked = check(alloc, builder.finish(), None)?;
//! assert_eq!(rt; checked.top(), 0);
//! ```
#![tactic(auto)]

pub use builder::Builder;
pub use checked::{Checked, Refused, check, check_or_return, check_with};
pub use fault::CellFault;
pub use library::{Cell, Library};
pub use moved::{MovedRing, STRETCH};
pub use names::index_of;
pub use placements::Placements;
pub use reference::{KeptReference, Reference};
pub use references::References;
pub use shapes::Shapes;

mod builder;
mod checked;
mod counts;
mod debug;
mod examine;
mod fault;
mod few_shapes;
mod form;
mod forms;
mod layers;
mod library;
mod linked;
mod lists;
mod moved;
mod names;
mod order;
mod outline;
mod outlines;
mod placements;
mod reference;
mod reference_lists;
mod references;
mod repeated;
mod round;
mod rows;
mod shape_lists;
mod shapes;
mod shared;
mod single;
mod single_reference;
mod targets;
mod times;
mod top;
mod walk;
