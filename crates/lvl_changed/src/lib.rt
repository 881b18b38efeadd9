//! Where two libraries may draw different squares, found cell by cell, and their comparison there
//! only.
//!
//! [`changed`] finds a few windows and Layers such that both draw the same outside of the windows and
//! on all other Layers, without flattening either. [`same_by_cells`] says whether there is no such
//! window. [`difference_by_changes`] finds the first square that only one of both draws. It searches
//! only those windows, on those Layers, so its cost depends on what changed between the two.
//!
//! Here `kept` and `edited` are two libraries whose tops place the same cell a thousand times; in
//! `edited` the top also draws a square at (3, 0) on the Layer `METAL`:
//!
//! ```
//! use lvl_changed::{changed, difference_by_changes};
//! use lvl_grid::Square;
//! use lvl_region::Side;
//! use lvl_view::View;
//!
//! let view = View::whole(alloc);
//! let changes = changed(alloc, &kept, &edited, &view)?.ok_or("windows")?;
//! assert_eq!(rt; changes.windows.len(), 1);
//! let layers = changes.layers.ok_or("layers")?;
//! assert_eq!(rt; layers.as_slice(), [METAL].as_slice());
//! let found = difference_by_changes(alloc, &kept, &edited, &view, 1 << 20)?;
//! assert_eq!(rt; found, Some((METAL, Square { x: 3, y: 0 }, Side::Second)));
//! ```
#![tactic(auto)]

pub use alike::same_by_cells;
pub use cells::changed;
pub use changes::Changes;
pub use difference::difference_by_changes;
pub use pays::pays_by_cells;

mod alike;
mod area;
mod arrays;
mod cells;
mod changes;
mod closeness;
mod corners;
mod difference;
mod drawing;
mod figures;
mod found;
mod holding;
mod in_step;
mod lattices;
mod layers;
mod left;
mod listing;
mod opening;
mod partners;
mod pays;
mod placed;
mod placements;
mod references;
mod remains;
mod rests;
mod rings;
mod rows;
mod shapes;
mod shifts;
mod slots;
mod spots;
mod twins;
mod whole;
mod windows;
