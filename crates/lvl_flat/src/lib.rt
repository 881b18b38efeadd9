//! Flattening: all rings that the top of a library places, Layer by Layer.
//!
//! [`flatten`] walks the chains of references from the top and places each ring on the way. It
//! returns a [`Flat`]: for each Layer, a list of rings that together cover exactly what the top
//! covers there. [`Fitted::within`] does the same for a window, and takes memory only for what is
//! drawn in it. [`flatten_shapes`] does the same for the own shapes of one cell. [`Flat::mapped`]
//! moves the rings of each Layer to the Layer that it counts as in a view.
//!
//! Here `checked` is a checked library whose top draws one rectangle of 4 by 2 squares on the Layer
//! `METAL`:
//!
//! ```
//! use lvl_flat::flatten;
//! use lvl_grid::Square;
//!
//! let flat = flatten(alloc, &checked)?;
//! assert_eq!(rt; flat.len(), 1);
//! assert_eq!(rt; flat.layer(0), Some(METAL));
//! assert!(rt; flat.rings(METAL).covers(Square { x: 3, y: 1 }));
//! ```
#![tactic(auto)]

pub use advance::flatten;
pub use boxes::fits_by_boxes;
pub use candidates::Candidates;
pub use estimate::Estimate;
pub use fault::{FlatFault, OverBudget};
pub use fitted::Fitted;
pub use flat::Flat;
pub use shapes::flatten_shapes;
pub use walk::{chains_add_up, placing_at};

mod advance;
mod bounds;
mod boxes;
mod candidates;
mod draw;
mod enter;
mod estimate;
mod extents;
mod fault;
mod fitted;
mod flat;
mod indexes;
mod layers;
mod mapped;
mod missed;
mod near;
mod passing;
mod room;
mod rows;
mod scope;
mod selected;
mod shapes;
mod visit;
mod walk;
mod windowed;
mod within;
