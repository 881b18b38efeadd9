//! What a record of an OASIS cell draws, after the records before it (SEMI P39 OASIS 1.0).
//!
//! A field that isn't in a record has the value of its modal variable, which an earlier record of the cell
//! has set. [`Modal`] keeps these variables. It takes the records of a cell one by one, and returns what
//! each of them draws.
//!
//! `record` is a RECTANGLE with all its fields:
//!
//! ```
//! use lvl_profile::Ignore;
//! use oasis_figures::{DrawnRecord, Modal};
//!
//! let mut modal = Modal::new();
//! let drawn = modal.take(alloc, Ignore::NOTHING, &mut record)?;
//! assert!(rt; matches!(drawn, Some(DrawnRecord::Rectangle(_, _, _))));
//! ```
#![tactic(auto)]

pub use drawn::DrawnRecord;
pub use modal::Modal;
pub use rule::FigureRule;
pub use variable::Variable;

mod drawn;
mod extension;
mod layer;
mod modal;
mod path;
mod placement;
mod polygon;
mod position;
mod rectangle;
mod repetition;
mod rule;
mod text;
mod variable;
mod vertices;
