//! Reads libraries from OASIS files (SEMI P39 OASIS 1.0).
//!
//! [`read_oasis`] reads a file record by record: [`oasis_stream`] says which records may come, and
//! [`oasis_figures`] what each of them draws. This crate builds cells from these, and at the end of the
//! file replaces their numbers by names.
//!
//! `bytes` is a file with one cell:
//!
//! ```
//! use lvl_io::fake::Pieces;
//! use oasis_library::read_oasis;
//! use oasis_values::Real;
//!
//! let (library, head) = read_oasis(alloc, &mut Pieces::new(&bytes, usize::MAX))?;
//! assert_eq!(rt; library.cells.len(), 1);
//! assert_eq!(rt; head.unit, Real::Whole(1000));
//! ```
#![tactic(auto)]

pub use fault::OasisFault;
pub use head::OasisHead;
pub use oasis_figures::{FigureRule, Variable};
pub use oasis_records::RecordRule;
pub use oasis_stream::{BlockRule, NameRule, OasisKind};
pub use oasis_values::{Real, ValueFault};
pub use read::{read_oasis, read_oasis_with};

mod blocks;
mod cells;
mod drawing;
mod drawings;
mod fault;
mod head;
mod names;
mod placement;
mod read;
mod reading;
mod resolve;
