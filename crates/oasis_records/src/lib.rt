//! Reads the records of an OASIS file, one at a time (SEMI P39 OASIS 1.0).
//!
//! A record is written to a place of the caller, as it is in the file: a field that isn't there is `None`, and no modal
//! variable is looked up. [`read_magic`] reads the magic string at the beginning of a file,
//! [`read_id`] the id of a record, and [`read_fields`] its fields; [`RecordType::of`] gives the
//! type for an id.
//!
//! Here the bytes of a RECTANGLE are read:
//!
//! ```
//! use lvl_profile::Profile;
//! use lvl_io::fake::Pieces;
//! use oasis_records::{Record, RecordType, read_fields, read_id};
//! use oasis_values::Input;
//!
//! let mut input = Input::new(Pieces::new(RECTANGLE, usize::MAX), Profile::STANDARD);
//! let id = read_id(&mut input)?;
//! let kind = RecordType::of(id.value, input.profile())?;
//! let mut record = Record::Pad;
//! read_fields(&mut input, alloc, kind, id.len, false, &mut record)?;
//! assert!(rt; matches!(record, Record::Rectangle(_)));
//! ```
#![tactic(auto)]

pub use cell::{CellName, CellRef};
pub use end::Validation;
pub use fault::{RecordFault, RecordRule};
pub use figure::{OnLayer, Position};
pub use magic::read_magic;
pub use measured::{Measured, read_id};
pub use names::EntryType;
pub use path::{Ends, Extension, Path};
pub use placement::{Placement, Transform};
pub use points::Points;
pub use polygon::Polygon;
pub use record::{Record, read_fields};
pub use record_type::RecordType;
pub use rectangle::Rectangle;
pub use start::Start;
pub use text::Name;

mod block;
mod cell;
mod end;
mod fault;
mod fields;
mod figure;
mod info;
mod label;
mod magic;
mod measured;
mod names;
mod path;
mod placement;
mod points;
mod polygon;
mod property;
mod record;
mod record_type;
mod rectangle;
mod rules;
mod start;
mod text;
