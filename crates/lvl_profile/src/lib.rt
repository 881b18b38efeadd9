//! What a file may be: what of it is read and ignored, how much it may have, and whether it may be compressed.
//!
//! A reader refuses each record that it doesn't use, since such a record might draw something. Some
//! records never draw anything: properties, texts, names of layers. [`Ignore`] says which of these
//! are read and ignored, and whether a path may have a point twice in a row. It is read from words such
//! as `properties,texts`, or `all`. [`Limits`] says how many bytes, cells and places a file may have. A
//! [`Profile`] is both, and says whether compressed blocks are read.
//!
//! ```
//! use lvl_profile::{Ignore, IgnoreFault};
//! use lvl_refusal::Cause;
//!
//! let ignore = Ignore::read(alloc, "properties,names")?;
//! assert!(rt; ignore.properties && ignore.names && !ignore.texts);
//! let refused = Ignore::read(alloc, "property");
//! assert_eq!(rt; refused, Err(Cause::Breach(IgnoreFault::IgnoreText)));
//! ```
#![tactic(auto)]

pub use ignore::{Ignore, IgnoreFault};
pub use limits::Limits;
pub use profile::Profile;

mod ignore;
mod limits;
mod profile;
