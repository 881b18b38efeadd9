//! Elements of GDSII structures, read record by record.
//!
//! An element begins with BOUNDARY, PATH, SREF, AREF or TEXT, and ends with ENDEL (GDSII Stream
//! Format Manual, Release 6). [`Element::open`] takes the first record, and [`Element::take`] each
//! further one. After ENDEL, [`Element::take_drawn`] returns what the element draws: a shape, a
//! reference to a cell, or nothing. [`name`] and [`misplaced`] are also used for records outside of
//! elements.
//!
//! To add an element, write a file beside `boundary.rt`, with the records that may come next in
//! each of its states, the values that it keeps, and what it draws. In `element.rt`, open it and
//! add a `State` for it. In `specs/`, add its order to `an_element`, its type to `opens`, and its
//! meaning to `shapes_of` or `references_of`.
//!
//! ```
//! use gds_elements::{Element, Step};
//! use gds_records::record_type;
//! use lvl_profile::Profile;
//!
//! let mut element = Element::open(alloc, record_type::BOUNDARY).ok_or("no element")?;
//! let step = element.take(alloc, Profile::STANDARD, record_type::LAYER, b"\x00\x01")?;
//! assert!(rt; matches!(step, Step::Open));
//! assert!(rt; Element::open(alloc, record_type::LAYER).is_none());
//! ```
#![tactic(auto)]

pub use element::{Drawn, Element, Step};
pub use fault::{ElementFault, ElementRule, Misplaced};
pub use order::misplaced;
pub use values::name;

mod aref;
mod boundary;
mod counts;
mod element;
mod fault;
mod layer;
mod order;
mod path;
mod placing;
mod sref;
mod text;
mod values;
