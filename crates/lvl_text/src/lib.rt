//! What files say about themselves and why they are refused, as text: a module for each format, and one for
//! the faults that belong to no format.
//!
//! A fault is printed as its number and its name, with what it carries after it.
//!
//! ```
//! use lvl_text::view_fault;
//! use lvl_view::ViewFault;
//!
//! assert_eq!(rt; view_fault(ViewFault::EmptyWindow), "4 EmptyWindow");
//! ```
#![tactic(auto)]

pub use faults::{
    ignore_fault, path_fault, push_cell_fault, push_flat_fault, push_name, view_fault,
};
pub use gds::{push_gds_fault, push_gds_head, push_hex};
pub use oasis::{push_oasis_fault, push_oasis_head};

mod faults;
mod gds;
mod oasis;
