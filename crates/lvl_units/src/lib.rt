//! How long a step of a file's grid is.
//!
//! Coordinates are compared in grid steps, and units are never used for scaling. So a mask and its copy at twice the
//! size have the same coordinates, and only the units of their files tell them apart. A [`GridStep`] is the length that
//! a file gives its steps, as an exact fraction of a metre.
//!
//! ```
//! use lvl_units::GridStep;
//! use oasis_values::Real;
//!
//! let nanometre = [0x39, 0x44, 0xb8, 0x2f, 0xa0, 0x9b, 0x5a, 0x54];
//! let first = GridStep::of_gds(nanometre).ok_or("a length")?;
//! let second = GridStep::of_oasis(&Real::Whole(1000)).ok_or("a length")?;
//! assert!(rt; !first.is_apart(second));
//! assert_eq!(rt; first.millionths(), 1_000_000);
//! let twice = GridStep::of_oasis(&Real::Whole(500)).ok_or("a length")?;
//! assert!(rt; first.is_apart(twice));
//! ```
#![tactic(auto)]

pub use step::GridStep;

mod fraction;
mod step;
