//! Reads the values of OASIS, one at a time, from any reader: numbers, strings, deltas, point lists
//! and repetitions (SEMI P39 OASIS 1.0).
//!
//! [`Input`] reads the value that its caller expects. It also knows what is ignored, since any number may
//! have padding. The crates above make records of the values.
//!
//! ```
//! use lvl_profile::Profile;
//! use lvl_io::fake::Pieces;
//! use oasis_values::Input;
//!
//! let mut input = Input::new(Pieces::new(b"\xE8\x07\x0B", usize::MAX), Profile::STANDARD);
//! assert_eq!(rt; input.unsigned(), Ok(1000));
//! assert_eq!(rt; input.signed(), Ok(-5));
//! assert_eq!(rt; input.offset(), 3);
//! ```
#![tactic(auto)]

pub use fault::ValueFault;
pub use input::Input;
pub use number::Real;
pub use point_list::Use;
pub use repetition::Repetition;
pub use text::Text;

mod delta;
mod fault;
mod find;
mod input;
mod integer;
mod number;
mod point_list;
mod property;
mod repetition;
mod shift;
mod text;
