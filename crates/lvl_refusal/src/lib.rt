//! Why something was refused, for calls that also allocate.
//!
//! A call that allocates can fail in two ways: what it was given breaches a rule, or an allocation
//! failed. [`Cause`] keeps the two apart for all crates, so that each crate's enum of rules has
//! rules only, and `?` converts both.
//!
//! A caller that wants the fault of a text, if it has one:
//!
//! ```
//! use lvl_refusal::Cause;
//! use lvl_view::View;
//!
//! match View::read(alloc, map, window) {
//!     Ok(_) => Ok(None),
//!     Err(Cause::Breach(fault)) => Ok(Some(fault)),
//!     Err(Cause::OutOfMemory) => Err(AllocError),
//! }
//! ```
#![tactic(auto)]

ghost use Rattle.std.specs.Prelude.{◌≡◌};

use std::alloc::{AllocError, AllocFailed};
use std::error::Error;
use std::fmt;

/// Why something was refused.
#[derive(Clone, Copy, Debug, Drop, PartialEq, Eq)]
pub enum Cause<F> {
    /// The rule that is breached.
    Breach(F),
    /// An allocation failed. Nothing is said about the input.
    OutOfMemory,
}

impl<F> From<AllocError> for Cause<F> {
    ghost use Rattle.lvl_refusal.specs.declared.Cause.TheVariants.{OutOfMemory};

    ghost from_gives = { λ _ e. e ≡ OutOfMemory };

    fn from(_e: AllocError) -> Cause<F> {
        Cause::OutOfMemory
    }
}

impl<F, T: Drop> From<AllocFailed<T>> for Cause<F> {
    ghost use Rattle.lvl_refusal.specs.declared.Cause.TheVariants.{OutOfMemory};

    ghost from_gives = { λ _ e. e ≡ OutOfMemory };

    fn from(_e: AllocFailed<T>) -> Cause<F> {
        Cause::OutOfMemory
    }
}

impl<F: fmt::Display> fmt::Display for Cause<F> {
    fn fmt<W: fmt::Write>(&self, f: &mut fmt::Formatter<W>) -> fmt::Result {
        match self {
            Cause::Breach(rule) => rule.fmt(f),
            Cause::OutOfMemory => f.write_str("out of memory"),
        }
    }
}

impl<F: Error> Error for Cause<F> {}
