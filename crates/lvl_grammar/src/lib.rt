//! Streams of records, for any format.
//!
//! This crate has definitions and laws only. `specs/Grammar.antt` says what a format has to define:
//! how a record is spelled, which record may follow which, and when a file is whole. From this the
//! crate defines fronts, refusals and whole files, and proves that a file has at most one reading,
//! and that no whole file begins with bytes that breach a rule. `specs/Order.antt` has expressions
//! for the order of records.
#![tactic(auto)]
