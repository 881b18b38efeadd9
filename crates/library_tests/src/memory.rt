//! The calls that take no memory, each between two fences.
//!
//! A fence is an allocation of a size that nothing else asks for: `.ci/refuse.c` knows it, and counts the
//! allocations from one to the next. `.ci/growths` wants none.

mod bytes;
mod cells;
mod fence;
mod geometry;
