//! Examples in the documentation of the crates, line by line: `.ci/examples` looks for them here.

mod cells;
mod counts;
mod gds;
mod geometry;
mod input;
mod lines;
mod oasis;
mod program;
mod progress;
mod texts;
mod witness;
