//! The command line of the program, read by `clap`.
//!
//! [`parse_line`] makes a [`Job`] of the words of a line: of the subcommand, the files and the
//! options that `clap` finds in them. If `clap` refuses the words, it returns `clap`'s error.
//!
//! ```
//! use lvl_line::{Job, parse_line};
//!
//! let Ok(Job::Show { file, top, .. }) = parse_line(alloc, &["lvl", "show", "chip.gds"]) else {
//!     return Err(Fail::from("the line is refused"));
//! };
//! assert_eq!(rt; file.as_str(), "chip.gds");
//! assert!(rt; top.is_none());
//! ```
#![tactic(auto)]

pub use job::{Job, LineFault};
pub use parse::parse_line;

mod command;
mod job;
mod parse;
