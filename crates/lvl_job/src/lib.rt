//! The program's job as one call: it opens the files, writes the answer, and returns the exit
//! status.
//!
//! [`do_job`] does a job with any [`Files`], which opens readers by name, and two writers, and
//! [`code_of`] gives the exit status for its result. [`do_line`] does both for the words of a
//! command line.
//!
//! A job has one answer, on one file or two, or is on several files: it lists their digests, or checks them against
//! a list. Files of a list are opened, hashed and closed one after another.
//!
//! `Held` has one file, `square`, which draws one square:
//!
//! ```
//! use lvl_job::do_line;
//!
//! let words = ["lvl", "show", "square"];
//! let code = do_line(alloc, &words, &mut Held { asked: 0 }, &mut out, &mut err);
//! assert_eq!(rt; code, 0);
//! assert!(rt; out.taken.ends_with(b"layer 1 datatype 0 rings 1\n"));
//! ```
#![tactic(auto)]

pub use fault::JobFault;
pub use files::{Files, Look, OpenFault};
pub use job::{code_of, do_job};
pub use line::do_line;

mod checking;
mod fault;
mod files;
mod hash;
mod job;
mod line;
mod listing;
mod lists;
mod looked;
mod pair;
mod said;
mod texts;
