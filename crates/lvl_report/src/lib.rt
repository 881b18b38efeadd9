//! The answers of lvl as text: two heads and a verdict, what is shown of a layout, its digest, or a
//! refusal.
//!
//! [`run`] compares two files, [`run_view`] compares them under a view, and [`run_show`] shows one. The first two are
//! [`run_question`], which answers any question on two files, and the last is [`run_file`], which also hashes what a
//! file draws and lists its cells. Each makes the whole text of the answer, but for the lines of a digest, which are
//! written one by one, writes it, and returns a [`Status`], which gives the exit status of the program, or an
//! [`Outcome`], which also has a [`Hint`] if something would mend a refusal. [`form`] and [`form_refusal`] only make
//! the text.
//!
//! `bytes` is a file that draws one square:
//!
//! ```
//! use lvl_io::fake::{Pieces, Sink};
//! use lvl_report::{Status, run_show};
//!
//! let mut out = Sink::new(alloc, usize::MAX);
//! let status = run_show(alloc, &mut Pieces::new(&bytes, usize::MAX), None, &mut out)?;
//! assert_eq!(rt; status, Status::Shown);
//! assert!(rt; out.taken.ends_with(b"layer 1 datatype 0 rings 1\n"));
//! ```
#![tactic(auto)]

pub use hint::Hint;
pub use outcome::Outcome;
pub use output::write_all;
pub use runs::{Request, Wanted, run, run_file, run_question, run_show, run_view};
pub use status::{RunFault, Status};
pub use text::{form, form_refusal};

mod beside;
mod digest;
mod hint;
mod lines;
mod list;
mod outcome;
mod output;
mod runs;
mod status;
mod steps;
mod tell;
mod text;
mod tops;
mod why;
