//! Compares two layouts: whether they draw the same mask.
//!
//! [`compare_layouts`] reads two files, checks their cells, and compares what they cover on each
//! Layer. It returns a [`Verdict`] or a [`Refusal`]. [`compare_view`] does the same with the Layers
//! of the second file mapped, and only within a window. Both are [`compare_files`], which returns the
//! [`Answer`] to any [`Question`] on two files. [`show_file`] returns what one file has,
//! [`digest_file`] a digest of the mask that it draws, and [`list_cells`] its cells, whether they
//! are sound or not. Each format is a variant of [`Layout`], [`Head`] and [`FileFault`].
//!
//! `one` and `other` are two files in memory that draw the same:
//!
//! ```
//! use lvl::{Tops, Verdict, compare_layouts};
//! use lvl_io::fake::Pieces;
//!
//! let tops = Tops {
//!     first: None,
//!     second: None,
//! };
//! let mut first = Pieces::new(&one, usize::MAX);
//! let mut second = Pieces::new(&other, usize::MAX);
//! let verdict = compare_layouts(alloc, &mut first, &mut second, &tops)?;
//! assert_eq!(rt; verdict, Verdict::Same);
//! ```
#![tactic(auto)]

pub use cells::{CellList, list_cells};
pub use compare::{compare_files, compare_layouts, compare_view};
pub use digest::{digest_file, digests_decide};
pub use digested::{Digested, MaskDigest};
pub use layout::{FileFault, Head, Layout, read_layout, read_layout_with, widening_keeps};
pub use lvl_corners::DigestedLayer;
pub use lvl_count::ListedCell;
pub use lvl_why::{NamedStep, Why};
pub use lvl_witness::PlacedRing;
pub use question::{Answer, Judged, Question};
pub use show::show_file;
pub use shown::Shown;
pub use steps::agree_in_steps;
pub use verdict::{CellRefusal, Refusal, Tops, Verdict};

mod cells;
mod compare;
mod digest;
mod digested;
mod fitted;
mod hashes;
mod layout;
mod pace;
mod parts;
mod question;
mod reason;
mod show;
mod shown;
mod side;
mod steps;
mod strip;
mod verdict;
