//! The corners of what rings cover, and the digest of a mask.
//!
//! A [`Corner`] is a point at which the outline of a set of squares turns. Two sets of squares are
//! equal exactly if the lists of their corners, in order of `x` and then `y`, are. [`send_corners`]
//! sends the corners of what rings cover to a [`CornerSink`], column by column. A [`LayerHash`]
//! hashes those of a Layer strip by strip, so that only what is drawn in one strip need be in
//! memory. [`mask_sha256`] is the SHA-256 of a mask: that of the lines of its Layers.
//!
//! ```
//! use lvl_corners::corners_of;
//! use lvl_grid::{Point, Ring, Rings};
//!
//! let mut rings = Rings::new(alloc);
//! rings.push_ring(&Ring::rectangle(alloc, Point { x: 0, y: 0 }, Point { x: 4, y: 2 })?)?;
//! let corners = corners_of(alloc, &rings)?;
//! assert_eq!(rt; corners.len(), 4);
//! assert_eq!(rt; (corners[3].x, corners[3].y, corners[3].change), (4, 2, 1));
//! ```
#![tactic(auto)]

pub use columns::{send_corners, send_corners_in};
pub use corner::Corner;
pub use digest::{LayerDigest, LayerHash, bytes_decide};
pub use mask::{DigestedLayer, layer_line, mask_sha256, masks_decide};
pub use same::{corners_of, cover_same};
pub use sink::CornerSink;
pub use span::{Span, parts_append, strips_append};

mod bands;
mod columns;
mod corner;
mod cut;
mod digest;
mod hashing;
mod mark;
mod mask;
mod part;
mod same;
mod send;
mod sink;
mod span;
mod sum;
