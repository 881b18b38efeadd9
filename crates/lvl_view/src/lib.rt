//! Views: a map of layers and a window, under which two layouts are compared.
//!
//! A [`View`] is read from two texts. The map `1/0=2/0,3/1=3/0` says that what is on layer 1,
//! datatype 0, counts as being on 2/0, and what is on 3/1 as being on 3/0. The window
//! `x=-5..20,y=0..9` says that only the squares within it are compared.
//!
//! Here `METAL` is layer 1, datatype 0:
//!
//! ```
//! use lvl_view::View;
//!
//! let view = View::read(alloc, Some("1/0=2/0"), Some("x=-5..20,y=0..9"))?;
//! assert_eq!(rt; view.target(METAL).layer, 2);
//! assert_eq!(rt; view.window().map(|window| window.x1), Some(20));
//! ```
#![tactic(auto)]

pub use fault::ViewFault;
pub use map::LayerPair;
pub use view::View;

mod fault;
mod map;
mod number;
mod view;
mod window;
