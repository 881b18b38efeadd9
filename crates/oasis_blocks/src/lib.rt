//! Compressed blocks of OASIS (SEMI P39 OASIS 1.0, "CBLOCK record").
//!
//! A CBLOCK has a type of compression, which is 0 for DEFLATE, the number of bytes that it unpacks to, and the packed
//! bytes. [`read_packed`] reads one after its type, and takes all of its bytes, whatever they are. [`Block::unpack`]
//! tests that they are one stream of exactly as many bytes as counted, and then gives a reader of these, from which
//! records can be read as from a file. So no record is read of a block that isn't whole. An [`Unpacker`] is the memory
//! that many blocks share.
//!
//! `bytes` is the letter `a`, packed:
//!
//! ```
//! use lvl_io::Read;
//! use lvl_io::fake::Pieces;
//! use lvl_profile::Profile;
//! use oasis_blocks::{Unpacker, read_packed};
//! use oasis_values::Input;
//!
//! let bytes: &[u8] = b"\x01\x03\x4b\x04\x00";
//! let mut input = Input::new(Pieces::new(bytes, usize::MAX), Profile::STANDARD);
//! let block = read_packed(&mut input, alloc)?;
//! let mut unpacked = block.unpack(alloc, &mut Unpacker::new(), 100)?;
//! let mut buf = [0; 8];
//! assert_eq!(rt; unpacked.read(&mut buf), Ok(1));
//! assert_eq!(rt; buf[0], b'a');
//! ```
#![tactic(auto)]

pub use block::{Block, read_packed};
pub use fault::BlockRule;
pub use unpack::Unpacker;
pub use unpacked::Unpacked;

mod block;
mod fault;
mod slice;
mod stored;
mod unpack;
mod unpacked;
