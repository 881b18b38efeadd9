//! OASIS files as streams of records (SEMI P39 OASIS 1.0).
//!
//! A file is the magic string, a START record, records, and an END record. `specs/Front.antt` defines which
//! bytes are the beginning of a file, as a grammar of streams; `specs/Order.antt` which records may come
//! after others, by their ids; `specs/Rules.antt` which rules a complete record may breach; and
//! `specs/Names.antt` which name a number stands for. [`read_first`] reads the magic string, and
//! [`read_next`] the next record after those that were passed to an [`Order`]. A block comes as it is packed;
//! [`read_inside`] reads the records of its bytes (`specs/Blocks.antt`).
//!
//! `bytes` is a file:
//!
//! ```
//! use lvl_profile::Profile;
//! use lvl_io::fake::Pieces;
//! use oasis_records::Record;
//! use oasis_stream::{Order, read_first, read_next};
//! use oasis_values::Input;
//!
//! let mut input = Input::new(Pieces::new(&bytes, usize::MAX), Profile::STANDARD);
//! let mut order = Order::new();
//! read_first(&mut input)?;
//! let mut record = Record::Pad;
//! read_next(&mut input, alloc, &order, &mut record)?;
//! order.pass(&record);
//! read_next(&mut input, alloc, &order, &mut record)?;
//! assert!(rt; matches!(record, Record::Cell(_)));
//! ```
#![tactic(auto)]

pub use fault::{NameRule, OasisKind};
pub use next::{read_first, read_inside, read_next};
pub use oasis_blocks::BlockRule;
pub use order::Order;

mod fault;
mod next;
mod order;
