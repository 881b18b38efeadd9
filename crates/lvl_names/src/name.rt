//! The names of cells.
ghost use Rattle.std.specs.Prelude.{◌≡◌, ◌≤◌, ◌↔◌, IsTrue, IfOk, [], length, take};
ghost use Rattle.lvl_names.specs.Names.{IsName};

use std::alloc::{AllocError, Global};
use std::marker::Model;
use std::rc::RcSlice;

/// The greatest number of bytes of a cell's name (own rule).
pub const MOST_NAME_BYTES: usize = 255;

/// The greatest number of bytes of a name that takes no allocation.
const MOST_SHORT: usize = 15;

/// The bytes by which a reference names a cell. Clones share them; up to 15 bytes take no
/// allocation. [`Name::new`] takes any bytes; [`is_name`] says which are a name.
#[derive(Debug, Drop)]
pub struct Name {
    bytes: NameBytes,
}

/// How the bytes of a name are kept.
#[derive(Debug, Drop)]
enum NameBytes {
    /// The first of these bytes, as many as the number says.
    Short(u8, [u8; MOST_SHORT]),
    Long(RcSlice<u8>),
}

impl Model for Name {
    ghost use Rattle.std.specs.Prelude.{List, ℕ};
    ghost use Rattle.lvl_names.specs.inside.Named.{kept_bytes, FitsArray};

    ghost Value = { List ℕ };

    ghost view = { λ n. kept_bytes n.bytes };

    ghost invariant = { λ n. FitsArray n.bytes };
}

impl Clone for Name {
    ghost is_clone = { λ name copy. copy ≡ name };

    fn clone(&self) -> Result<Name, AllocError> {
        let bytes = match &self.bytes {
            NameBytes::Short(len, bytes) => NameBytes::Short(*len, *bytes),
            NameBytes::Long(bytes) => NameBytes::Long(bytes.clone()?),
        };
        Ok(Name { bytes })
    }
}

/// The bytes, followed by zeros.
fn short_bytes(bytes: &[u8]) -> [u8; MOST_SHORT]
    requires { length bytes.now ≤ 15 }
    ensures { take (length bytes.now) result ≡ bytes.now }
{
    let mut short = [0; MOST_SHORT];
    short[..bytes.len()].copy_from_slice(bytes);
    short
}

impl Name {
    /// The empty name.
    pub fn empty() -> Name
        ensures { result ≡ [] }
    {
        Name {
            bytes: NameBytes::Short(0, [0; MOST_SHORT]),
        }
    }

    /// A name of a copy of these bytes, which aren't checked.
    pub fn of(alloc: Global, bytes: &[u8]) -> Result<Name, AllocError>
        ensures { IfOk result (λ name. name ≡ bytes.now) }
    {
        let bytes = if bytes.len() <= MOST_SHORT {
            NameBytes::Short(bytes.len() as u8, short_bytes(bytes))
        } else {
            NameBytes::Long(RcSlice::from_vec(Vec::from_slice(alloc, bytes)?)?)
        };
        Ok(Name { bytes })
    }

    /// A name of these bytes, which aren't checked.
    pub fn new(bytes: Vec<u8>) -> Result<Name, AllocError>
        ensures { IfOk result (λ name. name ≡ bytes.items) }
    {
        let bytes = if bytes.len() <= MOST_SHORT {
            NameBytes::Short(bytes.len() as u8, short_bytes(&bytes))
        } else {
            NameBytes::Long(RcSlice::from_vec(bytes)?)
        };
        Ok(Name { bytes })
    }

    /// Its bytes.
    pub fn as_bytes(&self) -> &[u8]
        ensures { result.now ≡ self.now }
    {
        match &self.bytes {
            NameBytes::Short(len, bytes) => &bytes[..*len as usize],
            NameBytes::Long(bytes) => bytes.as_slice(),
        }
    }
}

/// Whether these bytes are a cell's name: 1 to 255 bytes, each from 0x21 to 0x7E (own rule for both
/// formats; the bytes are those of a name string of SEMI P39 OASIS 1.0).
pub fn is_name(bytes: &[u8]) -> bool
    ensures { IsTrue result ↔ IsName bytes.now }
{
    !bytes.is_empty()
        && bytes.len() <= MOST_NAME_BYTES
        && bytes.iter().all(|b| 0x21 <= *b && *b <= 0x7E)
}
