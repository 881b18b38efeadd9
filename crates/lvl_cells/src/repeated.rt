//! Keys with lists of shifts, for what is placed more than once.
ghost use Rattle.std.specs.Prelude.{◌≡◌, ◌<◌, [], length, slice_get, Some, IfOk, IfSome};
ghost use Rattle.lvl_cells.specs.inside.Beside.{borrowed_shifts};
ghost use Rattle.lvl_cells.specs.inside.Spans.{IsPrefixOf};

use crate::lists::push_lean;
use crate::shape_lists::{kept_count, number_of_owned};
use lvl_names::Offsets;
use std::alloc::{AllocError, Global};
use std::marker::Model;

/// A key, and the number of its list of shifts, which is 0 for the zero shift alone, and any other one more
/// than an index of [`RepeatedKeys`].
#[derive(Clone, Copy)]
pub(crate) struct Repeated {
    pub key: u32,
    pub shifts: u32,
}

/// Keys with lists of shifts. A key takes 8 bytes, and a list of shifts that isn't the one before is kept
/// beside it.
#[derive(Drop)]
pub(crate) struct RepeatedKeys {
    lists: Vec<Offsets>,
    keys: Vec<Repeated>,
}

impl Model for RepeatedKeys {
    ghost use Rattle.std.specs.Prelude.{List, map, All};
    ghost use Rattle.lvl_cells.specs.inside.Placings.{repeated_in, IsRepeated, KeyAtShifts};

    ghost Value = { List KeyAtShifts };

    ghost view = { λ r. map (repeated_in r.lists.items) r.keys.items };

    ghost invariant = { λ r. All (IsRepeated r.lists.items) r.keys.items };
}

/// The index of the last key, if this is the key and the number that it has.
fn index_of_last(keys: &[Repeated], repeated: &Repeated) -> Option<usize>
    ensures { IfSome result (λ i. slice_get keys.now i ≡ Some repeated.now) }
{
    if let Some(last) = keys.last() {
        if last.key == repeated.key && last.shifts == repeated.shifts {
            return Some(keys.len() - 1);
        }
    }
    None
}

impl RepeatedKeys {
    /// An empty list. Allocates nothing.
    pub(crate) fn new(alloc: Global) -> RepeatedKeys
        ensures { result ≡ [] }
    {
        RepeatedKeys {
            lists: Vec::new(alloc),
            keys: Vec::new(alloc),
        }
    }

    /// The key at this index, and its shifts, or None for the zero shift alone.
    pub(crate) fn get(&self, i: usize) -> (u32, Option<&Offsets>)
        requires { i < length self.now }
        ensures { slice_get self.now i ≡ Some (record { key = result.0; shifts = borrowed_shifts result.1 }) }
    {
        let Repeated { key, shifts } = self.keys[i];
        match shifts {
            0 => (key, None),
            number => (key, Some(&self.lists[number as usize - 1])),
        }
    }

    /// The index of a key with these shifts. Keeps both, unless they are the last that were kept.
    pub(crate) fn push(&mut self, key: u32, shifts: Offsets) -> Result<u32, AllocError>
        ensures index { IfOk result (λ i. slice_get self.new i ≡ Some (record { key = key; shifts = shifts })) }
        ensures before { IsPrefixOf self.old self.new }
    {
        let shifts = number_of_owned(&mut self.lists, shifts)?;
        let repeated = Repeated { key, shifts };
        if let Some(index) = index_of_last(&self.keys, &repeated) {
            return kept_count(index);
        }
        let index = kept_count(self.keys.len())?;
        push_lean(&mut self.keys, repeated)?;
        Ok(index)
    }
}
