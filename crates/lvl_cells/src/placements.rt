//! Placements: how and where things are placed that have an index in a list.
ghost use Rattle.std.specs.Prelude.{◌≡◌, ◌<◌, ◌++◌, ◌∷◌, [], length, slice_get, All, OnOk, OnErr, Some, IfOk, IfSome};
ghost use Rattle.lvl_grid.specs.Turn.{shifted, FitsPoint};
ghost use Rattle.lvl_cells.specs.inside.Beside.{borrowed_shifts};
ghost use Rattle.lvl_cells.specs.inside.Placings.{placement_by, repeated_beside, target_in, HasIndex, IsTarget};
ghost use Rattle.lvl_cells.specs.inside.Spans.{IsPrefixOf};

use crate::lists::push_lean;
use crate::repeated::RepeatedKeys;
use crate::shape_lists::kept_count;
use lvl_grid::{Map, Point, Turn};
use lvl_names::Offsets;
use std::alloc::{AllocError, Global};
use std::marker::Model;

/// A placement without its shifts: the index of what is placed, and how it is placed.
#[derive(Clone, Copy)]
pub(crate) struct Placing {
    pub at: Point,
    pub key: u32,
    pub flip: bool,
    pub turn: Turn,
}

/// What is placed: the key of what has a single place, or the index of a key with its shifts.
#[derive(Clone, Copy)]
pub(crate) struct Target {
    pub index: u32,
    pub is_repeated: bool,
}

/// A placement as it is stored: the parts of a [`Target`], and how it is placed. It takes 24 bytes.
#[derive(Clone, Copy)]
pub(crate) struct StoredPlacement {
    pub at: Point,
    pub index: u32,
    pub is_repeated: bool,
    pub flip: bool,
    pub turn: Turn,
}

/// A list of placements. What is placed is known by its index in a list that the owner keeps, its
/// key: [`crate::References`] has a list of names.
///
/// A placement has no allocation of its own. It takes 24 bytes if it has a single place, or the key and
/// the shifts of the repeated one before; other keys and lists of shifts are kept beside it.
#[derive(Drop)]
pub struct Placements {
    alloc: Global,
    stored: Vec<StoredPlacement>,
    /// None if each placement has a single place.
    repeated: Option<Box<RepeatedKeys>>,
}

impl Model for Placements {
    ghost use Rattle.std.specs.Prelude.{List, map, All};
    ghost use Rattle.lvl_cells.specs.Cells.{PlainPlacement};
    ghost use Rattle.lvl_cells.specs.inside.Placings.{placement_in, repeated_beside, IsPlacing};

    ghost Value = { List PlainPlacement };

    ghost view = { λ p. map (placement_in (repeated_beside p.repeated)) p.stored.items };

    ghost invariant = { λ p. All (IsPlacing (repeated_beside p.repeated)) p.stored.items };
}

/// The key of a target, and its shifts, or None for the zero shift alone.
fn key_of(repeated: &Option<Box<RepeatedKeys>>, target: Target) -> (u32, Option<&Offsets>)
    requires { HasIndex (repeated_beside repeated.now) target.is_repeated target.index }
    ensures { target_in (repeated_beside repeated.now) target.is_repeated target.index
        ≡ record { key = result.0; shifts = borrowed_shifts result.1 } }
{
    match repeated {
        Some(keys) if target.is_repeated => keys.get(target.index as usize),
        _ => (target.index, None),
    }
}

/// The index of a key with these shifts, which are kept.
fn keep(
    alloc: Global,
    repeated: &mut Option<Box<RepeatedKeys>>,
    key: u32,
    shifts: Offsets,
) -> Result<u32, AllocError>
    ensures index { IfOk result (λ i. slice_get (repeated_beside repeated.new) i
        ≡ Some (record { key = key; shifts = shifts })) }
    ensures before { IsPrefixOf (repeated_beside repeated.old) (repeated_beside repeated.new) }
{
    if let Some(keys) = repeated {
        return keys.push(key, shifts);
    }
    let mut keys = RepeatedKeys::new(alloc);
    let index = keys.push(key, shifts)?;
    *repeated = Some(Box::new(alloc, keys)?);
    Ok(index)
}

/// What is placed by a key at these shifts, which are kept unless there is the zero shift alone.
fn target_of(
    alloc: Global,
    repeated: &mut Option<Box<RepeatedKeys>>,
    key: u32,
    shifts: Offsets,
) -> Result<Target, AllocError>
    ensures target { IfOk result (λ target. IsTarget (repeated_beside repeated.new) target key shifts) }
    ensures before { IsPrefixOf (repeated_beside repeated.old) (repeated_beside repeated.new) }
{
    if shifts.is_single() {
        return Ok(Target {
            index: key,
            is_repeated: false,
        });
    }
    Ok(Target {
        index: keep(alloc, repeated, key, shifts)?,
        is_repeated: true,
    })
}

impl Placements {
    /// An empty list. Allocates nothing.
    pub fn new(alloc: Global) -> Placements
        ensures { result ≡ [] }
    {
        Placements {
            alloc,
            stored: Vec::new(alloc),
            repeated: None,
        }
    }

    /// The number of placements.
    pub fn len(&self) -> usize
        ensures { result ≡ length self.now }
    {
        self.stored.len()
    }

    /// The placement at this index, and its shifts, or None for the zero shift alone. Each of its
    /// places is within 64 signed bits.
    pub(crate) fn placing(&self, j: usize) -> (Placing, Option<&Offsets>)
        requires { j < length self.now }
        ensures value { slice_get self.now j ≡ Some (placement_by result.0 (borrowed_shifts result.1)) }
        ensures fits { All (λ e. FitsPoint (shifted result.0.at e)) (borrowed_shifts result.1) }
    {
        let StoredPlacement {
            at,
            index,
            is_repeated,
            flip,
            turn,
        } = self.stored[j];
        let target = Target { index, is_repeated };
        let (key, shifts) = key_of(&self.repeated, target);
        let placing = Placing {
            at,
            key,
            flip,
            turn,
        };
        (placing, shifts)
    }

    /// The key of the placement at this index.
    pub fn key(&self, j: usize) -> usize
        requires { j < length self.now }
        ensures { IfSome (slice_get self.now j) (λ p. result ≡ p.key) }
    {
        let (placing, _) = self.placing(j);
        placing.key as usize
    }

    /// Adds a placement by a map, whose shift is the first place, at each of the shifts. If there
    /// is no memory for it, nothing changes.
    pub fn push(&mut self, key: usize, by: Map, shifts: Offsets) -> Result<(), AllocError>
        requires { All (λ e. FitsPoint (shifted by.at e)) shifts }
        ensures added { OnOk result (self.new ≡ self.old
            ++ record { key = key; flip = by.flip; turn = by.turn; at = by.at; shifts = shifts } ∷ []) }
        ensures kept { OnErr result (self.new ≡ self.old) }
    {
        let key = kept_count(key)?;
        let target = target_of(self.alloc, &mut self.repeated, key, shifts)?;
        let stored = StoredPlacement {
            at: by.at,
            index: target.index,
            is_repeated: target.is_repeated,
            flip: by.flip,
            turn: by.turn,
        };
        push_lean(&mut self.stored, stored)?;
        Ok(())
    }
}
