//! How the references of a cell are stored, if there are several.
ghost use Rattle.std.specs.Prelude.{◌≡◌, ◌<◌, ◌++◌, ◌∷◌, [], length, slice_get, All, map, Some, IfOk, IfSome};
ghost use Rattle.std.specs.Prelude.{OnOk, OnErr};
ghost use Rattle.lvl_cells.specs.Cells.{reference_to};
ghost use Rattle.lvl_cells.specs.inside.Spans.{IsPrefixOf};
ghost use Rattle.lvl_cells.specs.inside.Placings.{IsAt};

use crate::lists::push_lean;
use crate::placements::Placements;
use crate::reference::{KeptReference, Reference};
use lvl_grid::Map;
use lvl_names::Name;
use std::alloc::{AllocError, Global};
use std::marker::Model;

/// References in file order. A reference has no allocation of its own, and shares its name and its
/// shifts with the one before if they are the same.
#[derive(Drop)]
pub(crate) struct ReferenceLists {
    names: Vec<Name>,
    placements: Placements,
}

impl Model for ReferenceLists {
    ghost use Rattle.std.specs.Prelude.{List, map, All, length, ◌<◌};
    ghost use Rattle.lvl_cells.specs.Cells.{PlainReference, reference_to};

    ghost Value = { List PlainReference };

    ghost view = { λ r. map (reference_to r.names.items) r.placements };

    ghost invariant = { λ r. All (λ p. p.key < length r.names.items) r.placements };
}

/// The index of a name, if it is the last of the list.
fn index_of_last(names: &[Name], name: &Name) -> Option<usize>
    ensures { IfSome result (λ i. IsAt names.now i name.now) }
{
    if let Some(last) = names.last() {
        if last.as_bytes() == name.as_bytes() {
            return Some(names.len() - 1);
        }
    }
    None
}

/// The index of a name. Keeps the name, unless it is the last that was kept.
fn index_of_name(names: &mut Vec<Name>, name: Name) -> Result<usize, AllocError>
    ensures index { IfOk result (λ i. IsAt names.new.items i name) }
    ensures before { IsPrefixOf names.old.items names.new.items }
{
    if let Some(index) = index_of_last(names, &name) {
        return Ok(index);
    }
    let index = names.len();
    push_lean(names, name)?;
    Ok(index)
}

impl ReferenceLists {
    /// An empty list. Allocates nothing.
    pub(crate) fn new(alloc: Global) -> ReferenceLists
        ensures { result ≡ [] }
    {
        ReferenceLists {
            names: Vec::new(alloc),
            placements: Placements::new(alloc),
        }
    }

    /// The references that place the cells of these names: each placement has the index of its
    /// name.
    pub(crate) fn of(names: Vec<Name>, placements: Placements) -> ReferenceLists
        requires { All (λ p. p.key < length names.items) placements }
        ensures { result ≡ map (reference_to names.items) placements }
    {
        ReferenceLists { names, placements }
    }

    /// The number of references.
    pub(crate) fn len(&self) -> usize
        ensures { result ≡ length self.now }
    {
        self.placements.len()
    }

    /// The reference at this index.
    pub(crate) fn reference(&self, j: usize) -> KeptReference<'_>
        requires { j < length self.now }
        ensures { slice_get self.now j ≡ Some result }
    {
        let (placing, shifts) = self.placements.placing(j);
        KeptReference {
            cell: &self.names[placing.key as usize],
            by: Map {
                flip: placing.flip,
                turn: placing.turn,
                at: placing.at,
            },
            shifts,
        }
    }

    /// Adds a reference. If there is no memory for it, nothing changes.
    pub(crate) fn push(&mut self, reference: Reference) -> Result<(), AllocError>
        ensures added { OnOk result (self.new ≡ self.old ++ reference ∷ []) }
        ensures kept { OnErr result (self.new ≡ self.old) }
    {
        let Reference {
            cell,
            flip,
            turn,
            at,
            shifts,
        } = reference;
        let key = index_of_name(&mut self.names, cell)?;
        self.placements.push(key, Map { flip, turn, at }, shifts)?;
        Ok(())
    }
}
