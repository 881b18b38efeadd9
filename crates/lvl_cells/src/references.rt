//! The references of a cell.
ghost use Rattle.std.specs.Prelude.{◌≡◌, ◌<◌, ◌↔◌, ◌++◌, ◌∷◌, [], length, slice_get, All, IsTrue, map, Some, IfOk};
ghost use Rattle.std.specs.Prelude.{OnOk, OnErr};
ghost use Rattle.lvl_cells.specs.Cells.{reference_to};
ghost use Rattle.lvl_cells.specs.inside.Boxed.{stored_list};

use crate::placements::Placements;
use crate::reference::{KeptReference, Reference};
use crate::reference_lists::ReferenceLists;
use crate::single_reference::SingleReference;
use lvl_names::Name;
use std::alloc::{AllocError, Global};
use std::marker::Model;

/// The references of a cell in file order.
///
/// An empty list allocates nothing. A single reference keeps no list for the zero shift alone. Of
/// several, a reference takes 24 bytes if its name and its shifts are those of the reference before,
/// or if it has a single place; a name and a list of shifts that aren't are kept beside it.
#[derive(Drop)]
pub struct References {
    alloc: Global,
    stored: Stored,
}

/// How the references of a cell are stored.
#[derive(Drop)]
enum Stored {
    None,
    One(Box<SingleReference>),
    Several(Box<ReferenceLists>),
}

impl Model for References {
    ghost use Rattle.std.specs.Prelude.{List};
    ghost use Rattle.lvl_cells.specs.Cells.{PlainReference};
    ghost use Rattle.lvl_cells.specs.inside.Boxed.{stored_list};

    ghost Value = { List PlainReference };

    ghost view = { λ r. stored_list r.stored };
}

/// Stores some references in the smallest form.
fn smallest(alloc: Global, lists: ReferenceLists) -> Result<Stored, AllocError>
    ensures { IfOk result (λ stored. stored_list stored ≡ lists) }
{
    match lists.len() {
        0 => Ok(Stored::None),
        1 => {
            let single = SingleReference::new(alloc, lists.reference(0).copied()?)?;
            Ok(Stored::One(Box::new(alloc, single)?))
        }
        _ => Ok(Stored::Several(Box::new(alloc, lists)?)),
    }
}

/// The lists of two references.
fn lists_of(
    alloc: Global,
    first: &SingleReference,
    second: Reference,
) -> Result<ReferenceLists, AllocError>
    ensures { IfOk result (λ lists. lists ≡ first.now ∷ second ∷ []) }
{
    let mut lists = ReferenceLists::new(alloc);
    lists.push(first.kept().copied()?)?;
    lists.push(second)?;
    Ok(lists)
}

impl References {
    /// An empty list. Allocates nothing.
    pub fn new(alloc: Global) -> References
        ensures { result ≡ [] }
    {
        References {
            alloc,
            stored: Stored::None,
        }
    }

    /// The references that place the cells of these names: each placement has the index of its
    /// name.
    pub fn of(
        alloc: Global,
        names: Vec<Name>,
        placements: Placements,
    ) -> Result<References, AllocError>
        requires { All (λ p. p.key < length names.items) placements }
        ensures { IfOk result (λ references. references ≡ map (reference_to names.items) placements) }
    {
        let lists = ReferenceLists::of(names, placements);
        let stored = smallest(alloc, lists)?;
        Ok(References { alloc, stored })
    }

    /// The number of references.
    pub fn len(&self) -> usize
        ensures { result ≡ length self.now }
    {
        match &self.stored {
            Stored::None => 0,
            Stored::One(_) => 1,
            Stored::Several(lists) => lists.len(),
        }
    }

    /// Whether there is no reference.
    pub fn is_empty(&self) -> bool
        ensures { IsTrue result ↔ (self.now ≡ []) }
    {
        self.len() == 0
    }

    /// The reference at this index.
    pub fn reference(&self, j: usize) -> KeptReference<'_>
        requires { j < length self.now }
        ensures { slice_get self.now j ≡ Some result }
    {
        match &self.stored {
            Stored::None => unreachable!(),
            Stored::One(single) => single.kept(),
            Stored::Several(lists) => lists.reference(j),
        }
    }

    /// The reference at this index, or None if there is none.
    pub fn get(&self, j: usize) -> Option<KeptReference<'_>>
        ensures { result ≡ slice_get self.now j }
    {
        if j >= self.len() {
            return None;
        }
        Some(self.reference(j))
    }

    /// Adds a reference. If there is no memory for it, nothing changes.
    pub fn push(&mut self, reference: Reference) -> Result<(), AllocError>
        ensures added { OnOk result (self.new ≡ self.old ++ reference ∷ []) }
        ensures kept { OnErr result (self.new ≡ self.old) }
    {
        match &mut self.stored {
            Stored::None => {
                let single = SingleReference::new(self.alloc, reference)?;
                self.stored = Stored::One(Box::new(self.alloc, single)?);
            }
            Stored::One(first) => {
                let lists = lists_of(self.alloc, first, reference)?;
                self.stored = Stored::Several(Box::new(self.alloc, lists)?);
            }
            Stored::Several(lists) => lists.push(reference)?,
        }
        Ok(())
    }
}
