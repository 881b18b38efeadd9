//! Finds why a top covers a square.
ghost use Rattle.std.specs.Prelude.{◌≡◌, ◌<◌, length, map, All, IfOk, IfSome, IfNone};
ghost use Rattle.lvl_flat.specs.Flattened.{TopCovers};
ghost use Rattle.lvl_why.specs.Whys.{IsNamed, IsNamedStep, IsWhy};
ghost use Rattle.lvl_why.specs.inside.Steps.{IsWithin};
ghost use Rattle.lvl_witness.specs.Witnesses.{IsWitness};

use crate::why::{NamedStep, Why};
use lvl_cells::Checked;
use lvl_flat::Fitted;
use lvl_grid::Square;
use lvl_names::Layer;
use lvl_witness::{Step, Witness, find_witness};
use std::alloc::{AllocError, Global};

/// The name of the cell at an index.
fn name_of(alloc: Global, checked: &Checked, cell: usize) -> Result<Vec<u8>, AllocError>
    requires { cell < length checked.now.cells }
    ensures { IfOk result (λ name. IsNamed checked.now.cells cell name.items) }
{
    Vec::from_slice(alloc, checked.cell(cell).name.as_bytes())
}

/// The steps, each with the name of its cell.
fn named(alloc: Global, checked: &Checked, steps: &[Step]) -> Result<Vec<NamedStep>, AllocError>
    requires { All (IsWithin checked.now.cells) steps.now }
    ensures same { IfOk result (λ named. map (λ n. n.step) named.items ≡ steps.now) }
    ensures names { IfOk result (λ named. All (IsNamedStep checked.now.cells) named.items) }
{
    let mut named = Vec::with_capacity(alloc, steps.len())?;
    for step in steps {
        let cell = name_of(alloc, checked, step.cell)?;
        named.push(NamedStep { step: *step, cell })?;
    }
    Ok(named)
}

/// The witness with the names of the cells.
fn described(
    alloc: Global,
    fitted: &Fitted,
    layers: &[Layer],
    square: Square,
    witness: &Witness,
) -> Result<Why, AllocError>
    requires { IsWitness fitted.now layers.now square witness.now.steps.items witness.now.ring }
    ensures { IfOk result (IsWhy fitted.now layers.now square) }
{
    let checked = fitted.checked();
    let top = name_of(alloc, checked, checked.top())?;
    let steps = named(alloc, checked, &witness.steps)?;
    Ok(Why {
        top,
        steps,
        ring: witness.ring,
    })
}

/// Why the top covers the square on one of the Layers, or None if it covers it on none of them. Which of several
/// reasons is given is open.
pub fn explain(
    alloc: Global,
    fitted: &Fitted,
    layers: &[Layer],
    square: Square,
) -> Result<Option<Why>, AllocError>
    ensures some { IfOk result (λ found. IfSome found (IsWhy fitted.now layers.now square)) }
    ensures none { IfOk result (λ found. IfNone found (All (λ layer. ¬ TopCovers fitted.now layer square) layers.now)) }
{
    let Some(witness) = find_witness(alloc, fitted, layers, square)? else {
        return Ok(None);
    };
    let why = described(alloc, fitted, layers, square, &witness)?;
    Ok(Some(why))
}
