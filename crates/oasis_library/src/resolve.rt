//! Replaces the numbers of cells by their names.
ghost use Rattle.std.specs.Prelude.{◌≡◌, ◌<◌, List, Some, IfOk, IfErr, IfSome, IfNone, flat_map, length};
ghost use Rattle.std.specs.Prelude.{All};
ghost use Rattle.std.specs.List.{AllZip};
ghost use Rattle.lvl_refusal.specs.Refused.{Says};
ghost use Rattle.oasis_records.specs.declared.cell.CellName.{CellName as Given};
ghost use Rattle.oasis_stream.specs.Names.{meant};
ghost use Rattle.oasis_library.specs.Names.{IsReference, IsCell, AreCells, number_in, numbers_in, numbers_used};
ghost use Rattle.oasis_library.specs.Names.{IsNamed, IsUnnamed};
ghost use Rattle.oasis_library.specs.inside.Holds.{HoldsNames};
ghost use Rattle.oasis_library.specs.inside.Kept.{target_ref, placed_from};
ghost use Rattle.oasis_library.specs.inside.Resolved.{IsNameOf};

use crate::drawing::Drawing;
use crate::drawings::Drawings;
use crate::names::Names;
use crate::placement::{PlacedCells, Target};
use lvl_cells::{Cell, Placements, References};
use lvl_names::Name;
use lvl_refusal::Cause;
use std::alloc::{AllocError, Global};

// The name of the target, or its number if no name has it.
fn name_of_target(names: &Names, target: &Target) -> Result<Name, Cause<u64>>
    ensures ok { IfOk result (λ name. (given : List Given) → HoldsNames names.now given
        → meant given (target_ref target.now) ≡ Some name) }
    ensures err { IfErr result (λ e. Says e (λ number. (given : List Given) → HoldsNames names.now given
        → IsUnnamed given (number_in (target_ref target.now)) number)) }
{
    match target {
        Target::Number(number) => match names.get(*number) {
            Some(name) => {
                let name = name.clone()?;
                Ok(name)
            }
            None => Err(Cause::Breach(*number)),
        },
        Target::Name(name) => {
            let name = name.clone()?;
            Ok(name)
        }
    }
}

// The number of the target, if no name has it.
fn unnamed_number(names: &Names, target: &Target) -> Option<u64>
    ensures some { IfSome result (λ number. (given : List Given) → HoldsNames names.now given
        → IsUnnamed given (number_in (target_ref target.now)) number) }
    ensures none { IfNone result ((given : List Given) → HoldsNames names.now given
        → All (IsNamed given) (number_in (target_ref target.now))) }
{
    match target {
        Target::Number(number) => match names.get(*number) {
            Some(_) => None,
            None => Some(*number),
        },
        Target::Name(_) => None,
    }
}

// The first number among the placed cells that no name has.
fn first_unnamed(names: &Names, targets: &[Target], placements: &Placements) -> Option<u64>
    requires { All (λ p. p.key < length targets.now) placements.now }
    ensures some { IfSome result (λ number. (given : List Given) → HoldsNames names.now given
        → IsUnnamed given (flat_map (λ p. number_in (placed_from targets.now p).cell) placements.now) number) }
    ensures none { IfNone result ((given : List Given) → HoldsNames names.now given
        → All (IsNamed given) (flat_map (λ p. number_in (placed_from targets.now p).cell) placements.now)) }
{
    for j in 0..placements.len() {
        let target = &targets[placements.key(j)];
        if let Some(number) = unnamed_number(names, target) {
            return Some(number);
        }
    }
    None
}

// The names of the targets. A target has an empty one if no name has its number.
fn names_of(alloc: Global, names: &Names, targets: &[Target]) -> Result<Vec<Name>, AllocError>
    ensures many { IfOk result (λ named. length named.items ≡ length targets.now) }
    ensures named { IfOk result (λ named. (given : List Given) → HoldsNames names.now given
        → AllZip (IsNameOf given) targets.now named.items) }
{
    let mut named = Vec::with_capacity(alloc, targets.len())?;
    for target in targets {
        let name = match name_of_target(names, target) {
            Ok(name) => name,
            Err(Cause::Breach(_)) => Name::empty(),
            Err(Cause::OutOfMemory) => return Err(AllocError),
        };
        named.push(name)?;
    }
    Ok(named)
}

// The references that the placements of a cell are.
fn references_of(
    alloc: Global,
    names: &Names,
    placed: PlacedCells,
) -> Result<References, Cause<u64>>
    ensures ok { IfOk result (λ references. (given : List Given) → HoldsNames names.now given
        → AllZip (IsReference given) placed references) }
    ensures err { IfErr result (λ e. Says e (λ number. (given : List Given) → HoldsNames names.now given
        → IsUnnamed given (flat_map (λ p. number_in p.cell) placed) number)) }
{
    let (targets, placements) = placed.into_parts(alloc)?;
    if let Some(number) = first_unnamed(names, &targets, &placements) {
        return Err(Cause::Breach(number));
    }
    let named = names_of(alloc, names, &targets)?;
    let references = References::of(alloc, named, placements)?;
    Ok(references)
}

// The cell that the drawing is. Its own number is looked up before those of the cells that it
// places.
fn cell_of(alloc: Global, names: &Names, drawing: Drawing) -> Result<Cell, Cause<u64>>
    ensures ok { IfOk result (λ cell. (given : List Given) → HoldsNames names.now given → IsCell given drawing cell) }
    ensures err { IfErr result (λ e. Says e (λ number. (given : List Given) → HoldsNames names.now given
        → IsUnnamed given (numbers_in drawing) number)) }
{
    let Drawing {
        name,
        shapes,
        placements,
    } = drawing;
    let name = name_of_target(names, &name)?;
    let references = references_of(alloc, names, placements)?;
    Ok(Cell {
        name,
        shapes,
        references,
    })
}

// The cells that the drawings of a piece are.
fn resolve_piece(
    alloc: Global,
    names: &Names,
    drawings: Vec<Drawing>,
) -> Result<Vec<Cell>, Cause<u64>>
    ensures ok { IfOk result (λ cells. (given : List Given) → HoldsNames names.now given
        → AreCells given drawings.items cells.items) }
    ensures err { IfErr result (λ e. Says e (λ number. (given : List Given) → HoldsNames names.now given
        → IsUnnamed given (numbers_used drawings.items) number)) }
{
    let mut cells = Vec::with_capacity(alloc, drawings.len())?;
    for drawing in drawings {
        let cell = cell_of(alloc, names, drawing)?;
        cells.push(cell)?;
    }
    Ok(cells)
}

/// The cells with numbers replaced by names, or the first number used that no name has. Frees the
/// drawings piece by piece.
pub(crate) fn resolve_cells(
    alloc: Global,
    names: &Names,
    drawings: Drawings,
) -> Result<Vec<Cell>, Cause<u64>>
    ensures ok { IfOk result (λ cells. (given : List Given) → HoldsNames names.now given
        → AreCells given drawings cells.items) }
    ensures err { IfErr result (λ e. Says e (λ number. (given : List Given) → HoldsNames names.now given
        → IsUnnamed given (numbers_used drawings) number)) }
{
    let mut cells = Vec::new(alloc);
    for piece in drawings.into_pieces() {
        let mut more = resolve_piece(alloc, names, piece)?;
        cells.append(&mut more)?;
    }
    Ok(cells)
}
