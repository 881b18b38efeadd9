//! The cells of a library, sound or not, and which of them could be its top.
ghost use Rattle.std.specs.Prelude.{◌≡◌, ◌<◌, ◌||◌, ℕ, List, length, not, IfOk, IsTrue, OnOk};
ghost use Rattle.std.specs.List.{list_any};
ghost use Rattle.std.specs.Str.{bytes_eq};
ghost use Rattle.lvl_cells.specs.Soundness.{AreReferred};
ghost use Rattle.lvl_count.specs.Listed.{listed, tops};
ghost use Rattle.lvl_count.specs.inside.Referring.{HasReferred, Repeats, has_name};

use lvl_cells::{Cell, References};
use lvl_names::Name;
use std::alloc::{AllocError, Global};
use std::collections::BTreeSet;

/// What is listed of a cell.
#[derive(Debug, Drop)]
pub struct ListedCell {
    pub name: Name,
    /// The number of its shapes.
    pub shapes: usize,
    /// The number of its references.
    pub references: usize,
    /// Whether no cell of the library refers to it.
    pub is_top: bool,
}

/// Adds a name to a set.
fn add_name(alloc: Global, referred: &mut BTreeSet<Vec<u8>>, name: &[u8]) -> Result<(), AllocError>
    ensures { OnOk result ((q : List ℕ) → has_name referred.new q ≡ (has_name referred.old q || bytes_eq q name.now)) }
{
    if referred.contains(name) {
        return Ok(());
    }
    referred.insert(Vec::from_slice(alloc, name)?)?;
    Ok(())
}

/// Whether a reference is to the cell of the one before it.
fn is_repeated(references: &References, j: usize) -> bool
    requires { j < length references.now }
    ensures { IsTrue result → Repeats references.now j }
{
    if j == 0 {
        return false;
    }
    references.reference(j).cell() == references.reference(j - 1).cell()
}

/// Adds the names to which references refer.
fn add_names(
    alloc: Global,
    referred: &mut BTreeSet<Vec<u8>>,
    references: &References,
) -> Result<(), AllocError>
    ensures { OnOk result ((q : List ℕ)
        → has_name referred.new q ≡ (has_name referred.old q || list_any (λ r. bytes_eq q r.cell) references.now)) }
{
    for j in 0..references.len() {
        if !is_repeated(references, j) {
            add_name(alloc, referred, references.reference(j).cell())?;
        }
    }
    Ok(())
}

/// The names to which cells refer.
fn referred_names(alloc: Global, cells: &[Cell]) -> Result<BTreeSet<Vec<u8>>, AllocError>
    ensures { IfOk result (λ referred. HasReferred referred cells.now) }
{
    let mut referred = BTreeSet::new(alloc);
    for cell in cells {
        add_names(alloc, &mut referred, &cell.references)?;
    }
    Ok(referred)
}

/// Whether a cell isn't among those that are referred to.
fn is_top(referred: &BTreeSet<Vec<u8>>, cell: &Cell) -> bool
    ensures { result ≡ not (has_name referred.now cell.now.name) }
{
    !referred.contains(cell.name.as_bytes())
}

/// The names of the cells to which no cell refers, in file order. The library needn't be sound.
pub fn top_names(alloc: Global, cells: &[Cell]) -> Result<Vec<Name>, AllocError>
    ensures { IfOk result (λ names. names.items ≡ tops cells.now) }
{
    let referred = referred_names(alloc, cells)?;
    let mut names = Vec::new(alloc);
    for cell in cells {
        if is_top(&referred, cell) {
            names.push(cell.name.clone()?)?;
        }
    }
    Ok(names)
}

/// The names of the cells to which no cell refers, in file order, if it is known of each cell whether some cell refers
/// to it. No name is sought.
pub fn unreferred_names(
    alloc: Global,
    cells: &[Cell],
    referred: &[bool],
) -> Result<Vec<Name>, AllocError>
    requires { AreReferred cells.now referred.now }
    ensures { IfOk result (λ names. names.items ≡ tops cells.now) }
{
    let mut names = Vec::new(alloc);
    for (k, cell) in cells.iter().enumerate() {
        if !referred[k] {
            names.push(cell.name.clone()?)?;
        }
    }
    Ok(names)
}

/// The cells in file order, each with the numbers of its shapes and of its references, and whether no cell
/// refers to it. The library needn't be sound.
pub fn listed_cells(alloc: Global, cells: &[Cell]) -> Result<Vec<ListedCell>, AllocError>
    ensures { IfOk result (λ list. list.items ≡ listed cells.now) }
{
    let referred = referred_names(alloc, cells)?;
    let mut list = Vec::with_capacity(alloc, cells.len())?;
    for cell in cells {
        list.push(ListedCell {
            name: cell.name.clone()?,
            shapes: cell.shapes.len(),
            references: cell.references.len(),
            is_top: is_top(&referred, cell),
        })?;
    }
    Ok(list)
}
