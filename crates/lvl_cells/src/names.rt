//! An index of the names of cells.
ghost use Rattle.std.specs.Prelude.{IfOk, IfErr};
ghost use Rattle.std.specs.List.{IsDistinct};
ghost use Rattle.std.specs.Str.{bytes_eq};
ghost use Rattle.lvl_cells.specs.Cells.{names};
ghost use Rattle.lvl_cells.specs.Resolving.{IsIndexOf, IsRepeatFault};
ghost use Rattle.lvl_refusal.specs.Refused.{Says};

use crate::fault::CellFault;
use crate::library::Cell;
use lvl_refusal::Cause;
use std::alloc::Global;
use std::collections::BTreeMap;

/// A map from the name of each cell to its index. Refuses with [`CellFault::DuplicateCell`] and the
/// first name that an earlier cell has, if there is one.
pub fn index_of<'a>(
    alloc: Global,
    cells: &'a [Cell],
) -> Result<BTreeMap<&'a [u8], usize>, Cause<CellFault>>
    ensures distinct { IfOk result (λ index. IsDistinct bytes_eq (names cells.now)) }
    ensures index { IfOk result (λ index. IsIndexOf (names cells.now) index) }
    ensures err { IfErr result (λ refusal. Says refusal (IsRepeatFault (names cells.now))) }
{
    let mut index = BTreeMap::new(alloc);
    for (i, cell) in cells.iter().enumerate() {
        let name = cell.name.as_bytes();
        let earlier = index.insert(name, i)?;
        if earlier.is_some() {
            return Err(Cause::Breach(CellFault::DuplicateCell(Vec::from_slice(alloc, name)?)));
        }
    }
    Ok(index)
}
