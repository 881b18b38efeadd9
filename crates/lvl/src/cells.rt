//! Lists the cells of one layout, whether it is sound or not.
ghost use Rattle.std.specs.Prelude.{List, ℕ, Option, IfErr};
ghost use Rattle.lvl_region.specs.declared.region.Side.TheVariants.{First};
ghost use Rattle.lvl.specs.Listings.{IsListedFile};
ghost use Rattle.lvl.specs.Readers.{IsFoundBy, input};
ghost use Rattle.lvl.specs.Sides.{IsOfFile};

use crate::layout::Head;
use crate::side::read_side;
use crate::verdict::Refusal;
use lvl_count::{ListedCell, listed_cells};
use lvl_io::Read;
use lvl_profile::Profile;
use lvl_region::Side;
use std::alloc::Global;

/// The cells of a file.
#[derive(Debug, Drop)]
pub struct CellList {
    /// What the file says about itself.
    pub head: Head,
    /// Its cells, in file order.
    pub cells: Vec<ListedCell>,
}

/// The cells of a file, in file order, each with the numbers of its shapes and references as the file has them, and
/// whether no cell of the file refers to it. The library needn't be sound: cells may have one name, and references may
/// be to cells that aren't there, or lead in a circle. No top is asked for. A refusal is of [`Side::First`]: the file
/// wasn't read, or it is out of memory.
pub fn list_cells<R: Read>(
    alloc: Global,
    reader: &mut R,
    profile: Profile,
) -> Result<CellList, Refusal>
    ensures found { (top : Option (List ℕ)) → IsFoundBy IsListedFile (input profile (R.remaining reader.old)
        (R.remaining reader.new) (R.read_errors reader.old) (R.read_errors reader.new) top) result }
    ensures side { IfErr result (IsOfFile First) }
{
    let (library, head) = read_side(alloc, Side::First, reader, profile)?;
    match listed_cells(alloc, &library.cells) {
        Ok(cells) => Ok(CellList { head, cells }),
        Err(_) => Err(Refusal::OutOfMemory),
    }
}
