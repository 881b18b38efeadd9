//! Visits: placed cells whose references are being followed.
ghost use Rattle.std.specs.Prelude.{◌≡◌};
ghost use Rattle.lvl_flat.specs.inside.Entering.{begun};

use lvl_grid::Map;

/// A placed cell whose references are followed one by one. Those with an index before `reference`
/// are done, and of that one the places before `place`. Its places are in rows of `row`, or `row`
/// is 0 if that isn't known yet.
#[derive(Clone, Copy)]
pub(crate) struct Visit {
    pub cell: usize,
    pub map: Map,
    pub reference: usize,
    pub place: u64,
    pub row: u64,
}

impl Visit {
    /// A visit that has followed no reference yet.
    pub(crate) fn begun(cell: usize, map: Map) -> Visit
        ensures { result ≡ begun cell map }
    {
        Visit {
            cell,
            map,
            reference: 0,
            place: 0,
            row: 0,
        }
    }
}
