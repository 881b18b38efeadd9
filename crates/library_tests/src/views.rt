//! The Layer that a refused map has twice, which the program doesn't print.
use crate::words::{cut, is_text, rows_hold};
use lvl_refusal::Cause;
use lvl_view::{View, ViewFault};
use std::alloc::{AllocError, Global};
use std::test::Fail;

/// Why the texts are refused, or None where they say a view.
fn fault_of(
    alloc: Global,
    map: Option<&str>,
    window: Option<&str>,
) -> Result<Option<ViewFault>, AllocError> {
    match View::read(alloc, map, window) {
        Ok(_) => Ok(None),
        Err(Cause::Breach(fault)) => Ok(Some(fault)),
        Err(Cause::OutOfMemory) => Err(AllocError),
    }
}

/// The Layer of a source that is in a map twice.
fn twice(alloc: Global, map: &str) -> Result<String, AllocError> {
    match fault_of(alloc, Some(map), None)? {
        Some(ViewFault::MapTwice(source)) => {
            format!(in alloc; "{}/{}", source.layer, source.datatype)
        }
        _ => String::from_str(alloc, "another answer"),
    }
}

/// Maps and the Layer that is reported: the first source that an earlier pair has, not the first of the pairs with
/// one source.
const TWICE: &str = "\
1/0=2/0,1/0=3/0 | 1/0
1/0=2/0,1/0=2/0 | 1/0
01/00=2/0,1/0=3/0 | 1/0
1/0=2/0,0000000001/0=3/0 | 1/0
5/1=2/0,3/2=1/0,3/2=9/9,5/1=0/0 | 3/2
7/7=7/7,8/8=7/7,7/7=7/7,8/8=7/7 | 7/7
";

/// Whether the Layer of a row is there twice.
fn row_is_twice(alloc: Global, row: &str) -> Result<bool, Fail> {
    let (map, want) = cut(row, " | ");
    is_text(twice(alloc, map).map_err(Fail::from), want)
}

#[test]
fn sources_twice(rt: HostRuntime) -> Result<(), Fail> {
    rows_hold(rt.alloc(), TWICE, row_is_twice)
}
