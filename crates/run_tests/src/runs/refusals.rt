//! The texts of refusals that no file brings about, and of one with a name that no file has.

use gds_library::{ElementRule, GdsFault, GdsKind};
use lvl::{Answer, CellRefusal, FileFault, Refusal};
use lvl_cells::CellFault;
use lvl_path::PathFault;
use lvl_region::Side;
use lvl_report::form;
use std::alloc::{AllocError, Global};
use std::process::Abort;
use std::test::Fail;

fn reported(alloc: Global, refusal: Refusal) -> Result<Vec<u8>, AllocError> {
    let answer: Result<Answer, Refusal> = Err(refusal);
    form(alloc, &answer)
}

/// A path's fault in the second file, at the last offset of all.
fn reported_of_path(alloc: Global, fault: PathFault) -> Result<Vec<u8>, AllocError> {
    let offset = 4_294_967_295;
    let kind = GdsKind::Element(ElementRule::Path(fault));
    let fault = FileFault::Gds(GdsFault { offset, kind });
    reported(alloc, Refusal::File(Side::Second, fault))
}

fn check_path(
    rt: &impl Abort,
    alloc: Global,
    fault: PathFault,
    name: &str,
) -> Result<(), AllocError> {
    let text = reported_of_path(alloc, fault)?;
    let line = format!(in alloc; "refused: second: gds 21 Path {name} at 4294967295\n")?;
    assert_eq!(rt; text.as_slice(), line.as_bytes());
    Ok(())
}

#[test]
fn faults_of_paths(rt: HostRuntime) -> Result<(), Fail> {
    check_path(&rt, rt.alloc(), PathFault::NoWidth, "1 NoWidth")?;
    check_path(&rt, rt.alloc(), PathFault::FewPoints, "2 FewPoints")?;
    check_path(&rt, rt.alloc(), PathFault::OutOfRange, "7 OutOfRange")?;
    Ok(())
}

#[test]
fn names_as_bytes_and_memory(rt: HostRuntime) -> Result<(), Fail> {
    let from = Vec::from_slice(rt.alloc(), b"B")?;
    let name = Vec::from_slice(rt.alloc(), b"X\xFF")?;
    let refused = CellRefusal {
        fault: CellFault::MissingCell(from, name),
        tops: Vec::new(rt.alloc()),
    };
    let missing = Refusal::Cells(Side::First, refused);
    let text = reported(rt.alloc(), missing)?;
    assert!(rt; text.as_slice() == b"refused: first: cells 3 MissingCell B X\xFF\n".as_slice());
    let text = reported(rt.alloc(), Refusal::OutOfMemory)?;
    assert!(rt; text.as_slice() == b"refused: out of memory\n".as_slice());
    Ok(())
}
