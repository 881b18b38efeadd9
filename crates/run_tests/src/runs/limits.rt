//! Limits of the size of a file that are lower than the standard one.

use super::{sink, square_in_oasis};
use lvl_io::fake::Pieces;
use lvl_profile::{Limits, Profile};
use lvl_report::{Hint, Request, Status, Wanted, run_file};
use std::alloc::{AllocError, Global};
use std::test::Fail;

/// How many bytes may be read of a square in OASIS, which has 303, and at which record it is refused
/// then: within its CELL, before and within its RECTANGLE, before and within its END.
const ROOM: [(u64, u64); 7] = [
    (35, 34),
    (38, 34),
    (39, 39),
    (43, 39),
    (47, 47),
    (100, 47),
    (302, 47),
];

/// Whether the file is refused as too long at this offset if only some of its bytes may be read.
fn is_too_long(alloc: Global, bytes: &[u8], room: u64, offset: u64) -> Result<bool, AllocError> {
    let limits = Limits {
        file: room,
        ..Limits::STANDARD
    };
    let profile = Profile {
        limits,
        ..Profile::STANDARD
    };
    let mut out = sink(alloc, 100)?;
    let request = Request {
        wanted: Wanted::Show,
        top: None,
        profile,
    };
    let ran = run_file(alloc, &mut Pieces::new(bytes, 7), &request, &mut out);
    let line = format!(in alloc; "refused: first: oasis 11 TooLong at {offset}\n")?;
    let is_hinted = match ran {
        Ok(outcome) => outcome.status == Status::Refused && outcome.hint == Some(Hint::LiftLimits),
        Err(_) => false,
    };
    Ok(is_hinted && out.taken.as_slice() == line.as_bytes())
}

#[test]
fn an_oasis_file_past_the_limit(rt: HostRuntime) -> Result<(), Fail> {
    let alloc = rt.alloc();
    let mut square = square_in_oasis(alloc)?;
    for (room, offset) in ROOM {
        assert!(rt; is_too_long(alloc, &square, room, offset)?, "{room}");
    }
    square.push(0)?;
    assert!(rt; is_too_long(alloc, &square, 303, 303)?);
    Ok(())
}
