//! The numbers of the faults that have one, as a caller of the library sees them.

use lvl_grid::{PlaceFault, RingFault};
use lvl_path::PathFault;
use lvl_report::RunFault;

#[test]
fn faults_have_their_numbers(rt: HostRuntime) {
    let rows: [(u8, u8); 13] = [
        (RingFault::TooFew as u8, 1),
        (RingFault::Oblique as u8, 2),
        (PlaceFault::OutOfRange as u8, 1),
        (PlaceFault::OutOfMemory as u8, 2),
        (PathFault::NoWidth as u8, 1),
        (PathFault::FewPoints as u8, 2),
        (PathFault::Oblique as u8, 3),
        (PathFault::RepeatedPoint as u8, 4),
        (PathFault::TurnsBack as u8, 5),
        (PathFault::ShortRun as u8, 6),
        (PathFault::OutOfRange as u8, 7),
        (RunFault::Output as u8, 1),
        (RunFault::OutOfMemory as u8, 2),
    ];
    for (number, want) in rows {
        assert_eq!(rt; number, want);
    }
}
