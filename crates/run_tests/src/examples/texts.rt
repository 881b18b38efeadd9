//! What the documentation of the crates shows, line by line.

use lvl_text::view_fault;
use lvl_view::ViewFault;

#[test]
fn faults(rt: HostRuntime) {
    assert_eq!(rt; view_fault(ViewFault::EmptyWindow), "4 EmptyWindow");
}
