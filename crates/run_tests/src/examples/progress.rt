//! What the documentation of `lvl_progress` shows, line by line.

use lvl_progress::{After, Meter, Watched};
use std::alloc::AllocError;
use std::io::Read;

#[test]
fn watched(rt: HostRuntime) -> Result<(), AllocError> {
    let alloc = rt.alloc();
    let terminal: Vec<u8> = Vec::new(alloc);
    let meter = Meter::new(alloc, terminal, "mask.gds", Some(4), After::Nothing)?;
    let bytes: &[u8] = b"mask";
    let mut reader = Watched::new(bytes, Some(meter));
    let mut buf = [0; 3];
    assert_eq!(rt; reader.read(&mut buf).ok(), Some(3));
    Ok(())
}
