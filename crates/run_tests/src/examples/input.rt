//! What the documentation of `lvl_io` and `lvl_profile` shows, line by line.

use lvl_io::{Counted, Read};
use lvl_profile::{Ignore, IgnoreFault};
use lvl_refusal::Cause;
use std::test::Fail;

#[test]
fn reads_a_slice_of_std(rt: HostRuntime) {
    let bytes: &[u8] = b"mask";
    let mut reader = Counted::new(bytes);
    let mut buf = [0; 3];
    assert_eq!(rt; reader.read(&mut buf), Ok(3));
    assert_eq!(rt; &buf, b"mas");
    assert_eq!(rt; (&mut reader).read(&mut buf), Ok(1));
    assert_eq!(rt; reader.read(&mut buf), Ok(0));
}

#[test]
fn what_is_ignored(rt: HostRuntime) -> Result<(), Fail> {
    let alloc = rt.alloc();
    let ignore = Ignore::read(alloc, "properties,names")?;
    assert!(rt; ignore.properties && ignore.names && !ignore.texts);
    let refused = Ignore::read(alloc, "property");
    assert_eq!(rt; refused, Err(Cause::Breach(IgnoreFault::IgnoreText)));
    Ok(())
}
