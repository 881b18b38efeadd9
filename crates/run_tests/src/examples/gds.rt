//! What the documentation of the crates shows, line by line.

use gds_elements::{Element, Step};
use gds_library::read_gds;
use gds_records::fake::{SQUARE, Stream};
use gds_records::{Records, record_type};
use lvl_io::fake::Pieces;
use lvl_profile::Profile;
use std::test::Fail;

#[test]
fn records(rt: HostRuntime) -> Result<(), Fail> {
    let alloc = rt.alloc();
    let bytes = b"\x00\x06\x00\x02\x02\x58";
    let mut records = Records::new(alloc, Pieces::new(bytes, usize::MAX))?;
    let header = records.next()?.ok_or("no record")?;
    assert_eq!(rt; header.kind, record_type::HEADER);
    assert!(rt; header.payload == b"\x02\x58".as_slice());
    assert!(rt; records.next()?.is_none());
    Ok(())
}

#[test]
fn elements(rt: HostRuntime) -> Result<(), Fail> {
    let alloc = rt.alloc();
    let mut element = Element::open(alloc, record_type::BOUNDARY).ok_or("no element")?;
    let step = element.take(alloc, Profile::STANDARD, record_type::LAYER, b"\x00\x01")?;
    assert!(rt; matches!(step, Step::Open));
    assert!(rt; Element::open(alloc, record_type::LAYER).is_none());
    Ok(())
}

#[test]
fn libraries(rt: HostRuntime) -> Result<(), Fail> {
    let alloc = rt.alloc();
    let mut stream = Stream::new(alloc)?;
    stream.structure(b"TOP\0")?;
    stream.boundary(1, 0, &SQUARE)?;
    stream.end_structure()?;
    let (library, head) = read_gds(alloc, &mut Pieces::new(&stream.end()?, usize::MAX))?;
    assert_eq!(rt; library.cells.len(), 1);
    assert_eq!(rt; head.version, 600);
    Ok(())
}
