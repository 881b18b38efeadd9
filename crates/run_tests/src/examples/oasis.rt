//! What the documentation of the crates shows, line by line.

use lvl_inflate::Inflate;
use lvl_io::fake::Pieces;
use lvl_io::{Counted, Read};
use lvl_profile::{Ignore, Profile};
use lvl_units::GridStep;
use oasis_blocks::{Unpacker, read_packed};
use oasis_figures::{DrawnRecord, Modal};
use oasis_library::read_oasis;
use oasis_records::{Record, RecordType, read_fields, read_id};
use oasis_stream::{Order, read_first, read_next};
use oasis_values::{Input, Real};
use std::alloc::{AllocError, Global};
use std::test::Fail;

/// A RECTANGLE of 10 by 10 at (0, 0).
const RECTANGLE: &[u8] = b"\x14\x7B\x01\x00\x0A\x0A\x00\x00";

/// The first bytes of a file, up to its first cell.
const TO_CELL: &[u8] =
    b"%SEMI-OASIS\r\n\x01\x031.0\x00\xE8\x07\0\0\0\0\0\0\0\0\0\0\0\0\0\x0E\x03TOP";

/// A file with one cell, which draws the rectangle.
fn square(alloc: Global) -> Result<Vec<u8>, AllocError> {
    let mut bytes = Vec::from_slice(alloc, TO_CELL)?;
    bytes.extend_from_slice(RECTANGLE)?;
    bytes.extend_from_slice(b"\x02\xFC\x01")?;
    bytes.extend_from_slice(&[0; 253])?;
    Ok(bytes)
}

#[test]
fn values(rt: HostRuntime) {
    let mut input = Input::new(Pieces::new(b"\xE8\x07\x0B", usize::MAX), Profile::STANDARD);
    assert_eq!(rt; input.unsigned(), Ok(1000));
    assert_eq!(rt; input.signed(), Ok(-5));
    assert_eq!(rt; input.offset(), 3);
}

#[test]
fn records(rt: HostRuntime) -> Result<(), Fail> {
    let alloc = rt.alloc();
    let mut input = Input::new(Pieces::new(RECTANGLE, usize::MAX), Profile::STANDARD);
    let id = read_id(&mut input)?;
    let kind = RecordType::of(id.value, input.profile())?;
    let mut record = Record::Pad;
    read_fields(&mut input, alloc, kind, id.len, false, &mut record)?;
    assert!(rt; matches!(record, Record::Rectangle(_)));
    Ok(())
}

/// The record of the rectangle.
fn rectangle(alloc: Global) -> Result<Record, Fail> {
    let mut input = Input::new(Pieces::new(RECTANGLE, usize::MAX), Profile::STANDARD);
    let id = read_id(&mut input)?;
    let kind = RecordType::of(id.value, input.profile())?;
    let mut record = Record::Pad;
    read_fields(&mut input, alloc, kind, id.len, false, &mut record)?;
    Ok(record)
}

#[test]
fn figures(rt: HostRuntime) -> Result<(), Fail> {
    let alloc = rt.alloc();
    let mut record = rectangle(alloc)?;
    let mut modal = Modal::new();
    let drawn = modal.take(alloc, Ignore::NOTHING, &mut record)?;
    assert!(rt; matches!(drawn, Some(DrawnRecord::Rectangle(_, _, _))));
    Ok(())
}

#[test]
fn streams(rt: HostRuntime) -> Result<(), Fail> {
    let alloc = rt.alloc();
    let bytes = TO_CELL;
    let mut input = Input::new(Pieces::new(&bytes, usize::MAX), Profile::STANDARD);
    let mut order = Order::new();
    read_first(&mut input)?;
    let mut record = Record::Pad;
    read_next(&mut input, alloc, &order, &mut record)?;
    order.pass(&record);
    read_next(&mut input, alloc, &order, &mut record)?;
    assert!(rt; matches!(record, Record::Cell(_)));
    Ok(())
}

#[test]
fn libraries(rt: HostRuntime) -> Result<(), Fail> {
    let alloc = rt.alloc();
    let bytes = square(alloc)?;
    let (library, head) = read_oasis(alloc, &mut Pieces::new(&bytes, usize::MAX))?;
    assert_eq!(rt; library.cells.len(), 1);
    assert_eq!(rt; head.unit, Real::Whole(1000));
    Ok(())
}

#[test]
fn grid_steps(rt: HostRuntime) -> Result<(), Fail> {
    let nanometre = [0x39, 0x44, 0xb8, 0x2f, 0xa0, 0x9b, 0x5a, 0x54];
    let first = GridStep::of_gds(nanometre).ok_or("a length")?;
    let second = GridStep::of_oasis(&Real::Whole(1000)).ok_or("a length")?;
    assert!(rt; !first.is_apart(second));
    assert_eq!(rt; first.millionths(), 1_000_000);
    let twice = GridStep::of_oasis(&Real::Whole(500)).ok_or("a length")?;
    assert!(rt; first.is_apart(twice));
    Ok(())
}

#[test]
fn unpacked_bytes(rt: HostRuntime) -> Result<(), Fail> {
    let packed: &[u8] = b"\x4b\x04\x00";
    let mut inflate = Inflate::new(rt.alloc(), Counted::new(packed), 3)?;
    let mut buf = [0; 8];
    assert_eq!(rt; inflate.read(&mut buf), Ok(1));
    assert_eq!(rt; buf[0], b'a');
    assert_eq!(rt; inflate.read(&mut buf), Ok(0));
    Ok(())
}

#[test]
fn block(rt: HostRuntime) -> Result<(), Fail> {
    let alloc = rt.alloc();
    let bytes: &[u8] = b"\x01\x03\x4b\x04\x00";
    let mut input = Input::new(Pieces::new(bytes, usize::MAX), Profile::STANDARD);
    let block = read_packed(&mut input, alloc)?;
    let mut unpacked = block.unpack(alloc, &mut Unpacker::new(), 100)?;
    let mut buf = [0; 8];
    assert_eq!(rt; unpacked.read(&mut buf), Ok(1));
    assert_eq!(rt; buf[0], b'a');
    Ok(())
}
