//! The square in GDSII with each byte set to each value: what is reported of each, however a reader cuts the bytes.

use crate::runs::SQUARE;
use gds_library::{ElementRule, GdsFault, GdsKind, RecordFault, read_gds};
use lvl_io::fake::Pieces;
use lvl_refusal::Cause;
use std::alloc::{AllocError, Global};

/// Where the records of the square begin, and where it ends.
const STARTS: [usize; 14] = [0, 6, 34, 40, 60, 88, 96, 100, 106, 112, 156, 160, 164, 168];

/// The start of the record that has this byte.
fn begun(place: usize) -> u64 {
    let mut start = 0;
    for at in STARTS {
        if at <= place {
            start = at;
        }
    }
    start as u64
}

/// Why these bytes are refused, if they are; at most `most` are read at once.
fn fault_of(alloc: Global, bytes: &[u8], most: usize) -> Option<Cause<GdsFault>> {
    read_gds(alloc, &mut Pieces::new(bytes, most)).err()
}

fn at(offset: u64, kind: GdsKind) -> Option<Cause<GdsFault>> {
    Some(Cause::Breach(GdsFault { offset, kind }))
}

/// The fault of a name with this byte, the last of which may be the zero that fills it.
fn name_fault(value: u8) -> Option<Cause<GdsFault>> {
    let is_name = 0x21 <= value && value <= 0x7E;
    if is_name { None } else { at(88, GdsKind::Name) }
}

/// The fault of a layer or a datatype whose first byte this is.
fn sign_fault(value: u8, offset: u64) -> Option<Cause<GdsFault>> {
    if value < 0x80 {
        None
    } else {
        at(offset, GdsKind::Element(ElementRule::Layer))
    }
}

/// Whether it is a fault of a boundary with another point.
fn is_of_points(fault: Option<Cause<GdsFault>>) -> bool {
    fault == at(112, GdsKind::Element(ElementRule::NotClosed))
        || fault == at(112, GdsKind::Element(ElementRule::Oblique))
}

/// Whether it is a fault at the record of this place or after it, and of the bytes themselves.
fn is_after(place: usize, fault: Option<Cause<GdsFault>>) -> bool {
    match fault {
        Some(Cause::Breach(GdsFault { offset, kind })) => {
            let is_of_reader = kind == GdsKind::Record(RecordFault::Read)
                || kind == GdsKind::Record(RecordFault::TooLong);
            begun(place) <= offset && offset <= 168 && !is_of_reader
        }
        _ => false,
    }
}

/// Whether this is what is reported of the square with the byte at a place set to another value: the fault that its
/// payload's rule names, and of a header some fault no earlier than its record.
fn is_reported(place: usize, value: u8, fault: Option<Cause<GdsFault>>) -> bool {
    match place {
        // a version, times, the library's name and units, a number's lowest byte: they are free
        4..=5 | 10..=33 | 38..=39 | 44..=59 | 64..=87 | 105 | 111 => fault.is_none(),
        92..=95 => fault == name_fault(value),
        104 => fault == sign_fault(value, 100),
        110 => fault == sign_fault(value, 106),
        116..=155 => is_of_points(fault),
        _ => is_after(place, fault),
    }
}

/// Whether that is reported of the square with the byte at a place set to a value, where `kept` is what it had.
fn is_right_with(alloc: Global, bytes: &mut [u8], place: usize, value: u8, kept: u8) -> bool {
    if let Some(byte) = bytes.get_mut(place) {
        *byte = value;
    }
    let fault = fault_of(alloc, bytes, 1000);
    if value == kept {
        fault.is_none()
    } else {
        is_reported(place, value, fault)
    }
}

/// The same with each value, of which the last is the one that the byte had.
fn is_right_with_each(alloc: Global, bytes: &mut [u8], place: usize) -> bool {
    let kept = bytes.get(place).copied().unwrap_or(0);
    for value in 0..=255u8 {
        if !is_right_with(alloc, bytes, place, value, kept) {
            return false;
        }
    }
    is_right_with(alloc, bytes, place, kept, kept)
}

#[test]
fn reports_each_byte_that_is_set(rt: HostRuntime) -> Result<(), AllocError> {
    let mut bytes = Vec::from_slice(rt.alloc(), SQUARE)?;
    for place in 0..bytes.len() {
        assert!(rt;
            is_right_with_each(rt.alloc(), &mut bytes, place),
            "byte {place}"
        );
    }
    Ok(())
}

/// Whether the same is reported in pieces of every size of the bytes with this value at a place.
fn is_alike_with(alloc: Global, bytes: &mut [u8], place: usize, value: u8) -> bool {
    if let Some(byte) = bytes.get_mut(place) {
        *byte = value;
    }
    let fault = fault_of(alloc, bytes, 1000);
    for most in [1, 2, 3] {
        if fault_of(alloc, bytes, most) != fault {
            return false;
        }
    }
    true
}

/// The same with each bit of the byte at a place flipped; then the byte is as it was.
fn are_bits_alike(alloc: Global, bytes: &mut [u8], place: usize) -> bool {
    let kept = bytes.get(place).copied().unwrap_or(0);
    for bit in [1, 2, 4, 8, 16, 32, 64, 128] {
        if !is_alike_with(alloc, bytes, place, kept ^ bit) {
            return false;
        }
    }
    is_alike_with(alloc, bytes, place, kept)
}

#[test]
fn reads_pieces_of_any_size_alike(rt: HostRuntime) -> Result<(), AllocError> {
    let mut bytes = Vec::from_slice(rt.alloc(), SQUARE)?;
    for place in 0..bytes.len() {
        assert!(rt;
            are_bits_alike(rt.alloc(), &mut bytes, place),
            "byte {place}"
        );
    }
    Ok(())
}
