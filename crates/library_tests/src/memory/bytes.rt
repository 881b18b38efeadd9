//! Records of GDSII, which take a buffer and no more, and the values of OASIS.

use crate::memory::fence::fence;
use gds_records::Records;
use gds_records::fake::{SQUARE, Stream};
use lvl_io::fake::Pieces;
use lvl_profile::Profile;
use oasis_values::{Input, Real};
use std::alloc::Global;
use std::test::Fail;

/// Adds a structure of a thousand squares.
fn add_squares(stream: &mut Stream) -> Result<(), Fail> {
    stream.structure(b"TOP\0")?;
    for _ in 0..1000u32 {
        stream.boundary(1, 0, &SQUARE)?;
    }
    stream.end_structure()?;
    Ok(())
}

/// A file of a thousand squares.
fn squares(alloc: Global) -> Result<Vec<u8>, Fail> {
    let mut stream = Stream::new(alloc)?;
    add_squares(&mut stream)?;
    Ok(stream.end()?)
}

/// Whether the records are as many as those of the thousand squares, nothing is after them, and they take so many
/// bytes.
fn are_read(records: &mut Records<Pieces<'_>>, bytes: u64) -> bool {
    let mut count = 0u32;
    for _ in 0..5008u32 {
        count = count.saturating_add(u32::from(matches!(records.next(), Ok(Some(_)))));
    }
    count == 5008 && matches!(records.tail(), Ok(None)) && records.offset() == bytes
}

#[test]
fn no_growths_of_records(rt: HostRuntime) -> Result<(), Fail> {
    let alloc = rt.alloc();
    let bytes = squares(alloc)?;
    let mut records = Records::new(alloc, Pieces::new(&bytes, 5000))?;
    fence(alloc)?;
    let are_read = are_read(&mut records, bytes.len() as u64);
    fence(alloc)?;
    assert!(rt; are_read);
    Ok(())
}

/// A byte, 1,000, -5, the reciprocal of 5, 10 north, (5, -5), (10, 10), and 1 as a delta.
const VALUES: &[u8] = b"\x07\xE8\x07\x0B\x02\x05\x29\x2F\xA8\x01\x02";

/// Whether the next values are the numbers of `VALUES`.
fn are_numbers(values: &mut Input<Pieces<'_>>) -> bool {
    let is_whole = values.byte() == Ok(7) && values.unsigned() == Ok(1000);
    is_whole && values.signed() == Ok(-5) && values.real() == Ok(Real::Reciprocal(5))
}

/// Whether the next values are its deltas, after which there is none.
fn are_deltas(values: &mut Input<Pieces<'_>>) -> bool {
    let are_pairs = values.two_delta().is_ok() && values.three_delta().is_ok();
    let are_last = values.g_delta().is_ok() && values.one_delta() == Ok(1);
    are_pairs && are_last && values.byte().is_err() && values.offset() == 11
}

#[test]
fn no_growths_of_values(rt: HostRuntime) -> Result<(), Fail> {
    let mut values = Input::new(Pieces::new(VALUES, 3), Profile::STANDARD);
    fence(rt.alloc())?;
    let are_read = are_numbers(&mut values) && are_deltas(&mut values);
    fence(rt.alloc())?;
    assert!(rt; are_read);
    Ok(())
}
