//! Files of several kilobytes whose reader fails at each byte.

use super::{BEGIN, END, RECTANGLE, SQUARE, no_tops, sink};
use lvl_io::fake::Pieces;
use lvl_report::{Status, run, run_show};
use std::alloc::Global;
use std::process::Abort;
use std::test::Fail;

/// A part of a file, where its records begin, and at the end where the file ends.
type Part = (&'static [u8], &'static [usize]);

/// Adds a part `count` times, and where its records begin.
fn put(
    bytes: &mut Vec<u8>,
    starts: &mut Vec<usize>,
    (added, offsets): Part,
    count: u32,
) -> Result<(), Fail> {
    for _ in 0..count {
        for offset in offsets {
            starts.push(bytes.len().saturating_add(*offset))?;
        }
        bytes.extend_from_slice(added)?;
    }
    Ok(())
}

/// Adds `count` squares in GDSII.
fn put_gds(bytes: &mut Vec<u8>, starts: &mut Vec<usize>, count: u32) -> Result<(), Fail> {
    put(bytes, starts, (&SQUARE[..96], &[0, 6, 34, 40, 60, 88]), 1)?;
    put(
        bytes,
        starts,
        (&SQUARE[96..160], &[0, 4, 10, 16, 60]),
        count,
    )?;
    put(bytes, starts, (&SQUARE[160..], &[0, 4, 8]), 1)
}

/// Adds `count` squares in OASIS.
fn put_oasis(bytes: &mut Vec<u8>, starts: &mut Vec<usize>, count: u32) -> Result<(), Fail> {
    put(bytes, starts, (BEGIN, &[0, 13, 34]), 1)?;
    put(bytes, starts, (RECTANGLE, &[0]), count)?;
    put(bytes, starts, (END, &[0]), 1)?;
    put(bytes, starts, (&[0; 253], &[253]), 1)
}

/// The start of the record that isn't whole in the first `k` bytes.
fn begun(starts: &[usize], k: usize) -> usize {
    starts
        .iter()
        .copied()
        .filter(|start| *start <= k)
        .max()
        .unwrap_or(0)
}

/// These bytes, and then a failure each time that more are asked for.
fn failing(bytes: &[u8]) -> Pieces<'_> {
    Pieces {
        rest: bytes,
        most: 50,
        failures: 9,
        errors: 0,
    }
}

/// What is written of two files of which one fails, or of one that is shown.
fn failed(alloc: Global, bytes: &[u8], side: &str) -> Result<Vec<u8>, Fail> {
    let mut out = sink(alloc, 1000)?;
    let mut whole = Pieces::new(SQUARE, 1000);
    let mut cut = failing(bytes);
    let ran = match side {
        "first" => run(alloc, &mut cut, &mut whole, &no_tops(), &mut out),
        "second" => run(alloc, &mut whole, &mut cut, &no_tops(), &mut out),
        _ => run_show(alloc, &mut cut, None, &mut out),
    };
    if ran != Ok(Status::Refused) || cut.errors != 1 {
        return Err("not refused, or asked again".into());
    }
    if side == "first" && whole.rest.len() != SQUARE.len() {
        return Err("the second file was read".into());
    }
    Ok(out.taken)
}

/// A failure after these bytes is reported so.
fn check_read(
    rt: &impl Abort,
    alloc: Global,
    bytes: &[u8],
    side: &str,
    want: &str,
) -> Result<(), Fail> {
    let text = failed(alloc, bytes, side)?;
    assert!(rt; text.as_slice() == want.as_bytes(), "{side}: {want}");
    Ok(())
}

/// A failure after each number of bytes from `from` on is reported at the record that isn't whole.
fn check_reads(
    rt: &impl Abort,
    alloc: Global,
    bytes: &[u8],
    starts: &[usize],
    step: &str,
    from: usize,
) -> Result<(), Fail> {
    for k in from..=bytes.len() {
        let step = if k == 0 { "gds 6" } else { step };
        let start = begun(starts, k);
        let first = format!(in alloc; "refused: first: {step} Read at {start}\n")?;
        let second = format!(in alloc; "refused: second: {step} Read at {start}\n")?;
        let cut = &bytes[..k];
        check_read(rt, alloc, cut, "first", first.as_str())?;
        check_read(rt, alloc, cut, "second", second.as_str())?;
        check_read(rt, alloc, cut, "shown", first.as_str())?;
    }
    Ok(())
}

/// A file of `count` squares in GDSII fails at each byte from `from` on.
fn check_gds(rt: &impl Abort, alloc: Global, count: u32, from: usize) -> Result<(), Fail> {
    let mut bytes = Vec::new(alloc);
    let mut starts = Vec::new(alloc);
    put_gds(&mut bytes, &mut starts, count)?;
    check_reads(rt, alloc, &bytes, &starts, "gds 6", from)
}

/// A file of 8,424 bytes, and the end of one of 66,024, which is longer than the buffer.
#[test]
fn failing_read_of_gds(rt: HostRuntime) -> Result<(), Fail> {
    check_gds(&rt, rt.alloc(), 130, 0)?;
    check_gds(&rt, rt.alloc(), 1030, 65_900)
}

/// A file of 8,487 bytes.
#[test]
fn failing_read_of_oasis(rt: HostRuntime) -> Result<(), Fail> {
    let alloc = rt.alloc();
    let mut bytes = Vec::new(alloc);
    let mut starts = Vec::new(alloc);
    put_oasis(&mut bytes, &mut starts, 1024)?;
    check_reads(&rt, alloc, &bytes, &starts, "oasis 12", 0)
}
