//! Each byte of a file set to each value: whatever comes of it is a text of the program.

use super::{Answer, SQUARE, square_in_oasis, written};
use lvl_report::Status;
use std::alloc::Global;
use std::process::Abort;
use std::test::Fail;

/// What the second file says of itself, and the verdict's beginning.
const SAME: &[u8] = b"\nsecond: OASIS 1.0 unit 1000 scheme 0\nsame\n";

/// The text's last line, without its line feed.
fn last_line(text: &[u8]) -> &[u8] {
    let front = text.strip_suffix(b"\n").unwrap_or(text);
    front.rsplit(|byte| *byte == b'\n').next().unwrap_or(front)
}

/// Whether the text is of one line, a refusal of the first file by one of the steps.
fn is_refusal(text: &[u8]) -> bool {
    text.starts_with(b"refused: first: gds ")
        || text.starts_with(b"refused: first: oasis ")
        || text.starts_with(b"refused: first: cells ")
}

/// Whether this is a text of the program, of as many lines as its status says.
fn is_text(answer: &Answer) -> bool {
    let (text, ran) = answer;
    let feeds = text.iter().filter(|byte| **byte == b'\n').count();
    let is_compared = feeds == 3 && text.starts_with(b"first: ");
    let is_ended = text.ends_with(b"\n");
    match ran {
        Ok(Status::Same) => is_compared && text.ends_with(SAME),
        Ok(Status::Differ) => is_compared
            && is_ended
            && last_line(text).starts_with(b"differ: layer "),
        Ok(Status::Refused) => feeds == 1 && is_ended && is_refusal(text),
        _ => false,
    }
}

/// A byte of the file set to a value.
fn set(rt: &impl Abort, alloc: Global, bytes: &mut [u8], k: usize, value: u8) -> Result<(), Fail> {
    *bytes.get_mut(k).ok_or("a byte")? = value;
    let square = square_in_oasis(alloc)?;
    let answer = written(alloc, bytes, &square)?;
    assert!(rt; is_text(&answer), "byte {k} set to {value}");
    Ok(())
}

/// Each byte of the file set to each value.
fn set_each(rt: &impl Abort, alloc: Global, bytes: &mut [u8]) -> Result<(), Fail> {
    for k in 0..bytes.len() {
        let kept = bytes.get(k).copied().ok_or("a byte")?;
        for value in 0..=u8::MAX {
            set(rt, alloc, bytes, k, value)?;
        }
        *bytes.get_mut(k).ok_or("a byte")? = kept;
    }
    Ok(())
}

#[test]
fn each_byte_of_gds(rt: HostRuntime) -> Result<(), Fail> {
    let alloc = rt.alloc();
    set_each(&rt, alloc, &mut Vec::from_slice(alloc, SQUARE)?)
}

#[test]
fn each_byte_of_oasis(rt: HostRuntime) -> Result<(), Fail> {
    let alloc = rt.alloc();
    set_each(&rt, alloc, &mut square_in_oasis(alloc)?)
}
