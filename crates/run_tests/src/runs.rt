//! Whole runs over files that are held in memory.

use lvl::Tops;
use lvl_io::fake::{Pieces, Sink};
use lvl_report::{RunFault, Status, run, run_show, run_view};
use lvl_view::View;
use std::alloc::{AllocError, Global};
use std::test::Fail;

mod each_byte;
mod limits;
mod reads;
mod refusals;
mod writes;

/// What was written, and how the run ended.
type Answer = (Vec<u8>, Result<Status, RunFault>);

/// The square 0..10 by 0..10 on 1/0 in a structure TOP, as GDSII.
pub(crate) const SQUARE: &[u8] = b"\
    \0\x06\0\x02\x02\x58\0\x1C\x01\x02\0\0\0\0\0\0\0\0\0\0\0\0\0\0\0\0\0\0\0\0\0\0\0\0\
    \0\x06\x02\x06\x4C\x42\0\x14\x03\x05\x41\x10\0\0\0\0\0\0\x41\x10\0\0\0\0\0\0\
    \0\x1C\x05\x02\0\0\0\0\0\0\0\0\0\0\0\0\0\0\0\0\0\0\0\0\0\0\0\0\
    \0\x08\x06\x06\x54\x4F\x50\0\0\x04\x08\0\0\x06\x0D\x02\0\x01\0\x06\x0E\x02\0\0\
    \0\x2C\x10\x03\0\0\0\0\0\0\0\0\0\0\0\x0A\0\0\0\0\0\0\0\x0A\0\0\0\x0A\0\0\0\0\0\0\0\x0A\0\0\
    \0\0\0\0\0\0\0\x04\x11\0\0\x04\x07\0\0\x04\x04\0";

/// The magic string, START of 1,000 grid steps in a micrometre, and CELL TOP.
const BEGIN: &[u8] = b"%SEMI-OASIS\r\n\x01\x031.0\x00\xE8\x07\0\0\0\0\0\0\0\0\0\0\0\0\0\x0E\x03TOP";

/// The square as a RECTANGLE.
const RECTANGLE: &[u8] = b"\x14\x7B\x01\0\x0A\x0A\0\0";

/// END, but for its last 253 bytes, which are zeros.
const END: &[u8] = b"\x02\xFC\x01";

/// The square in a cell TOP, as OASIS.
fn square_in_oasis(alloc: Global) -> Result<Vec<u8>, AllocError> {
    let mut bytes = Vec::from_slice(alloc, BEGIN)?;
    bytes.extend_from_slice(RECTANGLE)?;
    bytes.extend_from_slice(END)?;
    bytes.extend_from_slice(&[0; 253])?;
    Ok(bytes)
}

/// No top named.
fn no_tops() -> Tops {
    Tops {
        first: None,
        second: None,
    }
}

/// A writer that needs no growth for what is written here.
fn sink(alloc: Global, most: usize) -> Result<Sink, AllocError> {
    let mut out = Sink::new(alloc, most);
    out.taken.reserve(1024)?;
    Ok(out)
}

/// What is written of two files.
fn written(alloc: Global, first: &[u8], second: &[u8]) -> Result<Answer, AllocError> {
    let mut out = sink(alloc, 1000)?;
    let mut first = Pieces::new(first, 1000);
    let mut second = Pieces::new(second, 1000);
    let ran = run(alloc, &mut first, &mut second, &no_tops(), &mut out);
    Ok((out.taken, ran))
}

/// What is written of two files in a window.
fn written_in(alloc: Global, first: &[u8], second: &[u8]) -> Result<Answer, Fail> {
    let view = View::read(alloc, None, Some("x=0..10,y=0..10"))?;
    let mut out = sink(alloc, 1000)?;
    let mut first = Pieces::new(first, 1000);
    let mut second = Pieces::new(second, 1000);
    let ran = run_view(alloc, &mut first, &mut second, &no_tops(), &view, &mut out);
    Ok((out.taken, ran))
}

/// What is written of a file that is shown.
fn shown(alloc: Global, file: &[u8]) -> Result<Answer, AllocError> {
    let mut out = sink(alloc, 1000)?;
    let ran = run_show(alloc, &mut Pieces::new(file, 1000), None, &mut out);
    Ok((out.taken, ran))
}

/// What is written of the square in both formats.
const SAME: &[u8] = b"first: GDSII version 600 units 4110000000000000 4110000000000000\n\
    second: OASIS 1.0 unit 1000 scheme 0\nsame\n";

/// What is written of the square in OASIS that is shown.
const SHOWN: &[u8] =
    b"file: OASIS 1.0 unit 1000 scheme 0\ntop: TOP\ncells: 1\nlayer 1 datatype 0 rings 1\n";

fn is_answer(answer: &Answer, text: &[u8], status: Status) -> bool {
    answer.0.as_slice() == text && answer.1 == Ok(status)
}

#[test]
fn answers(rt: HostRuntime) -> Result<(), Fail> {
    let alloc = rt.alloc();
    let square = square_in_oasis(alloc)?;
    assert!(rt; is_answer(&written(alloc, SQUARE, &square)?, SAME, Status::Same));
    assert!(rt; is_answer(&written_in(alloc, SQUARE, &square)?, SAME, Status::Same));
    assert!(rt; is_answer(&shown(alloc, &square)?, SHOWN, Status::Shown));
    Ok(())
}
