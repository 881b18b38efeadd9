//! Writers that fail.

use super::{SAME, SHOWN, SQUARE, no_tops, sink, square_in_oasis};
use lvl_io::fake::{Pieces, Sink};
use lvl_report::{RunFault, Status, run, run_show};
use std::alloc::{AllocError, Global};
use std::process::Abort;
use std::test::Fail;

/// What is written of a path with a short run.
const SHORT_RUN: &[u8] = b"refused: first: gds 21 Path 6 ShortRun at 120\n";

/// What is written of the square without its end.
const CUT: &[u8] = b"refused: first: gds 1 Truncated at 96\n";

/// The square with a path of width 4 with a short run in place of its boundary.
fn short_run(alloc: Global) -> Result<Vec<u8>, AllocError> {
    let mut bytes = Vec::from_slice(alloc, &SQUARE[..96])?;
    bytes.extend_from_slice(b"\0\x04\x09\0\0\x06\x0D\x02\0\x01\0\x06\x0E\x02\0\0")?;
    bytes.extend_from_slice(b"\0\x08\x0F\x03\0\0\0\x04\0\x1C\x10\x03\0\0\0\0\0\0\0\0")?;
    bytes.extend_from_slice(b"\0\0\0\x0A\0\0\0\0\0\0\0\x0A\0\0\0\x01\0\x04\x11\0")?;
    bytes.extend_from_slice(&SQUARE[160..])?;
    Ok(bytes)
}

/// Runs that write each of the texts.
#[derive(Clone, Copy)]
enum Job {
    Compared,
    Refused,
    Shown,
    Cut,
}

/// The text that a run writes.
fn text_of(job: Job) -> &'static [u8] {
    match job {
        Job::Compared => SAME,
        Job::Refused => SHORT_RUN,
        Job::Shown => SHOWN,
        Job::Cut => CUT,
    }
}

/// The first file of a run.
fn file_of(alloc: Global, job: Job) -> Result<Vec<u8>, AllocError> {
    match job {
        Job::Compared => Vec::from_slice(alloc, SQUARE),
        Job::Refused => short_run(alloc),
        Job::Shown => square_in_oasis(alloc),
        Job::Cut => Vec::from_slice(alloc, &SQUARE[..99]),
    }
}

/// Two files compared, or one shown, by a writer.
fn ran(alloc: Global, job: Job, out: &mut Sink) -> Result<Result<Status, RunFault>, AllocError> {
    let bytes = file_of(alloc, job)?;
    let mut reader = Pieces::new(&bytes, 1000);
    if matches!(job, Job::Shown | Job::Cut) {
        return Ok(run_show(alloc, &mut reader, None, out));
    }
    let others = square_in_oasis(alloc)?;
    let mut other = Pieces::new(&others, 1000);
    Ok(run(alloc, &mut reader, &mut other, &no_tops(), out))
}

/// A writer has room for each number of bytes of the text, and takes no more.
fn check_room(rt: &impl Abort, alloc: Global, job: Job, takes_nothing: bool) -> Result<(), Fail> {
    let text = text_of(job);
    for k in 0..text.len() {
        let mut out = sink(alloc, 40)?;
        out.room = k;
        out.takes_nothing = takes_nothing;
        let ran = ran(alloc, job, &mut out)?;
        assert_eq!(rt;
            (ran, out.errors),
            (Err(RunFault::Output), 1),
            "room for {k}"
        );
        assert_eq!(rt; Some(out.taken.as_slice()), text.get(..k));
    }
    Ok(())
}

#[test]
fn failing_write(rt: HostRuntime) -> Result<(), Fail> {
    let alloc = rt.alloc();
    for job in [Job::Compared, Job::Refused, Job::Shown, Job::Cut] {
        check_room(&rt, alloc, job, false)?;
        check_room(&rt, alloc, job, true)?;
    }
    assert_eq!(rt; RunFault::Output.code(), 4);
    Ok(())
}

/// A writer takes all of the text, a byte at a time, and its flush may fail.
fn check_flush(rt: &impl Abort, alloc: Global, job: Job, flush_fails: bool) -> Result<(), Fail> {
    let mut out = sink(alloc, 1)?;
    out.flush_fails = flush_fails;
    let ran = ran(alloc, job, &mut out)?;
    assert_eq!(rt; ran.err(), flush_fails.then_some(RunFault::Output));
    assert!(rt; out.taken.as_slice() == text_of(job));
    Ok(())
}

#[test]
fn failing_flush_and_a_byte_a_call(rt: HostRuntime) -> Result<(), Fail> {
    let alloc = rt.alloc();
    for job in [Job::Compared, Job::Refused, Job::Shown, Job::Cut] {
        check_flush(&rt, alloc, job, false)?;
        check_flush(&rt, alloc, job, true)?;
    }
    Ok(())
}
