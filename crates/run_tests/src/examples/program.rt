//! What the documentation of the crates shows, line by line.

use gds_records::fake::{SQUARE, Stream};
use lvl::{Tops, Verdict, compare_layouts, digest_file, read_layout, show_file};
use lvl_io::fake::{Pieces, Sink};
use lvl_profile::Profile;
use lvl_report::{Status, run_show};
use std::alloc::{AllocError, Global};
use std::test::Fail;

/// A GDSII file with a square in one structure.
fn square(alloc: Global, name: &[u8]) -> Result<Vec<u8>, AllocError> {
    let mut stream = Stream::new(alloc)?;
    stream.structure(name)?;
    stream.boundary(1, 0, &SQUARE)?;
    stream.end_structure()?;
    stream.end()
}

/// Two files with the same square, in structures of two names.
fn squares(alloc: Global) -> Result<(Vec<u8>, Vec<u8>), AllocError> {
    let one = square(alloc, b"TOP\0")?;
    let other = square(alloc, b"MASK")?;
    Ok((one, other))
}

#[test]
fn verdicts(rt: HostRuntime) -> Result<(), Fail> {
    let alloc = rt.alloc();
    let files = squares(alloc)?;
    let (one, other) = (files.0.as_slice(), files.1.as_slice());
    let tops = Tops {
        first: None,
        second: None,
    };
    let mut first = Pieces::new(&one, usize::MAX);
    let mut second = Pieces::new(&other, usize::MAX);
    let verdict = compare_layouts(alloc, &mut first, &mut second, &tops)?;
    assert_eq!(rt; verdict, Verdict::Same);
    Ok(())
}

#[test]
fn layouts(rt: HostRuntime) -> Result<(), Fail> {
    let alloc = rt.alloc();
    let bytes = square(alloc, b"TOP\0")?;
    let layout = read_layout(alloc, &mut Pieces::new(&bytes, usize::MAX))?;
    let (library, _) = layout.into_parts();
    assert_eq!(rt; library.cells.len(), 1);
    Ok(())
}

#[test]
fn shown(rt: HostRuntime) -> Result<(), Fail> {
    let alloc = rt.alloc();
    let bytes = square(alloc, b"TOP\0")?;
    let mut reader = Pieces::new(&bytes, usize::MAX);
    let shown = show_file(alloc, &mut reader, None, Profile::STANDARD)?;
    assert_eq!(rt; shown.layers.first().map(|layer| layer.rings), Some(1));
    Ok(())
}

#[test]
fn digested(rt: HostRuntime) -> Result<(), Fail> {
    let alloc = rt.alloc();
    let bytes = square(alloc, b"TOP\0")?;
    let mut reader = Pieces::new(&bytes, usize::MAX);
    let digested = digest_file(alloc, &mut reader, None, Profile::STANDARD)?;
    assert_eq!(rt; digested.mask.layers.len(), 1);
    Ok(())
}

#[test]
fn texts(rt: HostRuntime) -> Result<(), Fail> {
    let alloc = rt.alloc();
    let bytes = square(alloc, b"TOP\0")?;
    let mut out = Sink::new(alloc, usize::MAX);
    let status = run_show(alloc, &mut Pieces::new(&bytes, usize::MAX), None, &mut out)?;
    assert_eq!(rt; status, Status::Shown);
    assert!(rt; out.taken.ends_with(b"layer 1 datatype 0 rings 1\n"));
    Ok(())
}
