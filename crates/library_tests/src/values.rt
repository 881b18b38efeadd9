//! What the program doesn't show of values, words and blocks.

use lvl_grid::Point;
use lvl_io::fake::Pieces;
use lvl_profile::{Ignore, IgnoreFault, Limits, Profile};
use lvl_refusal::Cause;
use oasis_blocks::{BlockRule, read_packed};
use oasis_values::{Input, Text, Use, ValueFault};
use std::test::Fail;

/// The values in these bytes.
fn input(bytes: &[u8]) -> Input<Pieces<'_>> {
    Input::new(Pieces::new(bytes, usize::MAX), Profile::STANDARD)
}

/// A 3-delta that leads along both axes, which no figure may have.
#[test]
fn oblique_deltas(rt: HostRuntime) -> Result<(), Fail> {
    assert_eq!(rt; input(b"\x7F").byte(), Ok(0x7F));
    assert_eq!(rt; input(b"\x2F").three_delta(), Ok(Point { x: 5, y: -5 }));
    let points = input(b"\x03\x02\x54\x55").point_list(rt.alloc(), Use::Path)?;
    assert!(rt;
        points.as_slice()
            == [
                Point { x: 0, y: 0 },
                Point { x: 10, y: 10 },
                Point { x: 0, y: 20 },
            ]
            .as_slice()
    );
    Ok(())
}

/// A b-string whose length may be up to a number.
#[test]
fn a_long_string(rt: HostRuntime) {
    let long = input(b"\x80\x02").string(rt.alloc(), Text::B, 255);
    assert!(rt; matches!(long, Err(Cause::Breach(ValueFault::StringByte))));
}

/// After a fault each call fails, and the offset stays; with other bytes an input begins anew.
#[test]
fn begun_anew(rt: HostRuntime) {
    let mut values = input(b"\x07\x80");
    assert_eq!(rt; values.unsigned(), Ok(7));
    assert_eq!(rt; values.unsigned(), Err(ValueFault::Truncated));
    assert_eq!(rt; values.unsigned(), Err(ValueFault::Failed));
    let before = values.begin(Pieces::new(b"\x09", 1), Profile::STANDARD);
    assert!(rt; before.rest.is_empty());
    assert_eq!(rt; values.unsigned(), Ok(9));
    assert_eq!(rt; values.offset(), 1);
}

/// No command line has a zero byte.
#[test]
fn a_word_with_a_zero_byte(rt: HostRuntime) {
    let refused = Ignore::read(rt.alloc(), "texts\0");
    assert_eq!(rt; refused, Err(Cause::Breach(IgnoreFault::IgnoreText)));
}

/// The packed bytes of a block are within the limit of the file.
#[test]
fn a_block_past_the_limit(rt: HostRuntime) {
    let limits = Limits {
        file: 4,
        ..Limits::STANDARD
    };
    let profile = Profile {
        limits,
        ..Profile::STANDARD
    };
    let mut input = Input::new(Pieces::new(b"\x01\x03\x4b\x04\x00", 1000), profile);
    let read = read_packed(&mut input, rt.alloc());
    assert!(rt; matches!(read, Err(Cause::Breach(ValueFault::TooLong))));
}

#[test]
fn texts_of_faults(rt: HostRuntime) -> Result<(), Fail> {
    let alloc = rt.alloc();
    for (rule, text) in [
        (BlockRule::TooLong, "a block unpacks to too many bytes"),
        (
            BlockRule::Deflate,
            "the packed bytes of a block aren't a DEFLATE stream",
        ),
        (
            BlockRule::BlockLength,
            "a block has another length than it says",
        ),
    ] {
        assert_eq!(rt; format!(in alloc; "{rule}")?.as_str(), text);
    }
    Ok(())
}
