//! Promised calls that the program doesn't make, or of which it doesn't show the answer.

use crate::runs::SQUARE;
use lvl::{Tops, Verdict, compare_view};
use lvl_io::fake::Pieces;
use lvl_list::{TextFault, read_text};
use lvl_names::Layer;
use lvl_region::Side;
use lvl_view::View;
use std::alloc::Global;
use std::test::Fail;

/// The verdict on the square and itself, with Layer 1/0 of the second taken as 2/0, in a window.
fn verdict_of_view(alloc: Global) -> Option<Verdict> {
    let tops = Tops {
        first: None,
        second: None,
    };
    let view = View::read(alloc, Some("1/0=2/0"), Some("x=0..10,y=0..9")).ok()?;
    let (mut first, mut second) = (Pieces::new(SQUARE, 168), Pieces::new(SQUARE, 1));
    compare_view(alloc, &mut first, &mut second, &tops, &view).ok()
}

#[test]
fn views(rt: HostRuntime) -> Result<(), Fail> {
    let Some(
        Verdict::Differ {
            layer,
            square,
            side,
        },
    ) = verdict_of_view(rt.alloc())
    else {
        return Err(Fail::from("another verdict"));
    };
    assert_eq!(rt;
        layer,
        Layer {
            layer: 1,
            datatype: 0,
        }
    );
    assert_eq!(rt; (square.x, square.y, side), (0, 0, Side::First));
    Ok(())
}

/// What reading five bytes gives, under a limit.
fn text_of(alloc: Global, limit: u64) -> Result<Vec<u8>, TextFault> {
    read_text(alloc, &mut Pieces::new(b"abcde", 2), limit)
}

#[test]
fn texts_have_a_limit(rt: HostRuntime) {
    assert!(rt; matches!(text_of(rt.alloc(), 4), Err(TextFault::TooLong)));
    let Ok(text) = text_of(rt.alloc(), 5) else {
        return assert!(rt; false);
    };
    assert!(rt; text.as_slice() == b"abcde".as_slice());
    let failed = read_text(rt.alloc(), &mut Pieces::failing(b"abcde", 2), 5);
    assert!(rt; matches!(failed, Err(TextFault::Read)));
}
