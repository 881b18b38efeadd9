//! The writers of std, counted, and some that fail.
ghost use Rattle.std.specs.Prelude.{None, ◌≤◌};

use lvl_io::fake::Pieces;
use lvl_io::{Buffer, Counted, Failure, Missing, Write};
use std::io;
use std::test::Fail;

/// A writer that has room for some bytes. Then it fails, or takes nothing.
#[derive(Drop)]
struct Full {
    room: usize,
    fails: bool,
}

impl io::Write for Full {
    ghost contents = { λ _. None };

    fn write(&mut self, buf: &[u8]) -> io::Result<usize> {
        let n = buf.len().min(self.room);
        if n == 0 && self.fails {
            return Err(io::Error::from(io::ErrorKind::StorageFull));
        }
        self.room -= n;
        Ok(n)
    }

    fn flush(&mut self) -> io::Result<()> {
        if self.fails {
            return Err(io::Error::from(io::ErrorKind::StorageFull));
        }
        Ok(())
    }
}

#[test]
fn writes_to_a_vec_of_std(rt: HostRuntime) -> Result<(), Fail> {
    let mut writer = Counted::new(Vec::new(rt.alloc()));
    assert!(rt; writer.write(b"mask") == Ok(4));
    assert!(rt; (&mut writer).flush() == Ok(()));
    Ok(())
}

/// Whether a writer takes two bytes, and then fails.
fn takes_two() -> bool {
    let mut writer = Counted::new(Full {
        room: 2,
        fails: true,
    });
    writer.write(b"mask") == Ok(2)
        && writer.write(b"sk") == Err(Failure)
        && writer.flush() == Err(Failure)
}

/// Whether a writer takes nothing, and doesn't fail.
fn is_idle() -> bool {
    let mut idle = Counted::new(Full {
        room: 0,
        fails: false,
    });
    idle.write(b"mask") == Ok(0) && idle.flush() == Ok(())
}

#[test]
fn reports_a_failed_write(rt: HostRuntime) {
    assert!(rt; takes_two());
    assert!(rt; is_idle());
}

/// What a buffer answers that wants a number of four bytes within a limit, where a number of reads fails after them.
fn want(failures: u32, room: u64, n: usize) -> Result<(), Missing>
    requires n { n ≤ 8 }
{
    let mut reader = Pieces::new(b"mask", 3);
    reader.failures = failures;
    let mut buffer: Buffer<8> = Buffer::new();
    buffer.want(&mut reader, room, n)
}

/// Bytes past the limit are missed first, and then what the reader doesn't give.
#[test]
fn wants_bytes_within_a_limit(rt: HostRuntime) {
    assert!(rt; want(0, 4, 4) == Ok(()) && want(0, 9, 5) == Err(Missing::Ended));
    assert!(rt; want(0, 3, 4) == Err(Missing::Limit) && want(0, 4, 5) == Err(Missing::Ended));
    assert!(rt; want(1, 3, 4) == Err(Missing::Limit) && want(1, 9, 4) == Ok(()));
    assert!(rt; want(1, 9, 5) == Err(Missing::Failed));
}
