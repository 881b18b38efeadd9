//! A reader that shows how much was read.
ghost use Rattle.std.specs.Prelude.{◌≡◌};
ghost use Rattle.lvl_progress.specs.Wrapped.{watched_inner};

use crate::meter::Meter;
use std::io;

/// Reads what the reader inside does, and shows by a meter, if there is one, how much that was.
#[derive(Drop)]
pub struct Watched<R, T> {
    inner: R,
    meter: Option<Meter<T>>,
}

impl<R, T> Watched<R, T> {
    /// The reader, with a meter or without one.
    pub fn new(inner: R, meter: Option<Meter<T>>) -> Watched<R, T>
        ensures { watched_inner result ≡ inner }
    {
        Watched { inner, meter }
    }
}

impl<R: io::Read, T: io::Write> io::Read for Watched<R, T> {
    ghost remaining = { λ w. R.remaining (watched_inner w) };

    fn read(&mut self, buf: &mut [u8]) -> io::Result<usize> {
        let read = self.inner.read(buf)?;
        if let Some(meter) = &mut self.meter {
            meter.count(read);
        }
        Ok(read)
    }
}
