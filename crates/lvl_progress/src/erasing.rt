//! A writer that erases a line of a terminal before it writes.
ghost use Rattle.std.specs.Prelude.{◌≡◌};
ghost use Rattle.lvl_progress.specs.Wrapped.{erasing_inner};

use std::io;

/// Erases the line of a terminal on which the cursor is.
pub fn erase<T: io::Write>(terminal: &mut T) {
    let _ = terminal.write_all(b"\r\x1b[K");
}

/// Writes what the writer inside does, and erases the line of a terminal, if there is one, before each
/// write.
#[derive(Drop)]
pub struct Erasing<W, T> {
    inner: W,
    terminal: Option<T>,
}

impl<W, T> Erasing<W, T> {
    /// The writer, with a terminal or without one.
    pub fn new(inner: W, terminal: Option<T>) -> Erasing<W, T>
        ensures { erasing_inner result ≡ inner }
    {
        Erasing { inner, terminal }
    }
}

impl<W: io::Write, T: io::Write> io::Write for Erasing<W, T> {
    ghost contents = { λ e. W.contents (erasing_inner e) };

    fn write(&mut self, buf: &[u8]) -> io::Result<usize> {
        if let Some(terminal) = &mut self.terminal {
            erase(terminal);
        }
        self.inner.write(buf)
    }

    fn flush(&mut self) -> io::Result<()> {
        self.inner.flush()
    }
}
