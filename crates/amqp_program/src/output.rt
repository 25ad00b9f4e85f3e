//! Standard output that may be closed by who reads it.

use std::cell::Cell;
use std::io;
use std::io::{ErrorKind, Write};

/// A writer that notes whether a write found no reader any more.
#[derive(Drop)]
pub struct Output<'a, W> {
    writer: W,
    is_closed: &'a Cell<bool>,
}

impl<'a, W: Write> Output<'a, W> {
    /// No write was made yet.
    pub fn new(writer: W, is_closed: &'a Cell<bool>) -> Output<'a, W> {
        Output { writer, is_closed }
    }
}

impl<W: Write> Write for Output<'_, W> {
    fn write(&mut self, buf: &[u8]) -> io::Result<usize> {
        let written = self.writer.write(buf);
        if let Err(error) = &written {
            self.is_closed
                .set(matches!(error.kind(), ErrorKind::BrokenPipe));
        }
        written
    }

    fn flush(&mut self) -> io::Result<()> {
        self.writer.flush()
    }
}
