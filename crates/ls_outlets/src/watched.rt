// A writer, of which is kept whether it has failed.

ghost use Rattle.std.specs.Prelude.{◌≡◌, false};

use crate::outlet::Outlet;
use std::io::{self, Write};

/// A writer, of which is kept whether it has failed: whether a write or a flush was refused, or a write took no byte.
#[derive(Drop)]
pub struct Watched<W> {
    writer: W,
    has_failed: bool,
}

impl<W: Write> Watched<W> {
    /// The writer hasn't failed yet.
    pub fn new(writer: W) -> Watched<W>
        ensures { result.has_failed ≡ false }
    {
        Watched {
            writer,
            has_failed: false,
        }
    }
}

impl<W: Write> Write for Watched<W> {
    ghost contents = { λ w. W.contents w.writer };

    fn write(&mut self, bytes: &[u8]) -> io::Result<usize> {
        self.writer.write(bytes)
    }

    fn flush(&mut self) -> io::Result<()> {
        self.writer.flush()
    }
}

impl<W: Write> Outlet for Watched<W> {
    ghost has_failed = { λ w. w.has_failed };

    fn put(&mut self, bytes: &[u8]) -> usize {
        match self.writer.write(bytes) {
            Ok(count) if count > 0 => count,
            _ => {
                self.has_failed = true;
                0
            }
        }
    }

    fn settle(&mut self) -> bool {
        let is_settled = self.writer.flush().is_ok();
        if !is_settled {
            self.has_failed = true;
        }
        is_settled
    }
}
