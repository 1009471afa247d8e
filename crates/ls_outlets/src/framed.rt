// A writer before whose first bytes others are written.

ghost use Rattle.std.specs.Prelude.{◌≡◌, None, false};

use crate::outlet::Outlet;
use std::io::{self, Write};

/// A writer before whose first bytes others are written: a head. If none is ever written, neither is the head. Of it is
/// kept whether it has failed: whether a write or a flush was refused, or a write took no byte.
#[derive(Drop)]
pub struct Framed<'a, W> {
    writer: W,
    head: &'a [u8],
    has_begun: bool,
    has_failed: bool,
}

impl<'a, W: Write> Framed<'a, W> {
    /// Nothing is written yet, and the writer hasn't failed.
    pub fn new(writer: W, head: &'a [u8]) -> Framed<'a, W>
        ensures begun { result.has_begun ≡ false }
        ensures failed { result.has_failed ≡ false }
    {
        Framed {
            writer,
            head,
            has_begun: false,
            has_failed: false,
        }
    }

    /// Whether anything is written.
    pub fn has_begun(&self) -> bool
        ensures { result ≡ self.now.has_begun }
    {
        self.has_begun
    }

    /// Writes the head, if that isn't done.
    fn begin(&mut self) -> io::Result<()> {
        if self.has_begun {
            return Ok(());
        }
        self.has_begun = true;
        self.writer.write_all(self.head)
    }
}

impl<W: Write> Write for Framed<'_, W> {
    ghost contents = { λ w. None };

    fn write(&mut self, bytes: &[u8]) -> io::Result<usize> {
        self.begin()?;
        self.writer.write(bytes)
    }

    fn flush(&mut self) -> io::Result<()> {
        self.writer.flush()
    }
}

impl<W: Write> Outlet for Framed<'_, W> {
    ghost has_failed = { λ w. w.has_failed };

    fn put(&mut self, bytes: &[u8]) -> usize {
        let was_failed = self.has_failed;
        let count = match self.write(bytes) {
            Ok(count) => count,
            Err(_) => 0,
        };
        self.has_failed = was_failed || count == 0;
        count
    }

    fn settle(&mut self) -> bool {
        let is_settled = self.writer.flush().is_ok();
        if !is_settled {
            self.has_failed = true;
        }
        is_settled
    }
}
