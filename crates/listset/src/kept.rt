// A writer of whose bytes a copy is kept.

ghost use Rattle.std.specs.Prelude.{◌≡◌, None, false};

use ls_outlets::Outlet;
use std::alloc::Global;
use std::io::{self, Write};

/// A writer of whose bytes a copy is kept, and whether it has failed.
#[derive(Drop)]
pub(crate) struct Kept<W> {
    writer: W,
    kept: Vec<u8>,
    /// Whether memory sufficed for the copy.
    is_whole: bool,
    has_failed: bool,
}

impl<W: Write> Kept<W> {
    /// Nothing is written yet, and the writer hasn't failed.
    pub(crate) fn new(alloc: Global, writer: W) -> Kept<W> {
        Kept {
            writer,
            kept: Vec::new(alloc),
            is_whole: true,
            has_failed: false,
        }
    }

    /// What is written, if memory sufficed for the copy.
    pub(crate) fn kept(&self) -> Option<&[u8]> {
        if self.is_whole {
            Some(self.kept.as_slice())
        } else {
            None
        }
    }
}

impl<W: Write> Write for Kept<W> {
    ghost contents = { λ w. None };

    fn write(&mut self, bytes: &[u8]) -> io::Result<usize> {
        let count = self.writer.write(bytes)?;
        let written = &bytes[..count.min(bytes.len())];
        self.is_whole = self.is_whole && self.kept.extend_from_slice(written).is_ok();
        Ok(count)
    }

    fn flush(&mut self) -> io::Result<()> {
        self.writer.flush()
    }
}

impl<W: Write> Outlet for Kept<W> {
    ghost has_failed = { λ w. w.has_failed };

    fn put(&mut self, bytes: &[u8]) -> usize {
        let was_failed = self.has_failed;
        let count = match self.write(bytes) {
            Ok(count) => count,
            Err(_) => 0,
        };
        self.has_failed = was_failed || count == 0;
        count
    }

    fn settle(&mut self) -> bool {
        let is_settled = self.writer.flush().is_ok();
        if !is_settled {
            self.has_failed = true;
        }
        is_settled
    }
}
