// The lines of progress.

ghost use Rattle.std.specs.Prelude.{◌≡◌, ◌*◌, ◌^◌, ◌<◌, true};
ghost use Rattle.ls_outlets.specs.Written.{IsWritten};
ghost use Rattle.ls_tool.specs.Output.{HasTold, progress_line};

use arrayvec::ArrayString;
use itoa::Buffer;
use ls_explore::Watch;
use ls_outlets::{Outlet, write_out};

/// After how many states there is a line.
const STRIDE: usize = 65_536;

/// The line of so many times 65,536 states.
fn line_of(count: usize, depth: usize) -> ArrayString<128>
    requires { 65536 * count < 2 ^ 64 }
    ensures { result.bytes ≡ progress_line count depth }
{
    let mut number = Buffer::new();
    let mut line = ArrayString::new();
    line.push_str("explore: ");
    line.push_str(number.format(STRIDE * count));
    line.push_str(" states, depth ");
    line.push_str(number.format(depth));
    line.push_str("\n");
    line
}

/// Writes the line. Answers whether all of it is written; if not, the writer has failed.
fn tell_line<E: Outlet>(err: &mut E, count: usize, depth: usize) -> bool
    requires { 65536 * count < 2 ^ 64 }
    ensures { IsWritten (progress_line count depth) result (E.contents err.old) (E.contents err.new)
        (E.has_failed err.new) }
{
    let line = line_of(count, depth);
    write_out(err, line.as_str().as_bytes())
}

/// Writes a line for each 65,536 states. Once the writer has failed nothing more is written, and nothing else comes of
/// it.
#[derive(Drop)]
pub(crate) struct Progress<'a, E> {
    err: &'a mut E,
    lines: usize,
    is_open: bool,
}

impl<'a, E> Progress<'a, E> {
    /// Nothing is written yet.
    pub(crate) fn new(err: &'a mut E) -> Progress<'a, E>
        ensures same_reference { result.err.ghost_name ≡ err.entry.ghost_name }
        ensures same { result.err.now ≡ err.old }
        ensures lines { result.lines ≡ 0 }
        ensures open_still { result.is_open ≡ true }
    {
        Progress {
            err,
            lines: 0,
            is_open: true,
        }
    }
}

impl<E: Outlet> Watch for Progress<'_, E> {
    ghost Since = { λ a b. HasTold a.lines b.lines b.is_open (E.contents a.err.now) (E.contents b.err.now)
        (E.has_failed b.err.now) × (b.err.ghost_name ≡ a.err.ghost_name) };

    fn wants(&self, states: usize) -> bool {
        self.is_open && self.lines < states / STRIDE
    }

    fn note(&mut self, states: usize, depth: usize) {
        if !self.is_open || states / STRIDE <= self.lines {
            return;
        }
        self.lines += 1;
        let is_told = tell_line(self.err, self.lines, depth);
        self.is_open = is_told;
    }
}
