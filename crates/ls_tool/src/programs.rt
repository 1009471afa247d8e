// The lines of a search's progress.

ghost use Rattle.std.specs.Prelude.{◌≡◌, true};
ghost use Rattle.ls_outlets.specs.Written.{IsWritten};
ghost use Rattle.ls_tool.specs.Output.{HasToldPrograms, programs_line};

use arrayvec::ArrayString;
use itoa::Buffer;
use ls_explore::Watch;
use ls_outlets::{Outlet, write_out};

/// The line of so many programs of all.
fn line_of(done: usize, all: usize) -> ArrayString<128>
    ensures { result.bytes ≡ programs_line (done, all) }
{
    let mut number = Buffer::new();
    let mut line = ArrayString::new();
    line.push_str("find: ");
    line.push_str(number.format(done));
    line.push_str(" of ");
    line.push_str(number.format(all));
    line.push_str(" programs\n");
    line
}

/// Writes the line. Answers whether all of it is written; if not, the writer has failed.
fn tell_programs<E: Outlet>(err: &mut E, done: usize, all: usize) -> bool
    ensures { IsWritten (programs_line (done, all)) result (E.contents err.old) (E.contents err.new)
        (E.has_failed err.new) }
{
    let line = line_of(done, all);
    write_out(err, line.as_str().as_bytes())
}

/// Writes a line each time that it is told of programs. Once the writer has failed nothing more is written, and nothing
/// else comes of it.
#[derive(Drop)]
pub(crate) struct Programs<'a, E> {
    err: &'a mut E,
    is_open: bool,
}

impl<'a, E> Programs<'a, E> {
    /// Nothing is written yet.
    pub(crate) fn new(err: &'a mut E) -> Programs<'a, E>
        ensures same_reference { result.err.ghost_name ≡ err.entry.ghost_name }
        ensures same { result.err.now ≡ err.old }
        ensures open_still { result.is_open ≡ true }
    {
        Programs { err, is_open: true }
    }
}

impl<E: Outlet> Watch for Programs<'_, E> {
    ghost Since = { λ a b. HasToldPrograms b.is_open (E.contents a.err.now) (E.contents b.err.now)
        (E.has_failed b.err.now) × (b.err.ghost_name ≡ a.err.ghost_name) };

    fn wants(&self, _states: usize) -> bool {
        self.is_open
    }

    fn note(&mut self, states: usize, depth: usize) {
        if !self.is_open {
            return;
        }
        let is_told = tell_programs(self.err, states, depth);
        self.is_open = is_told;
    }
}
