// Many steps of one thread, of which nothing is said.

ghost use Rattle.std.specs.Prelude.{◌≡◌, ◌≤◌, IsTrue, false};
ghost use Rattle.ls_code.specs.Machine.{is_running};
ghost use Rattle.ls_machine_threads.specs.Memory.{MethodsFit};
ghost use Rattle.ls_machine.specs.Staying.{IsUnseenStep, Stays};

use crate::steps::{act, find_acting};
use ls_code::code::Code;
use ls_code::step::Mode;
use ls_machine_moves::cells::Cells;
use ls_machine_threads::thread::Thread;

/// Whether a thread goes on.
#[inline(always)]
fn goes_on(thread: &Thread) -> bool
    ensures { result ≡ is_running thread.now.thread.mode }
{
    thread.mode() == Mode::Running
}

/// Takes a step of a thread that acts, where it is no event and can't stop the machine. Else it does nothing and
/// answers false.
#[inline(always)]
fn acts(code: &Code, cells: &mut Cells, number: usize, thread: &mut Thread) -> bool
    requires number { number ≤ 64 }
    requires fit { MethodsFit code.now.methods thread.old.locals_room thread.old.operands_room }
    ensures acted { IsTrue result → IsUnseenStep code.now number thread.old thread.new cells.old cells.new }
    ensures left { result ≡ false → thread.new ≡ thread.old }
    ensures cells { result ≡ false → cells.new ≡ cells.old }
{
    match find_acting(code, thread) {
        None => false,
        Some(acting) => {
            let _ = act(code, cells, number, thread, acting);
            true
        }
    }
}

/// Takes steps of a thread, so many at most, up to the first that may be an event, stop the machine or end the thread.
/// Answers how many.
#[inline]
pub fn stay(
    code: &Code,
    cells: &mut Cells,
    number: usize,
    thread: &mut Thread,
    most: usize,
) -> usize
    requires number { number ≤ 64 }
    requires fit { MethodsFit code.now.methods thread.old.locals_room thread.old.operands_room }
    ensures few { result ≤ most }
    ensures stays { Stays code.now number result thread.old thread.new cells.old cells.new }
{
    let mut done = 0;
    while done < most {
        if !goes_on(thread) {
            return done;
        }
        done += thread.glide(code.instructions(), most - done);
        if done == most {
            return done;
        }
        if !acts(code, cells, number, thread) {
            return done;
        }
        done += 1;
    }
    done
}
