// The first call that throws, that waits or that turns for ever, where calls run one at a time.

ghost use Rattle.std.specs.Prelude.{◌≡◌, ◌⊎◌, false, true, IfOk};
ghost use Rattle.ls_checked.specs.Plain.{plain_file};
ghost use Rattle.ls_checked.specs.PlainProgram.{plain_program};
ghost use Rattle.ls_serial_faults.specs.Faults.{AreAllFaults, AreFaults, MeetsBound};

use crate::faults::SerialFaults;
use crate::noting::note_fates;
use ls_automaton::states::states_of;
use ls_checked::program::Program;
use ls_checked::tree::File;
use ls_serial_search::telling::Bounds;
use std::alloc::{AllocError, Global};

/// Whether none of both holds.
fn neither(one: bool, other: bool) -> bool
    ensures none { result ≡ true → (one ≡ false) × (other ≡ false) }
    ensures one { result ≡ false → (one ≡ true) ⊎ (other ≡ true) }
{
    !one && !other
}

/// Searches calls of a program that run one at a time for such as throw, wait for ever or turn for ever: calls of the
/// setup too. At most so many states between calls are looked at as there may be orders. The source alone is run, with
/// no cells. The only refusal is that memory ran out.
///
/// Of each kind the first is found, by how many calls come before it, and then by the order of the threads that make
/// them. No clause says that it is the first.
pub fn serial_faults(
    alloc: Global,
    file: &File,
    program: &Program,
    bounds: &Bounds,
) -> Result<SerialFaults, AllocError>
    ensures faults { IfOk result (AreFaults (plain_file file.now) (plain_program program.now)) }
    ensures all { IfOk result (λ f. f.complete ≡ true →
        AreAllFaults (plain_file file.now) (plain_program program.now) f) }
    ensures why { IfOk result (λ f. f.complete ≡ false →
        MeetsBound (plain_file file.now) (plain_program program.now) bounds.now) }
{
    let states = states_of(alloc, file, program, bounds.steps, bounds.orders)?;
    let mut found = SerialFaults {
        throws: None,
        waits: None,
        turns: None,
        complete: neither(states.many, states.goes_on),
    };
    for number in 0..states.fates.len() {
        let way = states.way(number);
        note_fates(
            alloc,
            program,
            way,
            states.fates[number].as_slice(),
            &mut found,
        )?;
    }
    Ok(found)
}
