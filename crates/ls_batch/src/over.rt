// Whether a run goes on.

ghost use Rattle.std.specs.Prelude.{◌≡◌, true};
ghost use Rattle.ls_code.specs.Machine.{machine_state};
ghost use Rattle.ls_batch.specs.Ended.{IsOver, takes_steps};

use ls_code::step::ThreadState;
use ls_machine::Machine;

/// Whether the thread takes steps: it has started, and hasn't ended, trapped or stopped.
#[inline]
fn is_running(machine: &Machine, thread: usize) -> bool
    ensures { result ≡ takes_steps (machine_state machine.now thread) }
{
    match machine.state_of(thread) {
        ThreadState::Running => true,
        ThreadState::NotStarted
        | ThreadState::Ended
        | ThreadState::Trapped
        | ThreadState::Stopped => false,
    }
}

/// Whether none of the threads 1, 2, .., of which there are so many, takes steps.
#[tactic(auto, using(crate::proofs::Ended::one_over))]
fn is_over(machine: &Machine, threads: usize) -> bool
    ensures { result ≡ true → IsOver machine.now threads }
{
    for before in 0..threads {
        if is_running(machine, before + 1) {
            return false;
        }
    }
    true
}

/// After how many steps a run looks whether it is over.
const LOOKS: usize = 64;

/// Whether a run that has taken so many steps before the last looks whether it is over, and is.
#[inline]
pub(crate) fn is_done(machine: &Machine, threads: usize, taken: usize) -> bool
    ensures { result ≡ true → IsOver machine.now threads }
{
    taken % LOOKS == LOOKS - 1 && is_over(machine, threads)
}
