// The run of a seed.

ghost use Rattle.std.specs.Prelude.{◌≡◌, ◌<◌, ◌≤◌, IfOk};
ghost use Rattle.ls_code.specs.Machine.{loaded, machine_state};
ghost use Rattle.ls_machine.specs.Room.{AreBadCells};
ghost use Rattle.ls_batch.specs.Samples.{goes_on, history_of, played, settled, settling, threads_of};

use crate::samples::{Sampler, run_sample};
use ls_code::code::Code;
use ls_code::step::ThreadState;
use ls_machine::laws::runs_keep;
use ls_machine::{LoadFault, Machine};
use std::alloc::{AllocError, Global};

/// The most steps of the setup before a sample.
pub(crate) const MOST_SETUP_STEPS: usize = 100_000;

/// How many threads there are beside the setup.
pub(crate) fn threads_of(code: &Code) -> usize
    ensures count { result ≡ threads_of code.now }
    ensures few { result ≤ 64 }
{
    code.starts().len().saturating_sub(1)
}

/// Whether the setup hasn't ended, trapped or stopped.
#[inline]
fn goes_on(machine: &Machine) -> bool
    ensures { result ≡ goes_on (machine_state machine.now 0) }
{
    match machine.state_of(0) {
        ThreadState::NotStarted | ThreadState::Running => true,
        ThreadState::Ended | ThreadState::Trapped | ThreadState::Stopped => false,
    }
}

/// Takes steps of the setup until it has ended, trapped or stopped, and at most so many. Answers how many it took.
#[tactic(auto, using(crate::proofs::Settled::settled_none, crate::proofs::Settled::settled_stop, crate::proofs::Settled::settled_more))]
pub(crate) fn settle(machine: &mut Machine, most: usize) -> usize
    ensures machine { machine.new ≡ settled most machine.old }
    ensures steps { result ≡ settling most machine.old }
{
    for taken in 0..most {
        if !goes_on(machine) {
            return taken;
        }
        let _ = machine.step(0);
    }
    most
}

/// Runs a loaded machine by a seed: its setup, then the seed's sample.
#[tactic(auto, unfolding(crate::specs::Samples::played))]
fn run_seed(machine: &mut Machine, threads: usize, seed: u64, drawing: Sampler)
    requires { 0 < drawing.switch }
    ensures { machine.new ≡ played machine.old threads seed drawing }
{
    let _taken = settle(machine, MOST_SETUP_STEPS);
    run_sample(machine, seed, threads, drawing);
}

/// The machine of the code at its start, for the runs of many seeds.
pub(crate) fn load(alloc: Global, code: &Code, cells: usize) -> Result<Machine, AllocError>
    requires { ¬ AreBadCells code.now.names cells }
    ensures { IfOk result (λ machine. machine ≡ loaded code.now cells) }
{
    match Machine::load(alloc, code, cells) {
        Ok(machine) => Ok(machine),
        Err(LoadFault::Memory) => Err(AllocError),
        Err(LoadFault::BadCells) => unreachable!(),
    }
}

/// Runs a machine by a seed, from its start.
pub(crate) fn one_run(machine: &mut Machine, threads: usize, seed: u64, drawing: Sampler)
    requires threads { threads ≡ threads_of machine.old.code }
    requires chance { 0 < drawing.switch }
    ensures history { machine.new.history ≡ history_of machine.old.code machine.old.cells.limit seed drawing }
    ensures code { machine.new.code ≡ machine.old.code }
    ensures cells { machine.new.cells.limit ≡ machine.old.cells.limit }
{
    runs_keep();
    machine.set_back();
    run_seed(machine, threads, seed, drawing);
}
