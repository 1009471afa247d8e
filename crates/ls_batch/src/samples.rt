// The schedule of a seed.

ghost use Rattle.ls_events.specs.Limits.{most_steps};
ghost use Rattle.std.specs.Prelude.{◌≡◌, ◌<◌, ◌≤◌, IfOk};
ghost use Rattle.rand_xoshiro.specs.SplitMix64.{mix_u64};
ghost use Rattle.ls_code.specs.Machine.{machine_run};
ghost use Rattle.ls_batch.specs.Samples.{next_thread, sample_of};

use crate::over::is_done;
use ls_events::schedule::Schedule;
use ls_machine::Machine;
use rand_core::SeedableRng;
use rand_core::utils::NextWord;
use rand_xoshiro::SplitMix64;
use std::alloc::{AllocError, Global};

/// How samples are drawn: how many steps each has, and by which chance a step's thread is drawn anew, 1 in `switch`.
/// With 1 each step's thread is.
#[derive(Copy)]
pub struct Sampler {
    pub steps: usize,
    pub switch: u64,
}

impl Clone for Sampler {
    ghost use Rattle.std.specs.Prelude.{◌≡◌, IfOk};

    fn clone(&self) -> Result<Sampler, AllocError>
        ensures { IfOk result (λ copy. copy ≡ self.now) }
    {
        Ok(*self)
    }
}

/// The thread of the next step, after a step of the thread `last`.
#[inline]
fn next_thread(rng: &mut SplitMix64, threads: usize, switch: u64, last: usize) -> usize
    requires threads { 0 < threads }
    requires chance { 0 < switch }
    ensures entry { result ≡ next_thread threads switch last (mix_u64 rng.old).0 }
    ensures within { last ≤ threads → result ≤ threads }
    ensures state { rng.new ≡ (mix_u64 rng.old).1 }
{
    let word = rng.next_word();
    if last == 0 || word % switch == 0 {
        1 + (word / switch % threads as u64) as usize
    } else {
        last
    }
}

/// The sample of a seed: steps of the threads 1, 2, .., of which there are so many. The first step's thread is drawn,
/// and each other's by chance 1 in `switch`; else the thread of the step before goes on. Each step takes one word of
/// SplitMix64, whose state is the seed: a thread is drawn where `switch` divides the word, and is one more than the
/// remainder of the quotient by the threads. Where there are no threads there are no steps.
#[tactic(auto, using(crate::proofs::Drawn::drawn_all))]
pub fn sample(
    alloc: Global,
    seed: u64,
    threads: u8,
    drawing: Sampler,
) -> Result<Schedule, AllocError>
    requires steps { drawing.steps ≤ most_steps }
    requires chance { 0 < drawing.switch }
    ensures { IfOk result (λ schedule. schedule ≡ sample_of seed threads drawing) }
{
    if threads == 0 {
        return Ok(Schedule::new(alloc));
    }
    let threads = threads as usize;
    let mut entries = Vec::with_capacity(alloc, drawing.steps)?;
    let mut rng = SplitMix64::seed_from_u64(seed);
    let mut last = 0;
    for _ in 0..drawing.steps {
        last = next_thread(&mut rng, threads, drawing.switch, last);
        entries.push_reserved(last as u8);
    }
    Ok(Schedule::of(entries))
}

/// Takes the steps of a seed's sample, until none of the threads takes steps any more: the rest would change nothing.
/// Whether one does is looked at after each 64 steps. It takes no memory.
#[tactic(auto, using(crate::proofs::Drawn::drawn_run))]
pub(crate) fn run_sample(machine: &mut Machine, seed: u64, threads: usize, drawing: Sampler)
    requires { 0 < drawing.switch }
    ensures { machine.new ≡ machine_run machine.old (sample_of seed threads drawing) }
{
    if threads == 0 {
        return;
    }
    let mut rng = SplitMix64::seed_from_u64(seed);
    let mut last = 0;
    for taken in 0..drawing.steps {
        last = next_thread(&mut rng, threads, drawing.switch, last);
        machine.take_step(last);
        if is_done(machine, threads, taken) {
            return;
        }
    }
}
