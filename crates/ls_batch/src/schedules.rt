// The schedule of a seed's run.

ghost use Rattle.std.specs.Prelude.{◌≡◌, ◌↔◌, ◌++◌, ◌<◌, ◌≤◌, IfOk, IsErrOf, replicate};
ghost use Rattle.ls_code.specs.Machine.{loaded, machine_history};
ghost use Rattle.ls_image.specs.Images.{code_of_image};
ghost use Rattle.ls_machine.specs.Room.{AreBadCells};
ghost use Rattle.ls_batch.specs.Samples.{IsBadCount, history_of, seed_schedule, settling, threads_of};

use crate::batching::is_bad_count;
use crate::fault::BatchFault;
use crate::laws::seeds_replay;
use crate::runs::{MOST_SETUP_STEPS, load, settle, threads_of};
use crate::samples::{Sampler, sample};
use ls_code::code::Code;
use ls_events::schedule::Schedule;
use ls_image::image::Image;
use ls_machine::are_bad_cells;
use std::alloc::{AllocError, Global};

/// How many steps of the setup are taken before a sample.
fn setup_steps(alloc: Global, code: &Code, cells: usize) -> Result<usize, AllocError>
    requires { ¬ AreBadCells code.now.names cells }
    ensures { IfOk result (λ taken. taken ≡ settling 100000 (loaded code.now cells)) }
{
    let mut machine = load(alloc, code, cells)?;
    Ok(settle(&mut machine, MOST_SETUP_STEPS))
}

/// So many steps of the setup, and then those of a schedule.
fn after_setup(alloc: Global, taken: usize, steps: &[u8]) -> Result<Vec<u8>, AllocError>
    ensures { IfOk result (λ all. all.items ≡ replicate taken 0 ++ steps.now) }
{
    let mut all = vec![in alloc; 0; taken]?;
    all.extend_from_slice(steps)?;
    Ok(all)
}

/// The schedule of a seed's run of the code: the setup's steps, and then the seed's sample.
fn schedule_of(
    alloc: Global,
    code: &Code,
    cells: usize,
    seed: u64,
    drawing: Sampler,
) -> Result<Schedule, AllocError>
    requires cells { ¬ AreBadCells code.now.names cells }
    requires steps { drawing.steps ≤ 900000 }
    requires chance { 0 < drawing.switch }
    ensures { IfOk result (λ schedule. schedule ≡ seed_schedule code.now cells seed drawing) }
{
    seeds_replay();
    let sampled = sample(alloc, seed, threads_of(code) as u8, drawing)?;
    let taken = setup_steps(alloc, code, cells)?;
    let all = after_setup(alloc, taken, sampled.steps())?;
    Ok(Schedule::of(all))
}

/// The schedule of machine instructions that `batch` runs for a seed on so many cells: steps of the setup until it has
/// ended, trapped or stopped, at most 100,000, then the seed's sample of the other threads, drawn so. The machine's
/// history of it is that of the seed. It is refused as `batch` is for that one seed.
pub fn sampled(
    alloc: Global,
    image: &Image,
    cells: usize,
    seed: u64,
    drawing: Sampler,
) -> Result<Schedule, BatchFault>
    ensures bad_cells { IsErrOf result BatchFault.BadCells ↔ AreBadCells (code_of_image image.now).names cells }
    ensures bad_count { IsErrOf result BatchFault.BadCount ↔ (¬ AreBadCells (code_of_image image.now).names cells ×
        IsBadCount seed 1 drawing) }
    ensures schedule { IfOk result (λ schedule. schedule ≡ seed_schedule (code_of_image image.now) cells seed drawing) }
    ensures history { IfOk result (λ schedule. machine_history (code_of_image image.now) cells schedule ≡
        history_of (code_of_image image.now) cells seed drawing) }
{
    seeds_replay();
    let code = image.code();
    if are_bad_cells(code, cells) {
        return Err(BatchFault::BadCells);
    }
    if is_bad_count(seed, 1, drawing) {
        return Err(BatchFault::BadCount);
    }
    Ok(schedule_of(alloc, code, cells, seed, drawing)?)
}
