// The runs of consecutive seeds, and their tally.

ghost use Rattle.std.specs.Prelude.{◌≡◌, ◌↔◌, ◌+◌, ◌≤◌, ◌^◌, map, IfOk, IsErrOf, IsTrue};
ghost use Rattle.std.specs.List.{range_with_len};
ghost use Rattle.ls_image.specs.Images.{RunsAsItsTexts, code_of_image};
ghost use Rattle.ls_machine.specs.Room.{AreBadCells};
ghost use Rattle.ls_batch.specs.Samples.{IsBadCount, IsBadSampler, histories_of};
ghost use Rattle.ls_batch.specs.Tallies.{IsTally};

use crate::Tally;
use crate::fault::BatchFault;
use crate::gathering::counts_of;
use crate::samples::Sampler;
use ls_image::image::Image;
use ls_image::laws::runs;
use ls_machine::are_bad_cells;
use std::alloc::{AllocError, Global};
use std::thread::Threads;

const MOST_SEEDS: usize = 100_000;

const MOST_STEPS: usize = 900_000;

const MOST_SWITCH: u64 = 900_000;

/// Whether there are too many steps, or the chance is none or too small.
fn is_bad_drawing(drawing: Sampler) -> bool
    ensures { IsTrue result ↔ IsBadSampler drawing }
{
    drawing.steps > MOST_STEPS || drawing.switch == 0 || drawing.switch > MOST_SWITCH
}

/// Whether there are no seeds, too many or one past the greatest, or the drawing is bad.
pub(crate) fn is_bad_count(first_seed: u64, count: usize, drawing: Sampler) -> bool
    ensures { IsTrue result ↔ IsBadCount first_seed count drawing }
{
    count == 0
        || count > MOST_SEEDS
        || first_seed > u64::MAX - (count as u64 - 1)
        || is_bad_drawing(drawing)
}

/// So many seeds, one after the other.
fn seeds_from(alloc: Global, first: u64, count: usize) -> Result<Vec<u64>, AllocError>
    requires { first + count ≤ 2 ^ 64 }
    ensures { IfOk result (λ seeds. seeds.items ≡ map (λ i. first + i) (range_with_len 0 count)) }
{
    let mut seeds = Vec::new(alloc);
    for i in 0..count {
        seeds.push(first + i as u64)?;
    }
    Ok(seeds)
}

/// The tally of the runs of so many seeds, from the first on, each on a machine with so many cells. A run has steps
/// of the setup until it has ended, trapped or stopped, at most 100,000. Then it has the seed's sample of the other
/// threads, drawn as `drawing` says. The tally is the same for every number of processors, each of which runs a part
/// of the seeds. The image runs as its texts, so each history is one of the Java text.
///
/// `BadCells` comes if there are no cells, more than 4,194,304, or fewer than setup names. Otherwise `BadCount` comes
/// in these cases: there are no seeds, or more than 100,000; a seed is past the greatest `u64`; there are more than
/// 900,000 steps; the chance isn't 1 in 1 to 900,000.
pub fn batch(
    rt: &(impl Threads + Sync),
    alloc: Global,
    image: &Image,
    cells: usize,
    first_seed: u64,
    count: usize,
    drawing: Sampler,
) -> Result<Tally, BatchFault>
    ensures bad_cells { IsErrOf result BatchFault.BadCells ↔ AreBadCells (code_of_image image.now).names cells }
    ensures bad_count { IsErrOf result BatchFault.BadCount ↔ (¬ AreBadCells (code_of_image image.now).names cells ×
        IsBadCount first_seed count drawing) }
    ensures tally { IfOk result
        (λ tally. IsTally (histories_of (code_of_image image.now) cells first_seed count drawing) first_seed tally) }
    ensures image { ∥ RunsAsItsTexts image.now ∥₁ }
{
    runs(image);
    let code = image.code();
    if are_bad_cells(code, cells) {
        return Err(BatchFault::BadCells);
    }
    if is_bad_count(first_seed, count, drawing) {
        return Err(BatchFault::BadCount);
    }
    let seeds = seeds_from(alloc, first_seed, count)?;
    let counts = counts_of(rt, alloc, code, cells, seeds.as_slice(), drawing)?;
    let tally = counts.tally(alloc)?;
    Ok(tally)
}
