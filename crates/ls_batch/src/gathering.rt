// The counts of many seeds' histories.

ghost use Rattle.std.specs.Prelude.{◌<◌, ℕ, List, IfOk};
ghost use Rattle.std.specs.List.{AllZip, flat_map};
ghost use Rattle.rayon.specs.Lists.{chunks_of};
ghost use Rattle.ls_machine.specs.Room.{AreBadCells};
ghost use Rattle.ls_batch.specs.Gathered.{runs_of};
ghost use Rattle.ls_batch.specs.Counted.{AreCounts, Run};

use crate::runs::{load, one_run, threads_of};
use crate::samples::Sampler;
use crate::{Counts, joined};
use ls_code::code::Code;
use rayon::current_num_threads;
use rayon::prelude::*;
use std::alloc::{AllocError, Global};
use std::thread::Threads;

/// The fewest seeds that are run one after the other on one machine: a machine takes as long to load as some seeds to
/// run.
const LEAST_PART: usize = 16;

/// How many seeds are run one after the other, as a part of all. There are two parts for each processor, since parts
/// differ in length.
fn seeds_at_once(rt: &impl Threads, count: usize) -> usize
    ensures { 0 < result }
{
    let parts = current_num_threads(rt).saturating_mul(2);
    count.div_ceil(parts).max(LEAST_PART)
}

/// The counts of the histories of a part of the seeds. They are run on one machine, and each history is counted before
/// the next run.
fn run_part(
    alloc: Global,
    code: &Code,
    cells: usize,
    seeds: &[u64],
    drawing: Sampler,
) -> Result<Counts, AllocError>
    requires cells { ¬ AreBadCells code.now.names cells }
    requires chance { 0 < drawing.switch }
    ensures { IfOk result (AreCounts (runs_of code.now cells drawing seeds.now)) }
{
    let mut machine = load(alloc, code, cells)?;
    let threads = threads_of(code);
    let mut counts = Counts::new(alloc);
    for seed in seeds {
        one_run(&mut machine, threads, *seed, drawing);
        counts.add(alloc, machine.history(), *seed)?;
    }
    Ok(counts)
}

/// The counts of all parts of so many seeds, by as many threads as there are processors.
fn run_parts(
    rt: &(impl Threads + Sync),
    alloc: Global,
    code: &Code,
    cells: usize,
    seeds: &[u64],
    drawing: Sampler,
) -> Result<Vec<Result<Counts, AllocError>>, AllocError>
    requires cells { ¬ AreBadCells code.now.names cells }
    requires chance { 0 < drawing.switch }
    ensures { IfOk result (λ parts. (size : ℕ) × (0 < size) ×
        AllZip (λ group part. IfOk part (AreCounts (runs_of code.now cells drawing group))) (chunks_of size seeds.now)
        parts.items) }
{
    seeds
        .par_chunks(seeds_at_once(rt, seeds.len()))
        .with_min_len(1)
        .map(
            |part: &[u64]| -> Result<Counts, AllocError>
                requires cells { ¬ AreBadCells code.now.names cells }
                requires chance { 0 < drawing.switch }
                ensures { IfOk result (AreCounts (runs_of code.entry.now cells drawing part.now)) }
            { run_part(alloc, code, cells, part, drawing) },
        )
        .collect(rt, alloc)
}

/// The counts of all parts together, where none was refused memory.
fn all_counts(alloc: Global, parts: Vec<Result<Counts, AllocError>>) -> Result<Counts, AllocError>
    ensures { (groups : List (List Run)) → AllZip (λ group part. IfOk part (AreCounts group)) groups parts.items →
        IfOk result (AreCounts (flat_map (λ group. group) groups)) }
{
    let mut all = Counts::new(alloc);
    for part in parts {
        let counts = part?;
        let sum = joined(all, counts)?;
        all = sum;
    }
    Ok(all)
}

/// The counts of the histories of all seeds' runs.
pub(crate) fn counts_of(
    rt: &(impl Threads + Sync),
    alloc: Global,
    code: &Code,
    cells: usize,
    seeds: &[u64],
    drawing: Sampler,
) -> Result<Counts, AllocError>
    requires cells { ¬ AreBadCells code.now.names cells }
    requires chance { 0 < drawing.switch }
    ensures { IfOk result (AreCounts (runs_of code.now cells drawing seeds.now)) }
{
    let parts = run_parts(rt, alloc, code, cells, seeds, drawing)?;
    let counts = all_counts(alloc, parts)?;
    Ok(counts)
}
