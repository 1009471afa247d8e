// The command `sample`.

ghost use Rattle.ls_commands.specs.Sampled.{Sampled, SamplesTo};
ghost use Rattle.ls_faults.specs.Given.{GivesText};

use crate::batching::Sampler;
use ls_batch::laws::seeds_replay;
use ls_compiler::compile;
use ls_faults::fault::ToolFault;
use ls_image::image::Image;
use ls_schedule::print_schedule;
use ls_text_laws::schedules_read_back;
use std::alloc::Global;

/// The schedule that `batch` runs for a seed of the image's program, on a machine with so many cells.
fn sampled(
    alloc: Global,
    image: &Image,
    cells: usize,
    seed: u64,
    drawing: Sampler,
) -> Result<String, ToolFault>
    ensures { GivesText (Sampled image.now cells seed drawing (Unit {0})) result }
{
    let schedule = ls_batch::sampled(alloc, image, cells, seed, drawing)?;
    Ok(print_schedule(alloc, &schedule, image.program())?)
}

/// The schedule of machine instructions that `batch` runs for a seed of the compiled program: the setup's steps, then
/// those that are drawn. `replay` of it prints the history that `batch` counts for the seed.
pub fn sample(
    alloc: Global,
    cells: usize,
    seed: u64,
    drawing: Sampler,
    classes: &str,
    program: &str,
) -> Result<String, ToolFault>
    ensures { GivesText (SamplesTo cells seed drawing classes.now program.now) result }
{
    let image = compile(alloc, classes, program)?;
    schedules_read_back();
    seeds_replay();
    sampled(alloc, &image, cells, seed, drawing)
}
