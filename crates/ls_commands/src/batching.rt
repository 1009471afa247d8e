// The command `batch`.

ghost use Rattle.ls_commands.specs.Tallied.{Tallied, TalliesTo};
ghost use Rattle.ls_faults.specs.Given.{GivesText};

pub use ls_batch::Sampler;
use ls_batch::print_tally;
use ls_compiler::compile;
use ls_faults::fault::ToolFault;
use ls_image::image::Image;
use std::alloc::{AllocError, Global};
use std::thread::Threads;

/// Which seeds are run, and how the steps after the setup's are drawn.
#[derive(Copy)]
pub struct Sampling {
    pub first: u64,
    pub count: usize,
    pub drawing: Sampler,
}

impl Clone for Sampling {
    ghost use Rattle.std.specs.Prelude.{◌≡◌, IfOk};

    fn clone(&self) -> Result<Sampling, AllocError>
        ensures { IfOk result (λ copy. copy ≡ self.now) }
    {
        Ok(*self)
    }
}

/// The tally of the image's runs under the samples, on a machine with so many cells.
fn tallied(
    rt: &(impl Threads + Sync),
    alloc: Global,
    image: &Image,
    cells: usize,
    sampling: Sampling,
) -> Result<String, ToolFault>
    ensures { GivesText (Tallied image.now cells sampling) result }
{
    let tally = ls_batch::batch(
        rt,
        alloc,
        image,
        cells,
        sampling.first,
        sampling.count,
        sampling.drawing,
    )?;
    Ok(print_tally(rt, alloc, &tally, image.program())?)
}

/// The tally of the compiled program's runs under the samples.
pub fn batch(
    rt: &(impl Threads + Sync),
    alloc: Global,
    sampling: Sampling,
    cells: usize,
    classes: &str,
    program: &str,
) -> Result<String, ToolFault>
    ensures { GivesText (TalliesTo cells sampling classes.now program.now) result }
{
    let image = compile(alloc, classes, program)?;
    tallied(rt, alloc, &image, cells, sampling)
}
