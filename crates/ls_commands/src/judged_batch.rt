// The command `batch`, with what there is to say of each history.

ghost use Rattle.std.specs.Prelude.{◌≡◌};
ghost use Rattle.ls_checked.specs.Plain.{plain_file};
ghost use Rattle.ls_commands.specs.Compiled.{file_of_image};
ghost use Rattle.ls_commands.specs.Likeness.{AnswersLike, JudgedLike, JudgesLike};
ghost use Rattle.ls_commands.specs.Judged.{Judged, JudgesTo};
ghost use Rattle.ls_commands.specs.ReadableRuns.{RunsAreReadable};
ghost use Rattle.ls_faults.specs.Given.{GivesText};

use crate::batching::Sampling;
use ls_batch::laws::seeds_replay;
use ls_batch::{print_judged, print_judged_like};
use ls_checked::tree::File;
use ls_compiler::compile;
use ls_faults::fault::ToolFault;
use ls_image::image::Image;
use ls_specification::Specification;
use ls_specified::specified;
use ls_text_laws::compiled_is_readable;
use std::alloc::{AllocError, Global};
use std::thread::Threads;

/// The checked file of an image.
fn file_in(image: &Image) -> &File
    ensures { plain_file result.now ≡ file_of_image image.now }
{
    image.checked().file()
}

/// The tally of the image's runs under the samples, on a machine with so many cells, with what there is to say of each
/// history.
fn judged(
    rt: &(impl Threads + Sync),
    alloc: Global,
    image: &Image,
    cells: usize,
    sampling: Sampling,
) -> Result<String, ToolFault>
    requires readable { RunsAreReadable image.now }
    ensures { GivesText (Judged image.now cells sampling) result }
{
    seeds_replay();
    let tally = ls_batch::batch(
        rt,
        alloc,
        image,
        cells,
        sampling.first,
        sampling.count,
        sampling.drawing,
    )?;
    Ok(print_judged(alloc, &tally, file_in(image), image.program())?)
}

/// The tally of the compiled program's runs under the samples, with what there is to say of each history: whether its
/// calls, if they are all set calls on one object, have a legal order; and whether it is linearizable to its program.
pub fn judge_batch(
    rt: &(impl Threads + Sync),
    alloc: Global,
    sampling: Sampling,
    cells: usize,
    classes: &str,
    program: &str,
) -> Result<String, ToolFault>
    ensures { GivesText (JudgesTo cells sampling classes.now program.now) result }
{
    let image = compile(alloc, classes, program)?;
    compiled_is_readable();
    judged(rt, alloc, &image, cells, sampling)
}

/// The tally of the image's runs, with what there is to say of each history by the program of another image.
fn judged_like(
    rt: &(impl Threads + Sync),
    alloc: Global,
    like: &Image,
    image: &Image,
    cells: usize,
    sampling: Sampling,
) -> Result<String, ToolFault>
    requires readable { RunsAreReadable image.now }
    ensures { GivesText (JudgedLike like.now image.now cells sampling) result }
{
    seeds_replay();
    let Sampling {
        first,
        count,
        drawing,
    } = sampling;
    let tally = ls_batch::batch(rt, alloc, image, cells, first, count, drawing)?;
    let specification = Specification::own(file_in(like), like.program());
    Ok(print_judged_like(alloc, &tally, specification, image.program())?)
}

/// The texts of a program: its reference, its class text, and its own.
#[derive(Copy)]
pub struct JudgingTexts<'a> {
    pub reference: &'a str,
    pub classes: &'a str,
    pub program: &'a str,
}

impl<'a> Clone for JudgingTexts<'a> {
    fn clone(&self) -> Result<JudgingTexts<'a>, AllocError> {
        Ok(*self)
    }
}

/// The same by a reference, which specifies the program of a text.
fn judged_by(
    rt: &(impl Threads + Sync),
    alloc: Global,
    image: &Image,
    cells: usize,
    sampling: Sampling,
    texts: JudgingTexts<'_>,
) -> Result<String, ToolFault>
    requires readable { RunsAreReadable image.now }
    ensures { GivesText (AnswersLike texts.entry.reference.now texts.entry.program.now image.now
        (λ s. JudgedLike s image.now cells sampling)) result }
{
    let like = specified(alloc, texts.reference, texts.program, image.program())?;
    judged_like(rt, alloc, &like, image, cells, sampling)
}

/// The tally of the compiled program's runs under the samples, with what there is to say of each history by a
/// reference: whether it is linearizable to the program of the reference.
pub fn judge_batch_like(
    rt: &(impl Threads + Sync),
    alloc: Global,
    sampling: Sampling,
    cells: usize,
    texts: JudgingTexts<'_>,
) -> Result<String, ToolFault>
    ensures { GivesText (JudgesLike cells sampling texts.entry.reference.now texts.entry.classes.now
        texts.entry.program.now) result }
{
    let image = compile(alloc, texts.classes, texts.program)?;
    compiled_is_readable();
    judged_by(rt, alloc, &image, cells, sampling, texts)
}
