// The command `explore`.

ghost use Rattle.std.specs.Prelude.{◌≡◌, ◌&&◌};
ghost use Rattle.ls_explore_commands.specs.Explored.{Explored, ExploresTo};
ghost use Rattle.ls_commands.specs.Likeness.{AnswersLike};
ghost use Rattle.ls_explore_commands.specs.Likeness.{ExploredLike, ExploresLike};
ghost use Rattle.ls_explore_reports.specs.ImageNames.{names_in};
ghost use Rattle.ls_explore_commands.specs.Readable.{SourceRunsAreReadable};
ghost use Rattle.ls_explore.specs.Watching.{GoesOn};
ghost use Rattle.ls_faults.specs.Given.{GivesText};

use crate::finding::find_rows;
use ls_compiler::compile;
use ls_explore::Watch;
use ls_explore_reports::laws::{
    linearity_is_meant, none_is_illegal, none_is_not_linearizable, none_is_unlike,
};
use ls_explore_reports::{
    Exploring, judge_rows, judge_rows_like, names_in, print_exploration, print_rows,
};
use ls_faults::fault::ToolFault;
use ls_image::image::Image;
use ls_specification::Specification;
use ls_specified::specified;
use ls_text_laws::source_is_readable;
use std::alloc::Global;

/// Whether the rows tell of every schedule.
fn is_whole(complete: bool, roomy: bool) -> bool
    ensures { result ≡ (complete && roomy) }
{
    complete && roomy
}

/// The histories of all schedules of the image's program, with a verdict on each.
fn explored<W: Watch>(
    alloc: Global,
    image: &Image,
    exploring: Exploring,
    watch: &mut W,
) -> Result<String, ToolFault>
    requires { SourceRunsAreReadable image.now }
    ensures gives { GivesText (Explored image.now exploring) result }
    ensures watched { GoesOn W.Since watch.old watch.new }
{
    let found = find_rows(alloc, image, exploring, watch)?;
    let whole = is_whole(found.complete, found.roomy);
    let file = image.checked().file();
    let judged = judge_rows(
        alloc,
        found.rows.as_slice(),
        file,
        image.program(),
        whole,
        exploring.order,
    )?;
    linearity_is_meant();
    none_is_illegal();
    none_is_not_linearizable();
    let text = print_exploration(alloc, names_in(image), &found, judged.as_slice(), exploring)?;
    Ok(text)
}

/// The histories of all schedules of an image's program, with what a specification says of each: the program of another
/// image.
fn explored_like<W: Watch>(
    alloc: Global,
    image: &Image,
    like: &Image,
    exploring: Exploring,
    watch: &mut W,
) -> Result<String, ToolFault>
    ensures gives { GivesText (ExploredLike like.now image.now exploring) result }
    ensures watched { GoesOn W.Since watch.old watch.new }
{
    let found = find_rows(alloc, image, exploring, watch)?;
    let specification = Specification::own(like.checked().file(), like.program());
    let judged = judge_rows_like(alloc, found.rows.as_slice(), specification, exploring.order)?;
    none_is_unlike();
    let text = print_rows(alloc, names_in(image), &found, judged.as_slice(), exploring)?;
    Ok(text)
}

/// The same by a class text, which specifies the program of a text.
fn explored_by<W: Watch>(
    alloc: Global,
    image: &Image,
    exploring: Exploring,
    like: &str,
    program: &str,
    watch: &mut W,
) -> Result<String, ToolFault>
    ensures gives { GivesText (AnswersLike like.now program.now image.now
        (λ s. ExploredLike s image.now exploring)) result }
    ensures watched { GoesOn W.Since watch.old watch.new }
{
    match specified(alloc, like, program, image.program()) {
        Ok(specification) => explored_like(alloc, image, &specification, exploring, watch),
        Err(fault) => Err(ToolFault::from(fault)),
    }
}

/// The same as `explore`, with what a specification says of each history, whose class text is given.
pub fn explore_like<W: Watch>(
    alloc: Global,
    exploring: Exploring,
    like: &str,
    classes: &str,
    program: &str,
    watch: &mut W,
) -> Result<String, ToolFault>
    ensures gives { GivesText (ExploresLike exploring like.now classes.now program.now) result }
    ensures watched { GoesOn W.Since watch.old watch.new }
{
    let image = compile(alloc, classes, program)?;
    explored_by(alloc, &image, exploring, like, program, watch)
}

/// The histories of all schedules of the compiled program, where at most so many states are kept: each with how it
/// ends, the verdict on it, and a schedule of source steps. If a number of cells is given, the states are those of a
/// machine with so many; else they are those of the source. With `illegal` only those of a set without a legal order
/// are printed, and others that are not linearizable; with `first` the first of those that would be printed. With
/// `order` what the command `order` tells of a history stands below it. The last line has the counts, and whether these
/// are all. While it goes on it tells how many states there are.
///
/// Refused as `compile` is; else as `explore_image` is, or `explore_source`; and as a schedule of over 1,000,000 steps
/// is.
pub fn explore<W: Watch>(
    alloc: Global,
    exploring: Exploring,
    classes: &str,
    program: &str,
    watch: &mut W,
) -> Result<String, ToolFault>
    ensures gives { GivesText (ExploresTo exploring classes.now program.now) result }
    ensures watched { GoesOn W.Since watch.old watch.new }
{
    let image = compile(alloc, classes, program)?;
    source_is_readable();
    explored(alloc, &image, exploring, watch)
}
