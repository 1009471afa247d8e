// What `explore --verdict` says.

ghost use Rattle.std.specs.Prelude.{◌↔◌, ◌≡◌, IfNone, IfOk, IfSome, IsTrue};
ghost use Rattle.ls_checked.specs.CheckedTree.{File as FileValue};
ghost use Rattle.ls_checked.specs.CheckedProgram.{Program as ProgramValue};
ghost use Rattle.ls_explore.specs.Faults.{AreBadStates};
ghost use Rattle.ls_faults.specs.Given.{GivesText};
ghost use Rattle.ls_report.specs.Events.{Text};
ghost use Rattle.ls_explore_commands.specs.Readable.{AreReadBack, SourceRunsAreReadable};
ghost use Rattle.ls_commands.specs.Likeness.{AnswersLike};
ghost use Rattle.ls_explore_commands.specs.Likeness.{VerdictsLike};
ghost use Rattle.ls_explore_commands.specs.Verdicts.{Decided, IsExtent, VerdictsTo};
ghost use Rattle.ls_source_judge.specs.Judged.{AllLike, IsStuckRun, IsUnjudgedRun, IsUnlikeRun};
ghost use Rattle.ls_specification.specs.Specification.{spec_file, spec_program};
ghost use Rattle.ls_explore_commands.specs.Beside.{IsBeside};
ghost use Rattle.ls_spinning.specs.Turning.{NeverTurns, TurnsForEver};
ghost use Rattle.ls_search.specs.Verdicts.{NeverStuck};
ghost use Rattle.ls_translation.specs.Texts.{file_of, program_of};

use crate::beside::{Told, told_of};
use crate::laws::verdicts_read_back;
use crate::reporting::{
    Extent, print_bad, print_doubtful, print_free, print_stuck, print_stuck_and_doubtful,
    print_turning, print_unsure,
};
use crate::simple_runs::{bad_run, run_along, stuck_run, turning_run};
use ls_compiler::compile;
use ls_events::schedule::Schedule;
use ls_explore::{ExploreFault, MOST_STATES};
use ls_explore_reports::names_in;
use ls_faults::fault::ToolFault;
use ls_hopeless::hopeless_line;
use ls_image::image::Image;
use ls_serial_search::telling::Doubt;
use ls_source_judge::{Judged, judge_schedules};
use ls_specification::Specification;
use ls_specified::specified;
use ls_spinning::Turning;
use ls_text_laws::source_is_readable;
use std::alloc::{AllocError, Global};

/// Whether no states may be kept, or too many.
pub(crate) fn are_bad_states(states: usize) -> bool
    ensures { IsTrue result ↔ AreBadStates states }
{
    states == 0 || states > MOST_STATES
}

/// How many states may be kept, how many were, and whether these are all.
fn extent_of(judged: &Judged, limit: usize) -> Extent
    ensures limit { result.limit ≡ limit }
    ensures states { result.states ≡ judged.now.states }
    ensures complete { result.complete ≡ judged.now.complete }
{
    Extent {
        limit,
        states: judged.states,
        complete: judged.complete,
    }
}

/// The text of a schedule whose history isn't linearizable.
fn bad_answer(
    alloc: Global,
    specification: Specification<'_>,
    image: &Image,
    extent: Extent,
    steps: &[u8],
) -> Result<String, ToolFault>
    requires reads { AreReadBack image.now }
    requires named { SourceRunsAreReadable image.now }
    ensures { (classes : Text) → ¬ AreBadStates extent.limit →
        IsExtent (file_of image.now) (program_of image.now) extent.limit extent.states extent.complete →
        IsUnlikeRun (spec_file specification.entry) (spec_program specification.entry)
        (file_of image.now) (program_of image.now) steps.now →
        GivesText (Decided classes (spec_file specification.entry) (spec_program specification.entry)
        image.now extent.limit) result }
{
    let run = bad_run(alloc, specification, image, steps)?;
    let note = hopeless_line(alloc, specification, image, &run.schedule)?;
    let text = print_bad(alloc, names_in(image), &run, note.as_str(), extent)?;
    Ok(text)
}

/// The text of a schedule whose history no serial history explains that was found.
fn doubtful_answer(
    alloc: Global,
    image: &Image,
    extent: Extent,
    doubt: Doubt,
    steps: &[u8],
) -> Result<String, ToolFault>
    requires { AreReadBack image.now }
    ensures { (classes : Text) (sfile : FileValue) (sprogram : ProgramValue) → ¬ AreBadStates extent.limit →
        IsExtent (file_of image.now) (program_of image.now) extent.limit extent.states extent.complete →
        IsUnjudgedRun sfile sprogram (file_of image.now) (program_of image.now) doubt steps.now →
        (IsTrue extent.complete → NeverStuck (file_of image.now) (program_of image.now)) →
        GivesText (Decided classes sfile sprogram image.now extent.limit) result }
{
    let run = run_along(alloc, image, steps)?;
    let text = print_doubtful(alloc, names_in(image), doubt, &run, extent)?;
    Ok(text)
}

/// The same, where there is also a schedule after which no thread acts and one waits.
fn stuck_and_doubtful_answer(
    alloc: Global,
    image: &Image,
    extent: Extent,
    stuck: &[u8],
    doubt: Doubt,
    steps: &[u8],
) -> Result<String, ToolFault>
    requires { AreReadBack image.now }
    ensures { (classes : Text) (sfile : FileValue) (sprogram : ProgramValue) → ¬ AreBadStates extent.limit →
        IsExtent (file_of image.now) (program_of image.now) extent.limit extent.states extent.complete →
        IsStuckRun (file_of image.now) (program_of image.now) stuck.now →
        IsUnjudgedRun sfile sprogram (file_of image.now) (program_of image.now) doubt steps.now →
        GivesText (Decided classes sfile sprogram image.now extent.limit) result }
{
    let first = stuck_run(alloc, image, stuck)?;
    let run = run_along(alloc, image, steps)?;
    let text = print_stuck_and_doubtful(alloc, names_in(image), &first, &run, doubt, extent)?;
    Ok(text)
}

/// The text of a schedule after which no thread acts and one waits.
fn stuck_answer(
    alloc: Global,
    image: &Image,
    extent: Extent,
    steps: &[u8],
) -> Result<String, ToolFault>
    requires { AreReadBack image.now }
    ensures { (classes : Text) (sfile : FileValue) (sprogram : ProgramValue) → ¬ AreBadStates extent.limit →
        IsExtent (file_of image.now) (program_of image.now) extent.limit extent.states extent.complete →
        IsStuckRun (file_of image.now) (program_of image.now) steps.now →
        (IsTrue extent.complete → AllLike sfile sprogram (file_of image.now) (program_of image.now)) →
        GivesText (Decided classes sfile sprogram image.now extent.limit) result }
{
    let run = stuck_run(alloc, image, steps)?;
    let text = print_stuck(alloc, names_in(image), &run, extent)?;
    Ok(text)
}

/// The text that no run is wrong, with what is said of data races.
fn free_answer(
    alloc: Global,
    image: &Image,
    beside: &str,
    extent: Extent,
) -> Result<String, ToolFault>
    ensures { (classes : Text) (sfile : FileValue) (sprogram : ProgramValue) → ¬ AreBadStates extent.limit →
        IsExtent (file_of image.now) (program_of image.now) extent.limit extent.states extent.complete →
        (IsTrue extent.complete → AllLike sfile sprogram (file_of image.now) (program_of image.now)) →
        (IsTrue extent.complete → NeverStuck (file_of image.now) (program_of image.now)) →
        (IsTrue extent.complete → NeverTurns (file_of image.now) (program_of image.now)) →
        IsBeside classes image.now extent.limit extent.complete beside.now →
        GivesText (Decided classes sfile sprogram image.now extent.limit) result }
{
    let text = print_free(alloc, beside, extent)?;
    Ok(text)
}

/// What all schedules of an image's program tell, of which at most so many states are kept.
fn judged_of(
    alloc: Global,
    specification: Specification<'_>,
    image: &Image,
    states: usize,
) -> Result<Judged, AllocError>
    ensures good { IfOk result (λ j. IsTrue j.complete → IfNone j.bad
        (AllLike (spec_file specification.entry) (spec_program specification.entry)
        (file_of image.now) (program_of image.now))) }
    ensures bad { IfOk result (λ j. IfNone j.doubt (IfSome j.bad (λ s.
        IsUnlikeRun (spec_file specification.entry) (spec_program specification.entry)
        (file_of image.now) (program_of image.now) s.items))) }
    ensures unjudged { IfOk result (λ j. IfSome j.doubt (λ d. IfSome j.bad (λ s.
        IsUnjudgedRun (spec_file specification.entry) (spec_program specification.entry)
        (file_of image.now) (program_of image.now) d s.items))) }
    ensures free { IfOk result (λ j. IsTrue j.complete → IfNone j.stuck
        (NeverStuck (file_of image.now) (program_of image.now))) }
    ensures stuck { IfOk result (λ j. IfSome j.stuck (λ s.
        IsStuckRun (file_of image.now) (program_of image.now) s.items)) }
    ensures extent { IfOk result (λ j.
        IsExtent (file_of image.now) (program_of image.now) states j.states j.complete) }
{
    let file = image.checked().file();
    let judged = judge_schedules(alloc, specification, file, image.program(), states)?;
    Ok(judged)
}

/// The text of a schedule whose history no serial history explains that was found, and of one after which threads wait.
fn doubted_answer(
    alloc: Global,
    image: &Image,
    judged: &Judged,
    doubt: Doubt,
    steps: &[u8],
    extent: Extent,
) -> Result<String, ToolFault>
    requires { AreReadBack image.now }
    ensures { (classes : Text) (sfile : FileValue) (sprogram : ProgramValue) → ¬ AreBadStates extent.limit →
        IsExtent (file_of image.now) (program_of image.now) extent.limit extent.states extent.complete →
        IsUnjudgedRun sfile sprogram (file_of image.now) (program_of image.now) doubt steps.now →
        (IsTrue extent.complete → IfNone judged.now.stuck
        (NeverStuck (file_of image.now) (program_of image.now))) →
        IfSome judged.now.stuck (λ stuck. IsStuckRun (file_of image.now) (program_of image.now) stuck.items) →
        GivesText (Decided classes sfile sprogram image.now extent.limit) result }
{
    match &judged.stuck {
        Some(stuck) => stuck_and_doubtful_answer(
            alloc,
            image,
            extent,
            stuck.as_slice(),
            doubt,
            steps,
        ),
        None => doubtful_answer(alloc, image, extent, doubt, steps),
    }
}

/// The text of a schedule whose history no serial history explains that was found.
fn wrong_answer(
    alloc: Global,
    specification: Specification<'_>,
    image: &Image,
    judged: &Judged,
    steps: &[u8],
    extent: Extent,
) -> Result<String, ToolFault>
    requires reads { AreReadBack image.now }
    requires named { SourceRunsAreReadable image.now }
    ensures { (classes : Text) → ¬ AreBadStates extent.limit →
        IsExtent (file_of image.now) (program_of image.now) extent.limit extent.states extent.complete →
        IfNone judged.now.doubt (IsUnlikeRun (spec_file specification.entry) (spec_program specification.entry)
        (file_of image.now) (program_of image.now) steps.now) →
        IfSome judged.now.doubt (λ d. IsUnjudgedRun (spec_file specification.entry) (spec_program specification.entry)
        (file_of image.now) (program_of image.now) d steps.now) →
        (IsTrue extent.complete → IfNone judged.now.stuck
        (NeverStuck (file_of image.now) (program_of image.now))) →
        IfSome judged.now.stuck (λ stuck. IsStuckRun (file_of image.now) (program_of image.now) stuck.items) →
        GivesText (Decided classes (spec_file specification.entry) (spec_program specification.entry)
        image.now extent.limit) result }
{
    match judged.doubt {
        Some(doubt) => doubted_answer(alloc, image, judged, doubt, steps, extent),
        None => bad_answer(alloc, specification, image, extent, steps),
    }
}

/// The text of a schedule after which threads turn for ever.
fn turning_answer(
    alloc: Global,
    image: &Image,
    extent: Extent,
    found: &Schedule,
) -> Result<String, ToolFault>
    requires { AreReadBack image.now }
    ensures { (classes : Text) (sfile : FileValue) (sprogram : ProgramValue) → ¬ AreBadStates extent.limit →
        IsExtent (file_of image.now) (program_of image.now) extent.limit extent.states extent.complete →
        TurnsForEver (file_of image.now) (program_of image.now) found.now →
        (IsTrue extent.complete → AllLike sfile sprogram (file_of image.now) (program_of image.now)) →
        (IsTrue extent.complete → NeverStuck (file_of image.now) (program_of image.now)) →
        GivesText (Decided classes sfile sprogram image.now extent.limit) result }
{
    let run = turning_run(alloc, image, found)?;
    let text = print_turning(alloc, names_in(image), &run, extent)?;
    Ok(text)
}

/// The text where it isn't known whether threads can turn for ever.
fn unsure_answer(alloc: Global, image: &Image, extent: Extent) -> Result<String, ToolFault>
    ensures { (classes : Text) (sfile : FileValue) (sprogram : ProgramValue) → ¬ AreBadStates extent.limit →
        IsExtent (file_of image.now) (program_of image.now) extent.limit extent.states extent.complete →
        (IsTrue extent.complete → AllLike sfile sprogram (file_of image.now) (program_of image.now)) →
        (IsTrue extent.complete → NeverStuck (file_of image.now) (program_of image.now)) →
        GivesText (Decided classes sfile sprogram image.now extent.limit) result }
{
    let text = print_unsure(alloc, extent)?;
    Ok(text)
}

/// The text where no history is wrong, and where threads don't come to wait.
fn quiet_answer(
    alloc: Global,
    image: &Image,
    classes: &str,
    extent: Extent,
) -> Result<String, ToolFault>
    requires { AreReadBack image.now }
    ensures { (sfile : FileValue) (sprogram : ProgramValue) → ¬ AreBadStates extent.limit →
        IsExtent (file_of image.now) (program_of image.now) extent.limit extent.states extent.complete →
        (IsTrue extent.complete → AllLike sfile sprogram (file_of image.now) (program_of image.now)) →
        (IsTrue extent.complete → NeverStuck (file_of image.now) (program_of image.now)) →
        GivesText (Decided classes.now sfile sprogram image.now extent.limit) result }
{
    if !extent.complete {
        return free_answer(alloc, image, "", extent);
    }
    let Told { turning, beside } = told_of(alloc, image, classes, extent.limit)?;
    match turning {
        Turning::Never => free_answer(alloc, image, beside.as_str(), extent),
        Turning::After(schedule) => turning_answer(alloc, image, extent, &schedule),
        Turning::Unknown => unsure_answer(alloc, image, extent),
    }
}

/// The text of what all schedules of an image's program tell.
fn decided(
    alloc: Global,
    specification: Specification<'_>,
    image: &Image,
    classes: &str,
    states: usize,
) -> Result<String, ToolFault>
    requires reads { AreReadBack image.now }
    requires named { SourceRunsAreReadable image.now }
    ensures { GivesText (Decided classes.now (spec_file specification.entry) (spec_program specification.entry)
        image.now states) result }
{
    if are_bad_states(states) {
        return Err(ToolFault::Explore(ExploreFault::BadStates));
    }
    let judged = judged_of(alloc, specification, image, states)?;
    let extent = extent_of(&judged, states);
    match &judged.bad {
        Some(steps) => {
            wrong_answer(
                alloc,
                specification,
                image,
                &judged,
                steps.as_slice(),
                extent,
            )
        }
        None => match &judged.stuck {
            Some(steps) => stuck_answer(alloc, image, extent, steps.as_slice()),
            None => quiet_answer(alloc, image, classes, extent),
        },
    }
}

/// The same by the program of another image.
fn decided_like(
    alloc: Global,
    image: &Image,
    classes: &str,
    like: &Image,
    states: usize,
) -> Result<String, ToolFault>
    requires reads { AreReadBack image.now }
    requires named { SourceRunsAreReadable image.now }
    ensures { GivesText (Decided classes.now (file_of like.now) (program_of like.now) image.now states) result }
{
    let specification = Specification::own(like.checked().file(), like.program());
    decided(alloc, specification, image, classes, states)
}

/// The same by a class text, which specifies the program of a text.
fn decided_by(
    alloc: Global,
    image: &Image,
    classes: &str,
    like: &str,
    program: &str,
    states: usize,
) -> Result<String, ToolFault>
    requires reads { AreReadBack image.now }
    requires named { SourceRunsAreReadable image.now }
    ensures { GivesText (AnswersLike like.now program.now image.now
        (λ s. Decided classes.now (file_of s) (program_of s) image.now states)) result }
{
    match specified(alloc, like, program, image.program()) {
        Ok(specification) => decided_like(alloc, image, classes, &specification, states),
        Err(fault) => Err(ToolFault::from(fault)),
    }
}

/// A wrong run of the compiled program, over all schedules of source steps, where at most so many states of the source
/// are kept: its schedule and its history. Of the schedules with its history it is one with the fewest context
/// switches, if at most 1,000,000 states are needed to find it. A run is wrong if its history isn't linearizable, or
/// else if no thread acts after it and one waits. Else it is one after which threads turn for ever: some thread always
/// acts, and no event comes any more. Or that there is none. The last line has how many states were kept, and whether
/// these are all.
///
/// A run after which threads turn for ever is looked for only where all states were kept, with at most twice as many
/// states. If these don't suffice, it is said that threads may turn for ever. Where there is none and all states were
/// kept, a line says whether the program has a data race, for which at most so many states are kept too.
///
/// If serial histories lack, a run that none of the others explains is printed as not judged, with the reason; before
/// it one after which threads wait, if there is such a run.
///
/// Refused as `compile` is; else with 61 if no states may be kept, or more than 16,777,216; and as a schedule of over
/// 1,000,000 steps is.
pub fn verdict(
    alloc: Global,
    states: usize,
    classes: &str,
    program: &str,
) -> Result<String, ToolFault>
    ensures { GivesText (VerdictsTo states classes.now program.now) result }
{
    let image = compile(alloc, classes, program)?;
    verdicts_read_back();
    source_is_readable();
    decided_like(alloc, &image, classes, &image, states)
}

/// The same by a specification, whose class text is given. Refused also as that is with the program.
pub fn verdict_like(
    alloc: Global,
    states: usize,
    like: &str,
    classes: &str,
    program: &str,
) -> Result<String, ToolFault>
    ensures { GivesText (VerdictsLike states like.now classes.now program.now) result }
{
    let image = compile(alloc, classes, program)?;
    verdicts_read_back();
    source_is_readable();
    decided_by(alloc, &image, classes, like, program, states)
}
