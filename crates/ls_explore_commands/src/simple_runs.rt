// Runs that are told, each with few context switches.

ghost use Rattle.std.specs.Prelude.{◌≡◌, IfErr, IfOk, true, false};
ghost use Rattle.ls_checked.specs.CheckedTree.{File as FileValue};
ghost use Rattle.ls_checked.specs.CheckedProgram.{Program as ProgramValue};
ghost use Rattle.ls_explore_commands.specs.Readable.{AreReadBack, IsReadBack};
ghost use Rattle.ls_explore_commands.specs.Verdicts.{IsRefusalOf};
ghost use Rattle.ls_fewest_switches.specs.Switches.{HasFewest, HasFewestStuck};
ghost use Rattle.ls_search_laws.specs.Stepping.{ActAll};
ghost use Rattle.ls_serial_search.specs.declared.telling.Doubt.{Doubt};
ghost use Rattle.ls_source_judge.specs.Judged.{IsSimplestUnlike, IsStuckRun, IsUnjudgedRun, IsUnlikeRun};
ghost use Rattle.ls_specification.specs.Specification.{spec_file, spec_program};
ghost use Rattle.ls_spinning.specs.Turning.{TurnsForEver};
ghost use Rattle.ls_translation.specs.Texts.{file_of, program_of};

use ls_events::schedule::{MOST_STEPS, Schedule};
use ls_fewest_switches::{SimpleRun, Target, acting_steps, simplest, simplest_stuck};
use ls_image::image::Image;
use ls_source_judge::simplest_unexplained;
use ls_specification::Specification;
use ls_translation::fault::TranslationFault;
use std::alloc::{AllocError, Global};

/// The most states of a search for a run with the fewest context switches.
const MOST_OF_CHANGES: usize = 1_000_000;

/// The schedule of these steps, if they aren't too many.
fn schedule_of(alloc: Global, steps: &[u8]) -> Result<Schedule, TranslationFault>
    ensures steps { IfOk result (λ s. s ≡ steps.now) }
    ensures only { IfErr result (IsRefusalOf steps.now) }
{
    if steps.len() > MOST_STEPS {
        return Err(TranslationFault::ResultTooLong);
    }
    let copied = steps.to_vec(alloc)?;
    Ok(Schedule::of(copied))
}

/// A run with the history of these steps, and the fewest context switches.
pub(crate) fn run_along(
    alloc: Global,
    image: &Image,
    steps: &[u8],
) -> Result<SimpleRun, TranslationFault>
    requires { AreReadBack image.now }
    ensures unjudged { IfOk result (λ r. (d : Doubt) →
        (sfile : FileValue) (sprogram : ProgramValue) →
        IsUnjudgedRun sfile sprogram (file_of image.now) (program_of image.now) d steps.now →
        IsUnjudgedRun sfile sprogram (file_of image.now) (program_of image.now) d r.schedule) }
    ensures reads { IfOk result (λ r. ActAll (file_of image.now) (program_of image.now) steps.now →
        IsReadBack image.now r.schedule) }
    ensures fewest { IfOk result (λ r. r.fewest ≡ true →
        HasFewest false (file_of image.now) (program_of image.now) r.schedule) }
    ensures only { IfErr result (IsRefusalOf steps.now) }
{
    let found = schedule_of(alloc, steps)?;
    let file = image.checked().file();
    let target = Target {
        stuck: false,
        limit: MOST_OF_CHANGES,
    };
    let run = simplest(alloc, file, image.program(), target, &found)?;
    run.schedule.fits();
    Ok(run)
}

/// A run whose history isn't linearizable, if that of these steps isn't, with the fewest context switches.
pub(crate) fn bad_run(
    alloc: Global,
    specification: Specification<'_>,
    image: &Image,
    steps: &[u8],
) -> Result<SimpleRun, TranslationFault>
    requires { AreReadBack image.now }
    ensures bad { IfOk result (λ r.
        IsUnlikeRun (spec_file specification.entry) (spec_program specification.entry)
        (file_of image.now) (program_of image.now) steps.now →
        IsUnlikeRun (spec_file specification.entry) (spec_program specification.entry)
        (file_of image.now) (program_of image.now) r.schedule) }
    ensures reads { IfOk result (λ r. ActAll (file_of image.now) (program_of image.now) steps.now →
        IsReadBack image.now r.schedule) }
    ensures fewest { IfOk result (λ r. r.fewest ≡ true →
        IsSimplestUnlike (spec_file specification.entry) (spec_program specification.entry)
        (file_of image.now) (program_of image.now) r.schedule) }
    ensures only { IfErr result (IsRefusalOf steps.now) }
{
    let found = schedule_of(alloc, steps)?;
    let file = image.checked().file();
    let program = image.program();
    let run = simplest_unexplained(alloc, specification, file, program, &found, MOST_OF_CHANGES)?;
    run.schedule.fits();
    Ok(run)
}

/// A run after which no thread acts and one waits, if that is so after these steps, with the fewest context switches.
pub(crate) fn stuck_run(
    alloc: Global,
    image: &Image,
    steps: &[u8],
) -> Result<SimpleRun, TranslationFault>
    requires { AreReadBack image.now }
    ensures stuck { IfOk result (λ r. IsStuckRun (file_of image.now) (program_of image.now) steps.now →
        IsStuckRun (file_of image.now) (program_of image.now) r.schedule) }
    ensures reads { IfOk result (λ r. ActAll (file_of image.now) (program_of image.now) steps.now →
        IsReadBack image.now r.schedule) }
    ensures fewest { IfOk result (λ r. r.fewest ≡ true →
        HasFewestStuck (file_of image.now) (program_of image.now) r.schedule) }
    ensures only { IfErr result (IsRefusalOf steps.now) }
{
    let found = schedule_of(alloc, steps)?;
    let file = image.checked().file();
    let run = simplest_stuck(alloc, file, image.program(), &found, MOST_OF_CHANGES)?;
    run.schedule.fits();
    Ok(run)
}

/// A run after which threads turn for ever, if they do so after this schedule. Its context switches aren't counted. The
/// only refusal is that memory ran out.
pub(crate) fn turning_run(
    alloc: Global,
    image: &Image,
    found: &Schedule,
) -> Result<SimpleRun, AllocError>
    requires { AreReadBack image.now }
    ensures acts { IfOk result (λ r. ActAll (file_of image.now) (program_of image.now) r.schedule) }
    ensures turns { IfOk result (λ r. TurnsForEver (file_of image.now) (program_of image.now) found.now →
        TurnsForEver (file_of image.now) (program_of image.now) r.schedule) }
    ensures reads { IfOk result (λ r. IsReadBack image.now r.schedule) }
    ensures uncounted { IfOk result (λ r. r.fewest ≡ false) }
{
    found.fits();
    let file = image.checked().file();
    let steps = acting_steps(alloc, file, image.program(), found.steps())?;
    Ok(SimpleRun {
        schedule: Schedule::of(steps),
        fewest: false,
    })
}
