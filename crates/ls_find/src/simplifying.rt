// Schedules with the fewest context switches.

ghost use Rattle.std.specs.Prelude.{◌≡◌, IfOk, true};
ghost use Rattle.ls_fewest_switches.specs.Switches.{EndsSo, HasFewest};
ghost use Rattle.ls_find.specs.Fewest.{IsFewest};
ghost use Rattle.ls_find.specs.Verdicts.{IsBad, IsNotLinearizable};
ghost use Rattle.ls_meaning.specs.Runs.{source_history};
ghost use Rattle.ls_explore.specs.Rows.{ActAll};
ghost use Rattle.ls_find.specs.declared.verdict.Reason.TheVariants.{NotLinearizable};
ghost use Rattle.ls_specification.specs.Specification.{given_of};
ghost use Rattle.ls_translation.specs.Texts.{file_of, program_of};

use crate::specified::specification_of;
use crate::verdict::Reason;
use ls_endless_calls::laws::pending_calls_wait;
use ls_events::schedule::Schedule;
use ls_fewest_switches::{SimpleRun, Target, simplest};
use ls_image::image::Image;
use ls_source_judge::simplest_unexplained;
use ls_specification::Specification;
use std::alloc::{AllocError, Global};

/// The most states of a search for a run with the fewest context switches.
const MOST_OF_CHANGES: usize = 1_000_000;

/// A run of the program of an image with the history of a schedule, and the fewest context switches. With `stuck` no
/// thread acts after it and one waits, where that is so after the schedule.
fn simple_run(
    alloc: Global,
    image: &Image,
    stuck: bool,
    found: &Schedule,
) -> Result<SimpleRun, AllocError>
    ensures history { IfOk result (λ r. source_history (file_of image.now) (program_of image.now) r.schedule ≡
        source_history (file_of image.now) (program_of image.now) found.now) }
    ensures ends { IfOk result (λ r. EndsSo stuck (file_of image.now) (program_of image.now) found.now →
        EndsSo stuck (file_of image.now) (program_of image.now) r.schedule) }
    ensures acts { IfOk result (λ r. ActAll (file_of image.now) (program_of image.now) found.now →
        ActAll (file_of image.now) (program_of image.now) r.schedule) }
    ensures fewest { IfOk result (λ r. r.fewest ≡ true →
        HasFewest stuck (file_of image.now) (program_of image.now) r.schedule) }
{
    let file = image.checked().file();
    let target = Target {
        stuck,
        limit: MOST_OF_CHANGES,
    };
    let run = simplest(alloc, file, image.program(), target, found)?;
    Ok(run)
}

/// A run of the program of an image whose history isn't linearizable, if that of a schedule isn't, with the fewest
/// context switches.
fn unexplained_run(
    alloc: Global,
    given: Option<Specification<'_>>,
    image: &Image,
    found: &Schedule,
) -> Result<SimpleRun, AllocError>
    ensures bad { IfOk result (λ r.
        IsNotLinearizable (given_of given.entry) (file_of image.now) (program_of image.now) found.now →
        IsNotLinearizable (given_of given.entry) (file_of image.now) (program_of image.now) r.schedule) }
    ensures acts { IfOk result (λ r. ActAll (file_of image.now) (program_of image.now) found.now →
        ActAll (file_of image.now) (program_of image.now) r.schedule) }
    ensures fewest { IfOk result (λ r. r.fewest ≡ true →
        IsFewest NotLinearizable (given_of given.entry) (file_of image.now) (program_of image.now) r.schedule) }
{
    let specification = specification_of(given, image);
    let file = image.checked().file();
    let program = image.program();
    let run = simplest_unexplained(alloc, specification, file, program, found, MOST_OF_CHANGES)?;
    Ok(run)
}

/// A run that is bad for the same reason as a schedule, with the fewest context switches of those with which it is
/// compared. If threads wait for ever after the schedule, or its history is illegal, these have its history. The only
/// refusal is that memory ran out.
pub(crate) fn simplified(
    alloc: Global,
    given: Option<Specification<'_>>,
    image: &Image,
    reason: Reason,
    found: &Schedule,
) -> Result<SimpleRun, AllocError>
    ensures bad { IfOk result (λ r.
        IsBad reason (given_of given.entry) (file_of image.now) (program_of image.now) found.now →
        IsBad reason (given_of given.entry) (file_of image.now) (program_of image.now) r.schedule) }
    ensures acts { IfOk result (λ r. ActAll (file_of image.now) (program_of image.now) found.now →
        ActAll (file_of image.now) (program_of image.now) r.schedule) }
    ensures fewest { IfOk result (λ r. r.fewest ≡ true →
        IsFewest reason (given_of given.entry) (file_of image.now) (program_of image.now) r.schedule) }
{
    pending_calls_wait();
    match reason {
        Reason::NotLinearizable => unexplained_run(alloc, given, image, found),
        Reason::Waits => simple_run(alloc, image, true, found),
        Reason::Illegal => simple_run(alloc, image, false, found),
        Reason::Turns => {
            let schedule = found.copied(alloc)?;
            Ok(SimpleRun {
                schedule,
                fewest: false,
            })
        }
    }
}
