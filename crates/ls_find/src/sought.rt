// What is looked for in a program.

ghost use Rattle.std.specs.Prelude.{IfOk};
ghost use Rattle.ls_find.specs.Sought.{AllNamed, IsLegalVerdict, IsTurningVerdict, IsVerdictFor};
ghost use Rattle.ls_find.specs.Verdicts.{HasTurns, IsBadSchedule, IsGood};
ghost use Rattle.ls_find.specs.declared.verdict.Reason.TheVariants.{Turns};
ghost use Rattle.ls_specification.specs.Specification.{Given, given_of};
ghost use Rattle.ls_translation.specs.Texts.{file_of, program_of};

use crate::legal::set_verdict;
use crate::specified::specification_of;
use crate::verdict::{ProgramVerdict, Reason, verdict_on};
use ls_endless_calls::{Endless, find_endless};
use ls_events::schedule::Schedule;
use ls_fewest_switches::acting_steps;
use ls_image::image::Image;
use ls_specification::Specification;
use std::alloc::{AllocError, Global};

/// What is looked for in programs, besides a history that isn't linearizable.
#[derive(Copy)]
pub struct Sought {
    /// Whether threads are looked for that wait for ever in calls that end where calls run one at a time.
    pub waiting: bool,
    /// Whether threads are looked for that turn for ever in such calls.
    pub turning: bool,
    /// Whether histories are looked for that are illegal as those of a set.
    pub set: bool,
}

impl Clone for Sought {
    fn clone(&self) -> Result<Sought, AllocError> {
        Ok(*self)
    }
}

/// Whether each history is legal as one of a set, if those of a set are looked for.
fn legal_verdict(
    alloc: Global,
    image: &Image,
    states: usize,
    sought: Sought,
) -> Result<ProgramVerdict, AllocError>
    requires { AllNamed (file_of image.now) (program_of image.now) }
    ensures { IfOk result (λ v. (given : Given) →
        IsLegalVerdict sought states given (file_of image.now) (program_of image.now) v) }
{
    if sought.set {
        return set_verdict(alloc, image, states);
    }
    Ok(ProgramVerdict::Good)
}

/// The steps of a schedule that act. If threads turn for ever after the schedule, they do so after these.
fn acting_schedule(alloc: Global, image: &Image, found: &Schedule) -> Result<Schedule, AllocError>
    ensures { IfOk result (λ s. (given : Given) → HasTurns given (file_of image.now) (program_of image.now) found.now →
        IsBadSchedule Turns given (file_of image.now) (program_of image.now) s) }
{
    found.fits();
    let file = image.checked().file();
    let steps = acting_steps(alloc, file, image.program(), found.steps())?;
    Ok(Schedule::of(steps))
}

/// Whether threads of the program of an image can turn for ever in calls that end where calls run one at a time, if
/// that is looked for.
fn turning_verdict(
    alloc: Global,
    given: Option<Specification<'_>>,
    image: &Image,
    states: usize,
    sought: Sought,
) -> Result<ProgramVerdict, AllocError>
    ensures { IfOk result
        (IsTurningVerdict sought (given_of given.entry) (file_of image.now) (program_of image.now)) }
{
    if !sought.turning {
        return Ok(ProgramVerdict::Good);
    }
    if states == 0 {
        return Ok(ProgramVerdict::Unknown);
    }
    let specification = specification_of(given, image);
    let file = image.checked().file();
    match find_endless(alloc, specification, file, image.program(), states)? {
        Endless::Never => Ok(ProgramVerdict::Good),
        Endless::Unknown => Ok(ProgramVerdict::Unknown),
        Endless::After(found) => {
            let schedule = acting_schedule(alloc, image, &found)?;
            Ok(ProgramVerdict::Bad(Reason::Turns, schedule))
        }
    }
}

/// What is said of a program all of whose histories are linearizable, and of which no thread waits for ever if that is
/// looked for. If a history can't be judged as one of a set, threads that turn for ever are looked for all the same.
fn well_verdict(
    alloc: Global,
    given: Option<Specification<'_>>,
    image: &Image,
    states: usize,
    sought: Sought,
) -> Result<ProgramVerdict, AllocError>
    requires good { IsGood sought.waiting (given_of given) (file_of image.now) (program_of image.now) }
    requires named { AllNamed (file_of image.now) (program_of image.now) }
    ensures { IfOk result
        (IsVerdictFor sought states (given_of given.entry) (file_of image.now) (program_of image.now)) }
{
    match legal_verdict(alloc, image, states, sought)? {
        ProgramVerdict::Good => turning_verdict(alloc, given, image, states, sought),
        ProgramVerdict::Unknown => match turning_verdict(alloc, given, image, states, sought)? {
            ProgramVerdict::Good | ProgramVerdict::Unknown => Ok(ProgramVerdict::Unknown),
            ProgramVerdict::Bad(reason, schedule) => Ok(ProgramVerdict::Bad(reason, schedule)),
        },
        ProgramVerdict::Bad(reason, schedule) => Ok(ProgramVerdict::Bad(reason, schedule)),
    }
}

/// Says of the program of an image what `verdict_on` does. If all is well, it says of what else is looked for whether
/// each history is legal as one of a set, and whether threads can turn for ever in calls that end alone.
///
/// The only refusal is that memory ran out.
pub fn sought_verdict(
    alloc: Global,
    given: Option<Specification<'_>>,
    image: &Image,
    states: usize,
    sought: Sought,
) -> Result<ProgramVerdict, AllocError>
    requires { AllNamed (file_of image.now) (program_of image.now) }
    ensures { IfOk result
        (IsVerdictFor sought states (given_of given.entry) (file_of image.now) (program_of image.now)) }
{
    match verdict_on(alloc, given, image, states, sought)? {
        ProgramVerdict::Good => well_verdict(alloc, given, image, states, sought),
        ProgramVerdict::Unknown => Ok(ProgramVerdict::Unknown),
        ProgramVerdict::Bad(reason, schedule) => Ok(ProgramVerdict::Bad(reason, schedule)),
    }
}
