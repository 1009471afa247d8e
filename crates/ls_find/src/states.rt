// What the states of the source say of a program.

ghost use Rattle.std.specs.Prelude.{◌≡◌, IfNone, IfOk, IfSome, IsTrue, None, true};
ghost use Rattle.ls_find.specs.Said.{IsVerdictIfAny};
ghost use Rattle.ls_source_judge.specs.Judged.{IsUnlikeRun};
ghost use Rattle.ls_specification.specs.Specification.{Given, given_file, given_of, given_program};
ghost use Rattle.ls_translation.specs.Texts.{file_of, program_of};

use crate::sought::Sought;
use crate::specified::specification_of;
use crate::verdict::{ProgramVerdict, Reason};
use ls_endless_calls::laws::pending_calls_wait;
use ls_events::schedule::{MOST_STEPS, Schedule};
use ls_image::image::Image;
use ls_source_judge::{Judged, judge_schedules};
use ls_specification::Specification;
use std::alloc::{AllocError, Global};

/// Whether all states were kept, no history is bad, and no thread waits if that is looked for.
fn is_good(judged: &Judged, waiting: bool) -> bool
    ensures complete { IsTrue result → judged.now.complete ≡ true }
    ensures bad { IsTrue result → judged.now.bad ≡ None }
    ensures stuck { IsTrue result → waiting ≡ true → judged.now.stuck ≡ None }
{
    judged.complete && judged.bad.is_none() && (!waiting || judged.stuck.is_none())
}

/// The schedule of these steps. None if they are too many.
fn schedule_of(alloc: Global, steps: &[u8]) -> Result<Option<Schedule>, AllocError>
    ensures { IfOk result (λ some. IfSome some (λ schedule. schedule ≡ steps.now)) }
{
    if steps.len() > MOST_STEPS {
        return Ok(None);
    }
    let copied = steps.to_vec(alloc)?;
    Ok(Some(Schedule::of(copied)))
}

/// That the history of a schedule isn't linearizable, if one was found and all serial histories are known.
fn bad_verdict(
    alloc: Global,
    image: &Image,
    judged: &Judged,
    sought: Sought,
) -> Result<ProgramVerdict, AllocError>
    ensures { IfOk result (λ v. (given : Given) → IfNone judged.now.doubt (IfSome judged.now.bad (λ steps.
        IsUnlikeRun (given_file given (file_of image.now)) (given_program given (program_of image.now))
        (file_of image.now) (program_of image.now) steps.items)) →
        IsVerdictIfAny sought given (file_of image.now) (program_of image.now) v) }
{
    if judged.doubt.is_some() {
        return Ok(ProgramVerdict::Unknown);
    }
    let Some(steps) = &judged.bad else {
        return Ok(ProgramVerdict::Unknown);
    };
    match schedule_of(alloc, steps.as_slice())? {
        Some(schedule) => Ok(ProgramVerdict::Bad(Reason::NotLinearizable, schedule)),
        None => Ok(ProgramVerdict::Unknown),
    }
}

/// What the states of the source say of a program, of which at most so many are kept. The only refusal is that memory
/// ran out.
pub(crate) fn verdict_by_states(
    alloc: Global,
    given: Option<Specification<'_>>,
    image: &Image,
    states: usize,
    sought: Sought,
) -> Result<ProgramVerdict, AllocError>
    ensures { IfOk result (IsVerdictIfAny sought (given_of given.entry) (file_of image.now) (program_of image.now)) }
{
    pending_calls_wait();
    let specification = specification_of(given, image);
    let file = image.checked().file();
    let judged = judge_schedules(alloc, specification, file, image.program(), states)?;
    if is_good(&judged, sought.waiting) {
        return Ok(ProgramVerdict::Good);
    }
    bad_verdict(alloc, image, &judged, sought)
}
