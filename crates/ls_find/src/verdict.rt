// What an exploration says of a program.

ghost use Rattle.std.specs.Prelude.{◌≡◌, ◌≢◌, ◌<◌, ℕ, IfNone, IfOk, IfSome, None, length, not, position};
ghost use Rattle.ls_explore.specs.Tellings.{TellTruth, TellWhole, schedule_of};
ghost use Rattle.ls_events.specs.Limits.{most_steps};
ghost use Rattle.ls_explore.specs.Rows.{NoneEnds};
ghost use Rattle.ls_explore.specs.declared.rows.Ending.TheVariants.{OutOfCells};
ghost use Rattle.ls_explore.specs.declared.fault.ExploreFault.TheVariants.{Memory};
ghost use Rattle.ls_find.specs.Said.{IsVerdict};
ghost use Rattle.ls_find.specs.declared.verdict.ProgramVerdict.TheVariants.{Unknown};
ghost use Rattle.ls_find.specs.Verdicts.{ShowsRow};
ghost use Rattle.ls_specification.specs.Specification.{given_of};
ghost use Rattle.ls_translation.specs.Texts.{file_of, program_of};

use crate::likeness::like_verdict;
use crate::sought::Sought;
use crate::states::verdict_by_states;
use crate::waiting::waiting_verdict;
use ls_events::schedule::{MOST_STEPS, Schedule};
use ls_explore::{ExploreFault, Nobody, Row, explore_source};
use ls_explore_reports::decided::none_is_unexplained;
use ls_explore_reports::explained_rows;
use ls_image::image::Image;
use ls_specification::Specification;
use std::alloc::{AllocError, Global};

/// Why a schedule is bad.
#[derive(Copy)]
pub enum Reason {
    /// Its history isn't linearizable.
    NotLinearizable,
    /// After it a thread waits for ever in a call that ends where calls run one at a time.
    Waits,
    /// Its history is one of a set, and no order of it is legal.
    Illegal,
    /// After it threads turn for ever in such a call.
    Turns,
}

impl Clone for Reason {
    fn clone(&self) -> Result<Reason, AllocError> {
        Ok(*self)
    }
}

/// What an exploration says of a program.
#[derive(Drop)]
pub enum ProgramVerdict {
    /// The history of each schedule is linearizable; no thread waits or turns for ever, and each history is legal, if
    /// that was looked for.
    Good,
    /// The exploration isn't whole, or the schedule is too long to be shown. Or it isn't known whether a thread that
    /// waits or turns does so in a call that ends where calls run one at a time. Or a history can't be judged as one
    /// of a set.
    Unknown,
    /// This schedule is bad for a reason.
    Bad(Reason, Schedule),
}

/// The place of the first row that isn't explained.
fn first_unexplained(flags: &[bool]) -> Option<usize>
    ensures { result ≡ position not flags.now }
{
    flags.iter().position(|flag| !*flag)
}

/// The schedule of a row: so many steps of the setup, and then one of each thread of its path. None if these are too
/// many for a schedule.
fn schedule_of(alloc: Global, setup: usize, row: &Row) -> Result<Option<Schedule>, AllocError>
    ensures some { IfOk result (λ some. IfSome some (λ schedule. schedule ≡ schedule_of setup row.now)) }
    ensures none { IfOk result (λ some. IfNone some (most_steps < length (schedule_of setup row.now))) }
{
    if setup > MOST_STEPS || row.path().len() > MOST_STEPS - setup {
        return Ok(None);
    }
    let mut steps = vec![in alloc; 0; setup]?;
    steps.extend_from_slice(row.path())?;
    Ok(Some(Schedule::of(steps)))
}

/// That the row at a place is bad for a reason, with its schedule. Unknown if there is no such row, or it is too long.
pub(crate) fn bad_row(
    alloc: Global,
    reason: Reason,
    setup: usize,
    rows: &[Row],
    at: usize,
) -> Result<ProgramVerdict, AllocError>
    ensures { IfOk result (ShowsRow reason setup rows.now at) }
{
    let Some(row) = rows.get(at) else {
        return Ok(ProgramVerdict::Unknown);
    };
    match schedule_of(alloc, setup, row)? {
        Some(schedule) => Ok(ProgramVerdict::Bad(reason, schedule)),
        None => Ok(ProgramVerdict::Unknown),
    }
}

/// What a whole exploration says of a program whose own calls specify it: its rows have their serial histories. The
/// setup has so many steps.
fn own_verdict(
    alloc: Global,
    image: &Image,
    setup: usize,
    rows: &[Row],
    sought: Sought,
) -> Result<ProgramVerdict, AllocError>
    requires truth { TellTruth (file_of image.now) (program_of image.now) setup rows.now }
    requires whole { TellWhole (file_of image.now) (program_of image.now) rows.now }
    requires cells { NoneEnds OutOfCells rows.now }
    ensures { IfOk result (λ v. (states : ℕ) →
        IsVerdict states sought None (file_of image.now) (program_of image.now) v) }
{
    none_is_unexplained();
    let flags = explained_rows(alloc, rows)?;
    match first_unexplained(flags.as_slice()) {
        None => {
            if sought.waiting {
                return waiting_verdict(alloc, None, image, setup, rows);
            }
            Ok(ProgramVerdict::Good)
        }
        Some(at) => bad_row(alloc, Reason::NotLinearizable, setup, rows, at),
    }
}

/// What a whole exploration says, of a setup of so many steps.
fn whole_verdict(
    alloc: Global,
    given: Option<Specification<'_>>,
    image: &Image,
    setup: usize,
    rows: &[Row],
    sought: Sought,
) -> Result<ProgramVerdict, AllocError>
    requires truth { TellTruth (file_of image.now) (program_of image.now) setup rows.now }
    requires whole { TellWhole (file_of image.now) (program_of image.now) rows.now }
    requires cells { NoneEnds OutOfCells rows.now }
    ensures { IfOk result (λ v. (states : ℕ) →
        IsVerdict states sought (given_of given.entry) (file_of image.now) (program_of image.now) v) }
{
    match given {
        Some(specification) => like_verdict(alloc, specification, image, setup, rows, sought),
        None => own_verdict(alloc, image, setup, rows, sought),
    }
}

/// That nothing is said, since an exploration is refused, but for want of memory.
pub(crate) fn unknown_by(fault: ExploreFault) -> Result<ProgramVerdict, AllocError>
    ensures { IfOk result (λ v. (v ≡ Unknown) × (fault ≢ Memory)) }
{
    match fault {
        ExploreFault::Memory => Err(AllocError),
        _ => Ok(ProgramVerdict::Unknown),
    }
}

/// Explores the program of an image by the histories of its source, and keeps at most so many states.
fn explored_verdict(
    alloc: Global,
    given: Option<Specification<'_>>,
    image: &Image,
    states: usize,
    sought: Sought,
) -> Result<ProgramVerdict, AllocError>
    ensures { IfOk result (IsVerdict states sought (given_of given.entry) (file_of image.now) (program_of image.now)) }
{
    match explore_source(alloc, image, states, &mut Nobody) {
        Ok(found) => {
            if !found.complete {
                return Ok(ProgramVerdict::Unknown);
            }
            whole_verdict(
                alloc,
                given,
                image,
                found.setup,
                found.rows.as_slice(),
                sought,
            )
        }
        Err(fault) => unknown_by(fault),
    }
}

/// Says of the program of an image whether the history of each schedule is linearizable, to a specification if one is
/// given; and if that is asked for, whether no thread waits for ever. If not, it shows a schedule, each of whose steps
/// acts. The states of the source are searched first. If they don't say that all is well, they are kept once more,
/// each with its history. Of each at most so many states are kept. Unknown comes if neither decides: if more states
/// are needed, or the setup is too long. It also comes if a thread waits for ever, and it isn't known of too many
/// calls whether they end where calls run one at a time. With a specification it comes if not all of its serial
/// histories are known, and none that is explains one of the program.
///
/// The only refusal is that memory ran out.
pub fn verdict_on(
    alloc: Global,
    given: Option<Specification<'_>>,
    image: &Image,
    states: usize,
    sought: Sought,
) -> Result<ProgramVerdict, AllocError>
    ensures { IfOk result (IsVerdict states sought (given_of given.entry) (file_of image.now) (program_of image.now)) }
{
    let searched = verdict_by_states(alloc, given, image, states, sought)?;
    if let ProgramVerdict::Good = searched {
        return Ok(searched);
    }
    match explored_verdict(alloc, given, image, states, sought)? {
        ProgramVerdict::Unknown => Ok(searched),
        ProgramVerdict::Good => Ok(ProgramVerdict::Good),
        ProgramVerdict::Bad(reason, schedule) => Ok(ProgramVerdict::Bad(reason, schedule)),
    }
}
