// A shortest schedule whose history has no legal order.

ghost use Rattle.std.specs.Prelude.{◌≡◌, ◌&&◌, ◌++◌, ◌∷◌, ℕ, [], All, IfOk, false, true};
ghost use Rattle.ls_checked.specs.Plain.{plain_file};
ghost use Rattle.ls_checked.specs.PlainProgram.{plain_program};
ghost use Rattle.ls_labels.specs.Names.{names_of};
ghost use Rattle.ls_source.specs.Shown.{progress_of};
ghost use Rattle.ls_explore.specs.Rows.{ActAll};
ghost use Rattle.ls_explore.specs.Tellings.{TellWhole};
ghost use Rattle.ls_explore_reports.specs.Judged.{IsJudged, are_decided, rows_of};
ghost use Rattle.ls_explore_reports.specs.Shortest.{ActsNext, IsCutOf, IsCutOrShorter, IsKnown};

use crate::beginnings::beginnings_of;
use crate::judging::{JudgedRow, are_decided};
use crate::printing::Exploring;
use ls_checked::program::Program;
use ls_checked::tree::File;
use ls_events::schedule::Schedule;
use ls_fewest_switches::{ShortRun, run_along, shortest_among};
use ls_labels::names::Names;
use ls_meaning::step::has_acted;
use ls_source::run::SourceRun;
use std::alloc::{AllocError, Global};

/// Whether one of so many threads acts after a run. True only where one does.
fn some_acts(alloc: Global, run: &mut SourceRun<'_>, threads: usize) -> Result<bool, AllocError>
    ensures { IfOk result (λ b. b ≡ true → ActsNext (progress_of run.old)) }
{
    for thread in 0..threads {
        let did = run.step(alloc, thread)?;
        if has_acted(did) {
            return Ok(true);
        }
    }
    Ok(false)
}

/// Whether each of these steps acts, and a thread after them. True only where it is so.
fn goes_on(alloc: Global, file: &File, program: &Program, steps: &[u8]) -> Result<bool, AllocError>
    ensures { IfOk result (λ b. b ≡ true → (t : ℕ) ×
        ActAll (plain_file file.now) (plain_program program.now) (steps.now ++ t ∷ [])) }
{
    let Some(run) = run_along(alloc, file, program, steps)? else {
        return Ok(false);
    };
    let mut run = run;
    some_acts(alloc, &mut run, program.threads.len())
}

/// Whether a shortest schedule with one of the beginnings is known to be a shortest one without a legal order.
fn is_known(shortest: bool, whole: bool, judged: &[JudgedRow<'_>]) -> bool
    ensures { result ≡ (shortest && (whole && are_decided judged.now)) }
{
    shortest && whole && are_decided(judged)
}

/// The steps with which a row's history ceases to have a legal order; or a schedule of fewer steps, where the rows are
/// not those of a machine, whose history has none either and after which a thread acts. Also whether it is known that
/// no schedule of the program whose history has none is shorter. At most so many states are kept as may be explored.
pub(crate) fn shortest_illegal(
    alloc: Global,
    names: Names<'_>,
    judged: &[JudgedRow<'_>],
    exploring: Exploring,
    whole: bool,
    cut: Schedule,
) -> Result<ShortRun, AllocError>
    requires verdicts { All (IsJudged (plain_program names.program.now)) judged.now }
    requires whole { whole ≡ true → TellWhole (plain_file names.file.now) (plain_program names.program.now)
        (rows_of judged.now) }
    requires cut { IsCutOf (plain_file names.file.now) (plain_program names.program.now) judged.now cut }
    ensures schedule { IfOk result (λ r. IsCutOrShorter (names_of names.entry) exploring cut r.schedule) }
    ensures known { IfOk result (λ r. IsKnown r.shortest (names_of names.entry) exploring r.schedule) }
{
    if exploring.cells.is_some() {
        return Ok(ShortRun {
            schedule: cut,
            shortest: false,
        });
    }
    let beginnings = beginnings_of(alloc, names.program, judged)?;
    let histories = beginnings.as_slice();
    let limit = exploring.states;
    let ShortRun { schedule, shortest } = shortest_among(
        alloc,
        names.file,
        names.program,
        histories,
        limit,
        &cut,
    )?;
    let known = is_known(shortest, whole, judged);
    if schedule.len() >= cut.len() {
        return Ok(ShortRun {
            schedule: cut,
            shortest: known,
        });
    }
    if !goes_on(alloc, names.file, names.program, schedule.steps())? {
        return Ok(ShortRun {
            schedule: cut,
            shortest: false,
        });
    }
    Ok(ShortRun {
        schedule,
        shortest: known,
    })
}
