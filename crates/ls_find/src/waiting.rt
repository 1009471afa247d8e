// Whether a thread waits for ever.

ghost use Rattle.std.specs.Prelude.{◌≡◌, ℕ, [], Decides, IfNone, IfOk, IfSome, MatchBool, Some, slice_get, true};
ghost use Rattle.ls_explore.specs.Rows.{IsEnd, NoneEnds, Told};
ghost use Rattle.ls_explore.specs.declared.rows.Ending.TheVariants.{OutOfCells, Over};
ghost use Rattle.ls_explore.specs.Tellings.{TellTruth, TellWhole};
ghost use Rattle.ls_find.specs.Said.{IsWaitingVerdict};
ghost use Rattle.ls_find.specs.Verdicts.{AllExcused, HasUnexcused, WaitsAt};
ghost use Rattle.ls_serial_search.specs.Histories.{lists_of};
ghost use Rattle.ls_specification.specs.Specification.{given_of};
ghost use Rattle.ls_translation.specs.Texts.{file_of, program_of};
ghost use Rattle.ls_endless_calls.specs.Waits.{AreExcused};

use crate::specified::specification_of;
use crate::verdict::{ProgramVerdict, Reason, bad_row};
use ls_endless_calls::first_unexcused;
use ls_endless_calls::laws::runs_decide;
use ls_events::event::Event;
use ls_explore::{Ending, Row};
use ls_image::image::Image;
use ls_serial_search::endless::endless_runs;
use ls_serial_search::telling::Bounds;
use ls_specification::Specification;
use std::alloc::{AllocError, Global};

/// The most steps in which a call is followed that runs alone.
const MOST_STEPS_ALONE: usize = 100_000;

/// The most orders of calls that run one at a time.
const MOST_ORDERS: usize = 10_000;

/// Whether no thread acts any more.
fn is_end(ending: Ending) -> bool
    ensures { Decides result (IsEnd ending) }
{
    match ending {
        Ending::Over | Ending::OutOfCells => true,
        Ending::GoesOn | Ending::NotSeen => false,
    }
}

/// Whether at the end of a row a call is pending that isn't the last of one of the runs.
fn waits_in(runs: &[Vec<Event>], row: &Row) -> bool
    ensures { MatchBool result (HasUnexcused (lists_of runs.now) row.now)
        (IsEnd row.now.ending → AreExcused (lists_of runs.now) row.now.history) }
{
    if !is_end(row.ending()) {
        return false;
    }
    first_unexcused(runs, row.history()).is_some()
}

/// The place of the first row at whose end a call is pending that isn't the last of one of the runs.
fn first_waiting(runs: &[Vec<Event>], rows: &[Row]) -> Option<usize>
    ensures some { IfSome result (WaitsAt (lists_of runs.now) rows.now) }
    ensures none { IfNone result (AllExcused (lists_of runs.now) rows.now) }
{
    for at in 0..rows.len() {
        if waits_in(runs, &rows[at]) {
            return Some(at);
        }
    }
    None
}

/// Whether the row at a place is over.
fn is_over(rows: &[Row], at: usize) -> bool
    ensures { result ≡ true → (r : Told) × (slice_get rows.now at ≡ Some r) × (r.ending ≡ Over) }
{
    match rows.get(at) {
        Some(row) => matches!(row.ending(), Ending::Over),
        None => false,
    }
}

/// Whether no call is pending at the end of a row. True only where none is.
fn is_quiet(alloc: Global, rows: &[Row]) -> bool
    ensures { result ≡ true → AllExcused [] rows.now }
{
    let none = Vec::new(alloc);
    match first_waiting(none.as_slice(), rows) {
        None => true,
        Some(_) => false,
    }
}

/// Whether a thread waits for ever in a program whose rows are whole, as it does in no calls that run one at a time.
pub(crate) fn waiting_verdict(
    alloc: Global,
    given: Option<Specification<'_>>,
    image: &Image,
    setup: usize,
    rows: &[Row],
) -> Result<ProgramVerdict, AllocError>
    requires truth { TellTruth (file_of image.now) (program_of image.now) setup rows.now }
    requires whole { TellWhole (file_of image.now) (program_of image.now) rows.now }
    requires cells { NoneEnds OutOfCells rows.now }
    ensures { IfOk result (λ v. (states : ℕ) →
        IsWaitingVerdict states (given_of given.entry) (file_of image.now) (program_of image.now) v) }
{
    runs_decide();
    if is_quiet(alloc, rows) {
        return Ok(ProgramVerdict::Good);
    }
    let bounds = Bounds {
        steps: MOST_STEPS_ALONE,
        orders: MOST_ORDERS,
    };
    let specification = specification_of(given, image);
    let endless = endless_runs(alloc, specification.file, specification.program, &bounds)?;
    match first_waiting(endless.runs.as_slice(), rows) {
        None => Ok(ProgramVerdict::Good),
        Some(at) => {
            if !endless.complete || !is_over(rows, at) {
                return Ok(ProgramVerdict::Unknown);
            }
            bad_row(alloc, Reason::Waits, setup, rows, at)
        }
    }
}
