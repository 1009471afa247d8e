// Why a schedule is shown.

ghost use Rattle.std.specs.Prelude.{◌≡◌, IfOk, string_bytes};
ghost use Rattle.ls_find.specs.Found.{reason_text, why_text};
ghost use Rattle.ls_labels.specs.Names.{names_of};
ghost use Rattle.ls_schedule.specs.Reading.{thread_names};

use crate::verdict::Reason;
use ls_events::schedule::Schedule;
use ls_explore_reports::waiting_after;
use ls_fewest_switches::{SimpleRun, push_switches};
use ls_labels::names::Names;
use std::alloc::{AllocError, Global};

/// Why a schedule is shown. Of threads that wait it is said for what they do.
fn reason_text(
    alloc: Global,
    reason: Reason,
    names: Names<'_>,
    schedule: &Schedule,
) -> Result<String, AllocError>
    ensures { IfOk result (λ text. string_bytes text ≡
        reason_text reason (names_of names.entry) (thread_names names.entry.program.now) schedule.now) }
{
    match reason {
        Reason::NotLinearizable => String::from_str(alloc, "not linearizable"),
        Reason::Waits => {
            let waiting = waiting_after(alloc, names, schedule)?;
            let mut text = String::from_str(alloc, "threads wait for ever: ")?;
            text.push_str(waiting.as_str())?;
            Ok(text)
        }
        Reason::Illegal => String::from_str(alloc, "no order of the set calls is legal"),
        Reason::Turns => String::from_str(alloc, "threads turn for ever"),
    }
}

/// Why a run is shown, and how many context switches it has, if none with its history has fewer.
pub(crate) fn why_text(
    alloc: Global,
    reason: Reason,
    names: Names<'_>,
    run: &SimpleRun,
) -> Result<String, AllocError>
    ensures { IfOk result (λ text. string_bytes text ≡ why_text reason run.now.fewest
        (names_of names.entry) (thread_names names.entry.program.now) run.now.schedule) }
{
    let mut text = reason_text(alloc, reason, names, &run.schedule)?;
    push_switches(&mut text, run)?;
    Ok(text)
}
