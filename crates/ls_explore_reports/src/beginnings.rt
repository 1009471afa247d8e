// Of each row without a legal order, the beginning of its history with whose last event it ceases to have one.

ghost use Rattle.std.specs.Prelude.{◌≡◌, ◌≤◌, ◌+◌, ◌++◌, ◌∷◌, ℕ, [], All, IfNone, IfOk, IfSome, List, OnOk, length};
ghost use Rattle.std.specs.Prelude.{map, take};
ghost use Rattle.ls_checked.specs.PlainProgram.{plain_program};
ghost use Rattle.ls_verdicts.specs.Hopeless.{IsHopelessRun, IsIllegal};
ghost use Rattle.ls_verdicts.specs.Verdicts.{IsHistoryOf};
ghost use Rattle.ls_explore_reports.specs.Judged.{IsJudged, Judged};
ghost use Rattle.ls_explore_reports.specs.Shortest.{AreBeginnings};

use crate::judging::{JudgedRow, is_illegal};
use ls_checked::program::Program;
use ls_events::event::Event;
use ls_verdicts::hopeless_on;
use std::alloc::{AllocError, Global};

/// The first events of a history.
fn first_events(alloc: Global, history: &[Event], count: usize) -> Result<Vec<Event>, AllocError>
    requires { count ≤ length history.now }
    ensures { IfOk result (λ events. events.items ≡ take count history.now) }
{
    history[..count].iter().copied().collect(alloc)
}

/// The beginning of a history with whose last event it ceases to have a legal order. None where the verdict on it isn't
/// that it has none.
fn beginning_of(
    alloc: Global,
    program: &Program,
    history: &[Event],
) -> Result<Option<Vec<Event>>, AllocError>
    requires { IsHistoryOf (plain_program program.now) history.now }
    ensures some { IfOk result (λ b. IfSome b (λ events. (at : ℕ) ×
        IsHopelessRun (plain_program program.now) history.now at × (events.items ≡ take (at + 1) history.now))) }
    ensures none { IfOk result (λ b. IfNone b (¬ IsIllegal (plain_program program.now) history.now)) }
{
    match hopeless_on(alloc, history, program)? {
        Some(at) => {
            let events = first_events(alloc, history, at + 1)?;
            Ok(Some(events))
        }
        None => Ok(None),
    }
}

/// Adds the beginning of a row, if the row has no legal order.
fn push_beginning(
    alloc: Global,
    program: &Program,
    beginnings: &mut Vec<Vec<Event>>,
    judged: &JudgedRow<'_>,
) -> Result<(), AllocError>
    requires { IsJudged (plain_program program.now) judged.now }
    ensures { OnOk result ((rows : List Judged) →
        AreBeginnings (plain_program program.now) rows (map (λ v. v.items) beginnings.old.items) →
        AreBeginnings (plain_program program.now) (rows ++ judged.now ∷ []) (map (λ v. v.items) beginnings.new.items)) }
{
    if !is_illegal(judged.verdict()) {
        return Ok(());
    }
    if let Some(beginning) = beginning_of(alloc, program, judged.row().history())? {
        beginnings.push(beginning)?;
    }
    Ok(())
}

/// The beginnings of the rows without a legal order.
pub(crate) fn beginnings_of(
    alloc: Global,
    program: &Program,
    judged: &[JudgedRow<'_>],
) -> Result<Vec<Vec<Event>>, AllocError>
    requires { All (IsJudged (plain_program program.now)) judged.now }
    ensures { IfOk result (λ beginnings. AreBeginnings (plain_program program.now) judged.now
        (map (λ v. v.items) beginnings.items)) }
{
    let mut beginnings = Vec::new(alloc);
    for place in 0..judged.len() {
        push_beginning(alloc, program, &mut beginnings, &judged[place])?;
    }
    Ok(beginnings)
}
