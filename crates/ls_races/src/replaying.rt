// Accesses that meet where a run leads to.

ghost use Rattle.std.specs.Prelude.{◌≡◌, ◌++◌, ◌∷◌, [], IfOk, IfSome, map};
ghost use Rattle.ls_checked.specs.Plain.{plain_file};
ghost use Rattle.ls_checked.specs.PlainProgram.{plain_program};
ghost use Rattle.ls_transitions.specs.Seen.{table_of};
ghost use Rattle.ls_search.specs.Places.{AreThere};
ghost use Rattle.ls_races.specs.Met.{swapped};
ghost use Rattle.ls_races.specs.Sought.{IsMetAfter, IsNumberedAt, IsPlayed};
ghost use Rattle.ls_races.specs.Volatile.{volatile_by};

use crate::finding::Scope;
use crate::meetings::{Met, meeting_in};
use crate::nodes::accesses_at;
use crate::playing::{Played, play_one};
use ls_race_laws::access::Kind;
use ls_search::numbering::{Numbered, number};
use ls_search::places::NumberedState;
use std::alloc::{AllocError, Global};

/// The numbers of the state after a run.
pub fn numbered_of<'a>(alloc: Global, played: &Played<'a>) -> Result<Numbered<'a>, AllocError>
    ensures there { IfOk result (λ n. AreThere (table_of n.transitions) n.store n.works.items) }
    ensures at { IfOk result (λ n. (file : _) (program : _) → IsPlayed file program played.now →
        IsNumberedAt file program played.now.steps.items n) }
{
    let numbered = number(alloc, &played.playing)?;
    Ok(numbered)
}

/// The two threads the other way round.
fn swapped(met: Met) -> Met
    ensures { result ≡ swapped met }
{
    Met {
        one: met.other,
        other: met.one,
        on: met.on,
    }
}

/// The thread of the last step.
fn last_of(steps: &[u8]) -> usize {
    match steps {
        [] => 0,
        [.., last] => *last as usize,
    }
}

/// Two threads whose accesses meet after a run, on a variable of a kind that wasn't told. If one of them made the last
/// step, it comes first.
pub fn met_after(
    scope: Scope<'_>,
    told: &[Kind],
    played: &Played<'_>,
) -> Result<Option<Met>, AllocError>
    ensures { IfOk result (λ o. IfSome o (λ m.
        IsPlayed (plain_file scope.entry.file.now) (plain_program scope.entry.program.now) played.now →
        IsMetAfter (volatile_by (map (λ v. v.items) scope.entry.classes.now)) told.now (plain_file scope.entry.file.now)
        (plain_program scope.entry.program.now) played.now.steps.items m)) }
{
    let Numbered {
        transitions,
        store,
        works,
    } = numbered_of(scope.alloc, played)?;
    let mut transitions = transitions;
    let place = NumberedState {
        store,
        works,
        noted: 0,
    };
    let threads = scope.program.threads.len();
    let accesses = accesses_at(
        scope.alloc,
        scope.classes,
        &mut transitions,
        &place,
        threads,
    )?;
    match meeting_in(&accesses, told) {
        None => Ok(None),
        Some(met) => {
            if met.other == last_of(&played.steps) {
                return Ok(Some(swapped(met)));
            }
            Ok(Some(met))
        }
    }
}

/// The number of a thread as a step.
fn step_of(thread: usize) -> Option<u8>
    ensures { IfSome result (λ n. n ≡ thread) }
{
    if thread > 255 {
        return None;
    }
    Some(thread as u8)
}

/// The run with a step of each of two threads after it, if both act.
pub fn play_both<'a>(
    alloc: Global,
    played: Played<'a>,
    met: Met,
) -> Result<Option<Played<'a>>, AllocError>
    ensures played { IfOk result (λ o. IfSome o (λ after. (file : _) (program : _) →
        IsPlayed file program played.entry → IsPlayed file program after)) }
    ensures steps { IfOk result (λ o. IfSome o (λ after.
        after.steps.items ≡ played.entry.steps.items ++ met.one ∷ met.other ∷ [])) }
{
    let Some(one) = step_of(met.one) else {
        return Ok(None);
    };
    let Some(other) = step_of(met.other) else {
        return Ok(None);
    };
    let Some(between) = play_one(alloc, played, one)? else {
        return Ok(None);
    };
    play_one(alloc, between, other)
}
