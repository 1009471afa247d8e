// Steps that are taken at once.

ghost use Rattle.std.specs.Prelude.{◌≡◌, ◌<◌, ◌≤◌, IfOk, IfSome, IsTrue, OnOk, length, replicate, slice_set};
ghost use Rattle.ls_search_laws.specs.Search.{LeadsTo};
ghost use Rattle.ls_transitions.specs.declared.moves.Move.TheVariants.{Acts};
ghost use Rattle.ls_transitions.specs.Tables.{Grows};
ghost use Rattle.ls_transitions.specs.Seen.{table_of};
ghost use Rattle.ls_search.specs.Places.{IsThere, configuration_of};
ghost use Rattle.ls_search.specs.Strides.{HasStarted, IsAtOnce, at_once};

use crate::moving::move_of;
use crate::places::NumberedState;
use ls_events::action::Action;
use ls_events::value::Value;
use ls_transitions::moves::{Move, Step};
use ls_transitions::transitions::Transitions;
use std::alloc::{AllocError, Global};

/// Whether an action is taken at once.
fn is_at_once(action: &Action<Value>) -> bool
    ensures { IsTrue result → IsAtOnce action.now }
{
    matches!(action, Action::Turn | Action::Enter(_))
}

/// The step of a move that is taken at once.
fn step_at_once(made: Move) -> Option<Step>
    ensures { IfSome result (λ s. (made ≡ Acts s) × IsAtOnce s.action) }
{
    match made {
        Move::Acts(step) => {
            if is_at_once(&step.action) {
                return Some(step);
            }
            None
        }
        Move::Ended | Move::Trapped | Move::Waits => None,
    }
}

/// Goes to the state after a step of a thread.
pub fn take(place: &mut NumberedState, thread: usize, step: &Step)
    requires { thread < length place.old.works.items }
    ensures store { place.new.store ≡ step.now.store }
    ensures works { place.new.works.items ≡ slice_set place.old.works.items thread step.now.work }
    ensures noted { place.new.noted ≡ place.old.noted }
{
    place.store = step.store;
    place.works[thread] = step.work;
}

/// Takes the steps of a thread that are taken at once, one after another, at most so many. Answers how many. The setup
/// takes none.
pub fn settle<'a>(
    alloc: Global,
    transitions: &mut Transitions<'a>,
    place: &mut NumberedState,
    thread: u8,
    most: usize,
) -> Result<usize, AllocError>
    requires there { IsThere (table_of transitions.old) place.old }
    requires within { thread < length place.old.works.items }
    requires started { HasStarted (configuration_of (table_of transitions.old) place.old) thread }
    ensures leads { IfOk result
        (λ n. LeadsTo at_once (table_of transitions.old).file (configuration_of (table_of transitions.old) place.old)
        (replicate n thread) (configuration_of (table_of transitions.new) place.new)) }
    ensures few { IfOk result (λ n. n ≤ most) }
    ensures there { OnOk result (IsThere (table_of transitions.new) place.new) }
    ensures width { length place.new.works.items ≡ length place.old.works.items }
    ensures noted { place.new.noted ≡ place.old.noted }
    ensures grows { Grows (table_of transitions.old) (table_of transitions.new) }
{
    if thread == 0 {
        return Ok(0);
    }
    for count in 0..most {
        let made = move_of(alloc, transitions, place, thread as usize)?;
        let Some(step) = step_at_once(made) else {
            return Ok(count);
        };
        take(place, thread as usize, &step);
    }
    Ok(most)
}
