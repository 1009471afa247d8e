// What a thread's next step does at a state.

ghost use Rattle.std.specs.Prelude.{◌≡◌, IfOk, [], slice_get};
ghost use Rattle.ls_meaning.specs.Runs.{has_ended};
ghost use Rattle.ls_search_laws.specs.Configuration.{stride};
ghost use Rattle.ls_transitions.specs.Tables.{Grows};
ghost use Rattle.ls_transitions.specs.Seen.{table_of};
ghost use Rattle.ls_search.specs.Places.{IsThere, configuration_of};
ghost use Rattle.ls_search.specs.Strides.{HasStarted, IsStrideBy};

use crate::places::NumberedState;
use ls_transitions::moves::Move;
use ls_transitions::transitions::Transitions;
use std::alloc::{AllocError, Global};

/// The work of a thread.
fn work_at(works: &[usize], thread: usize) -> Option<usize>
    ensures { result ≡ slice_get works.now thread }
{
    if thread >= works.len() {
        return None;
    }
    Some(works[thread])
}

/// Whether the setup has ended without a trap.
pub fn has_setup_ended<'a>(
    alloc: Global,
    transitions: &mut Transitions<'a>,
    place: &NumberedState,
) -> Result<bool, AllocError>
    requires there { IsThere (table_of transitions.old) place.now }
    ensures ended { IfOk result
        (λ b. b ≡ has_ended ((configuration_of (table_of transitions.old) place.now).continues 0 [])) }
    ensures grows { Grows (table_of transitions.old) (table_of transitions.new) }
{
    let Some(work) = work_at(&place.works, 0) else {
        return Ok(true);
    };
    match transitions.next(alloc, 0, place.store, work)? {
        Move::Ended => Ok(true),
        Move::Trapped | Move::Waits | Move::Acts(_) => Ok(false),
    }
}

/// What the next step does of a thread that has started.
pub(crate) fn move_of<'a>(
    alloc: Global,
    transitions: &mut Transitions<'a>,
    place: &NumberedState,
    thread: usize,
) -> Result<Move, AllocError>
    requires there { IsThere (table_of transitions.old) place.now }
    requires started { HasStarted (configuration_of (table_of transitions.old) place.now) thread }
    ensures stride { IfOk result
        (λ m. IsStrideBy (table_of transitions.new) (configuration_of (table_of transitions.old) place.now)
        place.now.works.items thread m
        (stride (table_of transitions.old).file (configuration_of (table_of transitions.old) place.now) thread)) }
    ensures grows { Grows (table_of transitions.old) (table_of transitions.new) }
{
    let Some(work) = work_at(&place.works, thread) else {
        return Ok(Move::Ended);
    };
    transitions.next(alloc, thread, place.store, work)
}
