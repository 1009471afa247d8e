// The next accesses of threads at a state with numbers.

ghost use Rattle.std.specs.Prelude.{◌≡◌, [], IfOk, map};
ghost use Rattle.ls_meaning.specs.Runs.{has_ended};
ghost use Rattle.ls_meaning.specs.Store.{Store};
ghost use Rattle.ls_search_laws.specs.Configuration.{stride};
ghost use Rattle.ls_source_store.specs.SeenThing.{thing_of};
ghost use Rattle.ls_transitions.specs.Tables.{Grows};
ghost use Rattle.ls_transitions.specs.Seen.{table_of};
ghost use Rattle.ls_search.specs.Places.{IsThere, configuration_of};
ghost use Rattle.ls_race_laws.specs.Meeting.{access_by};
ghost use Rattle.ls_races.specs.Met.{AreNext};
ghost use Rattle.ls_races.specs.Moves.{access_in};
ghost use Rattle.ls_races.specs.Volatile.{volatile_by};

use crate::accesses::access_of;
use ls_race_laws::access::Access;
use ls_search::moving::has_setup_ended;
use ls_search::places::NumberedState;
use ls_search::searching::step_from;
use ls_source_store::thing::Thing;
use ls_transitions::moves::Move;
use ls_transitions::transitions::Transitions;
use std::alloc::{AllocError, Global};

/// The access that a move is at a store with these things.
fn access_in(classes: &[Vec<bool>], things: &[Thing], made: &Move) -> Option<Access>
    ensures { (s : Store) → s.things ≡ map thing_of things.now →
        result ≡ access_in (volatile_by (map (λ v. v.items) classes.now)) s made.now }
{
    match made {
        Move::Acts(step) => access_of(classes, things, &step.action),
        Move::Ended | Move::Trapped | Move::Waits => None,
    }
}

/// The next access of a thread, where it is known whether the setup has ended.
fn next_access<'a>(
    alloc: Global,
    classes: &[Vec<bool>],
    transitions: &mut Transitions<'a>,
    place: &NumberedState,
    thread: usize,
    ended: bool,
) -> Result<Option<Access>, AllocError>
    requires there { IsThere (table_of transitions.old) place.now }
    requires ended { ended ≡ has_ended ((configuration_of (table_of transitions.old) place.now).continues 0 []) }
    ensures next { IfOk result (λ a. a ≡ access_by (volatile_by (map (λ v. v.items) classes.now))
        (configuration_of (table_of transitions.old) place.now).store
        (stride (table_of transitions.old).file (configuration_of (table_of transitions.old) place.now) thread).did) }
    ensures grows { Grows (table_of transitions.old) (table_of transitions.new) }
{
    let made = step_from(alloc, transitions, place, thread, ended)?;
    let things = transitions.store_at(place.store).things.as_slice();
    Ok(access_in(classes, things, &made))
}

/// The next accesses of the first so many threads.
pub fn accesses_at<'a>(
    alloc: Global,
    classes: &[Vec<bool>],
    transitions: &mut Transitions<'a>,
    place: &NumberedState,
    threads: usize,
) -> Result<Vec<Option<Access>>, AllocError>
    requires { IsThere (table_of transitions.old) place.now }
    ensures next { IfOk result (λ v. AreNext (volatile_by (map (λ v. v.items) classes.now))
        (configuration_of (table_of transitions.old) place.now).store
        (λ u. (stride (table_of transitions.old).file (configuration_of (table_of transitions.old) place.now) u).did)
        threads v.items) }
    ensures grows { Grows (table_of transitions.old) (table_of transitions.new) }
{
    let mut accesses = Vec::new(alloc);
    let ended = has_setup_ended(alloc, transitions, place)?;
    for thread in 0..threads {
        let access = next_access(alloc, classes, transitions, place, thread, ended)?;
        accesses.push(access)?;
    }
    Ok(accesses)
}
