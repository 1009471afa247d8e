// States from which no event may come, and whose pending calls may end.

ghost use Rattle.std.specs.Prelude.{◌≡◌, ◌<◌, ◌≤◌, IfNone, IfOk, IfSome, IsTrue, OnOk, Some, false, length};
ghost use Rattle.std.specs.Prelude.{slice_get, true};
ghost use Rattle.ls_checked.specs.CheckedTree.{File as FileValue};
ghost use Rattle.ls_checked.specs.CheckedProgram.{Program as ProgramValue};
ghost use Rattle.ls_checked.specs.Plain.{plain_file};
ghost use Rattle.ls_checked.specs.PlainProgram.{plain_program};
ghost use Rattle.ls_search.specs.declared.places.Node.{Node as NodeValue};
ghost use Rattle.ls_search.specs.declared.places.Seen.{Seen as SeenValue};
ghost use Rattle.ls_serial_search.specs.Endless.{AreEndlessRuns};
ghost use Rattle.ls_serial_search.specs.Histories.{lists_of};
ghost use Rattle.ls_transitions.specs.Seen.{table_of};
ghost use Rattle.ls_transitions.specs.Tables.{Grows};
ghost use Rattle.ls_endless_calls.specs.Breaking.{AreFine, AreThere, IsFine};
ghost use Rattle.ls_endless_calls.specs.Turning.{NoneTurnsUnexcused};
ghost use Rattle.ls_endless_calls.specs.declared.listing.Left.TheVariants.{Nothing};

use crate::breaking::comes_to_break;
use crate::excusing::excused_of;
use crate::laws::runs_decide;
use ls_checked::program::Program;
use ls_checked::tree::File;
use ls_events::event::Event;
use ls_search::listing::Listing;
use ls_search::nameless::Nameless;
use ls_search::places::{Node, Seen};
use ls_search::run_listing::{Reach, RunListing, list_run};
use ls_search::searching::Search;
use ls_search::steps::steps_to;
use ls_search::watching::Nobody;
use ls_source_rows::observing::Histories;
use ls_transitions::transitions::Transitions;
use std::alloc::{AllocError, Global};

/// The most steps of the setup before the search begins.
const MOST_OF_SETUP: usize = 100_000;

/// What is left after a search through all states.
#[derive(Drop)]
pub(crate) enum Left {
    /// Steps come from each state to an event or to rest, or its pending calls are excused, or no thread acts.
    Nothing,
    /// These steps lead to a state that may be another.
    Steps(Vec<u8>),
    /// There would be too many states.
    Cut,
}

/// States, with what was seen at each, and which histories are excused.
#[derive(Drop)]
struct States<'a> {
    nodes: &'a [Node],
    seen: &'a [Seen],
    excused: &'a [bool],
    threads: u8,
}

/// Whether a history is marked as excused.
fn is_excused(excused: &[bool], noted: usize) -> bool
    ensures { result ≡ true → slice_get excused.now noted ≡ Some true }
{
    match excused.get(noted) {
        None => false,
        Some(flag) => *flag,
    }
}

/// Whether a thread was seen to act at the state at a place. False only where none was.
fn acts_at(seen: &[Seen], at: usize) -> bool
    ensures { result ≡ false → (s : SeenValue) × (slice_get seen.now at ≡ Some s) × (s.acts ≡ false) }
{
    match seen.get(at) {
        None => true,
        Some(one) => one.acts,
    }
}

/// Whether no thread acts at the state at a place, or its history is excused, or steps come from it to an event or to
/// rest. True only where it is so.
fn is_fine<'a>(
    alloc: Global,
    transitions: &mut Transitions<'a>,
    states: &States<'_>,
    at: usize,
) -> Result<bool, AllocError>
    requires at { at < length states.now.nodes.now }
    requires there { AreThere (table_of transitions.old) states.now.nodes.now states.now.threads }
    ensures fine { IfOk result (λ b. IsTrue b → (n : NodeValue) → slice_get states.now.nodes.now at ≡ Some n →
        IsFine (table_of transitions.old).file states.now.threads (table_of transitions.old)
        states.now.excused.now states.now.seen.now at n) }
    ensures grows { OnOk result (Grows (table_of transitions.old) (table_of transitions.new)) }
{
    let node = &states.nodes[at];
    if !acts_at(states.seen, at) || is_excused(states.excused, node.place.noted) {
        return Ok(true);
    }
    comes_to_break(alloc, transitions, &node.place, states.threads)
}

/// The first state at which a thread acts, whose history isn't excused, and from which no steps that were tried come
/// to an event or to rest.
fn first_left<'a>(
    alloc: Global,
    transitions: &mut Transitions<'a>,
    states: &States<'_>,
) -> Result<Option<usize>, AllocError>
    requires there { AreThere (table_of transitions.old) states.now.nodes.now states.now.threads }
    ensures none { IfOk result (λ found. IfNone found
        (AreFine (table_of transitions.old).file states.now.threads (table_of transitions.old) states.now.excused.now
        states.now.seen.now states.now.nodes.now (length states.now.nodes.now))) }
    ensures within { IfOk result (λ found. IfSome found (λ at. at < length states.now.nodes.now)) }
{
    for at in 0..states.nodes.len() {
        if !is_fine(alloc, transitions, states, at)? {
            return Ok(Some(at));
        }
    }
    Ok(None)
}

/// So many steps of the setup, and then those that lead to the state at a place.
fn steps_with_setup(
    alloc: Global,
    setup: usize,
    nodes: &[Node],
    at: usize,
) -> Result<Vec<u8>, AllocError>
    requires { at < length nodes.now }
{
    let path = steps_to(alloc, nodes, at)?;
    let mut steps = vec![in alloc; 0; setup]?;
    steps.extend_from_slice(&path)?;
    Ok(steps)
}

/// Looks through all states of a program for one at which a thread acts, some of whose pending calls isn't the last of
/// one of the runs, and from which no steps that were tried come to an event or to rest. At most so many states are
/// kept. A refusal is that memory ran out, that a store, a work or a state has no number left, that a call answers an
/// object, or that a constant of the file names one: a program that was read has neither.
pub(crate) fn left_over(
    alloc: Global,
    file: &File,
    program: &Program,
    runs: &[Vec<Event>],
    limit: usize,
) -> Result<Left, AllocError>
    requires room { 1 ≤ limit }
    ensures { IfOk result (λ left. left ≡ Nothing → (sfile : FileValue) (sprogram : ProgramValue) →
        AreEndlessRuns sfile sprogram (lists_of runs.now) →
        NoneTurnsUnexcused sfile sprogram (plain_file file.now) (plain_program program.now)) }
{
    runs_decide();
    let histories = Histories;
    let observer = Nameless {
        observer: &histories,
    };
    let reach = Reach {
        steps: MOST_OF_SETUP,
        states: limit,
    };
    let RunListing { setup, listing } = list_run(
        alloc,
        &observer,
        file,
        program,
        reach,
        &mut Nobody,
    )?;
    let Listing { search, complete } = listing;
    if !complete {
        return Ok(Left::Cut);
    }
    let Search {
        mut transitions,
        renumbering: _,
        pool,
        found,
        seen,
    } = search;
    let excused = excused_of(alloc, runs, &pool.values)?;
    let states = States {
        nodes: &found.nodes,
        seen: &seen,
        excused: &excused,
        threads: program.threads.len() as u8,
    };
    match first_left(alloc, &mut transitions, &states)? {
        None => Ok(Left::Nothing),
        Some(at) => Ok(Left::Steps(steps_with_setup(alloc, setup, &found.nodes, at)?)),
    }
}
