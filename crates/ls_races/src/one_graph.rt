// What one graph of a program's states tells of threads that turn for ever, and of data races.

ghost use Rattle.std.specs.Prelude.{[], IfOk, IsTrue, length, map};
ghost use Rattle.ls_checked.specs.Plain.{plain_file};
ghost use Rattle.ls_checked.specs.PlainProgram.{plain_program};
ghost use Rattle.ls_graph.specs.Graph.{IsWhole};
ghost use Rattle.ls_race_laws.specs.Meeting.{NeverMeets};
ghost use Rattle.ls_races.specs.Sought.{AreQuiet};
ghost use Rattle.ls_races.specs.Volatile.{volatile_by};
ghost use Rattle.ls_spinning.specs.States.{AreThere};
ghost use Rattle.ls_spinning.specs.Told.{IsTurning};
ghost use Rattle.ls_transitions.specs.Seen.{table_of};

use crate::finding::Scope;
use crate::rounds::go_round;
use crate::space::meet_at;
use ls_graph::closing::is_whole;
use ls_search::space::Kept;
use ls_spinning::mute::Mute;
use ls_spinning::states::{Led, Scope as StatesScope};
use ls_spinning::{Turning, states_of, turning_in};
use ls_transitions::transitions::Transitions;
use std::alloc::{AllocError, Global};

/// What one graph of a program's states tells.
#[derive(Drop)]
pub struct TurningAndRaces {
    pub turning: Turning,
    /// True only where accesses meet after no schedule, of any length.
    pub race_free: bool,
    /// Whether steps that act lead from a state back to it. No clause says so.
    pub goes_round: bool,
}

/// Whether accesses of threads meet at none of these states. True only where none do.
fn are_quiet<'a>(
    scope: Scope<'_>,
    transitions: &mut Transitions<'a>,
    nodes: &[Kept],
) -> Result<bool, AllocError>
    requires there { AreThere (table_of transitions.old) nodes.now }
    ensures { IfOk result (λ b. IsTrue b → AreQuiet (volatile_by (map (λ v. v.items) scope.entry.classes.now))
        (table_of transitions.old) nodes.now) }
{
    let threads = scope.program.threads.len() as u8;
    for node in nodes {
        if node.place.works.len() != threads as usize {
            return Ok(false);
        }
        let place = &node.place;
        if meet_at(scope.alloc, scope.classes, &[], transitions, place, threads)? {
            return Ok(false);
        }
    }
    Ok(true)
}

/// Whether accesses of threads meet at no state of a graph that is whole. True only where that is so.
fn is_quiet<'a>(scope: Scope<'_>, led: &mut Led<'a>) -> Result<bool, AllocError>
    requires { AreThere (table_of led.old.tables.transitions) led.old.closing.graph.found.nodes.items }
    ensures whole { IfOk result (λ b. IsTrue b →
        IsWhole (length led.old.closing.graph.found.nodes.items) led.old.closing.looked.items) }
    ensures quiet { IfOk result (λ b. IsTrue b → AreQuiet (volatile_by (map (λ v. v.items) scope.entry.classes.now))
        (table_of led.old.tables.transitions) led.old.closing.graph.found.nodes.items) }
{
    if !is_whole(&led.closing) {
        return Ok(false);
    }
    let nodes = &led.closing.graph.found.nodes;
    are_quiet(scope, &mut led.tables.transitions, nodes)
}

/// Whether threads of a program can turn for ever, and whether it has no data race, by one graph of its states. Neither
/// is known where more states would be needed than the limit, or where these have over 4,194,304 objects together. The
/// refusals are those of `find_turning`.
pub fn turning_and_races(scope: Scope<'_>) -> Result<TurningAndRaces, AllocError>
    ensures turning { IfOk result (λ r.
        IsTurning (plain_file scope.entry.file.now) (plain_program scope.entry.program.now) r.turning) }
    ensures races { IfOk result (λ r. IsTrue r.race_free →
        NeverMeets (volatile_by (map (λ v. v.items) scope.entry.classes.now)) (plain_file scope.entry.file.now)
        (plain_program scope.entry.program.now)) }
{
    let mute = Mute;
    let states = StatesScope {
        alloc: scope.alloc,
        file: scope.file,
        program: scope.program,
        limit: scope.limit,
    };
    let Some(led) = states_of(&mute, states)? else {
        return Ok(TurningAndRaces {
            turning: Turning::Unknown,
            race_free: false,
            goes_round: true,
        });
    };
    let mut led = led;
    let turning = turning_in(states, &mut led)?;
    let race_free = is_quiet(scope, &mut led)?;
    let graph = &led.closing.graph;
    let goes_round = go_round(scope.alloc, &graph.edges, graph.found.nodes.len())?;
    Ok(TurningAndRaces {
        turning,
        race_free,
        goes_round,
    })
}
