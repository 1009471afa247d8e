// The data races of a program.

ghost use Rattle.std.specs.Prelude.{◌≡◌, ◌⊎◌, ◌≤◌, [], IfNone, IfOk, IfSome, IsTrue, length, map};
ghost use Rattle.ls_checked.specs.Plain.{plain_file};
ghost use Rattle.ls_checked.specs.PlainProgram.{plain_program};
ghost use Rattle.ls_graph.specs.Costs.{costs};
ghost use Rattle.ls_graph.specs.Graph.{IsWhole};
ghost use Rattle.ls_graph.specs.Walks.{IsLeast};
ghost use Rattle.ls_graph.specs.declared.closing.Halt.TheVariants.{Full};
ghost use Rattle.ls_graph.specs.declared.costs.Counted.TheVariants.{Changes};
ghost use Rattle.ls_race_laws.specs.Meeting.{NeverMeets};
ghost use Rattle.ls_races.specs.Extents.{IsRaceExtent, MeetsLate};
ghost use Rattle.ls_races.specs.Races.{AllAreOn, AreRaces, IsRaceBy, kinds_of};
ghost use Rattle.ls_races.specs.Sought.{IsPlayed, IsRaceClosing, IsSight, IsSightBy};
ghost use Rattle.ls_races.specs.Volatile.{volatile_by};
ghost use Rattle.ls_search.specs.Objects.{most_objects};
ghost use Rattle.ls_search.specs.Verdicts.{AreReached};

use crate::playing::{Played, play_along, played_none};
use crate::replaying::{met_after, numbered_of, play_both};
use crate::space::RaceSpace;
use ls_checked::program::Program;
use ls_checked::tree::File;
use ls_events::schedule::{MOST_STEPS, Schedule};
use ls_graph::closing::{Closing, Halt, Plan, close, is_whole};
use ls_graph::costs::{Counted, costs};
use ls_graph::least::is_least;
use ls_graph::nodes::Bounds;
use ls_graph::walks::edges_to_last;
use ls_race_laws::access::Kind;
use ls_search::numbering::Numbered;
use ls_search::objects::MOST_OBJECTS;
use ls_search::roots::Root;
use ls_search::searching::Ground;
use ls_search::space::{Beginning, Kept, StateSpace, Wanted, begin};
use ls_spinning::mute::Mute;
use std::alloc::{AllocError, Global};

/// Of what races are looked for, and how far.
#[derive(Copy)]
pub struct Scope<'a> {
    pub alloc: Global,
    pub file: &'a File,
    pub program: &'a Program,
    /// For each class whether its fields are declared volatile.
    pub classes: &'a [Vec<bool>],
    /// The most states. They have 4,194,304 objects together at most, but for the last of them.
    pub limit: usize,
}

impl<'a> Clone for Scope<'a> {
    fn clone(&self) -> Result<Scope<'a>, AllocError> {
        Ok(*self)
    }
}

/// A run with a data race: its last two steps are the accesses.
#[derive(Drop)]
pub struct Race {
    pub schedule: Schedule,
    /// Whether it is known that the steps before the accesses have the fewest context switches.
    pub fewest: bool,
    /// Of which kind the variable is.
    pub on: Kind,
}

/// What a search for a race tells.
#[derive(Drop)]
pub enum Sight {
    /// There is none on a variable of a kind that wasn't told.
    Free,
    Met(Race),
    /// It isn't known: there would be too many states, or the run to the accesses has more steps than a schedule may
    /// have.
    Cut,
}

/// What was found of a program's races: one for each kind of variable.
#[derive(Drop)]
pub struct Races {
    pub races: Vec<Race>,
    /// How many states the last search kept.
    pub states: usize,
    /// Whether no variable of another kind has a race.
    pub complete: bool,
}

/// The most steps that are taken at once.
const MOST_AT_ONCE: usize = 4096;

/// How far the graph is found, and in which order.
fn plan_of(scope: Scope<'_>, counted: Counted) -> Plan
    ensures actors { result.actors ≡ length scope.entry.program.now.threads.items }
    ensures limit { result.bounds.limit ≡ scope.entry.limit }
    ensures weight { result.bounds.weight ≡ most_objects }
{
    Plan {
        alloc: scope.alloc,
        actors: scope.program.threads.len() as u8,
        bounds: Bounds {
            limit: scope.limit,
            weight: MOST_OBJECTS,
        },
        counted,
        far: usize::MAX,
    }
}

/// The graph of a program's states, until one is next where accesses meet on a variable of a kind that wasn't told.
fn closed<'x>(
    mute: &'x Mute,
    scope: Scope<'x>,
    told: &'x [Kind],
    counted: Counted,
) -> Result<Closing<Kept>, AllocError>
    ensures { IfOk result (IsRaceClosing (volatile_by (map (λ v. v.items) scope.entry.classes.now)) told.now
        (plain_file scope.entry.file.now) (plain_program scope.entry.program.now) scope.entry.limit) }
{
    let plan = plan_of(scope, counted);
    let start = played_none(scope.alloc, scope.file, scope.program)?;
    let numbered = numbered_of(scope.alloc, &start)?;
    let ground = Ground {
        alloc: plan.alloc,
        observer: mute,
        file: scope.file,
        program: scope.program,
        threads: plan.actors,
        limit: scope.limit,
        most: MOST_AT_ONCE,
    };
    let Numbered {
        transitions,
        store,
        works,
    } = numbered;
    let root = Root {
        store,
        works,
        noted: true,
    };
    let beginning = begin(&ground, transitions, root)?;
    let Beginning { tables, root } = beginning;
    let mut tables = tables;
    let states = StateSpace {
        ground: &ground,
        lost: None,
        wanted: Wanted::Nothing,
    };
    let space = RaceSpace {
        states,
        classes: scope.classes,
        told,
    };
    let closing = close(&space, plan, &mut tables, root)?;
    Ok(closing)
}

/// The race after a run, at which accesses meet on a variable of a kind that wasn't told. Answers nothing where a
/// schedule has no room for them. It is told whether the run is known to have the fewest changes of thread. A refusal
/// is that memory ran out, or that no accesses meet there.
fn race_after(
    scope: Scope<'_>,
    told: &[Kind],
    played: Played<'_>,
    fewest: bool,
) -> Result<Option<Race>, AllocError>
    ensures fewest { IfOk result (λ o. IfSome o (λ r. r.fewest ≡ fewest)) }
    ensures race { IfOk result (λ o. IfSome o (λ r.
        IsPlayed (plain_file scope.entry.file.now) (plain_program scope.entry.program.now) played.entry →
        IsRaceBy (λ n. n ≡ costs Changes 0 played.entry.steps.items)
        (volatile_by (map (λ v. v.items) scope.entry.classes.now)) told.now (plain_file scope.entry.file.now)
        (plain_program scope.entry.program.now) r)) }
    ensures late { IfOk result (λ o. IfNone o (
        IsPlayed (plain_file scope.entry.file.now) (plain_program scope.entry.program.now) played.entry →
        MeetsLate (volatile_by (map (λ v. v.items) scope.entry.classes.now)) told.now
        (plain_file scope.entry.file.now) (plain_program scope.entry.program.now))) }
{
    let Some(met) = met_after(scope, told, &played)? else {
        return Err(AllocError);
    };
    let on = met.on;
    match play_both(scope.alloc, played, met)? {
        None => Err(AllocError),
        Some(after) => {
            if after.steps.len() > MOST_STEPS {
                return Ok(None);
            }
            Ok(Some(Race {
                schedule: Schedule::of(after.steps),
                fewest,
                on,
            }))
        }
    }
}

/// The race at the node at which a graph was left. Answers nothing where a schedule has no room for its steps. A
/// refusal is that memory ran out, or that the edges to the node lead to no accesses that meet.
fn race_at_end(
    scope: Scope<'_>,
    told: &[Kind],
    closing: &Closing<Kept>,
) -> Result<Option<Race>, AllocError>
    ensures race { IfOk result (λ o. IfSome o (IsRaceBy (IsLeast Changes closing.now.graph.edges.items
        (length closing.now.graph.found.nodes.items) closing.now.looked.items)
        (volatile_by (map (λ v. v.items) scope.entry.classes.now)) told.now (plain_file scope.entry.file.now)
        (plain_program scope.entry.program.now))) }
    ensures late { IfOk result (λ o. IfNone o (MeetsLate (volatile_by (map (λ v. v.items) scope.entry.classes.now))
        told.now (plain_file scope.entry.file.now) (plain_program scope.entry.program.now))) }
{
    let edges = edges_to_last(scope.alloc, closing)?;
    let Some(played) = play_along(scope.alloc, scope.file, scope.program, &edges)? else {
        return Err(AllocError);
    };
    let spent = costs(Counted::Changes, &played.steps);
    let threads = scope.program.threads.len() as u8;
    let fewest = is_least(Counted::Changes, threads, closing, spent);
    race_after(scope, told, played, fewest)
}

/// What a graph tells of races. A refusal is that memory ran out, that a graph isn't whole though there is room, or
/// that the edges to the node at which it was left lead to no accesses that meet. That none is so isn't proved.
fn sight_of(scope: Scope<'_>, told: &[Kind], closing: &Closing<Kept>) -> Result<Sight, AllocError>
    ensures { IfOk result (IsSightBy
        (IsWhole (length closing.now.graph.found.nodes.items) closing.now.looked.items)
        ((closing.now.halt ≡ Full) ⊎ MeetsLate (volatile_by (map (λ v. v.items) scope.entry.classes.now)) told.now
        (plain_file scope.entry.file.now) (plain_program scope.entry.program.now))
        (IsLeast Changes closing.now.graph.edges.items (length closing.now.graph.found.nodes.items)
        closing.now.looked.items) (volatile_by (map (λ v. v.items) scope.entry.classes.now)) told.now
        (plain_file scope.entry.file.now) (plain_program scope.entry.program.now)) }
{
    match closing.halt {
        Halt::Full => Ok(Sight::Cut),
        Halt::Far => Err(AllocError),
        Halt::Closed => {
            if !is_whole(closing) {
                return Err(AllocError);
            }
            Ok(Sight::Free)
        }
        Halt::End => match race_at_end(scope, told, closing)? {
            None => Ok(Sight::Cut),
            Some(race) => Ok(Sight::Met(race)),
        },
    }
}

/// What is told of a program's races, and how many states were kept.
#[derive(Drop)]
struct Looked {
    sight: Sight,
    states: usize,
}

/// Looks for a race on a variable of a kind that wasn't told. The refusals are those of `sight_of`.
fn look(scope: Scope<'_>, told: &[Kind]) -> Result<Looked, AllocError>
    requires room { 1 ≤ scope.limit }
    ensures sight { IfOk result (λ l. IsSight (volatile_by (map (λ v. v.items) scope.entry.classes.now)) told.now
        (plain_file scope.entry.file.now) (plain_program scope.entry.program.now) scope.entry.limit l.states l.sight) }
    ensures reached { IfOk result (λ l. AreReached (plain_file scope.entry.file.now)
        (plain_program scope.entry.program.now) 0 l.states) }
    ensures few { IfOk result (λ l. l.states ≤ scope.entry.limit) }
{
    let closing = closed(&Mute, scope, told, Counted::Changes)?;
    let sight = sight_of(scope, told, &closing)?;
    Ok(Looked {
        sight,
        states: closing.graph.found.nodes.len(),
    })
}

/// The data races of a program, one for each kind of variable on which accesses meet, the simplest first. If they are
/// complete, accesses meet on variables of no other kind, after no schedule of any length. If they aren't, so many
/// states were kept as may be, or they have over 4,194,304 objects together, or accesses meet after more steps than a
/// schedule may have. A refusal is that memory ran out, or that a store, a work or a state has no number left. A graph
/// that isn't whole though there is room is refused too, and so is one whose edges to accesses that meet lead to none.
/// That none is so isn't proved.
pub fn find_races(scope: Scope<'_>) -> Result<Races, AllocError>
    requires room { 1 ≤ scope.limit }
    ensures races { IfOk result (λ r. AreRaces (volatile_by (map (λ v. v.items) scope.entry.classes.now)) []
        (plain_file scope.entry.file.now) (plain_program scope.entry.program.now) r.races.items) }
    ensures none { IfOk result (λ r. IsTrue r.complete →
        AllAreOn (volatile_by (map (λ v. v.items) scope.entry.classes.now)) (kinds_of r.races.items)
        (plain_file scope.entry.file.now) (plain_program scope.entry.program.now)) }
    ensures extent { IfOk result (λ r. IsRaceExtent (volatile_by (map (λ v. v.items) scope.entry.classes.now))
        (kinds_of r.races.items) (plain_file scope.entry.file.now) (plain_program scope.entry.program.now)
        scope.entry.limit r.states r.complete) }
{
    let mut races = Vec::new(scope.alloc);
    let mut told: Vec<Kind> = Vec::new(scope.alloc);
    for _ in 0..usize::MAX {
        let Looked { sight, states } = look(scope, &told)?;
        match sight {
            Sight::Free => {
                return Ok(Races {
                    races,
                    states,
                    complete: true,
                });
            }
            Sight::Cut => {
                return Ok(Races {
                    races,
                    states,
                    complete: false,
                });
            }
            Sight::Met(race) => {
                told.push(race.on)?;
                races.push(race)?;
            }
        }
    }
    Err(AllocError)
}

/// Whether accesses of a program meet after no schedule of any length. True only where that is so; false also where
/// more states would have to be kept. It looks at states by the fewest steps, which is quicker than by the fewest
/// context switches. The refusals are those of `find_races`.
pub fn is_free(scope: Scope<'_>) -> Result<bool, AllocError>
    ensures { IfOk result (λ b. IsTrue b →
        NeverMeets (volatile_by (map (λ v. v.items) scope.entry.classes.now)) (plain_file scope.entry.file.now)
        (plain_program scope.entry.program.now)) }
{
    let closing = closed(&Mute, scope, &[], Counted::Steps)?;
    Ok(is_whole(&closing))
}
