// The schedule that costs least of those that are looked for.

ghost use Rattle.std.specs.Prelude.{◌≡◌, ℕ, IfOk, IfSome, length};
ghost use Rattle.ls_checked.specs.Plain.{plain_file};
ghost use Rattle.ls_checked.specs.PlainProgram.{plain_program};
ghost use Rattle.ls_graph.specs.Walks.{IsLeast};
ghost use Rattle.ls_search.specs.Near.{NeverBad};
ghost use Rattle.ls_fewest_switches.specs.Levels.{HaveAtLeast, IsBelow, IsFound, IsLevel, wanted_of};

use crate::checking::is_such;
use crate::starting::numbered_start;
use ls_checked::program::Program;
use ls_checked::tree::File;
use ls_events::schedule::MOST_STEPS;
use ls_graph::closing::{Closing, Edge, Halt, Plan, close};
use ls_graph::costs::{Counted, costs};
use ls_graph::least::is_least;
use ls_graph::nodes::Bounds;
use ls_graph::walks::edges_to_last;
use ls_observers::observer::Observer;
use ls_search::nameless::Nameless;
use ls_search::numbering::Numbered;
use ls_search::objects::MOST_OBJECTS;
use ls_search::roots::Root;
use ls_search::searching::Ground;
use ls_search::space::{Beginning, Kept, StateSpace, Wanted, begin};
use std::alloc::{AllocError, Global};

/// What is looked for, and how far.
#[derive(Drop)]
pub struct Sought<'a, O> {
    pub alloc: Global,
    /// Whose bad histories are looked for.
    pub observer: &'a O,
    /// How many threads there are, the setup with them.
    pub threads: u8,
    /// The most states. Their stores have 4,194,304 objects together at most, but for the last of them.
    pub limit: usize,
    pub counted: Counted,
    /// Whether no thread may act at the end, and one must wait.
    pub stuck: bool,
}

/// What was found of the schedules that cost less than so much.
#[derive(Drop)]
pub enum Level {
    /// There is no such schedule.
    Nothing,
    /// This one, and none costs less.
    Steps(Vec<u8>),
    /// It isn't known, since there would be too many states.
    Cut,
}

/// The most steps that are taken at once, where changes of thread are counted.
const MOST_AT_ONCE: usize = 4096;

/// The steps along edges, with those at once after each, as far as a schedule may have so many.
fn steps_along(alloc: Global, path: &[Edge]) -> Result<Vec<u8>, AllocError> {
    let mut steps = Vec::new(alloc);
    for edge in path {
        for _ in 0..edge.mark.saturating_add(1) {
            if steps.len() > MOST_STEPS {
                return Ok(steps);
            }
            steps.push(edge.actor)?;
        }
    }
    Ok(steps)
}

/// What a search tells of the end at which it stopped.
fn level_at_end<O: Observer>(
    sought: &Sought<'_, O>,
    file: &File,
    program: &Program,
    count: usize,
    closing: &Closing<Kept>,
) -> Result<Level, AllocError>
    ensures { IfOk result (IsLevel (O.first sought.now.observer.now) (O.next sought.now.observer.now)
        (O.bad sought.now.observer.now) sought.now.stuck (plain_file file.now) (plain_program program.now)
        sought.now.counted (IsLeast sought.now.counted closing.now.graph.edges.items
        (length closing.now.graph.found.nodes.items) closing.now.looked.items) count) }
{
    let edges = edges_to_last(sought.alloc, closing)?;
    let steps = steps_along(sought.alloc, &edges)?;
    let spent = costs(sought.counted, &steps);
    if steps.len() > MOST_STEPS || spent >= count {
        return Ok(Level::Cut);
    }
    if !is_least(sought.counted, sought.threads, closing, spent) {
        return Ok(Level::Cut);
    }
    let observer = sought.observer;
    if !is_such(sought.alloc, observer, file, program, &steps, sought.stuck)? {
        return Ok(Level::Cut);
    }
    Ok(Level::Steps(steps))
}

/// What a search tells of the schedules that cost less than so much.
fn level_of<O: Observer>(
    sought: &Sought<'_, O>,
    file: &File,
    program: &Program,
    count: usize,
    closing: &Closing<Kept>,
) -> Result<Level, AllocError>
    ensures { IfOk result (IsLevel (O.first sought.now.observer.now) (O.next sought.now.observer.now)
        (O.bad sought.now.observer.now) sought.now.stuck (plain_file file.now) (plain_program program.now)
        sought.now.counted (IsLeast sought.now.counted closing.now.graph.edges.items
        (length closing.now.graph.found.nodes.items) closing.now.looked.items) count) }
{
    match closing.halt {
        Halt::End => level_at_end(sought, file, program, count, closing),
        Halt::Full => Ok(Level::Cut),
        Halt::Closed | Halt::Far => {
            if !is_least(sought.counted, sought.threads, closing, count) {
                return Ok(Level::Cut);
            }
            Ok(Level::Nothing)
        }
    }
}

/// How many steps are taken at once.
fn at_once(counted: Counted) -> usize {
    match counted {
        Counted::Changes => MOST_AT_ONCE,
        Counted::Steps => 0,
    }
}

/// How far the graph is found, and what is looked for.
#[derive(Copy)]
struct Scope {
    plan: Plan,
    most: usize,
    wanted: Wanted,
}

impl Clone for Scope {
    fn clone(&self) -> Result<Scope, AllocError> {
        Ok(*self)
    }
}

/// Which states are looked for: those that are bad, or of these those at which no thread acts and one waits.
fn wanted_of(stuck: bool) -> Wanted
    ensures { result ≡ wanted_of stuck }
{
    if stuck { Wanted::Stuck } else { Wanted::Bad }
}

/// How far the graph is found, and what is looked for.
fn scope_of<O>(sought: &Sought<'_, O>, count: usize) -> Scope
    ensures actors { result.plan.actors ≡ sought.now.threads }
    ensures wanted { result.wanted ≡ wanted_of sought.now.stuck }
{
    let plan = Plan {
        alloc: sought.alloc,
        actors: sought.threads,
        bounds: Bounds {
            limit: sought.limit,
            weight: MOST_OBJECTS,
        },
        counted: sought.counted,
        far: count,
    };
    Scope {
        plan,
        most: at_once(sought.counted),
        wanted: wanted_of(sought.stuck),
    }
}

/// The graph of a program's states, until one is next that is looked for, or that costs too much. Histories of which
/// this is noted are left out.
fn closed<O: Observer>(
    observer: &O,
    lost: Option<O::Noted>,
    file: &File,
    program: &Program,
    scope: Scope,
) -> Result<Closing<Kept>, AllocError>
    requires { scope.plan.actors ≡ length program.now.threads.items }
    ensures { IfOk result (λ c. IsFound (O.first observer.now) (O.next observer.now) (O.bad observer.now)
        (O.stands observer.now) lost scope.wanted (plain_file file.now) (plain_program program.now)
        c.graph.edges.items (length c.graph.found.nodes.items) c.looked.items) }
{
    let plan = scope.plan;
    let numbered = numbered_start(plan.alloc, file, program)?;
    let ground = Ground {
        alloc: plan.alloc,
        observer,
        file,
        program,
        threads: plan.actors,
        limit: plan.bounds.limit,
        most: scope.most,
    };
    let Numbered {
        transitions,
        store,
        works,
    } = numbered;
    let root = Root {
        store,
        works,
        noted: observer.start(plan.alloc)?,
    };
    let beginning = begin(&ground, transitions, root)?;
    let Beginning { tables, root } = beginning;
    let mut tables = tables;
    let space = StateSpace {
        ground: &ground,
        lost,
        wanted: scope.wanted,
    };
    let closing = close(&space, plan, &mut tables, root)?;
    Ok(closing)
}

/// The graph of a program's states, until one is next that is looked for, or that costs so much. Histories of which
/// this is noted are left out.
fn graph_of<O: Observer>(
    sought: &Sought<'_, O>,
    lost: Option<O::Noted>,
    file: &File,
    program: &Program,
    count: usize,
) -> Result<Closing<Kept>, AllocError>
    requires threads { sought.now.threads ≡ length program.now.threads.items }
    requires lost { IfSome lost (λ n. NeverBad (O.next sought.now.observer.now) (O.bad sought.now.observer.now)
        (O.stands sought.now.observer.now n)) }
    ensures { IfOk result (λ c. (least : ℕ) → IsLeast sought.now.counted c.graph.edges.items
        (length c.graph.found.nodes.items) c.looked.items least →
        HaveAtLeast (O.first sought.now.observer.now) (O.next sought.now.observer.now)
        (O.bad sought.now.observer.now) sought.now.stuck (plain_file file.now) (plain_program program.now)
        sought.now.counted least) }
{
    let nameless = Nameless {
        observer: sought.observer,
    };
    let closing = closed(&nameless, lost, file, program, scope_of(sought, count))?;
    Ok(closing)
}

/// The schedule that costs least of those that are looked for, if it costs less than so much and not too many states
/// are needed. Histories of which this is noted are left out.
pub(crate) fn least_below<O: Observer>(
    sought: Sought<'_, O>,
    lost: Option<O::Noted>,
    file: &File,
    program: &Program,
    count: usize,
) -> Result<Level, AllocError>
    requires threads { sought.threads ≡ length program.now.threads.items }
    requires lost { IfSome lost (λ n. NeverBad (O.next sought.observer.now) (O.bad sought.observer.now)
        (O.stands sought.observer.now n)) }
    ensures { IfOk result (IsBelow (O.first sought.entry.observer.now) (O.next sought.entry.observer.now)
        (O.bad sought.entry.observer.now) sought.entry.stuck (plain_file file.now) (plain_program program.now)
        sought.entry.counted count) }
{
    let closing = graph_of(&sought, lost, file, program, count)?;
    let level = level_of(&sought, file, program, count, &closing)?;
    Ok(level)
}
