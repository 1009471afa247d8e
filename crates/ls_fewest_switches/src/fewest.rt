// A schedule with the fewest context switches.

ghost use Rattle.std.specs.Prelude.{◌≡◌, ◌≤◌, IfOk, IsTrue};
ghost use Rattle.ls_checked.specs.Plain.{plain_file};
ghost use Rattle.ls_checked.specs.PlainProgram.{plain_program};
ghost use Rattle.ls_meaning.specs.Runs.{source_history};
ghost use Rattle.ls_search_laws.specs.Stepping.{ActAll};
ghost use Rattle.ls_fewest_switches.specs.Switches.{EndsSo, HasFewest, HasFewestOf, IsSought, switches};

use crate::along::Along;
use crate::least::{Level, Sought, least_below};
use ls_checked::program::Program;
use ls_checked::tree::File;
use ls_events::schedule::Schedule;
use ls_graph::costs::{Counted, changes};
use ls_observers::observer::Observer;
use ls_source::run::play;
use std::alloc::{AllocError, Global};

/// A schedule, and whether it is known that none of those with which it is compared has fewer context switches.
#[derive(Drop)]
pub struct SimpleRun {
    pub schedule: Schedule,
    pub fewest: bool,
}

/// What a run must come to, and how far it is looked for.
#[derive(Copy)]
pub struct Target {
    /// Whether no thread may act after it, and one must wait.
    pub stuck: bool,
    /// How many states are kept at the most. Their stores have 4,194,304 objects together at most, but for the last
    /// one.
    pub limit: usize,
}

impl Clone for Target {
    fn clone(&self) -> Result<Target, AllocError> {
        Ok(*self)
    }
}

/// How many context switches a schedule has.
pub fn switches(schedule: &Schedule) -> usize
    ensures { result ≡ switches schedule.now }
{
    changes(schedule.steps()).saturating_sub(1)
}

/// The schedule itself.
fn unchanged(alloc: Global, found: &Schedule, fewest: bool) -> Result<SimpleRun, AllocError>
    ensures schedule { IfOk result (λ r. r.schedule ≡ found.now) }
    ensures fewest { IfOk result (λ r. r.fewest ≡ fewest) }
{
    let schedule = found.copied(alloc)?;
    Ok(SimpleRun { schedule, fewest })
}

/// A schedule with the history of this one and the fewest context switches. If the target is stuck, no thread acts
/// after it and one waits, where that is so after this one. At most so many states are kept as the target says. If more
/// would be needed, it is this schedule. A refusal is that memory ran out, or that a store, a work or a state has no
/// number left. A call that answers an object is refused too: the calls of a program that was read answer none.
pub fn simplest(
    alloc: Global,
    file: &File,
    program: &Program,
    target: Target,
    found: &Schedule,
) -> Result<SimpleRun, AllocError>
    ensures history { IfOk result (λ r.
        source_history (plain_file file.now) (plain_program program.now) r.schedule ≡
        source_history (plain_file file.now) (plain_program program.now) found.now) }
    ensures ends { IfOk result (λ r. EndsSo target.stuck (plain_file file.now) (plain_program program.now) found.now →
        EndsSo target.stuck (plain_file file.now) (plain_program program.now) r.schedule) }
    ensures acts { IfOk result (λ r. ActAll (plain_file file.now) (plain_program program.now) found.now →
        ActAll (plain_file file.now) (plain_program program.now) r.schedule) }
    ensures few { IfOk result (λ r. switches r.schedule ≤ switches found.now) }
    ensures fewest { IfOk result (λ r. IsTrue r.fewest →
        HasFewest target.stuck (plain_file file.now) (plain_program program.now) r.schedule) }
{
    found.fits();
    let steps = found.steps();
    let history = play(alloc, file, program, steps)?;
    let along = Along {
        history: history.as_slice(),
    };
    let most = changes(steps);
    let sought = Sought {
        alloc,
        observer: &along,
        threads: program.threads.len() as u8,
        limit: target.limit,
        counted: Counted::Changes,
        stuck: target.stuck,
    };
    match least_below(sought, Some(None), file, program, most + 1)? {
        Level::Steps(least) => Ok(SimpleRun {
            schedule: Schedule::of(least),
            fewest: true,
        }),
        Level::Nothing | Level::Cut => unchanged(alloc, found, false),
    }
}

/// A schedule whose history an observer calls bad, if it does so of this one's, with no more context switches; if
/// possible with the fewest of all such schedules, whatever their histories. If the target is stuck, schedules are
/// meant after which no thread acts and one waits. At most so many states are kept as the target says. If more would be
/// needed, or none has fewer changes, it is this schedule. It is refused as `simplest` is.
pub fn simplest_bad<O: Observer>(
    alloc: Global,
    observer: &O,
    file: &File,
    program: &Program,
    target: Target,
    found: &Schedule,
) -> Result<SimpleRun, AllocError>
    ensures sought { IfOk result (λ r.
        IsSought (O.first observer.now) (O.next observer.now) (O.bad observer.now)
        (source_history (plain_file file.now) (plain_program program.now) found.now) →
        IsSought (O.first observer.now) (O.next observer.now) (O.bad observer.now)
        (source_history (plain_file file.now) (plain_program program.now) r.schedule)) }
    ensures ends { IfOk result (λ r. EndsSo target.stuck (plain_file file.now) (plain_program program.now) found.now →
        EndsSo target.stuck (plain_file file.now) (plain_program program.now) r.schedule) }
    ensures acts { IfOk result (λ r. ActAll (plain_file file.now) (plain_program program.now) found.now →
        ActAll (plain_file file.now) (plain_program program.now) r.schedule) }
    ensures few { IfOk result (λ r. switches r.schedule ≤ switches found.now) }
    ensures fewest { IfOk result (λ r. IsTrue r.fewest →
        HasFewestOf (IsSought (O.first observer.now) (O.next observer.now) (O.bad observer.now)) target.stuck
        (plain_file file.now) (plain_program program.now) r.schedule) }
{
    found.fits();
    let most = changes(found.steps());
    let sought = Sought {
        alloc,
        observer,
        threads: program.threads.len() as u8,
        limit: target.limit,
        counted: Counted::Changes,
        stuck: target.stuck,
    };
    match least_below(sought, None, file, program, most)? {
        Level::Steps(least) => Ok(SimpleRun {
            schedule: Schedule::of(least),
            fewest: true,
        }),
        Level::Nothing => unchanged(alloc, found, true),
        Level::Cut => unchanged(alloc, found, false),
    }
}
