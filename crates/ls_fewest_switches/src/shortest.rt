// A shortest schedule.

ghost use Rattle.std.specs.Prelude.{◌≡◌, ◌≤◌, IfOk, IsTrue, false, length, map};
ghost use Rattle.std.specs.List.{Contains};
ghost use Rattle.ls_checked.specs.Plain.{plain_file};
ghost use Rattle.ls_checked.specs.PlainProgram.{plain_program};
ghost use Rattle.ls_meaning.specs.Runs.{source_history};
ghost use Rattle.ls_search_laws.specs.Stepping.{ActAll};
ghost use Rattle.ls_search.specs.Near.{NeverBad};
ghost use Rattle.ls_fewest_switches.specs.Shortest.{IsShortestOf};
ghost use Rattle.ls_fewest_switches.specs.Switches.{IsSought};
ghost use Rattle.ls_graph.specs.declared.costs.Counted.TheVariants.{Steps};

use crate::among::{Among, Beginning};
use crate::least::{Level, Sought, least_below};
use ls_checked::program::Program;
use ls_checked::tree::File;
use ls_events::event::Event;
use ls_events::schedule::Schedule;
use ls_graph::costs::Counted;
use ls_observers::observer::Observer;
use std::alloc::{AllocError, Global};

/// A schedule, and whether it is known that none with one of the histories is shorter.
#[derive(Drop)]
pub struct ShortRun {
    pub schedule: Schedule,
    pub shortest: bool,
}

/// A schedule whose history an observer calls bad, if it does so of this one's, and no longer one. It is this one where
/// too many states are needed.
fn shortest_bad<O: Observer>(
    sought: Sought<'_, O>,
    lost: O::Noted,
    file: &File,
    program: &Program,
    found: &Schedule,
) -> Result<ShortRun, AllocError>
    requires counted { sought.counted ≡ Steps }
    requires ends { sought.stuck ≡ false }
    requires threads { sought.threads ≡ length program.now.threads.items }
    requires lost { NeverBad (O.next sought.observer.now) (O.bad sought.observer.now)
        (O.stands sought.observer.now lost) }
    ensures sought { IfOk result (λ r.
        IsSought (O.first sought.entry.observer.now) (O.next sought.entry.observer.now)
        (O.bad sought.entry.observer.now)
        (source_history (plain_file file.now) (plain_program program.now) found.now) →
        IsSought (O.first sought.entry.observer.now) (O.next sought.entry.observer.now)
        (O.bad sought.entry.observer.now)
        (source_history (plain_file file.now) (plain_program program.now) r.schedule)) }
    ensures acts { IfOk result (λ r. ActAll (plain_file file.now) (plain_program program.now) found.now →
        ActAll (plain_file file.now) (plain_program program.now) r.schedule) }
    ensures short { IfOk result (λ r. length r.schedule ≤ length found.now) }
    ensures shortest { IfOk result (λ r. IsTrue r.shortest →
        IsShortestOf (IsSought (O.first sought.entry.observer.now) (O.next sought.entry.observer.now)
        (O.bad sought.entry.observer.now)) (plain_file file.now) (plain_program program.now) r.schedule) }
{
    let alloc = sought.alloc;
    let count = found.len();
    match least_below(sought, Some(lost), file, program, count)? {
        Level::Steps(steps) => Ok(ShortRun {
            schedule: Schedule::of(steps),
            shortest: true,
        }),
        Level::Nothing => Ok(ShortRun {
            schedule: found.copied(alloc)?,
            shortest: true,
        }),
        Level::Cut => Ok(ShortRun {
            schedule: found.copied(alloc)?,
            shortest: false,
        }),
    }
}

/// A schedule whose history is one of these, if this one's is, and no longer one; if possible a shortest of all such
/// schedules. At most so many states are kept. If more would be needed, it is this one. It is refused as `simplest` is.
pub fn shortest_among(
    alloc: Global,
    file: &File,
    program: &Program,
    histories: &[Vec<Event>],
    limit: usize,
    found: &Schedule,
) -> Result<ShortRun, AllocError>
    ensures among { IfOk result (λ r.
        Contains (map (λ v. v.items) histories.now)
        (source_history (plain_file file.now) (plain_program program.now) found.now) →
        Contains (map (λ v. v.items) histories.now)
        (source_history (plain_file file.now) (plain_program program.now) r.schedule)) }
    ensures acts { IfOk result (λ r. ActAll (plain_file file.now) (plain_program program.now) found.now →
        ActAll (plain_file file.now) (plain_program program.now) r.schedule) }
    ensures short { IfOk result (λ r. length r.schedule ≤ length found.now) }
    ensures shortest { IfOk result (λ r. IsTrue r.shortest →
        IsShortestOf (Contains (map (λ v. v.items) histories.now)) (plain_file file.now) (plain_program program.now)
        r.schedule) }
{
    let among = Among { histories };
    let lost = Beginning {
        done: 0,
        which: Vec::new(alloc),
    };
    let sought = Sought {
        alloc,
        observer: &among,
        threads: program.threads.len() as u8,
        limit,
        counted: Counted::Steps,
        stuck: false,
    };
    let least = shortest_bad(sought, lost, file, program, found)?;
    Ok(least)
}
