// The search from where the setup leads to.

ghost use Rattle.std.specs.Prelude.{◌≡◌, ◌⊎◌, ◌≤◌, IfOk, IfSome, IsTrue, true, false, length, replicate};
ghost use Rattle.std.specs.List.{fold};
ghost use Rattle.ls_checked.specs.Plain.{plain_file};
ghost use Rattle.ls_checked.specs.PlainProgram.{plain_program};
ghost use Rattle.ls_search_laws.specs.Noticing.{noticed_after, noticed_of};
ghost use Rattle.ls_search_laws.specs.Stepping.{SetsUp};
ghost use Rattle.ls_transitions.specs.Seen.{table_of};
ghost use Rattle.ls_search.specs.Answers.{ClosesAll, IsStuck, root_of};
ghost use Rattle.ls_search.specs.Graphs.{ActsAlong, HaveObjects, LeadsAlong, most_objects};
ghost use Rattle.ls_search.specs.Places.{AreThere};
ghost use Rattle.ls_search.specs.Searched.{HidesNames};
ghost use Rattle.ls_search.specs.Tried.{HasTried};
ghost use Rattle.ls_search.specs.Verdicts.{AreAll};

use crate::graphs::{Found, search_from};
use crate::numbering::{Numbered, number};
use crate::observing::noted_of;
use crate::roots::Root;
use crate::searching::Ground;
use crate::setting_up::{SetUp, set_up};
use ls_checked::program::Program;
use ls_checked::tree::File;
use ls_observers::observer::Observer;
use ls_transitions::transitions::Transitions;
use std::alloc::{AllocError, Global};

/// The most steps that are taken at once.
const MOST: usize = 4096;

/// What a search tells from where the setup leads to, and by how many of its steps.
#[derive(Drop)]
pub struct RunFound {
    pub setup: usize,
    pub found: Found,
}

/// Where the setup leads to, by how many of its steps.
#[derive(Drop)]
pub(crate) struct Prepared<'a, N> {
    pub(crate) steps: usize,
    pub(crate) transitions: Transitions<'a>,
    pub(crate) root: Root<N>,
}

/// Runs the setup as long as it acts, at most so many steps.
pub(crate) fn prepare<'a, O: Observer>(
    alloc: Global,
    observer: &O,
    file: &'a File,
    program: &'a Program,
    most: usize,
) -> Result<Prepared<'a, O::Noted>, AllocError>
    ensures up { IfOk result (λ p. SetsUp (plain_file file.now) (plain_program program.now) p.steps) }
    ensures there { IfOk result (λ p. AreThere (table_of p.transitions) p.root.store p.root.works.items) }
    ensures file { IfOk result (λ p. (table_of p.transitions).file ≡ plain_file file.now) }
    ensures width { IfOk result (λ p. length p.root.works.items ≡ length program.now.threads.items) }
    ensures root { IfOk result (λ p. root_of (O.stands observer.now) (table_of p.transitions) p.root ≡
        noticed_of (O.first observer.now) (O.next observer.now) (plain_file file.now) (plain_program program.now)
        (replicate p.steps 0)) }
{
    let SetUp { playing, steps } = set_up(alloc, file, program, most)?;
    let noted = noted_of(alloc, observer, &playing.store_and_events.events)?;
    let Numbered {
        transitions,
        store,
        works,
    } = number(alloc, &playing)?;
    Ok(Prepared {
        steps,
        transitions,
        root: Root {
            store,
            works,
            noted,
        },
    })
}

/// Runs the setup as long as it acts, and looks for all that threads lead to from there. At most so many states are
/// kept, and no more steps of the setup are run. A refusal is that memory ran out, that a store, a work or a state has
/// no number left, or that a constant of the file names an object, which none does of a file that was read.
pub fn search_run<O: Observer>(
    alloc: Global,
    observer: &O,
    file: &File,
    program: &Program,
    limit: usize,
) -> Result<RunFound, AllocError>
    requires limit { 1 ≤ limit }
    requires hides { HidesNames (O.next observer.now) }
    ensures up { IfOk result (λ r. SetsUp (plain_file file.now) (plain_program program.now) r.setup) }
    ensures closes { IfOk result (λ r. IsTrue r.found.complete →
        ClosesAll (O.stands observer.now) (O.first observer.now) (O.next observer.now) (O.bad observer.now)
        (plain_file file.now) (plain_program program.now) (length (plain_program program.now).threads)
        (noticed_of (O.first observer.now) (O.next observer.now) (plain_file file.now) (plain_program program.now)
        (replicate r.setup 0)) r.found.bad r.found.stuck) }
    ensures all { IfOk result (λ r. IsTrue r.found.complete →
        AreAll (plain_file file.now) (plain_program program.now) r.setup r.found.states) }
    ensures bad { IfOk result (λ r. IfSome r.found.bad (λ path. O.bad observer.now
        (fold (noticed_after (O.first observer.now) (O.next observer.now) (plain_file file.now)
        (plain_program program.now))
        (noticed_of (O.first observer.now) (O.next observer.now) (plain_file file.now) (plain_program program.now)
        (replicate r.setup 0)) path.items).noted ≡ true)) }
    ensures stuck { IfOk result (λ r. IfSome r.found.stuck (λ path. IsStuck (plain_file file.now)
        (fold (noticed_after (O.first observer.now) (O.next observer.now) (plain_file file.now)
        (plain_program program.now))
        (noticed_of (O.first observer.now) (O.next observer.now) (plain_file file.now) (plain_program program.now)
        (replicate r.setup 0)) path.items).configuration)) }
    ensures cut { IfOk result (λ r. r.found.complete ≡ false → (r.found.states ≡ limit) ⊎ HaveObjects
        (ActsAlong (O.first observer.now) (O.next observer.now) (plain_file file.now) (plain_program program.now)
        (noticed_of (O.first observer.now) (O.next observer.now) (plain_file file.now) (plain_program program.now)
        (replicate r.setup 0)))
        (LeadsAlong (O.first observer.now) (O.next observer.now) (plain_file file.now) (plain_program program.now)
        (noticed_of (O.first observer.now) (O.next observer.now) (plain_file file.now) (plain_program program.now)
        (replicate r.setup 0))) r.found.states most_objects) }
    ensures few { IfOk result (λ r. r.found.states ≤ limit) }
    ensures tried { IfOk result (λ r. HasTried
        (ActsAlong (O.first observer.now) (O.next observer.now) (plain_file file.now) (plain_program program.now)
        (noticed_of (O.first observer.now) (O.next observer.now) (plain_file file.now) (plain_program program.now)
        (replicate r.setup 0))) r.found.states) }
{
    let Prepared {
        steps,
        transitions,
        root,
    } = prepare(alloc, observer, file, program, limit)?;
    let ground = Ground {
        alloc,
        observer,
        file,
        program,
        threads: program.threads.len() as u8,
        limit,
        most: MOST,
    };
    let found = search_from(&ground, transitions, root)?;
    Ok(RunFound {
        setup: steps,
        found,
    })
}
