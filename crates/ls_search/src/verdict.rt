// What an observer tells of all schedules of a program.

ghost use Rattle.std.specs.Prelude.{◌≡◌, ◌≤◌, ◌++◌, IfNone, IfOk, IfSome, IsTrue, true, false, replicate};
ghost use Rattle.std.specs.List.{fold};
ghost use Rattle.ls_checked.specs.Plain.{plain_file};
ghost use Rattle.ls_checked.specs.PlainProgram.{plain_program};
ghost use Rattle.ls_meaning.specs.Runs.{source_history};
ghost use Rattle.ls_search_laws.specs.Noticing.{StaysBad};
ghost use Rattle.ls_search_laws.specs.Stepping.{SetsUp};
ghost use Rattle.ls_search.specs.Verdicts.{AllGood, AreAll, AreReached, IsCut, LeavesStuck, NeverStuck};

use crate::graphs::Found;
use crate::nameless::Nameless;
use crate::running::search_run;
use ls_checked::program::Program;
use ls_checked::tree::File;
use ls_observers::observer::Observer;
use std::alloc::{AllocError, Global};

/// What is told of all schedules of a program. First how many steps of the setup act, how many states were found, and
/// whether these are all. Then a path to a bad history, and one to a state in which no thread acts and one waits. A
/// path is of steps after those of the setup.
#[derive(Drop)]
pub struct Finding {
    pub setup: usize,
    pub states: usize,
    pub complete: bool,
    pub bad: Option<Vec<u8>>,
    pub stuck: Option<Vec<u8>>,
}

/// Has an observer look at the histories of all schedules of a program, by the states that threads lead to. At most so
/// many states are kept, and no more where their stores have over 4,194,304 objects together. A refusal is that memory
/// ran out, or that a store, a work or a state has no number left. A call that answers an object is refused too: the
/// calls of a program that was read answer none. So is a graph that isn't whole though there is room, which isn't
/// proved not to come.
pub fn verdict<O: Observer>(
    alloc: Global,
    observer: &O,
    file: &File,
    program: &Program,
    limit: usize,
) -> Result<Finding, AllocError>
    ensures up { IfOk result (λ f. SetsUp (plain_file file.now) (plain_program program.now) f.setup) }
    ensures good { IfOk result (λ f. IsTrue f.complete → IfNone f.bad
        (StaysBad (O.next observer.now) (O.bad observer.now) →
        AllGood (O.first observer.now) (O.next observer.now) (O.bad observer.now) (plain_file file.now)
        (plain_program program.now))) }
    ensures bad { IfOk result (λ f. IfSome f.bad (λ path. O.bad observer.now
        (fold (O.next observer.now) (O.first observer.now)
        (source_history (plain_file file.now) (plain_program program.now) (replicate f.setup 0 ++ path.items))) ≡
        true)) }
    ensures free { IfOk result (λ f. IsTrue f.complete → IfNone f.stuck
        (NeverStuck (plain_file file.now) (plain_program program.now))) }
    ensures stuck { IfOk result (λ f. IfSome f.stuck (λ path.
        LeavesStuck (plain_file file.now) (plain_program program.now) (replicate f.setup 0 ++ path.items))) }
    ensures all { IfOk result (λ f. IsTrue f.complete →
        AreAll (plain_file file.now) (plain_program program.now) f.setup f.states) }
    ensures cut { IfOk result (λ f. f.complete ≡ false →
        IsCut (plain_file file.now) (plain_program program.now) limit f.setup f.states) }
    ensures few { IfOk result (λ f. f.states ≤ limit) }
    ensures reached { IfOk result (λ f.
        AreReached (plain_file file.now) (plain_program program.now) f.setup f.states) }
{
    if limit == 0 {
        return Ok(Finding {
            setup: 0,
            states: 0,
            complete: false,
            bad: None,
            stuck: None,
        });
    }
    let nameless = Nameless { observer };
    let told = search_run(alloc, &nameless, file, program, limit)?;
    let Found {
        complete,
        states,
        bad,
        stuck,
    } = told.found;
    Ok(Finding {
        setup: told.setup,
        states,
        complete,
        bad,
        stuck,
    })
}
