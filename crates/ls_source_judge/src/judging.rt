// What is told of the histories and the ends of all schedules of a program.

ghost use Rattle.std.specs.Prelude.{◌≡◌, ◌≤◌, None, IfNone, IfOk, IfSome, IsTrue, false};
ghost use Rattle.ls_serial_search.specs.Told.{IsDoubt, usual};
ghost use Rattle.ls_checked.specs.Plain.{plain_file};
ghost use Rattle.ls_checked.specs.PlainProgram.{plain_program};
ghost use Rattle.ls_search_laws.specs.Stepping.{SetsUp};
ghost use Rattle.ls_search.specs.Verdicts.{AreAll, AreReached, IsCut, NeverStuck};
ghost use Rattle.ls_source_judge.specs.Laws.{BadAreNotJudged, BadAreNotLinearizable, GoodAreLinearizable};
ghost use Rattle.ls_specification.specs.Specification.{spec_file, spec_program};
ghost use Rattle.ls_source_judge.specs.Judged.{AllLike, IsStuckRun, IsUnjudgedRun, IsUnlikeRun};

use crate::laws::bad_stays_bad;
use crate::watched::PairsObserver;
use crate::watching::{SerialObserver, observer_within, serial_observer};
use crate::wholes::whole_of;
use ls_checked::program::Program;
use ls_checked::tree::File;
use ls_search::verdict::{Finding, verdict};
use ls_serial_search::telling::{Bounds, Doubt};
use ls_specification::Specification;
use std::alloc::{AllocError, Global};

/// What is told of all schedules of a program.
#[derive(Drop)]
pub struct Judged {
    /// How many steps of the setup there are.
    pub setup: usize,
    /// How many states were found.
    pub states: usize,
    /// Whether these are all.
    pub complete: bool,
    /// A schedule whose history no serial history of the specification explains that is known.
    pub bad: Option<Vec<u8>>,
    /// Why some serial histories may not be known. If there is no reason, that history isn't linearizable.
    pub doubt: Option<Doubt>,
    /// A schedule after which no thread acts and one waits for a lock.
    pub stuck: Option<Vec<u8>>,
}

/// A specification as an automaton has few states if it has at most so many.
const FEW_STATES: usize = 32_000;

/// What is told without a look at the histories, if there are more states than may be kept. The only refusal is that
/// memory ran out, or that a store, a work or a state has no number left.
fn cut_short(
    alloc: Global,
    file: &File,
    program: &Program,
    limit: usize,
) -> Result<Option<Judged>, AllocError>
    ensures up { IfOk result (λ some. IfSome some (λ j.
        SetsUp (plain_file file.now) (plain_program program.now) j.setup)) }
    ensures none { IfOk result (λ some. IfSome some (λ j. (j.bad ≡ None) × (j.doubt ≡ None))) }
    ensures stuck { IfOk result (λ some. IfSome some (λ j. IfSome j.stuck (λ s.
        IsStuckRun (plain_file file.now) (plain_program program.now) s.items))) }
    ensures cut { IfOk result (λ some. IfSome some (λ j. (j.complete ≡ false) ×
        IsCut (plain_file file.now) (plain_program program.now) limit j.setup j.states)) }
    ensures few { IfOk result (λ some. IfSome some (λ j. j.states ≤ limit)) }
    ensures reached { IfOk result (λ some. IfSome some (λ j.
        AreReached (plain_file file.now) (plain_program program.now) j.setup j.states)) }
{
    let blind = PairsObserver::new(alloc, Vec::new(alloc))?;
    let Finding {
        setup,
        states,
        complete,
        bad: _,
        stuck: stuck_path,
    } = verdict(alloc, &blind, file, program, limit)?;
    if complete {
        return Ok(None);
    }
    let stuck = whole_of(alloc, file, program, setup, stuck_path)?;
    Ok(Some(Judged {
        setup,
        states,
        complete,
        bad: None,
        doubt: None,
        stuck,
    }))
}

/// What an observer of a specification as an automaton tells of all schedules of a program. A refusal is that memory
/// ran out, or that a store, a work or a state has no number left.
fn judged_by(
    alloc: Global,
    specification: Specification<'_>,
    serial: SerialObserver,
    file: &File,
    program: &Program,
    limit: usize,
) -> Result<Judged, AllocError>
    requires explained { GoodAreLinearizable serial.observer (spec_file specification) (spec_program specification) }
    requires unexplained { IfNone serial.doubt
        (BadAreNotLinearizable serial.observer (spec_file specification) (spec_program specification)) }
    requires doubted { IfSome serial.doubt
        (BadAreNotJudged serial.observer (spec_file specification) (spec_program specification) usual.steps) }
    requires reason { IfSome serial.doubt (IsDoubt (spec_file specification) (spec_program specification) usual) }
    ensures up { IfOk result (λ j. SetsUp (plain_file file.now) (plain_program program.now) j.setup) }
    ensures good { IfOk result (λ j. IsTrue j.complete → IfNone j.bad
        (AllLike (spec_file specification.entry) (spec_program specification.entry)
        (plain_file file.now) (plain_program program.now))) }
    ensures bad { IfOk result (λ j. IfNone j.doubt (IfSome j.bad (λ s.
        IsUnlikeRun (spec_file specification.entry) (spec_program specification.entry)
        (plain_file file.now) (plain_program program.now) s.items))) }
    ensures doubt { IfOk result (λ j. IfSome j.doubt
        (IsDoubt (spec_file specification.entry) (spec_program specification.entry) usual)) }
    ensures unjudged { IfOk result (λ j. IfSome j.doubt (λ d. IfSome j.bad (λ s.
        IsUnjudgedRun (spec_file specification.entry) (spec_program specification.entry)
        (plain_file file.now) (plain_program program.now) d s.items))) }
    ensures free { IfOk result (λ j. IsTrue j.complete → IfNone j.stuck
        (NeverStuck (plain_file file.now) (plain_program program.now))) }
    ensures stuck { IfOk result (λ j. IfSome j.stuck (λ s.
        IsStuckRun (plain_file file.now) (plain_program program.now) s.items)) }
    ensures all { IfOk result (λ j. IsTrue j.complete →
        AreAll (plain_file file.now) (plain_program program.now) j.setup j.states) }
    ensures cut { IfOk result (λ j. j.complete ≡ false →
        IsCut (plain_file file.now) (plain_program program.now) limit j.setup j.states) }
    ensures few { IfOk result (λ j. j.states ≤ limit) }
    ensures reached { IfOk result (λ j.
        AreReached (plain_file file.now) (plain_program program.now) j.setup j.states) }
{
    bad_stays_bad();
    let Finding {
        setup,
        states,
        complete,
        bad: bad_path,
        stuck: stuck_path,
    } = verdict(alloc, &serial.observer, file, program, limit)?;
    let bad = whole_of(alloc, file, program, setup, bad_path)?;
    let stuck = whole_of(alloc, file, program, setup, stuck_path)?;
    Ok(Judged {
        setup,
        states,
        complete,
        bad,
        doubt: serial.doubt,
        stuck,
    })
}

/// Judges the histories of all schedules of a program by the serial histories of a specification, and where threads
/// come to wait. At most so many states are kept, and no more where their stores have over 4,194,304 objects together.
/// Each step of a schedule that is told acts. A refusal is that memory ran out, or that a store, a work or a state has
/// no number left.
pub fn judge_schedules(
    alloc: Global,
    specification: Specification<'_>,
    file: &File,
    program: &Program,
    limit: usize,
) -> Result<Judged, AllocError>
    ensures up { IfOk result (λ j. SetsUp (plain_file file.now) (plain_program program.now) j.setup) }
    ensures good { IfOk result (λ j. IsTrue j.complete → IfNone j.bad
        (AllLike (spec_file specification.entry) (spec_program specification.entry)
        (plain_file file.now) (plain_program program.now))) }
    ensures bad { IfOk result (λ j. IfNone j.doubt (IfSome j.bad (λ s.
        IsUnlikeRun (spec_file specification.entry) (spec_program specification.entry)
        (plain_file file.now) (plain_program program.now) s.items))) }
    ensures doubt { IfOk result (λ j. IfSome j.doubt
        (IsDoubt (spec_file specification.entry) (spec_program specification.entry) usual)) }
    ensures unjudged { IfOk result (λ j. IfSome j.doubt (λ d. IfSome j.bad (λ s.
        IsUnjudgedRun (spec_file specification.entry) (spec_program specification.entry)
        (plain_file file.now) (plain_program program.now) d s.items))) }
    ensures free { IfOk result (λ j. IsTrue j.complete → IfNone j.stuck
        (NeverStuck (plain_file file.now) (plain_program program.now))) }
    ensures stuck { IfOk result (λ j. IfSome j.stuck (λ s.
        IsStuckRun (plain_file file.now) (plain_program program.now) s.items)) }
    ensures all { IfOk result (λ j. IsTrue j.complete →
        AreAll (plain_file file.now) (plain_program program.now) j.setup j.states) }
    ensures cut { IfOk result (λ j. j.complete ≡ false →
        IsCut (plain_file file.now) (plain_program program.now) limit j.setup j.states) }
    ensures few { IfOk result (λ j. j.states ≤ limit) }
    ensures reached { IfOk result (λ j.
        AreReached (plain_file file.now) (plain_program program.now) j.setup j.states) }
{
    if let Some(serial) = observer_within(alloc, specification, Bounds::usual(), FEW_STATES)? {
        return judged_by(alloc, specification, serial, file, program, limit);
    }
    if let Some(cut) = cut_short(alloc, file, program, limit)? {
        return Ok(cut);
    }
    let serial = serial_observer(alloc, specification, Bounds::usual())?;
    judged_by(alloc, specification, serial, file, program, limit)
}
