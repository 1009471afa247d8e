// Windows of numbers, whose programs are judged side by side.

ghost use Rattle.std.specs.Prelude.{◌≡◌, ◌≤◌, ◌-◌, IfOk, false, true};
ghost use Rattle.std.specs.List.{AllZip, range_with_len};
ghost use Rattle.ls_family_search.specs.Judged.{Follows, IsOutcome, StandsFrom, text_of};
ghost use Rattle.ls_family_search.specs.Windows.{IsJoined, IsOutcomeAt};
ghost use Rattle.ls_family_search.specs.declared.judging.Passed.TheVariants.{Double, Good};

use crate::judging::{Halted, Judge, Judgement, Passed, ProgramOutcome};
use crate::programs::{Numbers, Programs};
use ls_families::{Plan, is_double, number_of_other, other_of, print_plan};
use rayon::prelude::*;
use std::alloc::{AllocError, Global};
use std::thread::Threads;

/// Whether a program of this text is a double that is good if the program is that stands before it.
fn follows<J: Judge>(
    judge: &J,
    alloc: Global,
    programs: &Programs<'_>,
    plan: &Plan<'_>,
    program: &str,
) -> Result<bool, AllocError>
    requires { program.now ≡ text_of programs.now plan.now }
    ensures { IfOk result (λ does. does ≡ true → Follows programs.now (J.IsGood judge.now) plan.now) }
{
    if !is_double(programs.menu(), plan) {
        return Ok(false);
    }
    let other = other_of(alloc, plan)?;
    let before = print_plan(alloc, programs.menu(), &other)?;
    judge.follows(alloc, program, before.as_str())
}

/// Whether the program that a plan is with two threads exchanged has a number from the first one of a range up to the
/// plan's own.
fn stands_from(
    alloc: Global,
    programs: &Programs<'_>,
    from: u64,
    number: u64,
    plan: &Plan<'_>,
) -> Result<bool, AllocError>
    ensures { IfOk result (λ does. does ≡ true → StandsFrom programs.now from number plan.now) }
{
    match number_of_other(alloc, programs.family(), number, plan)? {
        Some(other) => Ok(from <= other && other < number),
        None => Ok(false),
    }
}

/// How a good program is passed.
fn good_as(double: bool) -> Passed
    ensures double { double ≡ true → result ≡ Double }
    ensures good { double ≡ false → result ≡ Good }
{
    if double { Passed::Double } else { Passed::Good }
}

/// Whether the search of a range goes on after the program of a number. It does so without a judgement if that is a
/// double that is good if the program is that stands before it, and that one stands in the range.
fn outcome_of<J: Judge>(
    judge: &J,
    alloc: Global,
    programs: &Programs<'_>,
    from: u64,
    number: u64,
    plan: &Plan<'_>,
) -> Result<ProgramOutcome<J::Why>, AllocError>
    ensures { IfOk result (IsOutcome programs.now (J.IsGood judge.now) (J.IsCut judge.now) (J.Halts judge.now)
        from number plan.now) }
{
    let program = print_plan(alloc, programs.menu(), plan)?;
    let double = follows(judge, alloc, programs, plan, program.as_str())?;
    if double && stands_from(alloc, programs, from, number, plan)? {
        return Ok(ProgramOutcome::Passes(Passed::Double));
    }
    match judge.judge(alloc, program.as_str())? {
        Judgement::Good => Ok(ProgramOutcome::Passes(good_as(double))),
        Judgement::Cut => Ok(ProgramOutcome::Passes(Passed::Cut)),
        Judgement::Halt(halt) => Ok(ProgramOutcome::Ends(Halted { program, halt })),
    }
}

/// Whether the search of a range goes on after the program of a number. It does where there is none.
fn outcome_at<J: Judge>(
    judge: &J,
    alloc: Global,
    programs: &Programs<'_>,
    from: u64,
    number: u64,
) -> Result<ProgramOutcome<J::Why>, AllocError>
    ensures { IfOk result (IsOutcomeAt programs.now (J.IsGood judge.now) (J.IsCut judge.now) (J.Halts judge.now)
        from number) }
{
    match programs.family().plan(alloc, number)? {
        Some(plan) => outcome_of(judge, alloc, programs, from, number, &plan),
        None => Ok(ProgramOutcome::Passes(Passed::Double)),
    }
}

/// What comes of the programs of a window, by as many threads as there are processors: of some numbers of the range
/// that begins with the first number. Each is judged by itself.
pub(crate) fn outcomes_of<J: Judge + Sync>(
    rt: &(impl Threads + Sync),
    judge: &J,
    alloc: Global,
    programs: &Programs<'_>,
    first: u64,
    window: Numbers,
) -> Result<Vec<Result<ProgramOutcome<J::Why>, AllocError>>, AllocError>
    requires { window.from ≤ window.to }
    ensures { IfOk result (λ outcomes. AllZip
        (λ n o. IfOk o (IsOutcomeAt programs.now (J.IsGood judge.now) (J.IsCut judge.now) (J.Halts judge.now) first n))
        (range_with_len window.from (window.to - window.from)) outcomes.items) }
{
    (window.from as usize..window.to as usize)
        .into_par_iter()
        .with_min_len(1)
        .map(
            |number: usize| -> Result<ProgramOutcome<J::Why>, AllocError>
                ensures { IfOk result (IsOutcomeAt programs.entry.now (J.IsGood judge.entry.now)
                    (J.IsCut judge.entry.now) (J.Halts judge.entry.now) first number) }
            { outcome_at(judge, alloc, programs, first, number as u64) },
        )
        .collect(rt, alloc)
}

/// Adds how programs are passed, up to the first with which the search ends. That one is the answer.
pub(crate) fn join<H: Drop>(
    passed: &mut Vec<Passed>,
    outcomes: Vec<Result<ProgramOutcome<H>, AllocError>>,
) -> Result<Option<Halted<H>>, AllocError>
    ensures { IfOk result (IsJoined outcomes.items passed.old.items passed.new.items) }
{
    for outcome in outcomes {
        match outcome? {
            ProgramOutcome::Passes(said) => passed.push(said)?,
            ProgramOutcome::Ends(halted) => return Ok(Some(halted)),
        }
    }
    Ok(None)
}
