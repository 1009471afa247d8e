// Data races of the programs of a class: what is found of them, and what is said of them beside `none`.

ghost use Rattle.std.specs.Prelude.{◌≡◌, ◌+◌, ◌<◌, ◌^◌, ℕ, IfOk, List, Some, length, string_bytes};
ghost use Rattle.ls_explore.specs.Watching.{GoesOn};
ghost use Rattle.ls_family_search.specs.declared.judging.Passed.{Passed as PassedValue};
ghost use Rattle.ls_find_reports.specs.declared.figures.Figures.{Figures as FiguresValue};
ghost use Rattle.ls_report.specs.Events.{Text};
ghost use Rattle.ls_find_commands.specs.Found.{AreTold, halted_answer, why_answer};
ghost use Rattle.ls_find_commands.specs.Racing.{IsBeside, beside_text, free_text, race_answer, race_halted_answer};
ghost use Rattle.ls_find_commands.specs.Racing.{race_reason, race_text, raced_text};
ghost use Rattle.ls_find_races.specs.Quiet.{FirstAreFree};

use crate::besides::Beside;
use crate::noting::searched;
use ls_explore::Watch;
use ls_family_search::{Finding, Halted, Numbers, Programs};
use ls_find::Why;
use ls_find_races::{RaceFound, RaceWhy, with_free};
use ls_find_reports::figures_of;
use ls_race_reports::has_try_lock;
use std::alloc::{AllocError, Global};
use std::fmt::Write;
use std::thread::Threads;

/// Why a program with a data race is shown.
fn race_reason(alloc: Global, found: &RaceFound) -> Result<String, AllocError>
    ensures { IfOk result (λ text. string_bytes text ≡ race_reason found.now) }
{
    let mut text = String::from_str(alloc, "data race on ")?;
    text.push_str(found.on.as_str())?;
    text.push_str(found.switches.as_str())?;
    Ok(text)
}

/// Why a search for data races ends, as that of any search.
fn told_of(alloc: Global, why: RaceWhy) -> Result<Why, AllocError>
    ensures { IfOk result (λ told. (f : FiguresValue) (number : ℕ) (program : Text) →
        why_answer f number program told ≡ race_answer f number program why) }
{
    match why {
        RaceWhy::Raced(found) => {
            let why = race_reason(alloc, &found)?;
            Ok(Why::Bad {
                why,
                note: String::new(alloc),
                schedule: found.schedule,
            })
        }
        RaceWhy::NotCompiled(fault) => Ok(Why::NotCompiled(fault)),
    }
}

/// The program with which a search for data races ends, as that of any search.
fn told(alloc: Global, halted: Halted<RaceWhy>) -> Result<Halted<Why>, AllocError>
    ensures { IfOk result (λ told. (before to count : ℕ) (ps : List PassedValue) →
        halted_answer before to count ps (Some told) ≡ race_halted_answer before to count ps (Some halted)) }
{
    let Halted { program, halt } = halted;
    let halt = told_of(alloc, halt)?;
    Ok(Halted { program, halt })
}

/// What a search for data races finds, as that of any search.
pub(crate) fn told_finding(
    alloc: Global,
    finding: Finding<RaceWhy>,
) -> Result<Finding<Why>, AllocError>
    ensures { IfOk result (AreTold finding) }
{
    let Finding { passed, halted } = finding;
    match halted {
        None => Ok(Finding {
            passed,
            halted: None,
        }),
        Some(halted) => {
            let halted = told(alloc, halted)?;
            Ok(Finding {
                passed,
                halted: Some(halted),
            })
        }
    }
}

/// What is said where no race is found: of all programs, or of what was explored where so many are cut.
fn free_words(tries: bool, cut: u64) -> &'static str
    ensures { result.now ≡ free_text tries cut }
{
    ls_race_reports::free_words(cut == 0, tries)
}

/// What is said of the program of a number with this race.
fn raced_words(alloc: Global, number: u64, found: &RaceFound) -> Result<String, AllocError>
    ensures { IfOk result (λ text. string_bytes text ≡ raced_text number found.now) }
{
    let mut place = String::new(alloc);
    write!(place, " in number {number}")?;
    ls_race_reports::raced_words(alloc, found.on.as_str(), place.as_str())
}

/// What is said of the program of a number with which a search for races ends.
fn race_words(alloc: Global, number: u64, why: &RaceWhy) -> Result<String, AllocError>
    ensures { IfOk result (λ text. string_bytes text ≡ race_text number why.now) }
{
    match why {
        RaceWhy::Raced(found) => raced_words(alloc, number, found),
        RaceWhy::NotCompiled(_) => Ok(String::new(alloc)),
    }
}

/// What is said of what a search of all programs for races says.
fn words_of(alloc: Global, tries: bool, finding: &Finding<RaceWhy>) -> Result<String, AllocError>
    requires { length finding.now.passed.items + 1 < 2 ^ 64 }
    ensures { IfOk result (λ text. string_bytes text ≡
        beside_text tries finding.now.passed.items finding.now.halted) }
{
    match &finding.halted {
        Some(halted) => race_words(alloc, finding.passed.len() as u64 + 1, &halted.halt),
        None => {
            let figures = figures_of(0, 0, 0, finding.passed.as_slice());
            String::from_str(alloc, free_words(tries, figures.cut))
        }
    }
}

/// What is said of data races beside `none`, where that is asked: what a search of all programs for them says. Those of
/// the first that are known to have none are passed.
pub(crate) fn races_beside<W: Watch>(
    rt: &(impl Threads + Sync),
    alloc: Global,
    beside: &Beside<'_>,
    programs: &Programs<'_>,
    watch: &mut W,
) -> Result<String, AllocError>
    requires { FirstAreFree beside.now.races.now.classes.now programs.now beside.now.free }
    ensures beside { IfOk result (λ text. IsBeside beside.now.asked beside.now.races.now.states
        beside.now.races.now.classes.now programs.now (string_bytes text)) }
    ensures watched { GoesOn W.Since watch.old watch.new }
{
    if !beside.asked {
        return Ok(String::new(alloc));
    }
    let count = programs.family().count();
    let known = beside.free.min(count);
    let numbers = Numbers {
        from: known,
        to: count,
    };
    let left = searched(rt, beside.races, alloc, programs, numbers, watch)?;
    let finding = with_free(alloc, known, left)?;
    words_of(alloc, has_try_lock(beside.races.classes), &finding)
}
