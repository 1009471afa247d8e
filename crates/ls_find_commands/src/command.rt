// The command `find`.

ghost use Rattle.std.specs.Prelude.{◌≡◌, ◌+◌, ◌-◌, ◌<◌, ◌≤◌, ◌^◌, ◌↔◌, IfSome, IsTrue, false, length, min, true};
ghost use Rattle.std.specs.Prelude.{◌++◌, IfOk, option_map, string_bytes};
ghost use Rattle.ls_explore.specs.Watching.{GoesOn};
ghost use Rattle.ls_explore.specs.Faults.{AreBadStates};
ghost use Rattle.ls_families.specs.Families.{plans};
ghost use Rattle.ls_faults.specs.Given.{GivesText};
ghost use Rattle.ls_items.specs.Cutting.{plain_text};
ghost use Rattle.ls_find_commands.specs.Found.{FindsIn, FindsTo, IsAskedBeside, IsBadRange, PrintsTo};
ghost use Rattle.ls_find_commands.specs.Found.{answer_beside, why_answer};

use crate::among::{Asked, Outcome, found_among};
use crate::besides::{Beside, said_beside};
use crate::giving::wanted_of;
use crate::menus::{Texts, programs_for};
use crate::noting::searched;
use crate::racing::told_finding;
use crate::whole::{are_all_numbers, at_once};
use ls_class_programs::Choosing;
use ls_explore::{ExploreFault, MOST_STATES, Watch};
use ls_families::print_plan;
use ls_family_search::{Finding, Halted, Numbers, Programs};
use ls_faults::fault::ToolFault;
use ls_find::{Explorer, Sought, Why};
use ls_find_races::RaceExplorer;
use ls_find_reports::{Figures, Shown, figures_of, print_found, print_none};
use ls_specified::SpecificationFault;
use std::alloc::{AllocError, Global};
use std::thread::Threads;

/// The numbers of the programs that are looked through, and what is looked for.
#[derive(Copy)]
pub struct Range {
    /// How many states of each are kept at the most.
    pub states: usize,
    /// What is looked for.
    pub sought: Sought,
    /// Whether calls are looked for too that throw, wait for ever or never end when calls run one at a time.
    pub strict: bool,
    /// Whether data races are looked for, and nothing else.
    pub races: bool,
    /// The first number and the last, from 1.
    pub from: u64,
    pub to: u64,
}

impl Clone for Range {
    fn clone(&self) -> Result<Range, AllocError> {
        Ok(*self)
    }
}

/// Whether no states may be kept, or too many.
fn are_bad_states(states: usize) -> bool
    ensures { IsTrue result ↔ AreBadStates states }
{
    states == 0 || states > MOST_STATES
}

/// Whether there is no program of the first number, or the last comes before it.
fn is_bad_range(range: Range, count: u64) -> bool
    ensures bad { IsTrue result ↔ IsBadRange range count }
    ensures good { result ≡ false → (0 < range.from) × (range.from ≤ range.to) × (range.from ≤ count) }
{
    range.from == 0 || range.to < range.from || range.from > count
}

/// A program's text, below a line if there is one.
fn noted_program(note: String, program: &str) -> Result<String, AllocError>
    ensures { IfOk result (λ text. string_bytes text ≡ string_bytes note ++ program.now) }
{
    let mut text = note;
    text.push_str(program)?;
    Ok(text)
}

/// The text of a program of a number with which the search ends.
fn why_text(
    alloc: Global,
    figures: Figures,
    number: u64,
    program: &str,
    why: Why,
) -> Result<String, ToolFault>
    ensures { GivesText (λ answer. answer ≡ why_answer figures number program.now why) result }
{
    match why {
        Why::Bad {
            why,
            note,
            schedule,
        } => {
            let noted = noted_program(note, program)?;
            let shown = Shown {
                number,
                reason: why.as_str(),
                program: noted.as_str(),
                schedule: schedule.as_str(),
            };
            let text = print_found(alloc, figures, shown)?;
            Ok(text)
        }
        Why::NotCompiled(fault) => Err(ToolFault::from(fault)),
        Why::NotSpecified(fault) => Err(ToolFault::from(SpecificationFault::NotCompiled(fault))),
    }
}

/// The text of what is found of the numbers after so many, up to one, of so many in all. With it comes what is said
/// beside `none`.
fn finding_text(
    alloc: Global,
    before: u64,
    to: u64,
    count: u64,
    finding: Finding<Why>,
    beside: &str,
) -> Result<String, ToolFault>
    requires first { before + 1 < 2 ^ 64 }
    requires last { before + length finding.passed.items < 2 ^ 64 }
    requires next { IfSome finding.halted (λ h. before + length finding.passed.items + 1 < 2 ^ 64) }
    ensures { GivesText (λ answer. answer ≡ answer_beside before to count finding.passed.items finding.halted
        beside.now) result }
{
    let Finding { passed, halted } = finding;
    let figures = figures_of(before, to, count, passed.as_slice());
    match halted {
        Some(Halted { program, halt }) => {
            let number = before + passed.len() as u64 + 1;
            why_text(alloc, figures, number, program.as_str(), halt)
        }
        None => {
            let mut text = print_none(alloc, figures)?;
            text.push_str(beside)?;
            Ok(text)
        }
    }
}

/// The numbers of a range that has some, among so many: from the one after the first number on.
fn numbers_of(range: Range, count: u64) -> Numbers
    requires { ¬ IsBadRange range count }
    ensures from { result.from ≡ range.from - 1 }
    ensures to { result.to ≡ min range.to count }
    ensures order { result.from ≤ result.to }
    ensures there { result.to ≤ count }
{
    Numbers {
        from: range.from - 1,
        to: range.to.min(count),
    }
}

/// Whether more is said beside `none`: where none is found, and no range is asked for.
fn is_asked_beside(range: Range, finding: &Finding<Why>) -> bool
    ensures { IsAskedBeside range finding.now.halted result }
{
    match &finding.halted {
        Some(_) => false,
        None => are_all_numbers(range),
    }
}

/// What is found among programs of a class text, and what is said beside `none`.
fn found<W: Watch>(
    rt: &(impl Threads + Sync),
    alloc: Global,
    texts: Texts<'_>,
    programs: &Programs<'_>,
    range: Range,
    watch: &mut W,
) -> Result<String, ToolFault>
    requires good { ¬ IsBadRange range (length (plans programs.now.family)) }
    requires all { range.races ≡ false }
    ensures gives { GivesText (FindsIn (option_map plain_text texts.entry.reference) texts.entry.classes.now
        programs.now range) result }
    ensures watched { GoesOn W.Since watch.old watch.new }
{
    let count = programs.family().count();
    let numbers = numbers_of(range, count);
    let Texts { classes, .. } = texts;
    let Range {
        states,
        sought,
        strict,
        ..
    } = range;
    let explorer = Explorer {
        specification: texts.reference,
        classes,
        states,
        sought,
    };
    let asked = Asked {
        explorer: &explorer,
        wanted: wanted_of(alloc, strict, sought.waiting, classes, programs)?,
        programs,
        numbers,
        all: are_all_numbers(range),
    };
    let Outcome {
        finding,
        told,
        free,
    } = found_among(rt, alloc, &asked, watch)?;
    let beside = Beside {
        asked: is_asked_beside(range, &finding),
        races: &RaceExplorer { classes, states },
        from: numbers.from,
        told: told.as_slice(),
        free,
    };
    let said = said_beside(rt, alloc, &beside, programs, watch)?;
    finding_text(
        alloc,
        numbers.from,
        numbers.to,
        count,
        finding,
        said.as_str(),
    )
}

/// What is found of data races among programs of a class text.
fn raced<W: Watch>(
    rt: &(impl Threads + Sync),
    alloc: Global,
    texts: Texts<'_>,
    programs: &Programs<'_>,
    range: Range,
    watch: &mut W,
) -> Result<String, ToolFault>
    requires good { ¬ IsBadRange range (length (plans programs.now.family)) }
    requires alone { range.races ≡ true }
    ensures gives { GivesText (FindsIn (option_map plain_text texts.entry.reference) texts.entry.classes.now
        programs.now range) result }
    ensures watched { GoesOn W.Since watch.old watch.new }
{
    let count = programs.family().count();
    let numbers = numbers_of(range, count);
    let Numbers { from, to } = numbers;
    let races = RaceExplorer {
        classes: texts.classes,
        states: range.states,
    };
    let finding = searched(rt, &races, alloc, programs, numbers, watch)?;
    let shown = told_finding(alloc, finding)?;
    finding_text(alloc, from, to, count, shown, "")
}

/// What is found among programs of a class text: of data races alone, if that is asked.
fn found_in<W: Watch>(
    rt: &(impl Threads + Sync),
    alloc: Global,
    texts: Texts<'_>,
    programs: &Programs<'_>,
    range: Range,
    watch: &mut W,
) -> Result<String, ToolFault>
    ensures gives { GivesText (FindsIn (option_map plain_text texts.entry.reference) texts.entry.classes.now
        programs.now range) result }
    ensures watched { GoesOn W.Since watch.old watch.new }
{
    if is_bad_range(range, programs.family().count()) {
        return Err(ToolFault::BadNumbers);
    }
    if range.races {
        return raced(rt, alloc, texts, programs, range, watch);
    }
    found(rt, alloc, texts, programs, range, watch)
}

/// The first program of a class text, by numbers of a range, that has a history that isn't linearizable; or, if these
/// are looked for, threads that wait or turn for ever, or a history that is illegal as one of a set. Its number and the
/// reason, how the programs before it were passed, its text, and as another part the schedule. Or that there is none. A
/// program that isn't explored whole is counted as cut.
///
/// By a reference, if one is given, its calls, run one at a time, say which histories are right, and which calls end.
///
/// If no range is asked for and no reference is given, each call of the class runs alone, under one lock, and that
/// decides what is looked for, this is said at once, whatever the bounds. It isn't, if calls are looked for that throw
/// or never end when calls run one at a time: then the first program with such a call is found, too.
///
/// Without that, if threads that wait are looked for and no call of the menu may give back a lock that another call has
/// taken, the first program is found in which a call waits for ever when calls run one at a time.
///
/// If no range is asked for and none is found, lines say of calls that run one at a time in how many programs one
/// throws, waits for ever or never ends, and in which first. A last line says of data races what a search for them
/// says: that there is none, or the first program with one and the variable. If data races are looked for, nothing else
/// is: the first program with one is found, and a schedule whose last two steps are the accesses.
///
/// Refused with 61 as `explore` is; else as `programs_for` is; else with 70 if no program has the first number, or the
/// last number comes before it; else as `compile` is for a program.
///
/// Programs are explored side by side. The answer is the one of a single thread.
pub fn find<W: Watch>(
    rt: &(impl Threads + Sync),
    alloc: Global,
    choosing: Choosing,
    range: Range,
    texts: Texts<'_>,
    watch: &mut W,
) -> Result<String, ToolFault>
    ensures gives { GivesText (FindsTo choosing range (option_map plain_text texts.entry.reference)
        texts.entry.classes.now (option_map plain_text texts.entry.menu)) result }
    ensures watched { GoesOn W.Since watch.old watch.new }
{
    if are_bad_states(range.states) {
        return Err(ToolFault::Explore(ExploreFault::BadStates));
    }
    if let Some(text) = at_once(alloc, choosing, range, texts)? {
        return Ok(text);
    }
    let made = programs_for(alloc, choosing, texts)?;
    let programs = made.programs();
    found_in(rt, alloc, texts, &programs, range, watch)
}

/// The text of the program of a number, from 1, of a class text.
///
/// Refused as `programs_for` is; else with 70 if no program has the number.
pub fn print_program(
    alloc: Global,
    choosing: Choosing,
    number: u64,
    texts: Texts<'_>,
) -> Result<String, ToolFault>
    ensures { GivesText (PrintsTo choosing number (option_map plain_text texts.entry.reference)
        texts.entry.classes.now (option_map plain_text texts.entry.menu)) result }
{
    let made = programs_for(alloc, choosing, texts)?;
    let programs = made.programs();
    if number == 0 {
        return Err(ToolFault::BadNumbers);
    }
    match programs.family().plan(alloc, number - 1)? {
        Some(plan) => Ok(print_plan(alloc, programs.menu(), &plan)?),
        None => Err(ToolFault::BadNumbers),
    }
}
