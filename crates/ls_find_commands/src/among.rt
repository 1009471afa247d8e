// What is found among programs: by a search, and by calls that have a fault when they run one at a time.

ghost use Rattle.std.specs.Prelude.{◌≡◌, ◌+◌, ◌≤◌, IfOk, false, length, min, option_map};
ghost use Rattle.ls_alone.specs.declared.telling.Wanted.TheVariants as kinds;
ghost use Rattle.ls_explore.specs.Watching.{GoesOn};
ghost use Rattle.ls_families.specs.Families.{plans};
ghost use Rattle.ls_find_commands.specs.Faulty.{IsFoundAmong, IsSearchedTo, searched_to};
ghost use Rattle.ls_find_races.specs.Quiet.{FirstAreFree};
ghost use Rattle.ls_find_serial.specs.Told.{AreToldOf};
ghost use Rattle.ls_items.specs.Cutting.{plain_text};

use crate::faulty::{FaultyProgram, ended, first_faulty_program, searched_to};
use crate::looking::{Looked, look_through};
use ls_alone::{Tellings, Wanted};
use ls_explore::Watch;
use ls_family_search::{Finding, Numbers, Programs};
use ls_find::{Explorer, Why};
use ls_find_serial::tell_numbers;
use std::alloc::{AllocError, Global};
use std::thread::Threads;

/// Which programs are looked through, and what is looked for.
#[derive(Drop)]
pub(crate) struct Asked<'a> {
    pub(crate) explorer: &'a Explorer<'a>,
    /// Which faults of calls that run one at a time are looked for.
    pub(crate) wanted: Wanted,
    pub(crate) programs: &'a Programs<'a>,
    pub(crate) numbers: Numbers,
    /// Whether these are the numbers of all programs.
    pub(crate) all: bool,
}

/// What is found among programs.
#[derive(Drop)]
pub(crate) struct Outcome {
    pub(crate) finding: Finding<Why>,
    /// What is told of calls that run one at a time, of each number from the first one on, as far as that was asked.
    pub(crate) told: Vec<Tellings>,
    /// So many of the first programs are known to have no data race.
    pub(crate) free: u64,
}

/// What a search finds up to the program that is found already, if there is one.
fn searched_before<W: Watch>(
    rt: &(impl Threads + Sync),
    alloc: Global,
    asked: &Asked<'_>,
    faulty: Option<FaultyProgram>,
    watch: &mut W,
) -> Result<Looked, AllocError>
    requires order { asked.now.numbers.from ≤ searched_to faulty asked.now.numbers.to }
    requires there { searched_to faulty asked.now.numbers.to ≤ length (plans asked.now.programs.now.family) }
    ensures searched { IfOk result (λ l. IsSearchedTo asked.now.explorer.now.sought asked.now.explorer.now.states
        (option_map plain_text asked.now.explorer.now.specification) asked.now.explorer.now.classes.now
        asked.now.programs.now asked.now.numbers.from asked.now.numbers.to faulty l.finding) }
    ensures free { IfOk result (λ l. FirstAreFree asked.now.explorer.now.classes.now asked.now.programs.now l.free) }
    ensures watched { GoesOn W.Since watch.old watch.new }
{
    let numbers = Numbers {
        from: asked.numbers.from,
        to: searched_to(&faulty, asked.numbers.to),
    };
    let Looked { finding, free } = look_through(rt, alloc, asked, numbers, watch)?;
    Ok(Looked {
        finding: ended(finding, faulty),
        free,
    })
}

/// The number behind those that a search has passed, which are so many.
fn past(passed: usize, numbers: Numbers) -> u64
    requires { numbers.from ≤ numbers.to }
    ensures from { numbers.from ≤ result }
    ensures passed { min (numbers.from + passed) numbers.to ≤ result }
    ensures to { result ≤ numbers.to }
{
    let passed = passed as u64;
    if passed < numbers.to - numbers.from {
        numbers.from + passed
    } else {
        numbers.to
    }
}

/// What is found where calls are asked first that run one at a time: the search goes up to the first program of which
/// one has a fault.
fn asked_first<W: Watch>(
    rt: &(impl Threads + Sync),
    alloc: Global,
    asked: &Asked<'_>,
    watch: &mut W,
) -> Result<Outcome, AllocError>
    requires order { asked.now.numbers.from ≤ asked.now.numbers.to }
    requires there { asked.now.numbers.to ≤ length (plans asked.now.programs.now.family) }
    ensures found { IfOk result (λ l. IsFoundAmong asked.now.wanted asked.now.explorer.now.sought
        asked.now.explorer.now.states (option_map plain_text asked.now.explorer.now.specification)
        asked.now.explorer.now.classes.now asked.now.programs.now asked.now.numbers.from asked.now.numbers.to
        l.finding) }
    ensures told { IfOk result (λ l. AreToldOf asked.now.explorer.now.classes.now asked.now.programs.now
        asked.now.numbers.from (asked.now.numbers.from + length l.told.items) l.told.items) }
    ensures free { IfOk result (λ l. FirstAreFree asked.now.explorer.now.classes.now asked.now.programs.now l.free) }
    ensures watched { GoesOn W.Since watch.old watch.new }
{
    let Asked {
        explorer,
        wanted,
        programs,
        numbers,
        ..
    } = asked;
    let told = tell_numbers(rt, alloc, explorer.classes, programs, *numbers)?;
    let faulty = first_faulty_program(alloc, *wanted, programs, *numbers, told.as_slice())?;
    let Looked { finding, free } = searched_before(rt, alloc, asked, faulty, watch)?;
    Ok(Outcome {
        finding,
        told,
        free,
    })
}

/// What is found where programs are searched first: then calls that run one at a time are asked of those that were
/// passed. If one has a fault, the programs before it are searched once more.
fn searched_first<W: Watch>(
    rt: &(impl Threads + Sync),
    alloc: Global,
    asked: &Asked<'_>,
    watch: &mut W,
) -> Result<Outcome, AllocError>
    requires order { asked.now.numbers.from ≤ asked.now.numbers.to }
    requires there { asked.now.numbers.to ≤ length (plans asked.now.programs.now.family) }
    ensures found { IfOk result (λ l. IsFoundAmong asked.now.wanted asked.now.explorer.now.sought
        asked.now.explorer.now.states (option_map plain_text asked.now.explorer.now.specification)
        asked.now.explorer.now.classes.now asked.now.programs.now asked.now.numbers.from asked.now.numbers.to
        l.finding) }
    ensures told { IfOk result (λ l. AreToldOf asked.now.explorer.now.classes.now asked.now.programs.now
        asked.now.numbers.from (asked.now.numbers.from + length l.told.items) l.told.items) }
    ensures free { IfOk result (λ l. FirstAreFree asked.now.explorer.now.classes.now asked.now.programs.now l.free) }
    ensures watched { GoesOn W.Since watch.old watch.new }
{
    let Asked {
        explorer,
        wanted,
        programs,
        numbers,
        ..
    } = asked;
    let first = searched_before(rt, alloc, asked, None, watch)?;
    let asked_numbers = Numbers {
        from: numbers.from,
        to: past(first.finding.passed.len(), *numbers),
    };
    let told = tell_numbers(rt, alloc, explorer.classes, programs, asked_numbers)?;
    let faulty = first_faulty_program(alloc, *wanted, programs, asked_numbers, told.as_slice())?;
    let Some(found) = faulty else {
        let Looked { finding, free } = first;
        return Ok(Outcome {
            finding,
            told,
            free,
        });
    };
    let Looked { finding, free } = searched_before(rt, alloc, asked, Some(found), watch)?;
    Ok(Outcome {
        finding,
        told,
        free,
    })
}

/// What is found among programs: the first with which a search ends, or of which a call has a fault that is looked for
/// when calls run one at a time. The only refusal is that memory ran out.
///
/// If each fault is looked for, calls that run one at a time are asked first, since many classes have such a call. If
/// only threads that wait are, programs are searched first, since few have one.
pub(crate) fn found_among<W: Watch>(
    rt: &(impl Threads + Sync),
    alloc: Global,
    asked: &Asked<'_>,
    watch: &mut W,
) -> Result<Outcome, AllocError>
    requires order { asked.now.numbers.from ≤ asked.now.numbers.to }
    requires there { asked.now.numbers.to ≤ length (plans asked.now.programs.now.family) }
    ensures found { IfOk result (λ l. IsFoundAmong asked.now.wanted asked.now.explorer.now.sought
        asked.now.explorer.now.states (option_map plain_text asked.now.explorer.now.specification)
        asked.now.explorer.now.classes.now asked.now.programs.now asked.now.numbers.from asked.now.numbers.to
        l.finding) }
    ensures told { IfOk result (λ l. AreToldOf asked.now.explorer.now.classes.now asked.now.programs.now
        asked.now.numbers.from (asked.now.numbers.from + length l.told.items) l.told.items) }
    ensures free { IfOk result (λ l. FirstAreFree asked.now.explorer.now.classes.now asked.now.programs.now l.free) }
    ensures watched { GoesOn W.Since watch.old watch.new }
{
    match asked.wanted {
        Wanted::Nothing => {
            let Looked { finding, free } = searched_before(rt, alloc, asked, None, watch)?;
            Ok(Outcome {
                finding,
                told: Vec::new(alloc),
                free,
            })
        }
        Wanted::Waits => searched_first(rt, alloc, asked, watch),
        Wanted::All => asked_first(rt, alloc, asked, watch),
    }
}
