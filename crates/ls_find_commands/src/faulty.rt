// Programs in which a call has a fault when calls run one at a time, where such calls are looked for.

ghost use Rattle.std.specs.Prelude.{◌≡◌, ◌-◌, ◌⊎◌, ◌≤◌, IfOk, IfSome, None, length, option_map, slice_get};
ghost use Rattle.std.specs.Prelude.{string_bytes};
ghost use Rattle.ls_alone.specs.Alone.{first_fault};
ghost use Rattle.ls_families.specs.Families.{plans};
ghost use Rattle.ls_find_commands.specs.Faulty.{EndsAs, IsFaultyAt, IsFirstFaulty, IsShown, IsTextAt, faulty_reason};
ghost use Rattle.ls_find_commands.specs.Faulty.{searched_to};
ghost use Rattle.ls_find_serial.specs.Told.{AreToldOf};
ghost use Rattle.ls_report.specs.Events.{Text};

use ls_alone::{Fault, Faulty, Tellings, Wanted, wanted_words};
use ls_families::print_plan;
use ls_family_search::{Finding, Halted, Numbers, Programs};
use ls_find::Why;
use ls_find_serial::first_faulty;
use std::alloc::{AllocError, Global};
use std::fmt::Write;

/// A program in which a call has a fault when calls run one at a time.
#[derive(Drop)]
pub struct FaultyProgram {
    /// Its number, from 0.
    pub number: u64,
    /// That with which a search ends there: its text, that call, and a schedule.
    pub halted: Halted<Why>,
}

/// Why a program is shown in which a call has a fault.
fn faulty_reason(
    alloc: Global,
    wanted: Wanted,
    fault: Fault,
    faulty: &Faulty,
) -> Result<String, AllocError>
    ensures { IfOk result (λ text. string_bytes text ≡ faulty_reason wanted (fault, faulty.now)) }
{
    let does = wanted_words(wanted, fault);
    let words = faulty.words.as_str();
    let mut text = String::new(alloc);
    write!(text, "{does}: {words}")?;
    Ok(text)
}

/// What is shown of a call that has a fault.
fn shown(alloc: Global, wanted: Wanted, fault: Fault, faulty: &Faulty) -> Result<Why, AllocError>
    ensures { IfOk result (IsShown wanted (fault, faulty.now)) }
{
    let why = faulty_reason(alloc, wanted, fault, faulty)?;
    let schedule = String::from_str(alloc, faulty.schedule.as_str())?;
    Ok(Why::Bad {
        why,
        note: String::new(alloc),
        schedule,
    })
}

/// The text of the program of a number.
fn text_at(
    alloc: Global,
    programs: &Programs<'_>,
    number: u64,
) -> Result<Option<String>, AllocError>
    ensures some { IfOk result (λ some. IfSome some (λ text. IsTextAt programs.now number (string_bytes text))) }
    ensures none { IfOk result (λ some. some ≡ None → slice_get (plans programs.now.family) number ≡ None) }
{
    match programs.family().plan(alloc, number)? {
        Some(plan) => Ok(Some(print_plan(alloc, programs.menu(), &plan)?)),
        None => Ok(None),
    }
}

/// The program of a number, if a call of it is told to have a fault that is looked for.
fn faulty_at(
    alloc: Global,
    wanted: Wanted,
    programs: &Programs<'_>,
    number: u64,
    told: &Tellings,
) -> Result<Option<FaultyProgram>, AllocError>
    ensures some { IfOk result (λ some. IfSome some (IsFaultyAt wanted programs.now number told.now)) }
    ensures none { IfOk result (λ some. some ≡ None →
        (first_fault wanted told.now ≡ None) ⊎ (slice_get (plans programs.now.family) number ≡ None)) }
{
    let Some((fault, faulty)) = told.first(wanted) else {
        return Ok(None);
    };
    let Some(program) = text_at(alloc, programs, number)? else {
        return Ok(None);
    };
    let halt = shown(alloc, wanted, fault, faulty)?;
    Ok(Some(FaultyProgram {
        number,
        halted: Halted { program, halt },
    }))
}

/// The first program of these numbers of which a call is told to have a fault that is looked for. What is told of each
/// is given. The only refusal is that memory ran out.
pub(crate) fn first_faulty_program(
    alloc: Global,
    wanted: Wanted,
    programs: &Programs<'_>,
    numbers: Numbers,
    told: &[Tellings],
) -> Result<Option<FaultyProgram>, AllocError>
    requires many { length told.now ≡ numbers.to - numbers.from }
    requires order { numbers.from ≤ numbers.to }
    requires there { numbers.to ≤ length (plans programs.now.family) }
    ensures { IfOk result (λ some. (classes : Text) →
        AreToldOf classes programs.now numbers.from numbers.to told.now →
        IsFirstFaulty wanted classes programs.now numbers.from numbers.to some) }
{
    match first_faulty(wanted, told) {
        Some(at) => faulty_at(alloc, wanted, programs, numbers.from + at as u64, &told[at]),
        None => Ok(None),
    }
}

/// The number up to which is searched: that of the program that is found already, or the last.
pub(crate) fn searched_to(faulty: &Option<FaultyProgram>, to: u64) -> u64
    ensures { result ≡ searched_to faulty.now to }
{
    match faulty {
        Some(faulty) => faulty.number,
        None => to,
    }
}

/// What a search finds; or if it finds none, the program that is found already.
pub(crate) fn ended(finding: Finding<Why>, faulty: Option<FaultyProgram>) -> Finding<Why>
    ensures { EndsAs finding faulty result }
{
    let Finding { passed, halted } = finding;
    match halted {
        Some(halted) => Finding {
            passed,
            halted: Some(halted),
        },
        None => match faulty {
            Some(faulty) => Finding {
                passed,
                halted: Some(faulty.halted),
            },
            None => Finding {
                passed,
                halted: None,
            },
        },
    }
}
