// A schedule after which threads turn for ever.

ghost use Rattle.std.specs.Prelude.{◌≡◌, [], IfOk, IfSome, OnOk};
ghost use Rattle.ls_checked.specs.Plain.{plain_file};
ghost use Rattle.ls_checked.specs.PlainProgram.{plain_program};
ghost use Rattle.ls_transitions.specs.Seen.{table_of};
ghost use Rattle.ls_transitions.specs.Tables.{Grows};
ghost use Rattle.ls_spinning.specs.States.{IsLed};
ghost use Rattle.ls_spinning.specs.Told.{IsTurning};
ghost use Rattle.ls_spinning.specs.Turning.{NeverTurns};
ghost use Rattle.ls_spinning.specs.declared.finding.Candidate.TheVariants.{Nothing};

use crate::confirming::are_turning;
use crate::leading::{first_turning, path_to};
use crate::mute::Mute;
use crate::sounding::loud_of;
use crate::states::{Led, Scope, led_from};
use ls_checked::program::Program;
use ls_checked::tree::File;
use ls_events::schedule::{MOST_STEPS, Schedule};
use ls_graph::closing::is_whole;
use ls_renaming::constants::file_has_constants;
use std::alloc::{AllocError, Global};

/// The most steps that are taken at once.
const MOST: usize = 4096;

/// Whether threads can turn for ever.
#[derive(Drop)]
pub enum Turning {
    /// After no schedule.
    Never,
    /// After this one.
    After(Schedule),
    /// It isn't known.
    Unknown,
}

/// Steps that may lead to where threads turn for ever.
#[derive(Drop)]
enum Candidate {
    /// There are none.
    Nothing,
    Steps(Vec<u8>),
    /// There would be too many states.
    Cut,
}

/// The graph of a program's states, but for names of objects, where turns and enterings are taken at once. None where a
/// constant of the file names an object, which none does of a file that was read. A refusal is that memory ran out, or
/// that a store, a work or a state has no number left.
pub fn states_of<'a>(mute: &'a Mute, scope: Scope<'a>) -> Result<Option<Led<'a>>, AllocError>
    ensures { IfOk result (λ o. IfSome o
        (IsLed (plain_file scope.entry.file.now) (plain_program scope.entry.program.now) [])) }
{
    if !file_has_constants(scope.file) {
        return Ok(None);
    }
    let led = led_from(mute, scope, &[], MOST)?;
    Ok(Some(led))
}

/// Looks in the graph of a program's states for steps that may lead to where threads turn for ever.
fn candidate_in<'a>(scope: Scope<'_>, led: &mut Led<'a>) -> Result<Candidate, AllocError>
    requires { IsLed (plain_file scope.file.now) (plain_program scope.program.now) [] led.old }
    ensures nothing { IfOk result (λ found. found ≡ Nothing →
        NeverTurns (plain_file scope.entry.file.now) (plain_program scope.entry.program.now)) }
    ensures closing { OnOk result (led.new.closing ≡ led.old.closing) }
    ensures grows { OnOk result
        (Grows (table_of led.old.tables.transitions) (table_of led.new.tables.transitions)) }
{
    if !is_whole(&led.closing) {
        return Ok(Candidate::Cut);
    }
    let loud = loud_of(scope.alloc, &mut led.tables.transitions, &led.closing.graph)?;
    match first_turning(&led.closing.graph, loud)? {
        None => Ok(Candidate::Nothing),
        Some(at) => {
            let steps = path_to(scope.alloc, &led.closing.graph, at)?;
            Ok(Candidate::Steps(steps))
        }
    }
}

/// Whether threads turn for ever after these steps, if it is known.
fn confirmed(scope: Scope<'_>, steps: Vec<u8>) -> Result<Turning, AllocError>
    ensures { IfOk result
        (IsTurning (plain_file scope.entry.file.now) (plain_program scope.entry.program.now)) }
{
    if steps.len() > MOST_STEPS || !are_turning(scope, &steps)? {
        return Ok(Turning::Unknown);
    }
    Ok(Turning::After(Schedule::of(steps)))
}

/// What the graph of a program's states tells of threads that turn for ever. It isn't known where the graph isn't
/// whole, and where the schedule would have over 1,000,000 steps. Of the graph nothing changes but that more numbers
/// are given. A refusal is that memory ran out, or that a store, a work or a state has no number left.
pub fn turning_in<'a>(scope: Scope<'_>, led: &mut Led<'a>) -> Result<Turning, AllocError>
    requires { IsLed (plain_file scope.file.now) (plain_program scope.program.now) [] led.old }
    ensures turning { IfOk result
        (IsTurning (plain_file scope.entry.file.now) (plain_program scope.entry.program.now)) }
    ensures closing { OnOk result (led.new.closing ≡ led.old.closing) }
    ensures grows { OnOk result
        (Grows (table_of led.old.tables.transitions) (table_of led.new.tables.transitions)) }
{
    match candidate_in(scope, led)? {
        Candidate::Nothing => Ok(Turning::Never),
        Candidate::Cut => Ok(Turning::Unknown),
        Candidate::Steps(steps) => confirmed(scope, steps),
    }
}

/// Whether threads of a program can turn for ever, and a schedule after which they do: one of the fewest steps. It
/// isn't known where more states would be needed than this limit, or where these have over 4,194,304 objects together.
/// Nor is it where the schedule would have over 1,000,000 steps, and where a constant of the file names an object,
/// which none does of a file that was read. A refusal is that memory ran out, or that a store, a work or a state has no
/// number left.
pub fn find_turning(
    alloc: Global,
    file: &File,
    program: &Program,
    limit: usize,
) -> Result<Turning, AllocError>
    ensures { IfOk result (IsTurning (plain_file file.now) (plain_program program.now)) }
{
    let scope = Scope {
        alloc,
        file,
        program,
        limit,
    };
    let mute = Mute;
    let Some(led) = states_of(&mute, scope)? else {
        return Ok(Turning::Unknown);
    };
    let mut led = led;
    turning_in(scope, &mut led)
}
