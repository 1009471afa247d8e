// What `explore --ends` says.

ghost use Rattle.std.specs.Prelude.{◌≡◌, ◌++◌, IfOk, false, length, string_bytes};
ghost use Rattle.ls_checked.specs.PlainProgram.{plain_program};
ghost use Rattle.ls_end_reports.specs.Words.{calls_text};
ghost use Rattle.ls_faults.specs.Given.{GivesText};
ghost use Rattle.ls_progress.specs.Ends.{AreEndsFrom, AreEndsOf, calls_of, keys};
ghost use Rattle.ls_progress.specs.Roots.{root_of};
ghost use Rattle.ls_translation.specs.Texts.{file_of, program_of};
ghost use Rattle.ls_explore_commands.specs.Endings.{Ended, EndsTo};
ghost use Rattle.ls_explore_commands.specs.Reports.{last_text};

use crate::deciding::are_bad_states;
use crate::reporting::{Extent, push_last};
use ls_checked::program::Program;
use ls_compiler::compile;
use ls_end_reports::{CallText, print_calls, written_calls};
use ls_explore::ExploreFault;
use ls_faults::fault::ToolFault;
use ls_image::image::Image;
use ls_progress::{Ends, Scope, ends_of};
use std::alloc::{AllocError, Global};

/// Whether the calls of an image's program end, where at most so many states are kept.
fn ends_in(alloc: Global, image: &Image, states: usize, again: bool) -> Result<Ends, AllocError>
    ensures ends { IfOk result (λ e. AreEndsFrom (file_of image.now) (length (program_of image.now).threads)
        (root_of again (file_of image.now) (program_of image.now)) e.calls.items) }
    ensures once { IfOk result (λ e. again ≡ false →
        AreEndsOf (file_of image.now) (program_of image.now) e.calls.items) }
    ensures listed { IfOk result (λ e. keys e.calls.items ≡ calls_of (program_of image.now).threads) }
{
    let ends = ends_of(Scope {
        alloc,
        file: image.checked().file(),
        program: image.program(),
        limit: states,
        again,
    })?;
    Ok(ends)
}

/// The lines of a program's calls, and how many states were kept.
fn print_ends(
    alloc: Global,
    program: &Program,
    texts: &[CallText],
    extent: Extent,
) -> Result<String, AllocError>
    ensures { IfOk result (λ text. string_bytes text ≡
        calls_text (plain_program program.now) texts.now ++
        last_text extent.limit extent.states extent.complete) }
{
    let mut out = print_calls(alloc, program, texts)?;
    push_last(&mut out, extent)?;
    Ok(out)
}

/// The text of whether the calls of an image's program end.
fn ended(alloc: Global, image: &Image, states: usize, again: bool) -> Result<String, ToolFault>
    ensures { GivesText (Ended image.now again states) result }
{
    if are_bad_states(states) {
        return Err(ToolFault::Explore(ExploreFault::BadStates));
    }
    let ends = ends_in(alloc, image, states, again)?;
    let texts = written_calls(alloc, &ends.calls, image.program())?;
    let extent = Extent {
        limit: states,
        states: ends.states,
        complete: ends.complete,
    };
    let text = print_ends(alloc, image.program(), &texts, extent)?;
    Ok(text)
}

/// Of each call of the compiled program but those of the setup: whether it ends, over all schedules of source steps,
/// where at most so many states are kept. A call that ends has a bound on its own steps. One that may not end has a
/// schedule that goes round. It is told of the program as it stands, or where threads begin their calls again when they
/// have ended. Refused as `compile` is; else with 61 if no states may be kept, or more than 16,777,216.
pub fn endings(
    alloc: Global,
    states: usize,
    again: bool,
    classes: &str,
    program: &str,
) -> Result<String, ToolFault>
    ensures { GivesText (EndsTo again states classes.now program.now) result }
{
    let image = compile(alloc, classes, program)?;
    ended(alloc, &image, states, again)
}
