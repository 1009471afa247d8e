// What commands answer by a reference, which is the last part.

ghost use Rattle.std.specs.Prelude.{◌≡◌, map};
ghost use Rattle.ls_commands.specs.Likeness.{OrdersLike};
ghost use Rattle.ls_explore.specs.Watching.{GoesOn};
ghost use Rattle.ls_explore_commands.specs.Likeness.{ExploresLike};
ghost use Rattle.ls_faults.specs.Given.{GivesText};
ghost use Rattle.ls_items.specs.Cutting.{plain_text};
ghost use Rattle.ls_tool.specs.Output.{BatchesLike, OnFour, OnThree, VerdictsBy};

use ls_commands::{JudgingTexts, Sampling, judge_batch_like, serial_order_like};
use ls_explore::Watch;
use ls_explore_commands::{Exploring, explore_like, verdict_like};
use ls_faults::fault::ToolFault;
use std::alloc::Global;
use std::thread::Threads;

/// A class text, a program of it, a history of the program, and a reference.
pub(crate) fn on_order_like(alloc: Global, parts: &[&str]) -> Result<String, ToolFault>
    ensures { GivesText (OnFour (λ classes program history reference. OrdersLike reference classes program history)
        (map plain_text parts.now)) result }
{
    match parts {
        [classes, program, history, reference] => {
            serial_order_like(alloc, reference, classes, program, history)
        }
        _ => Err(ToolFault::WrongParts),
    }
}

/// A class text, a program of it, and a reference.
pub(crate) fn on_explore_like<W: Watch>(
    alloc: Global,
    exploring: Exploring,
    parts: &[&str],
    watch: &mut W,
) -> Result<String, ToolFault>
    ensures gives { GivesText (OnThree (λ classes program reference. ExploresLike exploring reference classes program)
        (map plain_text parts.now)) result }
    ensures watched { GoesOn W.Since watch.old watch.new }
{
    match parts {
        [classes, program, reference] => {
            explore_like(alloc, exploring, reference, classes, program, watch)
        }
        _ => Err(ToolFault::WrongParts),
    }
}

/// The same, if no option is given that goes with the histories alone.
pub(crate) fn on_verdict_like(
    alloc: Global,
    states: usize,
    mixed: bool,
    parts: &[&str],
) -> Result<String, ToolFault>
    ensures { GivesText (OnThree (VerdictsBy mixed states) (map plain_text parts.now)) result }
{
    match parts {
        [classes, program, reference] => {
            if mixed {
                return Err(ToolFault::BadOptions);
            }
            verdict_like(alloc, states, reference, classes, program)
        }
        _ => Err(ToolFault::WrongParts),
    }
}

/// The same, if histories are judged.
pub(crate) fn on_batch_like<R: Threads + Sync>(
    rt: &R,
    alloc: Global,
    sampling: Sampling,
    judge: bool,
    cells: usize,
    parts: &[&str],
) -> Result<String, ToolFault>
    ensures { GivesText (OnThree (BatchesLike judge cells sampling) (map plain_text parts.now)) result }
{
    match parts {
        [classes, program, reference] => {
            if !judge {
                return Err(ToolFault::BadOptions);
            }
            let texts = JudgingTexts {
                reference,
                classes,
                program,
            };
            judge_batch_like(rt, alloc, sampling, cells, texts)
        }
        _ => Err(ToolFault::WrongParts),
    }
}
