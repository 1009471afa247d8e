// What each command answers on the parts of an input, or that there are more parts or fewer than it takes.

ghost use Rattle.std.specs.Prelude.{◌≡◌, map};
ghost use Rattle.ls_commands.specs.Aimed.{AimsTo};
ghost use Rattle.ls_commands.specs.Check.{ChecksTo};
ghost use Rattle.ls_commands.specs.Compiled.{CountsTo, ReplaysTo};
ghost use Rattle.ls_commands.specs.Judged.{JudgesTo};
ghost use Rattle.ls_commands.specs.Lived.{LivesTo, ReplaysLiveTo};
ghost use Rattle.ls_commands.specs.Sampled.{SamplesTo};
ghost use Rattle.ls_commands.specs.Tallied.{TalliesTo, drawing};
ghost use Rattle.ls_commands.specs.Translated.{TranslatesTo};
ghost use Rattle.ls_commands.specs.Viewed.{ViewsTo};
ghost use Rattle.ls_explore.specs.Watching.{GoesOn};
ghost use Rattle.ls_explore_commands.specs.Explored.{ExploresTo};
ghost use Rattle.ls_faults.specs.Given.{GivesText};
ghost use Rattle.ls_items.specs.Cutting.{plain_text};
ghost use Rattle.ls_tool.specs.Output.{EndsOn, Explores, OnOrder, OnThree, OnTwo, Races, Samples, Verdicts, exploring};

use ls_command_line::{Request, Side};
use ls_commands::{
    Sampler, Sampling, View, aim, batch, check, count, judge_batch, live, order, replay,
    replay_live, sample, serial_order, show, translate,
};
use ls_explore::Watch;
use ls_explore_commands::{Exploring, endings, explore, races, verdict};
use ls_faults::fault::ToolFault;
use std::alloc::Global;
use std::sync::Wait;
use std::thread::Threads;

/// A history, and an order of its calls.
pub(crate) fn on_check(alloc: Global, parts: &[&str]) -> Result<String, ToolFault>
    ensures { GivesText (OnTwo ChecksTo (map plain_text parts.now)) result }
{
    match parts {
        [history, order] => check(alloc, history, order),
        _ => Err(ToolFault::WrongParts),
    }
}

/// A history; or a class text, a program of it and a history of the program.
pub(crate) fn on_order(alloc: Global, parts: &[&str]) -> Result<String, ToolFault>
    ensures { GivesText (OnOrder (map plain_text parts.now)) result }
{
    match parts {
        [history] => order(alloc, history),
        [classes, program, history] => serial_order(alloc, classes, program, history),
        _ => Err(ToolFault::WrongParts),
    }
}

/// A class text and a program of it.
pub(crate) fn on_compile(alloc: Global, parts: &[&str]) -> Result<String, ToolFault>
    ensures { GivesText (OnTwo CountsTo (map plain_text parts.now)) result }
{
    match parts {
        [classes, program] => count(alloc, classes, program),
        _ => Err(ToolFault::WrongParts),
    }
}

/// The same, and a schedule.
pub(crate) fn on_replay(alloc: Global, cells: usize, parts: &[&str]) -> Result<String, ToolFault>
    ensures { GivesText (OnThree (ReplaysTo cells) (map plain_text parts.now)) result }
{
    match parts {
        [classes, program, schedule] => replay(alloc, cells, classes, program, schedule),
        _ => Err(ToolFault::WrongParts),
    }
}

/// The same with each thread of the program on a thread of its own.
pub(crate) fn on_live_replay<R: Threads + Wait + Sync>(
    rt: &R,
    alloc: Global,
    cells: usize,
    parts: &[&str],
) -> Result<String, ToolFault>
    ensures { GivesText (OnThree (ReplaysLiveTo cells) (map plain_text parts.now)) result }
{
    match parts {
        [classes, program, schedule] => replay_live(rt, alloc, cells, classes, program, schedule),
        _ => Err(ToolFault::WrongParts),
    }
}

/// A class text, a program of it and a schedule.
pub(crate) fn on_view(alloc: Global, view: View, parts: &[&str]) -> Result<String, ToolFault>
    ensures { GivesText (OnThree (ViewsTo view) (map plain_text parts.now)) result }
{
    match parts {
        [classes, program, schedule] => show(alloc, view, classes, program, schedule),
        _ => Err(ToolFault::WrongParts),
    }
}

/// A class text, a program of it and targets.
pub(crate) fn on_aim(alloc: Global, parts: &[&str]) -> Result<String, ToolFault>
    ensures { GivesText (OnThree AimsTo (map plain_text parts.now)) result }
{
    match parts {
        [classes, program, targets] => aim(alloc, classes, program, targets),
        _ => Err(ToolFault::WrongParts),
    }
}

/// A class text, a program of it and a schedule.
pub(crate) fn on_translate(
    alloc: Global,
    to: Side,
    cells: usize,
    parts: &[&str],
) -> Result<String, ToolFault>
    ensures { GivesText (OnThree (TranslatesTo to cells) (map plain_text parts.now)) result }
{
    match parts {
        [classes, program, schedule] => translate(alloc, to, cells, classes, program, schedule),
        _ => Err(ToolFault::WrongParts),
    }
}

/// A class text and a program of it.
pub(crate) fn on_live<R: Threads + Wait + Sync>(
    rt: &R,
    alloc: Global,
    cells: usize,
    limit: usize,
    parts: &[&str],
) -> Result<String, ToolFault>
    ensures { GivesText (OnTwo (LivesTo cells limit) (map plain_text parts.now)) result }
{
    match parts {
        [classes, program] => live(rt, alloc, cells, limit, classes, program),
        _ => Err(ToolFault::WrongParts),
    }
}

/// A class text and a program of it.
fn on_batch<R: Threads + Sync>(
    rt: &R,
    alloc: Global,
    sampling: Sampling,
    cells: usize,
    parts: &[&str],
) -> Result<String, ToolFault>
    ensures { GivesText (OnTwo (TalliesTo cells sampling) (map plain_text parts.now)) result }
{
    match parts {
        [classes, program] => batch(rt, alloc, sampling, cells, classes, program),
        _ => Err(ToolFault::WrongParts),
    }
}

/// The same with what there is to say of each history.
fn on_judged_batch<R: Threads + Sync>(
    rt: &R,
    alloc: Global,
    sampling: Sampling,
    cells: usize,
    parts: &[&str],
) -> Result<String, ToolFault>
    ensures { GivesText (OnTwo (JudgesTo cells sampling) (map plain_text parts.now)) result }
{
    match parts {
        [classes, program] => judge_batch(rt, alloc, sampling, cells, classes, program),
        _ => Err(ToolFault::WrongParts),
    }
}

/// A class text and a program of it.
fn on_sample(
    alloc: Global,
    cells: usize,
    seed: u64,
    drawing: Sampler,
    parts: &[&str],
) -> Result<String, ToolFault>
    ensures { GivesText (OnTwo (SamplesTo cells seed drawing) (map plain_text parts.now)) result }
{
    match parts {
        [classes, program] => sample(alloc, cells, seed, drawing, classes, program),
        _ => Err(ToolFault::WrongParts),
    }
}

/// So many steps, each of which draws a thread by chance 1 in a number.
pub(crate) fn drawing_of(steps: u64, switch: u64) -> Sampler
    ensures { result ≡ drawing steps switch }
{
    Sampler {
        steps: steps as usize,
        switch,
    }
}

/// What a command that draws schedules by seeds answers.
pub(crate) fn on_samples<R: Threads + Sync>(
    rt: &R,
    alloc: Global,
    request: Request,
    parts: &[&str],
) -> Result<String, ToolFault>
    ensures { GivesText (Samples request (map plain_text parts.now)) result }
{
    match request {
        Request::Batch {
            seed,
            count,
            steps,
            switch,
            cells,
            judge,
        } => {
            let sampling = Sampling {
                first: seed,
                count: count as usize,
                drawing: drawing_of(steps, switch),
            };
            if judge {
                return on_judged_batch(rt, alloc, sampling, cells as usize, parts);
            }
            on_batch(rt, alloc, sampling, cells as usize, parts)
        }
        Request::Sample {
            seed,
            steps,
            switch,
            cells,
        } => {
            let drawing = drawing_of(steps, switch);
            on_sample(alloc, cells as usize, seed, drawing, parts)
        }
        _ => Err(ToolFault::WrongParts),
    }
}

/// So many cells, if a number of them is given.
fn cells_of(cells: Option<u64>) -> Option<usize>
    ensures { result ≡ cells }
{
    match cells {
        None => None,
        Some(count) => Some(count as usize),
    }
}

/// What is asked of an exploration.
pub(crate) fn exploring_of(
    cells: Option<u64>,
    states: u64,
    illegal: bool,
    first: bool,
    order: bool,
) -> Exploring
    ensures { result ≡ exploring cells states illegal first order }
{
    Exploring {
        cells: cells_of(cells),
        states: states as usize,
        illegal,
        first,
        order,
    }
}

/// A class text and a program of it.
fn on_explore<W: Watch>(
    alloc: Global,
    exploring: Exploring,
    parts: &[&str],
    watch: &mut W,
) -> Result<String, ToolFault>
    ensures gives { GivesText (OnTwo (ExploresTo exploring) (map plain_text parts.now)) result }
    ensures watched { GoesOn W.Since watch.old watch.new }
{
    match parts {
        [classes, program] => explore(alloc, exploring, classes, program, watch),
        _ => Err(ToolFault::WrongParts),
    }
}

/// A class text and a program of it, if no option is given that goes with the histories alone.
fn on_verdict(
    alloc: Global,
    states: usize,
    mixed: bool,
    parts: &[&str],
) -> Result<String, ToolFault>
    ensures { GivesText (OnTwo (Verdicts mixed states) (map plain_text parts.now)) result }
{
    match parts {
        [classes, program] => {
            if mixed {
                return Err(ToolFault::BadOptions);
            }
            verdict(alloc, states, classes, program)
        }
        _ => Err(ToolFault::WrongParts),
    }
}

/// A class text and a program of it, if no option is given that goes with the histories or with a wrong run.
fn on_races(alloc: Global, states: usize, mixed: bool, parts: &[&str]) -> Result<String, ToolFault>
    ensures { GivesText (OnTwo (Races mixed states) (map plain_text parts.now)) result }
{
    match parts {
        [classes, program] => {
            if mixed {
                return Err(ToolFault::BadOptions);
            }
            races(alloc, states, classes, program)
        }
        _ => Err(ToolFault::WrongParts),
    }
}

/// A class text and a program of it, if no option is given that goes with the histories, with a wrong run or with a
/// data race.
fn on_ends(
    alloc: Global,
    states: usize,
    mixed: bool,
    again: bool,
    parts: &[&str],
) -> Result<String, ToolFault>
    ensures { GivesText (OnTwo (EndsOn mixed again states) (map plain_text parts.now)) result }
{
    match parts {
        [classes, program] => {
            if mixed {
                return Err(ToolFault::BadOptions);
            }
            endings(alloc, states, again, classes, program)
        }
        _ => Err(ToolFault::WrongParts),
    }
}

/// What a command that goes through all schedules answers.
pub(crate) fn on_schedules<W: Watch>(
    alloc: Global,
    request: Request,
    parts: &[&str],
    watch: &mut W,
) -> Result<String, ToolFault>
    ensures gives { GivesText (Explores request (map plain_text parts.now)) result }
    ensures watched { GoesOn W.Since watch.old watch.new }
{
    match request {
        Request::Explore {
            cells,
            states,
            illegal,
            first,
            order,
            progress: _,
        } => {
            let exploring = exploring_of(cells, states, illegal, first, order);
            on_explore(alloc, exploring, parts, watch)
        }
        Request::Verdict { states, mixed } => on_verdict(alloc, states as usize, mixed, parts),
        Request::Races { states, mixed } => on_races(alloc, states as usize, mixed, parts),
        Request::Ends {
            states,
            mixed,
            again,
        } => on_ends(alloc, states as usize, mixed, again, parts),
        _ => Err(ToolFault::WrongParts),
    }
}
