// The schedule of a text with targets.

ghost use Rattle.std.specs.Prelude.{◌≡◌, ◌<◌, ◌≤◌, ◌+◌, length};
ghost use Rattle.ls_labels.specs.Names.{names_of};
ghost use Rattle.ls_aim.specs.Aims.{aimed, followed, gone, gone_to, room_after, taken};
ghost use Rattle.ls_aim.specs.Answers.{Gives};
ghost use Rattle.ls_aim.specs.Reading.{stop_of, target_of};
ghost use Rattle.ls_aim.specs.Seen.{RunsNamed, names_in, run_in};

use crate::fault::AimFault;
use crate::items::read_steps;
use crate::reading::{Target, mark_of, read_target};
use crate::runner::{Runner, Sight};
use crate::texts::{item_len, start_of};
use ls_events::schedule::Schedule;
use ls_labels::names::Names;
use ls_schedule::fault::ScheduleFault;
use std::alloc::Global;

// Adds the steps of a target's thread until it stops. The run is that of the steps so far.
fn go_to(
    alloc: Global,
    runner: &mut Runner,
    at: usize,
    target: Target,
    steps: &mut Schedule,
) -> Result<(), AimFault>
    requires { RunsNamed runner.old }
    ensures { Gives (λ u. steps.new) result
        (gone_to (names_in runner.old) at target.entry.thread (run_in runner.old) (stop_of target.entry.stop) steps.old
        (room_after steps.old)) }
{
    steps.fits();
    let mut stop = target.stop;
    'walk: loop {
        match runner.sight(alloc, at, target.thread as usize, stop)? {
            Sight::Arrived => return Ok(()),
            Sight::Missed(fault) => return Err(fault),
            Sight::GoesOn(still) => {
                if steps.is_full() {
                    return Err(AimFault::TooFar { at });
                }
                steps.push(target.thread)?;
                stop = still;
            }
        }
    }
}

// Adds the steps of a target.
fn go(
    alloc: Global,
    names: Names,
    at: usize,
    target: Target,
    steps: &mut Schedule,
) -> Result<(), AimFault>
    ensures { Gives (λ u. steps.new) result (gone (names_of names.entry) at steps.old (target_of target.entry)) }
{
    let mut runner = Runner::after(alloc, names, steps.steps())?;
    go_to(alloc, &mut runner, at, target, steps)
}

// Adds these steps.
fn follow(steps: &mut Schedule, more: &[u8]) -> Result<(), AimFault>
    ensures { Gives (λ u. steps.new) result (followed steps.old more.now) }
{
    steps.fits();
    for thread in more {
        if steps.is_full() {
            return Err(AimFault::Schedule(ScheduleFault::TooManySteps));
        }
        steps.push(*thread)?;
    }
    Ok(())
}

// Adds the steps of an item: of a target, or of an item or a group of schedules.
fn take(
    alloc: Global,
    names: Names,
    at: usize,
    item: &[u8],
    steps: &mut Schedule,
) -> Result<(), AimFault>
    requires { at + length item.now ≤ usize.MAX }
    ensures { Gives (λ u. steps.new) result (taken (names_of names.entry) steps.old (at, item.now)) }
{
    match mark_of(item) {
        Some(mark) => {
            let target = read_target(at, item, mark, names.program.threads.as_slice())?;
            go(alloc, names, at, target, steps)
        }
        None => {
            let more = read_steps(alloc, at, item, names.program)?;
            follow(steps, more.steps())
        }
    }
}

/// The schedule of a text with targets. Its items stand between gaps: items and groups of schedules, and targets. A
/// target `A!` takes the fewest steps of thread A after which a step of it would change nothing, because it has ended
/// or waits. A target `A:TEXT` takes the fewest after which the label of the next step has the text, and `A:2:TEXT`
/// those to the second such step. The label is what the step's line in a trace has after its number and its thread.
///
/// Refused with the first item of the text that can't be taken.
pub fn aim(alloc: Global, names: Names, targets: &str) -> Result<Schedule, AimFault>
    ensures { Gives (λ s. s) result (aimed (names_of names.entry) targets.now) }
{
    let text = targets.as_bytes();
    let mut steps = Schedule::new(alloc);
    let mut at = start_of(text);
    let mut rest = text.split_at(at).1;
    'items: while !rest.is_empty() {
        let len = item_len(rest);
        if len == 0 {
            rest = rest.split_at(1).1;
            at += 1;
        } else {
            let (item, after) = rest.split_at(len);
            take(alloc, names, at, item, &mut steps)?;
            rest = after;
            at += len;
        }
    }
    Ok(steps)
}
