// The first call that throws, that waits or that turns for ever, by what comes of calls in states between them.

ghost use Rattle.std.specs.Prelude.{◌≡◌, ◌+◌, ◌<◌, ◌++◌, ℕ, false, true, IfNone, IfOk, IfSome, OnOk, length};
ghost use Rattle.std.specs.Prelude.{replicate};
ghost use Rattle.ls_checked.specs.CheckedProgram.{Program as ProgramValue};
ghost use Rattle.ls_checked.specs.CheckedTree.{File as FileValue};
ghost use Rattle.ls_checked.specs.PlainProgram.{plain_program};
ghost use Rattle.ls_automaton.specs.declared.fate.Fate.TheVariants as fates;
ghost use Rattle.ls_events.specs.Limits.{most_steps};
ghost use Rattle.ls_serial_faults.specs.Noted.{AreAllNoted, AreNoted, IsNoted, IsNotedThrown, IsTooLong};

use crate::faults::{SerialFaults, Stopped, Thrown};
use ls_automaton::fate::Fate;
use ls_checked::program::Program;
use ls_events::event::{Event, Happening};
use ls_events::schedule::{MOST_STEPS, Schedule};
use ls_together::assign;
use std::alloc::{AllocError, Global};

/// These steps, and so many more of a thread. None if a schedule can't have so many. The only refusal is that memory
/// ran out.
fn longer(
    alloc: Global,
    way: &[u8],
    thread: u8,
    steps: usize,
) -> Result<Option<Schedule>, AllocError>
    ensures some { IfOk result (λ some. IfSome some (λ s. s ≡ way.now ++ replicate steps thread)) }
    ensures none { IfOk result (λ some. IfNone some (most_steps < length way.now + steps)) }
{
    if way.len() > MOST_STEPS || steps > MOST_STEPS - way.len() {
        return Ok(None);
    }
    let mut longer = Schedule::of(way.to_vec(alloc)?);
    longer.push_run(thread, steps)?;
    Ok(Some(longer))
}

/// Notes a call of a thread that never ends, which comes after these steps, and its first steps. Nothing, if one is
/// noted. False if a schedule can't have so many steps. The only refusal is that memory ran out.
fn note_stopped(
    alloc: Global,
    way: &[u8],
    thread: u8,
    call: usize,
    steps: usize,
    stopped: &mut Option<Stopped>,
) -> Result<bool, AllocError>
    ensures noted { IfOk result (λ b. b ≡ true → IsNoted way.now thread call steps stopped.old stopped.new) }
    ensures long { IfOk result (λ b. b ≡ false → IsTooLong way.now steps stopped.old stopped.new) }
{
    if stopped.is_some() {
        return Ok(true);
    }
    let Some(schedule) = longer(alloc, way, thread, steps)? else {
        return Ok(false);
    };
    let first = Stopped {
        schedule,
        thread: thread as usize,
        call,
    };
    assign(stopped, Some(first));
    Ok(true)
}

/// Notes a call of a thread that ends by an exception, with the last of so many steps after these. Nothing, if it
/// returns or one is noted. False if a schedule can't have so many steps. The only refusal is that memory ran out.
fn note_thrown(
    alloc: Global,
    way: &[u8],
    thread: u8,
    steps: usize,
    end: &Event,
    thrown: &mut Option<Thrown>,
) -> Result<bool, AllocError>
    ensures noted { IfOk result (λ b. b ≡ true → IsNotedThrown way.now thread steps end.now thrown.old thrown.new) }
    ensures long { IfOk result (λ b. b ≡ false → IsTooLong way.now steps thrown.old thrown.new) }
{
    if thrown.is_some() {
        return Ok(true);
    }
    match end.happening {
        Happening::Trapped(kind) => {
            let Some(schedule) = longer(alloc, way, thread, steps)? else {
                return Ok(false);
            };
            let first = Thrown {
                schedule,
                thread: end.thread,
                call: end.call,
                kind,
            };
            assign(thrown, Some(first));
            Ok(true)
        }
        Happening::Called | Happening::Returned(_) => Ok(true),
    }
}

/// Notes a call whose thread waits for ever, after these steps and so many more. The only refusal is that memory ran
/// out.
fn note_waits(
    alloc: Global,
    way: &[u8],
    thread: u8,
    call: usize,
    steps: usize,
    found: &mut SerialFaults,
) -> Result<(), AllocError>
    ensures { OnOk result ((file : FileValue) (program : ProgramValue) (bound : ℕ) →
        AreNoted file program bound way.now thread (fates.Waits call steps) found.old found.new) }
{
    if note_stopped(alloc, way, thread, call, steps, &mut found.waits)? {
        return Ok(());
    }
    found.complete = false;
    Ok(())
}

/// Notes a call whose thread turns for ever, after these steps and its first. The only refusal is that memory ran out.
fn note_turns(
    alloc: Global,
    way: &[u8],
    thread: u8,
    call: usize,
    found: &mut SerialFaults,
) -> Result<(), AllocError>
    ensures { OnOk result ((file : FileValue) (program : ProgramValue) (bound : ℕ) →
        AreNoted file program bound way.now thread (fates.Turns call) found.old found.new) }
{
    if note_stopped(alloc, way, thread, call, 1, &mut found.turns)? {
        return Ok(());
    }
    found.complete = false;
    Ok(())
}

/// Notes a call that ends so after these steps and so many more, if it ends by an exception. The only refusal is that
/// memory ran out.
fn note_end(
    alloc: Global,
    way: &[u8],
    thread: u8,
    steps: usize,
    end: &Event,
    found: &mut SerialFaults,
) -> Result<(), AllocError>
    ensures { OnOk result ((file : FileValue) (program : ProgramValue) (bound : ℕ) →
        AreNoted file program bound way.now thread (fates.Ends steps end.now) found.old found.new) }
{
    if note_thrown(alloc, way, thread, steps, end, &mut found.throws)? {
        return Ok(());
    }
    found.complete = false;
    Ok(())
}

/// Notes what comes of a thread's next call after these steps. The only refusal is that memory ran out.
fn note_fate(
    alloc: Global,
    way: &[u8],
    thread: u8,
    fate: &Fate,
    found: &mut SerialFaults,
) -> Result<(), AllocError>
    ensures { OnOk result ((file : FileValue) (program : ProgramValue) (bound : ℕ) →
        AreNoted file program bound way.now thread fate.now found.old found.new) }
{
    match fate {
        Fate::Waits(call, steps) => note_waits(alloc, way, thread, *call, *steps, found),
        Fate::Turns(call) => note_turns(alloc, way, thread, *call, found),
        Fate::Ends(steps, end) => note_end(alloc, way, thread, *steps, end, found),
        Fate::Stays => Ok(()),
        Fate::GoesOn => {
            found.complete = false;
            Ok(())
        }
    }
}

/// Notes what comes of each thread's next call after these steps. The only refusal is that memory ran out.
pub(crate) fn note_fates(
    alloc: Global,
    program: &Program,
    way: &[u8],
    fates: &[Fate],
    found: &mut SerialFaults,
) -> Result<(), AllocError>
    requires { length fates.now ≡ length program.now.threads.items }
    ensures { OnOk result ((file : FileValue) (bound : ℕ) →
        AreAllNoted file (plain_program program.now) bound way.now fates.now (length program.now.threads.items)
        found.old found.new) }
{
    for thread in 0..program.threads.len() {
        note_fate(alloc, way, thread as u8, &fates[thread], found)?;
    }
    Ok(())
}
