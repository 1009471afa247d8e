// What an item or a group of schedules says.

ghost use Rattle.std.specs.Prelude.{◌≡◌, ◌+◌, ◌++◌, ◌<◌, ◌≤◌, IfNone, IfOk, IfSome, false, length, string_bytes, true};
ghost use Rattle.ls_schedule.specs.Answers.{Gives};
ghost use Rattle.ls_schedule.specs.Reading.{thread_names};
ghost use Rattle.ls_aim.specs.Reading.{alone, fault_in, is_text, place_in, schedule_said};

use ls_checked::program::Program;
use ls_events::schedule::Schedule;
use ls_schedule::fault::ScheduleFault;
use ls_schedule::read_schedule;
use std::alloc::{AllocError, Global};

fn text_of(item: &[u8]) -> Option<&str>
    ensures some { IfSome result (λ text. (text.now ≡ item.now) × (is_text item.now ≡ true)) }
    ensures none { IfNone result (is_text item.now ≡ false) }
{
    match std::str::from_utf8(item) {
        Ok(text) => Some(text),
        Err(_) => None,
    }
}

// The item alone as a schedule text.
fn alone(alloc: Global, item: &str) -> Result<String, AllocError>
    ensures { IfOk result (λ text. string_bytes text ≡ alone item.now) }
{
    let mut text = String::from_str(alloc, "@2 ")?;
    text.push_str(item)?;
    Ok(text)
}

// A place in that, from the start of the text in which the item begins at a place.
fn place_in(at: usize, len: usize, place: usize) -> usize
    requires { at + len ≤ usize.MAX }
    ensures { result ≡ place_in at len place }
{
    let inner = place.saturating_sub(3);
    if inner < len { at + inner } else { at }
}

fn fault_in(at: usize, len: usize, fault: ScheduleFault) -> ScheduleFault
    requires { at + len ≤ usize.MAX }
    ensures { result ≡ fault_in at len fault }
{
    match fault {
        ScheduleFault::BadItem { at: place } => ScheduleFault::BadItem {
            at: place_in(at, len, place),
        },
        ScheduleFault::UnknownThread { at: place } => ScheduleFault::UnknownThread {
            at: place_in(at, len, place),
        },
        other => other,
    }
}

/// The steps that an item without a mark says, which begins at a place.
pub fn read_steps(
    alloc: Global,
    at: usize,
    item: &[u8],
    program: &Program,
) -> Result<Schedule, ScheduleFault>
    requires { at + length item.now ≤ usize.MAX }
    ensures { Gives (λ s. s) result (schedule_said (thread_names program.now) at item.now) }
{
    let Some(text) = text_of(item) else {
        return Err(ScheduleFault::BadItem { at });
    };
    let text = alone(alloc, text)?;
    match read_schedule(alloc, text.as_str(), program) {
        Ok(steps) => Ok(steps),
        Err(fault) => Err(fault_in(at, item.len(), fault)),
    }
}
