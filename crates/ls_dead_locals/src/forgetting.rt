// Locals that are dead are forgotten.

ghost use Rattle.std.specs.Prelude.{◌≡◌, ◌<◌, IsTrue, length, true};
ghost use Rattle.ls_source.specs.SeenThread.{thread_of};
ghost use Rattle.ls_source_pending.specs.SeenPending.{state_of};
ghost use Rattle.ls_dead_locals.specs.Around.{control_dead, frames_ways};
ghost use Rattle.ls_dead_locals.specs.Same.{IsSameThread, IsSameWork};

use crate::frames::{control_dead, frames_ways};
use ls_events::value::Value;
use ls_source::thread::{Phase, Thread};
use ls_source_pending::pending::Pending;

/// The most locals of a call of which one is forgotten.
const MOST_LOCALS: usize = 32;

/// The most frames around what is asked for where a local is forgotten.
const MOST_FRAMES: usize = 64;

// Whether the local of a slot is dead, and isn't null. Where it is null there is nothing to forget. Of calls with many
// locals, and of calls deep in others, none is said to be dead: each local takes a walk over what is left to do.
fn is_forgettable<'a>(work: &Pending<'a>, slot: usize) -> bool
    ensures { IsTrue result → control_dead slot (state_of work.now).control
        (frames_ways slot (state_of work.now).frames) ≡ true }
{
    if work.locals.len() > MOST_LOCALS || work.frames.len() > MOST_FRAMES {
        return false;
    }
    if matches!(work.locals.get(slot), None | Some(Value::Reference(0))) {
        return false;
    }
    let ways = frames_ways(&work.frames, slot);
    control_dead(&work.control, slot, ways)
}

// Forgets the local of a slot if it is dead.
#[tactic(auto, using(crate::proofs::Forgotten::one_forgotten, crate::proofs::Forgotten::same_work))]
fn forget_local<'a>(work: &mut Pending<'a>, slot: usize)
    requires { slot < length work.old.locals.items }
    ensures same { IsSameWork (state_of work.old) (state_of work.new) }
    ensures width { length work.new.locals.items ≡ length work.old.locals.items }
{
    if is_forgettable(work, slot) {
        work.locals[slot] = Value::Reference(0);
    }
}

// Forgets the locals that are dead.
#[tactic(auto, using(crate::proofs::Forgotten::same_along, crate::proofs::Forgotten::same_work))]
fn forget_locals<'a>(work: &mut Pending<'a>)
    ensures { IsSameWork (state_of work.old) (state_of work.new) }
{
    for slot in 0..work.locals.len() {
        forget_local(work, slot);
    }
}

/// Forgets the locals of a thread that are dead: each becomes null. The thread does the same as before, after whatever
/// answers.
#[tactic(auto, using(crate::proofs::Forgotten::thread_same, crate::proofs::Forgotten::thread_stays))]
pub fn forget<'a>(thread: &mut Thread<'a>)
    ensures { IsSameThread (thread_of thread.old) (thread_of thread.new) }
{
    match thread.phase {
        Phase::Works(_) => forget_locals(&mut thread.work),
        _ => {}
    }
}
