// Numbers of stores, of works and of the keys of moves, by which they are looked for. Nothing depends on these.

use ls_events::action::Action;
use ls_events::value::Value;
use ls_meaning::completion::Completion;
use ls_source::thread::{Phase, Thread};
use ls_source_pending::pending::Pending;
use ls_source_pending::work::{Control, Ending, Frame};
use ls_source_store::store::Store;
use ls_source_store::thing::{Hold, Thing};

const START: u64 = 0xcbf2_9ce4_8422_2325;

/// With one part more.
fn hashed(hash: u64, part: u64) -> u64 {
    let next = (hash ^ part).wrapping_mul(0x9e37_79b9_7f4a_7c15);
    next ^ (next >> 29)
}

fn of_value(hash: u64, value: Value) -> u64 {
    match value {
        Value::Int(int) => hashed(hashed(hash, 1), int.cast_unsigned() as u64),
        Value::Boolean(truth) => hashed(hashed(hash, 2), truth as u64),
        Value::Reference(number) => hashed(hashed(hash, 3), number),
        Value::Pair { reference, mark } => hashed(hashed(hashed(hash, 4), reference), mark as u64),
    }
}

fn of_values(hash: u64, values: &[Value]) -> u64 {
    let mut hash = hashed(hash, values.len() as u64);
    for value in values {
        hash = of_value(hash, *value);
    }
    hash
}

fn of_result(hash: u64, value: Option<Value>) -> u64 {
    match value {
        None => hash,
        Some(value) => of_value(hash, value),
    }
}

fn of_hold(hash: u64, hold: Hold) -> u64 {
    match hold {
        Hold::Free => hash,
        Hold::HeldBy { owner, holds } => hashed(hashed(hash, owner as u64), holds as u64),
    }
}

fn of_thing(hash: u64, thing: &Thing) -> u64 {
    match thing {
        Thing::Object { monitor, fields } => of_values(of_hold(hashed(hash, 1), *monitor), fields),
        Thing::Lock(hold) => of_hold(hashed(hash, 2), *hold),
        Thing::Markable(pair) => of_value(hashed(hash, 3), *pair),
        Thing::Array { size, items } => {
            let mut hash = hashed(hashed(hash, 4), *size as u64);
            for (index, value) in items {
                hash = of_value(hashed(hash, *index as u64), *value);
            }
            hash
        }
    }
}

/// The number of a store.
pub fn hash_of_store(store: &Store) -> u64 {
    let mut hash = of_values(START, &store.names);
    for thing in &store.things {
        hash = of_thing(hash, thing);
    }
    hash
}

fn of_action(hash: u64, action: &Action<Value>) -> u64 {
    match action {
        Action::ReadField { object, field } => hashed(
            hashed(hashed(hash, 1), *object),
            *field as u64,
        ),
        Action::WriteField {
            object,
            field,
            value,
        } => of_value(
            hashed(hashed(hashed(hash, 2), *object), *field as u64),
            *value,
        ),
        Action::ReadItem { array, index } => {
            hashed(
                hashed(hashed(hash, 3), *array),
                index.cast_unsigned() as u64,
            )
        }
        Action::New(class) => hashed(hashed(hash, 4), *class as u64),
        Action::Lock(o) => hashed(hashed(hash, 5), *o),
        Action::Unlock(o) => hashed(hashed(hash, 6), *o),
        Action::TryLock(o) => hashed(hashed(hash, 7), *o),
        Action::LockMonitor(o) => hashed(hashed(hash, 8), *o),
        Action::UnlockMonitor(o) => hashed(hashed(hash, 9), *o),
        Action::ReadPair(o) => hashed(hashed(hash, 10), *o),
        Action::SwapPair { markable, new, .. } => of_value(
            hashed(hashed(hash, 11), *markable),
            *new,
        ),
        _ => hash,
    }
}

fn of_control<'a>(hash: u64, control: &Control<'a>) -> u64 {
    match control {
        Control::Gives(value) => of_value(hashed(hash, 1), *value),
        Control::Asks(action, _) => of_action(hashed(hash, 2), action),
        Control::Enters(m, o, values) => {
            of_values(of_value(hashed(hashed(hash, 3), *m as u64), *o), values)
        }
        Control::Turns(_, _) => hashed(hash, 4),
        _ => hash,
    }
}

fn of_frame<'a>(hash: u64, frame: &Frame<'a>) -> u64 {
    match frame {
        Frame::Operand(_) => hashed(hash, 1),
        Frame::Argument(_, before, _) => of_values(hashed(hash, 2), before),
        Frame::Waiting(_) => hashed(hash, 3),
        Frame::Ending(Ending::Sequence(others)) => hashed(hashed(hash, 4), others.len() as u64),
        Frame::Ending(Ending::Body(_, _)) => hashed(hash, 5),
        Frame::Ending(Ending::Try(_)) => hashed(hash, 6),
        Frame::Ending(Ending::Finally(Completion::Returned(value))) => of_result(
            hashed(hash, 7),
            *value,
        ),
        Frame::Ending(Ending::Finally(_)) => hashed(hash, 8),
        Frame::Body(_, saved, _) => of_values(hashed(hash, 9), saved),
    }
}

fn of_work<'a>(hash: u64, work: &Pending<'a>) -> u64 {
    let mut hash = of_values(of_control(hash, &work.control), &work.locals);
    for frame in &work.frames {
        hash = of_frame(hash, frame);
    }
    hash
}

/// The number of a thread's work.
pub fn hash_of_thread<'a>(thread: &Thread<'a>) -> u64 {
    let hash = hashed(
        hashed(START, thread.begun as u64),
        thread.calls.len() as u64,
    );
    match thread.phase {
        Phase::Starts => hashed(hash, 1),
        Phase::Announces(_) => hashed(hash, 2),
        Phase::Makes(name, class, values) => {
            of_values(
                hashed(hashed(hashed(hash, 3), name as u64), class as u64),
                values,
            )
        }
        Phase::Fetches(name, method, values) => {
            of_values(
                hashed(hashed(hashed(hash, 4), name as u64), method as u64),
                values,
            )
        }
        Phase::Works(_) => of_work(hashed(hash, 5), &thread.work),
        Phase::Names(name, o) => of_value(hashed(hashed(hash, 6), name as u64), o),
        Phase::ReturnsWith(value) => of_result(hashed(hash, 7), value),
        Phase::TrapsWith(_) => hashed(hash, 8),
        Phase::Begins(_, _, _, _) | Phase::Trapped => hashed(hash, 9),
    }
}

/// The number of a thread's number with those of a store and of a work.
#[inline(always)]
pub fn hash_of_key(thread: usize, store: usize, work: usize) -> u64 {
    let both = (store as u64).wrapping_mul(0x9e37_79b9_7f4a_7c15) ^ (work as u64);
    hashed(both, thread as u64)
}
