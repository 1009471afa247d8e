// The things that references name, and what an action does to a thing.

ghost use Rattle.std.specs.Prelude.{◌≡◌, IfOk, OnErr};
ghost use Rattle.ls_meaning.specs.Effect.{change, in_range, reading_field, writing_field, reading_item, writing_item};
ghost use Rattle.ls_meaning.specs.Effect.{locking, trying, unlocking, asking_held, on_lock, on_monitor, reading_pair};
ghost use Rattle.ls_meaning.specs.Effect.{setting_pair, swapping, attempting};
ghost use Rattle.ls_source_store.specs.SeenThing.{items_of, hold_of, thing_of, plain_holding, plain_change};

use crate::value::{reference_of, same_pair};
use ls_events::action::{Action, Answer};
use ls_events::kind::Kind;
use ls_events::value::Value;
use std::alloc::AllocError;
use std::collections::BTreeMap;

/// Whether a lock, or the monitor of an object, is free.
#[derive(Copy)]
pub enum Hold {
    Free,
    /// The number of the thread that owns it, and how many times that thread holds it.
    HeldBy { owner: usize, holds: u32 },
}

impl Clone for Hold {
    fn clone(&self) -> Result<Hold, AllocError> {
        Ok(*self)
    }
}

/// The thing that a reference names. Of an array, only the items that have been written are kept, whatever its size.
#[derive(Drop)]
pub enum Thing {
    /// An object's monitor, and its fields in text order.
    Object {
        monitor: Hold,
        fields: Vec<Value>,
    },
    Lock(Hold),
    /// The pair of a markable.
    Markable(Value),
    /// An array, with its size and the items that have been written. `item_at` gives the others.
    Array {
        size: u32,
        items: BTreeMap<u32, Value>,
    },
}

/// What an action does: it waits, or it has an answer.
#[derive(Copy)]
pub enum Effect {
    Waits,
    Does(Answer<Value>),
}

impl Clone for Effect {
    fn clone(&self) -> Result<Effect, AllocError> {
        Ok(*self)
    }
}

const MOST_HOLDS: u32 = 2147483647;

/// The effect of an action that is done.
pub fn done() -> Effect
    ensures { result ≡ Effect.Does Answer.Done }
{
    Effect::Does(Answer::Done)
}

/// The effect of an action that gives a value.
pub fn gives(v: Value) -> Effect
    ensures { result ≡ Effect.Does (Answer.Gives v) }
{
    Effect::Does(Answer::Gives(v))
}

fn fails(kind: Kind) -> Effect
    ensures { result ≡ Effect.Does (Answer.Fails kind) }
{
    Effect::Does(Answer::Fails(kind))
}

fn truth(b: bool) -> Effect
    ensures { result ≡ Effect.Does (Answer.Gives (Value.Boolean b)) }
{
    gives(Value::Boolean(b))
}

// Whether an index is in range.
fn in_range(i: i32, size: u32) -> bool
    ensures { result ≡ in_range i size }
{
    if i < 0 {
        false
    } else {
        i.unsigned_abs() < size
    }
}

/// The item of an array at an index. If it was never written, it is false.
pub fn item_at(items: &BTreeMap<u32, Value>, index: u32) -> Value
    ensures { result ≡ items_of items.now index }
{
    match items.get(&index) {
        None => Value::Boolean(false),
        Some(v) => *v,
    }
}

fn read_field(thing: &Thing, f: usize) -> Effect
    ensures { plain_change (thing_of thing.now) result ≡ reading_field f (thing_of thing.now) }
{
    match thing {
        Thing::Object { fields, .. } => match fields.get(f) {
            None => gives(Value::Reference(0)),
            Some(v) => gives(*v),
        },
        _ => done(),
    }
}

fn write_field(thing: &mut Thing, f: usize, v: Value) -> Effect
    ensures change { plain_change (thing_of thing.new) result ≡ writing_field f v (thing_of thing.old) }
    ensures waits { result ≡ Effect.Waits → thing_of thing.new ≡ thing_of thing.old }
{
    match thing {
        Thing::Object { fields, .. } => {
            if f < fields.len() {
                fields[f] = v;
            }
            done()
        }
        _ => done(),
    }
}

fn read_item(thing: &Thing, i: i32) -> Effect
    ensures { plain_change (thing_of thing.now) result ≡ reading_item i (thing_of thing.now) }
{
    match thing {
        Thing::Array { size, items } => {
            if in_range(i, *size) {
                gives(item_at(items, i.unsigned_abs()))
            } else {
                fails(Kind::ArrayIndexOutOfBounds)
            }
        }
        _ => done(),
    }
}

fn write_item(thing: &mut Thing, i: i32, v: Value) -> Result<Effect, AllocError>
    ensures change { IfOk result (λ r. plain_change (thing_of thing.new) r ≡ writing_item i v (thing_of thing.old)) }
    ensures waits { IfOk result (λ r. r ≡ Effect.Waits → thing_of thing.new ≡ thing_of thing.old) }
    ensures err { OnErr result (thing_of thing.new ≡ thing_of thing.old) }
{
    match thing {
        Thing::Array { size, items } => {
            if in_range(i, *size) {
                items.insert(i.unsigned_abs(), v)?;
                Ok(done())
            } else {
                Ok(fails(Kind::ArrayIndexOutOfBounds))
            }
        }
        _ => Ok(done()),
    }
}

fn take(hold: &mut Hold, thread: usize) -> Effect
    ensures change { plain_holding (hold_of hold.new) result ≡ locking thread (hold_of hold.old) }
    ensures waits { result ≡ Effect.Waits → hold_of hold.new ≡ hold_of hold.old }
{
    match hold {
        Hold::Free => {
            *hold = Hold::HeldBy {
                owner: thread,
                holds: 1,
            };
            done()
        }
        Hold::HeldBy { owner, holds } => {
            if *owner != thread {
                return Effect::Waits;
            }
            if *holds >= MOST_HOLDS {
                return fails(Kind::Error);
            }
            *holds += 1;
            done()
        }
    }
}

fn try_take(hold: &mut Hold, thread: usize) -> Effect
    ensures change { plain_holding (hold_of hold.new) result ≡ trying thread (hold_of hold.old) }
    ensures waits { result ≡ Effect.Waits → hold_of hold.new ≡ hold_of hold.old }
{
    match hold {
        Hold::Free => {
            *hold = Hold::HeldBy {
                owner: thread,
                holds: 1,
            };
            truth(true)
        }
        Hold::HeldBy { owner, holds } => {
            if *owner != thread {
                return truth(false);
            }
            if *holds >= MOST_HOLDS {
                return fails(Kind::Error);
            }
            *holds += 1;
            truth(true)
        }
    }
}

fn leave(hold: &mut Hold, thread: usize) -> Effect
    ensures change { plain_holding (hold_of hold.new) result ≡ unlocking thread (hold_of hold.old) }
    ensures waits { result ≡ Effect.Waits → hold_of hold.new ≡ hold_of hold.old }
{
    match hold {
        Hold::Free => fails(Kind::IllegalMonitorState),
        Hold::HeldBy { owner, holds } => {
            if *owner != thread {
                return fails(Kind::IllegalMonitorState);
            }
            if *holds > 1 {
                *holds -= 1;
            } else {
                *hold = Hold::Free;
            }
            done()
        }
    }
}

fn is_held(hold: &Hold, thread: usize) -> Effect
    ensures { plain_holding (hold_of hold.now) result ≡ asking_held thread (hold_of hold.now) }
{
    match hold {
        Hold::Free => truth(false),
        Hold::HeldBy { owner, .. } => truth(*owner == thread),
    }
}

fn lock(thing: &mut Thing, thread: usize) -> Effect
    ensures change { plain_change (thing_of thing.new) result ≡ on_lock (locking thread) (thing_of thing.old) }
    ensures waits { result ≡ Effect.Waits → thing_of thing.new ≡ thing_of thing.old }
{
    match thing {
        Thing::Lock(hold) => take(hold, thread),
        _ => done(),
    }
}

fn try_lock(thing: &mut Thing, thread: usize) -> Effect
    ensures change { plain_change (thing_of thing.new) result ≡ on_lock (trying thread) (thing_of thing.old) }
    ensures waits { result ≡ Effect.Waits → thing_of thing.new ≡ thing_of thing.old }
{
    match thing {
        Thing::Lock(hold) => try_take(hold, thread),
        _ => done(),
    }
}

fn unlock(thing: &mut Thing, thread: usize) -> Effect
    ensures change { plain_change (thing_of thing.new) result ≡ on_lock (unlocking thread) (thing_of thing.old) }
    ensures waits { result ≡ Effect.Waits → thing_of thing.new ≡ thing_of thing.old }
{
    match thing {
        Thing::Lock(hold) => leave(hold, thread),
        _ => done(),
    }
}

fn is_lock_held(thing: &Thing, thread: usize) -> Effect
    ensures { plain_change (thing_of thing.now) result ≡ on_lock (asking_held thread) (thing_of thing.now) }
{
    match thing {
        Thing::Lock(hold) => is_held(hold, thread),
        _ => done(),
    }
}

fn lock_monitor(thing: &mut Thing, thread: usize) -> Effect
    ensures change { plain_change (thing_of thing.new) result ≡ on_monitor (locking thread) (thing_of thing.old) }
    ensures waits { result ≡ Effect.Waits → thing_of thing.new ≡ thing_of thing.old }
{
    match thing {
        Thing::Object { monitor, .. } => take(monitor, thread),
        _ => done(),
    }
}

fn unlock_monitor(thing: &mut Thing, thread: usize) -> Effect
    ensures change { plain_change (thing_of thing.new) result ≡ on_monitor (unlocking thread) (thing_of thing.old) }
    ensures waits { result ≡ Effect.Waits → thing_of thing.new ≡ thing_of thing.old }
{
    match thing {
        Thing::Object { monitor, .. } => leave(monitor, thread),
        _ => done(),
    }
}

fn read_pair(thing: &Thing) -> Effect
    ensures { plain_change (thing_of thing.now) result ≡ reading_pair (thing_of thing.now) }
{
    match thing {
        Thing::Markable(p) => gives(*p),
        _ => done(),
    }
}

fn set_pair(thing: &mut Thing, v: Value) -> Effect
    ensures change { plain_change (thing_of thing.new) result ≡ setting_pair v (thing_of thing.old) }
    ensures waits { result ≡ Effect.Waits → thing_of thing.new ≡ thing_of thing.old }
{
    match thing {
        Thing::Markable(p) => {
            *p = v;
            done()
        }
        _ => done(),
    }
}

fn swap_pair(thing: &mut Thing, expected: Value, new: Value) -> Effect
    ensures change { plain_change (thing_of thing.new) result ≡ swapping expected new (thing_of thing.old) }
    ensures waits { result ≡ Effect.Waits → thing_of thing.new ≡ thing_of thing.old }
{
    match thing {
        Thing::Markable(p) => {
            if same_pair(*p, expected) {
                *p = new;
                truth(true)
            } else {
                truth(false)
            }
        }
        _ => done(),
    }
}

fn attempt_mark(thing: &mut Thing, reference: u64, mark: bool) -> Effect
    ensures change { plain_change (thing_of thing.new) result ≡ attempting reference mark (thing_of thing.old) }
    ensures waits { result ≡ Effect.Waits → thing_of thing.new ≡ thing_of thing.old }
{
    match thing {
        Thing::Markable(p) => {
            if reference_of(*p) == reference {
                *p = Value::Pair { reference, mark };
                truth(true)
            } else {
                truth(false)
            }
        }
        _ => done(),
    }
}

/// What an action does to its thing. The only refusal is that memory ran out.
pub fn change(
    thing: &mut Thing,
    thread: usize,
    action: &Action<Value>,
) -> Result<Effect, AllocError>
    ensures change { IfOk result (λ r. plain_change (thing_of thing.new) r ≡ change thread action.now
        (thing_of thing.old)) }
    ensures waits { IfOk result (λ r. r ≡ Effect.Waits → thing_of thing.new ≡ thing_of thing.old) }
    ensures err { OnErr result (thing_of thing.new ≡ thing_of thing.old) }
{
    match action {
        Action::ReadField { field, .. } => Ok(read_field(thing, *field)),
        Action::WriteField { field, value, .. } => Ok(write_field(thing, *field, *value)),
        Action::ReadItem { index, .. } => Ok(read_item(thing, *index)),
        Action::WriteItem { index, value, .. } => write_item(thing, *index, *value),
        Action::Lock(_) => Ok(lock(thing, thread)),
        Action::Unlock(_) => Ok(unlock(thing, thread)),
        Action::TryLock(_) => Ok(try_lock(thing, thread)),
        Action::IsHeld(_) => Ok(is_lock_held(thing, thread)),
        Action::LockMonitor(_) => Ok(lock_monitor(thing, thread)),
        Action::UnlockMonitor(_) => Ok(unlock_monitor(thing, thread)),
        Action::ReadPair(_) => Ok(read_pair(thing)),
        Action::SetPair(_, v) => Ok(set_pair(thing, *v)),
        Action::SwapPair { expected, new, .. } => Ok(swap_pair(thing, *expected, *new)),
        Action::AttemptMark {
            reference,
            mark,
            ..
        } => Ok(attempt_mark(thing, *reference, *mark)),
        _ => Ok(done()),
    }
}
