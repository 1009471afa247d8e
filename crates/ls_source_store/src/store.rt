// The store: what objects hold, and the setup names.

ghost use Rattle.std.specs.Prelude.{◌≡◌, IfOk, OnErr, map, false, slice_get};
ghost use Rattle.ls_checked.specs.Plain.{plain_class};
ghost use Rattle.ls_meaning.specs.Store.{Array as MadeArray, name_at, with_name};
ghost use Rattle.ls_meaning.specs.Effect.{Does, effect, making, on_thing, fields_in, size_of};
ghost use Rattle.ls_source_store.specs.SeenThing.{thing_of};
ghost use Rattle.ls_source_store.specs.SeenStore.{store_of, plain_effect};

use crate::thing::{Effect, Hold, Thing, change, done, gives};
use crate::value::starts_of;
use ls_checked::tree::Class;
use ls_events::action::{Action, Answer};
use ls_events::value::Value;
use std::alloc::{AllocError, Global};
use std::collections::BTreeMap;

/// Object n, counted from 1, is at index n - 1.
#[derive(Drop)]
pub struct Store {
    pub things: Vec<Thing>,
    pub names: Vec<Value>,
}

// The fields of a new object, each at its start.
fn fresh_fields(alloc: Global, classes: &[Class], class: usize) -> Result<Vec<Value>, AllocError>
    ensures { IfOk result (λ v. v.items ≡ fields_in (slice_get (map plain_class classes.now) class)) }
{
    match classes.get(class) {
        None => Ok(Vec::new(alloc)),
        Some(c) => starts_of(alloc, &c.fields),
    }
}

// The size of a new array.
fn size_of(length: i32) -> u32
    ensures { result ≡ size_of length }
{
    if length < 0 { 0 } else { length.unsigned_abs() }
}

// A new array, with nothing written.
fn new_array(alloc: Global, length: i32) -> Thing
    ensures { thing_of result ≡ MadeArray (size_of length) (λ i. Value.Boolean false) }
{
    Thing::Array {
        size: size_of(length),
        items: BTreeMap::new(alloc),
    }
}

impl Store {
    // A new thing answers its number.
    fn make(&mut self, thing: Thing) -> Result<Effect, AllocError>
        ensures made { IfOk result (λ r. plain_effect (store_of self.new) r ≡ making (store_of self.old)
            (thing_of thing)) }
        ensures acts { IfOk result (λ r. r ≡ Effect.Waits → ⊥) }
        ensures err { OnErr result (store_of self.new ≡ store_of self.old) }
    {
        self.things.push(thing)?;
        Ok(gives(Value::Reference(self.things.len() as u64)))
    }

    // An action on the thing with a number.
    fn act_on(
        &mut self,
        o: u64,
        thread: usize,
        action: &Action<Value>,
    ) -> Result<Effect, AllocError>
        ensures effect { IfOk result (λ r. plain_effect (store_of self.new) r ≡ on_thing (store_of self.old) o
            thread action.now) }
        ensures waits { IfOk result (λ r. r ≡ Effect.Waits → store_of self.new ≡ store_of self.old) }
        ensures err { OnErr result (store_of self.new ≡ store_of self.old) }
    {
        if o == 0 {
            return Ok(done());
        }
        let place = (o - 1) as usize;
        if place < self.things.len() {
            let effect = change(&mut self.things[place], thread, action)?;
            Ok(effect)
        } else {
            Ok(done())
        }
    }

    fn read_name(&self, n: usize) -> Effect
        ensures { result ≡ Effect.Does (Answer.Gives (name_at (store_of self.now) n)) }
    {
        match self.names.get(n) {
            None => gives(Value::Reference(0)),
            Some(v) => gives(*v),
        }
    }

    fn write_name(&mut self, n: usize, v: Value) -> Effect
        ensures named { plain_effect (store_of self.new) result ≡ Does (with_name (store_of self.old) n v) Answer.Done }
        ensures acts { result ≡ Effect.Waits → ⊥ }
    {
        if n < self.names.len() {
            self.names[n] = v;
        }
        done()
    }

    /// What an action of a thread does. The only refusal is that memory ran out.
    pub fn act(
        &mut self,
        alloc: Global,
        classes: &[Class],
        thread: usize,
        action: &Action<Value>,
    ) -> Result<Effect, AllocError>
        ensures effect { IfOk result (λ r. plain_effect (store_of self.new) r ≡ effect (map plain_class classes.now)
            (store_of self.old) thread action.now) }
        ensures waits { IfOk result (λ r. r ≡ Effect.Waits → store_of self.new ≡ store_of self.old) }
        ensures err { OnErr result (store_of self.new ≡ store_of self.old) }
    {
        match action {
            Action::ReadField { object, .. } => self.act_on(*object, thread, action),
            Action::WriteField { object, .. } => self.act_on(*object, thread, action),
            Action::ReadItem { array, .. } => self.act_on(*array, thread, action),
            Action::WriteItem { array, .. } => self.act_on(*array, thread, action),
            Action::ReadName(n) => Ok(self.read_name(*n)),
            Action::WriteName(n, v) => Ok(self.write_name(*n, *v)),
            Action::New(class) => {
                let fields = fresh_fields(alloc, classes, *class)?;
                self.make(Thing::Object {
                    monitor: Hold::Free,
                    fields,
                })
            }
            Action::NewLock => self.make(Thing::Lock(Hold::Free)),
            Action::NewMarkable(pair) => self.make(Thing::Markable(*pair)),
            Action::NewArray(length) => self.make(new_array(alloc, *length)),
            Action::Lock(o) => self.act_on(*o, thread, action),
            Action::Unlock(o) => self.act_on(*o, thread, action),
            Action::TryLock(o) => self.act_on(*o, thread, action),
            Action::IsHeld(o) => self.act_on(*o, thread, action),
            Action::LockMonitor(o) => self.act_on(*o, thread, action),
            Action::UnlockMonitor(o) => self.act_on(*o, thread, action),
            Action::ReadPair(o) => self.act_on(*o, thread, action),
            Action::SetPair(o, _) => self.act_on(*o, thread, action),
            Action::SwapPair { markable, .. } => self.act_on(*markable, thread, action),
            Action::AttemptMark { markable, .. } => self.act_on(*markable, thread, action),
            Action::Turn
            | Action::Enter(_)
            | Action::Call(_)
            | Action::Return(_, _)
            | Action::Trap(_, _) => Ok(done()),
        }
    }
}
