// The store of a run and its events.

ghost use Rattle.std.specs.Prelude.{◌≡◌, IfOk, OnErr, ◌++◌, [], map};
ghost use Rattle.ls_checked.specs.Plain.{plain_class};
ghost use Rattle.ls_checked.specs.PlainProgram.{plain_program};
ghost use Rattle.ls_meaning.specs.Effect.{effect};
ghost use Rattle.ls_meaning.specs.Runs.{start, event_of};
ghost use Rattle.ls_source_store.specs.SeenStore.{store_of, plain_effect};
ghost use Rattle.ls_source.specs.SeenRun.{did_by, events_by};

use ls_checked::program::{Program, SetupName};
use ls_checked::tree::Class;
use ls_events::action::Action;
use ls_events::event::{Event, Happening};
use ls_events::value::Value;
use ls_source_store::store::Store;
use ls_source_store::thing::Effect;
use std::alloc::{AllocError, Global};

/// The store of a run, with its events so far.
#[derive(Drop)]
pub struct StoreAndEvents {
    pub store: Store,
    pub events: Vec<Event>,
}

// The event of a history that an action of a thread is, or none.
#[inline(always)]
fn event_of(thread: usize, action: &Action<Value>) -> Option<Event>
    ensures { result ≡ event_of thread action.now }
{
    let (call, happening) = match action {
        Action::Call(call) => (*call, Happening::Called),
        Action::Return(call, value) => (*call, Happening::Returned(*value)),
        Action::Trap(call, kind) => (*call, Happening::Trapped(*kind)),
        _ => return None,
    };
    Some(Event {
        thread,
        call,
        happening,
    })
}

// Null, for each setup name.
fn no_objects(alloc: Global, names: &[SetupName]) -> Result<Vec<Value>, AllocError>
    ensures { IfOk result (λ v. v.items ≡ map (λ n. Value.Reference 0) names.now) }
{
    let mut values = Vec::new(alloc);
    for _name in names {
        values.push(Value::Reference(0))?;
    }
    Ok(values)
}

impl StoreAndEvents {
    /// The store at the start of a program. The only refusal is that memory ran out.
    #[tactic(auto, using(crate::proofs::Starts::nulls_is))]
    pub fn new(alloc: Global, program: &Program) -> Result<StoreAndEvents, AllocError>
        ensures store { IfOk result (λ s. store_of s.store ≡ (start (plain_program program.now)).store) }
        ensures events { IfOk result (λ s. s.events.items ≡ []) }
    {
        Ok(StoreAndEvents {
            store: Store {
                things: Vec::new(alloc),
                names: no_objects(alloc, &program.names)?,
            },
            events: Vec::new(alloc),
        })
    }

    /// An action is performed, and its event is kept. The only refusal is that memory ran out.
    pub fn perform(
        &mut self,
        alloc: Global,
        classes: &[Class],
        thread: usize,
        action: &Action<Value>,
    ) -> Result<Effect, AllocError>
        ensures effect { IfOk result (λ e. plain_effect (store_of self.new.store) e ≡
            effect (map plain_class classes.now) (store_of self.old.store) thread action.now) }
        ensures waits { IfOk result (λ e. e ≡ Effect.Waits → store_of self.new.store ≡ store_of self.old.store) }
        ensures events { IfOk result (λ e. self.new.events.items ≡ self.old.events.items ++
            events_by thread (did_by action.now e)) }
        ensures err { OnErr result (store_of self.new.store ≡ store_of self.old.store) }
        ensures err_events { OnErr result (self.new.events.items ≡ self.old.events.items) }
    {
        self.events.reserve(1)?;
        match self.store.act(alloc, classes, thread, action)? {
            Effect::Waits => Ok(Effect::Waits),
            Effect::Does(answer) => {
                if let Some(event) = event_of(thread, action) {
                    self.events.push(event)?;
                }
                Ok(Effect::Does(answer))
            }
        }
    }
}
