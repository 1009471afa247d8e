// Events in an order, so that histories can be looked up.

ghost use Rattle.std.specs.Prelude.{◌≡◌, map, IfOk};
ghost use Rattle.ls_batch.specs.Numbers.{key_of, next_number, number_onto, plain_key};
ghost use Rattle.ls_batch.specs.Keys.{trap_key, happening_key, key_happening, event_key, key_event};

use ls_events::event::{Event, Happening};
use ls_events::kind::Kind;
use ls_events::value::Value;
use std::alloc::{AllocError, Global};

/// What happened to a call, as it stands in the order.
#[derive(PartialEq, Eq, PartialOrd, Ord, Drop)]
pub(crate) enum HappeningKey {
    Called,
    Returned,
    Int(i32),
    Boolean(bool),
    Reference(u64),
    Pair(u64, bool),
    Arithmetic,
    NullPointer,
    ArrayIndexOutOfBounds,
    NegativeArraySize,
    IllegalMonitorState,
    StackOverflow,
    Error,
}

/// An event as it stands in the order: by thread, call and what happened.
#[derive(PartialEq, Eq, PartialOrd, Ord, Drop)]
pub(crate) struct EventKey {
    pub(crate) thread: usize,
    pub(crate) call: usize,
    pub(crate) happening: HappeningKey,
}

fn trap_key_of(kind: Kind) -> HappeningKey
    ensures { result ≡ trap_key kind }
{
    match kind {
        Kind::Arithmetic => HappeningKey::Arithmetic,
        Kind::NullPointer => HappeningKey::NullPointer,
        Kind::ArrayIndexOutOfBounds => HappeningKey::ArrayIndexOutOfBounds,
        Kind::NegativeArraySize => HappeningKey::NegativeArraySize,
        Kind::IllegalMonitorState => HappeningKey::IllegalMonitorState,
        Kind::StackOverflow => HappeningKey::StackOverflow,
        Kind::Error => HappeningKey::Error,
    }
}

fn happening_key_of(happening: Happening) -> HappeningKey
    ensures { result ≡ happening_key happening }
{
    match happening {
        Happening::Called => HappeningKey::Called,
        Happening::Returned(None) => HappeningKey::Returned,
        Happening::Returned(Some(Value::Int(number))) => HappeningKey::Int(number),
        Happening::Returned(Some(Value::Boolean(truth))) => HappeningKey::Boolean(truth),
        Happening::Returned(Some(Value::Reference(object))) => HappeningKey::Reference(object),
        Happening::Returned(Some(Value::Pair { reference, mark })) => HappeningKey::Pair(
            reference, mark,
        ),
        Happening::Trapped(kind) => trap_key_of(kind),
    }
}

fn happening_of(outcome: &HappeningKey) -> Happening
    ensures { result ≡ key_happening outcome.now }
{
    match outcome {
        HappeningKey::Called => Happening::Called,
        HappeningKey::Returned => Happening::Returned(None),
        HappeningKey::Int(number) => Happening::Returned(Some(Value::Int(*number))),
        HappeningKey::Boolean(truth) => Happening::Returned(Some(Value::Boolean(*truth))),
        HappeningKey::Reference(object) => Happening::Returned(Some(Value::Reference(*object))),
        HappeningKey::Pair(reference, mark) => Happening::Returned(Some(Value::Pair {
            reference: *reference,
            mark: *mark,
        })),
        HappeningKey::Arithmetic => Happening::Trapped(Kind::Arithmetic),
        HappeningKey::NullPointer => Happening::Trapped(Kind::NullPointer),
        HappeningKey::ArrayIndexOutOfBounds => Happening::Trapped(Kind::ArrayIndexOutOfBounds),
        HappeningKey::NegativeArraySize => Happening::Trapped(Kind::NegativeArraySize),
        HappeningKey::IllegalMonitorState => Happening::Trapped(Kind::IllegalMonitorState),
        HappeningKey::StackOverflow => Happening::Trapped(Kind::StackOverflow),
        HappeningKey::Error => Happening::Trapped(Kind::Error),
    }
}

fn key_of(event: &Event) -> EventKey
    ensures { result ≡ event_key event.now }
{
    EventKey {
        thread: event.thread,
        call: event.call,
        happening: happening_key_of(event.happening),
    }
}

fn event_of(key: &EventKey) -> Event
    ensures { result ≡ key_event key.now }
{
    Event {
        thread: key.thread,
        call: key.call,
        happening: happening_of(&key.happening),
    }
}

/// A history as it stands in the order: by a number that its events give, and then by these. So two that differ are
/// mostly told apart by one comparison.
#[derive(PartialEq, Eq, PartialOrd, Ord, Drop)]
pub(crate) struct HistoryKey {
    pub(crate) number: u64,
    pub(crate) events: Vec<EventKey>,
}

/// The number of a history's first events and the next one: by its thread, and whether it is a call.
#[inline]
fn next_number(number: u64, event: &EventKey) -> u64
    ensures { result ≡ next_number number event.now }
{
    let ends = match event.happening {
        HappeningKey::Called => 0,
        _ => 1,
    };
    number
        .wrapping_mul(1_099_511_628_211)
        .wrapping_add(event.thread as u64)
        .wrapping_mul(2)
        .wrapping_add(ends)
}

fn number_of(events: &[EventKey]) -> u64
    ensures { result ≡ number_onto 0 events.now }
{
    let mut number = 0;
    for event in events {
        number = next_number(number, event);
    }
    number
}

/// The events of a history as they stand in the order.
fn keys_of(alloc: Global, history: &[Event]) -> Result<Vec<EventKey>, AllocError>
    ensures { IfOk result (λ keys. keys.items ≡ map event_key history.now) }
{
    history.iter().map(key_of).collect(alloc)
}

/// A history as it stands in the order.
pub(crate) fn history_key(alloc: Global, history: &[Event]) -> Result<HistoryKey, AllocError>
    ensures { IfOk result (λ key. plain_key key ≡ key_of history.now) }
{
    let events = keys_of(alloc, history)?;
    let number = number_of(events.as_slice());
    Ok(HistoryKey { number, events })
}

/// The history of which these are the events as they stand in the order.
pub(crate) fn history_of(alloc: Global, keys: &[EventKey]) -> Result<Vec<Event>, AllocError>
    ensures { IfOk result (λ history. history.items ≡ map key_event keys.now) }
{
    keys.iter().map(event_of).collect(alloc)
}
