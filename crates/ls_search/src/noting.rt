// Noted values by number.

ghost use Rattle.std.specs.Prelude.{◌≡◌, ◌<◌, IfOk, IfSome, OnOk, Some, length, map, slice_get, slice_index_or};
ghost use Rattle.std.specs.List.{fold};
ghost use Rattle.ls_meaning.specs.Runs.{event_of};
ghost use Rattle.ls_search_laws.specs.Stepping.{events_in};
ghost use Rattle.ls_transitions.specs.Tables.{Keeps};

use ls_events::action::Action;
use ls_events::event::{Event, Happening};
use ls_events::value::Value;
use ls_observers::observer::Observer;
use ls_transitions::hash_index::HashIndex;
use std::alloc::{AllocError, Global};

/// Noted values, each by its number.
#[derive(Drop)]
pub struct Pool<N> {
    pub values: Vec<N>,
    hints: HashIndex,
}

impl<N: Drop> Pool<N> {
    ghost use Rattle.std.specs.Prelude.{◌≡◌, []};

    /// None.
    pub fn new(alloc: Global) -> Pool<N>
        ensures { result.values.items ≡ [] }
    {
        Pool {
            values: Vec::new(alloc),
            hints: HashIndex::new(alloc),
        }
    }
}

/// The event of a history that an action of a thread is, or none.
pub fn event_of(thread: usize, action: &Action<Value>) -> Option<Event>
    ensures { result ≡ event_of thread action.now }
{
    let (call, happening) = match action {
        Action::Call(call) => (*call, Happening::Called),
        Action::Return(call, value) => (*call, Happening::Returned(*value)),
        Action::Trap(call, kind) => (*call, Happening::Trapped(*kind)),
        _ => return None,
    };
    Some(Event {
        thread,
        call,
        happening,
    })
}

/// The number of a noted value among these.
fn find_noted<O: Observer>(
    observer: &O,
    pool: &Pool<O::Noted>,
    hash: u64,
    noted: &O::Noted,
) -> Option<usize>
    ensures { IfSome result (λ n. slice_get (map (O.stands observer.now) pool.now.values.items) n ≡
        Some (O.stands observer.now noted.now)) }
{
    let mut hint = pool.hints.last(hash);
    for _ in 0..pool.values.len() {
        let place = hint?;
        let kept = pool.values.get(place)?;
        if observer.is_same(kept, noted) {
            return Some(place);
        }
        hint = pool.hints.before(place);
    }
    None
}

/// The number of a noted value, which is kept if it is new.
pub fn keep_noted<O: Observer>(
    alloc: Global,
    observer: &O,
    pool: &mut Pool<O::Noted>,
    noted: O::Noted,
) -> Result<usize, AllocError>
    ensures number { IfOk result (λ n. slice_get (map (O.stands observer.now) pool.new.values.items) n ≡
        Some (O.stands observer.now noted)) }
    ensures keeps { Keeps (map (O.stands observer.now) pool.old.values.items)
        (map (O.stands observer.now) pool.new.values.items) }
{
    let hash = observer.hash(&noted);
    if let Some(number) = find_noted(observer, pool, hash, &noted) {
        return Ok(number);
    }
    let number = pool.values.len();
    pool.values.reserve(1)?;
    pool.hints.add(alloc, hash)?;
    pool.values.push_reserved(noted);
    Ok(number)
}

/// The number of what is noted after an action of a thread, from what was noted before it.
pub fn note<O: Observer>(
    alloc: Global,
    observer: &O,
    pool: &mut Pool<O::Noted>,
    noted: usize,
    thread: usize,
    action: &Action<Value>,
) -> Result<usize, AllocError>
    requires { noted < length pool.old.values.items }
    ensures number { IfOk result (λ n. slice_get (map (O.stands observer.now) pool.new.values.items) n ≡
        Some (fold (O.next observer.now)
        (slice_index_or (map (O.stands observer.now) pool.old.values.items) noted (O.first observer.now))
        (events_in (event_of thread action.now)))) }
    ensures keeps { Keeps (map (O.stands observer.now) pool.old.values.items)
        (map (O.stands observer.now) pool.new.values.items) }
{
    let Some(event) = event_of(thread, action) else {
        return Ok(noted);
    };
    let after = observer.after(alloc, &pool.values[noted], &event)?;
    keep_noted(alloc, observer, pool, after)
}
