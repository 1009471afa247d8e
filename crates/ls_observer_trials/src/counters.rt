// Two threads that each add one to a counter, and are answered what it held before.

use ls_automaton::outcome::Outcome;
use ls_events::event::{Event, Happening};
use ls_events::value::Value;
use ls_observers::observer::Observer;
use ls_source_judge::PairsObserver;
use std::alloc::{AllocError, Global};
use std::test::Fail;

fn called(thread: usize) -> Event {
    Event {
        thread,
        call: 1,
        happening: Happening::Called,
    }
}

fn answered(thread: usize, answer: i32) -> Event {
    Event {
        thread,
        call: 1,
        happening: Happening::Returned(Some(Value::Int(answer))),
    }
}

// The call of a thread is answered so, and then the state has this number.
fn outcome(thread: usize, answer: i32, after: usize) -> Outcome {
    Outcome {
        end: answered(thread, answer),
        after,
    }
}

// The counter as an automaton: in state 0 no call has run, in states 1 and 2 that of one thread, in state 3 both.
fn observer_of_both(alloc: Global) -> Result<PairsObserver, AllocError> {
    let rows = vec![in alloc;
        vec![in alloc; outcome(1, 0, 1), outcome(2, 0, 2)]?,
        vec![in alloc; outcome(2, 1, 3)]?,
        vec![in alloc; outcome(1, 1, 3)]?,
        Vec::new(alloc),
    ]?;
    PairsObserver::new(alloc, rows)
}

// After how many of the events the observer first calls the history bad, and the number of all where it never does.
fn first_bad(alloc: Global, events: &[Event]) -> Result<usize, AllocError> {
    let observer = observer_of_both(alloc)?;
    let mut noted = observer.start(alloc)?;
    for i in 0..events.len() {
        if observer.is_bad(&noted) {
            return Ok(i);
        }
        noted = observer.after(alloc, &noted, &events[i])?;
    }
    Ok(events.len())
}

#[test]
fn an_update_is_lost(rt: HostRuntime) -> Result<(), Fail> {
    let events = [
        called(1),
        called(2),
        answered(2, 0),
        answered(1, 0),
        called(3),
    ];
    assert_eq!(rt; first_bad(rt.alloc(), &events)?, 4);
    Ok(())
}

#[test]
fn calls_that_overlap(rt: HostRuntime) -> Result<(), Fail> {
    let events = [
        called(1),
        called(2),
        answered(1, 1),
        answered(2, 0),
        called(3),
    ];
    assert_eq!(rt; first_bad(rt.alloc(), &events)?, 5);
    Ok(())
}

#[test]
fn one_that_ended_before(rt: HostRuntime) -> Result<(), Fail> {
    let events = [called(1), answered(1, 1), called(2), called(3)];
    assert_eq!(rt; first_bad(rt.alloc(), &events)?, 2);
    Ok(())
}

// Whether the same is noted of two histories, and has the same number then.
fn is_noted_alike(alloc: Global, events: &[Event], others: &[Event]) -> Result<bool, AllocError> {
    let observer = observer_of_both(alloc)?;
    let mut noted = observer.start(alloc)?;
    for event in events {
        noted = observer.after(alloc, &noted, event)?;
    }
    let mut other = observer.start(alloc)?;
    for event in others {
        other = observer.after(alloc, &other, event)?;
    }
    Ok(observer.is_same(&noted, &other) && observer.hash(&noted) == observer.hash(&other))
}

#[test]
fn the_order_of_calls_that_overlap(rt: HostRuntime) -> Result<(), Fail> {
    let events = [called(1), called(2), answered(2, 0)];
    let others = [called(2), called(1), answered(2, 0)];
    assert!(rt; is_noted_alike(rt.alloc(), &events, &others)?);
    assert!(rt; !is_noted_alike(rt.alloc(), &events, &events[..2])?);
    Ok(())
}
