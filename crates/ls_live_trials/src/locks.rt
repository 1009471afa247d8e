// What each step of a thread answers.

use ls_code::step::Did;
use ls_events::action::{Action, Answer};
use ls_image::image::Image;
use ls_lent_images::with_image;
use ls_machine::Machine;
use std::alloc::{AllocError, Global};
use std::test::Fail;

const LOCKED: &str = "class K { Lock l = new ReentrantLock(); void twice() { l.lock(); l.lock(); } \
    void out() { l.unlock(); } boolean tries() { return l.tryLock(); } }";

const TWICE_AND_TRIES: &str =
    "setup { k = new K(); } thread A { k.twice(); k.out(); k.out(); } thread B { k.tries(); k.tries(); }";

const BOTH_TWICE: &str = "setup { k = new K(); } thread A { k.twice(); } thread B { k.twice(); }";

const CELLS: usize = 100;

// More steps than the setup, or a call, takes.
const MANY: usize = 999;

// An answer as a letter: a call, its return, the entering of a method, the reads of a name and a field, a lock, an
// unlock, and whether a lock that was tried is had.
fn letter_of(action: Action<u64>, answer: Answer<u64>) -> char {
    match (action, answer) {
        (Action::Call(_), Answer::Done) => 'c',
        (Action::Return(_, _), Answer::Done) => 'r',
        (Action::Enter(_), Answer::Done) => 'e',
        (Action::ReadName(_), Answer::Gives(_)) => 'n',
        (Action::ReadField { .. }, Answer::Gives(_)) => 'f',
        (Action::Lock(_), Answer::Done) => 'L',
        (Action::Unlock(_), Answer::Done) => 'U',
        (Action::TryLock(_), Answer::Gives(1)) => 'T',
        (Action::TryLock(_), Answer::Gives(0)) => 'F',
        _ => '?',
    }
}

fn letter(did: Did) -> char {
    match did {
        Did::Silent => '-',
        Did::Waits => 'w',
        Did::Idle => 'i',
        Did::Stopped => 's',
        Did::Acted(action, answer) => letter_of(action, answer),
    }
}

// Adds what the steps of a thread answer, up to one with this letter, or so many.
fn tell(
    told: &mut String,
    machine: &mut Machine,
    thread: usize,
    most: usize,
    last: char,
) -> Result<(), AllocError> {
    for _ in 0..most {
        let one = letter(machine.step(thread));
        told.push(one)?;
        if one == last {
            break;
        }
    }
    Ok(())
}

// Steps of a thread whose answers nobody asks for.
fn pass(machine: &mut Machine, thread: usize, count: usize) {
    for _ in 0..count {
        let _ = machine.step(thread);
    }
}

// Adds what B answers alone up to its first try.
fn tell_alone(told: &mut String, machine: &mut Machine) -> Result<(), AllocError> {
    pass(machine, 0, MANY);
    tell(told, machine, 2, MANY, 'T')
}

// What B answers alone up to its first try, and how many steps these are.
fn alone(alloc: Global, image: &Image) -> Result<String, Fail> {
    let mut told = String::new(alloc);
    let mut machine = Machine::load(alloc, image.code(), CELLS)?;
    tell_alone(&mut told, &mut machine)?;
    Ok(told)
}

// Adds what B answers up to its try, A locks twice before the last of these, and what both answer from there to their
// ends, with strokes between them.
fn tell_lost(told: &mut String, machine: &mut Machine, before: usize) -> Result<(), AllocError> {
    pass(machine, 0, MANY);
    tell(told, machine, 2, before, 'T')?;
    told.push('/')?;
    tell(told, machine, 1, MANY, 'r')?;
    told.push('/')?;
    tell(told, machine, 2, 1, 'T')?;
    told.push('/')?;
    pass(machine, 1, MANY);
    tell(told, machine, 2, MANY, 'T')
}

// What both answer where A locks before B tries.
fn lost(alloc: Global, image: &Image, before: usize) -> Result<String, Fail> {
    let mut told = String::new(alloc);
    let mut machine = Machine::load(alloc, image.code(), CELLS)?;
    tell_lost(&mut told, &mut machine, before)?;
    Ok(told)
}

// The letters of answers that aren't silent.
fn loud(alloc: Global, told: &str) -> Result<String, AllocError> {
    let mut loud = String::new(alloc);
    for one in told.chars() {
        if one != '-' {
            loud.push(one)?;
        }
    }
    Ok(loud)
}

// Whether an answer begins with that of B alone up to its try, and then A's come.
fn begins_alone(told: &str, free: &str, before: usize) -> bool {
    told.get(..before) == free.get(..before) && told.get(before..=before) == Some("/")
}

#[test]
fn an_exchange_is_lost(rt: HostRuntime) -> Result<(), Fail> {
    let alloc = rt.alloc();
    let free = with_image(alloc, LOCKED, TWICE_AND_TRIES, |image| alone(alloc, image))?;
    assert_eq!(rt; loud(alloc, free.as_str())?.as_str(), "cnefT");
    let before = free.len().saturating_sub(1);
    let told = with_image(
        alloc,
        LOCKED,
        TWICE_AND_TRIES,
        |image| lost(alloc, image, before),
    )?;
    assert!(rt; begins_alone(told.as_str(), free.as_str(), before));
    assert_eq!(rt;
        loud(alloc, told.as_str())?.as_str(),
        "cnef/cnefLfLr/F/rcnefT"
    );
    Ok(())
}

// Adds what fifty steps of B answer while A has the lock.
fn tell_waiting(told: &mut String, machine: &mut Machine) -> Result<(), AllocError> {
    pass(machine, 0, MANY);
    pass(machine, 1, MANY);
    tell(told, machine, 2, 50, 'w')
}

// What fifty steps of B answer while A has the lock.
fn waiting(alloc: Global, image: &Image) -> Result<String, Fail> {
    let mut told = String::new(alloc);
    let mut machine = Machine::load(alloc, image.code(), CELLS)?;
    tell_waiting(&mut told, &mut machine)?;
    Ok(told)
}

#[test]
fn waiting_is_silent(rt: HostRuntime) -> Result<(), Fail> {
    let alloc = rt.alloc();
    let told = with_image(alloc, LOCKED, BOTH_TWICE, |image| waiting(alloc, image))?;
    assert_eq!(rt; told.len(), 50);
    assert_eq!(rt; loud(alloc, told.as_str())?.as_str(), "cnef");
    assert!(rt; told.as_str().ends_with('-'));
    Ok(())
}
