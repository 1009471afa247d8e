// `wait`, `notify` and conditions (JLS 17.2). Who waits has a place, lets go of the lock, goes round a loop until it is
// woken, and takes the lock again. Those that wait are woken in the order of their places.

use crate::atomics::no_method;
use crate::parts::{keep, keep_reading};
use crate::writing::{emit, write};
use ls_java_tables::remarks::{Stop, What, Why};
use ls_java_tables::restater::{Around, Restater, is_named, is_waited_on, note, refuse, waits_on};
use ls_java_tables::ropes::Text;
use ls_java_tables::spelling::{bound, literal, nothing, value_of, word};
use ls_java_tables::values::{Constant, Kind, PRIMARY, Sort, Value, reads};
use ls_java_tables::words::WordId;
use ls_java_tree::names::Name;

/// Whether a name is that of a method by which threads wait for an object.
pub fn is_waiting(name: &Name) -> bool {
    is_named(name, "wait") || is_named(name, "notify") || is_named(name, "notifyAll")
}

// Whether a statement stands in a loop, without an `if` between them.
fn is_in_loop(restater: &Restater) -> bool {
    for around in restater.around.iter().rev() {
        match *around {
            Around::Loop => return true,
            Around::If => return false,
            Around::Method => return false,
            Around::Block => {}
            Around::Switch => {}
        }
    }
    false
}

// A wait has to stand in a loop, since Java may end it unwoken (JLS 17.2.1).
fn check_loop(restater: &mut Restater, at: usize) -> Result<(), Stop> {
    if is_in_loop(restater) {
        return Ok(());
    }
    refuse(restater, at, Why::WaitOutsideLoop)
}

// A member of an object that is added: of the one around by its name alone.
fn added(restater: &mut Restater, at: usize, object: Value, name: WordId) -> Result<Text, Stop> {
    let name = word(restater, name, at)?;
    if object.sort == Sort::Fixed {
        return Ok(name);
    }
    let target = bound(restater, object, PRIMARY)?;
    write(restater, at, "# . #", &[target, name])
}

/// The lock that stands for the monitor of an object.
pub fn monitor(restater: &mut Restater, at: usize, object: Value) -> Result<Text, Stop> {
    added(restater, at, object, restater.added.monitor)
}

// The condition on which those wait who wait for an object.
fn waiters(restater: &mut Restater, at: usize, object: Value) -> Result<Text, Stop> {
    added(restater, at, object, restater.added.waiters)
}

// Statements by which a lock is let go, and those by which it is taken.
#[derive(Clone, Copy)]
struct Ways {
    free: &'static str,
    take: &'static str,
}

const OF_LOCK: Ways = Ways {
    free: "# . unlock ( ) ;",
    take: "# . lock ( ) ;",
};

const OF_WRITE_LOCK: Ways = Ways {
    free: "# . unlockWrite ( ) ;",
    take: "# . lockWrite ( ) ;",
};

// A thread waits: it is the last one, and lets go of the lock until it may go on. Then it takes the lock again.
fn wait(
    restater: &mut Restater,
    out: &mut Text,
    at: usize,
    condition: Text,
    lock: Text,
    ways: Ways,
) -> Result<(), Stop> {
    let last = write(restater, at, "# . waiting", &[condition])?;
    let last = value_of(restater, last, Kind::Int, PRIMARY, Sort::Reading);
    let place = keep(restater, out, at, last)?.text;
    emit(
        restater,
        out,
        at,
        "# . waiting = # + 1 ;",
        &[condition, place],
    )?;
    emit(restater, out, at, ways.free, &[lock])?;
    emit(
        restater,
        out,
        at,
        "while ( # >= # . woken ) { }",
        &[place, condition],
    )?;
    emit(restater, out, at, ways.take, &[lock])
}

// A wait with a time: the lock is let go and taken again, as if the time had passed at once.
fn wait_for_time(
    restater: &mut Restater,
    out: &mut Text,
    at: usize,
    lock: Text,
    ways: Ways,
) -> Result<(), Stop> {
    emit(restater, out, at, ways.free, &[lock])?;
    emit(restater, out, at, ways.take, &[lock])?;
    note(restater, at, What::WaitTime)
}

// The one that waits longest goes on, if there is one; or all do.
fn wake(
    restater: &mut Restater,
    out: &mut Text,
    at: usize,
    condition: Text,
    all: bool,
) -> Result<Value, Stop> {
    if all {
        emit(
            restater,
            out,
            at,
            "# . woken = # . waiting ;",
            &[condition, condition],
        )?;
        return Ok(nothing());
    }
    emit(
        restater,
        out,
        at,
        "if ( # . woken < # . waiting ) { # . woken = # . woken + 1 ; }",
        &[condition, condition, condition, condition],
    )?;
    note(restater, at, What::Signal)?;
    Ok(nothing())
}

// `notify` of an object. Where no thread waits for such an object, nothing is to be done.
fn notify(
    restater: &mut Restater,
    out: &mut Text,
    name: &Name,
    object: Value,
) -> Result<Value, Stop> {
    let at = name.token;
    if !is_waited_on(restater, object.kind) {
        note(restater, at, What::Notify)?;
        return Ok(nothing());
    }
    let object = keep_reading(restater, out, at, object)?;
    let condition = waiters(restater, at, object)?;
    wake(restater, out, at, condition, is_named(name, "notifyAll"))
}

// What is waited with goes to a local if it reads: it is evaluated.
fn keep_each(
    restater: &mut Restater,
    out: &mut Text,
    at: usize,
    arguments: &[Value],
) -> Result<(), Stop> {
    for argument in arguments {
        if reads(*argument) {
            keep(restater, out, at, *argument)?;
        }
    }
    Ok(())
}

/// `wait` or `notify` of an object.
pub fn waiting_call(
    restater: &mut Restater,
    out: &mut Text,
    name: &Name,
    object: Value,
    arguments: &[Value],
) -> Result<Value, Stop> {
    let at = name.token;
    if !is_named(name, "wait") {
        return notify(restater, out, name, object);
    }
    match object.kind {
        Kind::Class(_) => {}
        Kind::Statics(_) => {}
        Kind::Key => {}
        _ => return refuse(restater, at, Why::SynchronizedOn),
    }
    waits_on(restater, object.kind)?;
    let object = keep_reading(restater, out, at, object)?;
    let lock = monitor(restater, at, object)?;
    if !arguments.is_empty() {
        keep_each(restater, out, at, arguments)?;
        wait_for_time(restater, out, at, lock, OF_LOCK)?;
        return Ok(nothing());
    }
    check_loop(restater, at)?;
    let condition = waiters(restater, at, object)?;
    wait(restater, out, at, condition, lock, OF_LOCK)?;
    note(restater, at, What::Wait)?;
    Ok(nothing())
}

// A wait for a condition with a time, which has passed when it ends: what is left is 0.
fn timed_await(
    restater: &mut Restater,
    out: &mut Text,
    name: &Name,
    lock: Text,
    ways: Ways,
    arguments: &[Value],
) -> Result<Value, Stop> {
    let at = name.token;
    let left = match (name.text.as_str(), arguments) {
        ("await", [_, _]) => Constant::Boolean(false),
        ("awaitNanos", [_]) => Constant::Int(0),
        _ => return no_method(restater, name, Why::NoLibraryMethod),
    };
    if let Some(time) = arguments.first() {
        keep_each(restater, out, at, &[*time])?;
    }
    wait_for_time(restater, out, at, lock, ways)?;
    literal(restater, left, at)
}

/// `await` or `signal` of a condition, which stands first, of a lock.
pub fn condition_call(
    restater: &mut Restater,
    out: &mut Text,
    name: &Name,
    on: [Value; 2],
    arguments: &[Value],
) -> Result<Value, Stop> {
    let at = name.token;
    let [condition, lock] = on;
    let condition = bound(restater, condition, PRIMARY)?;
    if is_named(name, "signal") || is_named(name, "signalAll") {
        return wake(restater, out, at, condition, is_named(name, "signalAll"));
    }
    let ways = match lock.kind {
        Kind::Lock => OF_LOCK,
        Kind::WriteLock => OF_WRITE_LOCK,
        _ => return no_method(restater, name, Why::NoLibraryMethod),
    };
    let lock = bound(restater, lock, PRIMARY)?;
    match (name.text.as_str(), arguments) {
        ("await" | "awaitUninterruptibly", []) => {
            check_loop(restater, at)?;
            wait(restater, out, at, condition, lock, ways)?;
            note(restater, at, What::Await)?;
            Ok(nothing())
        }
        _ => timed_await(restater, out, name, lock, ways, arguments),
    }
}
