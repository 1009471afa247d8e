// Threads in words.

ghost use Rattle.std.specs.Prelude.{◌≡◌, ◌++◌, OnOk, map, option_map, string_bytes};
ghost use Rattle.std.specs.Option.{option_copied};
ghost use Rattle.ls_checked.specs.PlainProgram.{plain_program};
ghost use Rattle.ls_meaning.specs.Store.{Store, thing_at};
ghost use Rattle.ls_source_store.specs.SeenThing.{thing_of};
ghost use Rattle.ls_source.specs.Shown.{progress_of};
ghost use Rattle.ls_labels.specs.Names.{names_of};
ghost use Rattle.ls_labels.specs.Threads.{awaited_text, end_text, owner_of, start_text, thread_name, wait_text};

use crate::label::Label;
use crate::names::Names;
use crate::objects::add_object;
use ls_checked::program::Program;
use ls_events::action::Action;
use ls_events::value::Value;
use ls_source::run::SourceRun;
use ls_source_store::thing::{Hold, Thing};
use std::alloc::AllocError;

/// The name of a thread, by its number; the setup is thread 0.
pub fn thread_name(program: &Program, thread: usize) -> &str
    ensures { result.now ≡ thread_name (plain_program program.now) thread }
{
    match program.threads.get(thread) {
        Some(named) => named.name.as_str(),
        None => "",
    }
}

/// How a thread has ended.
pub fn end_words(has_trapped: bool) -> &'static str
    ensures { result.now ≡ end_text has_trapped }
{
    if has_trapped {
        " has ended with a trap"
    } else {
        " has ended"
    }
}

/// Why a thread hasn't started.
pub fn start_words(setup_has_trapped: bool) -> &'static str
    ensures { result.now ≡ start_text setup_has_trapped }
{
    if setup_has_trapped {
        " never starts: the setup has ended with a trap"
    } else {
        " hasn't started: the setup hasn't ended"
    }
}

/// The thread that owns a lock, or the monitor of an object; or none.
pub fn owner_of(thing: Option<&Thing>) -> Option<usize>
    ensures { result ≡ owner_of (option_map thing_of (option_copied thing.entry)) }
{
    match thing {
        Some(Thing::Lock(Hold::HeldBy { owner, .. })) => Some(*owner),
        Some(
            Thing::Object {
                monitor: Hold::HeldBy { owner, .. },
                ..
            },
        ) => Some(*owner),
        _ => None,
    }
}

// Adds what a thread waits for: a lock or a monitor that another thread owns.
fn push_awaited(
    out: &mut String,
    names: &Names,
    labels: &[Label],
    what: &str,
    lock: u64,
    owner: usize,
) -> Result<(), AllocError>
    ensures { OnOk result (string_bytes out.new
        ≡ string_bytes out.old ++ awaited_text (names_of names.now) labels.now what.now lock owner) }
{
    out.push_str(what)?;
    add_object(out, names, labels, lock)?;
    out.push_str(", which ")?;
    out.push_str(thread_name(names.program, owner))?;
    out.push_str(" owns")
}

/// The thing of this number among all things of a store. 0, which is null, names none.
fn thing_among(things: &[Thing], number: u64) -> Option<&Thing>
    ensures { (s : Store) → s.things ≡ map thing_of things.now →
        option_map thing_of (option_copied result) ≡ thing_at s number }
{
    if number == 0 {
        return None;
    }
    things.get((number - 1) as usize)
}

/// As `push_wait`, by the things of the run's store.
pub fn add_wait_among(
    out: &mut String,
    names: &Names,
    labels: &[Label],
    things: &[Thing],
    action: &Action<Value>,
) -> Result<(), AllocError>
    ensures { (s : Store) → s.things ≡ map thing_of things.now → OnOk result (string_bytes out.new
        ≡ string_bytes out.old ++ wait_text (names_of names.now) labels.now s action.now) }
{
    match action {
        Action::Lock(lock) => match owner_of(thing_among(things, *lock)) {
            Some(owner) => push_awaited(out, names, labels, "waits for ", *lock, owner),
            None => Ok(()),
        },
        Action::LockMonitor(object) => match owner_of(thing_among(things, *object)) {
            Some(owner) => push_awaited(
                out,
                names,
                labels,
                "waits for the monitor of ",
                *object,
                owner,
            ),
            None => Ok(()),
        },
        _ => Ok(()),
    }
}

/// As `push_wait`.
pub fn add_wait(
    out: &mut String,
    names: &Names,
    labels: &[Label],
    run: &SourceRun,
    action: &Action<Value>,
) -> Result<(), AllocError>
    ensures { OnOk result (string_bytes out.new
        ≡ string_bytes out.old ++ wait_text (names_of names.now) labels.now
        (progress_of run.now).state.store action.now) }
{
    add_wait_among(out, names, labels, run.things(), action)
}

/// Adds what a thread waits for, by the action that it asks for, as `waits for ReentrantLock#2, which A owns`. If the
/// action is on no lock or monitor that a thread owns, nothing is added. The only refusal is that memory ran out.
pub fn push_wait(
    out: &mut String,
    names: Names,
    labels: &[Label],
    run: &SourceRun,
    action: Action<Value>,
) -> Result<(), AllocError>
    ensures { OnOk result (string_bytes out.new
        ≡ string_bytes out.old ++ wait_text (names_of names.entry) labels.now
        (progress_of run.now).state.store action) }
{
    add_wait(out, &names, labels, run, &action)
}
