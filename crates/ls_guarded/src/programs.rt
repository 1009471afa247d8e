// Whether the calls of a program are of some methods, on one object.

ghost use Rattle.std.specs.Prelude.{◌≡◌, Contains, IfSome, IsTrue, length, map};
ghost use Rattle.ls_checked.specs.Plain.{plain_file};
ghost use Rattle.ls_checked.specs.PlainProgram.{plain_call, plain_name, plain_program, plain_thread};
ghost use Rattle.ls_guarded.specs.Guards.{AreCallsOf, AreOnOne, AreThreadsOf, Guards, IsCallOf, IsCalm, IsOnOne};
ghost use Rattle.ls_guarded.specs.Guards.{IsSetup, IsSome};
ghost use Rattle.ls_guarded.specs.Guards.{NameNoObject};

use crate::clean::names_none;
use crate::guard::Guard;
use ls_checked::program::{Program, ProgramCall, SetupName, ThreadProgram};
use ls_checked::tree::File;
use ls_events::value::Value;

fn name_no_object(values: &[Value]) -> bool
    ensures { IsTrue result → NameNoObject values.now }
{
    for value in values {
        if !names_none(*value) {
            return false;
        }
    }
    true
}

fn is_one_of(methods: &[usize], method: usize) -> bool
    ensures { IsTrue result → Contains methods.now method }
{
    methods.contains(&method)
}

fn is_call_of(methods: &[usize], object: usize, call: &ProgramCall) -> bool
    ensures { IsTrue result → IsCallOf methods.now object (plain_call call.now) }
{
    match call {
        ProgramCall::Making { .. } => false,
        ProgramCall::Calling {
            name,
            method,
            values,
            ..
        } => *name == object && is_one_of(methods, *method) && name_no_object(values),
    }
}

fn are_calls_of(methods: &[usize], object: usize, calls: &[ProgramCall]) -> bool
    ensures { IsTrue result → AreCallsOf methods.now object (map plain_call calls.now) }
{
    for call in calls {
        if !is_call_of(methods, object, call) {
            return false;
        }
    }
    true
}

fn are_threads_of(methods: &[usize], object: usize, threads: &[ThreadProgram]) -> bool
    ensures { IsTrue result → AreThreadsOf methods.now object (map plain_thread threads.now) }
{
    for thread in threads {
        if !are_calls_of(methods, object, &thread.calls) {
            return false;
        }
    }
    true
}

// The name of the object that is made first, if it is of the class and all other calls are of the methods on it.
fn object_of(
    class: usize,
    methods: &[usize],
    names: &[SetupName],
    calls: &[ProgramCall],
) -> Option<usize>
    ensures { IfSome result (λ name.
        IsSetup class methods.now (length (map plain_name names.now)) name (map plain_call calls.now)) }
{
    match calls {
        [
            ProgramCall::Making {
                name,
                class: made,
                values,
                ..
            },
            others @ ..,
        ] => {
            if *made == class
                && *name < names.len()
                && name_no_object(values)
                && are_calls_of(methods, *name, others)
            {
                Some(*name)
            } else {
                None
            }
        }
        _ => None,
    }
}

fn are_on_one(
    class: usize,
    methods: &[usize],
    names: &[SetupName],
    threads: &[ThreadProgram],
) -> bool
    ensures { IsTrue result →
        AreOnOne class methods.now (length (map plain_name names.now)) (map plain_thread threads.now) }
{
    match threads {
        [setup, others @ ..] => match object_of(class, methods, names, &setup.calls) {
            Some(name) => are_threads_of(methods, name, others),
            None => false,
        },
        [] => false,
    }
}

/// Whether the setup makes one object of a class, and all other calls are of some methods on it.
pub fn is_on_one(class: usize, methods: &[usize], program: &Program) -> bool
    ensures { IsTrue result → IsOnOne class methods.now (plain_program program.now) }
{
    are_on_one(class, methods, &program.names, &program.threads)
}

fn is_some(guard: Guard) -> bool
    ensures { IsTrue result → IsSome guard }
{
    match guard {
        Guard::Monitor | Guard::Field(_) => true,
        Guard::No(_) => false,
    }
}

/// Whether it is told, without any step of the program, that each history of it is linearizable, and that no thread
/// waits where none acts: by what guards the methods of a class.
pub fn is_calm(
    guard: Guard,
    file: &File,
    class: usize,
    methods: &[usize],
    program: &Program,
) -> bool
    requires { Guards guard (plain_file file.now) class methods.now }
    ensures { IsTrue result → IsCalm (plain_file file.now) (plain_program program.now) }
{
    is_some(guard) && is_on_one(class, methods, program)
}
