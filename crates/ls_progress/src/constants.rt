// Whether the constants of a program's calls name no object.

ghost use Rattle.std.specs.Prelude.{IsTrue, map};
ghost use Rattle.ls_checked.specs.PlainProgram.{plain_call, plain_program, plain_thread};
ghost use Rattle.ls_meaning.specs.Constants.{CallHasConstants, CallsHaveConstants, ProgramHasConstants};
ghost use Rattle.ls_progress.specs.Constants.{ThreadsHaveConstants};

use ls_checked::program::{Program, ProgramCall, ThreadProgram};
use ls_renaming::trees::are_constant;

/// Whether those of a call name no object.
fn call_has_constants(call: &ProgramCall) -> bool
    ensures { IsTrue result → CallHasConstants (plain_call call.now) }
{
    match call {
        ProgramCall::Making { values, .. } => are_constant(values),
        ProgramCall::Calling { values, .. } => are_constant(values),
    }
}

fn calls_have_constants(calls: &[ProgramCall]) -> bool
    ensures { IsTrue result → CallsHaveConstants (map plain_call calls.now) }
{
    for call in calls {
        if !call_has_constants(call) {
            return false;
        }
    }
    true
}

fn thread_has_constants(thread: &ThreadProgram) -> bool
    ensures { IsTrue result → CallsHaveConstants (plain_thread thread.now).calls }
{
    calls_have_constants(&thread.calls)
}

fn threads_have_constants(threads: &[ThreadProgram]) -> bool
    ensures { IsTrue result → ThreadsHaveConstants (map plain_thread threads.now) }
{
    for thread in threads {
        if !thread_has_constants(thread) {
            return false;
        }
    }
    true
}

/// Whether those of a program name no object.
pub(crate) fn program_has_constants(program: &Program) -> bool
    ensures { IsTrue result → ProgramHasConstants (plain_program program.now) }
{
    threads_have_constants(&program.threads)
}
