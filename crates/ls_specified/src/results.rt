// The types of what calls answer.

ghost use Rattle.std.specs.Prelude.{◌≡◌, ◌++◌, IfOk, OnOk, map};
ghost use Rattle.std.specs.Bool.{Decides};
ghost use Rattle.ls_checked.specs.PlainProgram.{plain_call, plain_thread};
ghost use Rattle.ls_specified.specs.Specified.{call_results, result_of, results_of};

use ls_checked::program::{ProgramCall, ThreadProgram};
use ls_events::value::ValueType;
use std::alloc::{AllocError, Global};

/// The type that a call answers, if it answers a value.
fn result_of(call: &ProgramCall) -> Option<ValueType>
    ensures { result ≡ result_of (plain_call call.now) }
{
    match call {
        ProgramCall::Making { .. } => None,
        ProgramCall::Calling { result, .. } => *result,
    }
}

/// Adds those of calls.
fn push_results(
    results: &mut Vec<Option<ValueType>>,
    calls: &[ProgramCall],
) -> Result<(), AllocError>
    ensures { OnOk result (results.new.items ≡ results.old.items ++ call_results (map plain_call calls.now)) }
{
    for call in calls {
        results.push(result_of(call))?;
    }
    Ok(())
}

/// Those of the calls of threads, one after another. The only refusal is that memory ran out.
pub(crate) fn results_of(
    alloc: Global,
    threads: &[ThreadProgram],
) -> Result<Vec<Option<ValueType>>, AllocError>
    ensures { IfOk result (λ v. v.items ≡ results_of (map plain_thread threads.now)) }
{
    let mut results = Vec::new(alloc);
    for thread in threads {
        push_results(&mut results, thread.calls.as_slice())?;
    }
    Ok(results)
}

/// Whether types are the same, one by one.
pub(crate) fn are_same(first: &[Option<ValueType>], second: &[Option<ValueType>]) -> bool
    ensures { Decides result (first.now ≡ second.now) }
{
    first == second
}
