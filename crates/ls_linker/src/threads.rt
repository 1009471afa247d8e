// The code of threads.

ghost use Rattle.std.specs.Prelude.{◌≡◌, ◌++◌, ◌+◌, ◌∷◌, [], ◌<◌, ◌≤◌, ◌^◌, All, IfOk, OnOk, length, map};
ghost use Rattle.ls_checked.specs.Plain.{plain_class};
ghost use Rattle.ls_checked.specs.PlainProgram.{plain_call, plain_thread};
ghost use Rattle.ls_preservation.specs.InWords.{word_of};
ghost use Rattle.ls_preservation.specs.Threads.{call_result, result_type};
ghost use Rattle.ls_meaning.specs.Expressions.{constructor_of};
ghost use Rattle.ls_linker.specs.Threads.{pushes, result_code, call_code, calls_code, call_need, calls_need};
ghost use Rattle.ls_code.specs.declared.instruction.Instruction.TheVariants as op;
ghost use Rattle.ls_linker.specs.Links.{IsWritten, CallLinks, ThreadLinks};
ghost use Rattle.ls_linker.specs.Added.{Adds, AddsThreads, PushesThread};

use ls_checked::program::{ProgramCall, ThreadProgram};
use ls_checked::tree::Class;
use ls_code::code::{CallResult, HandlerRow, Parts, Start};
use ls_code::instruction::Instruction;
use ls_events::value::{Value, ValueType};
use std::alloc::{AllocError, Global};

/// The word of an int or a boolean.
fn word_of(value: Value) -> u32
    requires { IsWritten value }
    ensures { result ≡ word_of value }
{
    match value {
        Value::Int(int) => int.cast_unsigned(),
        Value::Boolean(truth) => truth as u32,
        Value::Reference(_) | Value::Pair { .. } => unreachable!(),
    }
}

fn constructor_of(classes: &[Class], class: usize) -> usize
    ensures { result ≡ constructor_of (map plain_class classes.now) class }
{
    match classes.get(class) {
        Some(class) => class.constructor,
        None => 0,
    }
}

fn result_type(answers: Option<ValueType>) -> CallResult
    ensures { result ≡ result_type answers }
{
    match answers {
        Some(ValueType::Int) => CallResult::Int,
        Some(ValueType::Boolean) => CallResult::Boolean,
        _ => CallResult::Nothing,
    }
}

fn call_result(call: &ProgramCall) -> CallResult
    ensures { result ≡ call_result (plain_call call.now) }
{
    match call {
        ProgramCall::Making { .. } => CallResult::Nothing,
        ProgramCall::Calling {
            result: answers,
            ..
        } => result_type(*answers),
    }
}

fn push_values(code: &mut Vec<Instruction>, values: &[Value]) -> Result<(), AllocError>
    requires { All IsWritten values.now }
    ensures { OnOk result (Adds code.old.items (pushes values.now) code.new.items) }
{
    for value in values {
        code.push(Instruction::Push(word_of(*value)))?;
    }
    Ok(())
}

fn push_making(
    code: &mut Vec<Instruction>,
    number: u32,
    class: u32,
    constructor: u32,
    name: u32,
    values: &[Value],
) -> Result<(), AllocError>
    requires { All IsWritten values.now }
    ensures { OnOk result
        (Adds code.old.items (op.Call number ∷ op.NewObject class ∷ op.Dup ∷ pushes values.now ++ op.Enter constructor ∷
        op.Pop ∷ op.PutName name ∷ op.Result number ∷ []) code.new.items) }
{
    code.push(Instruction::Call(number))?;
    code.push(Instruction::NewObject(class))?;
    code.push(Instruction::Dup)?;
    push_values(code, values)?;
    code.push(Instruction::Enter(constructor))?;
    code.push(Instruction::Pop)?;
    code.push(Instruction::PutName(name))?;
    code.push(Instruction::Result(number))?;
    Ok(())
}

fn push_result(
    code: &mut Vec<Instruction>,
    number: u32,
    answers: CallResult,
) -> Result<(), AllocError>
    ensures { OnOk result (Adds code.old.items (result_code answers number) code.new.items) }
{
    if answers == CallResult::Nothing {
        code.push(Instruction::Pop)?;
    }
    code.push(Instruction::Result(number))?;
    Ok(())
}

fn push_calling(
    code: &mut Vec<Instruction>,
    number: u32,
    name: u32,
    method: u32,
    answers: CallResult,
    values: &[Value],
) -> Result<(), AllocError>
    requires { All IsWritten values.now }
    ensures { OnOk result
        (Adds code.old.items (op.Call number ∷ op.GetName name ∷ pushes values.now ++ op.Enter method ∷
        result_code answers number) code.new.items) }
{
    code.push(Instruction::Call(number))?;
    code.push(Instruction::GetName(name))?;
    push_values(code, values)?;
    code.push(Instruction::Enter(method))?;
    push_result(code, number, answers)?;
    Ok(())
}

fn push_call(
    code: &mut Vec<Instruction>,
    classes: &[Class],
    number: u32,
    call: &ProgramCall,
) -> Result<(), AllocError>
    requires { CallLinks (map plain_class classes.now) (plain_call call.now) }
    ensures { OnOk result (Adds code.old.items (call_code (map plain_class classes.now) number (plain_call call.now))
        code.new.items) }
{
    match call {
        ProgramCall::Making {
            name,
            class,
            class_name: _,
            values,
        } => {
            let constructor = constructor_of(classes, *class) as u32;
            push_making(
                code,
                number,
                *class as u32,
                constructor,
                *name as u32,
                values,
            )
        }
        ProgramCall::Calling {
            name,
            method,
            method_name: _,
            result: answers,
            values,
        } => {
            let answers = result_type(*answers);
            push_calling(code, number, *name as u32, *method as u32, answers, values)
        }
    }
}

// The calls from a number on, and what comes after them. The recursion is at most as deep as a thread has calls, which
// is at most 256.
#[tactic(auto, using(crate::proofs::Rooms::first_of_all, crate::proofs::Rooms::others_of_all))]
fn push_calls(
    code: &mut Vec<Instruction>,
    classes: &[Class],
    number: u32,
    calls: &[ProgramCall],
) -> Result<(), AllocError>
    requires numbers { number + length calls.now < 2 ^ 32 }
    requires links { All (λ call. CallLinks (map plain_class classes.now) (plain_call call)) calls.now }
    ensures { OnOk result
        (Adds code.old.items (calls_code (map plain_class classes.now) number (map plain_call calls.now))
        code.new.items) }
{
    match calls {
        [] => {
            code.push(Instruction::Halt)?;
            code.push(Instruction::Trap)?;
            Ok(())
        }
        [first, others @ ..] => {
            push_call(code, classes, number, first)?;
            push_calls(code, classes, number + 1, others)?;
            Ok(())
        }
    }
}

fn call_need(call: &ProgramCall) -> usize
    ensures { result ≡ call_need (plain_call call.now) }
{
    match call {
        ProgramCall::Making { values, .. } => 2 + values.len(),
        ProgramCall::Calling { values, .. } => 1 + values.len(),
    }
}

fn calls_need(calls: &[ProgramCall]) -> usize
    ensures { result ≡ calls_need (map plain_call calls.now) }
{
    match calls {
        [] => 1,
        [first, others @ ..] => call_need(first).max(calls_need(others)),
    }
}

fn call_results(alloc: Global, calls: &[ProgramCall]) -> Result<Vec<CallResult>, AllocError>
    ensures { IfOk result (λ v. v.items ≡ map call_result (map plain_call calls.now)) }
{
    let mut results = Vec::new(alloc);
    for call in calls {
        results.push(call_result(call))?;
    }
    Ok(results)
}

// A thread's code, and the handler row that leads each throw to the end of that code.
#[tactic(auto, using(crate::proofs::UnitSizes::thread_pushed))]
fn push_thread(
    code: &mut Vec<Instruction>,
    classes: &[Class],
    calls: &[ProgramCall],
) -> Result<HandlerRow, AllocError>
    requires few { length calls.now ≤ 256 }
    requires links { All (λ call. CallLinks (map plain_class classes.now) (plain_call call)) calls.now }
    ensures { IfOk result (λ row. PushesThread (map plain_class classes.now) code.old.items (map plain_call calls.now)
        code.new.items row) }
{
    let from = code.len();
    push_calls(code, classes, 1, calls)?;
    let last = code.len() - 1;
    Ok(HandlerRow {
        from,
        to: last,
        handler: last,
        depth: 0,
    })
}

fn add_thread(
    alloc: Global,
    parts: &mut Parts,
    classes: &[Class],
    thread: &ThreadProgram,
) -> Result<(), AllocError>
    requires { ThreadLinks (map plain_class classes.now) (plain_thread thread.now) }
    ensures { OnOk result
        (AddsThreads (map plain_class classes.now) parts.old (plain_thread thread.now ∷ []) parts.new) }
{
    let place = parts.instructions.len();
    let results = call_results(alloc, &thread.calls)?;
    let start = Start::new(place, calls_need(&thread.calls), results);
    parts.starts.push(start)?;
    let row = push_thread(&mut parts.instructions, classes, &thread.calls)?;
    parts.handlers.push(row)?;
    Ok(())
}

/// Puts threads after the code that is there. The only refusal is that memory ran out.
#[tactic(auto, using(crate::proofs::Rooms::first_of_all, crate::proofs::Rooms::others_of_all))]
pub fn add_threads(
    alloc: Global,
    parts: &mut Parts,
    classes: &[Class],
    threads: &[ThreadProgram],
) -> Result<(), AllocError>
    requires { All (λ thread. ThreadLinks (map plain_class classes.now) (plain_thread thread)) threads.now }
    ensures { OnOk result
        (AddsThreads (map plain_class classes.now) parts.old (map plain_thread threads.now) parts.new) }
{
    match threads {
        [] => Ok(()),
        [first, others @ ..] => {
            add_thread(alloc, parts, classes, first)?;
            add_threads(alloc, parts, classes, others)?;
            Ok(())
        }
    }
}
