// The images that are timed. Each thread has one call of one method, which loops for a long time, or many calls of a
// short method.

use ls_code::code::{CallResult, Method, Parts, Start};
use ls_code::instruction::Instruction;
use std::alloc::{AllocError, Global};

/// What is timed.
#[derive(Clone, Copy, Debug, PartialEq, Eq)]
pub enum Part {
    /// A loop that adds one to a local.
    Arithmetic,
    /// A loop that adds one to a field.
    Fields,
    /// A loop that calls a method.
    Calls,
    /// A loop that takes a lock and gives it back, by loads and exchanges of its word, as compiled code does.
    Locks,
    /// The same loop by the instructions of whole lock operations, which compiled code doesn't have.
    WholeLocks,
    /// The first loop in two threads.
    Turns,
    /// 256 calls of a method without a loop.
    Methods,
}

/// How many calls the part of short methods has.
const SHORT_CALLS: u32 = 256;

/// How many steps the part of short methods takes: four around each call and eight in its method.
pub const SHORT_STEPS: u64 = 256 * 12;

/// The image of a part.
pub fn image(alloc: Global, part: Part) -> Result<Parts, AllocError> {
    match part {
        Part::Methods => short_calls(alloc),
        _ => loops(alloc, part),
    }
}

/// The image of 256 calls of a short method.
fn short_calls(alloc: Global) -> Result<Parts, AllocError> {
    let mut instructions = Vec::new(alloc);
    add(&mut instructions, &[Instruction::Halt])?;
    for before in 0..SHORT_CALLS {
        add(&mut instructions, &short_call(before + 1))?;
    }
    add(&mut instructions, &[Instruction::Halt])?;
    let start = instructions.len();
    add(&mut instructions, &short_method())?;
    let mut methods = Vec::new(alloc);
    methods.push(method(start, 0, 2))?;
    let calls = vec![in alloc; CallResult::Int; SHORT_CALLS as usize]?;
    let mut starts = Vec::new(alloc);
    starts.push(Start::new(0, 0, Vec::new(alloc)))?;
    starts.push(Start::new(1, 1, calls))?;
    Ok(Parts {
        instructions,
        handlers: Vec::new(alloc),
        methods,
        sizes: vec![in alloc; 1]?,
        starts,
        names: 0,
    })
}

/// The image of a loop.
fn loops(alloc: Global, part: Part) -> Result<Parts, AllocError> {
    let mut instructions = Vec::new(alloc);
    add(&mut instructions, &start_code())?;
    match part {
        Part::Arithmetic | Part::Turns => add(&mut instructions, &local_loop())?,
        Part::Fields => add(&mut instructions, &field_loop())?,
        Part::Locks => add(&mut instructions, &lock_loop())?,
        Part::WholeLocks => add(&mut instructions, &whole_lock_loop())?,
        Part::Calls | Part::Methods => add(&mut instructions, &call_loop())?,
    }
    let mut methods = Vec::new(alloc);
    methods.push(method(6, 1, 4))?;
    methods.push(method(13, 0, 1))?;
    Ok(Parts {
        instructions,
        handlers: Vec::new(alloc),
        methods,
        sizes: vec![in alloc; 1]?,
        starts: starts(alloc)?,
        names: 0,
    })
}

/// Adds some instructions.
fn add(instructions: &mut Vec<Instruction>, more: &[Instruction]) -> Result<(), AllocError> {
    for instruction in more {
        instructions.push(*instruction)?;
    }
    Ok(())
}

/// A method of one argument.
fn method(start: usize, more: usize, need: usize) -> Method {
    Method {
        start,
        arguments: 1,
        more,
        need,
    }
}

/// The setup, and two threads of one call each.
fn starts(alloc: Global) -> Result<Vec<Start>, AllocError> {
    let mut starts = Vec::new(alloc);
    starts.push(Start::new(0, 0, Vec::new(alloc)))?;
    for _ in 0..2 {
        starts.push(Start::new(1, 1, vec![in alloc; CallResult::Nothing]?))?;
    }
    Ok(starts)
}

/// The setup, which has nothing to do, and a call of method 0 of a new object.
fn start_code() -> [Instruction; 6] {
    [
        Instruction::Halt,
        Instruction::Call(1),
        Instruction::NewObject(0),
        Instruction::Enter(0),
        Instruction::Result(1),
        Instruction::Halt,
    ]
}

/// A call of method 0 of a new object, which has this number.
fn short_call(number: u32) -> [Instruction; 4] {
    [
        Instruction::Call(number),
        Instruction::NewObject(0),
        Instruction::Enter(0),
        Instruction::Result(number),
    ]
}

/// `return (20 + 3) * 2 - 4;`
fn short_method() -> [Instruction; 8] {
    [
        Instruction::Push(20),
        Instruction::Push(3),
        Instruction::Add,
        Instruction::Push(2),
        Instruction::Mul,
        Instruction::Push(4),
        Instruction::Sub,
        Instruction::LeaveWith,
    ]
}

fn local_loop() -> [Instruction; 10] {
    [
        Instruction::Load(1),
        Instruction::Push(2_000_000_000),
        Instruction::Lt,
        Instruction::JumpIfFalse(15),
        Instruction::Load(1),
        Instruction::Push(1),
        Instruction::Add,
        Instruction::Store(1),
        Instruction::Turn(6),
        Instruction::Leave,
    ]
}

fn field_loop() -> [Instruction; 13] {
    [
        Instruction::Load(0),
        Instruction::GetField(1),
        Instruction::Push(2_000_000_000),
        Instruction::Lt,
        Instruction::JumpIfFalse(18),
        Instruction::Load(0),
        Instruction::Load(0),
        Instruction::GetField(1),
        Instruction::Push(1),
        Instruction::Add,
        Instruction::PutField(1),
        Instruction::Turn(6),
        Instruction::Leave,
    ]
}

fn call_loop() -> [Instruction; 9] {
    [
        Instruction::Load(0),
        Instruction::Enter(1),
        Instruction::Load(0),
        Instruction::Enter(1),
        Instruction::Turn(6),
        Instruction::Leave,
        Instruction::Leave,
        Instruction::Leave,
        Instruction::Leave,
    ]
}

// The first three make the lock.
fn lock_loop() -> [Instruction; 18] {
    [
        Instruction::Load(0),
        Instruction::NewLock,
        Instruction::PutField(1),
        Instruction::Load(0),
        Instruction::GetField(1),
        Instruction::See(1),
        Instruction::Take(1),
        Instruction::JumpIfFalse(11),
        Instruction::Pop,
        Instruction::Push(0),
        Instruction::Pop,
        Instruction::Load(0),
        Instruction::GetField(1),
        Instruction::See(3),
        Instruction::DropLock(0),
        Instruction::Push(0),
        Instruction::Pop,
        Instruction::Turn(9),
    ]
}

fn whole_lock_loop() -> [Instruction; 14] {
    [
        Instruction::Load(0),
        Instruction::NewLock,
        Instruction::PutField(1),
        Instruction::Load(0),
        Instruction::GetField(1),
        Instruction::Lock,
        Instruction::Push(0),
        Instruction::Pop,
        Instruction::Load(0),
        Instruction::GetField(1),
        Instruction::Unlock,
        Instruction::Push(0),
        Instruction::Pop,
        Instruction::Turn(9),
    ]
}
