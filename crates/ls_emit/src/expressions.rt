// The code of expressions.

ghost use Rattle.ls_code.specs.Limits.{most_instructions};
ghost use Rattle.std.specs.Prelude.{◌≡◌, ◌+◌, ◌<◌, ◌≤◌, ◌^◌, ◌++◌, [], ◌∷◌, IfOk, OnOk};
ghost use Rattle.ls_code.specs.declared.instruction.Instruction.TheVariants as op;
ghost use Rattle.ls_lowered.specs.LoweredTree.{Call};
ghost use Rattle.ls_lowered.specs.Plain.{plain, all_plain};
ghost use Rattle.ls_emit.specs.Expressions.{unary_code, binary_code, size, all_size, code, all_code};
ghost use Rattle.ls_emit.specs.LockCode.{lock_code, lock_size as size_of_lock};
ghost use Rattle.ls_emit.specs.Small.{IsSmall, AreSmall};

use crate::lengths::size_of;
use crate::locks::{lock_size, lower_lock};
use ls_code::instruction::Instruction;
use ls_lowered::tree::{BinaryOperator, Expression, Expressions, LockOperation, UnaryOperator};
use std::alloc::AllocError;

fn unary_instruction(op: UnaryOperator) -> Instruction
    ensures { result ≡ unary_code op }
{
    match op {
        UnaryOperator::Negate => Instruction::Neg,
        UnaryOperator::Not => Instruction::Not,
        UnaryOperator::ReferenceOf => Instruction::ReferenceOf,
        UnaryOperator::MarkOf => Instruction::MarkOf,
    }
}

fn binary_instruction(op: BinaryOperator) -> Instruction
    ensures { result ≡ binary_code op }
{
    match op {
        BinaryOperator::Add => Instruction::Add,
        BinaryOperator::Subtract => Instruction::Sub,
        BinaryOperator::Multiply => Instruction::Mul,
        BinaryOperator::Divide => Instruction::Div,
        BinaryOperator::Remainder => Instruction::Remainder,
        BinaryOperator::Less => Instruction::Lt,
        BinaryOperator::LessEqual => Instruction::Le,
        BinaryOperator::Greater => Instruction::Gt,
        BinaryOperator::GreaterEqual => Instruction::Ge,
        BinaryOperator::Equal => Instruction::Eq,
        BinaryOperator::NotEqual => Instruction::Ne,
        BinaryOperator::Pack => Instruction::Pack,
    }
}

// The read of a field: an object's monitor stands before its fields.
fn get_field(field: usize) -> Instruction
    requires { field + 1 < 2 ^ 32 }
    ensures { result ≡ op.GetField (field + 1) }
{
    Instruction::GetField((field + 1) as u32)
}

fn store(number: usize) -> Instruction
    requires { number < 2 ^ 32 }
    ensures { result ≡ op.Store number }
{
    Instruction::Store(number as u32)
}

fn enter(method: usize) -> Instruction
    requires { method < 2 ^ 32 }
    ensures { result ≡ op.Enter method }
{
    Instruction::Enter(method as u32)
}

/// Puts an instruction after those that are there. The only refusal is that memory ran out.
pub fn put(out: &mut Vec<Instruction>, instruction: Instruction) -> Result<(), AllocError>
    ensures { OnOk result (out.new.items ≡ out.old.items ++ instruction ∷ []) }
{
    out.push(instruction)?;
    Ok(())
}

// Two instructions.
fn put_two(
    out: &mut Vec<Instruction>,
    first: Instruction,
    second: Instruction,
) -> Result<(), AllocError>
    ensures { OnOk result (out.new.items ≡ out.old.items ++ first ∷ second ∷ []) }
{
    put(out, first)?;
    put(out, second)
}

/// Puts the code of an expression, which begins at a place, after the code that is there. Answers the place after it.
/// The only refusal is that memory ran out.
#[cycle(expressions)]
pub fn emit_expression(
    out: &mut Vec<Instruction>,
    place: usize,
    e: &Expression,
) -> Result<usize, AllocError>
    requires room { place + size (plain e.now) ≤ most_instructions }
    requires small { IsSmall (plain e.now) }
    ensures code { OnOk result (out.new.items ≡ out.old.items ++ code place (plain e.now)) }
    ensures next { IfOk result (λ next. (next ≡ place + size (plain e.now)) × (place < next)) }
{
    match e {
        Expression::Word(word) => emit_one(out, place, Instruction::Push(*word as u32)),
        Expression::Local(number) => emit_one(out, place, Instruction::Load(*number as u32)),
        Expression::MakeLock => emit_one(out, place, Instruction::NewLock),
        Expression::Unary(op, e) => emit_on(out, place, e, unary_instruction(*op)),
        Expression::Field(e, field) => emit_on(out, place, e, get_field(*field)),
        Expression::ReadPair(e) => emit_on(out, place, e, Instruction::ReadPair),
        Expression::MakeMarkable(e) => emit_on(out, place, e, Instruction::NewMarkable),
        Expression::MakeArray(e) => emit_on(out, place, e, Instruction::NewArray),
        Expression::OnLock(op, e) => {
            let next = emit_expression(out, place, e)?;
            emit_lock(out, next, *op)
        }
        Expression::Binary(op, a, b) => emit_on_two(out, place, a, b, binary_instruction(*op)),
        Expression::Hold(a, number, b) => emit_on_two(out, place, a, b, store(*number)),
        Expression::Item(a, b) => emit_on_two(out, place, a, b, Instruction::GetItem),
        Expression::SetPair(a, b) => {
            let next = emit_on_two(out, place, a, b, Instruction::SetPair)?;
            emit_one(out, next, Instruction::Push(0))
        }
        Expression::Keep(number, a, b) => emit_around(out, place, a, store(*number), b),
        Expression::After(a, b) => emit_around(out, place, a, Instruction::Pop, b),
        Expression::SetFirst(a, b) => {
            let next = emit_around(out, place, a, Instruction::Push(0), b)?;
            emit_two(out, next, Instruction::PutItem, Instruction::Push(0))
        }
        Expression::And(a, b) => emit_and(out, place, a, b),
        Expression::Or(a, b) => emit_or(out, place, a, b),
        Expression::SwapPair(e, a, b) => emit_on_three(out, place, e, a, b, Instruction::SwapPair),
        Expression::AttemptMark(e, a, b) => {
            emit_on_three(out, place, e, a, b, Instruction::AttemptMark)
        }
        Expression::Call(method, e, es) => emit_call(out, place, *method, e, es),
        Expression::MakeObject(class, method, es) => {
            let making = Instruction::NewObject(*class as u32);
            let next = emit_two(out, place, making, Instruction::Dup)?;
            let next = emit_all(out, next, es)?;
            emit_two(out, next, enter(*method), Instruction::Pop)
        }
    }
}

#[cycle(expressions)]
fn emit_call(
    out: &mut Vec<Instruction>,
    place: usize,
    method: usize,
    target: &Expression,
    arguments: &Expressions,
) -> Result<usize, AllocError>
    requires room { place + size (Call method (plain target.now) (all_plain arguments.now)) ≤ most_instructions }
    requires small { IsSmall (Call method (plain target.now) (all_plain arguments.now)) }
    ensures code { OnOk result (out.new.items ≡ out.old.items ++
        code place (Call method (plain target.now) (all_plain arguments.now))) }
    ensures next { IfOk result (λ next.
        (next ≡ place + size (Call method (plain target.now) (all_plain arguments.now))) × (place < next)) }
{
    let next = emit_expression(out, place, target)?;
    let next = emit_all(out, next, arguments)?;
    emit_one(out, next, enter(method))
}

// Arguments, from the left.
#[cycle(expressions)]
fn emit_all(out: &mut Vec<Instruction>, place: usize, es: &Expressions) -> Result<usize, AllocError>
    requires room { place + all_size (all_plain es.now) ≤ most_instructions }
    requires small { AreSmall (all_plain es.now) }
    ensures code { OnOk result (out.new.items ≡ out.old.items ++ all_code place (all_plain es.now)) }
    ensures next { IfOk result (λ next. next ≡ place + all_size (all_plain es.now)) }
{
    match es {
        Expressions::End => Ok(place),
        Expressions::More(first, others) => {
            let next = emit_expression(out, place, first)?;
            emit_all(out, next, others)
        }
    }
}

// One instruction.
fn emit_one(
    out: &mut Vec<Instruction>,
    place: usize,
    instruction: Instruction,
) -> Result<usize, AllocError>
    requires { place + 1 ≤ most_instructions }
    ensures code { OnOk result (out.new.items ≡ out.old.items ++ instruction ∷ []) }
    ensures next { IfOk result (λ next. (next ≡ place + 1) × (place < next)) }
{
    put(out, instruction)?;
    Ok(place + 1)
}

// Two instructions. Answers the place after them.
fn emit_two(
    out: &mut Vec<Instruction>,
    place: usize,
    first: Instruction,
    second: Instruction,
) -> Result<usize, AllocError>
    requires { place + 2 ≤ most_instructions }
    ensures code { OnOk result (out.new.items ≡ out.old.items ++ first ∷ second ∷ []) }
    ensures next { IfOk result (λ next. (next ≡ place + 2) × (place < next)) }
{
    put_two(out, first, second)?;
    Ok(place + 2)
}

// The code of an operation of a lock, whose word is there.
fn emit_lock(
    out: &mut Vec<Instruction>,
    place: usize,
    operation: LockOperation,
) -> Result<usize, AllocError>
    requires { place + size_of_lock operation ≤ most_instructions }
    ensures code { OnOk result (out.new.items ≡ out.old.items ++ lock_code place operation) }
    ensures next { IfOk result (λ next. next ≡ place + size_of_lock operation) }
{
    lower_lock(out, place, operation)?;
    Ok(place + lock_size(operation))
}

/// An instruction on the word of an expression. The only refusal is that memory ran out.
#[cycle(expressions)]
pub fn emit_on(
    out: &mut Vec<Instruction>,
    place: usize,
    e: &Expression,
    instruction: Instruction,
) -> Result<usize, AllocError>
    requires room { place + size (plain e.now) + 1 ≤ most_instructions }
    requires small { IsSmall (plain e.now) }
    ensures code { OnOk result (out.new.items ≡ out.old.items ++ (code place (plain e.now) ++ instruction ∷ [])) }
    ensures next { IfOk result (λ next. (next ≡ place + (size (plain e.now) + 1)) × (place < next)) }
{
    let next = emit_expression(out, place, e)?;
    put(out, instruction)?;
    Ok(next + 1)
}

/// An instruction on the words of two expressions. The only refusal is that memory ran out.
#[cycle(expressions)]
pub fn emit_on_two(
    out: &mut Vec<Instruction>,
    place: usize,
    a: &Expression,
    b: &Expression,
    instruction: Instruction,
) -> Result<usize, AllocError>
    requires room { place + size (plain a.now) + size (plain b.now) + 1 ≤ most_instructions }
    requires small { IsSmall (plain a.now) × IsSmall (plain b.now) }
    ensures code { OnOk result (out.new.items ≡ out.old.items ++
        (code place (plain a.now) ++ code (place + size (plain a.now)) (plain b.now) ++ instruction ∷ [])) }
    ensures next { IfOk result (λ next. (next ≡ place + (size (plain a.now) + size (plain b.now) + 1)) ×
        (place < next)) }
{
    let middle = emit_expression(out, place, a)?;
    let next = emit_expression(out, middle, b)?;
    put(out, instruction)?;
    Ok(next + 1)
}

/// An instruction on the words of three expressions. The only refusal is that memory ran out.
#[cycle(expressions)]
pub fn emit_on_three(
    out: &mut Vec<Instruction>,
    place: usize,
    e: &Expression,
    a: &Expression,
    b: &Expression,
    instruction: Instruction,
) -> Result<usize, AllocError>
    requires room { place + size (plain e.now) + size (plain a.now) + size (plain b.now) + 1 ≤ most_instructions }
    requires small { IsSmall (plain e.now) × IsSmall (plain a.now) × IsSmall (plain b.now) }
    ensures code { OnOk result (out.new.items ≡ out.old.items ++
        (code place (plain e.now) ++ code (place + size (plain e.now)) (plain a.now) ++
        code (place + size (plain e.now) + size (plain a.now)) (plain b.now) ++ instruction ∷ [])) }
    ensures next { IfOk result (λ next. (next ≡ place + (size (plain e.now) + size (plain a.now) + size (plain b.now) +
        1)) × (place < next)) }
{
    let first = emit_expression(out, place, e)?;
    let second = emit_expression(out, first, a)?;
    let next = emit_expression(out, second, b)?;
    put(out, instruction)?;
    Ok(next + 1)
}

// An expression, an instruction, and another expression.
#[cycle(expressions)]
fn emit_around(
    out: &mut Vec<Instruction>,
    place: usize,
    a: &Expression,
    instruction: Instruction,
    b: &Expression,
) -> Result<usize, AllocError>
    requires room { place + size (plain a.now) + size (plain b.now) + 1 ≤ most_instructions }
    requires small { IsSmall (plain a.now) × IsSmall (plain b.now) }
    ensures code { OnOk result (out.new.items ≡ out.old.items ++
        (code place (plain a.now) ++ instruction ∷ code (place + size (plain a.now) + 1) (plain b.now))) }
    ensures next { IfOk result (λ next. (next ≡ place + (size (plain a.now) + size (plain b.now) + 1)) ×
        (place < next)) }
{
    let middle = emit_expression(out, place, a)?;
    put(out, instruction)?;
    emit_expression(out, middle + 1, b)
}

#[cycle(expressions)]
fn emit_and(
    out: &mut Vec<Instruction>,
    place: usize,
    a: &Expression,
    b: &Expression,
) -> Result<usize, AllocError>
    requires room { place + size (plain a.now) + size (plain b.now) + 3 ≤ most_instructions }
    requires small { IsSmall (plain a.now) × IsSmall (plain b.now) }
    ensures code { OnOk result (out.new.items ≡ out.old.items ++
        (code place (plain a.now) ++ op.JumpIfFalse (place + size (plain a.now) + size (plain b.now) + 2) ∷ code
        (place + size (plain a.now) + 1) (plain b.now) ++ op.Jump (place + size (plain a.now) + size (plain b.now) + 3)
        ∷ op.Push 0 ∷ [])) }
    ensures next { IfOk result (λ next. (next ≡ place + (size (plain a.now) + size (plain b.now) + 3)) ×
        (place < next)) }
{
    let middle = emit_expression(out, place, a)?;
    let otherwise = middle + size_of(b) + 2;
    put(out, Instruction::JumpIfFalse(otherwise as u32))?;
    emit_expression(out, middle + 1, b)?;
    put_two(
        out,
        Instruction::Jump((otherwise + 1) as u32),
        Instruction::Push(0),
    )?;
    Ok(otherwise + 1)
}

#[cycle(expressions)]
fn emit_or(
    out: &mut Vec<Instruction>,
    place: usize,
    a: &Expression,
    b: &Expression,
) -> Result<usize, AllocError>
    requires room { place + size (plain a.now) + size (plain b.now) + 3 ≤ most_instructions }
    requires small { IsSmall (plain a.now) × IsSmall (plain b.now) }
    ensures code { OnOk result (out.new.items ≡ out.old.items ++
        (code place (plain a.now) ++ op.JumpIfFalse (place + size (plain a.now) + 3) ∷ op.Push 1 ∷ op.Jump
        (place + size (plain a.now) + size (plain b.now) + 3) ∷ code (place + size (plain a.now) + 3) (plain b.now))) }
    ensures next { IfOk result (λ next. (next ≡ place + (size (plain a.now) + size (plain b.now) + 3)) ×
        (place < next)) }
{
    let middle = emit_expression(out, place, a)?;
    let end = middle + size_of(b) + 3;
    put(out, Instruction::JumpIfFalse((middle + 3) as u32))?;
    put_two(out, Instruction::Push(1), Instruction::Jump(end as u32))?;
    emit_expression(out, middle + 3, b)?;
    Ok(end)
}
