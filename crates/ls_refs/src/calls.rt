// Words of values, operators, and calls whose target and arguments are lowered.

ghost use Rattle.std.specs.Prelude.{◌≡◌, ℕ, ◌+◌, ◌≤◌, IfOk, map};
ghost use Rattle.ls_checked.specs.Plain.{plain_class};
ghost use Rattle.ls_lowered.specs.Plain.{plain, all_plain};
ghost use Rattle.ls_lowered.specs.LoweredTree.{Local, Unary, Hold, After, SetFirst, ReadPair, OnLock, AttemptMark};
ghost use Rattle.ls_lowered.specs.declared.tree.UnaryOperator.TheVariants as unary;
ghost use Rattle.ls_meaning.specs.Expressions.{constructor_of};
ghost use Rattle.ls_refs.specs.ValueWords.{value_word};
ghost use Rattle.ls_refs.specs.Calls.{lowered_operator, own_temporaries as those_of, first_of, rest_of, second_of};
ghost use Rattle.ls_refs.specs.Calls.{pack as packed, compare_and_set as swapping, get_both as getting, lowered_call};

use ls_checked::tree::{Called, Class, Operator};
use ls_events::value::Value;
use ls_lowered::tree::{BinaryOperator, Expression, Expressions, LockOperation, UnaryOperator};
use ls_together::{also, three, two};
use std::alloc::{AllocError, Global};

/// The word of a value.
pub fn value_word(v: Value) -> u64
    ensures { result ≡ value_word v }
{
    match v {
        Value::Int(int) => int.cast_unsigned() as u64,
        Value::Boolean(truth) => truth as u64,
        Value::Reference(number) => number,
        Value::Pair { reference, mark } => reference.wrapping_mul(2).wrapping_add(mark as u64),
    }
}

/// The operator on words for a checked operator.
pub fn operator(op: Operator) -> BinaryOperator
    ensures { result ≡ lowered_operator op }
{
    match op {
        Operator::Add => BinaryOperator::Add,
        Operator::Subtract => BinaryOperator::Subtract,
        Operator::Multiply => BinaryOperator::Multiply,
        Operator::Divide => BinaryOperator::Divide,
        Operator::Remainder => BinaryOperator::Remainder,
        Operator::Less => BinaryOperator::Less,
        Operator::LessEqual => BinaryOperator::LessEqual,
        Operator::Greater => BinaryOperator::Greater,
        Operator::GreaterEqual => BinaryOperator::GreaterEqual,
        Operator::Equal => BinaryOperator::Equal,
        Operator::NotEqual => BinaryOperator::NotEqual,
    }
}

/// The number of a class's constructor, or 0 if there is no such class.
pub fn constructor_of(classes: &[Class], class: usize) -> usize
    ensures { result ≡ constructor_of (map plain_class classes.now) class }
{
    match classes.get(class) {
        Some(class) => class.constructor,
        None => 0,
    }
}

/// How many temporaries a call itself needs.
pub fn own_temporaries(called: Called) -> usize
    ensures count { result ≡ those_of called }
    ensures few { result ≤ 4 }
{
    match called {
        Called::CompareAndSet => 4,
        Called::GetBoth(_) => 2,
        Called::Method(_)
        | Called::LockIt
        | Called::UnlockIt
        | Called::TryIt
        | Called::AskIt
        | Called::HoldMonitor(_)
        | Called::FreeMonitor(_)
        | Called::GetReference(_)
        | Called::IsMarked(_)
        | Called::SetBoth
        | Called::Attempt => 0,
    }
}

// The first argument, and those after it.
fn split(arguments: Expressions) -> (Expression, Expressions)
    ensures first { plain result.0 ≡ first_of (all_plain arguments) }
    ensures rest { all_plain result.1 ≡ rest_of (all_plain arguments) }
{
    match arguments {
        Expressions::End => (Expression::Word(0), Expressions::End),
        Expressions::More(first, rest) => (Box::into_inner(first), Box::into_inner(rest)),
    }
}

/// A reference and a mark as a pair. The only refusal is that memory ran out.
pub fn pack(
    alloc: Global,
    reference: Expression,
    mark: Expression,
) -> Result<Expression, AllocError>
    ensures { IfOk result (λ t. plain t ≡ packed (plain reference) (plain mark)) }
{
    let (reference, mark) = two(alloc, reference, mark)?;
    Ok(Expression::Binary(BinaryOperator::Pack, reference, mark))
}

/// The first two arguments as a pair. The only refusal is that memory ran out.
pub fn pack_arguments(alloc: Global, arguments: Expressions) -> Result<Expression, AllocError>
    ensures { IfOk result (λ t. plain t ≡ packed (first_of (all_plain arguments))
        (first_of (rest_of (all_plain arguments)))) }
{
    let (reference, rest) = split(arguments);
    let (mark, _) = split(rest);
    pack(alloc, reference, mark)
}

fn boxed_local(alloc: Global, number: usize) -> Result<Box<Expression>, AllocError>
    ensures { IfOk result (λ b. plain b.value ≡ Local number) }
{
    Ok(Box::new(alloc, Expression::Local(number))?)
}

// The pair of the reference and the mark in two locals.
fn pack_locals(alloc: Global, reference: usize, mark: usize) -> Result<Box<Expression>, AllocError>
    ensures { IfOk result (λ b. plain b.value ≡ packed (Local reference) (Local mark)) }
{
    let pair = pack(alloc, Expression::Local(reference), Expression::Local(mark))?;
    Ok(Box::new(alloc, pair)?)
}

fn hold(
    alloc: Global,
    value: Expression,
    number: usize,
    second: Expression,
) -> Result<Expression, AllocError>
    ensures { IfOk result (λ t. plain t ≡ Hold (plain value) number (plain second)) }
{
    let (value, second) = two(alloc, value, second)?;
    Ok(Expression::Hold(value, number, second))
}

// The target's word is kept on the operands while the four arguments go into temporaries.
fn hold_four(
    alloc: Global,
    free: usize,
    target: Expression,
    arguments: Expressions,
) -> Result<Expression, AllocError>
    requires { free + 4 ≤ 128 }
    ensures { IfOk result (λ t. let es = all_plain arguments in plain t ≡
        Hold (Hold (Hold (Hold (plain target) free (first_of es)) (free + 1) (second_of es)) (free + 2)
        (second_of (rest_of es))) (free + 3) (second_of (rest_of (rest_of es)))) }
{
    let (expected, rest) = split(arguments);
    let (new, rest) = split(rest);
    let (expected_mark, rest) = split(rest);
    let (new_mark, _) = split(rest);
    let held = hold(alloc, target, free, expected);
    let (marks, held) = also((new, (expected_mark, new_mark)), held)?;
    let held = hold(alloc, held, free + 1, marks.0);
    let ((expected_mark, new_mark), held) = also(marks.1, held)?;
    let held = hold(alloc, held, free + 2, expected_mark);
    let (new_mark, held) = also(new_mark, held)?;
    hold(alloc, held, free + 3, new_mark)
}

fn compare_and_set(
    alloc: Global,
    free: usize,
    target: Expression,
    arguments: Expressions,
) -> Result<Expression, AllocError>
    requires { free + 4 ≤ 128 }
    ensures { IfOk result (λ t. plain t ≡ swapping free (plain target) (all_plain arguments)) }
{
    let held = hold_four(alloc, free, target, arguments)?;
    let held = Box::new(alloc, held)?;
    let (held, expected) = also(held, pack_locals(alloc, free, free + 2))?;
    let new = pack_locals(alloc, free + 1, free + 3);
    let ((held, expected), new) = also((held, expected), new)?;
    Ok(Expression::SwapPair(held, expected, new))
}

fn half(alloc: Global, op: UnaryOperator, pair: usize) -> Result<Box<Expression>, AllocError>
    ensures { IfOk result (λ b. plain b.value ≡ Unary op (Local pair)) }
{
    Ok(Box::new(alloc, Expression::Unary(op, boxed_local(alloc, pair)?))?)
}

// The mark of the pair in the second local goes into the array in the first. The reference is the word.
fn spread(alloc: Global, free: usize) -> Result<Box<Expression>, AllocError>
    requires { free + 2 ≤ 128 }
    ensures { IfOk result (λ b. plain b.value ≡ After (SetFirst (Local free) (Unary unary.MarkOf (Local (free + 1))))
        (Unary unary.ReferenceOf (Local (free + 1)))) }
{
    let array = boxed_local(alloc, free)?;
    let (array, mark) = also(array, half(alloc, UnaryOperator::MarkOf, free + 1))?;
    let written = Box::new(alloc, Expression::SetFirst(array, mark))?;
    let reference = half(alloc, UnaryOperator::ReferenceOf, free + 1);
    let (written, reference) = also(written, reference)?;
    Ok(Box::new(alloc, Expression::After(written, reference))?)
}

fn get_both(
    alloc: Global,
    free: usize,
    target: Expression,
    array: Expression,
) -> Result<Expression, AllocError>
    requires { free + 2 ≤ 128 }
    ensures { IfOk result (λ t. plain t ≡ getting free (plain target) (plain array)) }
{
    let held = hold(alloc, target, free, array)?;
    let read = Expression::ReadPair(Box::new(alloc, held)?);
    let read = Box::new(alloc, read)?;
    let (read, after) = also(read, spread(alloc, free))?;
    Ok(Expression::Keep(free + 1, read, after))
}

fn half_of(alloc: Global, op: UnaryOperator, target: Expression) -> Result<Expression, AllocError>
    ensures { IfOk result (λ t. plain t ≡ Unary op (ReadPair (plain target))) }
{
    let pair = Expression::ReadPair(Box::new(alloc, target)?);
    Ok(Expression::Unary(op, Box::new(alloc, pair)?))
}

fn on_lock(alloc: Global, op: LockOperation, target: Expression) -> Result<Expression, AllocError>
    ensures { IfOk result (λ t. plain t ≡ OnLock op (plain target)) }
{
    Ok(Expression::OnLock(op, Box::new(alloc, target)?))
}

fn attempt(
    alloc: Global,
    target: Expression,
    arguments: Expressions,
) -> Result<Expression, AllocError>
    ensures { IfOk result (λ t. plain t ≡ AttemptMark (plain target) (first_of (all_plain arguments))
        (first_of (rest_of (all_plain arguments)))) }
{
    let (reference, rest) = split(arguments);
    let (mark, _) = split(rest);
    let (target, (reference, mark)) = three(alloc, target, reference, mark)?;
    Ok(Expression::AttemptMark(target, reference, mark))
}

/// The call of `called` on the target, with the arguments. Its temporaries begin at `free`. The only refusal is that
/// memory ran out.
pub fn call(
    alloc: Global,
    free: usize,
    called: Called,
    target: Expression,
    arguments: Expressions,
) -> Result<Expression, AllocError>
    requires { free + those_of called ≤ 128 }
    ensures { IfOk result (λ t. plain t ≡ lowered_call free called (plain target) (all_plain arguments)) }
{
    match called {
        Called::Method(method) => {
            let (target, arguments) = two(alloc, target, arguments)?;
            Ok(Expression::Call(method, target, arguments))
        }
        Called::LockIt => on_lock(alloc, LockOperation::Lock, target),
        Called::UnlockIt => on_lock(alloc, LockOperation::Unlock, target),
        Called::TryIt => on_lock(alloc, LockOperation::TryLock, target),
        Called::AskIt => on_lock(alloc, LockOperation::IsHeld, target),
        Called::HoldMonitor(_) => on_lock(alloc, LockOperation::LockMonitor, target),
        Called::FreeMonitor(_) => on_lock(alloc, LockOperation::UnlockMonitor, target),
        Called::GetReference(_) => half_of(alloc, UnaryOperator::ReferenceOf, target),
        Called::IsMarked(_) => half_of(alloc, UnaryOperator::MarkOf, target),
        Called::GetBoth(_) => {
            let (array, _) = split(arguments);
            get_both(alloc, free, target, array)
        }
        Called::SetBoth => {
            let (target, pair) = also(target, pack_arguments(alloc, arguments))?;
            let (target, pair) = two(alloc, target, pair)?;
            Ok(Expression::SetPair(target, pair))
        }
        Called::CompareAndSet => compare_and_set(alloc, free, target, arguments),
        Called::Attempt => attempt(alloc, target, arguments),
    }
}
