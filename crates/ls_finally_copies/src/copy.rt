// Copies of trees.

ghost use Rattle.std.specs.Prelude.{◌≡◌, IfOk};
ghost use Rattle.ls_lowered.specs.LoweredTree.{Block, Leavable};
ghost use Rattle.ls_lowered.specs.Plain.{plain, all_plain, plain_statement, statements_of};

use ls_lowered::tree::{Expression, Expressions, Statement};
use ls_together::{also, in_box, put};
use std::alloc::{AllocError, Global};

// A tree of two parts, which are copied first.
macro_rules! of_two {
    ($copied:ident($alloc:ident, $a:ident, $b:ident) => $tree:expr) => {{
        let ($a, $b) = $copied($alloc, $a, $b)?;
        Ok($tree)
    }};
}

/// The same expression once more. The only refusal is that memory ran out.
#[cycle(expressions)]
pub fn copy_expression(alloc: Global, e: &Expression) -> Result<Expression, AllocError>
    ensures { IfOk result (λ t. plain t ≡ plain e.now) }
{
    match e {
        Expression::Word(word) => Ok(Expression::Word(*word)),
        Expression::Local(number) => Ok(Expression::Local(*number)),
        Expression::Unary(op, e) => Ok(Expression::Unary(*op, boxed(alloc, e)?)),
        Expression::Binary(op, a, b) =>
            of_two!(boxed_two(alloc, a, b) => Expression::Binary(*op, a, b)),
        Expression::And(a, b) => of_two!(boxed_two(alloc, a, b) => Expression::And(a, b)),
        Expression::Or(a, b) => of_two!(boxed_two(alloc, a, b) => Expression::Or(a, b)),
        Expression::Hold(a, number, b) =>
            of_two!(boxed_two(alloc, a, b) => Expression::Hold(a, *number, b)),
        Expression::Keep(number, a, b) =>
            of_two!(boxed_two(alloc, a, b) => Expression::Keep(*number, a, b)),
        Expression::After(a, b) => of_two!(boxed_two(alloc, a, b) => Expression::After(a, b)),
        Expression::Field(e, number) => Ok(Expression::Field(boxed(alloc, e)?, *number)),
        Expression::Item(a, b) => of_two!(boxed_two(alloc, a, b) => Expression::Item(a, b)),
        Expression::SetFirst(a, b) => of_two!(boxed_two(alloc, a, b) => Expression::SetFirst(a, b)),
        Expression::ReadPair(e) => Ok(Expression::ReadPair(boxed(alloc, e)?)),
        Expression::SetPair(a, b) => of_two!(boxed_two(alloc, a, b) => Expression::SetPair(a, b)),
        Expression::SwapPair(e, a, b) => {
            let (e, (a, b)) = boxed_three(alloc, e, a, b)?;
            Ok(Expression::SwapPair(e, a, b))
        }
        Expression::AttemptMark(e, a, b) => {
            let (e, (a, b)) = boxed_three(alloc, e, a, b)?;
            Ok(Expression::AttemptMark(e, a, b))
        }
        Expression::OnLock(op, e) => Ok(Expression::OnLock(*op, boxed(alloc, e)?)),
        Expression::Call(method, e, arguments) => {
            let (e, arguments) = boxed_call(alloc, e, arguments)?;
            Ok(Expression::Call(*method, e, arguments))
        }
        Expression::MakeObject(class, constructor, arguments) => {
            Ok(Expression::MakeObject(*class, *constructor, boxed_all(alloc, arguments)?))
        }
        Expression::MakeLock => Ok(Expression::MakeLock),
        Expression::MakeMarkable(e) => Ok(Expression::MakeMarkable(boxed(alloc, e)?)),
        Expression::MakeArray(e) => Ok(Expression::MakeArray(boxed(alloc, e)?)),
    }
}

#[cycle(expressions)]
fn boxed(alloc: Global, e: &Expression) -> Result<Box<Expression>, AllocError>
    ensures { IfOk result (λ t. plain t.value ≡ plain e.now) }
{
    in_box(alloc, copy_expression(alloc, e)?)
}

#[cycle(expressions)]
fn boxed_two(
    alloc: Global,
    a: &Expression,
    b: &Expression,
) -> Result<(Box<Expression>, Box<Expression>), AllocError>
    ensures first { IfOk result (λ t. plain t.0.value ≡ plain a.now) }
    ensures second { IfOk result (λ t. plain t.1.value ≡ plain b.now) }
{
    let first = boxed(alloc, a)?;
    also(first, boxed(alloc, b))
}

#[cycle(expressions)]
fn boxed_three(
    alloc: Global,
    e: &Expression,
    a: &Expression,
    b: &Expression,
) -> Result<(Box<Expression>, (Box<Expression>, Box<Expression>)), AllocError>
    ensures first { IfOk result (λ t. plain t.0.value ≡ plain e.now) }
    ensures second { IfOk result (λ t. plain t.1.0.value ≡ plain a.now) }
    ensures third { IfOk result (λ t. plain t.1.1.value ≡ plain b.now) }
{
    let first = boxed(alloc, e)?;
    also(first, boxed_two(alloc, a, b))
}

#[cycle(expressions)]
fn boxed_call(
    alloc: Global,
    e: &Expression,
    es: &Expressions,
) -> Result<(Box<Expression>, Box<Expressions>), AllocError>
    ensures first { IfOk result (λ t. plain t.0.value ≡ plain e.now) }
    ensures others { IfOk result (λ t. all_plain t.1.value ≡ all_plain es.now) }
{
    let first = boxed(alloc, e)?;
    also(first, boxed_all(alloc, es))
}

#[cycle(expressions)]
fn boxed_all(alloc: Global, es: &Expressions) -> Result<Box<Expressions>, AllocError>
    ensures { IfOk result (λ t. all_plain t.value ≡ all_plain es.now) }
{
    match es {
        Expressions::End => in_box(alloc, Expressions::End),
        Expressions::More(first, others) => {
            let (first, others) = boxed_call(alloc, first, others)?;
            in_box(alloc, Expressions::More(first, others))
        }
    }
}

#[inline(never)]
fn copy_two(
    alloc: Global,
    a: &Expression,
    b: &Expression,
) -> Result<(Expression, Expression), AllocError>
    ensures first { IfOk result (λ t. plain t.0 ≡ plain a.now) }
    ensures second { IfOk result (λ t. plain t.1 ≡ plain b.now) }
{
    let a = copy_expression(alloc, a)?;
    let b = copy_expression(alloc, b);
    also(a, b)
}

#[inline(never)]
fn copy_three(
    alloc: Global,
    e: &Expression,
    a: &Expression,
    b: &Expression,
) -> Result<(Expression, (Expression, Expression)), AllocError>
    ensures first { IfOk result (λ t. plain t.0 ≡ plain e.now) }
    ensures second { IfOk result (λ t. plain t.1.0 ≡ plain a.now) }
    ensures third { IfOk result (λ t. plain t.1.1 ≡ plain b.now) }
{
    let e = copy_expression(alloc, e)?;
    let others = copy_two(alloc, a, b);
    also(e, others)
}

/// A block of the statements.
#[tactic(auto, using(ls_lowered::proofs::Rows::block_made))]
pub fn block_of(statements: Vec<Statement>) -> Statement
    ensures { plain_statement result ≡ Block (statements_of statements.items) }
{
    Statement::Block(statements)
}

/// A leavable statement.
#[tactic(auto, using(crate::proofs::Fronts::block_read))]
pub fn leavable_of(body: Box<Statement>, own: Vec<Statement>) -> Statement
    ensures { plain_statement result ≡ Leavable (plain_statement body.value) (statements_of own.items) }
{
    Statement::Leavable(body, own)
}

/// The same statement once more. The only refusal is that memory ran out.
#[cycle(statements)]
#[tactic(auto, using(ls_lowered::proofs::Rows::block_made, crate::proofs::Fronts::block_read))]
pub fn copy_statement(alloc: Global, s: &Statement) -> Result<Statement, AllocError>
    ensures { IfOk result (λ t. plain_statement t ≡ plain_statement s.now) }
{
    match s {
        Statement::Block(statements) => Ok(block_of(copy_block(alloc, statements.as_slice())?)),
        Statement::SetLocal(number, e) => Ok(Statement::SetLocal(
            *number,
            copy_expression(alloc, e)?,
        )),
        Statement::SetField(a, field, b) =>
            of_two!(copy_two(alloc, a, b) => Statement::SetField(a, *field, b)),
        Statement::AddField(a, field, b) =>
            of_two!(copy_two(alloc, a, b) => Statement::AddField(a, *field, b)),
        Statement::SetItem(array, index, value) => {
            let (array, (index, value)) = copy_three(alloc, array, index, value)?;
            Ok(Statement::SetItem(array, index, value))
        }
        Statement::Evaluate(e) => Ok(Statement::Evaluate(copy_expression(alloc, e)?)),
        Statement::If(e, first, second) => {
            let parts = two_parts(alloc, first, second)?;
            let ((first, second), e) = also(parts, copy_expression(alloc, e))?;
            Ok(Statement::If(e, first, second))
        }
        Statement::While(e, body) => {
            let body = part(alloc, body)?;
            let (body, e) = also(body, copy_expression(alloc, e))?;
            Ok(Statement::While(e, body))
        }
        Statement::Return(e) => Ok(Statement::Return(copy_expression(alloc, e)?)),
        Statement::Try(a, b) => of_two!(two_parts(alloc, a, b) => Statement::Try(a, b)),
        Statement::Guarded(a, number, b) =>
            of_two!(two_parts(alloc, a, b) => Statement::Guarded(a, *number, b)),
        Statement::Throw(number) => Ok(Statement::Throw(*number)),
        Statement::Leavable(body, own) => {
            let (body, own) = part_and_exits(alloc, body, own)?;
            Ok(leavable_of(body, own))
        }
        Statement::Leave(number) => Ok(Statement::Leave(*number)),
    }
}

// Not inlined, so that the frames of `copy_statement` stay small: trees over words can be hundreds of levels high.
#[cycle(statements)]
#[inline(never)]
fn part(alloc: Global, s: &Statement) -> Result<Box<Statement>, AllocError>
    ensures { IfOk result (λ t. plain_statement t.value ≡ plain_statement s.now) }
{
    in_box(alloc, copy_statement(alloc, s)?)
}

// Two parts of a statement.
#[cycle(statements)]
#[inline(never)]
fn two_parts(
    alloc: Global,
    first: &Statement,
    second: &Statement,
) -> Result<(Box<Statement>, Box<Statement>), AllocError>
    ensures first { IfOk result (λ p. plain_statement p.0.value ≡ plain_statement first.now) }
    ensures second { IfOk result (λ p. plain_statement p.1.value ≡ plain_statement second.now) }
{
    let first = part(alloc, first)?;
    also(first, part(alloc, second))
}

// The body and the exits of a leavable statement.
#[cycle(statements)]
#[inline(never)]
fn part_and_exits(
    alloc: Global,
    body: &Statement,
    own: &[Statement],
) -> Result<(Box<Statement>, Vec<Statement>), AllocError>
    ensures body { IfOk result (λ p. plain_statement p.0.value ≡ plain_statement body.now) }
    ensures own { IfOk result (λ p. statements_of p.1.items ≡ statements_of own.now) }
{
    let body = part(alloc, body)?;
    also(body, copy_block(alloc, own))
}

#[cycle(statements)]
#[tactic(auto, using(crate::proofs::Fronts::push_front))]
fn copy_block(alloc: Global, statements: &[Statement]) -> Result<Vec<Statement>, AllocError>
    ensures { IfOk result (λ v. statements_of v.items ≡ statements_of statements.now) }
{
    let mut out = Vec::new(alloc);
    for s in statements {
        put(&mut out, copy_statement(alloc, s)?)?;
    }
    Ok(out)
}
