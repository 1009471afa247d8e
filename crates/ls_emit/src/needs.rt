// How many operands a tree's code has at most at one time.

ghost use Rattle.ls_code.specs.Limits.{most_instructions};
ghost use Rattle.std.specs.Prelude.{◌≡◌, ◌≤◌, max};
ghost use Rattle.ls_lowered.specs.Plain.{plain, all_plain, plain_statement, statements_of};
ghost use Rattle.ls_emit.specs.Expressions.{size, all_size};
ghost use Rattle.ls_emit.specs.Statements.{statement_size, statements_size};
ghost use Rattle.ls_emit.specs.Needs.{need as need_of, all_need as all_need_of, statement_need as statement_need_of};
ghost use Rattle.ls_emit.specs.Needs.{statements_need as statements_need_of};

use ls_lowered::tree::{Expression, Expressions, Statement};

/// The larger of two numbers.
pub fn larger(a: usize, b: usize) -> usize
    ensures { result ≡ max a b }
{
    if a <= b { b } else { a }
}

/// The need of an expression whose code isn't too long.
#[cycle(expressions)]
pub fn need(e: &Expression) -> usize
    requires { size (plain e.now) ≤ most_instructions }
    ensures need { result ≡ need_of (plain e.now) }
    ensures some { 1 ≤ result }
    ensures few { result ≤ size (plain e.now) }
{
    match e {
        Expression::Word(_) | Expression::Local(_) | Expression::MakeLock => 1,
        Expression::Unary(_, e)
        | Expression::Field(e, _)
        | Expression::ReadPair(e)
        | Expression::MakeMarkable(e)
        | Expression::MakeArray(e) => need(e),
        Expression::OnLock(_, e) => need(e) + 1,
        Expression::Binary(_, a, b)
        | Expression::Hold(a, _, b)
        | Expression::Item(a, b)
        | Expression::SetPair(a, b) => larger(need(a), 1 + need(b)),
        Expression::And(a, b)
        | Expression::Or(a, b)
        | Expression::Keep(_, a, b)
        | Expression::After(a, b) => larger(need(a), need(b)),
        Expression::SetFirst(a, b) => larger(need(a), 2 + need(b)),
        Expression::SwapPair(e, a, b) | Expression::AttemptMark(e, a, b) => {
            larger(need(e), larger(1 + need(a), 2 + need(b)))
        }
        Expression::Call(_, e, es) => larger(need(e), 1 + all_need(es)),
        Expression::MakeObject(_, _, es) => 2 + all_need(es),
    }
}

#[cycle(expressions)]
fn all_need(es: &Expressions) -> usize
    requires { all_size (all_plain es.now) ≤ most_instructions }
    ensures need { result ≡ all_need_of (all_plain es.now) }
    ensures few { result ≤ all_size (all_plain es.now) }
{
    match es {
        Expressions::End => 0,
        Expressions::More(first, others) => larger(need(first), 1 + all_need(others)),
    }
}

/// The need of a statement whose code isn't too long.
#[cycle(statements)]
#[tactic(auto, using(crate::proofs::Blocks::block_read, crate::proofs::Weights::exits_hold))]
pub fn statement_need(s: &Statement) -> usize
    requires { statement_size (plain_statement s.now) ≤ most_instructions }
    ensures need { result ≡ statement_need_of (plain_statement s.now) }
    ensures few { result ≤ statement_size (plain_statement s.now) }
{
    match s {
        Statement::Block(statements) => statements_need(statements),
        Statement::SetLocal(_, e) | Statement::Evaluate(e) | Statement::Return(e) => need(e),
        Statement::SetField(object, _, value) => larger(need(object), 1 + need(value)),
        Statement::AddField(object, _, value) => larger(need(object), 2 + need(value)),
        Statement::SetItem(array, index, value) => {
            larger(need(array), larger(1 + need(index), 2 + need(value)))
        }
        Statement::If(condition, first, second) => {
            larger(
                need(condition),
                larger(statement_need(first), statement_need(second)),
            )
        }
        Statement::While(condition, body) => larger(need(condition), statement_need(body)),
        Statement::Try(_, _) | Statement::Leave(_) => 0,
        Statement::Guarded(body, _, handler) => {
            larger(1, larger(statement_need(body), statement_need(handler)))
        }
        Statement::Throw(_) => 1,
        Statement::Leavable(body, exits) => larger(statement_need(body), statements_need(exits)),
    }
}

#[cycle(statements)]
fn statements_need(statements: &[Statement]) -> usize
    requires { statements_size (statements_of statements.now) ≤ most_instructions }
    ensures need { result ≡ statements_need_of (statements_of statements.now) }
    ensures few { result ≤ statements_size (statements_of statements.now) }
{
    let mut most = 0;
    for s in statements {
        most = larger(most, statement_need(s));
    }
    most
}
