// How many locals a method takes.

ghost use Rattle.ls_lowered.specs.Limits.{most_locals};
ghost use Rattle.std.specs.Prelude.{◌≡◌, ℕ, ◌+◌, ◌*◌, ◌≤◌, length};
ghost use Rattle.std.specs.Option.{SomeIff};
ghost use Rattle.ls_checked.specs.Plain.{plain_statement, plain_method, statements_of};
ghost use Rattle.ls_refs.specs.Temporaries.{taken, block_taken, locals_of};

use crate::expression_counts::{count_expression, more};
use ls_checked::tree::{Method, Statement};

/// So many locals, and those that a statement takes; none where they are over 128.
#[cycle(statements)]
#[tactic(auto, using(crate::proofs::Rows::block_read))]
pub fn count_statement(so_far: usize, s: &Statement) -> Option<usize>
    requires { so_far ≤ most_locals }
    ensures { SomeIff result (so_far + taken (plain_statement s.now) ≤ most_locals)
        (so_far + taken (plain_statement s.now)) }
{
    match s {
        Statement::Block(statements) => count_statements(so_far, statements),
        Statement::SetField {
            target,
            field: _,
            value,
        }
        | Statement::AddField {
            target,
            field: _,
            value,
        } => { count_expression(count_expression(so_far, target)?, value) }
        Statement::SetItem {
            array,
            index,
            value,
        } => {
            let so_far = count_expression(so_far, array)?;
            count_expression(count_expression(so_far, index)?, value)
        }
        Statement::SetSlot(_, e) | Statement::Evaluate(e) | Statement::ReturnValue(e) =>
            count_expression(so_far, e),
        Statement::If(condition, first, second) => {
            let so_far = count_expression(so_far, condition)?;
            count_statement(count_statement(so_far, first)?, second)
        }
        Statement::While(condition, body) => count_statement(
            count_expression(so_far, condition)?,
            body,
        ),
        Statement::Break(_) | Statement::Continue(_) | Statement::ReturnNothing => Some(so_far),
        Statement::Try(body, finally) => {
            let so_far = more(so_far, 2)?;
            count_statement(count_statement(so_far, body)?, finally)
        }
    }
}

#[cycle(statements)]
fn count_statements(so_far: usize, statements: &[Statement]) -> Option<usize>
    requires { so_far ≤ most_locals }
    ensures { SomeIff result (so_far + block_taken (statements_of statements.now) ≤ most_locals)
        (so_far + block_taken (statements_of statements.now)) }
{
    let mut count = so_far;
    for s in statements {
        count = count_statement(count, s)?;
    }
    Some(count)
}

/// All locals of a method; none where they are over 128.
pub fn count_locals(method: &Method) -> Option<usize>
    ensures { SomeIff result (locals_of (plain_method method.now) ≤ most_locals) (locals_of (plain_method method.now)) }
{
    count_statement(more(0, method.slots.len())?, &method.body)
}
