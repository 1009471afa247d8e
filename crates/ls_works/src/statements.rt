// Whether statements are the same.

ghost use Rattle.std.specs.Prelude.{◌≡◌, IsTrue};
ghost use Rattle.ls_checked.specs.Plain.{plain_statement, statements_of};

use crate::trees::is_same_expression;
use ls_checked::tree::Statement;

/// Whether a statement is the other. True only where it is.
#[cycle(statements)]
#[tactic(auto, using(ls_checked::proofs::Rows::block_made))]
pub fn is_same_statement(s: &Statement, other: &Statement) -> bool
    ensures { IsTrue result → plain_statement s.now ≡ plain_statement other.now }
{
    match (s, other) {
        (Statement::Block(ss), Statement::Block(ts)) => are_same_statements(ss, ts),
        (Statement::SetSlot(m, e), Statement::SetSlot(n, f)) => m == n && is_same_expression(e, f),
        (
            Statement::SetField {
                target: a,
                field: f,
                value: e,
            },
            Statement::SetField {
                target: b,
                field: g,
                value: d,
            },
        ) => f == g && is_same_expression(a, b) && is_same_expression(e, d),
        (
            Statement::AddField {
                target: a,
                field: f,
                value: e,
            },
            Statement::AddField {
                target: b,
                field: g,
                value: d,
            },
        ) => f == g && is_same_expression(a, b) && is_same_expression(e, d),
        (
            Statement::SetItem {
                array: a,
                index: i,
                value: e,
            },
            Statement::SetItem {
                array: b,
                index: j,
                value: d,
            },
        ) => is_same_expression(a, b) && is_same_expression(i, j) && is_same_expression(e, d),
        (Statement::Evaluate(e), Statement::Evaluate(d)) => is_same_expression(e, d),
        (Statement::If(e, a, x), Statement::If(d, b, y)) => {
            is_same_expression(e, d) && is_same_statement(a, b) && is_same_statement(x, y)
        }
        (Statement::While(e, a), Statement::While(d, b)) => {
            is_same_expression(e, d) && is_same_statement(a, b)
        }
        (Statement::Break(m), Statement::Break(n)) => m == n,
        (Statement::Continue(m), Statement::Continue(n)) => m == n,
        (Statement::ReturnNothing, Statement::ReturnNothing) => true,
        (Statement::ReturnValue(e), Statement::ReturnValue(d)) => is_same_expression(e, d),
        (Statement::Try(a, x), Statement::Try(b, y)) => {
            is_same_statement(a, b) && is_same_statement(x, y)
        }
        _ => false,
    }
}

/// Whether statements are the others, one by one. True only where they are.
#[cycle(statements)]
pub fn are_same_statements(statements: &[Statement], others: &[Statement]) -> bool
    ensures { IsTrue result → statements_of statements.now ≡ statements_of others.now }
{
    if statements.len() != others.len() {
        return false;
    }
    for (i, s) in statements.iter().enumerate() {
        if !is_same_statement(s, &others[i]) {
            return false;
        }
    }
    true
}
