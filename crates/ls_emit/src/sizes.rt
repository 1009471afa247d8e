// How long the code of statements is; 65,537 if it has over 65,536 instructions.

ghost use Rattle.ls_code.specs.Limits.{most_instructions};
ghost use Rattle.std.specs.Prelude.{◌≡◌, ◌+◌, ◌≤◌, ◌↔◌, All, IsTrue, min};
ghost use Rattle.ls_lowered.specs.Plain.{plain_statement, statements_of, plain_method};
ghost use Rattle.ls_emit.specs.Statements.{statement_size, statements_size, exits_size};
ghost use Rattle.ls_emit.specs.Units.{method_size};

use crate::lengths::{MOST_INSTRUCTIONS, TOO_MANY, count_expression, more};
use ls_lowered::tree::{Method, Statement};

// The count of `so_far` instructions and those of a statement; at most 65,537.
#[cycle(statements)]
#[tactic(auto, using(crate::proofs::Blocks::block_read))]
fn count_statement(so_far: usize, s: &Statement) -> usize
    requires { so_far ≤ 65537 }
    ensures { result ≡ min (so_far + statement_size (plain_statement s.now)) 65537 }
{
    if so_far == TOO_MANY {
        return so_far;
    }
    match s {
        Statement::Block(statements) => count_statements(so_far, statements),
        Statement::SetLocal(_, e) | Statement::Evaluate(e) | Statement::Return(e) => {
            more(count_expression(so_far, e), 1)
        }
        Statement::SetField(object, _, value) => {
            more(count_expression(count_expression(so_far, object), value), 1)
        }
        Statement::AddField(object, _, value) => {
            more(count_expression(count_expression(so_far, object), value), 4)
        }
        Statement::SetItem(array, index, value) => {
            let so_far = count_expression(count_expression(so_far, array), index);
            more(count_expression(so_far, value), 1)
        }
        Statement::If(condition, first, second) => {
            let so_far = count_expression(so_far, condition);
            more(count_statement(count_statement(so_far, first), second), 2)
        }
        Statement::While(condition, body) => {
            more(
                count_statement(count_expression(so_far, condition), body),
                2,
            )
        }
        Statement::Leave(_) => more(so_far, 1),
        Statement::Try(_, _) => so_far,
        Statement::Guarded(body, _, handler) => {
            more(count_statement(count_statement(so_far, body), handler), 2)
        }
        Statement::Throw(_) => more(so_far, 2),
        Statement::Leavable(body, exits) => count_exits(count_statement(so_far, body), exits),
    }
}

#[cycle(statements)]
fn count_statements(so_far: usize, statements: &[Statement]) -> usize
    requires { so_far ≤ 65537 }
    ensures { result ≡ min (so_far + statements_size (statements_of statements.now)) 65537 }
{
    let mut count = so_far;
    for s in statements {
        count = count_statement(count, s);
    }
    count
}

// The count of `so_far` instructions and those of exits, each after a jump; at most 65,537.
#[cycle(statements)]
fn count_exits(so_far: usize, exits: &[Statement]) -> usize
    requires { so_far ≤ 65537 }
    ensures { result ≡ min (so_far + exits_size (statements_of exits.now)) 65537 }
{
    let mut count = so_far;
    for x in exits {
        count = count_statement(more(count, 1), x);
    }
    count
}

/// How many instructions a statement has.
pub fn size_of_statement(s: &Statement) -> usize
    requires { statement_size (plain_statement s.now) ≤ most_instructions }
    ensures { result ≡ statement_size (plain_statement s.now) }
{
    count_statement(0, s)
}

// Whether a method's code isn't too long.
fn is_short(method: &Method) -> bool
    ensures { IsTrue result ↔ (method_size (plain_method method.now) ≤ most_instructions) }
{
    count_statement(2, &method.body) <= MOST_INSTRUCTIONS
}

/// Whether no method's code is too long.
pub fn are_short(methods: &[Method]) -> bool
    ensures { IsTrue result ↔ All (λ m. method_size (plain_method m) ≤ most_instructions) methods.now }
{
    methods.iter().all(|method| is_short(method))
}
