// Which statements need no lowering.

ghost use Rattle.std.specs.Prelude.{◌≡◌, true};
ghost use Rattle.ls_lowered.specs.Plain.{plain_statement, statements_of};
ghost use Rattle.ls_finally.specs.Stays.{IsFlat, AreFlat};

use ls_lowered::tree::Statement;

/// Whether a statement has no `try`, and no leavable statement in it has exits: it needs no lowering.
#[cycle(flats)]
#[tactic(auto, using(ls_finally_copies::proofs::Fronts::block_read))]
pub fn is_flat(s: &Statement) -> bool
    ensures { result ≡ true → IsFlat (plain_statement s.now) }
{
    match s {
        Statement::Block(statements) => are_flat(statements),
        Statement::If(_, first, second) | Statement::Guarded(first, _, second) => {
            is_flat(first) && is_flat(second)
        }
        Statement::Leavable(body, own) => own.is_empty() && is_flat(body),
        Statement::While(_, body) => is_flat(body),
        Statement::Try(_, _) => false,
        Statement::SetLocal(_, _)
        | Statement::SetField(_, _, _)
        | Statement::AddField(_, _, _)
        | Statement::SetItem(_, _, _)
        | Statement::Evaluate(_)
        | Statement::Return(_)
        | Statement::Throw(_)
        | Statement::Leave(_) => true,
    }
}

#[cycle(flats)]
fn are_flat(statements: &[Statement]) -> bool
    ensures { result ≡ true → AreFlat (statements_of statements.now) }
{
    for s in statements {
        if !is_flat(s) {
            return false;
        }
    }
    true
}
