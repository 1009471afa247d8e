// The exits of a statement without `try`.

ghost use Rattle.std.specs.Prelude.{◌≡◌, ℕ, suc, ◌+◌, ◌<◌, ◌^◌, ◌++◌, IfOk, OnOk};
ghost use Rattle.ls_lowered.specs.LoweredTree.{Leavable};
ghost use Rattle.ls_lowered.specs.Plain.{plain_statement, statements_of};
ghost use Rattle.ls_finally_exits.specs.Exits.{outward, count, exits, all_exits};
ghost use Rattle.ls_finally_exits.specs.Numbers.{numbers, all_numbers};
ghost use Rattle.ls_finally_exits.specs.PlainExits.{plain_exits};

use crate::counts::count_numbers;
use ls_lowered::tree::Statement;
use std::alloc::{AllocError, Global};

/// A leave out of a statement, so many numbers beyond it, or a return.
#[derive(Copy)]
pub enum Exit {
    Leave(usize),
    Return,
}

impl Clone for Exit {
    fn clone(&self) -> Result<Exit, AllocError> {
        Ok(*self)
    }
}

/// How far a leave goes beyond so many numbers; none where its target is one of them.
#[tactic(auto, using(crate::proofs::Numbers::is_inside, crate::proofs::Numbers::is_beyond))]
pub fn beyond(inside: usize, number: usize) -> Option<usize>
    ensures { result ≡ outward inside number }
{
    if number < inside {
        None
    } else {
        Some(number - inside)
    }
}

/// How many numbers there are inside of a leavable statement's body, where there are so many round it.
#[tactic(auto, using(crate::proofs::Counted::counted))]
pub fn within(inside: usize, own: &[Statement]) -> usize
    requires { suc (count (statements_of own.now)) + inside < 2 ^ 63 }
    ensures { result ≡ suc (count (statements_of own.now)) + inside }
{
    own.len() + 1 + inside
}

/// Puts the exits of a statement, inside so many numbers, after those that are there, in text order.
#[cycle(statements)]
#[tactic(auto, using(ls_finally_copies::proofs::Fronts::block_read))]
pub fn collect_exits(s: &Statement, inside: usize, out: &mut Vec<Exit>) -> Result<(), AllocError>
    requires { inside + numbers (plain_statement s.now) < 2 ^ 63 }
    ensures { IfOk result (λ _. plain_exits out.new.items ≡ plain_exits out.old.items ++
        exits inside (plain_statement s.now)) }
{
    match s {
        Statement::Block(statements) => collect_block(statements, inside, out),
        Statement::While(_, body) => collect_exits(body, inside, out),
        Statement::If(_, first, second)
        | Statement::Try(first, second)
        | Statement::Guarded(first, _, second) => {
            collect_exits(first, inside, out)?;
            collect_exits(second, inside, out)
        }
        Statement::Leavable(body, own) => collect_leavable(body, own, inside, out),
        Statement::Leave(number) => {
            if let Some(number) = beyond(inside, *number) {
                out.push(Exit::Leave(number))?;
            }
            Ok(())
        }
        Statement::Return(_) => {
            out.push(Exit::Return)?;
            Ok(())
        }
        Statement::SetLocal(_, _)
        | Statement::SetField(_, _, _)
        | Statement::AddField(_, _, _)
        | Statement::SetItem(_, _, _)
        | Statement::Evaluate(_)
        | Statement::Throw(_) => Ok(()),
    }
}

// A leavable statement, whose own exits stand outside of its body.
#[cycle(statements)]
fn collect_leavable(
    body: &Statement,
    own: &[Statement],
    inside: usize,
    out: &mut Vec<Exit>,
) -> Result<(), AllocError>
    requires { inside + numbers (Leavable (plain_statement body.now) (statements_of own.now)) < 2 ^ 63 }
    ensures { IfOk result (λ _. plain_exits out.new.items ≡ plain_exits out.old.items ++
        exits inside (Leavable (plain_statement body.now) (statements_of own.now))) }
{
    collect_exits(body, within(inside, own), out)?;
    collect_block(own, inside, out)
}

#[cycle(statements)]
fn collect_block(
    statements: &[Statement],
    inside: usize,
    out: &mut Vec<Exit>,
) -> Result<(), AllocError>
    requires { inside + all_numbers (statements_of statements.now) < 2 ^ 63 }
    ensures { IfOk result (λ _. plain_exits out.new.items ≡ plain_exits out.old.items ++
        all_exits inside (statements_of statements.now)) }
{
    for s in statements {
        collect_exits(s, inside, out)?;
    }
    Ok(())
}

/// The exits of a statement, in text order. No memory has room for a statement whose numbers aren't below 2^63.
pub fn exits_of(alloc: Global, s: &Statement) -> Result<Vec<Exit>, AllocError>
    ensures exits { IfOk result (λ v. plain_exits v.items ≡ exits 0 (plain_statement s.now)) }
    ensures low { OnOk result (numbers (plain_statement s.now) < 2 ^ 63) }
{
    count_numbers(alloc, s)?;
    let mut found = Vec::new(alloc);
    collect_exits(s, 0, &mut found)?;
    Ok(found)
}
