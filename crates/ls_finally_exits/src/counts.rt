// How many numbers the leavable statements in a statement have, counted by what memory has room for.

ghost use Rattle.std.specs.Prelude.{◌≡◌, ◌+◌, ◌<◌, ◌^◌, suc, vec_len, IfOk, OnOk};
ghost use Rattle.ls_lowered.specs.LoweredTree.{Leavable};
ghost use Rattle.ls_lowered.specs.Plain.{plain_statement, statements_of};
ghost use Rattle.ls_finally_exits.specs.Exits.{count};
ghost use Rattle.ls_finally_exits.specs.Numbers.{numbers, all_numbers};

use ls_lowered::tree::Statement;
use std::alloc::{AllocError, Global};

// Puts a byte for each number of a statement after those that are there.
#[cycle(statements)]
#[tactic(auto, using(ls_finally_copies::proofs::Fronts::block_read))]
fn put_numbers(s: &Statement, out: &mut Vec<u8>) -> Result<(), AllocError>
    ensures { OnOk result (vec_len out.new ≡ vec_len out.old + numbers (plain_statement s.now)) }
{
    match s {
        Statement::Block(statements) => put_all_numbers(statements, out),
        Statement::While(_, body) => put_numbers(body, out),
        Statement::If(_, first, second)
        | Statement::Try(first, second)
        | Statement::Guarded(first, _, second) => {
            put_numbers(first, out)?;
            put_numbers(second, out)
        }
        Statement::Leavable(body, own) => put_leavable(body, own, out),
        Statement::SetLocal(_, _)
        | Statement::SetField(_, _, _)
        | Statement::AddField(_, _, _)
        | Statement::SetItem(_, _, _)
        | Statement::Evaluate(_)
        | Statement::Return(_)
        | Statement::Throw(_)
        | Statement::Leave(_) => Ok(()),
    }
}

#[cycle(statements)]
fn put_leavable(body: &Statement, own: &[Statement], out: &mut Vec<u8>) -> Result<(), AllocError>
    ensures { OnOk result
        (vec_len out.new ≡ vec_len out.old + numbers (Leavable (plain_statement body.now) (statements_of own.now))) }
{
    put_own(own, out)?;
    put_numbers(body, out)?;
    put_all_numbers(own, out)
}

#[cycle(statements)]
fn put_all_numbers(statements: &[Statement], out: &mut Vec<u8>) -> Result<(), AllocError>
    ensures { OnOk result (vec_len out.new ≡ vec_len out.old + all_numbers (statements_of statements.now)) }
{
    for s in statements {
        put_numbers(s, out)?;
    }
    Ok(())
}

// Puts a byte for each number of a leavable statement: for each exit, and for its end.
#[tactic(auto, using(crate::proofs::Counted::counted))]
fn put_own(own: &[Statement], out: &mut Vec<u8>) -> Result<(), AllocError>
    ensures { OnOk result (vec_len out.new ≡ vec_len out.old + suc (count (statements_of own.now))) }
{
    for _ in 0..own.len() {
        out.push(0)?;
    }
    out.push(0)?;
    Ok(())
}

/// How many numbers the leavable statements in a statement have. A byte stands for each while they are counted, so
/// memory ends before machine words do.
pub fn count_numbers(alloc: Global, s: &Statement) -> Result<usize, AllocError>
    ensures count { IfOk result (λ n. n ≡ numbers (plain_statement s.now)) }
    ensures low { OnOk result (numbers (plain_statement s.now) < 2 ^ 63) }
{
    let mut all: Vec<u8> = Vec::new(alloc);
    put_numbers(s, &mut all)?;
    Ok(all.len())
}
