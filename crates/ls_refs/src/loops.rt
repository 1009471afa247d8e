// How many loops there are in a statement, counted by what memory has room for.

ghost use Rattle.std.specs.Prelude.{◌≡◌, ◌+◌, ◌<◌, ◌^◌, vec_len, IfOk, OnOk};
ghost use Rattle.ls_checked.specs.Plain.{plain_statement, statements_of};
ghost use Rattle.ls_refs.specs.Loops.{loops, block_loops};

use ls_checked::tree::Statement;
use std::alloc::{AllocError, Global};

// Puts a byte for each loop of a statement after those that are there.
#[cycle(statements)]
#[tactic(auto, using(crate::proofs::Rows::block_read))]
fn put_loops(s: &Statement, out: &mut Vec<u8>) -> Result<(), AllocError>
    ensures { OnOk result (vec_len out.new ≡ vec_len out.old + loops (plain_statement s.now)) }
{
    match s {
        Statement::Block(statements) => put_block_loops(statements, out),
        Statement::If(_, first, second) | Statement::Try(first, second) => {
            put_loops(first, out)?;
            put_loops(second, out)
        }
        Statement::While(_, body) => {
            out.push(0)?;
            put_loops(body, out)
        }
        Statement::SetSlot(_, _)
        | Statement::SetField { .. }
        | Statement::AddField { .. }
        | Statement::SetItem { .. }
        | Statement::Evaluate(_)
        | Statement::Break(_)
        | Statement::Continue(_)
        | Statement::ReturnNothing
        | Statement::ReturnValue(_) => Ok(()),
    }
}

#[cycle(statements)]
fn put_block_loops(statements: &[Statement], out: &mut Vec<u8>) -> Result<(), AllocError>
    ensures { OnOk result (vec_len out.new ≡ vec_len out.old + block_loops (statements_of statements.now)) }
{
    for s in statements {
        put_loops(s, out)?;
    }
    Ok(())
}

/// How many loops there are in a statement. A byte stands for each while they are counted, so memory ends before
/// machine words do.
pub fn count_loops(alloc: Global, s: &Statement) -> Result<usize, AllocError>
    ensures count { IfOk result (λ n. n ≡ loops (plain_statement s.now)) }
    ensures low { OnOk result (loops (plain_statement s.now) < 2 ^ 63) }
{
    let mut all: Vec<u8> = Vec::new(alloc);
    put_loops(s, &mut all)?;
    Ok(all.len())
}
