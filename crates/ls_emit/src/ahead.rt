// The sizes that are known ahead while code is made, so that no statement is counted twice.

ghost use Rattle.ls_code.specs.Limits.{most_instructions};
ghost use Rattle.std.specs.Prelude.{◌≡◌, ◌+◌, ◌≤◌, ◌++◌, ◌∷◌, [], IfOk, OnOk, reverse};
ghost use Rattle.ls_lowered.specs.Plain.{plain_statement, statements_of};
ghost use Rattle.ls_emit.specs.Statements.{statement_size, statements_size, exits_size};
ghost use Rattle.ls_emit.specs.Ahead.{sizes_ahead, block_ahead, exits_ahead, exit_sizes};

use crate::lengths::size_of;
use crate::sizes::size_of_statement;
use ls_lowered::tree::Statement;
use std::alloc::{AllocError, Global};

// Puts the sizes that a statement needs on those that are there, the last first. Answers how many instructions the
// statement has.
#[cycle(statements)]
#[tactic(auto, using(crate::proofs::Blocks::block_read, crate::proofs::Weights::exits_hold))]
fn put_ahead(alloc: Global, out: &mut Vec<usize>, s: &Statement) -> Result<usize, AllocError>
    requires { statement_size (plain_statement s.now) ≤ most_instructions }
    ensures size { IfOk result (λ n. n ≡ statement_size (plain_statement s.now)) }
    ensures ahead { OnOk result (reverse out.new.items ≡ sizes_ahead (plain_statement s.now) (reverse out.old.items)) }
{
    match s {
        Statement::Block(statements) => put_block(alloc, out, statements),
        Statement::If(condition, first, second) => {
            let parts = put_two(alloc, out, first, second)?;
            Ok(size_of(condition) + parts + 2)
        }
        Statement::While(condition, body) => {
            let size = put_ahead(alloc, out, body)?;
            Ok(size_of(condition) + size + 2)
        }
        Statement::Guarded(body, _, handler) => {
            let parts = put_two(alloc, out, body, handler)?;
            Ok(parts + 2)
        }
        Statement::Leavable(body, exits) => put_leavable(alloc, out, body, exits),
        Statement::SetLocal(_, _)
        | Statement::SetField(_, _, _)
        | Statement::AddField(_, _, _)
        | Statement::SetItem(_, _, _)
        | Statement::Evaluate(_)
        | Statement::Return(_)
        | Statement::Try(_, _)
        | Statement::Throw(_)
        | Statement::Leave(_) => Ok(size_of_statement(s)),
    }
}

// Two parts of a statement, of which the size of the second is needed ahead. Answers how many instructions they have.
#[cycle(statements)]
fn put_two(
    alloc: Global,
    out: &mut Vec<usize>,
    first: &Statement,
    second: &Statement,
) -> Result<usize, AllocError>
    requires { statement_size (plain_statement first.now) + statement_size (plain_statement second.now) ≤
        most_instructions }
    ensures size { IfOk result (λ n. n ≡ statement_size (plain_statement first.now) + statement_size
        (plain_statement second.now)) }
    ensures ahead { OnOk result (reverse out.new.items ≡ statement_size (plain_statement second.now) ∷ sizes_ahead
        (plain_statement first.now) (sizes_ahead (plain_statement second.now) (reverse out.old.items))) }
{
    let after = put_ahead(alloc, out, second)?;
    let before = put_ahead(alloc, out, first)?;
    put_size(out, after)?;
    Ok(before + after)
}

#[cycle(statements)]
fn put_block(
    alloc: Global,
    out: &mut Vec<usize>,
    statements: &[Statement],
) -> Result<usize, AllocError>
    requires { statements_size (statements_of statements.now) ≤ most_instructions }
    ensures size { IfOk result (λ n. n ≡ statements_size (statements_of statements.now)) }
    ensures ahead { OnOk result (reverse out.new.items ≡ block_ahead (statements_of statements.now)
        (reverse out.old.items)) }
{
    let mut count = 0;
    for i in (0..statements.len()).rev() {
        let size = put_ahead(alloc, out, &statements[i])?;
        put_size(out, size)?;
        count += size;
    }
    Ok(count)
}

#[cycle(statements)]
#[tactic(auto, using(crate::proofs::Listed::reversed_all, crate::proofs::Listed::reversed_one))]
fn put_leavable(
    alloc: Global,
    out: &mut Vec<usize>,
    body: &Statement,
    exits: &[Statement],
) -> Result<usize, AllocError>
    requires { statement_size (plain_statement body.now) + exits_size (statements_of exits.now) ≤ most_instructions }
    ensures size { IfOk result (λ n. n ≡ statement_size (plain_statement body.now) + exits_size
        (statements_of exits.now)) }
    ensures ahead { OnOk result (reverse out.new.items ≡ exit_sizes (statements_of exits.now) ++
        sizes_ahead (plain_statement body.now) (exits_ahead (statements_of exits.now) (reverse out.old.items))) }
{
    let mut sizes = Vec::new(alloc);
    let after = put_exits(alloc, out, exits, &mut sizes)?;
    let before = put_ahead(alloc, out, body)?;
    out.extend_from_slice(&sizes)?;
    Ok(before + after)
}

// The exits of a leavable statement. Their own sizes go to `sizes`, the last first.
#[cycle(statements)]
fn put_exits(
    alloc: Global,
    out: &mut Vec<usize>,
    exits: &[Statement],
    sizes: &mut Vec<usize>,
) -> Result<usize, AllocError>
    requires { exits_size (statements_of exits.now) ≤ most_instructions }
    ensures size { IfOk result (λ n. n ≡ exits_size (statements_of exits.now)) }
    ensures ahead { OnOk result (reverse out.new.items ≡ exits_ahead (statements_of exits.now)
        (reverse out.old.items)) }
    ensures sizes { OnOk result (reverse sizes.new.items ≡ exit_sizes (statements_of exits.now) ++
        reverse sizes.old.items) }
{
    let mut count = 0;
    for i in (0..exits.len()).rev() {
        let size = put_ahead(alloc, out, &exits[i])?;
        put_size(sizes, size)?;
        count += 1 + size;
    }
    Ok(count)
}

// Puts a size on those that are there.
#[tactic(auto, using(crate::proofs::Listed::reversed_all, crate::proofs::Listed::reversed_one))]
fn put_size(out: &mut Vec<usize>, size: usize) -> Result<(), AllocError>
    ensures { OnOk result (reverse out.new.items ≡ size ∷ reverse out.old.items) }
{
    out.push(size)?;
    Ok(())
}

/// How many instructions a statement has, and after it the sizes that its code needs ahead, in the order in which it
/// needs them. The only refusal is that memory ran out.
#[tactic(auto, using(crate::proofs::Listed::reversed_all, crate::proofs::Listed::reversed_one))]
pub fn list_ahead(alloc: Global, s: &Statement) -> Result<Vec<usize>, AllocError>
    requires { statement_size (plain_statement s.now) ≤ most_instructions }
    ensures { IfOk result (λ sizes. sizes.items ≡ statement_size (plain_statement s.now) ∷ sizes_ahead
        (plain_statement s.now) []) }
{
    let mut sizes = Vec::new(alloc);
    let size = put_ahead(alloc, &mut sizes, s)?;
    put_size(&mut sizes, size)?;
    sizes.reverse();
    Ok(sizes)
}
