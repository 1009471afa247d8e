// A statement without `try` inside copies of a finally block.
//
// A tree can be hundreds of levels high: what isn't recursive is kept out of the recursive functions, whose frames have
// to be small.

ghost use Rattle.ls_lowered.specs.Limits.{most_locals};
ghost use Rattle.std.specs.Prelude.{◌≡◌, ℕ, suc, ◌+◌, ◌<◌, ◌≤◌, ◌^◌, ◌++◌, length, IfOk, OnOk};
ghost use Rattle.ls_lowered.specs.LoweredTree.{Statements, SetLocal, Leavable, Leave};
ghost use Rattle.ls_lowered.specs.Plain.{plain, plain_statement, statements_of};
ghost use Rattle.ls_finally_exits.specs.Exits.{count, exits, all_exits, exit_of, replaced, all_replaced, ways};
ghost use Rattle.ls_finally_exits.specs.Exits.{finally_of};
ghost use Rattle.ls_finally_exits.specs.Numbers.{numbers, all_numbers};
ghost use Rattle.ls_finally_copies.specs.Ways.{both, first_ways};
ghost use Rattle.ls_finally_exits.specs.PlainExits.{plain_exit, plain_exits};

use crate::exits::{Exit, beyond, collect_exits, within};
use ls_finally_copies::copy::{block_of, copy_expression, copy_statement, leavable_of};
use ls_finally_copies::ways::{copied_before, first_ways, guarded, in_turn};
use ls_lowered::tree::{Expression, Statement};
use ls_together::{also, in_box, put};
use std::alloc::{AllocError, Global};

// A leave in place of an exit.
fn leave(inside: usize, next: &mut usize) -> Statement
    requires few { next.old < 10000 }
    requires low { inside < 2 ^ 63 }
    ensures tree { plain_statement result ≡ Leave (inside + next.old) }
    ensures next { next.new ≡ next.old + 1 }
{
    let number = inside + *next;
    *next += 1;
    Statement::Leave(number)
}

// The value of a return into the local, and a leave.
#[inline(never)]
fn leave_with(
    alloc: Global,
    e: &Expression,
    inside: usize,
    kept: usize,
    next: &mut usize,
) -> Result<Statement, AllocError>
    requires few { next.old < 10000 }
    requires low { inside < 2 ^ 63 }
    ensures tree { IfOk result (λ t. plain_statement t ≡
        both (SetLocal kept (plain e.now)) (Leave (inside + next.old))) }
    ensures next { OnOk result (next.new ≡ next.old + 1) }
{
    let keep = Statement::SetLocal(kept, copy_expression(alloc, e)?);
    in_turn(alloc, keep, leave(inside, next))
}

// A statement that keeps its exits.
#[inline(never)]
fn keeping(
    alloc: Global,
    s: &Statement,
    inside: usize,
    next: &mut usize,
) -> Result<Statement, AllocError>
    requires few { next.old + length (exits inside (plain_statement s.now)) ≤ 10000 }
    requires low { inside + numbers (plain_statement s.now) < 2 ^ 63 }
    ensures tree { IfOk result (λ t. plain_statement t ≡ plain_statement s.now) }
    ensures next { OnOk result (next.new ≡ next.old + length (exits inside (plain_statement s.now))) }
{
    let mut found = Vec::new(alloc);
    collect_exits(s, inside, &mut found)?;
    *next += found.len();
    copy_statement(alloc, s)
}

// A part of a statement, in a box of its own.
#[cycle(replace)]
#[inline(never)]
fn replace_in_part(
    alloc: Global,
    s: &Statement,
    inside: usize,
    kept: usize,
    next: &mut usize,
) -> Result<Box<Statement>, AllocError>
    requires few { next.old + length (exits inside (plain_statement s.now)) ≤ 10000 }
    requires low { inside + numbers (plain_statement s.now) < 2 ^ 63 }
    ensures tree { IfOk result (λ t. plain_statement t.value ≡ replaced kept inside next.old (plain_statement s.now)) }
    ensures next { OnOk result (next.new ≡ next.old + length (exits inside (plain_statement s.now))) }
{
    in_box(alloc, replace_exits(alloc, s, inside, kept, next)?)
}

// Two parts of a statement.
#[cycle(replace)]
#[inline(never)]
fn replace_in_two(
    alloc: Global,
    first: &Statement,
    second: &Statement,
    inside: usize,
    kept: usize,
    next: &mut usize,
) -> Result<(Box<Statement>, Box<Statement>), AllocError>
    requires few { next.old + length (exits inside (plain_statement first.now) ++
        exits inside (plain_statement second.now)) ≤ 10000 }
    requires low { inside + (numbers (plain_statement first.now) + numbers (plain_statement second.now)) < 2 ^ 63 }
    ensures first { IfOk result (λ p. plain_statement p.0.value ≡
        replaced kept inside next.old (plain_statement first.now)) }
    ensures second { IfOk result (λ p. plain_statement p.1.value ≡
        replaced kept inside (next.old + length (exits inside (plain_statement first.now)))
        (plain_statement second.now)) }
    ensures next { OnOk result
        (next.new ≡ next.old + length (exits inside (plain_statement first.now) ++
        exits inside (plain_statement second.now))) }
{
    let first = replace_in_part(alloc, first, inside, kept, next)?;
    also(first, replace_in_part(alloc, second, inside, kept, next))
}

// A leavable statement, whose own exits stand outside of its body.
#[cycle(replace)]
#[inline(never)]
fn replace_in_leavable(
    alloc: Global,
    body: &Statement,
    own: &[Statement],
    inside: usize,
    kept: usize,
    next: &mut usize,
) -> Result<Statement, AllocError>
    requires few { next.old + length (exits (suc (count (statements_of own.now)) + inside) (plain_statement body.now) ++
        all_exits inside (statements_of own.now)) ≤ 10000 }
    requires low { inside + numbers (Leavable (plain_statement body.now) (statements_of own.now)) < 2 ^ 63 }
    ensures tree { IfOk result (λ t. plain_statement t ≡
        replaced kept inside next.old (Leavable (plain_statement body.now) (statements_of own.now))) }
    ensures next { OnOk result
        (next.new ≡ next.old + length (exits (suc (count (statements_of own.now)) + inside) (plain_statement body.now)
        ++ all_exits inside (statements_of own.now))) }
{
    let body = replace_in_part(alloc, body, within(inside, own), kept, next)?;
    let (body, own) = also(body, replace_in_all(alloc, own, inside, kept, next))?;
    Ok(leavable_of(body, own))
}

#[cycle(replace)]
#[inline(never)]
fn replace_in_all(
    alloc: Global,
    statements: &[Statement],
    inside: usize,
    kept: usize,
    next: &mut usize,
) -> Result<Vec<Statement>, AllocError>
    requires few { next.old + length (all_exits inside (statements_of statements.now)) ≤ 10000 }
    requires low { inside + all_numbers (statements_of statements.now) < 2 ^ 63 }
    ensures tree { IfOk result (λ v. statements_of v.items ≡
        all_replaced kept inside next.old (statements_of statements.now)) }
    ensures next { OnOk result (next.new ≡ next.old + length (all_exits inside (statements_of statements.now))) }
{
    let mut out = Vec::new(alloc);
    for s in statements {
        put(&mut out, replace_exits(alloc, s, inside, kept, next)?)?;
    }
    Ok(out)
}

// A statement inside so many numbers, with leaves in place of its exits, the first of them number `next` beyond these.
#[cycle(replace)]
#[tactic(auto, using(ls_finally_copies::proofs::Fronts::block_read))]
fn replace_exits(
    alloc: Global,
    s: &Statement,
    inside: usize,
    kept: usize,
    next: &mut usize,
) -> Result<Statement, AllocError>
    requires few { next.old + length (exits inside (plain_statement s.now)) ≤ 10000 }
    requires low { inside + numbers (plain_statement s.now) < 2 ^ 63 }
    ensures tree { IfOk result (λ t. plain_statement t ≡ replaced kept inside next.old (plain_statement s.now)) }
    ensures next { OnOk result (next.new ≡ next.old + length (exits inside (plain_statement s.now))) }
{
    match s {
        Statement::Block(statements) => {
            Ok(block_of(replace_in_all(alloc, statements, inside, kept, next)?))
        }
        Statement::If(e, first, second) => {
            let parts = replace_in_two(alloc, first, second, inside, kept, next)?;
            let ((first, second), e) = also(parts, copy_expression(alloc, e))?;
            Ok(Statement::If(e, first, second))
        }
        Statement::While(e, body) => {
            let body = replace_in_part(alloc, body, inside, kept, next)?;
            let (body, e) = also(body, copy_expression(alloc, e))?;
            Ok(Statement::While(e, body))
        }
        Statement::Return(e) => leave_with(alloc, e, inside, kept, next),
        // What is lowered has no `try`; one that has keeps it.
        Statement::Try(_, _) => keeping(alloc, s, inside, next),
        Statement::Guarded(body, number, handler) => {
            let (body, handler) = replace_in_two(alloc, body, handler, inside, kept, next)?;
            Ok(Statement::Guarded(body, *number, handler))
        }
        Statement::Leavable(body, own) => {
            replace_in_leavable(alloc, body, own, inside, kept, next)
        }
        Statement::Leave(number) => match beyond(inside, *number) {
            None => Ok(Statement::Leave(*number)),
            Some(_) => Ok(leave(inside, next)),
        },
        Statement::SetLocal(_, _)
        | Statement::SetField(_, _, _)
        | Statement::AddField(_, _, _)
        | Statement::SetItem(_, _, _)
        | Statement::Evaluate(_)
        | Statement::Throw(_) => copy_statement(alloc, s),
    }
}

// The exit itself; a value that is returned was kept in the local.
fn exit_statement(kept: usize, exit: Exit) -> Statement
    ensures { plain_statement result ≡ exit_of kept (plain_exit exit) }
{
    match exit {
        Exit::Leave(number) => Statement::Leave(number),
        Exit::Return => Statement::Return(Expression::Local(kept)),
    }
}

// All exits: after the first two, those of the body, each after its own copy of the finally block.
fn all_ways(
    alloc: Global,
    finally: &Statement,
    found: &[Exit],
    free: usize,
) -> Result<Vec<Statement>, AllocError>
    requires { free ≤ most_locals }
    ensures { IfOk result (λ v. statements_of v.items ≡
        first_ways free (plain_statement finally.now)
        (ways (free + 1) (plain_statement finally.now) (plain_exits found.now))) }
{
    let mut out = first_ways(alloc, finally, free)?;
    for exit in found {
        put(
            &mut out,
            copied_before(alloc, finally, exit_statement(free + 1, *exit))?,
        )?;
    }
    Ok(out)
}

/// `try body finally ..` by copies, where `found` are the exits of the body. The locals `free` and the next one are its
/// own.
pub fn by_copies(
    alloc: Global,
    body: &Statement,
    finally: &Statement,
    found: &[Exit],
    free: usize,
) -> Result<Statement, AllocError>
    requires those { plain_exits found.now ≡ exits 0 (plain_statement body.now) }
    requires few { length (exits 0 (plain_statement body.now)) ≤ 4096 }
    requires low { numbers (plain_statement body.now) < 2 ^ 63 }
    requires room { free ≤ most_locals }
    ensures { IfOk result (λ t. plain_statement t ≡
        finally_of free (plain_statement body.now) (plain_statement finally.now)) }
{
    let mut next = 2;
    let inside = replace_exits(alloc, body, 0, free + 1, &mut next)?;
    let inside = guarded(alloc, inside, free)?;
    let (inside, own) = also(inside, all_ways(alloc, finally, found, free))?;
    Ok(leavable_of(inside, own))
}
