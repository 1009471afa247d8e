// The body of a `try`, and the ways out of it.

ghost use Rattle.std.specs.Prelude.{◌≡◌, IfOk};
ghost use Rattle.ls_lowered.specs.LoweredTree.{Statements, Throw};
ghost use Rattle.ls_lowered.specs.Plain.{plain_statement, in_front};
ghost use Rattle.ls_finally_copies.specs.Ways.{both, guarded, first_ways};

use crate::copy::{block_of, copy_statement};
use ls_lowered::tree::Statement;
use ls_together::{also, in_box, pair, two};
use std::alloc::{AllocError, Global};

/// The first statement, and then the second. The only refusal is that memory ran out.
pub fn in_turn(alloc: Global, first: Statement, second: Statement) -> Result<Statement, AllocError>
    ensures { IfOk result (λ t. plain_statement t ≡ both (plain_statement first) (plain_statement second)) }
{
    Ok(block_of(pair(alloc, first, second)?))
}

/// A copy of the finally block, and then the last statement. The only refusal is that memory ran out.
pub fn copied_before(
    alloc: Global,
    finally: &Statement,
    last: Statement,
) -> Result<Statement, AllocError>
    ensures { IfOk result (λ t. plain_statement t ≡ both (plain_statement finally.now) (plain_statement last)) }
{
    let (last, copy) = also(last, copy_statement(alloc, finally))?;
    in_turn(alloc, copy, last)
}

/// The body, which leaves for exit 0 if it completes normally, and for exit 1 if it throws. The only refusal is that
/// memory ran out.
pub fn guarded(alloc: Global, body: Statement, free: usize) -> Result<Box<Statement>, AllocError>
    ensures { IfOk result (λ t. plain_statement t.value ≡ guarded free (plain_statement body)) }
{
    let (body, handler) = two(alloc, body, Statement::Leave(1))?;
    let guarded = Statement::Guarded(body, free, handler);
    in_box(alloc, in_turn(alloc, guarded, Statement::Leave(0))?)
}

/// The first two exits: the finally block if the body completes normally, and if it throws. The only refusal is that
/// memory ran out.
pub fn first_ways(
    alloc: Global,
    finally: &Statement,
    free: usize,
) -> Result<Vec<Statement>, AllocError>
    ensures { IfOk result (λ v. (rest : Statements) →
        in_front v.items rest ≡ first_ways free (plain_statement finally.now) rest) }
{
    let normally = copy_statement(alloc, finally)?;
    let thrown = copied_before(alloc, finally, Statement::Throw(free));
    let (normally, thrown) = also(normally, thrown)?;
    pair(alloc, normally, thrown)
}
