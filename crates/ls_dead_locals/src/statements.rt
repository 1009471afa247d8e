// Statements before which a local is dead: it isn't read any more before it is assigned.

ghost use Rattle.std.specs.Prelude.{◌≡◌};
ghost use Rattle.ls_checked.specs.Plain.{plain_statement, statements_of};
ghost use Rattle.ls_dead_locals.specs.Dead.{are_dead, finished, in_body, in_try, is_dead};

use crate::expressions::spares;
use ls_checked::tree::Statement;
use std::alloc::AllocError;

/// After which ends of a part a local is dead. A part ends with a value, normally, by a jump out of it, by a return, or
/// by an exception.
#[derive(Copy)]
pub struct Ways {
    pub value: bool,
    pub normal: bool,
    pub jumped: bool,
    pub returned: bool,
    pub threw: bool,
}

impl Clone for Ways {
    fn clone(&self) -> Result<Ways, AllocError> {
        Ok(*self)
    }
}

/// The ends of what comes before statements: its normal end is as this says.
pub fn finished(normal: bool, ways: Ways) -> Ways
    ensures { result ≡ finished normal ways }
{
    Ways { normal, ..ways }
}

/// The ends of the body of a loop.
pub fn in_body(ways: Ways) -> Ways
    ensures { result ≡ in_body ways }
{
    Ways {
        normal: true,
        jumped: ways.normal && ways.jumped,
        ..ways
    }
}

/// The ends of a block after each of which the same `finally` block comes.
fn in_try(dead: bool, ways: Ways) -> Ways
    ensures { result ≡ in_try dead ways }
{
    Ways {
        value: ways.value,
        normal: dead,
        jumped: dead,
        returned: dead,
        threw: dead,
    }
}

/// Whether the local of a slot is dead before a statement, where it is dead after these ends of it.
#[cycle(statements)]
#[tactic(auto, using(ls_checked::proofs::Rows::block_made))]
pub fn is_dead(s: &Statement, slot: usize, ways: Ways) -> bool
    ensures { result ≡ is_dead slot (plain_statement s.now) ways }
{
    let both = ways.normal && ways.threw;
    match s {
        Statement::Block(ss) => are_dead(ss, slot, ways),
        Statement::SetSlot(n, e) => {
            (*n == slot || ways.normal) && (ways.threw && spares(e, slot))
        }
        Statement::SetField { target, value, .. } => {
            both && (spares(target, slot) && spares(value, slot))
        }
        Statement::AddField { target, value, .. } => {
            both && (spares(target, slot) && spares(value, slot))
        }
        Statement::SetItem {
            array,
            index,
            value,
        } => both && (spares(array, slot) && (spares(index, slot) && spares(value, slot))),
        Statement::Evaluate(e) => both && spares(e, slot),
        Statement::If(e, a, b) => {
            (ways.threw && spares(e, slot)) && (is_dead(a, slot, ways) && is_dead(b, slot, ways))
        }
        Statement::While(e, s) => { (both && spares(e, slot)) && is_dead(s, slot, in_body(ways)) }
        Statement::Break(_) | Statement::Continue(_) => ways.jumped,
        Statement::ReturnNothing => ways.returned,
        Statement::ReturnValue(e) => ways.returned && (ways.threw && spares(e, slot)),
        Statement::Try(a, f) => {
            let all = (ways.normal && ways.jumped) && (ways.returned && ways.threw);
            let dead = is_dead(f, slot, finished(all, ways));
            is_dead(a, slot, in_try(dead, ways))
        }
    }
}

/// Whether the local of a slot is dead before statements, where it is dead after these ends of the last.
#[cycle(statements)]
pub fn are_dead(ss: &[Statement], slot: usize, ways: Ways) -> bool
    ensures { result ≡ are_dead slot (statements_of ss.now) ways }
{
    let mut dead = ways.normal;
    for i in (0..ss.len()).rev() {
        dead = is_dead(&ss[i], slot, finished(dead, ways));
    }
    dead
}
