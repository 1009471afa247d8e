// Which statements can complete normally.

ghost use Rattle.std.specs.Prelude.{◌≡◌, ◌++◌, [], IfOk, OnOk, if◌then◌else◌, map};
ghost use Rattle.ls_checked.specs.Plain.{plain, plain_statement};
ghost use Rattle.ls_types_elaboration.specs.TypedStatements.{sequence};
ghost use Rattle.ls_types_files.specs.Left.{outward, has, left as the_left, all_left};
ghost use Rattle.ls_types_judgement.specs.Completion.{is_true, can_complete, all_complete};

use ls_checked::tree::{Expression, Statement};
use ls_events::value::Value;
use std::alloc::{AllocError, Global};

fn is_true(e: &Expression) -> bool
    ensures { result ≡ is_true (plain e.now) }
{
    match e {
        Expression::Literal(Value::Boolean(b)) => *b,
        _ => false,
    }
}

// Whether the innermost loop is among these.
fn has_innermost(left: &[usize]) -> bool
    ensures { result ≡ has 0 left.now }
{
    for n in left {
        if *n == 0 {
            return true;
        }
    }
    false
}

// The same loops as counted from outside of the innermost loop, put after those in `left`.
#[tactic(auto, using(crate::proofs::Left::goes_out, crate::proofs::Left::joined))]
fn outward(inner: &[usize], left: &mut Vec<usize>) -> Result<(), AllocError>
    ensures { OnOk result (left.new.items ≡ left.old.items ++ outward inner.now) }
{
    for n in inner {
        if *n > 0 {
            left.push(*n - 1)?;
        }
    }
    Ok(())
}

// A `break` gets out of a body only if the `finally` of that body can complete.
#[tactic(auto, using(crate::proofs::Left::none_more))]
fn past(body: &[usize], finally: bool, left: &mut Vec<usize>) -> Result<(), AllocError>
    ensures { OnOk result (left.new.items ≡ left.old.items ++ (if finally then body.now else [])) }
{
    if finally {
        left.extend_from_slice(body)?;
    }
    Ok(())
}

// Whether a statement can complete normally. Puts into `left` the loops that a `break` in the statement can leave.
// They are counted outward from the innermost loop around it.
#[cycle(completion)]
#[tactic(auto, using(ls_types_statements::proofs::Blocks::block_read, crate::proofs::Left::left_broken, crate::proofs::Left::joined))]
fn can_complete(alloc: Global, s: &Statement, left: &mut Vec<usize>) -> Result<bool, AllocError>
    ensures completes { IfOk result (λ b. b ≡ can_complete (plain_statement s.now)) }
    ensures left { OnOk result (left.new.items ≡ left.old.items ++ the_left (plain_statement s.now)) }
{
    match s {
        Statement::Block(ss) => all_ways(alloc, ss, left),
        Statement::If(_, a, b) => {
            let first = can_complete(alloc, a, left)?;
            let second = can_complete(alloc, b, left)?;
            Ok(first || second)
        }
        Statement::While(c, s) => {
            let mut inner = Vec::new(alloc);
            can_complete(alloc, s, &mut inner)?;
            outward(&inner, left)?;
            Ok(!is_true(c) || has_innermost(&inner))
        }
        Statement::Break(n) => {
            left.push(*n)?;
            Ok(false)
        }
        Statement::Continue(_) | Statement::ReturnNothing | Statement::ReturnValue(_) => Ok(false),
        Statement::Try(b, f) => {
            let mut within = Vec::new(alloc);
            let body = can_complete(alloc, b, &mut within)?;
            let finally = can_complete(alloc, f, left)?;
            past(&within, finally, left)?;
            Ok(body && finally)
        }
        Statement::SetSlot(..)
        | Statement::SetField { .. }
        | Statement::AddField { .. }
        | Statement::SetItem { .. }
        | Statement::Evaluate(_) => Ok(true),
    }
}

#[cycle(completion)]
#[tactic(auto, using(crate::proofs::Left::joined))]
fn all_ways(alloc: Global, ss: &[Statement], left: &mut Vec<usize>) -> Result<bool, AllocError>
    ensures completes { IfOk result (λ b. b ≡ all_complete (sequence (map plain_statement ss.now))) }
    ensures left { OnOk result (left.new.items ≡ left.old.items ++ all_left (sequence (map plain_statement ss.now))) }
{
    let mut all = true;
    for s in ss {
        let this = can_complete(alloc, s, left)?;
        all = all && this;
    }
    Ok(all)
}

/// Whether statements, one after another, can complete normally. The only refusal is that memory ran out.
pub fn all_complete(alloc: Global, ss: &[Statement]) -> Result<bool, AllocError>
    ensures { IfOk result (λ r. r ≡ all_complete (sequence (map plain_statement ss.now))) }
{
    let mut left = Vec::new(alloc);
    all_ways(alloc, ss, &mut left)
}
