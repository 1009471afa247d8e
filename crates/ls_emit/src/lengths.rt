// How long the code of an expression is; 65,537 if it has over 65,536 instructions.

ghost use Rattle.ls_code.specs.Limits.{most_instructions};
ghost use Rattle.std.specs.Prelude.{◌≡◌, ◌+◌, ◌≤◌, min};
ghost use Rattle.ls_lowered.specs.Plain.{plain, all_plain};
ghost use Rattle.ls_emit.specs.Expressions.{size, all_size};

use crate::locks::lock_size;
use ls_lowered::tree::{Expression, Expressions};

/// The most instructions of a method, and of a whole code.
pub const MOST_INSTRUCTIONS: usize = 65_536;

/// Instructions are counted up to this number.
pub const TOO_MANY: usize = 65_537;

/// The count of `so_far` instructions and `count` more; at most 65,537.
pub fn more(so_far: usize, count: usize) -> usize
    requires so_far { so_far ≤ 65537 }
    requires few { count ≤ 5 }
    ensures { result ≡ min (so_far + count) 65537 }
{
    if so_far + count <= MOST_INSTRUCTIONS {
        so_far + count
    } else {
        TOO_MANY
    }
}

/// The count of `so_far` instructions and those of an expression; at most 65,537.
#[cycle(expressions)]
pub fn count_expression(so_far: usize, e: &Expression) -> usize
    requires { so_far ≤ 65537 }
    ensures { result ≡ min (so_far + size (plain e.now)) 65537 }
{
    if so_far == TOO_MANY {
        return so_far;
    }
    match e {
        Expression::Word(_) | Expression::Local(_) | Expression::MakeLock => more(so_far, 1),
        Expression::Unary(_, e)
        | Expression::Field(e, _)
        | Expression::ReadPair(e)
        | Expression::MakeMarkable(e)
        | Expression::MakeArray(e) => more(count_expression(so_far, e), 1),
        Expression::Binary(_, a, b)
        | Expression::Hold(a, _, b)
        | Expression::Keep(_, a, b)
        | Expression::After(a, b)
        | Expression::Item(a, b) => more(count_expression(count_expression(so_far, a), b), 1),
        Expression::SetPair(a, b) => more(count_expression(count_expression(so_far, a), b), 2),
        Expression::And(a, b) | Expression::Or(a, b) | Expression::SetFirst(a, b) => {
            more(count_expression(count_expression(so_far, a), b), 3)
        }
        Expression::SwapPair(e, a, b) | Expression::AttemptMark(e, a, b) => {
            let so_far = count_expression(count_expression(so_far, e), a);
            more(count_expression(so_far, b), 1)
        }
        Expression::OnLock(op, e) => { more(count_expression(so_far, e), lock_size(*op)) }
        Expression::Call(_, e, es) => more(count_expressions(count_expression(so_far, e), es), 1),
        Expression::MakeObject(_, _, es) => more(count_expressions(so_far, es), 4),
    }
}

#[cycle(expressions)]
fn count_expressions(so_far: usize, es: &Expressions) -> usize
    requires { so_far ≤ 65537 }
    ensures { result ≡ min (so_far + all_size (all_plain es.now)) 65537 }
{
    match es {
        Expressions::End => so_far,
        Expressions::More(first, others) => {
            count_expressions(count_expression(so_far, first), others)
        }
    }
}

/// How many instructions an expression has.
pub fn size_of(e: &Expression) -> usize
    requires { size (plain e.now) ≤ most_instructions }
    ensures { result ≡ size (plain e.now) }
{
    count_expression(0, e)
}
