// How many locals expressions take.

ghost use Rattle.std.specs.Prelude.{◌≡◌, ℕ, ◌+◌, ◌≤◌};
ghost use Rattle.std.specs.Option.{SomeIff};
ghost use Rattle.ls_checked.specs.Plain.{plain as checked, all_plain as all_checked};
ghost use Rattle.ls_refs.specs.Calls.{own_temporaries as those_of};
ghost use Rattle.ls_refs.specs.Temporaries.{temporaries, all_temporaries};

use crate::calls::own_temporaries;
use ls_checked::tree::{Expression, Expressions};

/// The most locals of a method.
pub const MOST_LOCALS: usize = 128;

/// `count` locals more than `so_far`; none if that is over 128.
pub fn more(so_far: usize, count: usize) -> Option<usize>
    requires { so_far ≤ 128 }
    ensures { SomeIff result (so_far + count ≤ 128) (so_far + count) }
{
    if count <= MOST_LOCALS - so_far {
        Some(so_far + count)
    } else {
        None
    }
}

/// `so_far` locals and the temporaries of an expression; none if they are over 128.
#[cycle(expressions)]
pub fn count_expression(so_far: usize, e: &Expression) -> Option<usize>
    requires { so_far ≤ 128 }
    ensures { SomeIff result (so_far + temporaries (checked e.now) ≤ 128) (so_far + temporaries (checked e.now)) }
{
    match e {
        Expression::Literal(_) | Expression::Slot(_) | Expression::MakeLock => Some(so_far),
        Expression::Field {
            target,
            class: _,
            field: _,
        } => count_expression(so_far, target),
        Expression::Negate(e) | Expression::Not(e) | Expression::MakeArray(e) => count_expression(
            so_far, e,
        ),
        Expression::Item(a, b)
        | Expression::Binary(_, a, b)
        | Expression::And(a, b)
        | Expression::Or(a, b) => count_expression(count_expression(so_far, a)?, b),
        Expression::Call(target, called, arguments) => {
            let so_far = more(so_far, own_temporaries(*called))?;
            count_expressions(count_expression(so_far, target)?, arguments)
        }
        Expression::MakeObject(_, arguments) | Expression::MakeMarkable(_, arguments) => {
            count_expressions(so_far, arguments)
        }
    }
}

#[cycle(expressions)]
fn count_expressions(so_far: usize, es: &Expressions) -> Option<usize>
    requires { so_far ≤ 128 }
    ensures { SomeIff result (so_far + all_temporaries (all_checked es.now) ≤ 128)
        (so_far + all_temporaries (all_checked es.now)) }
{
    match es {
        Expressions::End => Some(so_far),
        Expressions::More(first, rest) => count_expressions(count_expression(so_far, first)?, rest),
    }
}
