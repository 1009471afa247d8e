// Expressions that don't read a local.

ghost use Rattle.std.specs.Prelude.{◌≡◌};
ghost use Rattle.ls_checked.specs.Plain.{all_plain, plain};
ghost use Rattle.ls_dead_locals.specs.Dead.{all_spare, spares};

use ls_checked::tree::{Expression, Expressions};

/// Whether an expression doesn't read the local of a slot.
#[cycle(expressions)]
pub fn spares(e: &Expression, slot: usize) -> bool
    ensures { result ≡ spares slot (plain e.now) }
{
    match e {
        Expression::Literal(_) | Expression::MakeLock => true,
        Expression::Slot(n) => *n != slot,
        Expression::Field { target, .. } => spares(target, slot),
        Expression::Negate(a) | Expression::Not(a) | Expression::MakeArray(a) => spares(a, slot),
        Expression::Item(a, b) | Expression::Binary(_, a, b) => spares(a, slot) && spares(b, slot),
        Expression::And(a, b) | Expression::Or(a, b) => spares(a, slot) && spares(b, slot),
        Expression::Call(a, _, es) => spares(a, slot) && all_spare(es, slot),
        Expression::MakeObject(_, es) | Expression::MakeMarkable(_, es) => all_spare(es, slot),
    }
}

/// Whether no argument reads the local of a slot.
#[cycle(expressions)]
pub fn all_spare(es: &Expressions, slot: usize) -> bool
    ensures { result ≡ all_spare slot (all_plain es.now) }
{
    match es {
        Expressions::End => true,
        Expressions::More(e, others) => spares(e, slot) && all_spare(others, slot),
    }
}
