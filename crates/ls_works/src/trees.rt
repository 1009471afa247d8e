// Whether expressions are the same.

ghost use Rattle.std.specs.Prelude.{◌≡◌, IsTrue};
ghost use Rattle.ls_checked.specs.Plain.{plain, all_plain};

use ls_checked::tree::{Called, Expression, Expressions, Operator};
use ls_events::same::is_same_value;

// Whether an operator on ints is the other.
fn is_same_arithmetic(op: Operator, other: Operator) -> bool
    ensures { IsTrue result → op ≡ other }
{
    match (op, other) {
        (Operator::Add, Operator::Add) => true,
        (Operator::Subtract, Operator::Subtract) => true,
        (Operator::Multiply, Operator::Multiply) => true,
        (Operator::Divide, Operator::Divide) => true,
        (Operator::Remainder, Operator::Remainder) => true,
        _ => false,
    }
}

// Whether a comparison is the other.
fn is_same_comparison(op: Operator, other: Operator) -> bool
    ensures { IsTrue result → op ≡ other }
{
    match (op, other) {
        (Operator::Less, Operator::Less) => true,
        (Operator::LessEqual, Operator::LessEqual) => true,
        (Operator::Greater, Operator::Greater) => true,
        (Operator::GreaterEqual, Operator::GreaterEqual) => true,
        (Operator::Equal, Operator::Equal) => true,
        (Operator::NotEqual, Operator::NotEqual) => true,
        _ => false,
    }
}

/// Whether an operator is the other. True only where it is.
pub fn is_same_operator(op: Operator, other: Operator) -> bool
    ensures { IsTrue result → op ≡ other }
{
    is_same_arithmetic(op, other) || is_same_comparison(op, other)
}

// Whether an operation of a lock or a monitor is the other.
fn is_same_locking(called: Called, other: Called) -> bool
    ensures { IsTrue result → called ≡ other }
{
    match (called, other) {
        (Called::LockIt, Called::LockIt) => true,
        (Called::UnlockIt, Called::UnlockIt) => true,
        (Called::TryIt, Called::TryIt) => true,
        (Called::AskIt, Called::AskIt) => true,
        (Called::HoldMonitor(a), Called::HoldMonitor(b)) => a == b,
        (Called::FreeMonitor(a), Called::FreeMonitor(b)) => a == b,
        _ => false,
    }
}

// Whether a method or an operation of a markable is the other.
fn is_same_marking(called: Called, other: Called) -> bool
    ensures { IsTrue result → called ≡ other }
{
    match (called, other) {
        (Called::Method(a), Called::Method(b)) => a == b,
        (Called::GetReference(a), Called::GetReference(b)) => a == b,
        (Called::IsMarked(a), Called::IsMarked(b)) => a == b,
        (Called::GetBoth(a), Called::GetBoth(b)) => a == b,
        (Called::SetBoth, Called::SetBoth) => true,
        (Called::CompareAndSet, Called::CompareAndSet) => true,
        (Called::Attempt, Called::Attempt) => true,
        _ => false,
    }
}

/// Whether what a call runs is the other. True only where it is.
pub fn is_same_called(called: Called, other: Called) -> bool
    ensures { IsTrue result → called ≡ other }
{
    is_same_locking(called, other) || is_same_marking(called, other)
}

/// Whether an expression is the other. True only where it is.
#[cycle(expressions)]
pub fn is_same_expression(e: &Expression, other: &Expression) -> bool
    ensures { IsTrue result → plain e.now ≡ plain other.now }
{
    match (e, other) {
        (Expression::Literal(v), Expression::Literal(w)) => is_same_value(*v, *w),
        (Expression::Slot(m), Expression::Slot(n)) => m == n,
        (
            Expression::Field {
                target: a,
                class: c,
                field: f,
            },
            Expression::Field {
                target: b,
                class: d,
                field: g,
            },
        ) => c == d && f == g && is_same_expression(a, b),
        (Expression::Item(a, i), Expression::Item(b, j)) => {
            is_same_expression(a, b) && is_same_expression(i, j)
        }
        (Expression::Negate(a), Expression::Negate(b)) => is_same_expression(a, b),
        (Expression::Not(a), Expression::Not(b)) => is_same_expression(a, b),
        (Expression::Binary(op, a, x), Expression::Binary(to, b, y)) => {
            is_same_operator(*op, *to) && is_same_expression(a, b) && is_same_expression(x, y)
        }
        (Expression::And(a, x), Expression::And(b, y)) => {
            is_same_expression(a, b) && is_same_expression(x, y)
        }
        (Expression::Or(a, x), Expression::Or(b, y)) => {
            is_same_expression(a, b) && is_same_expression(x, y)
        }
        (Expression::Call(a, m, es), Expression::Call(b, n, fs)) => {
            is_same_called(*m, *n) && is_same_expression(a, b) && are_same_expressions(es, fs)
        }
        (Expression::MakeObject(c, es), Expression::MakeObject(d, fs)) => {
            c == d && are_same_expressions(es, fs)
        }
        (Expression::MakeLock, Expression::MakeLock) => true,
        (Expression::MakeMarkable(c, es), Expression::MakeMarkable(d, fs)) => {
            c == d && are_same_expressions(es, fs)
        }
        (Expression::MakeArray(a), Expression::MakeArray(b)) => is_same_expression(a, b),
        _ => false,
    }
}

/// Whether arguments are the others. True only where they are.
#[cycle(expressions)]
pub fn are_same_expressions(es: &Expressions, others: &Expressions) -> bool
    ensures { IsTrue result → all_plain es.now ≡ all_plain others.now }
{
    match (es, others) {
        (Expressions::End, Expressions::End) => true,
        (Expressions::More(a, xs), Expressions::More(b, ys)) => {
            is_same_expression(a, b) && are_same_expressions(xs, ys)
        }
        _ => false,
    }
}
