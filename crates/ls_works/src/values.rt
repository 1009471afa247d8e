// Whether values, actions and what they answer are the same.

ghost use Rattle.std.specs.Prelude.{◌≡◌, IsTrue};

use ls_events::kind::Kind;
use ls_events::same::is_same_value;
use ls_events::value::{Value, ValueType};
use ls_meaning::completion::Completion;
use ls_meaning::sort::Sort;

/// Whether values are the same, one by one. True only where they are.
pub fn are_same_values(values: &[Value], others: &[Value]) -> bool
    ensures { IsTrue result → values.now ≡ others.now }
{
    if values.len() != others.len() {
        return false;
    }
    for i in 0..values.len() {
        if !is_same_value(values[i], others[i]) {
            return false;
        }
    }
    true
}

/// Whether a value is the other, or both are none. True only where they are the same.
pub fn is_same_result(result_value: Option<Value>, other: Option<Value>) -> bool
    ensures { IsTrue result → result_value ≡ other }
{
    match (result_value, other) {
        (None, None) => true,
        (Some(a), Some(b)) => is_same_value(a, b),
        _ => false,
    }
}

/// Whether an exception is the other. True only where it is.
pub fn is_same_kind(kind: Kind, other: Kind) -> bool
    ensures { IsTrue result → kind ≡ other }
{
    kind == other
}

/// Whether a type is the other. True only where it is.
pub fn is_same_type(t: ValueType, other: ValueType) -> bool
    ensures { IsTrue result → t ≡ other }
{
    match (t, other) {
        (ValueType::Int, ValueType::Int) => true,
        (ValueType::Boolean, ValueType::Boolean) => true,
        (ValueType::BooleanArray, ValueType::BooleanArray) => true,
        (ValueType::Class(a), ValueType::Class(b)) => a == b,
        (ValueType::Lock, ValueType::Lock) => true,
        (ValueType::Markable(a), ValueType::Markable(b)) => a == b,
        _ => false,
    }
}

/// Whether a type is the other, or both are none. True only where they are the same.
pub fn is_same_answered(t: Option<ValueType>, other: Option<ValueType>) -> bool
    ensures { IsTrue result → t ≡ other }
{
    match (t, other) {
        (None, None) => true,
        (Some(a), Some(b)) => is_same_type(a, b),
        _ => false,
    }
}

/// Whether a sort is the other. True only where it is.
pub fn is_same_sort(sort: Sort, other: Sort) -> bool
    ensures { IsTrue result → sort ≡ other }
{
    match (sort, other) {
        (Sort::NoValue, Sort::NoValue) => true,
        (Sort::ValueOf(a), Sort::ValueOf(b)) => is_same_type(a, b),
        (Sort::NewOf(a), Sort::NewOf(b)) => is_same_type(a, b),
        (Sort::PairOf(a), Sort::PairOf(b)) => a == b,
        _ => false,
    }
}

/// Whether a statement completes as the other. True only where it does.
pub fn is_same_completion(completion: Completion<Value>, other: Completion<Value>) -> bool
    ensures { IsTrue result → completion ≡ other }
{
    match (completion, other) {
        (Completion::Normal, Completion::Normal) => true,
        (Completion::Broke(a), Completion::Broke(b)) => a == b,
        (Completion::Continued(a), Completion::Continued(b)) => a == b,
        (Completion::Returned(a), Completion::Returned(b)) => is_same_result(a, b),
        (Completion::Threw(a), Completion::Threw(b)) => is_same_kind(a, b),
        _ => false,
    }
}
