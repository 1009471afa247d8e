// The locks of a ReadWriteLock that are kept in a Lock.

use crate::finding::field_of;
use crate::restater::{Restater, is_named, local_of, name_of};
use crate::values::Kind;
use ls_java_tree::expressions::{Expression, ExpressionKind};
use ls_java_tree::names::Name;

/// The name that an expression is, alone or behind `this`.
pub fn own_name(expression: &Expression) -> Option<&Name> {
    match &expression.kind {
        ExpressionKind::Name(name) => Some(name),
        ExpressionKind::Field { target, name } => match &target.kind {
            ExpressionKind::This(None) => Some(name),
            _ => None,
        },
        _ => None,
    }
}

// What a local or a field of an expression's name is.
fn named_kind(restater: &Restater, expression: &Expression) -> Option<Kind> {
    let name = name_of(restater, own_name(expression)?);
    match local_of(restater, name) {
        Some(local) => Some(local.kind),
        None => {
            let field = field_of(restater, name)?;
            Some(restater.tables.fields.get(field)?.kind)
        }
    }
}

/// The lock of a ReadWriteLock that a method of this name gives.
pub fn half_named(name: &Name) -> Option<Kind> {
    if is_named(name, "readLock") {
        return Some(Kind::ReadLock);
    }
    if is_named(name, "writeLock") {
        return Some(Kind::WriteLock);
    }
    None
}

// The lock that an expression gives, if it is `readLock()` or `writeLock()` of a ReadWriteLock.
fn half_of(restater: &Restater, expression: &Expression) -> Option<Kind> {
    let ExpressionKind::Call {
        target: Some(target),
        name,
        ..
    } = &expression.kind
    else {
        return None;
    };
    if named_kind(restater, target) == Some(Kind::ReadWrite) {
        return half_named(name);
    }
    None
}

/// What is declared as a kind and begins with a value: a Lock is that lock of a ReadWriteLock which it begins with.
pub fn kind_by_value(restater: &Restater, kind: Kind, value: Option<&Expression>) -> Kind {
    match value {
        Some(value) if kind == Kind::Lock => half_of(restater, value).unwrap_or(kind),
        _ => kind,
    }
}

/// Whether a kind is that of one lock of a ReadWriteLock.
pub fn is_half(kind: Kind) -> bool {
    matches!(&kind, Kind::ReadLock | Kind::WriteLock)
}
