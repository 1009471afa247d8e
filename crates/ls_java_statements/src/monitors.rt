// `synchronized` (JLS 14.19).

use crate::statements::block;
use ls_java_expressions::expressions::{part, whole};
use ls_java_expressions::members::is_around;
use ls_java_expressions::parts::keep_reading;
use ls_java_expressions::waiting::monitor;
use ls_java_expressions::writing::emit;
use ls_java_tables::finding::{object_of, owner_kind};
use ls_java_tables::kept::Depth;
use ls_java_tables::remarks::{Stop, Why};
use ls_java_tables::restater::{Around, Restater, is_waited_on, refuse};
use ls_java_tables::ropes::Text;
use ls_java_tables::spelling::append;
use ls_java_tables::types::kind_here;
use ls_java_tables::values::{Kind, Value};
use ls_java_tree::expressions::{Expression, ExpressionKind};
use ls_java_tree::statements::{Statement, StatementKind};
use ls_java_tree::types::Type;

// The class whose object an expression is, `C.class`, perhaps in parentheses.
fn class_object(target: &Expression) -> Option<&Type> {
    match &target.kind {
        ExpressionKind::Class(class) => Some(class),
        _ => None,
    }
}

// Whether a class has a `synchronized` method that isn't static.
fn has_own_monitors(restater: &Restater, class: usize) -> bool {
    restater.tables.methods.iter().any(|method| method.class == class
        && method.is_synchronized
        && !method.is_static)
}

// The object that stands for the object of a class: that of its static members.
fn class_monitor(restater: &mut Restater, at: usize, class: &Type) -> Result<Value, Stop> {
    let Kind::Class(number) = kind_here(restater, class)? else {
        return refuse(restater, at, Why::SynchronizedOn);
    };
    if !is_around(restater, number) {
        return refuse(restater, at, Why::SynchronizedOn);
    }
    let owner = owner_kind(restater, number, true);
    if owner == Kind::Class(number) && has_own_monitors(restater, number) {
        return refuse(restater, at, Why::TwoMonitors);
    }
    object_of(restater, owner, at)
}

// The object whose monitor is locked.
fn locked<'a>(
    restater: &mut Restater,
    out: &mut Text,
    target: &'a Expression,
    depth: Depth<'a>,
) -> Result<Value, Stop> {
    let at = target.span.first;
    if let Some(class) = class_object(target) {
        return class_monitor(restater, at, class);
    }
    let found = part(restater, target, whole(depth))?;
    append(restater, out, found.before)?;
    match found.value.kind {
        Kind::Class(_) => Ok(found.value),
        Kind::Statics(_) => Ok(found.value),
        Kind::Key => Ok(found.value),
        _ => refuse(restater, at, Why::SynchronizedOn),
    }
}

/// `synchronized`. Where `wait` is called on such objects, a lock stands for the monitor.
#[cycle(statements)]
pub(crate) fn synchronized<'a>(
    restater: &mut Restater,
    out: &mut Text,
    tree: &'a Statement,
    depth: Depth<'a>,
) -> Result<(), Stop> {
    let at = tree.span.first;
    let StatementKind::Synchronized { target, body } = &tree.kind else {
        return refuse(restater, at, Why::Other);
    };
    let object = locked(restater, out, target, depth)?;
    if !is_waited_on(restater, object.kind) {
        emit(restater, out, at, "synchronized ( # )", &[object.text])?;
        return block(restater, out, body, Around::Block, depth);
    }
    let kept = keep_reading(restater, out, at, object)?;
    let lock = monitor(restater, at, kept)?;
    emit(restater, out, at, "# . lock ( ) ; try", &[lock])?;
    block(restater, out, body, Around::Block, depth)?;
    emit(restater, out, at, "finally { # . unlock ( ) ; }", &[lock])
}
