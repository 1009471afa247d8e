// What stands before the name of a method that is called.

use crate::members::type_name;
use ls_java_tables::halves::own_name;
use ls_java_tables::kept::{Depth, kept_list};
use ls_java_tables::restater::{Restater, is_named, local_of, name_of};
use ls_java_tree::expressions::{Expression, ExpressionKind};
use ls_java_tree::names::Name;
use std::alloc::AllocError;

/// What a call is of: a method by its name alone; a static one of a class; what prints; the thread itself; a condition,
/// with its lock; or an object.
#[derive(Copy)]
pub enum Receiver<'t> {
    Own,
    Class(&'t Name),
    Printing,
    ThisThread,
    Condition {
        condition: &'t Expression,
        lock: &'t Expression,
    },
    Object(&'t Expression),
}

impl<'t> Clone for Receiver<'t> {
    fn clone(&self) -> Result<Receiver<'t>, AllocError> {
        Ok(*self)
    }
}

// The lock of the condition that an expression is.
fn condition_lock<'a>(
    restater: &Restater,
    target: &Expression,
    depth: Depth<'a>,
) -> Option<&'a Expression> {
    let name = name_of(restater, own_name(target)?);
    if local_of(restater, name).is_some() {
        return None;
    }
    let class = restater.place.class;
    let conditions = &restater.tables.conditions;
    let found = conditions
        .iter()
        .find(|one| one.class == class && one.name == name)?;
    kept_list(depth, found.lock).first()
}

// What a call is of whose target is a field of something: `System.out`, `TimeUnit.SECONDS`.
fn library_field(restater: &Restater, target: &Expression) -> bool {
    let ExpressionKind::Field { target, .. } = &target.kind else {
        return false;
    };
    match type_name(restater, target) {
        Some(name) => is_named(name, "System") || is_named(name, "TimeUnit"),
        None => false,
    }
}

// Whether the target of a call is `currentThread()`.
fn is_this_thread(target: &Expression) -> bool {
    match &target.kind {
        ExpressionKind::Call { name, .. } => is_named(name, "currentThread"),
        _ => false,
    }
}

/// What a call is of.
pub fn receiver_of<'a>(
    restater: &Restater,
    target: Option<&'a Expression>,
    depth: Depth<'a>,
) -> Receiver<'a> {
    let Some(target) = target else {
        return Receiver::Own;
    };
    if let Some(lock) = condition_lock(restater, target, depth) {
        let condition = target;
        return Receiver::Condition { condition, lock };
    }
    if library_field(restater, target) {
        return Receiver::Printing;
    }
    if is_this_thread(target) {
        return Receiver::ThisThread;
    }
    match type_name(restater, target) {
        Some(class) => Receiver::Class(class),
        None => Receiver::Object(target),
    }
}
