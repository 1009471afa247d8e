// Calls, with their targets and arguments (JLS 15.12.4).

use crate::atomics::{begin_update, end_update, held_kind, set_new};
use crate::calls::{object_call, own_call};
use crate::creating::thread_local;
use crate::expressions::{expression, operands, part, parts};
use crate::parts::{Part, keep_as, keep_reading, settle};
use crate::receivers::{Receiver, receiver_of};
use crate::simple::{printing, thread_call};
use crate::statics::{evaluated, static_call};
use crate::waiting::condition_call;
use ls_java_tables::kept::Depth;
use ls_java_tables::remarks::{Stop, Why};
use ls_java_tables::restater::{Local, Restater, declare, is_named, leave, mark, name_of, refuse};
use ls_java_tables::ropes::Text;
use ls_java_tables::values::{Kind, Sort, Value};
use ls_java_tree::expressions::{Expression, ExpressionKind, LambdaBody, Parameter};
use ls_java_tree::names::Name;
use std::alloc::AllocError;

/// A call.
#[cycle(expressions)]
pub(crate) fn call<'a>(
    restater: &mut Restater,
    out: &mut Text,
    tree: &'a Expression,
    wanted: Option<Kind>,
    depth: Depth<'a>,
) -> Result<Value, Stop> {
    let at = tree.span.first;
    let ExpressionKind::Call {
        target,
        name,
        arguments,
        ..
    } = &tree.kind
    else {
        return refuse(restater, at, Why::Other);
    };
    match receiver_of(restater, target.as_deref(), depth) {
        Receiver::Own => {
            let values = operands(restater, out, at, arguments, depth)?;
            own_call(restater, out, name, &values)
        }
        Receiver::Class(class) => class_call(restater, out, tree, class, wanted, depth),
        Receiver::Printing => printing(restater, name, arguments),
        Receiver::ThisThread => thread_call(restater, name),
        Receiver::Condition { condition, lock } => {
            let values = operands(restater, out, at, arguments, depth)?;
            let condition = expression(restater, out, condition, depth)?;
            let lock = expression(restater, out, lock, depth)?;
            condition_call(restater, out, name, [condition, lock], &values)
        }
        Receiver::Object(object) => {
            let first = part(restater, object, depth)?;
            called(restater, out, tree, first, depth)
        }
    }
}

// Whether a call is `ThreadLocal.withInitial`.
fn is_first_value(class: &Name, name: &Name) -> bool {
    is_named(class, "ThreadLocal") && is_named(name, "withInitial")
}

// The expression that the lambda is which is the only argument.
fn supplied(arguments: &[Expression]) -> Option<&Expression> {
    match &arguments.first()?.kind {
        ExpressionKind::Lambda {
            body: LambdaBody::Expression(value),
            ..
        } => Some(value),
        _ => None,
    }
}

// A static method of a class.
#[cycle(expressions)]
fn class_call<'a>(
    restater: &mut Restater,
    out: &mut Text,
    tree: &'a Expression,
    class: &'a Name,
    wanted: Option<Kind>,
    depth: Depth<'a>,
) -> Result<Value, Stop> {
    let at = tree.span.first;
    let ExpressionKind::Call {
        name,
        arguments,
        ..
    } = &tree.kind
    else {
        return refuse(restater, at, Why::Other);
    };
    let arguments = arguments.as_slice();
    if is_first_value(class, name) {
        return thread_local(restater, out, at, wanted, supplied(arguments), depth);
    }
    let count = evaluated(class, name, arguments.len());
    let arguments = if count < arguments.len() {
        &arguments[..count]
    } else {
        arguments
    };
    let values = operands(restater, out, at, arguments, depth)?;
    static_call(restater, out, class, name, &values)
}

// A call of an object's method, whose object is restated.
#[cycle(expressions)]
fn called<'a>(
    restater: &mut Restater,
    out: &mut Text,
    tree: &'a Expression,
    object: Part,
    depth: Depth<'a>,
) -> Result<Value, Stop> {
    let at = tree.span.first;
    let ExpressionKind::Call {
        name,
        arguments,
        ..
    } = &tree.kind
    else {
        return refuse(restater, at, Why::Other);
    };
    let mut all = Vec::new(restater.alloc);
    all.push(object)?;
    if let (Some(kind), Some((update, operands))) = (
        held_kind(object.value.kind),
        update_of(arguments),
    ) {
        parts(restater, &mut all, operands, depth)?;
        let values = settle(restater, out, at, &all)?;
        let update = begin(restater, out, at, &values, kind, update)?;
        return updated(restater, out, name, update, depth);
    }
    parts(restater, &mut all, arguments, depth)?;
    let values = settle(restater, out, at, &all)?;
    match values.as_slice() {
        [object, others @ ..] => object_call(restater, out, name, *object, others),
        [] => refuse(restater, at, Why::Other),
    }
}

// What an update applies: a lambda with an expression, or a static method.
#[derive(Copy)]
enum Function<'t> {
    Lambda {
        parameters: &'t [Parameter],
        body: &'t Expression,
    },
    Static {
        class: &'t Name,
        method: &'t Name,
    },
}

impl<'t> Clone for Function<'t> {
    fn clone(&self) -> Result<Function<'t>, AllocError> {
        Ok(*self)
    }
}

// The function that an expression is.
fn function_of(tree: &Expression) -> Option<Function<'_>> {
    match &tree.kind {
        ExpressionKind::Lambda {
            parameters,
            body: LambdaBody::Expression(body),
        } => Some(Function::Lambda { parameters, body }),
        ExpressionKind::MethodReference {
            target,
            name: Some(method),
        } => match &target.kind {
            ExpressionKind::Name(class) => Some(Function::Static { class, method }),
            _ => None,
        },
        _ => None,
    }
}

// The function that the last argument is, and the arguments before it.
fn update_of(arguments: &[Expression]) -> Option<(Function<'_>, &[Expression])> {
    let (last, others) = arguments.split_last()?;
    let function = function_of(last)?;
    Some((function, others))
}

// An `updateAndGet` or its like whose loop is begun: the object, what was there, what will be, the other operand, and
// the function.
#[derive(Copy)]
struct Update<'t> {
    object: Value,
    old: Value,
    new: Value,
    operand: Option<Value>,
    function: Function<'t>,
    mark: usize,
}

impl<'t> Clone for Update<'t> {
    fn clone(&self) -> Result<Update<'t>, AllocError> {
        Ok(*self)
    }
}

// A parameter of a function is a local, if it is a lambda that has so many.
fn bind(
    restater: &mut Restater,
    function: Function,
    place: usize,
    value: Value,
) -> Result<(), Stop> {
    let Function::Lambda { parameters, .. } = function else {
        return Ok(());
    };
    let (Some(parameter), Sort::Local(out)) = (parameters.get(place), value.sort) else {
        return Ok(());
    };
    let name = name_of(restater, &parameter.name);
    let kind = value.kind;
    declare(restater, Local { name, out, kind })
}

// The other operand goes to a local.
fn operand_of(
    restater: &mut Restater,
    out: &mut Text,
    at: usize,
    values: &[Value],
    kind: Kind,
) -> Result<Option<Value>, Stop> {
    match values.get(1) {
        Some(operand) => {
            let kept = keep_as(restater, out, at, *operand, kind)?;
            Ok(Some(kept))
        }
        None => Ok(None),
    }
}

// The loop begins, with the parameters of the function as locals.
fn begin<'t>(
    restater: &mut Restater,
    out: &mut Text,
    at: usize,
    values: &[Value],
    kind: Kind,
    function: Function<'t>,
) -> Result<Update<'t>, Stop> {
    let Some(object) = values.first() else {
        return refuse(restater, at, Why::Other);
    };
    let object = keep_reading(restater, out, at, *object)?;
    let operand = operand_of(restater, out, at, values, kind)?;
    let mark = mark(restater);
    let (old, new) = begin_update(restater, out, at, object, kind)?;
    bind(restater, function, 0, old)?;
    if let Some(operand) = operand {
        bind(restater, function, 1, operand)?;
    }
    Ok(Update {
        object,
        old,
        new,
        operand,
        function,
        mark,
    })
}

// What a static method gives of what was there and the other operand.
fn applied(
    restater: &mut Restater,
    out: &mut Text,
    update: Update,
    class: &Name,
    method: &Name,
) -> Result<Value, Stop> {
    match update.operand {
        Some(operand) => static_call(restater, out, class, method, &[update.old, operand]),
        None => static_call(restater, out, class, method, &[update.old]),
    }
}

// `updateAndGet` and its like: a loop with `compareAndSet`, since the function may be applied again.
#[cycle(expressions)]
fn updated<'a>(
    restater: &mut Restater,
    out: &mut Text,
    name: &'a Name,
    update: Update<'a>,
    depth: Depth<'a>,
) -> Result<Value, Stop> {
    let at = name.token;
    let value = match update.function {
        Function::Lambda { body, .. } => expression(restater, out, body, depth)?,
        Function::Static { class, method } => applied(restater, out, update, class, method)?,
    };
    set_new(restater, out, at, update.new, value)?;
    end_update(restater, out, at, update.object, update.old, update.new)?;
    leave(restater, update.mark);
    match name.text.as_str() {
        "updateAndGet" | "accumulateAndGet" => Ok(update.new),
        "getAndUpdate" | "getAndAccumulate" => Ok(update.old),
        _ => refuse(restater, at, Why::Lambda),
    }
}
