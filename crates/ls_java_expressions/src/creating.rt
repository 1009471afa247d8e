// New objects and arrays, with their arguments (JLS 15.9, 15.10).

use crate::arrays::{add_item, begin_items, sized};
use crate::creations::{
    by_constructor, chosen, class_type, delegate_of, each_thread, enter_delegate, leave_delegate,
    made_kind, new_library, new_thread_local, without_constructor,
};
use crate::expressions::{expression, operands, part_as, parts};
use crate::parts::as_kind;
use crate::writing::emit;
use ls_java_tables::constants::fold;
use ls_java_tables::finding::{class_here, field_of};
use ls_java_tables::halves::own_name;
use ls_java_tables::kept::{Depth, kept_list};
use ls_java_tables::kinds::kind_of_element;
use ls_java_tables::remarks::{Stop, Why};
use ls_java_tables::restater::{Restater, is_named, local_of, name_of, refuse};
use ls_java_tables::ropes::Text;
use ls_java_tables::tables::Field;
use ls_java_tables::types::{kind_here, kind_with_brackets};
use ls_java_tables::values::{Constant, Kind, Value};
use ls_java_tree::expressions::{Expression, ExpressionKind, Literal};
use ls_java_tree::types::Type;

/// A new object (JLS 15.9).
#[cycle(expressions)]
pub(crate) fn creation<'a>(
    restater: &mut Restater,
    out: &mut Text,
    tree: &'a Expression,
    wanted: Option<Kind>,
    depth: Depth<'a>,
) -> Result<Value, Stop> {
    let at = tree.span.first;
    let ExpressionKind::New {
        class,
        arguments,
        body,
    } = &tree.kind
    else {
        return refuse(restater, at, Why::Other);
    };
    let Some(named) = class_type(class) else {
        return refuse(restater, at, Why::UnknownClass);
    };
    let wanted_class = name_of(restater, &named.name);
    let found = class_here(restater, wanted_class);
    if found.is_none() && is_named(&named.name, "ThreadLocal") {
        let first = initial_value(restater, *body, depth);
        return thread_local(restater, out, at, wanted, first, depth);
    }
    if body.is_some() {
        return refuse(restater, at, Why::Anonymous);
    }
    let values = operands(restater, out, at, arguments, depth)?;
    match found {
        Some(class) => object(restater, out, at, class, values, depth),
        None => {
            let kind = made_kind(restater, class, wanted)?;
            new_library(restater, at, &named.name, kind, &values)
        }
    }
}

// A new object of a class of the file. A constructor that only calls another one by `this(..)` is restated as that
// call.
#[cycle(expressions)]
fn object<'a>(
    restater: &mut Restater,
    out: &mut Text,
    at: usize,
    class: usize,
    arguments: Vec<Value>,
    depth: Depth<'a>,
) -> Result<Value, Stop> {
    let mut values = arguments;
    for _ in 0..=restater.tables.constructors.len() {
        let Some(number) = chosen(restater, at, class, &values)? else {
            return without_constructor(restater, at, class, &values);
        };
        let Some(others) = delegate_of(restater, number, depth) else {
            return by_constructor(restater, out, at, class, number, &values);
        };
        let outside = enter_delegate(restater, out, at, number, &values)?;
        values = operands(restater, out, at, others, depth)?;
        leave_delegate(restater, outside);
    }
    refuse(restater, at, Why::ThisCircle)
}

// The value that `initialValue` returns in the body of an anonymous ThreadLocal.
fn initial_value<'a>(
    restater: &Restater,
    body: Option<usize>,
    depth: Depth<'a>,
) -> Option<&'a Expression> {
    let number = *restater.tables.returned.get(body?)?;
    kept_list(depth, number?).first()
}

// Whether an expression has the same value from here on: a constant; a local, which a lambda or a class in a method
// names only if it is never assigned again (JLS 15.27.2, 8.1.3); or a final field that has its value where it is
// declared, before.
fn is_settled(restater: &Restater, at: usize, tree: &Expression) -> bool {
    if fold(restater, tree).is_some() {
        return true;
    }
    let Some(name) = own_name(tree) else {
        return false;
    };
    let wanted = name_of(restater, name);
    let by_name = matches!(&tree.kind, ExpressionKind::Name(_));
    if by_name && local_of(restater, wanted).is_some() {
        return true;
    }
    match field_of(restater, wanted) {
        Some(number) => match restater.tables.fields.get(number) {
            Some(field) => is_given_before(restater, field, at),
            None => false,
        },
        None => false,
    }
}

// Whether a final field of the class has its value before what stands at a token. It gets it where it is declared,
// above, and initialisers come in the order of the file (JLS 12.5). A method may be called earlier.
fn is_given_before(restater: &Restater, field: &Field, at: usize) -> bool {
    let is_own = field.class == restater.place.class && restater.place.method.is_none();
    let is_above = field.token < at;
    is_own && is_above && field.is_final && field.has_value
}

// Whether a value can be made for all threads at once: it is settled, `null`, or a new object of settled values.
fn is_simple(restater: &Restater, at: usize, tree: &Expression) -> bool {
    match &tree.kind {
        ExpressionKind::Literal(_) => true,
        ExpressionKind::New {
            arguments,
            body,
            ..
        } => {
            body.is_none()
                && arguments
                    .iter()
                    .all(|argument| is_settled(restater, at, argument))
        }
        _ => is_settled(restater, at, tree),
    }
}

// Whether a new array has this value everywhere.
fn is_default(restater: &Restater, tree: &Expression) -> bool {
    match &tree.kind {
        ExpressionKind::Literal(Literal::Null) => true,
        _ => match fold(restater, tree) {
            Some(Constant::Int(number)) => number == 0,
            Some(Constant::Boolean(truth)) => !truth,
            None => false,
        },
    }
}

/// A new ThreadLocal: an array by the thread's number, with the value that each thread finds first.
#[cycle(expressions)]
pub(crate) fn thread_local<'a>(
    restater: &mut Restater,
    out: &mut Text,
    at: usize,
    wanted: Option<Kind>,
    first: Option<&'a Expression>,
    depth: Depth<'a>,
) -> Result<Value, Stop> {
    let Some(Kind::ThreadLocal(element)) = wanted else {
        return refuse(restater, at, Why::LocalThreadLocal);
    };
    let array = new_thread_local(restater, out, at, Kind::ThreadLocal(element))?;
    let Some(first) = first else {
        return Ok(array);
    };
    if is_default(restater, first) {
        return Ok(array);
    }
    if !is_simple(restater, at, first) {
        return refuse(restater, first.span.first, Why::FirstValue);
    }
    let index = each_thread(restater, out, at)?;
    let value = expression(restater, out, first, depth)?;
    let value = as_kind(restater, at, value, kind_of_element(element))?;
    let parts = [array.text, index.text, value.text];
    emit(restater, out, at, "# . set ( # , # ) ; }", &parts)?;
    Ok(array)
}

// The kind of a new array: that which is wanted, else the one that is written.
fn array_kind(
    restater: &mut Restater,
    item: &Type,
    dimensions: usize,
    wanted: Option<Kind>,
) -> Result<Kind, Stop> {
    match wanted {
        Some(Kind::Array(element)) => Ok(Kind::Array(element)),
        _ => kind_with_brackets(restater, item, dimensions),
    }
}

/// A new array, by its lengths or by its items (JLS 15.10, 10.6).
#[cycle(expressions)]
pub(crate) fn array<'a>(
    restater: &mut Restater,
    out: &mut Text,
    tree: &'a Expression,
    wanted: Option<Kind>,
    depth: Depth<'a>,
) -> Result<Value, Stop> {
    let at = tree.span.first;
    match &tree.kind {
        ExpressionKind::NewArray {
            item,
            lengths,
            open,
        } => {
            let mut all = Vec::new(restater.alloc);
            parts(restater, &mut all, lengths, depth)?;
            let dimensions = lengths.len().saturating_add(*open);
            let kind = array_kind(restater, item, dimensions, wanted)?;
            sized(restater, out, at, kind, &all)
        }
        ExpressionKind::Items { array, items } => {
            let kind = match (array, wanted) {
                (Some(written), _) => kind_here(restater, written)?,
                (None, Some(kind)) => kind,
                (None, None) => return refuse(restater, at, Why::ItemsHere),
            };
            with_items(restater, out, at, kind, items, depth)
        }
        _ => refuse(restater, at, Why::Other),
    }
}

// A new array with these items.
#[cycle(expressions)]
fn with_items<'a>(
    restater: &mut Restater,
    out: &mut Text,
    at: usize,
    kind: Kind,
    items: &'a [Expression],
    depth: Depth<'a>,
) -> Result<Value, Stop> {
    let Kind::Array(element) = kind else {
        return refuse(restater, at, Why::ItemsHere);
    };
    let array = begin_items(restater, out, at, kind, items.len())?;
    for (place, item) in items.iter().enumerate() {
        let one = part_as(restater, item, kind_of_element(element), depth)?;
        add_item(restater, out, array, place, one)?;
    }
    Ok(array)
}
