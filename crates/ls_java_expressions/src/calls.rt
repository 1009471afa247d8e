// Calls of the file's methods (JLS 15.12).

use crate::arguments::{add_argument, fitted, kinds_of, my_number};
use crate::library::library_call;
use crate::numbers::number_call;
use crate::operators::joined;
use crate::waiting::{is_waiting, waiting_call};
use crate::writing::write;
use ls_java_tables::choosing::choose_method;
use ls_java_tables::finding::{class_of_method, has_method, member_path, owner_kind, unknown};
use ls_java_tables::kinds::is_number;
use ls_java_tables::remarks::{Stop, Why};
use ls_java_tables::restater::{Restater, is_named, name_of, refuse_word};
use ls_java_tables::ropes::Text;
use ls_java_tables::spelling::{bound, fixed, value_of, word};
use ls_java_tables::values::{Kind, PRIMARY, Sort, Value};
use ls_java_tables::words::WordId;
use ls_java_tree::expressions::BinaryOperator;
use ls_java_tree::names::Name;

// What a call needs of a method.
#[derive(Drop)]
struct Signature {
    out: WordId,
    owner: Kind,
    parameters: Vec<Kind>,
    result: Kind,
    has_number: bool,
}

// The kinds of a list of kinds, on their own.
fn copied(restater: &Restater, kinds: &[Kind]) -> Result<Vec<Kind>, Stop> {
    let mut all = Vec::new(restater.alloc);
    for kind in kinds {
        all.push(*kind)?;
    }
    Ok(all)
}

fn signature_of(restater: &Restater, number: usize) -> Result<Option<Signature>, Stop> {
    let Some(method) = restater.tables.methods.get(number) else {
        return Ok(None);
    };
    let parameters = copied(restater, &method.parameters)?;
    Ok(Some(Signature {
        out: method.out,
        owner: owner_kind(restater, method.class, method.is_static),
        parameters,
        result: method.result,
        has_number: method.me.is_some(),
    }))
}

// The method that is meant (JLS 15.12.2).
fn chosen(
    restater: &mut Restater,
    name: &Name,
    class: usize,
    arguments: &[Value],
) -> Result<Signature, Stop> {
    let wanted = name_of(restater, name);
    let kinds = kinds_of(restater, arguments)?;
    if let Some(number) = choose_method(restater, class, wanted, &kinds) {
        if let Some(found) = signature_of(restater, number)? {
            return Ok(found);
        }
    }
    unknown(restater, name.token, wanted, Why::NoFit)
}

// What stands before the name of a method.
fn path(
    restater: &mut Restater,
    name: &Name,
    owner: Kind,
    receiver: Option<Value>,
) -> Result<Text, Stop> {
    match receiver {
        None => member_path(restater, owner, name.token),
        Some(object) if object.kind == owner => {
            let target = bound(restater, object, PRIMARY)?;
            write(restater, name.token, "# .", &[target])
        }
        Some(_) => {
            let wanted = name_of(restater, name);
            refuse_word(restater, name.token, wanted, Why::StaticElsewhere)
        }
    }
}

/// A call of a method of a class of the file: of an object, or by its name alone.
pub fn method_call(
    restater: &mut Restater,
    name: &Name,
    class: usize,
    receiver: Option<Value>,
    arguments: &[Value],
) -> Result<Value, Stop> {
    let at = name.token;
    let method = chosen(restater, name, class, arguments)?;
    let before = path(restater, name, method.owner, receiver)?;
    let mut list = Text::EMPTY;
    if method.has_number {
        let number = my_number(restater, at)?;
        add_argument(restater, &mut list, at, number.text)?;
    }
    fitted(restater, &mut list, at, arguments, &method.parameters)?;
    let out = word(restater, method.out, at)?;
    let text = write(restater, at, "# # ( # )", &[before, out, list])?;
    Ok(value_of(restater, text, method.result, PRIMARY, Sort::Reading))
}

/// A call by a name alone: of the innermost class around that has a method of the name (JLS 15.12.1).
pub fn own_call(
    restater: &mut Restater,
    out: &mut Text,
    name: &Name,
    arguments: &[Value],
) -> Result<Value, Stop> {
    let wanted = name_of(restater, name);
    if let Some(class) = class_of_method(restater, wanted) {
        return method_call(restater, name, class, None, arguments);
    }
    if is_waiting(name) {
        let kind = ls_java_tables::finding::this_kind(restater);
        let object = fixed(restater, "this", kind, name.token)?;
        return waiting_call(restater, out, name, object, arguments);
    }
    if is_named(name, "hashCode") {
        return refuse_word(restater, name.token, wanted, Why::HashCode);
    }
    unknown(restater, name.token, wanted, Why::NoMethod)
}

// The class of the file whose object a value is.
fn class_of(kind: Kind) -> Option<usize> {
    match kind {
        Kind::Class(class) => Some(class),
        Kind::Statics(class) => Some(class),
        _ => None,
    }
}

/// A call of an object's method.
pub fn object_call(
    restater: &mut Restater,
    out: &mut Text,
    name: &Name,
    object: Value,
    arguments: &[Value],
) -> Result<Value, Stop> {
    let wanted = name_of(restater, name);
    if let Some(class) = class_of(object.kind) {
        if has_method(restater, class, wanted) {
            return method_call(restater, name, class, Some(object), arguments);
        }
    }
    if is_waiting(name) {
        return waiting_call(restater, out, name, object, arguments);
    }
    if is_number(object.kind) || object.kind == Kind::Boolean {
        return number_call(restater, out, name, object, arguments);
    }
    plain_call(restater, out, name, object, arguments)
}

// A method that each object has, or one of the library.
fn plain_call(
    restater: &mut Restater,
    out: &mut Text,
    name: &Name,
    object: Value,
    arguments: &[Value],
) -> Result<Value, Stop> {
    let at = name.token;
    if let ("equals", [other]) = (name.text.as_str(), arguments) {
        return joined(restater, at, BinaryOperator::Equal, object, *other);
    }
    let wanted = name_of(restater, name);
    if is_named(name, "hashCode") {
        return refuse_word(restater, at, wanted, Why::HashCode);
    }
    if class_of(object.kind).is_some() {
        return unknown(restater, at, wanted, Why::NoMethod);
    }
    library_call(restater, out, name, object, arguments)
}
