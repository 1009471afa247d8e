// Names, fields and `this` (JLS 6.5.6, 15.8, 15.11).

use crate::arrays::length;
use ls_java_tables::finding::{
    class_here, enum_constant, enum_named, field_in, field_of, member_path, member_text, object_of,
    owner_kind, this_kind, unknown,
};
use ls_java_tables::remarks::{Stop, Why};
use ls_java_tables::restater::{Restater, is_named, join, local_of, name_of, refuse};
use ls_java_tables::spelling::{bound, fixed, literal, local_value, value_of, word};
use ls_java_tables::tables::Field;
use ls_java_tables::values::{Constant, Kind, PRIMARY, Sort, Value};
use ls_java_tree::expressions::{Expression, ExpressionKind};
use ls_java_tree::names::Name;

// How the value of a field may be moved. The array that stands for a ThreadLocal is always the same.
fn field_sort(kind: Kind) -> Sort {
    match kind {
        Kind::ThreadLocal(_) => Sort::Fixed,
        _ => Sort::Reading,
    }
}

/// The field of a number, as its name alone means it.
pub fn field_alone(restater: &mut Restater, number: usize, token: usize) -> Result<Value, Stop> {
    let Some(field) = restater.tables.fields.get(number).copied() else {
        return refuse(restater, token, Why::UnknownName);
    };
    if let Some(constant) = field.constant {
        return literal(restater, constant, token);
    }
    let owner = owner_kind(restater, field.class, field.is_static);
    let path = member_path(restater, owner, token)?;
    let name = word(restater, field.name, token)?;
    let text = join(restater, path, name)?;
    let sort = field_sort(field.kind);
    Ok(value_of(restater, text, field.kind, PRIMARY, sort))
}

/// A name alone (JLS 6.5.6.1): a local, else a field.
pub fn named(restater: &mut Restater, name: &Name) -> Result<Value, Stop> {
    let wanted = name_of(restater, name);
    if let Some(local) = local_of(restater, wanted) {
        return local_value(restater, local.out, local.kind, name.token);
    }
    match field_of(restater, wanted) {
        Some(number) => field_alone(restater, number, name.token),
        None => unknown(restater, name.token, wanted, Why::UnknownName),
    }
}

/// `this` (JLS 15.8.3).
pub fn this_object(restater: &mut Restater, token: usize) -> Result<Value, Stop> {
    let kind = this_kind(restater);
    fixed(restater, "this", kind, token)
}

/// `Outer.this` (JLS 15.8.4).
pub fn outer_this(
    restater: &mut Restater,
    class: &Expression,
    token: usize,
) -> Result<Value, Stop> {
    let ExpressionKind::Name(name) = &class.kind else {
        return refuse(restater, token, Why::NotAround);
    };
    let wanted = name_of(restater, name);
    match class_here(restater, wanted) {
        Some(class) => object_of(restater, Kind::Class(class), token),
        None => unknown(restater, token, wanted, Why::NotAround),
    }
}

/// The name of a class, an enum or a class of the library, where an expression is one (JLS 6.5.2).
pub fn type_name<'t>(restater: &Restater, written: &'t Expression) -> Option<&'t Name> {
    match &written.kind {
        ExpressionKind::Name(name) => {
            let wanted = name_of(restater, name);
            let is_value = local_of(restater, wanted).is_some()
                || field_of(restater, wanted).is_some();
            if is_value { None } else { Some(name) }
        }
        ExpressionKind::Field { name, .. } => {
            let wanted = name_of(restater, name);
            let is_type = field_of(restater, wanted).is_none()
                && (class_here(restater, wanted).is_some()
                    || enum_named(restater, wanted).is_some());
            if is_type { Some(name) } else { None }
        }
        _ => None,
    }
}

// A constant of the library, behind the name of its class. A unit of time is 0, since nothing waits for a time.
fn library_constant(class: &Name, name: &Name) -> Option<Constant> {
    if is_named(class, "TimeUnit") {
        return Some(Constant::Int(0));
    }
    if !is_named(class, "Integer") && !is_named(class, "Long") {
        return None;
    }
    match name.text.as_str() {
        "MAX_VALUE" => Some(Constant::Int(i32::MAX)),
        "MIN_VALUE" => Some(Constant::Int(i32::MIN)),
        _ => None,
    }
}

/// A name behind the name of a class, an enum or a class of the library.
pub fn static_member(restater: &mut Restater, class: &Name, name: &Name) -> Result<Value, Stop> {
    let owner = name_of(restater, class);
    let wanted = name_of(restater, name);
    if let Some(constant) = library_constant(class, name) {
        return literal(restater, constant, name.token);
    }
    if let Some(number) = enum_named(restater, owner) {
        return match enum_constant(restater, number, wanted) {
            Some(constant) => enum_value(restater, number, constant, name.token),
            None => unknown(restater, name.token, wanted, Why::NoField),
        };
    }
    let Some(class) = class_here(restater, owner) else {
        return unknown(restater, class.token, owner, Why::UnknownName);
    };
    match field_in(restater, class, wanted) {
        Some(number) => static_field(restater, number, name.token),
        None => unknown(restater, name.token, wanted, Why::NoField),
    }
}

/// A constant of an enum.
pub fn enum_value(
    restater: &mut Restater,
    number: usize,
    constant: Constant,
    token: usize,
) -> Result<Value, Stop> {
    let mut value = literal(restater, constant, token)?;
    value.kind = Kind::Enum(number);
    Ok(value)
}

/// Whether a class is the one where restating is, or around it.
pub fn is_around(restater: &Restater, wanted: usize) -> bool {
    let mut class = restater.place.class;
    for _ in 0..=restater.tables.classes.len() {
        if class == wanted {
            return true;
        }
        match ls_java_tables::finding::outer_of(restater, class) {
            Some(outer) => class = outer,
            None => return false,
        }
    }
    false
}

// A static field of a class: a constant, or a field of a class that is around.
fn static_field(restater: &mut Restater, number: usize, token: usize) -> Result<Value, Stop> {
    let Some(field) = restater.tables.fields.get(number).copied() else {
        return refuse(restater, token, Why::NoField);
    };
    if field.constant.is_some() || is_around(restater, field.class) {
        return field_alone(restater, number, token);
    }
    refuse(restater, token, Why::StaticElsewhere)
}

// The field of an object of a kind.
fn field_of_kind(restater: &Restater, kind: Kind, name: &Name) -> Option<Field> {
    let wanted = name_of(restater, name);
    let class = match kind {
        Kind::Class(class) => class,
        Kind::Statics(class) => class,
        _ => return None,
    };
    let number = field_in(restater, class, wanted)?;
    restater.tables.fields.get(number).copied()
}

/// The field of an object, or the length of an array (JLS 15.11.1, 10.7).
pub fn member(restater: &mut Restater, object: Value, name: &Name) -> Result<Value, Stop> {
    if is_named(name, "length") && matches!(&object.kind, Kind::Array(_)) {
        return length(restater, name.token, object);
    }
    let wanted = name_of(restater, name);
    let Some(field) = field_of_kind(restater, object.kind, name) else {
        return unknown(restater, name.token, wanted, Why::NoField);
    };
    if let Some(constant) = field.constant {
        return literal(restater, constant, name.token);
    }
    let owner = owner_kind(restater, field.class, field.is_static);
    if owner != object.kind {
        return refuse(restater, name.token, Why::StaticElsewhere);
    }
    let target = bound(restater, object, PRIMARY)?;
    let text = member_text(restater, target, field.name, name.token)?;
    let sort = field_sort(field.kind);
    Ok(value_of(restater, text, field.kind, PRIMARY, sort))
}
