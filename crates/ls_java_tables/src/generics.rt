// What the type parameters of the classes stand for (JLS 4.5, 8.1.2): the one class of the file at which they are used,
// else numbers.

use crate::finding::class_named;
use crate::remarks::{Stop, What, Why};
use crate::restater::{Restater, note_word, refuse_word};
use crate::scanning::{Argument, all_arguments};
use crate::types::variable_kind;
use crate::values::Kind;
use crate::words::Words;

/// The innermost class whose text has a token, or the first class.
pub fn class_around(restater: &Restater, token: usize) -> usize {
    let mut around = 0;
    for (number, class) in restater.tables.classes.iter().enumerate() {
        if class.span.first <= token && token <= class.span.last {
            around = number;
        }
    }
    around
}

// The class that an argument stands for, if it is one of the file.
fn argument_class(restater: &Restater, argument: Argument) -> Option<usize> {
    if argument.name == Words::NONE {
        return None;
    }
    let around = class_around(restater, argument.token);
    match variable_kind(restater, around, argument.name) {
        Some(Kind::Class(class)) => Some(class),
        Some(_) => None,
        None => class_named(restater, around, argument.name),
    }
}

// What the type parameter is to which an argument goes.
fn parameter_kind(restater: &Restater, class: usize, place: usize) -> Option<Kind> {
    let class = restater.tables.classes.get(class)?;
    Some(class.variables.get(place)?.kind)
}

fn set_parameter(restater: &mut Restater, class: usize, place: usize, kind: Kind) {
    if let Some(class) = restater.tables.classes.get_mut(class) {
        if let Some(variable) = class.variables.get_mut(place) {
            variable.kind = kind;
        }
    }
}

// One argument. The answer is whether its type parameter is known now and wasn't before.
fn use_argument(restater: &mut Restater, argument: Argument) -> Result<bool, Stop> {
    let around = class_around(restater, argument.token);
    let Some(class) = class_named(restater, around, argument.class) else {
        return Ok(false);
    };
    let Some(found) = argument_class(restater, argument) else {
        return Ok(false);
    };
    let found = Kind::Class(found);
    match parameter_kind(restater, class, argument.place) {
        Some(Kind::Item) => {
            set_parameter(restater, class, argument.place, found);
            Ok(true)
        }
        Some(known) if known != found => {
            refuse_word(restater, argument.token, argument.class, Why::SeveralTypes)
        }
        _ => Ok(false),
    }
}

// All arguments, once. The answer is whether one more type parameter is known.
fn use_arguments(restater: &mut Restater, arguments: &[Argument]) -> Result<bool, Stop> {
    let mut more = false;
    for argument in arguments {
        if use_argument(restater, *argument)? {
            more = true;
        }
    }
    Ok(more)
}

// A note for each type parameter of a class.
fn note_parameters(restater: &mut Restater, class: usize) -> Result<(), Stop> {
    for place in 0..restater.shapes.len() {
        let Some(kind) = parameter_kind(restater, class, place) else {
            break;
        };
        let Some(class) = restater.tables.classes.get(class) else {
            break;
        };
        let token = class.token;
        let name = class.name;
        if kind == Kind::Item {
            note_word(restater, token, name, What::ParameterIsInt)?;
        } else {
            note_word(restater, token, name, What::ParameterIsClass)?;
        }
    }
    Ok(())
}

/// What the type parameters of all classes stand for.
pub fn find_parameters(restater: &mut Restater) -> Result<(), Stop> {
    let arguments = all_arguments(restater)?;
    for _ in 0..=restater.tables.classes.len() {
        if !use_arguments(restater, &arguments)? {
            break;
        }
    }
    for class in 0..restater.tables.classes.len() {
        note_parameters(restater, class)?;
    }
    Ok(())
}
