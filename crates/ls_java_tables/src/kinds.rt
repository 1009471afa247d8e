// Kinds: elements of arrays, numbers, and which argument fits which parameter.

use crate::values::{Element, Kind};

/// The kind of an element.
pub fn kind_of_element(element: Element) -> Kind {
    match element {
        Element::Int => Kind::Int,
        Element::Boolean => Kind::Boolean,
        Element::Item => Kind::Item,
        Element::Enum(number) => Kind::Enum(number),
        Element::Class(class) => Kind::Class(class),
        Element::Key => Kind::Key,
        Element::Lock => Kind::Lock,
        Element::ReadWrite => Kind::ReadWrite,
        Element::AtomicInteger => Kind::AtomicInteger,
        Element::AtomicBoolean => Kind::AtomicBoolean,
        Element::Semaphore => Kind::Semaphore,
        Element::Latch => Kind::Latch,
        Element::Reference(class) => Kind::Reference(class),
        Element::Markable(class) => Kind::Markable(class),
        Element::Ints => Kind::Array(Element::Int),
        Element::Booleans => Kind::Array(Element::Boolean),
        Element::Items => Kind::Array(Element::Item),
        Element::Classes(class) => Kind::Array(Element::Class(class)),
    }
}

// Arrays of arrays are there of numbers, booleans, items and objects.
fn row(element: Element) -> Option<Element> {
    match element {
        Element::Int => Some(Element::Ints),
        Element::Boolean => Some(Element::Booleans),
        Element::Item => Some(Element::Items),
        Element::Enum(_) => Some(Element::Ints),
        Element::Class(class) => Some(Element::Classes(class)),
        _ => None,
    }
}

/// What an element of a kind is, if there are arrays of it.
pub fn element_of(kind: Kind) -> Option<Element> {
    match kind {
        Kind::Int => Some(Element::Int),
        Kind::Boolean => Some(Element::Boolean),
        Kind::Item => Some(Element::Item),
        Kind::Enum(number) => Some(Element::Enum(number)),
        Kind::Class(class) => Some(Element::Class(class)),
        Kind::Key => Some(Element::Key),
        Kind::Lock => Some(Element::Lock),
        Kind::ReadWrite => Some(Element::ReadWrite),
        Kind::AtomicInteger => Some(Element::AtomicInteger),
        Kind::AtomicBoolean => Some(Element::AtomicBoolean),
        Kind::Semaphore => Some(Element::Semaphore),
        Kind::Latch => Some(Element::Latch),
        Kind::Reference(class) => Some(Element::Reference(class)),
        Kind::Markable(class) => Some(Element::Markable(class)),
        Kind::Array(element) => row(element),
        _ => None,
    }
}

/// The elements that are written alike have one class of arrays.
pub fn written_element(element: Element) -> Element {
    match element {
        Element::Item | Element::Enum(_) => Element::Int,
        Element::Items => Element::Ints,
        other => other,
    }
}

/// Whether a kind is written `int`.
pub fn is_number(kind: Kind) -> bool {
    matches!(&kind, Kind::Int | Kind::Item | Kind::Enum(_))
}

/// Whether a kind is one of objects, so that null is one of its values. 0 stands for null where it is written `int`.
pub fn is_reference(kind: Kind) -> bool {
    !matches!(&kind, Kind::Void | Kind::Int | Kind::Boolean)
}

/// Whether an argument fits a parameter without boxing (JLS 15.12.2.2).
pub fn fits_strictly(argument: Kind, parameter: Kind) -> bool {
    argument == parameter || argument == Kind::Null && is_reference(parameter)
}

// Arrays that are written alike.
fn same_array(one: Kind, other: Kind) -> bool {
    match (one, other) {
        (Kind::Array(one), Kind::Array(other)) => written_element(one) == written_element(other),
        _ => false,
    }
}

/// Whether an argument fits a parameter, with boxing (JLS 15.12.2.3).
pub fn fits(argument: Kind, parameter: Kind) -> bool {
    fits_strictly(argument, parameter)
        || is_number(argument) && is_number(parameter)
        || same_array(argument, parameter)
}
