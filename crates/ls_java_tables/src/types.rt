// Which kind a type is (JLS 4, 6.5.5), and how a kind is written.

use crate::finding::{class_named, enum_named, is_interface, outer_of};
use crate::kinds::{element_of, kind_of_element, written_element};
use crate::library::{is_generic, plain_kind, why_not};
use crate::needs::{ArrayClass, Helper, helper_class};
use crate::remarks::{Stop, What, Why};
use crate::restater::{Restater, deeper, fresh, name_of, note, note_word, refuse, refuse_word};
use crate::ropes::Text;
use crate::spelling::{phrase, say, say_word, word};
use crate::tables::VariableRun;
use crate::values::{Element, Kind};
use crate::words::WordId;
use ls_java_tree::names::{Name, Primitive};
use ls_java_tree::types::{ClassType, Type, TypeKind};

/// The greatest number of types in one another.
pub const TYPE_LIMIT: usize = 64;

/// Where a type stands: in a class, and in a method or a constructor with type parameters.
#[derive(Clone, Copy)]
pub struct Site {
    pub class: usize,
    pub variables: VariableRun,
}

/// Where restating is, as a place of types.
pub fn site_here(restater: &Restater) -> Site {
    let class = restater.place.class;
    if let Some(number) = restater.place.method {
        if let Some(method) = restater.tables.methods.get(number) {
            let variables = method.type_variables;
            return Site { class, variables };
        }
    }
    if let Some(number) = restater.place.constructor {
        if let Some(constructor) = restater.tables.constructors.get(number) {
            let variables = constructor.type_variables;
            return Site { class, variables };
        }
    }
    Site {
        class,
        variables: VariableRun::NONE,
    }
}

/// The kind of a type where restating is.
pub fn kind_here(restater: &mut Restater, written: &Type) -> Result<Kind, Stop> {
    let site = site_here(restater);
    kind_of(restater, site, written)
}

/// The kind of a type with so many `[]` after it, where restating is.
pub fn kind_with_brackets(
    restater: &mut Restater,
    written: &Type,
    brackets: usize,
) -> Result<Kind, Stop> {
    let site = site_here(restater);
    kind_at(restater, site, written, brackets)
}

/// The kind of a type with so many `[]` after it.
pub fn kind_at(
    restater: &mut Restater,
    site: Site,
    written: &Type,
    brackets: usize,
) -> Result<Kind, Stop> {
    let mut kind = kind_of(restater, site, written)?;
    if brackets > 2 {
        return refuse(restater, written.span.first, Why::ThreeDimensions);
    }
    for _ in 0..brackets {
        kind = array_of(restater, kind, written.span.first)?;
    }
    Ok(kind)
}

/// The kind of arrays of a kind.
pub fn array_of(restater: &mut Restater, kind: Kind, token: usize) -> Result<Kind, Stop> {
    match element_of(kind) {
        Some(element) => Ok(Kind::Array(element)),
        None => refuse(restater, token, Why::ArrayOf),
    }
}

// The argument of a class of the library that has one, as it is written.
fn library_argument(class: &ClassType) -> Option<&Type> {
    if !is_generic(&class.name) {
        return None;
    }
    class.arguments.as_ref()?.first()
}

/// The kind of a type (JLS 4).
pub fn kind_of(restater: &mut Restater, site: Site, written: &Type) -> Result<Kind, Stop> {
    kind_within(restater, site, written, TYPE_LIMIT)
}

// The kind of a type of at most so many types in one another.
fn kind_within(
    restater: &mut Restater,
    site: Site,
    written: &Type,
    limit: usize,
) -> Result<Kind, Stop> {
    let inner = deeper(limit)?;
    let token = written.span.first;
    match &written.kind {
        TypeKind::Void => Ok(Kind::Void),
        TypeKind::Primitive(primitive) => primitive_kind(restater, *primitive, token),
        TypeKind::Array(item) => {
            let item = kind_within(restater, site, item, inner)?;
            array_of(restater, item, token)
        }
        TypeKind::Wildcard(Some(bound)) => kind_within(restater, site, &bound.bound, inner),
        TypeKind::Wildcard(None) => Ok(Kind::Item),
        TypeKind::Class(class) => match library_argument(class) {
            Some(argument) => {
                let argument = kind_within(restater, site, argument, inner)?;
                class_kind(restater, site, class, Some(argument))
            }
            None => class_kind(restater, site, class, None),
        },
    }
}

// A primitive type (JLS 4.2).
fn primitive_kind(
    restater: &mut Restater,
    primitive: Primitive,
    token: usize,
) -> Result<Kind, Stop> {
    match primitive {
        Primitive::Int => Ok(Kind::Int),
        Primitive::Boolean => Ok(Kind::Boolean),
        Primitive::Long => {
            note(restater, token, What::Long)?;
            Ok(Kind::Int)
        }
        _ => refuse(restater, token, Why::OnlyIntAndBoolean),
    }
}

/// The type variable of a name in a class, or in one around it.
pub fn variable_kind(restater: &Restater, from: usize, name: WordId) -> Option<Kind> {
    let mut class = from;
    for _ in 0..=restater.tables.classes.len() {
        let one = restater.tables.classes.get(class)?;
        for variable in &one.variables {
            if variable.name == name {
                return Some(variable.kind);
            }
        }
        class = outer_of(restater, class)?;
    }
    None
}

// Whether a name is that of a type parameter of a method or a constructor.
fn is_variable(restater: &Restater, variables: VariableRun, name: WordId) -> bool {
    for number in variables.first..variables.end {
        if let Some(known) = restater.tables.type_variables.get(number) {
            if *known == name {
                return true;
            }
        }
    }
    false
}

// A class or a type variable (JLS 4.3): of the method, of a class, a class of the file, or one of the library.
fn class_kind(
    restater: &mut Restater,
    site: Site,
    class: &ClassType,
    argument: Option<Kind>,
) -> Result<Kind, Stop> {
    let name = name_of(restater, &class.name);
    if is_variable(restater, site.variables, name) {
        return Ok(Kind::Item);
    }
    if let Some(kind) = variable_kind(restater, site.class, name) {
        return Ok(kind);
    }
    if let Some(number) = class_named(restater, site.class, name) {
        return Ok(Kind::Class(number));
    }
    if let Some(number) = enum_named(restater, name) {
        return Ok(Kind::Enum(number));
    }
    if is_interface(restater, name) {
        return refuse_word(restater, class.name.token, name, Why::SeveralClasses);
    }
    library_kind(restater, class, argument)
}

// A class of the library.
fn library_kind(
    restater: &mut Restater,
    class: &ClassType,
    argument: Option<Kind>,
) -> Result<Kind, Stop> {
    let token = class.name.token;
    if let Some(kind) = plain_kind(&class.name) {
        return Ok(kind);
    }
    match class.name.text.as_str() {
        "Integer" | "Long" | "Number" | "Comparable" => {
            note(restater, token, What::Boxed)?;
            Ok(Kind::Item)
        }
        "Object" if restater.tables.has_keys => Ok(Kind::Key),
        "Object" => Ok(Kind::Item),
        "AtomicLong" => {
            note(restater, token, What::AtomicLong)?;
            Ok(Kind::AtomicInteger)
        }
        "AtomicLongArray" => {
            note(restater, token, What::AtomicLong)?;
            Ok(Kind::IntegerArray)
        }
        _ if is_generic(&class.name) => generic_kind(restater, class, argument),
        _ => {
            let name = name_of(restater, &class.name);
            refuse_word(restater, token, name, why_not(&class.name))
        }
    }
}

// A class of the library with an argument.
fn generic_kind(
    restater: &mut Restater,
    class: &ClassType,
    argument: Option<Kind>,
) -> Result<Kind, Stop> {
    match argument {
        Some(argument) => applied(restater, &class.name, argument),
        None => refuse(restater, class.name.token, Why::NoTypeArgument),
    }
}

/// A class of the library at an argument: `AtomicReference`, `AtomicMarkableReference`, `AtomicReferenceArray`, or
/// `ThreadLocal`.
pub fn applied(restater: &mut Restater, name: &Name, argument: Kind) -> Result<Kind, Stop> {
    match (name.text.as_str(), argument) {
        ("AtomicReference", Kind::Class(class)) => Ok(Kind::Reference(class)),
        ("AtomicReference", Kind::Item | Kind::Enum(_)) => {
            note(restater, name.token, What::ReferenceByValue)?;
            Ok(Kind::AtomicInteger)
        }
        ("AtomicReference", Kind::Boolean) => {
            note(restater, name.token, What::ReferenceByValue)?;
            Ok(Kind::AtomicBoolean)
        }
        ("AtomicMarkableReference", Kind::Class(class)) => Ok(Kind::Markable(class)),
        ("AtomicReferenceArray", Kind::Class(class)) => Ok(Kind::ReferenceArray(class)),
        ("AtomicReferenceArray", Kind::Item | Kind::Enum(_)) => {
            note(restater, name.token, What::ReferenceByValue)?;
            Ok(Kind::IntegerArray)
        }
        ("ThreadLocal", argument) => match element_of(argument) {
            Some(element) => Ok(Kind::ThreadLocal(element)),
            None => refuse(restater, name.token, Why::ArrayOf),
        },
        (_, Kind::Item | Kind::Enum(_)) => refuse(restater, name.token, Why::ReferenceOfItem),
        _ => refuse(restater, name.token, Why::ReferenceOf),
    }
}

/// The name of a class: of its objects, or of the object of its static members.
pub fn class_word(restater: &Restater, kind: Kind) -> Option<WordId> {
    match kind {
        Kind::Class(class) => Some(restater.tables.classes.get(class)?.out),
        Kind::Statics(class) => Some(restater.tables.classes.get(class)?.name),
        _ => None,
    }
}

// The name that the class of arrays of these elements gets if the file hasn't it.
fn array_name(restater: &mut Restater, element: Element) -> Result<WordId, Stop> {
    let (class, end) = match element {
        Element::Int | Element::Item | Element::Enum(_) => return fresh(restater, "Ints"),
        Element::Boolean => return fresh(restater, "Booleans"),
        Element::Key => return fresh(restater, "Keys"),
        Element::Lock => return fresh(restater, "Locks"),
        Element::ReadWrite => return fresh(restater, "ReadWrites"),
        Element::AtomicInteger => return fresh(restater, "AtomicInts"),
        Element::AtomicBoolean => return fresh(restater, "Flags"),
        Element::Semaphore => return fresh(restater, "Semaphores"),
        Element::Latch => return fresh(restater, "Latches"),
        Element::Ints | Element::Items => return fresh(restater, "IntRows"),
        Element::Booleans => return fresh(restater, "BooleanRows"),
        Element::Class(class) => (class, "s"),
        Element::Reference(class) => (class, "References"),
        Element::Markable(class) => (class, "Markables"),
        Element::Classes(class) => (class, "Rows"),
    };
    let Some(name) = class_word(restater, Kind::Class(class)) else {
        return fresh(restater, "Objects");
    };
    let base = format!(in restater.alloc; "{}{end}", restater.words.text(name))?;
    fresh(restater, base.as_str())
}

/// The name of the class that stands for arrays of these elements, which is added. If it is filled, its elements are
/// made with it.
pub fn array_class(
    restater: &mut Restater,
    element: Element,
    filled: bool,
) -> Result<WordId, Stop> {
    let element = written_element(element);
    for known in &restater.needs.arrays {
        if known.element == element && known.filled == filled {
            return Ok(known.name);
        }
    }
    let name = array_name(restater, element)?;
    let one = ArrayClass {
        element,
        filled,
        name,
    };
    restater.needs.arrays.push(one)?;
    Ok(name)
}

// The helper that a kind is written as.
fn helper_of(kind: Kind) -> Option<Helper> {
    match kind {
        Kind::AtomicInteger => Some(Helper::AtomicInteger),
        Kind::AtomicBoolean => Some(Helper::AtomicBoolean),
        Kind::ReadWrite | Kind::ReadLock | Kind::WriteLock => Some(Helper::ReadWrite),
        Kind::Semaphore => Some(Helper::Semaphore),
        Kind::Latch => Some(Helper::Latch),
        Kind::Key => Some(Helper::Key),
        _ => None,
    }
}

/// The elements of the array that a kind is written as, and whether they are made with it.
pub fn written_array(kind: Kind) -> Option<(Element, bool)> {
    match kind {
        Kind::Array(element) | Kind::ThreadLocal(element) => Some((element, false)),
        Kind::IntegerArray => Some((Element::AtomicInteger, true)),
        Kind::ReferenceArray(class) => Some((Element::Reference(class), true)),
        _ => None,
    }
}

// An AtomicMarkableReference of a class.
fn markable_text(restater: &mut Restater, class: usize, token: usize) -> Result<Text, Stop> {
    let mut text = phrase(restater, "AtomicMarkableReference <", token)?;
    if let Some(name) = class_word(restater, Kind::Class(class)) {
        say_word(restater, &mut text, name, token)?;
    }
    say(restater, &mut text, ">", token)?;
    Ok(text)
}

/// A kind, as it is written. The classes that it needs are added.
pub fn type_text(restater: &mut Restater, kind: Kind, token: usize) -> Result<Text, Stop> {
    if let Some(name) = class_word(restater, kind) {
        return word(restater, name, token);
    }
    if let Some(helper) = helper_of(kind) {
        let name = helper_class(restater, helper)?;
        return word(restater, name, token);
    }
    match kind {
        Kind::Int | Kind::Item | Kind::Enum(_) => phrase(restater, "int", token),
        Kind::Boolean => phrase(restater, "boolean", token),
        Kind::Void => phrase(restater, "void", token),
        Kind::Lock => phrase(restater, "Lock", token),
        Kind::Reference(class) | Kind::Markable(class) => markable_text(restater, class, token),
        Kind::Array(Element::Boolean) if !restater.facts.boolean_lengths => {
            phrase(restater, "boolean [ ]", token)
        }
        other => match written_array(other) {
            Some((element, filled)) => {
                let name = array_class(restater, element, filled)?;
                word(restater, name, token)
            }
            None => refuse(restater, token, Why::Other),
        },
    }
}

/// A note at a token that a class of arrays stands there.
pub fn note_array(restater: &mut Restater, element: Element, token: usize) -> Result<(), Stop> {
    let name = array_class(restater, element, false)?;
    note_word(restater, token, name, What::ArrayClass)
}

/// An element, as it is written. The classes that it needs are added.
pub fn element_text(restater: &mut Restater, element: Element, token: usize) -> Result<Text, Stop> {
    type_text(restater, kind_of_element(element), token)
}
