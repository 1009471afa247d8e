// New objects (JLS 15.9): of a class of the file, or of the library.

use crate::arguments::{add_argument, fitted, kinds_of, listed};
use crate::arrays::{counting, made};
use crate::parts::{as_kind, keep, keep_as, keep_reading};
use crate::writing::{emit, write};
use ls_java_tables::choosing::{choose_constructor, has_constructor};
use ls_java_tables::finding::{object_of, outer_kind};
use ls_java_tables::kept::{Depth, kept_list};
use ls_java_tables::library::is_generic;
use ls_java_tables::needs::{Helper, Operation, use_operation};
use ls_java_tables::remarks::{Stop, What, Why};
use ls_java_tables::restater::{
    Local, Place, Restater, declare, fresh, is_handed_outer, is_handed_statics, leave, mark,
    name_of, note, refuse, refuse_word,
};
use ls_java_tables::ropes::Text;
use ls_java_tables::spelling::{literal, phrase, value_of, word};
use ls_java_tables::types::{kind_here, type_text};
use ls_java_tables::values::{Constant, Kind, PRIMARY, Sort, Value, is_pure};
use ls_java_tables::words::WordId;
use ls_java_tree::expressions::Expression;
use ls_java_tree::names::Name;
use ls_java_tree::types::{ClassType, Type, TypeKind};

/// The class that a type names.
pub fn class_type(written: &Type) -> Option<&ClassType> {
    match &written.kind {
        TypeKind::Class(class) => Some(class),
        _ => None,
    }
}

// A new object, as it is written.
fn object(restater: &mut Restater, text: Text, kind: Kind) -> Value {
    value_of(restater, text, kind, PRIMARY, Sort::Reading)
}

// The objects that a new one is handed: the one around it, and that of the static members.
fn handed(restater: &mut Restater, at: usize, class: usize) -> Result<Text, Stop> {
    let mut list = Text::EMPTY;
    if is_handed_outer(restater, class) {
        if let Some(kind) = outer_kind(restater, class) {
            let outer = object_of(restater, kind, at)?;
            add_argument(restater, &mut list, at, outer.text)?;
        }
    }
    if is_handed_statics(restater, class) {
        let statics = object_of(restater, Kind::Statics(class), at)?;
        add_argument(restater, &mut list, at, statics.text)?;
    }
    Ok(list)
}

// `new` and the class, with these arguments.
fn new_text(restater: &mut Restater, at: usize, kind: Kind, list: Text) -> Result<Text, Stop> {
    let class = type_text(restater, kind, at)?;
    write(restater, at, "new # ( # )", &[class, list])
}

/// A new object of a class that has no constructor.
pub fn without_constructor(
    restater: &mut Restater,
    at: usize,
    class: usize,
    arguments: &[Value],
) -> Result<Value, Stop> {
    if !arguments.is_empty() {
        return refuse(restater, at, Why::NoConstructor);
    }
    let list = handed(restater, at, class)?;
    let text = new_text(restater, at, Kind::Class(class), list)?;
    Ok(object(restater, text, Kind::Class(class)))
}

/// The constructor that is meant (JLS 15.9.3), or none where the class has none.
pub fn chosen(
    restater: &mut Restater,
    at: usize,
    class: usize,
    arguments: &[Value],
) -> Result<Option<usize>, Stop> {
    if !has_constructor(restater, class) {
        return Ok(None);
    }
    let kinds = kinds_of(restater, arguments)?;
    match choose_constructor(restater, class, &kinds) {
        Some(number) => Ok(Some(number)),
        None => refuse(restater, at, Why::NoConstructor),
    }
}

/// The arguments of the `this(..)` that a constructor is, if its class has no other constructors with bodies.
pub fn delegate_of<'a>(
    restater: &Restater,
    number: usize,
    depth: Depth<'a>,
) -> Option<&'a [Expression]> {
    let constructor = restater.tables.constructors.get(number)?;
    if is_several(restater, constructor.class) {
        return None;
    }
    Some(kept_list(depth, constructor.delegate?))
}

// Whether the constructors of a class are methods.
fn is_several(restater: &Restater, class: usize) -> bool {
    match restater.tables.classes.get(class) {
        Some(class) => class.several_constructors,
        None => false,
    }
}

// The kinds of a constructor's parameters.
fn parameters(restater: &Restater, number: usize) -> Result<Vec<Kind>, Stop> {
    let mut kinds = Vec::new(restater.alloc);
    if let Some(constructor) = restater.tables.constructors.get(number) {
        for kind in &constructor.parameters {
            kinds.push(*kind)?;
        }
    }
    Ok(kinds)
}

// The arguments of a constructor's method go to locals if they read, since the object is made before.
fn kept(
    restater: &mut Restater,
    out: &mut Text,
    at: usize,
    values: &[Value],
    kinds: &[Kind],
) -> Result<Text, Stop> {
    let mut list = Text::EMPTY;
    for (place, value) in values.iter().enumerate() {
        let kind = match kinds.get(place) {
            Some(kind) => *kind,
            None => value.kind,
        };
        let mut value = as_kind(restater, at, *value, kind)?;
        if !is_pure(value) {
            value = keep_as(restater, out, at, value, kind)?;
        }
        add_argument(restater, &mut list, at, value.text)?;
    }
    Ok(list)
}

/// A new object by a constructor: where the class has several, an empty one, and then the constructor's method.
pub fn by_constructor(
    restater: &mut Restater,
    out: &mut Text,
    at: usize,
    class: usize,
    number: usize,
    arguments: &[Value],
) -> Result<Value, Stop> {
    let kind = Kind::Class(class);
    let kinds = parameters(restater, number)?;
    let mut list = handed(restater, at, class)?;
    if !is_several(restater, class) {
        fitted(restater, &mut list, at, arguments, &kinds)?;
        let text = new_text(restater, at, kind, list)?;
        return Ok(object(restater, text, kind));
    }
    let own = kept(restater, out, at, arguments, &kinds)?;
    let new = new_text(restater, at, kind, list)?;
    let make = make_word(restater, at, number)?;
    let text = write(restater, at, "# . # ( # )", &[new, make, own])?;
    Ok(object(restater, text, kind))
}

// The name of a constructor's method.
fn make_word(restater: &mut Restater, at: usize, number: usize) -> Result<Text, Stop> {
    let Some(constructor) = restater.tables.constructors.get(number) else {
        return refuse(restater, at, Why::NoConstructor);
    };
    let name = constructor.out;
    word(restater, name, at)
}

/// `this(..)` where the class has several constructors: a call of the other one's method.
pub fn this_call(
    restater: &mut Restater,
    out: &mut Text,
    at: usize,
    arguments: &[Value],
) -> Result<(), Stop> {
    let class = restater.place.class;
    if !is_several(restater, class) {
        return refuse(restater, at, Why::ThisHere);
    }
    let Some(number) = chosen(restater, at, class, arguments)? else {
        return refuse(restater, at, Why::NoConstructor);
    };
    let kinds = parameters(restater, number)?;
    let mut list = Text::EMPTY;
    fitted(restater, &mut list, at, arguments, &kinds)?;
    let make = make_word(restater, at, number)?;
    emit(restater, out, at, "# ( # ) ;", &[make, list])
}

// The name of a constructor's parameter.
fn parameter_name(restater: &Restater, number: usize, place: usize) -> Option<WordId> {
    let constructor = restater.tables.constructors.get(number)?;
    constructor.names.get(place).copied()
}

/// Where restating was, before a constructor's `this(..)` was restated in place of its call.
#[derive(Clone, Copy)]
pub struct Outside {
    pub place: Place,
    pub mark: usize,
}

/// The parameters of a constructor become locals, which have the arguments, so that its `this(..)` can be restated.
pub fn enter_delegate(
    restater: &mut Restater,
    out: &mut Text,
    at: usize,
    number: usize,
    arguments: &[Value],
) -> Result<Outside, Stop> {
    let outside = Outside {
        place: restater.place,
        mark: mark(restater),
    };
    let kinds = parameters(restater, number)?;
    for (place, value) in arguments.iter().enumerate() {
        if let (Some(name), Some(kind)) = (
            parameter_name(restater, number, place),
            kinds.get(place),
        ) {
            let value = as_kind(restater, at, *value, *kind)?;
            let kept = keep_as(restater, out, at, value, *kind)?;
            if let Sort::Local(local) = kept.sort {
                declare(
                    restater,
                    Local {
                        name,
                        out: local,
                        kind: *kind,
                    },
                )?;
            }
        }
    }
    if let Some(constructor) = restater.tables.constructors.get(number) {
        restater.place.class = constructor.class;
        restater.place.is_static = true;
    }
    Ok(outside)
}

/// Restating goes on where it was.
pub fn leave_delegate(restater: &mut Restater, outside: Outside) {
    restater.place = outside.place;
    leave(restater, outside.mark);
}

// Whether a class of the library has an argument that isn't written, or is `<>`.
fn is_raw(class: &ClassType) -> bool {
    is_generic(&class.name)
        && match &class.arguments {
            None => true,
            Some(arguments) => arguments.is_empty(),
        }
}

/// What is made: the type that is written, or where that is open, what is wanted (JLS 15.9.1, 15.9.3).
pub fn made_kind(
    restater: &mut Restater,
    written: &Type,
    wanted: Option<Kind>,
) -> Result<Kind, Stop> {
    if let Some(class) = class_type(written) {
        if is_raw(class) {
            return match wanted {
                Some(kind) => Ok(kind),
                None => refuse(restater, written.span.first, Why::DiamondHere),
            };
        }
    }
    kind_here(restater, written)
}

// The value that an atomic begins with: the one that is given, or 0, false, or null.
fn first_value(
    restater: &mut Restater,
    at: usize,
    arguments: &[Value],
    kind: Kind,
) -> Result<Value, Stop> {
    match (arguments.first(), kind) {
        (Some(value), _) => as_kind(restater, at, *value, kind),
        (None, Kind::Int) => literal(restater, Constant::Int(0), at),
        (None, Kind::Boolean) => literal(restater, Constant::Boolean(false), at),
        (None, _) => {
            let text = phrase(restater, "null", at)?;
            Ok(value_of(restater, text, Kind::Null, PRIMARY, Sort::Fixed))
        }
    }
}

// A new AtomicInteger or AtomicBoolean.
fn new_atomic(
    restater: &mut Restater,
    at: usize,
    kind: Kind,
    arguments: &[Value],
) -> Result<Value, Stop> {
    let (helper, what, value) = if kind == Kind::AtomicInteger {
        (Helper::AtomicInteger, What::AtomicInteger, Kind::Int)
    } else {
        (Helper::AtomicBoolean, What::AtomicBoolean, Kind::Boolean)
    };
    use_operation(restater, helper, Operation::Get)?;
    note(restater, at, what)?;
    let first = first_value(restater, at, arguments, value)?;
    let text = new_text(restater, at, kind, first.text)?;
    Ok(object(restater, text, kind))
}

// A new AtomicReference: its mark is false.
fn new_reference(
    restater: &mut Restater,
    at: usize,
    kind: Kind,
    arguments: &[Value],
) -> Result<Value, Stop> {
    let first = first_value(restater, at, arguments, kind)?;
    let class = type_text(restater, kind, at)?;
    let text = write(restater, at, "new # ( # , false )", &[class, first.text])?;
    Ok(object(restater, text, kind))
}

/// A new object of the library.
pub fn new_library(
    restater: &mut Restater,
    at: usize,
    name: &Name,
    kind: Kind,
    arguments: &[Value],
) -> Result<Value, Stop> {
    let wanted = name_of(restater, name);
    match (kind, arguments) {
        (Kind::Lock, _) => {
            if !arguments.is_empty() {
                note(restater, at, What::FairLock)?;
            }
            let text = phrase(restater, "new ReentrantLock ( )", at)?;
            Ok(object(restater, text, kind))
        }
        (Kind::AtomicInteger | Kind::AtomicBoolean, _) => {
            new_atomic(restater, at, kind, arguments)
        }
        (Kind::Reference(_), _) => new_reference(restater, at, kind, arguments),
        (Kind::Markable(_), [_, _]) | (Kind::Semaphore | Kind::Latch, [_]) => {
            let list = listed(restater, at, arguments)?;
            let text = new_text(restater, at, kind, list)?;
            Ok(object(restater, text, kind))
        }
        (Kind::Semaphore, [permits, fair]) if is_pure(*fair) => {
            note(restater, at, What::FairSemaphore)?;
            let text = new_text(restater, at, kind, permits.text)?;
            Ok(object(restater, text, kind))
        }
        (Kind::ReadWrite | Kind::Key, _) => {
            let text = new_text(restater, at, kind, Text::EMPTY)?;
            Ok(object(restater, text, kind))
        }
        (Kind::IntegerArray | Kind::ReferenceArray(_), [length]) => {
            made(restater, at, kind, *length)
        }
        (Kind::Random, _) => Ok(Value {
            kind,
            ..literal(restater, Constant::Int(0), at)?
        }),
        (Kind::Item, [value]) => Ok(*value),
        _ => refuse_word(restater, at, wanted, Why::NoConstructor),
    }
}

/// A new ThreadLocal: an array by the thread's number, 0 to 4. `first` is what each thread finds there.
pub fn new_thread_local(
    restater: &mut Restater,
    out: &mut Text,
    at: usize,
    kind: Kind,
) -> Result<Value, Stop> {
    if !matches!(&kind, Kind::ThreadLocal(_)) {
        return refuse(restater, at, Why::LocalThreadLocal);
    }
    note(restater, at, What::ThreadLocal)?;
    let count = literal(restater, Constant::Int(5), at)?;
    let array = made(restater, at, kind, count)?;
    keep(restater, out, at, array)
}

/// The head of a loop over the numbers of threads, and the number.
pub fn each_thread(restater: &mut Restater, out: &mut Text, at: usize) -> Result<Value, Stop> {
    let limit = phrase(restater, "5", at)?;
    counting(restater, out, at, limit)
}
