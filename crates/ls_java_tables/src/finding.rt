// What names mean (JLS 6.3, 6.4, 15.12.1).

use crate::remarks::{Stop, Why};
use crate::restater::{Restater, needs_outer, needs_statics, refuse, refuse_word};
use crate::ropes::Text;
use crate::spelling::{append, fixed, say, say_word, value_of, word};
use crate::tables::Gone;
use crate::values::{Constant, Kind, PRIMARY, Sort, Value};
use crate::words::WordId;

/// The field of a name that a class declares.
pub fn field_in(restater: &Restater, class: usize, name: WordId) -> Option<usize> {
    for (number, field) in restater.tables.fields.iter().enumerate() {
        if field.class == class && field.name == name {
            return Some(number);
        }
    }
    None
}

/// The class whose name is at a token.
pub fn class_at(restater: &Restater, token: usize) -> Option<usize> {
    for (number, class) in restater.tables.classes.iter().enumerate() {
        if class.token == token {
            return Some(number);
        }
    }
    None
}

/// The method whose name is at a token.
pub fn method_at(restater: &Restater, token: usize) -> Option<usize> {
    for (number, method) in restater.tables.methods.iter().enumerate() {
        if method.token == token {
            return Some(number);
        }
    }
    None
}

/// The constructor whose name is at a token.
pub fn constructor_at(restater: &Restater, token: usize) -> Option<usize> {
    for (number, constructor) in restater.tables.constructors.iter().enumerate() {
        if constructor.token == token {
            return Some(number);
        }
    }
    None
}

/// Whether a class declares a method of a name.
pub fn has_method(restater: &Restater, class: usize, name: WordId) -> bool {
    for method in &restater.tables.methods {
        if method.class == class && method.name == name {
            return true;
        }
    }
    false
}

/// The class around a class.
pub fn outer_of(restater: &Restater, class: usize) -> Option<usize> {
    restater.tables.classes.get(class)?.outer
}

/// The field that a name alone means: of the class, else of the innermost class around it that has the name.
pub fn field_of(restater: &Restater, name: WordId) -> Option<usize> {
    let mut class = restater.place.class;
    for _ in 0..=restater.tables.classes.len() {
        if let Some(field) = field_in(restater, class, name) {
            return Some(field);
        }
        class = outer_of(restater, class)?;
    }
    None
}

/// The class whose method a name alone means: the class, else the innermost class around it that has the name.
pub fn class_of_method(restater: &Restater, name: WordId) -> Option<usize> {
    let mut class = restater.place.class;
    for _ in 0..=restater.tables.classes.len() {
        if has_method(restater, class, name) {
            return Some(class);
        }
        class = outer_of(restater, class)?;
    }
    None
}

// The class of a name that is declared in a class, or at the top.
fn class_in(restater: &Restater, outer: Option<usize>, name: WordId) -> Option<usize> {
    for (number, class) in restater.tables.classes.iter().enumerate() {
        if class.outer == outer && class.name == name {
            return Some(number);
        }
    }
    None
}

// The class of a name, or the class that stands for the interface of the name, somewhere in the file.
fn class_anywhere(restater: &Restater, name: WordId) -> Option<usize> {
    for (number, class) in restater.tables.classes.iter().enumerate() {
        if class.name == name {
            return Some(number);
        }
    }
    for one in &restater.tables.interfaces {
        if one.name == name {
            return one.class;
        }
    }
    None
}

/// The class that a name means in a class: the class itself, one that it declares, or one around it; else one at the
/// top; else one that stands somewhere.
pub fn class_named(restater: &Restater, from: usize, name: WordId) -> Option<usize> {
    let mut around = Some(from);
    for _ in 0..=restater.tables.classes.len() {
        if let Some(class) = class_in(restater, around, name) {
            return Some(class);
        }
        match around {
            Some(class) => around = outer_of(restater, class),
            None => break,
        }
    }
    class_anywhere(restater, name)
}

/// The class that a name means where restating is.
pub fn class_here(restater: &Restater, name: WordId) -> Option<usize> {
    class_named(restater, restater.place.class, name)
}

/// The interface of a name.
pub fn is_interface(restater: &Restater, name: WordId) -> bool {
    for one in &restater.tables.interfaces {
        if one.name == name {
            return true;
        }
    }
    false
}

/// The enum of a name.
pub fn enum_named(restater: &Restater, name: WordId) -> Option<usize> {
    for (number, one) in restater.tables.enums.iter().enumerate() {
        if one.name == name {
            return Some(number);
        }
    }
    None
}

/// The value of a constant of an enum.
pub fn enum_constant(restater: &Restater, number: usize, name: WordId) -> Option<Constant> {
    let one = restater.tables.enums.get(number)?;
    for (place, constant) in one.constants.iter().enumerate() {
        if *constant == name {
            let value = i32::try_from(place).ok()?.checked_add(1)?;
            return Some(Constant::Int(value));
        }
    }
    None
}

/// Whether the file declares a class, an interface or an enum of a name.
pub fn declares(restater: &Restater, name: WordId) -> bool {
    class_anywhere(restater, name).is_some()
        || is_interface(restater, name)
        || enum_named(restater, name).is_some()
}

/// Why a class of a name is left out, if it is.
pub fn gone(restater: &Restater, name: WordId) -> Option<Gone> {
    for (one, why) in &restater.tables.gone {
        if *one == name {
            return Some(*why);
        }
    }
    None
}

/// What `outer` is in a class: the object of the class around it, or that of its static members.
pub fn outer_kind(restater: &Restater, class: usize) -> Option<Kind> {
    let inner = restater.tables.classes.get(class)?;
    let outer = inner.outer?;
    let around = restater.tables.classes.get(outer)?;
    if around.is_split && inner.is_static {
        Some(Kind::Statics(outer))
    } else {
        Some(Kind::Class(outer))
    }
}

/// Whether a class is split.
pub fn is_split(restater: &Restater, class: usize) -> bool {
    match restater.tables.classes.get(class) {
        Some(class) => class.is_split,
        None => false,
    }
}

/// What `this` is where restating is.
pub fn this_kind(restater: &Restater) -> Kind {
    let class = restater.place.class;
    if restater.place.is_static && is_split(restater, class) {
        Kind::Statics(class)
    } else {
        Kind::Class(class)
    }
}

/// The object that a member belongs to: that of its class, or of the class's static members.
pub fn owner_kind(restater: &Restater, class: usize, is_static: bool) -> Kind {
    if is_static && is_split(restater, class) {
        Kind::Statics(class)
    } else {
        Kind::Class(class)
    }
}

// One step outwards on the way to an object: `outer`, or `statics`.
fn step(
    restater: &mut Restater,
    at: Kind,
    wanted: Kind,
    token: usize,
) -> Result<(WordId, Kind), Stop> {
    let Kind::Class(class) = at else {
        return refuse(restater, token, Why::NoOuter);
    };
    if wanted == Kind::Statics(class) {
        needs_statics(restater, class)?;
        return Ok((restater.added.statics, wanted));
    }
    match outer_kind(restater, class) {
        Some(kind) => {
            needs_outer(restater, class)?;
            Ok((restater.added.outer, kind))
        }
        None => refuse(restater, token, Why::NoOuter),
    }
}

/// The object of a kind, as it is reached from where restating is: `this`, or along `outer` and `statics`.
pub fn object_of(restater: &mut Restater, wanted: Kind, token: usize) -> Result<Value, Stop> {
    let mut at = this_kind(restater);
    if at == wanted {
        return fixed(restater, "this", wanted, token);
    }
    let mut text = Text::EMPTY;
    for _ in 0..=restater.tables.classes.len() {
        let (name, kind) = step(restater, at, wanted, token)?;
        if text != Text::EMPTY {
            say(restater, &mut text, ".", token)?;
        }
        say_word(restater, &mut text, name, token)?;
        at = kind;
        if at == wanted {
            return Ok(value_of(restater, text, wanted, PRIMARY, Sort::Reading));
        }
    }
    refuse(restater, token, Why::NoOuter)
}

/// What stands before a member's name: nothing if its object is `this`, else its object and a dot.
pub fn member_path(restater: &mut Restater, owner: Kind, token: usize) -> Result<Text, Stop> {
    if this_kind(restater) == owner {
        return Ok(Text::EMPTY);
    }
    let object = object_of(restater, owner, token)?;
    let mut text = object.text;
    say(restater, &mut text, ".", token)?;
    Ok(text)
}

/// The member of an object: its text, a dot, and a name.
pub fn member_text(
    restater: &mut Restater,
    object: Text,
    name: WordId,
    token: usize,
) -> Result<Text, Stop> {
    let mut text = object;
    say(restater, &mut text, ".", token)?;
    let name = word(restater, name, token)?;
    append(restater, &mut text, name)?;
    Ok(text)
}

/// A name that means nothing is refused. If its declaration was refused, nothing is said again.
pub fn unknown<T>(
    restater: &mut Restater,
    token: usize,
    name: WordId,
    why: Why,
) -> Result<T, Stop> {
    if restater.tables.broken.contains(&name) {
        return Err(Stop::Refused);
    }
    refuse_word(restater, token, name, why)
}
