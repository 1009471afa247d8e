// The classes, interfaces and enums of a file (JLS 8, 9).

use crate::remarks::{Stop, What, Why};
use crate::restater::{Restater, fresh, is_named, name_of, note, note_word, refuse_word};
use crate::tables::{Class, Enumeration, Gone, Interface, Variable};
use crate::values::Kind;
use crate::words::WordId;
use ls_java_tree::declarations::{Head, Member, Sort, TypeDeclaration};
use ls_java_tree::names::{Modifier, ModifierKind, Name};
use ls_java_tree::types::{Type, TypeKind};

/// Which of the modifiers that matter stand before a declaration.
#[derive(Clone, Copy)]
pub struct Flags {
    pub is_static: bool,
    pub is_final: bool,
    pub is_synchronized: bool,
    pub is_abstract: bool,
}

/// The modifiers of a declaration that matter.
pub fn flags_of(modifiers: &[Modifier]) -> Flags {
    let mut found = Flags {
        is_static: false,
        is_final: false,
        is_synchronized: false,
        is_abstract: false,
    };
    for modifier in modifiers {
        match &modifier.kind {
            ModifierKind::Static => found.is_static = true,
            ModifierKind::Final => found.is_final = true,
            ModifierKind::Synchronized => found.is_synchronized = true,
            ModifierKind::Abstract => found.is_abstract = true,
            _ => {}
        }
    }
    found
}

/// The name of a type's class.
pub fn type_name(written: &Type) -> Option<&Name> {
    match &written.kind {
        TypeKind::Class(class) => Some(&class.name),
        _ => None,
    }
}

// Whether a class that extends this one is an exception.
fn is_throwable(name: &Name) -> bool {
    let text = name.text.as_str();
    text.ends_with("Exception") || text.ends_with("Error") || text.ends_with("Throwable")
}

// A name of the library that a class can't have.
fn is_reserved(name: &Name) -> bool {
    is_named(name, "Lock")
        || is_named(name, "ReentrantLock")
        || is_named(name, "AtomicMarkableReference")
        || is_named(name, "Integer")
}

// A class that is left out: an exception, or ThreadID.
fn left_out(head: &Head) -> Option<Gone> {
    if is_named(&head.name, "ThreadID") {
        return Some(Gone::ThreadNumber);
    }
    let name = type_name(head.extends.first()?)?;
    if is_throwable(name) {
        return Some(Gone::Exception);
    }
    None
}

// Why a class can't be restated.
fn why_refused(head: &Head) -> Option<Why> {
    if flags_of(&head.modifiers).is_abstract {
        return Some(Why::Abstract);
    }
    let name = type_name(head.extends.first()?)?;
    if is_named(name, "Object") || is_named(name, "Thread") {
        return None;
    }
    Some(Why::Extends)
}

// Whether a class before gets a name.
fn has_out(restater: &Restater, name: WordId) -> bool {
    for class in &restater.tables.classes {
        if class.out == name {
            return true;
        }
    }
    false
}

// The name that a class gets: its own, if no class before has it, and the library neither.
fn written_name(restater: &mut Restater, name: &Name) -> Result<WordId, Stop> {
    let word = name_of(restater, name);
    if !is_reserved(name) && !has_out(restater, word) {
        return Ok(word);
    }
    let out = fresh(restater, name.text.as_str())?;
    note_word(restater, name.token, out, What::ClassRenamed)?;
    Ok(out)
}

// The type parameters of a class. At first they stand for numbers.
fn variables(restater: &Restater, head: &Head) -> Result<Vec<Variable>, Stop> {
    let mut all = Vec::new(restater.alloc);
    for parameter in &head.parameters {
        all.push(Variable {
            name: name_of(restater, &parameter.name),
            kind: Kind::Item,
        })?;
    }
    Ok(all)
}

// The names of the types that a class implements.
fn implemented(restater: &Restater, head: &Head) -> Result<Vec<WordId>, Stop> {
    let mut all = Vec::new(restater.alloc);
    for one in &head.implements {
        if let Some(name) = type_name(one) {
            all.push(name_of(restater, name))?;
        }
    }
    Ok(all)
}

// A class goes into the table. The answer is its number.
fn add_class(
    restater: &mut Restater,
    tree: &TypeDeclaration,
    outer: Option<usize>,
) -> Result<usize, Stop> {
    let out = written_name(restater, &tree.head.name)?;
    let name = name_of(restater, &tree.head.name);
    let variables = variables(restater, &tree.head)?;
    let implements = implemented(restater, &tree.head)?;
    let number = restater.tables.classes.len();
    restater.tables.classes.push(Class {
        token: tree.head.name.token,
        span: tree.span,
        name,
        out,
        outer,
        is_static: outer.is_none() || flags_of(&tree.head.modifiers).is_static,
        is_split: false,
        several_constructors: false,
        variables,
        implements,
    })?;
    if outer.is_some() {
        note_word(restater, tree.head.name.token, name, What::Beside)?;
    }
    Ok(number)
}

// A class goes into the table, unless it is left out or refused. The answer is its number.
fn enter_class(
    restater: &mut Restater,
    tree: &TypeDeclaration,
    outer: Option<usize>,
) -> Result<Option<usize>, Stop> {
    let name = name_of(restater, &tree.head.name);
    let token = tree.head.name.token;
    if let Some(why) = left_out(&tree.head) {
        restater.tables.gone.push((name, why))?;
        note_word(restater, token, name, What::ClassLeftOut)?;
        return Ok(None);
    }
    if let Some(why) = why_refused(&tree.head) {
        restater.tables.broken.push(name)?;
        unless_refused(refuse_word(restater, token, name, why))?;
        return Ok(None);
    }
    if let Some(above) = tree.head.extends.first() {
        note(restater, above.span.first, What::LeftOut)?;
    }
    Ok(Some(add_class(restater, tree, outer)?))
}

// An enum goes into the table.
fn add_enum(restater: &mut Restater, tree: &TypeDeclaration) -> Result<(), Stop> {
    let name = name_of(restater, &tree.head.name);
    let mut constants = Vec::new(restater.alloc);
    for constant in &tree.constants {
        constants.push(name_of(restater, constant))?;
    }
    restater.tables.enums.push(Enumeration { name, constants })?;
    note_word(restater, tree.head.name.token, name, What::Enum)
}

// An interface goes into the table.
fn add_interface(restater: &mut Restater, tree: &TypeDeclaration) -> Result<(), Stop> {
    let name = name_of(restater, &tree.head.name);
    restater.tables.interfaces.push(Interface {
        token: tree.head.name.token,
        name,
        class: None,
    })?;
    Ok(())
}

// A class, an interface or an enum. The answer is the number of a class.
fn enter(
    restater: &mut Restater,
    tree: &TypeDeclaration,
    outer: Option<usize>,
) -> Result<Option<usize>, Stop> {
    match tree.head.sort {
        Sort::Class => return enter_class(restater, tree, outer),
        Sort::Enum => add_enum(restater, tree)?,
        Sort::Interface => add_interface(restater, tree)?,
    }
    Ok(None)
}

/// A class, an interface or an enum, and the classes that stand in a class. After a refusal the next one is read. The
/// trees of the classes go to the end of a list, by their numbers.
pub fn collect<'a>(
    restater: &mut Restater,
    classes: &mut Vec<&'a TypeDeclaration>,
    tree: &'a TypeDeclaration,
    outer: Option<usize>,
) -> Result<(), Stop> {
    let number = enter(restater, tree, outer)?;
    if number.is_none() {
        return Ok(());
    }
    classes.push(tree)?;
    for member in &tree.members {
        if let Member::Type(inner) = member {
            collect(restater, classes, inner, number)?;
        }
    }
    Ok(())
}

/// A refusal was noted: what comes next is restated. Another reason to stop is handed on.
pub fn unless_refused(done: Result<(), Stop>) -> Result<(), Stop> {
    match done {
        Err(Stop::Refused) => Ok(()),
        other => other,
    }
}

// Whether a class implements an interface of a name.
fn implements(restater: &Restater, class: usize, interface: WordId) -> bool {
    match restater.tables.classes.get(class) {
        Some(class) => class.implements.contains(&interface),
        None => false,
    }
}

// The one class that implements an interface.
fn only_class(restater: &Restater, interface: WordId) -> Option<usize> {
    let mut only = None;
    for class in 0..restater.tables.classes.len() {
        if implements(restater, class, interface) {
            if only.is_some() {
                return None;
            }
            only = Some(class);
        }
    }
    only
}

/// Which class stands for each interface.
pub fn find_interfaces(restater: &mut Restater) -> Result<(), Stop> {
    for number in 0..restater.tables.interfaces.len() {
        let Some(interface) = restater.tables.interfaces.get(number).copied() else {
            break;
        };
        let class = only_class(restater, interface.name);
        if let Some(known) = restater.tables.interfaces.get_mut(number) {
            known.class = class;
        }
        let what = match class {
            Some(_) => What::InterfaceStandsFor,
            None => What::InterfaceLeftOut,
        };
        note(restater, interface.token, what)?;
    }
    Ok(())
}
