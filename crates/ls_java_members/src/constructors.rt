// Constructors (JLS 8.8): one, or an empty one and a method for each of several.

use crate::fields::Fields;
use crate::places::{
    Trees, enter_member, keep_unless_refused, say_handed_parameters, say_handed_stores,
    say_modifiers, say_parameters,
};
use ls_java_statements::bodies::body;
use ls_java_tables::finding::constructor_at;
use ls_java_tables::remarks::Stop;
use ls_java_tables::restater::Restater;
use ls_java_tables::ropes::Text;
use ls_java_tables::spelling::{append, say, say_word};
use ls_java_tables::types::class_word;
use ls_java_tables::values::Kind;
use ls_java_tables::words::{WordId, Words};
use ls_java_tree::declarations::{Constructor as ConstructorTree, Member, TypeDeclaration};

/// What all constructors of a class begin with: the class's name, the objects that are handed, and what the fields'
/// initialisers need.
#[derive(Clone, Copy)]
pub(crate) struct Head<'h> {
    pub class: usize,
    pub name: WordId,
    pub token: usize,
    pub handed: &'h [(WordId, Kind)],
    pub fields: Fields,
}

/// A constructor without parameters of its own, if the fields need one.
pub(crate) fn plain_constructor(
    restater: &mut Restater,
    out: &mut Text,
    head: Head,
) -> Result<(), Stop> {
    if head.handed.is_empty() && head.fields.late == Text::EMPTY {
        return Ok(());
    }
    say_word(restater, out, head.name, head.token)?;
    say(restater, out, "(", head.token)?;
    say_handed_parameters(restater, out, head.handed, head.token)?;
    say(restater, out, ") {", head.token)?;
    say_handed_stores(restater, out, head.handed, head.token)?;
    append(restater, out, head.fields.late)?;
    say(restater, out, "}", head.token)
}

// The kinds of the parameters of a constructor, copied.
fn kinds_of(restater: &Restater, number: usize) -> Result<Vec<Kind>, Stop> {
    match restater.tables.constructors.get(number) {
        Some(constructor) => Ok(Vec::from_slice(restater.alloc, &constructor.parameters)?),
        None => Ok(Vec::new(restater.alloc)),
    }
}

// The only constructor of a class.
fn only_constructor<'a>(
    restater: &mut Restater,
    out: &mut Text,
    trees: Trees<'a>,
    head: Head,
    number: usize,
    tree: &'a ConstructorTree,
) -> Result<(), Stop> {
    let kinds = kinds_of(restater, number)?;
    say_modifiers(restater, out, &tree.modifiers, "")?;
    say_word(restater, out, head.name, tree.name.token)?;
    say(restater, out, "(", tree.name.token.saturating_add(1))?;
    say_handed_parameters(restater, out, head.handed, tree.name.token)?;
    let behind = !head.handed.is_empty();
    say_parameters(restater, out, &tree.parameters, &kinds, behind)?;
    say(restater, out, ")", tree.name.token)?;
    say(restater, out, "{", tree.body.span.first)?;
    say_handed_stores(restater, out, head.handed, tree.body.span.first)?;
    append(restater, out, head.fields.late)?;
    body(restater, out, &tree.body, trees.lists)?;
    say(restater, out, "}", tree.body.span.last)
}

// The method of one of several constructors.
fn making_method<'a>(
    restater: &mut Restater,
    out: &mut Text,
    trees: Trees<'a>,
    head: Head,
    number: usize,
    tree: &'a ConstructorTree,
) -> Result<(), Stop> {
    let kinds = kinds_of(restater, number)?;
    let name = match restater.tables.constructors.get(number) {
        Some(constructor) => constructor.out,
        None => Words::NONE,
    };
    say_word(restater, out, head.name, tree.span.first)?;
    say_word(restater, out, name, tree.name.token)?;
    say(restater, out, "(", tree.name.token.saturating_add(1))?;
    say_parameters(restater, out, &tree.parameters, &kinds, false)?;
    say(restater, out, ")", tree.name.token)?;
    say(restater, out, "{", tree.body.span.first)?;
    body(restater, out, &tree.body, trees.lists)?;
    say(restater, out, "return this ; }", tree.body.span.last)
}

// One constructor of a class, which may have several.
fn constructor<'a>(
    restater: &mut Restater,
    out: &mut Text,
    trees: Trees<'a>,
    head: Head,
    number: usize,
    tree: &'a ConstructorTree,
) -> Result<(), Stop> {
    enter_member(restater, head.class, false)?;
    restater.place.constructor = Some(number);
    let several = has_several(restater, head.class);
    if several {
        restater.place.result = Kind::Class(head.class);
        making_method(restater, out, trees, head, number, tree)
    } else {
        only_constructor(restater, out, trees, head, number, tree)
    }
}

// Whether a class has several constructors.
fn has_several(restater: &Restater, class: usize) -> bool {
    match restater.tables.classes.get(class) {
        Some(known) => known.several_constructors,
        None => false,
    }
}

// The number of a constructor that is written, or none where it was refused, or is left out.
fn written_number(restater: &Restater, tree: &ConstructorTree, several: bool) -> Option<usize> {
    let number = constructor_at(restater, tree.name.token)?;
    let known = restater.tables.constructors.get(number)?;
    if !several && known.delegate.is_some() {
        return None;
    }
    Some(number)
}

/// The constructors of a class. One that only calls another is left out where there is only one other.
pub(crate) fn all_constructors<'a>(
    restater: &mut Restater,
    out: &mut Text,
    trees: Trees<'a>,
    head: Head,
    class: &'a TypeDeclaration,
) -> Result<(), Stop> {
    let several = has_several(restater, head.class);
    let mut written = false;
    for member in &class.members {
        let Member::Constructor(tree) = member else {
            continue;
        };
        let Some(number) = written_number(restater, tree, several) else {
            continue;
        };
        if several && !written {
            plain_constructor(restater, out, head)?;
        }
        written = true;
        let before = *out;
        let done = constructor(restater, out, trees, head, number, tree);
        keep_unless_refused(done, out, before)?;
    }
    if !written {
        plain_constructor(restater, out, head)?;
    }
    Ok(())
}

/// The name of a class of a kind.
pub(crate) fn written_class(restater: &Restater, kind: Kind) -> WordId {
    match class_word(restater, kind) {
        Some(name) => name,
        None => Words::NONE,
    }
}
