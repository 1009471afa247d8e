// Classes (JLS 8.1): each stands beside the others.

use crate::constructors::{Head, all_constructors, plain_constructor, written_class};
use crate::fields::all_fields;
use crate::methods::all_methods;
use crate::places::{
    Trees, handed, keep_unless_refused, next_sign, say_handed_fields, say_modifiers,
};
use ls_java_expressions::writing::emit;
use ls_java_tables::finding::{class_at, is_split, outer_of};
use ls_java_tables::needs::{Helper, helper_class};
use ls_java_tables::remarks::{Stop, What};
use ls_java_tables::restater::{Restater, is_handed_outer, is_waited_on, note_word};
use ls_java_tables::ropes::Text;
use ls_java_tables::spelling::{append, say, say_word, word};
use ls_java_tables::values::Kind;
use ls_java_tree::declarations::{File, Member, TypeDeclaration};
use ls_java_tree::expressions::Expression;
use ls_lexer::sign::Sign;

// The head of a class: modifiers, `class`, its name and a brace.
fn say_class(
    restater: &mut Restater,
    out: &mut Text,
    kind: Kind,
    tree: &TypeDeclaration,
    inner: bool,
) -> Result<(), Stop> {
    let token = tree.head.name.token;
    if !inner {
        say_modifiers(restater, out, &tree.head.modifiers, "private")?;
    }
    say(restater, out, "class", token.saturating_sub(1))?;
    let name = written_class(restater, kind);
    say_word(restater, out, name, token)?;
    let brace = next_sign(restater, token, Sign::OpenBrace);
    say(restater, out, "{", brace)?;
    if is_waited_on(restater, kind) {
        let monitor = word(restater, restater.added.monitor, brace)?;
        let waiters = word(restater, restater.added.waiters, brace)?;
        let condition = helper_class(restater, Helper::Condition)?;
        let condition = word(restater, condition, brace)?;
        emit(
            restater,
            out,
            brace,
            "Lock # = new ReentrantLock ( ) ; # # = new # ( ) ;",
            &[monitor, condition, waiters, condition],
        )?;
    }
    Ok(())
}

// A class that isn't split, or the class of the objects of one that is.
fn objects<'a>(
    restater: &mut Restater,
    out: &mut Text,
    trees: Trees<'a>,
    class: usize,
    tree: &'a TypeDeclaration,
) -> Result<(), Stop> {
    let kind = Kind::Class(class);
    let token = tree.head.name.token;
    let inner = outer_of(restater, class).is_some();
    let handed = handed(restater, class)?;
    if is_handed_outer(restater, class) {
        let name = written_class(restater, kind);
        note_word(restater, token, name, What::HandsOuter)?;
    }
    say_class(restater, out, kind, tree, inner)?;
    say_handed_fields(restater, out, &handed, token)?;
    let fields = all_fields(restater, trees, tree, class, false, !handed.is_empty())?;
    append(restater, out, fields.declared)?;
    let head = Head {
        class,
        name: written_class(restater, kind),
        token,
        handed: &handed,
        fields,
    };
    all_constructors(restater, out, trees, head, tree)?;
    all_methods(restater, out, trees, tree, false)?;
    say(restater, out, "}", tree.span.last)
}

// The class of the static members of a class that is split.
fn statics<'a>(
    restater: &mut Restater,
    out: &mut Text,
    trees: Trees<'a>,
    class: usize,
    tree: &'a TypeDeclaration,
) -> Result<(), Stop> {
    let kind = Kind::Statics(class);
    let inner = outer_of(restater, class).is_some();
    say_class(restater, out, kind, tree, inner)?;
    let fields = all_fields(restater, trees, tree, class, true, false)?;
    append(restater, out, fields.declared)?;
    let head = Head {
        class,
        name: written_class(restater, kind),
        token: tree.head.name.token,
        handed: &[],
        fields,
    };
    plain_constructor(restater, out, head)?;
    all_methods(restater, out, trees, tree, true)?;
    say(restater, out, "}", tree.span.last)
}

// The class of a number.
fn class<'a>(
    restater: &mut Restater,
    out: &mut Text,
    trees: Trees<'a>,
    number: usize,
    tree: &'a TypeDeclaration,
) -> Result<(), Stop> {
    if is_split(restater, number) {
        statics(restater, out, trees, number, tree)?;
    }
    objects(restater, out, trees, number, tree)
}

// A class, if it isn't left out, and those that stand in it.
fn classes<'a>(
    restater: &mut Restater,
    out: &mut Text,
    trees: Trees<'a>,
    tree: &'a TypeDeclaration,
) -> Result<(), Stop> {
    let Some(number) = class_at(restater, tree.head.name.token) else {
        return Ok(());
    };
    let before = *out;
    let done = class(restater, out, trees, number, tree);
    keep_unless_refused(done, out, before)?;
    for member in &tree.members {
        if let Member::Type(inner) = member {
            classes(restater, out, trees, inner)?;
        }
    }
    Ok(())
}

/// All classes of the file, in its order.
pub fn all_classes<'a>(
    restater: &mut Restater,
    file: &'a File,
    lists: &'a [&'a [Expression]],
) -> Result<Text, Stop> {
    let trees = Trees {
        bodies: &file.bodies,
        lists,
    };
    let mut out = Text::EMPTY;
    for tree in &file.types {
        classes(restater, &mut out, trees, tree)?;
    }
    Ok(out)
}
