// Methods (JLS 8.4).

use crate::main_method::main_method;
use crate::places::{
    Trees, enter_member, keep_unless_refused, say_declared, say_modifiers, say_parameters,
};
use ls_java_expressions::writing::emit;
use ls_java_statements::bodies::body;
use ls_java_tables::finding::{is_split, method_at, owner_kind};
use ls_java_tables::remarks::{Stop, What, Why};
use ls_java_tables::restater::{Local, Restater, declare, is_waited_on, note_word, refuse_word};
use ls_java_tables::ropes::Text;
use ls_java_tables::spelling::{append, say, say_word, word};
use ls_java_tables::types::type_text;
use ls_java_tables::values::Kind;
use ls_java_tables::words::WordId;
use ls_java_tree::declarations::{Member, Method as MethodTree, TypeDeclaration};
use ls_java_tree::statements::Block;

// What is known of a method, copied from the table.
#[derive(Drop)]
struct Signature {
    class: usize,
    out: WordId,
    is_synchronized: bool,
    waits: bool,
    parameters: Vec<Kind>,
    result: Kind,
    me: Option<WordId>,
}

// The annotation of a method whose first parameter is the thread's number.
fn say_annotation(restater: &mut Restater, out: &mut Text, tree: &MethodTree) -> Result<(), Stop> {
    let token = match tree.modifiers.first() {
        Some(modifier) => modifier.span.first,
        None => tree.result.span.first,
    };
    say(restater, out, "@ ThreadNumber", token)
}

// The parameter for the thread's number.
fn say_number(
    restater: &mut Restater,
    out: &mut Text,
    tree: &MethodTree,
    me: WordId,
) -> Result<(), Stop> {
    let token = tree.name.token;
    say_declared(restater, out, Kind::Int, me, token)?;
    note_word(restater, token, me, What::NumberParameter)?;
    declare(
        restater,
        Local {
            name: me,
            out: me,
            kind: Kind::Int,
        },
    )
}

// The head of a method: modifiers, what it gives, its name and its parameters.
fn say_head(
    restater: &mut Restater,
    out: &mut Text,
    tree: &MethodTree,
    signature: &Signature,
) -> Result<(), Stop> {
    let left_out = if signature.waits {
        "synchronized"
    } else {
        "volatile"
    };
    if signature.me.is_some() {
        say_annotation(restater, out, tree)?;
    }
    say_modifiers(restater, out, &tree.modifiers, left_out)?;
    let result = type_text(restater, signature.result, tree.result.span.first)?;
    append(restater, out, result)?;
    say_word(restater, out, signature.out, tree.name.token)?;
    say(restater, out, "(", tree.name.token.saturating_add(1))?;
    if let Some(me) = signature.me {
        say_number(restater, out, tree, me)?;
    }
    let behind = signature.me.is_some();
    say_parameters(
        restater,
        out,
        &tree.parameters,
        &signature.parameters,
        behind,
    )?;
    say(restater, out, ")", tree.name.token)
}

// The body of a method. If `wait` is called on its object and the method is synchronized, the object's lock is held in
// it.
fn say_body<'a>(
    restater: &mut Restater,
    out: &mut Text,
    trees: Trees<'a>,
    tree: &'a Block,
    waits: bool,
) -> Result<(), Stop> {
    let first = tree.span.first;
    let last = tree.span.last;
    let monitor = word(restater, restater.added.monitor, first)?;
    if waits {
        emit(restater, out, first, "{ # . lock ( ) ; try", &[monitor])?;
    }
    say(restater, out, "{", first)?;
    body(restater, out, tree, trees.lists)?;
    say(restater, out, "}", last)?;
    if waits {
        emit(
            restater,
            out,
            last,
            "finally { # . unlock ( ) ; } }",
            &[monitor],
        )?;
    }
    Ok(())
}

// A method that isn't `main`.
fn plain_method<'a>(
    restater: &mut Restater,
    out: &mut Text,
    trees: Trees<'a>,
    tree: &'a MethodTree,
    signature: &Signature,
) -> Result<(), Stop> {
    restater.place.result = signature.result;
    let Some(block) = &tree.body else {
        return refuse_word(restater, tree.name.token, signature.out, Why::NoBody);
    };
    say_head(restater, out, tree, signature)?;
    say_body(restater, out, trees, block, signature.waits)
}

// What is known of the method of a number.
fn signature_of(restater: &Restater, number: usize) -> Result<Option<Signature>, Stop> {
    let Some(method) = restater.tables.methods.get(number) else {
        return Ok(None);
    };
    let owner = owner_kind(restater, method.class, method.is_static);
    Ok(Some(Signature {
        class: method.class,
        out: method.out,
        is_synchronized: method.is_synchronized,
        waits: method.is_synchronized && is_waited_on(restater, owner),
        parameters: Vec::from_slice(restater.alloc, &method.parameters)?,
        result: method.result,
        me: method.me,
    }))
}

// Whether a class that isn't split has synchronized methods of its objects, and static ones.
fn has_two_monitors(restater: &Restater, class: usize) -> bool {
    let has = |is_static: bool| {
        restater.tables.methods.iter().any(|method| {
            method.class == class && method.is_synchronized && method.is_static == is_static
        })
    };
    !is_split(restater, class) && has(true) && has(false)
}

// The method of a number.
fn method<'a>(
    restater: &mut Restater,
    out: &mut Text,
    trees: Trees<'a>,
    number: usize,
    tree: &'a MethodTree,
) -> Result<(), Stop> {
    let Some(signature) = signature_of(restater, number)? else {
        return Ok(());
    };
    let Some(known) = restater.tables.methods.get(number) else {
        return Ok(());
    };
    let is_static = known.is_static;
    let is_main = known.is_main;
    enter_member(restater, signature.class, is_static)?;
    restater.place.method = Some(number);
    if is_main {
        return main_method(restater, out, trees, tree);
    }
    if signature.is_synchronized && has_two_monitors(restater, signature.class) {
        return refuse_word(restater, tree.name.token, signature.out, Why::TwoMonitors);
    }
    plain_method(restater, out, trees, tree, &signature)
}

// The number of a method that is written, or none where it was refused, is left out, or belongs to the other part of a
// class that is split.
fn written_number(restater: &Restater, tree: &MethodTree, is_static: bool) -> Option<usize> {
    let number = method_at(restater, tree.name.token)?;
    let known = restater.tables.methods.get(number)?;
    if is_split(restater, known.class) && known.is_static != is_static {
        return None;
    }
    Some(number)
}

/// The methods of a class; where it is split, of its static part or of its objects.
pub(crate) fn all_methods<'a>(
    restater: &mut Restater,
    out: &mut Text,
    trees: Trees<'a>,
    class: &'a TypeDeclaration,
    is_static: bool,
) -> Result<(), Stop> {
    for member in &class.members {
        let Member::Method(tree) = member else {
            continue;
        };
        let Some(number) = written_number(restater, tree, is_static) else {
            continue;
        };
        let before = *out;
        let done = method(restater, out, trees, number, tree);
        keep_unless_refused(done, out, before)?;
    }
    Ok(())
}
