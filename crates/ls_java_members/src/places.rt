// Where a member is restated, and its first and last tokens.

use ls_java_expressions::writing::emit;
use ls_java_tables::beginning::no_place;
use ls_java_tables::finding::outer_kind;
use ls_java_tables::remarks::Stop;
use ls_java_tables::restater::{
    Around, Local, Place, Restater, declare, is_handed_outer, is_handed_statics, is_named, leave,
    name_of,
};
use ls_java_tables::ropes::Text;
use ls_java_tables::scanning::is_sign;
use ls_java_tables::spelling::{append, say, say_word, word};
use ls_java_tables::types::type_text;
use ls_java_tables::values::Kind;
use ls_java_tables::words::WordId;
use ls_java_tree::declarations::Body;
use ls_java_tree::expressions::{Expression, Parameter};
use ls_java_tree::names::{Modifier, ModifierKind};
use ls_lexer::sign::Sign;

/// The bodies of a file, and the lists of expressions that are kept.
#[derive(Clone, Copy)]
pub struct Trees<'a> {
    pub bodies: &'a [Body],
    pub lists: &'a [&'a [Expression]],
}

/// A member of a class is restated next, in its static part or not.
pub(crate) fn enter_member(
    restater: &mut Restater,
    class: usize,
    is_static: bool,
) -> Result<(), Stop> {
    leave(restater, 0);
    restater.around.truncate(0);
    restater.around.push(Around::Method)?;
    restater.place = Place {
        is_static,
        ..no_place(class)
    };
    Ok(())
}

/// A refusal was noted: what was written of a member goes, and the next one is restated. Another reason to stop is
/// handed on.
pub(crate) fn keep_unless_refused(
    done: Result<(), Stop>,
    out: &mut Text,
    before: Text,
) -> Result<(), Stop> {
    match done {
        Err(Stop::Refused) => {
            *out = before;
            Ok(())
        }
        other => other,
    }
}

// The spelling of a modifier that class texts have.
fn spelling(kind: &ModifierKind) -> Option<&'static str> {
    match kind {
        ModifierKind::Public => Some("public"),
        ModifierKind::Protected => Some("protected"),
        ModifierKind::Private => Some("private"),
        ModifierKind::Final => Some("final"),
        ModifierKind::Volatile => Some("volatile"),
        ModifierKind::Synchronized => Some("synchronized"),
        _ => None,
    }
}

/// The modifiers that class texts have, but `synchronized` where it is left out.
pub(crate) fn say_modifiers(
    restater: &mut Restater,
    out: &mut Text,
    modifiers: &[Modifier],
    left_out: &'static str,
) -> Result<(), Stop> {
    for modifier in modifiers {
        if let Some(text) = spelling(&modifier.kind) {
            if text != left_out {
                say(restater, out, text, modifier.span.first)?;
            }
        }
    }
    Ok(())
}

/// The first token from one on that is a sign, or the one itself if none follows.
pub(crate) fn next_sign(restater: &Restater, from: usize, sign: Sign) -> usize {
    for token in from..restater.shapes.len() {
        if is_sign(restater, token, sign) {
            return token;
        }
    }
    from
}

/// A kind and a name, as a field, a parameter or a local is declared.
pub(crate) fn say_declared(
    restater: &mut Restater,
    out: &mut Text,
    kind: Kind,
    name: WordId,
    token: usize,
) -> Result<(), Stop> {
    let text = type_text(restater, kind, token)?;
    append(restater, out, text)?;
    say_word(restater, out, name, token)
}

/// The objects that those of a class are handed: that of the class around, and that of the static members.
pub(crate) fn handed(restater: &Restater, class: usize) -> Result<Vec<(WordId, Kind)>, Stop> {
    let mut all = Vec::new(restater.alloc);
    if is_handed_outer(restater, class) {
        if let Some(kind) = outer_kind(restater, class) {
            all.push((restater.added.outer, kind))?;
        }
    }
    if is_handed_statics(restater, class) {
        all.push((restater.added.statics, Kind::Statics(class)))?;
    }
    Ok(all)
}

/// The fields for the objects that those of a class are handed.
pub(crate) fn say_handed_fields(
    restater: &mut Restater,
    out: &mut Text,
    handed: &[(WordId, Kind)],
    token: usize,
) -> Result<(), Stop> {
    for (name, kind) in handed {
        say_declared(restater, out, *kind, *name, token)?;
        say(restater, out, ";", token)?;
    }
    Ok(())
}

/// The parameters for the objects that those of a class are handed.
pub(crate) fn say_handed_parameters(
    restater: &mut Restater,
    out: &mut Text,
    handed: &[(WordId, Kind)],
    token: usize,
) -> Result<(), Stop> {
    let mut first = true;
    for (name, kind) in handed {
        if !first {
            say(restater, out, ",", token)?;
        }
        first = false;
        say_declared(restater, out, *kind, *name, token)?;
    }
    Ok(())
}

/// A constructor keeps the objects that it is handed.
pub(crate) fn say_handed_stores(
    restater: &mut Restater,
    out: &mut Text,
    handed: &[(WordId, Kind)],
    token: usize,
) -> Result<(), Stop> {
    for (name, _) in handed {
        let name = word(restater, *name, token)?;
        emit(restater, out, token, "this . # = # ;", &[name, name])?;
    }
    Ok(())
}

// One parameter, which is a local from then on.
fn say_parameter(
    restater: &mut Restater,
    out: &mut Text,
    parameter: &Parameter,
    kind: Kind,
) -> Result<(), Stop> {
    say_modifiers(restater, out, &parameter.modifiers, "")?;
    let text = type_text(restater, kind, parameter.span.first)?;
    append(restater, out, text)?;
    let name = name_of(restater, &parameter.name);
    say_word(restater, out, name, parameter.name.token)?;
    declare(
        restater,
        Local {
            name,
            out: name,
            kind,
        },
    )
}

/// Parameters with their kinds, behind others or not.
pub(crate) fn say_parameters(
    restater: &mut Restater,
    out: &mut Text,
    parameters: &[Parameter],
    kinds: &[Kind],
    behind: bool,
) -> Result<(), Stop> {
    let mut first = !behind;
    for (parameter, kind) in parameters.iter().zip(kinds.iter()) {
        if !first {
            say(restater, out, ",", parameter.span.first.saturating_sub(1))?;
        }
        first = false;
        say_parameter(restater, out, parameter, *kind)?;
    }
    Ok(())
}

/// Whether a call of this name is left out of `main`: it starts or joins a thread, waits, or prints.
pub(crate) fn is_left_out_of_main(name: &ls_java_tree::names::Name) -> bool {
    is_named(name, "start")
        || is_named(name, "join")
        || is_named(name, "println")
        || is_named(name, "print")
        || is_named(name, "printf")
        || is_named(name, "sleep")
}
