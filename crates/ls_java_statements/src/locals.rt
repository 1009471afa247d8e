// Declarations of locals (JLS 14.4).

use ls_java_expressions::arguments::add_argument;
use ls_java_expressions::expressions::{part_as, whole};
use ls_java_expressions::parts::Part;
use ls_java_expressions::writing::{emit, write};
use ls_java_tables::halves::kind_by_value;
use ls_java_tables::kept::Depth;
use ls_java_tables::remarks::{Stop, Why};
use ls_java_tables::restater::{Local, Restater, declare, name_of, refuse};
use ls_java_tables::ropes::Text;
use ls_java_tables::spelling::{append, say, word};
use ls_java_tables::types::{kind_with_brackets, type_text};
use ls_java_tables::values::Kind;
use ls_java_tree::names::{Modifier, ModifierKind};
use ls_java_tree::statements::{Declaration, Declarator};
use ls_java_tree::types::Type;

// `final`, if it is one of the modifiers.
fn final_text(restater: &mut Restater, modifiers: &[Modifier]) -> Result<Text, Stop> {
    let mut text = Text::EMPTY;
    for modifier in modifiers {
        if matches!(&modifier.kind, ModifierKind::Final) {
            say(restater, &mut text, "final", modifier.span.first)?;
        }
    }
    Ok(text)
}

/// What a local is declared as: its modifiers and its type.
pub(crate) fn head(
    restater: &mut Restater,
    modifiers: &[Modifier],
    written: &Type,
    kind: Kind,
) -> Result<Text, Stop> {
    let mut text = final_text(restater, modifiers)?;
    let type_name = type_text(restater, kind, written.span.first)?;
    append(restater, &mut text, type_name)?;
    Ok(text)
}

// The kind of a local.
fn local_kind(restater: &mut Restater, written: &Type, one: &Declarator) -> Result<Kind, Stop> {
    let kind = kind_with_brackets(restater, written, one.brackets)?;
    match kind {
        Kind::Condition => refuse(restater, one.name.token, Why::LocalCondition),
        Kind::ThreadLocal(_) => refuse(restater, one.name.token, Why::LocalThreadLocal),
        kind => Ok(kind_by_value(restater, kind, one.value.as_ref())),
    }
}

// A declared name, with its value behind `=` if it has one.
fn named(restater: &mut Restater, one: &Declarator, value: Option<Part>) -> Result<Text, Stop> {
    let token = one.name.token;
    let name = name_of(restater, &one.name);
    let text = word(restater, name, token)?;
    match value {
        Some(part) => write(restater, token, "# = #", &[text, part.value.text]),
        None => Ok(text),
    }
}

// Locals that are declared together so far: their kind, what stands before their names, and these.
#[derive(Clone, Copy)]
struct Together {
    kind: Kind,
    head: Text,
    names: Text,
}

// The locals so far are declared.
fn close(
    restater: &mut Restater,
    out: &mut Text,
    at: usize,
    together: Option<Together>,
) -> Result<(), Stop> {
    match together {
        Some(all) => emit(restater, out, at, "# # ;", &[all.head, all.names]),
        None => Ok(()),
    }
}

// One more local: behind the others if it is of their kind and its value needs no statements, else on its own.
fn add(
    restater: &mut Restater,
    out: &mut Text,
    tree: &Declaration,
    together: Option<Together>,
    next: Together,
    before: Text,
) -> Result<Together, Stop> {
    let at = tree.span.last;
    if let Some(all) = together {
        if before == Text::EMPTY && all.kind == next.kind {
            let mut names = all.names;
            add_argument(restater, &mut names, at, next.names)?;
            return Ok(Together { names, ..all });
        }
    }
    close(restater, out, at, together)?;
    append(restater, out, before)?;
    Ok(next)
}

// The value that a local begins with.
fn value_of<'a>(
    restater: &mut Restater,
    one: &'a Declarator,
    kind: Kind,
    depth: Depth<'a>,
) -> Result<Option<Part>, Stop> {
    match &one.value {
        Some(value) => {
            let part = part_as(restater, value, kind, whole(depth))?;
            Ok(Some(part))
        }
        None => Ok(None),
    }
}

/// Locals. Those that need no statements before their values are declared together.
pub fn locals<'a>(
    restater: &mut Restater,
    out: &mut Text,
    tree: &'a Declaration,
    depth: Depth<'a>,
) -> Result<(), Stop> {
    let mut together = None;
    for one in &tree.declarators {
        let kind = local_kind(restater, &tree.type_name, one)?;
        let value = value_of(restater, one, kind, depth)?;
        let name = name_of(restater, &one.name);
        declare(
            restater,
            Local {
                name,
                out: name,
                kind,
            },
        )?;
        if kind == Kind::Random {
            continue;
        }
        let before = match value {
            Some(part) => part.before,
            None => Text::EMPTY,
        };
        let names = named(restater, one, value)?;
        let head = head(restater, &tree.modifiers, &tree.type_name, kind)?;
        let next = Together { kind, head, names };
        together = Some(add(restater, out, tree, together, next, before)?);
    }
    close(restater, out, tree.span.last, together)
}
