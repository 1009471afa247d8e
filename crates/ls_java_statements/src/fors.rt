// `for` (JLS 14.14).

use crate::locals::{head, locals};
use crate::loops::{flagged, leave_unless};
use crate::statements::{inside, label_text};
use ls_java_expressions::arguments::add_argument;
use ls_java_expressions::arrays::{counting, element, length};
use ls_java_expressions::expressions::{part, whole};
use ls_java_expressions::parts::{Part, keep};
use ls_java_expressions::targets::effect;
use ls_java_expressions::writing::{emit, single};
use ls_java_tables::kept::Depth;
use ls_java_tables::remarks::{Stop, Why};
use ls_java_tables::restater::{Around, Local, Restater, declare, leave, mark, name_of, refuse};
use ls_java_tables::ropes::Text;
use ls_java_tables::spelling::{append, say, word};
use ls_java_tables::types::kind_here;
use ls_java_tables::values::Kind;
use ls_java_tree::expressions::Expression;
use ls_java_tree::statements::{Local as Item, Opening, Statement, StatementKind};

// Effects: the statements that they are, and, if each is one simple statement, these with commas between them.
#[derive(Clone, Copy)]
struct Effects {
    statements: Text,
    list: Option<Text>,
}

// The effects of expressions, in their order (JLS 14.14.1).
fn all_effects<'a>(
    restater: &mut Restater,
    at: usize,
    trees: &'a [Expression],
    depth: Depth<'a>,
) -> Result<Effects, Stop> {
    let mut statements = Text::EMPTY;
    let mut list = Some(Text::EMPTY);
    for tree in trees {
        let mut one = Text::EMPTY;
        effect(restater, &mut one, tree, whole(depth))?;
        if one == Text::EMPTY {
            continue;
        }
        append(restater, &mut statements, one)?;
        list = match (list, single(restater, one)) {
            (Some(mut all), Some(simple)) => {
                add_argument(restater, &mut all, at, simple)?;
                Some(all)
            }
            _ => None,
        };
    }
    Ok(Effects { statements, list })
}

// What a `for` begins with: a declaration, or effects.
fn opening<'a>(
    restater: &mut Restater,
    at: usize,
    tree: &'a Opening,
    depth: Depth<'a>,
) -> Result<Effects, Stop> {
    match tree {
        Opening::Expressions(trees) => all_effects(restater, at, trees, depth),
        Opening::Locals(declaration) => {
            let mut statements = Text::EMPTY;
            locals(restater, &mut statements, declaration, depth)?;
            let list = single(restater, statements);
            Ok(Effects { statements, list })
        }
    }
}

// The parts of the head of a `for`, restated.
#[derive(Clone, Copy)]
struct Head {
    label: Text,
    opening: Effects,
    test: Option<Part>,
    updates: Effects,
}

// The parts of the head of a `for`.
fn head_of<'a>(
    restater: &mut Restater,
    tree: &'a Statement,
    depth: Depth<'a>,
) -> Result<Head, Stop> {
    let at = tree.span.first;
    let StatementKind::For {
        opening: first,
        condition,
        updates,
        ..
    } = &tree.kind
    else {
        return refuse(restater, at, Why::Other);
    };
    let label = label_text(restater, at)?;
    let opening = opening(restater, at, first, depth)?;
    let test = match condition {
        Some(condition) => Some(part(restater, condition, whole(depth))?),
        None => None,
    };
    let updates = all_effects(restater, at, updates, depth)?;
    Ok(Head {
        label,
        opening,
        test,
        updates,
    })
}

// What leaves the loop where its condition doesn't hold, at the head of its body.
fn leaving(restater: &mut Restater, at: usize, test: Option<Part>) -> Result<Text, Stop> {
    match test {
        Some(test) => leave_unless(restater, at, test),
        None => Ok(Text::EMPTY),
    }
}

// The head with `for`, up to the brace of the body. A condition that needs statements stands in the body.
fn as_for(
    restater: &mut Restater,
    out: &mut Text,
    at: usize,
    head: Head,
    lists: (Text, Text),
) -> Result<(), Stop> {
    let (opening, updates) = lists;
    let (test, inside) = match head.test {
        Some(test) if test.before == Text::EMPTY => (test.value.text, Text::EMPTY),
        test => (Text::EMPTY, leaving(restater, at, test)?),
    };
    let parts = [head.label, opening, test, updates, inside];
    emit(restater, out, at, "# for ( # ; # ; # ) { #", &parts)
}

// The head with a flag that says whether a turn was made, up to where the body begins: the updates need statements.
fn as_flagged(restater: &mut Restater, out: &mut Text, at: usize, head: Head) -> Result<(), Stop> {
    let flag = flagged(restater, out, at, head.label)?;
    let leaving = leaving(restater, at, head.test)?;
    let parts = [head.updates.statements, flag, leaving];
    emit(restater, out, at, "# } # = true ; #", &parts)
}

/// `for` (JLS 14.14.1). What its head can't have stands before it, in a block.
#[cycle(statements)]
pub(crate) fn for_statement<'a>(
    restater: &mut Restater,
    out: &mut Text,
    tree: &'a Statement,
    depth: Depth<'a>,
) -> Result<(), Stop> {
    let at = tree.span.first;
    let StatementKind::For { body, .. } = &tree.kind else {
        return refuse(restater, at, Why::Other);
    };
    let mark = mark(restater);
    let head = head_of(restater, tree, depth)?;
    let before = match (head.opening.list, head.updates.list) {
        (Some(opening), Some(updates)) => {
            as_for(restater, out, at, head, (opening, updates))?;
            false
        }
        (None, Some(updates)) => {
            emit(restater, out, at, "{ #", &[head.opening.statements])?;
            as_for(restater, out, at, head, (Text::EMPTY, updates))?;
            true
        }
        (_, None) => {
            emit(restater, out, at, "{ #", &[head.opening.statements])?;
            as_flagged(restater, out, at, head)?;
            true
        }
    };
    inside(restater, out, body, Around::Loop, depth)?;
    say(restater, out, "}", tree.span.last)?;
    if before {
        say(restater, out, "}", tree.span.last)?;
    }
    leave(restater, mark);
    Ok(())
}

// The array of a `for` over items goes to a local, and the loop over its indices begins, with the item as a local.
fn begin_each<'a>(
    restater: &mut Restater,
    out: &mut Text,
    at: usize,
    item: &'a Item,
    items: &'a Expression,
    depth: Depth<'a>,
) -> Result<(), Stop> {
    let label = label_text(restater, at)?;
    let found = part(restater, items, whole(depth))?;
    if !matches!(&found.value.kind, Kind::Array(_)) {
        return refuse(restater, at, Why::LoopOver);
    }
    emit(restater, out, at, "{ #", &[found.before])?;
    let array = keep(restater, out, at, found.value)?;
    let limit = length(restater, at, array)?;
    append(restater, out, label)?;
    let index = counting(restater, out, at, limit.text)?;
    let kind = kind_here(restater, &item.type_name)?;
    let name = name_of(restater, &item.name);
    let value = element(restater, at, array, index)?;
    let head = head(restater, &item.modifiers, &item.type_name, kind)?;
    let local = word(restater, name, item.name.token)?;
    emit(restater, out, at, "# # = # ;", &[head, local, value.text])?;
    declare(
        restater,
        Local {
            name,
            out: name,
            kind,
        },
    )
}

/// `for` over the items of an array (JLS 14.14.2).
#[cycle(statements)]
pub(crate) fn for_each<'a>(
    restater: &mut Restater,
    out: &mut Text,
    tree: &'a Statement,
    depth: Depth<'a>,
) -> Result<(), Stop> {
    let at = tree.span.first;
    let StatementKind::ForEach { item, items, body } = &tree.kind else {
        return refuse(restater, at, Why::Other);
    };
    let mark = mark(restater);
    begin_each(restater, out, at, item, items, depth)?;
    inside(restater, out, body, Around::Loop, depth)?;
    say(restater, out, "} }", tree.span.last)?;
    leave(restater, mark);
    Ok(())
}
