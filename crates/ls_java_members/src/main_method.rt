// `main`: a method for each thread that it makes. Otherwise it is left out.

use crate::places::{Trees, enter_member, is_left_out_of_main};
use ls_java_statements::bodies::{body, effect};
use ls_java_tables::collecting::type_name;
use ls_java_tables::remarks::{Stop, What};
use ls_java_tables::restater::{Restater, is_named, name_of, note};
use ls_java_tables::ropes::Text;
use ls_java_tables::spelling::{say, say_word};
use ls_java_tree::declarations::{Body, Method as MethodTree};
use ls_java_tree::expressions::{Expression, ExpressionKind, LambdaBody};
use ls_java_tree::statements::{Declaration, Declarator, Statement, StatementKind};

// What a thread does that a declaration makes: `Thread name = new Thread(() -> ..)`.
fn thread_body(tree: &Declaration) -> Option<(&Declarator, &LambdaBody)> {
    if !is_named(type_name(&tree.type_name)?, "Thread") {
        return None;
    }
    let declarator = tree.declarators.first()?;
    match &declarator.value.as_ref()?.kind {
        ExpressionKind::New { arguments, .. } => match &arguments.first()?.kind {
            ExpressionKind::Lambda { body, .. } => Some((declarator, body)),
            _ => None,
        },
        _ => None,
    }
}

// Whether an expression starts or joins a thread, or prints.
fn is_left_out(tree: &Expression) -> bool {
    match &tree.kind {
        ExpressionKind::Call { name, .. } => is_left_out_of_main(name),
        _ => false,
    }
}

// Whether a statement of `main` is understood.
fn is_understood(tree: &Statement) -> bool {
    match &tree.kind {
        StatementKind::Empty => true,
        StatementKind::Locals(declaration) => {
            declaration.declarators.len() == 1 && thread_body(declaration).is_some()
        }
        StatementKind::Expression(expression) => is_left_out(expression),
        _ => false,
    }
}

// The statements of a thread.
fn say_thread<'a>(
    restater: &mut Restater,
    out: &mut Text,
    trees: Trees<'a>,
    tree: &'a LambdaBody,
) -> Result<(), Stop> {
    match tree {
        LambdaBody::Expression(expression) => effect(restater, out, expression, trees.lists),
        LambdaBody::Block(number) => match trees.bodies.get(*number) {
            Some(Body::Block(block)) => body(restater, out, block, trees.lists),
            _ => Ok(()),
        },
    }
}

// The method of a thread.
fn thread_method<'a>(
    restater: &mut Restater,
    out: &mut Text,
    trees: Trees<'a>,
    tree: &'a Declaration,
) -> Result<(), Stop> {
    let Some((declarator, lambda)) = thread_body(tree) else {
        return Ok(());
    };
    let place = restater.place;
    enter_member(restater, place.class, place.is_static)?;
    restater.place.method = place.method;
    let name = name_of(restater, &declarator.name);
    let token = declarator.name.token;
    say(restater, out, "public void", tree.span.first)?;
    say_word(restater, out, name, token)?;
    say(restater, out, "( ) {", token)?;
    say_thread(restater, out, trees, lambda)?;
    say(restater, out, "}", tree.span.last)
}

/// `main`: a method for each thread that it makes, if it only makes, starts and joins threads, and prints. Otherwise it
/// is left out.
pub(crate) fn main_method<'a>(
    restater: &mut Restater,
    out: &mut Text,
    trees: Trees<'a>,
    tree: &'a MethodTree,
) -> Result<(), Stop> {
    let token = tree.name.token;
    let Some(block) = &tree.body else {
        return note(restater, token, What::MethodLeftOut);
    };
    if !block.statements.iter().all(is_understood) {
        return note(restater, token, What::MainLeftOut);
    }
    note(restater, token, What::Main)?;
    for statement in &block.statements {
        if let StatementKind::Locals(declaration) = &statement.kind {
            thread_method(restater, out, trees, declaration)?;
        }
    }
    Ok(())
}
