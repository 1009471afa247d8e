// Expressions that are restated where they don't stand.

ghost use Rattle.std.specs.Prelude.{◌≡◌, ◌+◌, IfOk};

use crate::remarks::Stop;
use crate::restater::{Restater, deeper};
use ls_java_tree::declarations::{Body, Member};
use ls_java_tree::expressions::Expression;
use ls_java_tree::statements::StatementKind;
use std::slice;

/// Lists of expressions by number, which are restated where they don't stand: the arguments of a `this(..)`, the lock
/// of a condition, and what a body returns. `values` has what each field begins with where it is declared, by the
/// field's number.
#[derive(Drop)]
pub struct Kept<'a> {
    pub lists: Vec<&'a [Expression]>,
    pub values: Vec<Option<&'a Expression>>,
}

/// How many nodes restating may go down, and the lists of expressions that are kept.
#[derive(Clone, Copy)]
pub struct Depth<'a> {
    pub lists: &'a [&'a [Expression]],
    pub left: usize,
}

/// A list of expressions is kept. The answer is its number.
pub fn keep<'a>(kept: &mut Kept<'a>, all: &'a [Expression]) -> Result<usize, Stop> {
    let number = kept.lists.len();
    kept.lists.push(all)?;
    Ok(number)
}

/// The list of expressions of a number.
pub fn kept_list<'a>(depth: Depth<'a>, number: usize) -> &'a [Expression] {
    match depth.lists.get(number) {
        Some(all) => *all,
        None => &[],
    }
}

/// What is left one node deeper.
pub fn down<'a>(depth: Depth<'a>) -> Result<Depth<'a>, Stop>
    ensures { IfOk result (λ inner. inner.left + 1 ≡ depth.entry.left) }
{
    let left = deeper(depth.left)?;
    Ok(Depth {
        lists: depth.lists,
        left,
    })
}

/// The same lists, with so many nodes to go down.
pub fn with_left<'a>(depth: Depth<'a>, left: usize) -> Depth<'a> {
    Depth {
        lists: depth.lists,
        left,
    }
}

// The value that a method of one `return` returns.
fn returned(member: &Member) -> Option<&Expression> {
    let Member::Method(method) = member else {
        return None;
    };
    match method.body.as_ref()?.statements.first()? {
        statement => match &statement.kind {
            StatementKind::Return(value) => value.as_ref(),
            _ => None,
        },
    }
}

// The value that the first method of an anonymous class returns which is one `return`.
fn returned_by(body: &Body) -> Option<&Expression> {
    let Body::Class(members) = body else {
        return None;
    };
    members.iter().find_map(|member| returned(member))
}

/// What the bodies of anonymous classes return.
pub fn find_returned<'a>(
    restater: &mut Restater,
    kept: &mut Kept<'a>,
    bodies: &'a [Body],
) -> Result<(), Stop> {
    for body in bodies {
        let number = match returned_by(body) {
            Some(value) => Some(keep(kept, slice::from_ref(value))?),
            None => None,
        };
        restater.tables.returned.push(number)?;
    }
    Ok(())
}
