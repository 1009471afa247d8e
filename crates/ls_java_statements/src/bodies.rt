// Bodies of methods and constructors, and the bodies of lambdas.

use crate::statements::{STATEMENT_LIMIT, enter_part, leave_part, statements};
use ls_java_expressions::expressions::EXPRESSION_LIMIT;
use ls_java_tables::kept::Depth;
use ls_java_tables::remarks::Stop;
use ls_java_tables::restater::{Around, Restater};
use ls_java_tables::ropes::Text;
use ls_java_tree::expressions::Expression;
use ls_java_tree::statements::Block;

/// The statements of a body, without its braces.
pub fn body<'a>(
    restater: &mut Restater,
    out: &mut Text,
    tree: &'a Block,
    lists: &'a [&'a [Expression]],
) -> Result<(), Stop> {
    let depth = Depth {
        lists,
        left: STATEMENT_LIMIT,
    };
    let mark = enter_part(restater, Around::Method)?;
    statements(restater, out, &tree.statements, depth)?;
    leave_part(restater, mark);
    Ok(())
}

/// An expression as a statement.
pub fn effect<'a>(
    restater: &mut Restater,
    out: &mut Text,
    tree: &'a Expression,
    lists: &'a [&'a [Expression]],
) -> Result<(), Stop> {
    let depth = Depth {
        lists,
        left: EXPRESSION_LIMIT,
    };
    ls_java_expressions::targets::effect(restater, out, tree, depth)
}
