// Statements.

ghost use Rattle.ls_lowered.specs.Limits.{most_locals};
ghost use Rattle.std.specs.Prelude.{◌≡◌, ℕ, ◌+◌, ◌*◌, ◌<◌, ◌≤◌, ◌^◌, IfOk, map};
ghost use Rattle.ls_checked.specs.Plain.{plain as checked, plain_statement as checked_statement};
ghost use Rattle.ls_checked.specs.Plain.{statements_of as checked_statements, plain_class};
ghost use Rattle.ls_checked.specs.CheckedTree as trees;
ghost use Rattle.ls_lowered.specs.LoweredTree.{Block, While, Leave, Statements};
ghost use Rattle.ls_lowered.specs.Plain.{plain, plain_statement, statements_of, in_front};
ghost use Rattle.ls_refs.specs.Temporaries.{temporaries, statement_temporaries, block_temporaries};
ghost use Rattle.ls_refs.specs.Lowered.{leavable as ended_by_leave, lowered, lowered_statement};
ghost use Rattle.ls_refs.specs.Lowered.{lowered_block, ahead};
ghost use Rattle.ls_refs.specs.Loops.{JumpsBelow, JumpBelow};

use crate::expressions::{Placed, lower_expression};
use ls_checked::tree::{Class, Expression, Statement};
use ls_lowered::tree::{Expression as Value, Statement as Tree};
use ls_together::also;
use std::alloc::{AllocError, Global};

fn placed_tree(tree: Tree, free: usize) -> Placed<Tree>
    ensures { result ≡ record { tree = tree; free = free } }
{
    Placed { tree, free }
}

#[tactic(auto, using(ls_lowered::proofs::Rows::block_made))]
fn block_of(statements: Vec<Tree>) -> Tree
    ensures { plain_statement result ≡ Block (statements_of statements.items) }
{
    Tree::Block(statements)
}

// One more statement of a block; in place of a block stand its statements.
fn put(out: &mut Vec<Tree>, s: Tree) -> Result<(), AllocError>
    ensures { IfOk result (λ _. (rest : Statements) → in_front out.new.items rest ≡ in_front out.old.items
        (ahead (plain_statement s) rest)) }
{
    match s {
        Tree::Block(mut inner) => out.append(&mut inner)?,
        other => out.push(other)?,
    }
    Ok(())
}

// A statement that a leave ends.
fn leavable(alloc: Global, body: Box<Tree>) -> Tree
    ensures { plain_statement result ≡ ended_by_leave (plain_statement body.value) }
{
    Tree::Leavable(body, Vec::new(alloc))
}

// A loop, that a leave ends, whose body a leave ends.
fn loop_of(alloc: Global, condition: Value, body: Box<Tree>) -> Result<Tree, AllocError>
    ensures { IfOk result (λ t. plain_statement t ≡
        ended_by_leave (While (plain condition) (ended_by_leave (plain_statement body.value)))) }
{
    let body = boxed(alloc, leavable(alloc, body));
    let (condition, body) = also(condition, body)?;
    let turns = boxed(alloc, Tree::While(condition, body))?;
    Ok(leavable(alloc, turns))
}

fn boxed(alloc: Global, s: Tree) -> Result<Box<Tree>, AllocError>
    ensures { IfOk result (λ b. b.value ≡ s) }
{
    Ok(Box::new(alloc, s)?)
}

// The leave that a jump is: of two numbers to a loop.
fn leave(loops: usize, more: usize) -> Tree
    requires low { loops < 2 ^ 63 }
    requires two { more ≤ 1 }
    ensures { plain_statement result ≡ Leave (2 * loops + more) }
{
    Tree::Leave(2 * loops + more)
}

// Two values, and the first local that is free after them.
fn lower_values(
    alloc: Global,
    classes: &[Class],
    free: usize,
    first: &Expression,
    second: &Expression,
) -> Result<(Value, Value, usize), AllocError>
    requires { free + (temporaries (checked first.now) + temporaries (checked second.now)) ≤ most_locals }
    ensures first { IfOk result (λ r. plain r.0 ≡ lowered (map plain_class classes.now) free (checked first.now)) }
    ensures second { IfOk result (λ r. plain r.1 ≡
        lowered (map plain_class classes.now) (free + temporaries (checked first.now)) (checked second.now)) }
    ensures free { IfOk result (λ r. r.2 ≡
        free + (temporaries (checked first.now) + temporaries (checked second.now))) }
{
    let first = lower_expression(alloc, classes, free, first)?;
    let second = lower_expression(alloc, classes, first.free, second);
    let (first, second) = also(first, second)?;
    Ok((first.tree, second.tree, second.free))
}

fn set_field(
    alloc: Global,
    classes: &[Class],
    free: usize,
    target: &Expression,
    field: usize,
    value: &Expression,
) -> Result<Placed<Tree>, AllocError>
    requires { free + statement_temporaries (trees.SetField (checked target.now) field (checked value.now)) ≤
        most_locals }
    ensures tree { IfOk result (λ r. plain_statement r.tree ≡ lowered_statement (map plain_class classes.now) free
        (trees.SetField (checked target.now) field (checked value.now))) }
    ensures free { IfOk result (λ r. r.free ≡
        free + statement_temporaries (trees.SetField (checked target.now) field (checked value.now))) }
{
    let (target, value, free) = lower_values(alloc, classes, free, target, value)?;
    Ok(placed_tree(Tree::SetField(target, field, value), free))
}

fn add_field(
    alloc: Global,
    classes: &[Class],
    free: usize,
    target: &Expression,
    field: usize,
    value: &Expression,
) -> Result<Placed<Tree>, AllocError>
    requires { free + statement_temporaries (trees.AddField (checked target.now) field (checked value.now)) ≤
        most_locals }
    ensures tree { IfOk result (λ r. plain_statement r.tree ≡ lowered_statement (map plain_class classes.now) free
        (trees.AddField (checked target.now) field (checked value.now))) }
    ensures free { IfOk result (λ r. r.free ≡
        free + statement_temporaries (trees.AddField (checked target.now) field (checked value.now))) }
{
    let (target, value, free) = lower_values(alloc, classes, free, target, value)?;
    Ok(placed_tree(Tree::AddField(target, field, value), free))
}

fn set_item(
    alloc: Global,
    classes: &[Class],
    free: usize,
    array: &Expression,
    index: &Expression,
    value: &Expression,
) -> Result<Placed<Tree>, AllocError>
    requires { free + statement_temporaries
        (trees.SetItem (checked array.now) (checked index.now) (checked value.now)) ≤ most_locals }
    ensures tree { IfOk result (λ r. plain_statement r.tree ≡ lowered_statement (map plain_class classes.now) free
        (trees.SetItem (checked array.now) (checked index.now) (checked value.now))) }
    ensures free { IfOk result (λ r. r.free ≡
        free + statement_temporaries (trees.SetItem (checked array.now) (checked index.now) (checked value.now))) }
{
    let (array, index, free) = lower_values(alloc, classes, free, array, index)?;
    let value = lower_expression(alloc, classes, free, value);
    let ((array, index), value) = also((array, index), value)?;
    Ok(placed_tree(Tree::SetItem(array, index, value.tree), value.free))
}

/// A statement, with its temporaries from `free` on.
#[cycle(statements)]
#[tactic(auto, using(crate::proofs::Rows::block_read))]
pub fn lower_statement(
    alloc: Global,
    classes: &[Class],
    free: usize,
    s: &Statement,
) -> Result<Placed<Tree>, AllocError>
    requires few { free + statement_temporaries (checked_statement s.now) ≤ most_locals }
    requires jumps { JumpsBelow (2 ^ 63) (checked_statement s.now) }
    ensures tree { IfOk result (λ r. plain_statement r.tree ≡ lowered_statement (map plain_class classes.now) free
        (checked_statement s.now)) }
    ensures free { IfOk result (λ r. r.free ≡ free + statement_temporaries (checked_statement s.now)) }
{
    match s {
        Statement::Block(statements) => lower_block(alloc, classes, free, statements),
        Statement::SetSlot(number, e) => {
            let e = lower_expression(alloc, classes, free, e)?;
            Ok(placed_tree(Tree::SetLocal(*number, e.tree), e.free))
        }
        Statement::SetField {
            target,
            field,
            value,
        } => set_field(alloc, classes, free, target, *field, value),
        Statement::AddField {
            target,
            field,
            value,
        } => add_field(alloc, classes, free, target, *field, value),
        Statement::SetItem {
            array,
            index,
            value,
        } => set_item(alloc, classes, free, array, index, value),
        Statement::Evaluate(e) => {
            let e = lower_expression(alloc, classes, free, e)?;
            Ok(placed_tree(Tree::Evaluate(e.tree), e.free))
        }
        Statement::If(e, first, second) => lower_if(alloc, classes, free, e, first, second),
        Statement::While(e, body) => lower_while(alloc, classes, free, e, body),
        Statement::Break(n) => Ok(placed_tree(leave(*n, 1), free)),
        Statement::Continue(n) => Ok(placed_tree(leave(*n, 0), free)),
        Statement::ReturnNothing => Ok(placed_tree(Tree::Return(Value::Word(0)), free)),
        Statement::ReturnValue(e) => {
            let e = lower_expression(alloc, classes, free, e)?;
            Ok(placed_tree(Tree::Return(e.tree), e.free))
        }
        Statement::Try(body, finally) => lower_try(alloc, classes, free, body, finally),
    }
}

#[cycle(statements)]
fn lower_block(
    alloc: Global,
    classes: &[Class],
    free: usize,
    statements: &[Statement],
) -> Result<Placed<Tree>, AllocError>
    requires few { free + block_temporaries (checked_statements statements.now) ≤ most_locals }
    requires jumps { JumpBelow (2 ^ 63) (checked_statements statements.now) }
    ensures tree { IfOk result (λ r. plain_statement r.tree ≡
        Block (lowered_block (map plain_class classes.now) free (checked_statements statements.now))) }
    ensures free { IfOk result (λ r. r.free ≡ free + block_temporaries (checked_statements statements.now)) }
{
    let mut lowered = Vec::new(alloc);
    let mut next = free;
    for s in statements {
        let s = lower_statement(alloc, classes, next, s)?;
        put(&mut lowered, s.tree)?;
        next = s.free;
    }
    Ok(placed_tree(block_of(lowered), next))
}

#[cycle(statements)]
fn lower_if(
    alloc: Global,
    classes: &[Class],
    free: usize,
    condition: &Expression,
    first: &Statement,
    second: &Statement,
) -> Result<Placed<Tree>, AllocError>
    requires few { free + statement_temporaries
        (trees.If (checked condition.now) (checked_statement first.now) (checked_statement second.now)) ≤ most_locals }
    requires jumps { JumpsBelow (2 ^ 63) (checked_statement first.now) ×
        JumpsBelow (2 ^ 63) (checked_statement second.now) }
    ensures tree { IfOk result (λ r. plain_statement r.tree ≡ lowered_statement (map plain_class classes.now) free
        (trees.If (checked condition.now) (checked_statement first.now) (checked_statement second.now))) }
    ensures free { IfOk result (λ r. r.free ≡ free + statement_temporaries
        (trees.If (checked condition.now) (checked_statement first.now) (checked_statement second.now))) }
{
    let condition = lower_expression(alloc, classes, free, condition)?;
    let first = lower_part(alloc, classes, condition.free, first);
    let (condition, first) = also(condition, first)?;
    let second = lower_part(alloc, classes, first.free, second);
    let ((condition, first), second) = also((condition, first), second)?;
    let tree = Tree::If(condition.tree, first.tree, second.tree);
    Ok(placed_tree(tree, second.free))
}

#[cycle(statements)]
fn lower_while(
    alloc: Global,
    classes: &[Class],
    free: usize,
    condition: &Expression,
    body: &Statement,
) -> Result<Placed<Tree>, AllocError>
    requires few { free + statement_temporaries (trees.While (checked condition.now) (checked_statement body.now)) ≤
        most_locals }
    requires jumps { JumpsBelow (2 ^ 63) (checked_statement body.now) }
    ensures tree { IfOk result (λ r. plain_statement r.tree ≡ lowered_statement (map plain_class classes.now) free
        (trees.While (checked condition.now) (checked_statement body.now))) }
    ensures free { IfOk result (λ r. r.free ≡
        free + statement_temporaries (trees.While (checked condition.now) (checked_statement body.now))) }
{
    let condition = lower_expression(alloc, classes, free, condition)?;
    let body = lower_part(alloc, classes, condition.free, body);
    let (condition, body) = also(condition, body)?;
    Ok(placed_tree(loop_of(alloc, condition.tree, body.tree)?, body.free))
}

#[cycle(statements)]
fn lower_try(
    alloc: Global,
    classes: &[Class],
    free: usize,
    body: &Statement,
    finally: &Statement,
) -> Result<Placed<Tree>, AllocError>
    requires few { free +
        statement_temporaries (trees.Try (checked_statement body.now) (checked_statement finally.now)) ≤ most_locals }
    requires jumps { JumpsBelow (2 ^ 63) (checked_statement body.now) ×
        JumpsBelow (2 ^ 63) (checked_statement finally.now) }
    ensures tree { IfOk result (λ r. plain_statement r.tree ≡ lowered_statement (map plain_class classes.now) free
        (trees.Try (checked_statement body.now) (checked_statement finally.now))) }
    ensures free { IfOk result (λ r. r.free ≡
        free + statement_temporaries (trees.Try (checked_statement body.now) (checked_statement finally.now))) }
{
    let body = lower_part(alloc, classes, free, body)?;
    let finally = lower_part(alloc, classes, body.free, finally);
    let (body, finally) = also(body, finally)?;
    Ok(placed_tree(Tree::Try(body.tree, finally.tree), finally.free))
}

#[cycle(statements)]
fn lower_part(
    alloc: Global,
    classes: &[Class],
    free: usize,
    s: &Statement,
) -> Result<Placed<Box<Tree>>, AllocError>
    requires few { free + statement_temporaries (checked_statement s.now) ≤ most_locals }
    requires jumps { JumpsBelow (2 ^ 63) (checked_statement s.now) }
    ensures tree { IfOk result (λ r. plain_statement r.tree.value ≡ lowered_statement (map plain_class classes.now) free
        (checked_statement s.now)) }
    ensures free { IfOk result (λ r. r.free ≡ free + statement_temporaries (checked_statement s.now)) }
{
    let s = lower_statement(alloc, classes, free, s)?;
    Ok(Placed {
        tree: Box::new(alloc, s.tree)?,
        free: s.free,
    })
}
