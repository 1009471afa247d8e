// Expressions.

ghost use Rattle.std.specs.Prelude.{◌≡◌, ℕ, ◌+◌, ◌≤◌, IfOk, map};
ghost use Rattle.ls_checked.specs.Plain.{plain as checked, all_plain as all_checked, plain_class};
ghost use Rattle.ls_checked.specs.CheckedTree.{Call};
ghost use Rattle.ls_lowered.specs.LoweredTree.{More, Unary, MakeObject, MakeMarkable};
ghost use Rattle.ls_lowered.specs.Plain.{plain, all_plain};
ghost use Rattle.ls_refs.specs.Temporaries.{temporaries, all_temporaries};
ghost use Rattle.ls_refs.specs.Calls.{first_of, second_of, pack};
ghost use Rattle.ls_refs.specs.Lowered.{lowered, all_lowered};

use crate::calls::{call, constructor_of, operator, own_temporaries, pack_arguments, value_word};
use ls_checked::tree::{Called, Class, Expression, Expressions};
use ls_lowered::tree::{Expression as Tree, Expressions as Trees, UnaryOperator};
use ls_together::also;
use std::alloc::{AllocError, Global};

/// A lowered tree, and the first local that is still free.
#[derive(Drop)]
pub struct Placed<T> {
    pub tree: T,
    pub free: usize,
}

fn placed_tree(tree: Tree, free: usize) -> Placed<Tree>
    ensures { result ≡ record { tree = tree; free = free } }
{
    Placed { tree, free }
}

/// An expression, with its temporaries from `free` on. The only refusal is that memory ran out.
#[cycle(expressions)]
pub fn lower_expression(
    alloc: Global,
    classes: &[Class],
    free: usize,
    e: &Expression,
) -> Result<Placed<Tree>, AllocError>
    requires { free + temporaries (checked e.now) ≤ 128 }
    ensures tree { IfOk result (λ r. plain r.tree ≡ lowered (map plain_class classes.now) free (checked e.now)) }
    ensures free { IfOk result (λ r. r.free ≡ free + temporaries (checked e.now)) }
{
    match e {
        Expression::Literal(value) => Ok(placed_tree(Tree::Word(value_word(*value)), free)),
        Expression::Slot(number) => Ok(placed_tree(Tree::Local(*number), free)),
        Expression::Field { target, field, .. } => {
            let target = lower_boxed(alloc, classes, free, target)?;
            Ok(placed_tree(Tree::Field(target.tree, *field), target.free))
        }
        Expression::Item(array, index) => {
            let (array, index, free) = lower_two(alloc, classes, free, array, index)?;
            Ok(placed_tree(Tree::Item(array, index), free))
        }
        Expression::Negate(e) => lower_unary(alloc, classes, free, UnaryOperator::Negate, e),
        Expression::Not(e) => lower_unary(alloc, classes, free, UnaryOperator::Not, e),
        Expression::Binary(op, a, b) => {
            let (a, b, free) = lower_two(alloc, classes, free, a, b)?;
            Ok(placed_tree(Tree::Binary(operator(*op), a, b), free))
        }
        Expression::And(a, b) => {
            let (a, b, free) = lower_two(alloc, classes, free, a, b)?;
            Ok(placed_tree(Tree::And(a, b), free))
        }
        Expression::Or(a, b) => {
            let (a, b, free) = lower_two(alloc, classes, free, a, b)?;
            Ok(placed_tree(Tree::Or(a, b), free))
        }
        Expression::Call(e, called, es) => lower_call(alloc, classes, free, e, *called, es),
        Expression::MakeObject(class, arguments) => {
            let arguments = lower_expressions(alloc, classes, free, arguments)?;
            make_object(alloc, *class, constructor_of(classes, *class), arguments)
        }
        Expression::MakeLock => Ok(placed_tree(Tree::MakeLock, free)),
        Expression::MakeMarkable(_, arguments) => {
            make_markable(alloc, lower_expressions(alloc, classes, free, arguments)?)
        }
        Expression::MakeArray(length) => {
            let length = lower_boxed(alloc, classes, free, length)?;
            Ok(placed_tree(Tree::MakeArray(length.tree), length.free))
        }
    }
}

// The making of an object from its arguments.
fn make_object(
    alloc: Global,
    class: usize,
    constructor: usize,
    arguments: Placed<Trees>,
) -> Result<Placed<Tree>, AllocError>
    ensures tree { IfOk result (λ r. plain r.tree ≡ MakeObject class constructor (all_plain arguments.tree)) }
    ensures free { IfOk result (λ r. r.free ≡ arguments.free) }
{
    let tree = Tree::MakeObject(class, constructor, boxed(alloc, arguments.tree)?);
    Ok(placed_tree(tree, arguments.free))
}

// The making of a markable from the reference and the mark that it begins with.
fn make_markable(alloc: Global, arguments: Placed<Trees>) -> Result<Placed<Tree>, AllocError>
    ensures tree { IfOk result (λ r. let es = all_plain arguments.tree in
        plain r.tree ≡ MakeMarkable (pack (first_of es) (second_of es))) }
    ensures free { IfOk result (λ r. r.free ≡ arguments.free) }
{
    let pair = pack_arguments(alloc, arguments.tree)?;
    let tree = Tree::MakeMarkable(Box::new(alloc, pair)?);
    Ok(placed_tree(tree, arguments.free))
}

#[cycle(expressions)]
fn lower_unary(
    alloc: Global,
    classes: &[Class],
    free: usize,
    op: UnaryOperator,
    e: &Expression,
) -> Result<Placed<Tree>, AllocError>
    requires { free + temporaries (checked e.now) ≤ 128 }
    ensures tree { IfOk result (λ r. plain r.tree ≡
        Unary op (lowered (map plain_class classes.now) free (checked e.now))) }
    ensures free { IfOk result (λ r. r.free ≡ free + temporaries (checked e.now)) }
{
    let e = lower_boxed(alloc, classes, free, e)?;
    Ok(placed_tree(Tree::Unary(op, e.tree), e.free))
}

// Two operands, and the first local that is free after them.
#[cycle(expressions)]
fn lower_two(
    alloc: Global,
    classes: &[Class],
    free: usize,
    a: &Expression,
    b: &Expression,
) -> Result<(Box<Tree>, Box<Tree>, usize), AllocError>
    requires { free + (temporaries (checked a.now) + temporaries (checked b.now)) ≤ 128 }
    ensures first { IfOk result (λ r. plain r.0.value ≡ lowered (map plain_class classes.now) free (checked a.now)) }
    ensures second { IfOk result (λ r. plain r.1.value ≡
        lowered (map plain_class classes.now) (free + temporaries (checked a.now)) (checked b.now)) }
    ensures free { IfOk result (λ r. r.2 ≡ free + (temporaries (checked a.now) + temporaries (checked b.now))) }
{
    let a = lower_boxed(alloc, classes, free, a)?;
    let b = lower_boxed(alloc, classes, a.free, b);
    let (a, b) = also(a, b)?;
    Ok((a.tree, b.tree, b.free))
}

#[cycle(expressions)]
fn lower_call(
    alloc: Global,
    classes: &[Class],
    free: usize,
    target: &Expression,
    called: Called,
    arguments: &Expressions,
) -> Result<Placed<Tree>, AllocError>
    requires { free + temporaries (Call (checked target.now) called (all_checked arguments.now)) ≤ 128 }
    ensures tree { IfOk result (λ r. plain r.tree ≡
        lowered (map plain_class classes.now) free (Call (checked target.now) called (all_checked arguments.now))) }
    ensures free { IfOk result (λ r. r.free ≡
        free + temporaries (Call (checked target.now) called (all_checked arguments.now))) }
{
    let behind = free + own_temporaries(called);
    let target = lower_expression(alloc, classes, behind, target)?;
    let arguments = lower_expressions(alloc, classes, target.free, arguments);
    let (target, arguments) = also(target, arguments)?;
    let tree = call(alloc, free, called, target.tree, arguments.tree)?;
    Ok(placed_tree(tree, arguments.free))
}

#[cycle(expressions)]
fn lower_boxed(
    alloc: Global,
    classes: &[Class],
    free: usize,
    e: &Expression,
) -> Result<Placed<Box<Tree>>, AllocError>
    requires { free + temporaries (checked e.now) ≤ 128 }
    ensures tree { IfOk result (λ r. plain r.tree.value ≡ lowered (map plain_class classes.now) free (checked e.now)) }
    ensures free { IfOk result (λ r. r.free ≡ free + temporaries (checked e.now)) }
{
    let e = lower_expression(alloc, classes, free, e)?;
    Ok(Placed {
        tree: Box::new(alloc, e.tree)?,
        free: e.free,
    })
}

fn boxed(alloc: Global, es: Trees) -> Result<Box<Trees>, AllocError>
    ensures { IfOk result (λ b. b.value ≡ es) }
{
    Ok(Box::new(alloc, es)?)
}

// An argument before others.
fn more(alloc: Global, first: Box<Tree>, rest: Trees) -> Result<Trees, AllocError>
    ensures { IfOk result (λ t. all_plain t ≡ More (plain first.value) (all_plain rest)) }
{
    let rest = boxed(alloc, rest);
    let (first, rest) = also(first, rest)?;
    Ok(Trees::More(first, rest))
}

/// Arguments, one after the other. The only refusal is that memory ran out.
#[cycle(expressions)]
pub fn lower_expressions(
    alloc: Global,
    classes: &[Class],
    free: usize,
    es: &Expressions,
) -> Result<Placed<Trees>, AllocError>
    requires { free + all_temporaries (all_checked es.now) ≤ 128 }
    ensures trees { IfOk result (λ r. all_plain r.tree ≡ all_lowered (map plain_class classes.now) free
        (all_checked es.now)) }
    ensures free { IfOk result (λ r. r.free ≡ free + all_temporaries (all_checked es.now)) }
{
    match es {
        Expressions::End => Ok(Placed {
            tree: Trees::End,
            free,
        }),
        Expressions::More(first, rest) => {
            let first = lower_boxed(alloc, classes, free, first)?;
            let rest = lower_expressions(alloc, classes, first.free, rest);
            let (first, rest) = also(first, rest)?;
            Ok(Placed {
                tree: more(alloc, first.tree, rest.tree)?,
                free: rest.free,
            })
        }
    }
}
