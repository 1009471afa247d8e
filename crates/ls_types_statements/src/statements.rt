// Statements: what fits where.

ghost use Rattle.std.specs.Prelude.{◌<◌, ◌≤◌, ◌∷◌, Ok, OnOk, map, option_map};
ghost use Rattle.ls_events.specs.declared.value.ValueType.TheVariants.{Class as class_type};
ghost use Rattle.ls_types_elaboration.specs.Trees.{Items, While as while_written, For as for_written};
ghost use Rattle.ls_types_elaboration.specs.Trees.{Block as block_written, Try as try_written};
ghost use Rattle.ls_types_elaboration.specs.Trees.{Synchronized as synchronized_written};
ghost use Rattle.ls_types_elaboration.specs.TypedStatements.{statement, items as the_items};
ghost use Rattle.ls_types_elaboration.specs.TypedStatements.{jump};
ghost use Rattle.ls_types_elaboration.specs.TypedStatements.{continued, label_text, loop_of as the_loop_of};
ghost use Rattle.ls_types_elaboration.specs.TypedStatements.{fresh_label, returned};
ghost use Rattle.ls_types_elaboration.specs.TypedStatements.{for_loop};
ghost use Rattle.ls_types_elaboration.specs.Scopes.{with_unnamed};
ghost use Rattle.ls_types_elaboration.specs.Monitors.{synchronized};
ghost use Rattle.ls_types_elaboration.specs.Placed.{placed, placed_name};
ghost use Rattle.ls_types_elaboration.specs.PlacedStatements.{placed_simple, placed_opening, placed_statement};
ghost use Rattle.ls_types_elaboration.specs.PlacedStatements.{placed_items, placed_before, placed_other, if_of};
ghost use Rattle.ls_types_elaboration.specs.Tables.{local_of};
ghost use Rattle.ls_types_elaboration.specs.Answers.{Gives, Leads};
ghost use Rattle.ls_types_elaboration.specs.declared.loops.LoopPart.TheVariants as parts;
ghost use Rattle.ls_types_statements.specs.ScopeViews.{body_of, loops_of, slots_of, scope_of, formed_of};

use crate::forms::{
    block_of, condition_of, find_monitor, for_of, if_of, opening_of, returned, synchronized_of,
};
use crate::loops::{Round, continued, fresh_label, jump, site_in, within};
use crate::scope::{Scope, Slots, declaration, with_unnamed};
use ls_checked::tree::Statement;
use ls_events::value::ValueType;
use ls_together::{push, two, with_box};
use ls_tree::tree;
use ls_tree::tree::{BlockItem, Expression as Parsed, Name, Opening, Simple};
use ls_types_elaboration::known::Local;
use ls_types_elaboration::loops::LoopPart;
use ls_types_elaboration::rule::CheckFault;
use ls_types_elaboration::together::also;
use ls_types_expressions::expressions::fitting;
use ls_types_expressions::simple_values::{simple, simples};

/// A statement. Refused only by a broken rule, or if memory runs out.
#[cycle(statements)]
pub fn statement<'r, 't>(
    round: Round<'r, 't>,
    locals: &[Local<'t>],
    slots: &mut Slots,
    s: &'t tree::Statement,
) -> Result<Statement, CheckFault>
    requires { slots.old.named ≤ 128 }
    ensures found { Gives (formed_of (slots_of slots.new)) result
        (statement (body_of round.entry.context) (loops_of round.entry) (map local_of locals.now) (slots_of slots.old)
        (placed_statement s.entry.now)) }
    ensures low { OnOk result (slots.new.named ≤ 128) }
{
    match s {
        tree::Statement::Block(b) => block(round, locals, slots, &b.items),
        tree::Statement::Empty(_) => Ok(block_of(Vec::new(round.context.alloc))),
        tree::Statement::If {
            condition,
            then,
            otherwise,
            ..
        } => branches(round, locals, slots, condition, then, otherwise),
        tree::Statement::While {
            label,
            condition,
            body,
            ..
        } => while_loop(round, locals, slots, label, condition, body),
        tree::Statement::For {
            label,
            opening,
            condition,
            updates,
            body,
            ..
        } => for_loop(
            round, locals, slots, label, opening, condition, updates, body,
        ),
        tree::Statement::Break { label, span } => {
            let way = jump(true, round.loops, label, *span)?;
            Ok(Statement::Break(way.0))
        }
        tree::Statement::Continue { label, span } => {
            let way = jump(false, round.loops, label, *span)?;
            Ok(continued(way))
        }
        tree::Statement::Return { value, span } => {
            returned(site_in(round, locals), round.context.result, value, *span)
        }
        tree::Statement::Try { body, finally, .. } => {
            try_finally(round, locals, slots, &body.items, &finally.items)
        }
        tree::Statement::Synchronized { target, body, .. } => {
            synchronized(round, locals, slots, target, &body.items)
        }
        tree::Statement::Simple { simple: s, .. } => simple(site_in(round, locals), s),
    }
}

#[cycle(statements)]
fn branches<'r, 't>(
    round: Round<'r, 't>,
    locals: &[Local<'t>],
    slots: &mut Slots,
    condition: &'t Parsed,
    then: &'t tree::Statement,
    otherwise: &'t Option<Box<tree::Statement>>,
) -> Result<Statement, CheckFault>
    requires { slots.old.named ≤ 128 }
    ensures found { Gives (formed_of (slots_of slots.new)) result
        (statement (body_of round.entry.context) (loops_of round.entry) (map local_of locals.now) (slots_of slots.old)
        (if_of (placed condition.entry.now) (placed_statement then.entry.now) (placed_other otherwise.entry.now))) }
    ensures low { OnOk result (slots.new.named ≤ 128) }
{
    let alloc = round.context.alloc;
    let e = fitting(site_in(round, locals), ValueType::Boolean, condition)?;
    let (e, a) = also(e, statement(round, locals, slots, then))?;
    match otherwise {
        None => if_of(alloc, e, a, block_of(Vec::new(alloc))),
        Some(other) => {
            let ((e, a), b) = also((e, a), statement(round, locals, slots, other))?;
            if_of(alloc, e, a, b)
        }
    }
}

#[cycle(statements)]
fn while_loop<'r, 't>(
    round: Round<'r, 't>,
    locals: &[Local<'t>],
    slots: &mut Slots,
    label: &'t Option<Name>,
    condition: &'t Parsed,
    body: &'t tree::Statement,
) -> Result<Statement, CheckFault>
    requires { slots.old.named ≤ 128 }
    ensures found { Gives (formed_of (slots_of slots.new)) result
        (statement (body_of round.entry.context) (loops_of round.entry) (map local_of locals.now) (slots_of slots.old)
        (while_written (option_map placed_name label.entry.now) (placed condition.entry.now)
        (placed_statement body.entry.now))) }
    ensures low { OnOk result (slots.new.named ≤ 128) }
{
    fresh_label(round.loops, label)?;
    let e = fitting(site_in(round, locals), ValueType::Boolean, condition)?;
    let (e, s) = also(
        e,
        looped(round, locals, slots, LoopPart::While, label, body),
    )?;
    let (e, s) = with_box(round.context.alloc, e, s)?;
    Ok(Statement::While(e, s))
}

// The body of a loop with a label.
#[cycle(statements)]
fn looped<'r, 't>(
    round: Round<'r, 't>,
    locals: &[Local<'t>],
    slots: &mut Slots,
    part: LoopPart,
    label: &'t Option<Name>,
    body: &'t tree::Statement,
) -> Result<Statement, CheckFault>
    requires { slots.old.named ≤ 128 }
    ensures found { Gives (formed_of (slots_of slots.new)) result
        (statement (body_of round.entry.context) (the_loop_of part (label_text (option_map placed_name label.entry.now))
        ∷ loops_of round.entry) (map local_of locals.now) (slots_of slots.old) (placed_statement body.entry.now)) }
    ensures low { OnOk result (slots.new.named ≤ 128) }
{
    let inner = within(round.context.alloc, round.loops, part, label)?;
    let inside = Round {
        context: round.context,
        loops: &inner,
    };
    statement(inside, locals, slots, body)
}

// The body of a `for`.
#[cycle(statements)]
fn turned<'r, 't>(
    round: Round<'r, 't>,
    locals: &[Local<'t>],
    slots: &mut Slots,
    label: &'t Option<Name>,
    body: &'t tree::Statement,
) -> Result<Statement, CheckFault>
    requires { slots.old.named ≤ 128 }
    ensures found { Gives (formed_of (slots_of slots.new)) result
        (statement (body_of round.entry.context)
        (the_loop_of parts.Turn (label_text (option_map placed_name label.entry.now)) ∷
        the_loop_of parts.For (label_text (option_map placed_name label.entry.now)) ∷ loops_of round.entry)
        (map local_of locals.now) (slots_of slots.old) (placed_statement body.entry.now)) }
    ensures low { OnOk result (slots.new.named ≤ 128) }
{
    let whole = within(round.context.alloc, round.loops, LoopPart::For, label)?;
    let inside = Round {
        context: round.context,
        loops: &whole,
    };
    looped(inside, locals, slots, LoopPart::Turn, label, body)
}

#[cycle(statements)]
fn for_loop<'r, 't>(
    round: Round<'r, 't>,
    locals: &[Local<'t>],
    slots: &mut Slots,
    label: &'t Option<Name>,
    opening: &'t Opening,
    condition: &'t Option<Parsed>,
    updates: &'t [Simple],
    body: &'t tree::Statement,
) -> Result<Statement, CheckFault>
    requires { slots.old.named ≤ 128 }
    ensures found { Gives (formed_of (slots_of slots.new)) result
        (statement (body_of round.entry.context) (loops_of round.entry) (map local_of locals.now) (slots_of slots.old)
        (for_written (option_map placed_name label.entry.now) (placed_opening opening.entry.now)
        (option_map placed condition.entry.now) (map placed_simple updates.entry.now)
        (placed_statement body.entry.now))) }
    ensures low { OnOk result (slots.new.named ≤ 128) }
{
    fresh_label(round.loops, label)?;
    let front = opening_of(round, locals, slots, opening)?;
    let e = condition_of(site_in(round, &front.locals), condition);
    let (front, e) = also(front, e)?;
    let us = simples(site_in(round, &front.locals), updates);
    let ((front, e), us) = also((front, e), us)?;
    let s = turned(round, &front.locals, slots, label, body);
    let (((front, e), us), s) = also(((front, e), us), s)?;
    for_of(round.context.alloc, front.statements, e, s, us)
}

#[cycle(statements)]
fn try_finally<'r, 't>(
    round: Round<'r, 't>,
    locals: &[Local<'t>],
    slots: &mut Slots,
    body: &'t [BlockItem],
    finally: &'t [BlockItem],
) -> Result<Statement, CheckFault>
    requires { slots.old.named ≤ 128 }
    ensures found { Gives (formed_of (slots_of slots.new)) result
        (statement (body_of round.entry.context) (loops_of round.entry) (map local_of locals.now) (slots_of slots.old)
        (try_written (placed_items body.entry.now) (placed_items finally.entry.now))) }
    ensures low { OnOk result (slots.new.named ≤ 128) }
{
    let b = block(round, locals, slots, body)?;
    let (b, f) = also(b, block(round, locals, slots, finally))?;
    let (b, f) = two(round.context.alloc, b, f)?;
    Ok(Statement::Try(b, f))
}

#[cycle(statements)]
fn synchronized<'r, 't>(
    round: Round<'r, 't>,
    locals: &[Local<'t>],
    slots: &mut Slots,
    target: &'t Parsed,
    body: &'t [BlockItem],
) -> Result<Statement, CheckFault>
    requires { slots.old.named ≤ 128 }
    ensures found { Gives (formed_of (slots_of slots.new)) result
        (statement (body_of round.entry.context) (loops_of round.entry) (map local_of locals.now) (slots_of slots.old)
        (synchronized_written (placed target.entry.now) (placed_items body.entry.now))) }
    ensures low { OnOk result (slots.new.named ≤ 128) }
{
    let m = find_monitor(site_in(round, locals), target)?;
    let slot = slots.types.len();
    let class = m.class;
    let (object, b) = also(m.object, kept_block(round, locals, slots, class, body))?;
    synchronized_of(round.context.alloc, slot, class, object, b)
}

// A block that comes after the slot of an object.
#[cycle(statements)]
fn kept_block<'r, 't>(
    round: Round<'r, 't>,
    locals: &[Local<'t>],
    slots: &mut Slots,
    class: usize,
    items: &'t [BlockItem],
) -> Result<Statement, CheckFault>
    requires { slots.old.named ≤ 128 }
    ensures found { Gives (formed_of (slots_of slots.new)) result
        (statement (body_of round.entry.context) (loops_of round.entry) (map local_of locals.now)
        (with_unnamed (slots_of slots.old) (class_type class)) (block_written (placed_items items.entry.now))) }
    ensures low { OnOk result (slots.new.named ≤ 128) }
{
    with_unnamed(slots, ValueType::Class(class))?;
    block(round, locals, slots, items)
}

// A block, whose locals are added to a copy of those in scope.
#[cycle(statements)]
fn block<'r, 't>(
    round: Round<'r, 't>,
    locals: &[Local<'t>],
    slots: &mut Slots,
    items: &'t [BlockItem],
) -> Result<Statement, CheckFault>
    requires { slots.old.named ≤ 128 }
    ensures found { Gives (formed_of (slots_of slots.new)) result
        (statement (body_of round.entry.context) (loops_of round.entry) (map local_of locals.now) (slots_of slots.old)
        (block_written (placed_items items.entry.now))) }
    ensures low { OnOk result (slots.new.named ≤ 128) }
{
    let alloc = round.context.alloc;
    let locals = Vec::from_slice(alloc, locals)?;
    let mut scope = Scope {
        statements: Vec::new(alloc),
        locals,
    };
    all_items(round, &mut scope, slots, items)?;
    Ok(block_of(scope.statements))
}

/// The statements and declarations of a block, one after another. Refused only by a broken rule, or if memory runs
/// out.
#[cycle(statements)]
pub fn all_items<'r, 't>(
    round: Round<'r, 't>,
    scope: &mut Scope<'t>,
    slots: &mut Slots,
    items: &'t [BlockItem],
) -> Result<(), CheckFault>
    requires { slots.old.named ≤ 128 }
    ensures found { Gives (λ _. scope_of scope.new (slots_of slots.new)) result
        (the_items (body_of round.entry.context) (loops_of round.entry) (scope_of scope.old (slots_of slots.old))
        (placed_items items.entry.now)) }
    ensures low { OnOk result (slots.new.named ≤ 128) }
{
    for item in items {
        one_item(round, scope, slots, item)?;
    }
    Ok(())
}

// One more statement or declaration of a block.
#[cycle(statements)]
fn one_item<'r, 't>(
    round: Round<'r, 't>,
    scope: &mut Scope<'t>,
    slots: &mut Slots,
    item: &'t BlockItem,
) -> Result<(), CheckFault>
    requires { slots.old.named ≤ 128 }
    ensures found { (rest : Items) →
        Leads (λ _. scope_of scope.new (slots_of slots.new))
        (λ s. the_items (body_of round.entry.context) (loops_of round.entry) s rest) result
        (the_items (body_of round.entry.context) (loops_of round.entry) (scope_of scope.old (slots_of slots.old))
        (placed_before item.entry.now rest)) }
    ensures low { OnOk result (slots.new.named ≤ 128) }
{
    match item {
        BlockItem::Statement(s) => {
            let s = statement(round, &scope.locals, slots, s)?;
            scope.statements.push(s)?;
            Ok(())
        }
        BlockItem::Declaration(d) => declaration(round.context, scope, slots, d),
    }
}
