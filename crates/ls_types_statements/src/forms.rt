// The forms of statements that are made of typed parts.

ghost use Rattle.std.specs.Prelude.{◌≡◌, ◌<◌, ◌≤◌, ◌∷◌, [], IfOk, Ok, OnOk, map, option_map};
ghost use Rattle.ls_checked.specs.Plain.{plain, plain_statement};
ghost use Rattle.ls_checked.specs.CheckedTree.{Block as checked_block, If as checked_if, While as checked_while};
ghost use Rattle.ls_checked.specs.CheckedTree.{Evaluate as evaluate, Call as call, Slot as slot_read};
ghost use Rattle.ls_checked.specs.CheckedTree.{End as no_argument};
ghost use Rattle.ls_types_elaboration.specs.TypedStatements.{statement, sequence};
ghost use Rattle.ls_types_elaboration.specs.TypedStatements.{returned, opening as the_opening};
ghost use Rattle.ls_types_elaboration.specs.TypedStatements.{condition as the_condition, turn_once, for_loop};
ghost use Rattle.ls_types_elaboration.specs.TypedStatements.{monitor};
ghost use Rattle.ls_types_elaboration.specs.Monitors.{synchronized};
ghost use Rattle.ls_types_elaboration.specs.Placed.{placed};
ghost use Rattle.ls_types_elaboration.specs.PlacedStatements.{placed_opening};
ghost use Rattle.ls_types_elaboration.specs.PlacedStatements.{if_of};
ghost use Rattle.ls_types_elaboration.specs.Tables.{local_of};
ghost use Rattle.ls_types_tables.specs.ByName.{known_of};
ghost use Rattle.ls_types_elaboration.specs.Answers.{Gives};
ghost use Rattle.ls_types_expressions.specs.Views.{locals_of};
ghost use Rattle.ls_types_statements.specs.ScopeViews.{body_of, slots_of, scope_of};
ghost use Rattle.ls_types_statements.specs.ScopeViews.{monitor_seen};

use crate::loops::{Round, site_in};
use crate::scope::{Scope, Slots, declaration};
use ls_checked::tree::{Called, Expression, Expressions, Statement};
use ls_events::value::{Value, ValueType};
use ls_lexer::token::Span;
use ls_together::{push, two, with_box};
use ls_tree::tree;
use ls_tree::tree::{Expression as Parsed, Opening};
use ls_types_elaboration::known::Local;
use ls_types_elaboration::mismatch::Mismatch;
use ls_types_elaboration::rule::{CheckFault, Rule, refused_at};
use ls_types_elaboration::static_types::Static;
use ls_types_elaboration::together::also;
use ls_types_expressions::expressions::{fitting, typed};
use ls_types_expressions::places::span_of;
use ls_types_expressions::simple_values::simples;
use ls_types_expressions::site::Site;
use std::alloc::{AllocError, Global};

/// A block of the checked tree.
#[tactic(auto, using(crate::proofs::Blocks::block_made))]
pub fn block_of(statements: Vec<Statement>) -> Statement
    ensures { plain_statement result ≡ checked_block (sequence (map plain_statement statements.items)) }
{
    Statement::Block(statements)
}

// A return, against what the method answers.
pub(crate) fn returned(
    site: Site,
    answers: Option<ValueType>,
    value: &Option<Parsed>,
    span: Span,
) -> Result<Statement, CheckFault>
    ensures { Gives plain_statement result
        (returned (known_of site.entry.known) (locals_of site.entry) answers (option_map placed value.now) span) }
{
    match (answers, value) {
        (None, None) => Ok(Statement::ReturnNothing),
        (Some(t), None) => {
            let mismatch = Mismatch::NotReturned(t);
            Err(refused_at(Rule::WrongType(mismatch), span))
        }
        (None, Some(e)) => Err(refused_at(Rule::WrongType(Mismatch::Returned), span_of(e))),
        (Some(t), Some(e)) => {
            let v = fitting(site, t, e)?;
            Ok(Statement::ReturnValue(v))
        }
    }
}

pub(crate) fn if_of(
    alloc: Global,
    e: Expression,
    a: Statement,
    b: Statement,
) -> Result<Statement, CheckFault>
    ensures { Gives plain_statement result (Ok (checked_if (plain e) (plain_statement a) (plain_statement b))) }
{
    let (e, (a, b)) = also(e, two(alloc, a, b))?;
    Ok(Statement::If(e, a, b))
}

/// An object that is locked, and its class.
#[derive(Drop)]
pub(crate) struct Monitor {
    pub(crate) class: usize,
    pub(crate) object: Expression,
}

// What has a monitor: an object of a class of the file.
pub(crate) fn find_monitor(site: Site, e: &Parsed) -> Result<Monitor, CheckFault>
    ensures { Gives monitor_seen result (monitor (known_of site.entry.known) (locals_of site.entry) (placed e.now)) }
{
    let x = typed(site, e)?;
    match x.of {
        Static::Of(ValueType::Class(class)) => Ok(Monitor {
            class,
            object: x.expression,
        }),
        other => Err(refused_at(Rule::WrongType(Mismatch::NoObject(other)), span_of(e))),
    }
}

// An operation on the object in a slot.
pub(crate) fn operation(alloc: Global, slot: usize, called: Called) -> Result<Statement, AllocError>
    ensures { IfOk result (λ s. plain_statement s ≡ evaluate (call (slot_read slot) called no_argument)) }
{
    let (target, es) = two(alloc, Expression::Slot(slot), Expressions::End)?;
    Ok(Statement::Evaluate(Expression::Call(target, called, es)))
}

pub(crate) fn three<T: Drop>(alloc: Global, a: T, b: T, c: T) -> Result<Vec<T>, AllocError>
    ensures { IfOk result (λ v. v.items ≡ a ∷ b ∷ c ∷ []) }
{
    let mut all = Vec::new(alloc);
    all.push(a)?;
    all.push(b)?;
    all.push(c)?;
    Ok(all)
}

/// The statement that locks the monitor of an object, which a slot keeps, and unlocks it after its body. Refused only
/// by a broken rule, or if memory runs out.
pub fn synchronized_of(
    alloc: Global,
    slot: usize,
    class: usize,
    object: Expression,
    body: Statement,
) -> Result<Statement, CheckFault>
    ensures { Gives plain_statement result (Ok (synchronized slot class (plain object) (plain_statement body))) }
{
    let ((object, body), free) = also(
        (object, body),
        operation(alloc, slot, Called::FreeMonitor(class)),
    )?;
    let (object, (body, free)) = also(object, two(alloc, body, free))?;
    let kept = Statement::SetSlot(slot, object);
    let tried = Statement::Try(body, free);
    let ((kept, tried), hold) = also(
        (kept, tried),
        operation(alloc, slot, Called::HoldMonitor(class)),
    )?;
    Ok(block_of(three(alloc, kept, hold, tried)?))
}

// What a `for` begins with, and the locals in scope after it.
pub(crate) fn opening_of<'r, 't>(
    round: Round<'r, 't>,
    locals: &[Local<'t>],
    slots: &mut Slots,
    opening: &'t Opening,
) -> Result<Scope<'t>, CheckFault>
    requires { slots.old.named ≤ 128 }
    ensures found { Gives (λ scope. scope_of scope (slots_of slots.new)) result
        (the_opening (body_of round.entry.context) (map local_of locals.now) (slots_of slots.old)
        (placed_opening opening.entry.now)) }
    ensures low { OnOk result (slots.new.named ≤ 128) }
{
    let alloc = round.context.alloc;
    let locals = Vec::from_slice(alloc, locals)?;
    match opening {
        Opening::Declaration(d) => {
            let mut scope = Scope {
                statements: Vec::new(alloc),
                locals,
            };
            declaration(round.context, &mut scope, slots, d)?;
            Ok(scope)
        }
        Opening::Simples(ss) => {
            let statements = simples(site_in(round, &locals), ss)?;
            Ok(Scope { statements, locals })
        }
    }
}

// A condition. If none is written, it is `true`.
pub(crate) fn condition_of(site: Site, condition: &Option<Parsed>) -> Result<Expression, CheckFault>
    ensures { Gives plain result
        (the_condition (known_of site.entry.known) (locals_of site.entry) (option_map placed condition.now)) }
{
    match condition {
        None => Ok(Expression::Literal(Value::Boolean(true))),
        Some(c) => fitting(site, ValueType::Boolean, c),
    }
}

// Two statements as a block.
pub(crate) fn pair_of(alloc: Global, a: Statement, b: Statement) -> Result<Statement, AllocError>
    ensures { IfOk result (λ s. plain_statement s ≡
        checked_block (sequence (plain_statement a ∷ plain_statement b ∷ []))) }
{
    let both = push(Vec::new(alloc), a);
    let (b, both) = also(b, both)?;
    let both = push(both, b)?;
    Ok(block_of(both))
}

// One turn of a `for`: a loop that never turns back.
pub(crate) fn turn_once(alloc: Global, s: Statement) -> Result<Statement, AllocError>
    ensures { IfOk result (λ t. plain_statement t ≡ turn_once (plain_statement s)) }
{
    let body = pair_of(alloc, s, Statement::Break(0))?;
    let body = Box::new(alloc, body)?;
    Ok(Statement::While(Expression::Literal(Value::Boolean(true)), body))
}

pub(crate) fn while_of(alloc: Global, e: Expression, s: Statement) -> Result<Statement, AllocError>
    ensures { IfOk result (λ t. plain_statement t ≡ checked_while (plain e) (plain_statement s)) }
{
    let (e, s) = with_box(alloc, e, s)?;
    Ok(Statement::While(e, s))
}

// The loops of a `for`.
pub(crate) fn for_of(
    alloc: Global,
    front: Vec<Statement>,
    e: Expression,
    s: Statement,
    updates: Vec<Statement>,
) -> Result<Statement, CheckFault>
    ensures { Gives plain_statement result
        (Ok (for_loop (map plain_statement front.items) (plain e) (plain_statement s)
        (map plain_statement updates.items))) }
{
    let updates = block_of(updates);
    let turn = turn_once(alloc, s);
    let (((front, e), updates), turn) = also(((front, e), updates), turn)?;
    let body = pair_of(alloc, turn, updates);
    let ((front, e), body) = also((front, e), body)?;
    let whole = while_of(alloc, e, body);
    let (front, whole) = also(front, whole)?;
    let all = push(front, whole)?;
    Ok(block_of(all))
}
