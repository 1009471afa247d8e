// Methods, constructors and field initialisers.

ghost use Rattle.std.specs.Prelude.{◌≡◌, ◌≤◌, ◌&&◌, ◌∷◌, [], IfOk, Ok, OnOk, is_some, map, option_map};
ghost use Rattle.ls_events.specs.declared.value.ValueType.TheVariants.{Class as class_type};
ghost use Rattle.ls_checked.specs.CheckedTree.{Method as checked_method};
ghost use Rattle.ls_types_judgement.specs.Completion.{all_complete};
ghost use Rattle.ls_types_elaboration.specs.declared.rule.Rule.TheVariants.{MissingReturn};
ghost use Rattle.ls_types_elaboration.specs.Answers.{Gives, Leads};
ghost use Rattle.ls_types_elaboration.specs.TypedStatements.{sequence};
ghost use Rattle.ls_checked.specs.Plain.{plain_statement, plain_method};
ghost use Rattle.ls_types_elaboration.specs.Elaborated.{Elaborated, each, unless_broken};
ghost use Rattle.ls_types_elaboration.specs.TypedMethods.{parameter, declarator_set, member_set, initialisers};
ghost use Rattle.ls_types_elaboration.specs.TypedMethods.{all_items, in_monitor, method, written_method};
ghost use Rattle.ls_types_elaboration.specs.TypedMethods.{written_constructor, one_method, has_constructor};
ghost use Rattle.ls_types_elaboration.specs.TypedMethods.{default_constructor, class_methods};
ghost use Rattle.ls_types_elaboration.specs.Scopes.{Slots as the_slots};
ghost use Rattle.ls_types_elaboration.specs.Trees.{some_in};
ghost use Rattle.ls_types_elaboration.specs.Placed.{placed_name};
ghost use Rattle.ls_types_elaboration.specs.PlacedStatements.{placed_parameter, placed_declarator, placed_member};
ghost use Rattle.ls_types_elaboration.specs.PlacedStatements.{placed_items, placed_type};
ghost use Rattle.ls_types_tables.specs.ByName.{known_of};
ghost use Rattle.ls_types_statements.specs.ScopeViews.{body_of, slots_of, scope_of};

use crate::completion::all_complete;
use ls_checked::tree::{Expression, Method, Statement};
use ls_events::value::ValueType;
use ls_together::push;
use ls_tree::tree::{
    BlockItem, Constructor, Declarator, Member, Method as MethodText, Modifier, Name, Parameter,
};
use ls_types_elaboration::rule::{CheckFault, Rule, refused_at};
use ls_types_elaboration::together::also;
use ls_types_expressions::expressions::fitting;
use ls_types_expressions::site::Site;
use ls_types_statements::forms::{block_of, synchronized_of};
use ls_types_statements::loops::Round;
use ls_types_statements::scope::{Context, Scope, Slots, may_declare, with_unnamed, with_variable};
use ls_types_statements::statements::all_items;
use ls_types_tables::known::{Known, field_of};
use ls_types_tables::type_names::{result_of, type_of};
use std::alloc::{AllocError, Global};
use std::mem;

// One more parameter in scope.
fn parameter<'t>(
    context: Context,
    scope: &mut Scope<'t>,
    slots: &mut Slots,
    p: &'t Parameter,
) -> Result<(), CheckFault>
    requires { slots.old.named ≤ 128 }
    ensures found { Gives (λ _. scope_of scope.new (slots_of slots.new)) result
        (parameter (body_of context.entry) (scope_of scope.old (slots_of slots.old)) (placed_parameter p.entry.now)) }
    ensures low { OnOk result (slots.new.named ≤ 128) }
{
    may_declare(context.span, scope, slots, &p.name)?;
    let t = type_of(context.known.names, &p.type_name)?;
    with_variable(scope, slots, p.name.text.as_str(), t)?;
    Ok(())
}

fn parameters<'t>(
    context: Context,
    scope: &mut Scope<'t>,
    slots: &mut Slots,
    ps: &'t [Parameter],
) -> Result<(), CheckFault>
    requires { slots.old.named ≤ 128 }
    ensures found { Gives (λ _. scope_of scope.new (slots_of slots.new)) result
        (each (parameter (body_of context.entry)) (scope_of scope.old (slots_of slots.old))
        (map placed_parameter ps.entry.now)) }
    ensures low { OnOk result (slots.new.named ≤ 128) }
{
    for p in ps {
        parameter(context, scope, slots, p)?;
    }
    Ok(())
}

// The initialiser of a field, if it has one, after those before it.
fn declarator_set(
    alloc: Global,
    known: Known,
    front: Vec<Statement>,
    d: &Declarator,
) -> Result<Vec<Statement>, CheckFault>
    ensures { Gives (λ v. map plain_statement v.items) result
        (declarator_set (known_of known.entry) (map plain_statement front.items) (placed_declarator d.now)) }
{
    match (field_of(known, known.own, d.name.text.as_str()), &d.value) {
        (Some(f), Some(e)) => {
            let site = Site {
                alloc,
                known,
                locals: &[],
            };
            let value = fitting(site, f.value_type, e);
            let (front, value) = also(front, value)?;
            let s = Statement::SetField {
                target: Expression::Slot(0),
                field: f.number,
                value,
            };
            Ok(push(front, s)?)
        }
        (None, _) => Ok(front),
        (Some(_), None) => Ok(front),
    }
}

fn member_set(
    alloc: Global,
    known: Known,
    before: Vec<Statement>,
    m: &Member,
) -> Result<Vec<Statement>, CheckFault>
    ensures { Gives (λ v. map plain_statement v.items) result
        (member_set (known_of known.entry) (map plain_statement before.items) (placed_member m.now)) }
{
    match m {
        Member::Field(d) => {
            let mut front = declarator_set(alloc, known, before, &d.first)?;
            for d in &d.more {
                front = declarator_set(alloc, known, front, d)?;
            }
            Ok(front)
        }
        Member::Method(_) => Ok(before),
        Member::Constructor(_) => Ok(before),
    }
}

// The initialisers of a class's fields, as assignments in text order.
fn initialisers(
    alloc: Global,
    known: Known,
    members: &[Member],
) -> Result<Vec<Statement>, CheckFault>
    ensures { Gives (λ v. map plain_statement v.items) result
        (initialisers (known_of known.entry) (map placed_member members.now)) }
{
    let mut front = Vec::new(alloc);
    for m in members {
        front = member_set(alloc, known, front, m)?;
    }
    Ok(front)
}

// The slot of `this`.
fn first_slot(alloc: Global, known: Known) -> Result<Slots, AllocError>
    ensures { IfOk result (λ s. (s.types.items ≡ class_type known.entry.own ∷ []) × (s.named ≡ 1)) }
{
    let mut types = Vec::new(alloc);
    types.push(ValueType::Class(known.own))?;
    Ok(Slots { types, named: 1 })
}

// The statement that locks the monitor of `this`, around the statements of the scope.
fn in_monitor(alloc: Global, slot: usize, class: usize, scope: &mut Scope) -> Result<(), CheckFault>
    ensures { (slots : the_slots) →
        Gives (λ _. scope_of scope.new slots) result (Ok (in_monitor slot class (scope_of scope.old slots))) }
{
    let inner = mem::replace(&mut scope.statements, Vec::new(alloc));
    let this = Expression::Slot(0);
    let s = synchronized_of(alloc, slot, class, this, block_of(inner))?;
    scope.statements.push(s)?;
    Ok(())
}

// The statements of a body. If the method is synchronized, they are in the monitor of `this`.
fn body_items<'t>(
    context: Context,
    is_synchronized: bool,
    scope: &mut Scope<'t>,
    slots: &mut Slots,
    items: &'t [BlockItem],
) -> Result<(), CheckFault>
    requires { slots.old.named ≤ 128 }
    ensures found { Gives (λ _. scope_of scope.new (slots_of slots.new)) result
        (all_items (body_of context.entry) is_synchronized (scope_of scope.old (slots_of slots.old))
        (placed_items items.entry.now)) }
{
    let round = Round {
        context,
        loops: &[],
    };
    if !is_synchronized {
        return all_items(round, scope, slots, items);
    }
    let slot = slots.types.len();
    let class = context.known.own;
    with_unnamed(slots, ValueType::Class(class))?;
    all_items(round, scope, slots, items)?;
    in_monitor(context.alloc, slot, class, scope)
}

// Whether a method that answers a value can't complete without a value.
fn answered(context: Context, body: &[Statement]) -> Result<(), CheckFault>
    ensures { (go : Elaborated checked_method) →
        Leads (λ u. u) (λ u. go) result
        (unless_broken (is_some context.entry.result && all_complete (sequence (map plain_statement body.now)))
        MissingReturn context.entry.span go) }
{
    if context.result.is_some() && all_complete(context.alloc, body)? {
        return Err(refused_at(Rule::MissingReturn, context.span));
    }
    Ok(())
}

// A method or constructor of this name. Its body begins with the statements of `front`.
fn method<'t>(
    context: Context,
    is_synchronized: bool,
    name: &Name,
    ps: &'t [Parameter],
    front: Vec<Statement>,
    items: &'t [BlockItem],
) -> Result<Method, CheckFault>
    requires { context.span ≡ name.now.span }
    ensures { Gives plain_method result
        (method (known_of context.entry.known) is_synchronized context.entry.result (placed_name name.now)
        (map placed_parameter ps.entry.now) (map plain_statement front.items) (placed_items items.entry.now)) }
{
    let alloc = context.alloc;
    let (front, mut slots) = also(front, first_slot(alloc, context.known))?;
    let mut scope = Scope {
        statements: front,
        locals: Vec::new(alloc),
    };
    parameters(context, &mut scope, &mut slots, ps)?;
    body_items(context, is_synchronized, &mut scope, &mut slots, items)?;
    answered(context, &scope.statements)?;
    Ok(Method {
        class: context.known.own,
        parameters: ps.len(),
        slots: slots.types,
        result: context.result,
        body: block_of(scope.statements),
    })
}

// Whether a method locks its object's monitor.
fn is_synchronized(locked: &[Vec<Modifier>]) -> bool
    ensures { result ≡ some_in locked.now }
{
    match locked {
        [] => false,
        _ => true,
    }
}

fn written_method(alloc: Global, known: Known, m: &MethodText) -> Result<Method, CheckFault>
    ensures { Gives plain_method result
        (written_method (known_of known.entry) (some_in m.now.locked.items) (option_map placed_type m.now.result)
        (placed_name m.now.name) (map placed_parameter m.now.parameters.items) (placed_items m.now.body.items.items)) }
{
    let context = Context {
        alloc,
        known,
        result: result_of(known.names, &m.result)?,
        span: m.name.span,
    };
    let front = Vec::new(alloc);
    let locks = is_synchronized(&m.locked);
    method(context, locks, &m.name, &m.parameters, front, &m.body.items)
}

fn written_constructor(
    alloc: Global,
    known: Known,
    members: &[Member],
    c: &Constructor,
) -> Result<Method, CheckFault>
    ensures { Gives plain_method result
        (written_constructor (known_of known.entry) (map placed_member members.now) (placed_name c.now.name)
        (map placed_parameter c.now.parameters.items) (placed_items c.now.body.items.items)) }
{
    let context = Context {
        alloc,
        known,
        result: None,
        span: c.name.span,
    };
    let front = initialisers(alloc, known, members)?;
    method(context, false, &c.name, &c.parameters, front, &c.body.items)
}

// A method or constructor, after those before it.
fn one_method(
    alloc: Global,
    known: Known,
    members: &[Member],
    before: Vec<Method>,
    m: &Member,
) -> Result<Vec<Method>, CheckFault>
    ensures { Gives (λ v. map plain_method v.items) result
        (one_method (known_of known.entry) (map placed_member members.now) (map plain_method before.items)
        (placed_member m.now)) }
{
    let made = match m {
        Member::Field(_) => return Ok(before),
        Member::Method(m) => written_method(alloc, known, m),
        Member::Constructor(c) => written_constructor(alloc, known, members, c),
    };
    let (methods, made) = also(before, made)?;
    Ok(push(methods, made)?)
}

fn has_constructor(members: &[Member]) -> bool
    ensures { result ≡ has_constructor (map placed_member members.now) }
{
    for m in members {
        if let Member::Constructor(_) = m {
            return true;
        }
    }
    false
}

// The constructor of a class in which none is written.
fn default_constructor(
    alloc: Global,
    known: Known,
    members: &[Member],
    before: Vec<Method>,
) -> Result<Vec<Method>, CheckFault>
    ensures { Gives (λ v. map plain_method v.items) result
        (default_constructor (known_of known.entry) (map placed_member members.now) (map plain_method before.items)) }
{
    if has_constructor(members) {
        return Ok(before);
    }
    let front = initialisers(alloc, known, members);
    let (methods, front) = also(before, front)?;
    let ((methods, front), slots) = also((methods, front), first_slot(alloc, known))?;
    let made = Method {
        class: known.own,
        parameters: 0,
        slots: slots.types,
        result: None,
        body: block_of(front),
    };
    Ok(push(methods, made)?)
}

/// The methods and constructors of a class, in text order, after those of the classes before it. Refused only by a
/// broken rule, or if memory runs out.
pub fn class_methods(
    alloc: Global,
    known: Known,
    before: Vec<Method>,
    members: &[Member],
) -> Result<Vec<Method>, CheckFault>
    ensures { Gives (λ v. map plain_method v.items) result
        (class_methods (known_of known.entry) (map plain_method before.items) (map placed_member members.now)) }
{
    let mut methods = before;
    for m in members {
        methods = one_method(alloc, known, members, methods, m)?;
    }
    default_constructor(alloc, known, members, methods)
}
