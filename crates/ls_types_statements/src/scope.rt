// Blocks as they are checked: their statements, and the locals in scope.

ghost use Rattle.std.specs.Prelude.{◌≡◌, ◌<◌, ◌≤◌, OnOk, length, option_map};
ghost use Rattle.ls_types_elaboration.specs.Elaborated.{Elaborated};
ghost use Rattle.ls_checked.specs.CheckedTree.{Literal as literal, SetSlot as set_slot};
ghost use Rattle.ls_types_elaboration.specs.Answers.{Gives, unless_refused};
ghost use Rattle.ls_types_elaboration.specs.Scopes.{start_of, with_variable, with_statement, initialised, declared};
ghost use Rattle.ls_types_elaboration.specs.Scopes.{declaration, may_declare, Scope as the_scope, Slots as the_slots};
ghost use Rattle.ls_types_elaboration.specs.Scopes.{with_named, with_unnamed};
ghost use Rattle.ls_types_elaboration.specs.PlacedStatements.{placed_declarator, placed_declaration};
ghost use Rattle.ls_types_elaboration.specs.Placed.{placed, placed_name};
ghost use Rattle.ls_types_tables.specs.ByName.{known_of};
ghost use Rattle.ls_types_statements.specs.ScopeViews.{body_of, slots_of, scope_of};

use ls_checked::tree::{Expression, Statement};
use ls_events::value::{Value, ValueType};
use ls_lexer::token::Span;
use ls_tree::tree::{Declaration, Declarator, Expression as Parsed, Name};
use ls_types_elaboration::known::{Local, MOST_SLOTS, local_named};
use ls_types_elaboration::rule::{Broken, CheckFault, Rule, broken_at};
use ls_types_expressions::expressions::fitting;
use ls_types_expressions::site::Site;
use ls_types_tables::known::Known;
use ls_types_tables::type_names::type_of;
use std::alloc::{AllocError, Global};

/// What is known in a body: the allocator, the declarations of the file, what the method answers, and the place of its
/// name.
#[derive(Copy)]
pub struct Context<'k> {
    pub alloc: Global,
    pub known: Known<'k>,
    pub result: Option<ValueType>,
    pub span: Span,
}

impl<'k> Clone for Context<'k> {
    fn clone(&self) -> Result<Context<'k>, AllocError> {
        Ok(*self)
    }
}

/// The statements of a block so far, and the locals in scope after them.
#[derive(Drop)]
pub struct Scope<'t> {
    pub statements: Vec<Statement>,
    pub locals: Vec<Local<'t>>,
}

/// The types of a method's slots so far, and how many slots have names or are `this`. The other slots hold objects
/// whose monitors `synchronized` locks.
#[derive(Drop)]
pub struct Slots {
    pub types: Vec<ValueType>,
    pub named: usize,
}

// One more slot with a name.
fn with_named(slots: &mut Slots, t: ValueType) -> Result<(), AllocError>
    requires { slots.old.named < 128 }
    ensures grown { OnOk result (slots_of slots.new ≡ with_named (slots_of slots.old) t) }
    ensures low { OnOk result (slots.new.named ≤ 128) }
{
    slots.types.push(t)?;
    slots.named += 1;
    Ok(())
}

/// One more slot that no name finds. The only refusal is that memory ran out.
pub fn with_unnamed(slots: &mut Slots, t: ValueType) -> Result<(), AllocError>
    ensures grown { OnOk result (slots_of slots.new ≡ with_unnamed (slots_of slots.old) t) }
    ensures same { OnOk result (slots.new.named ≡ slots.old.named) }
{
    slots.types.push(t)?;
    Ok(())
}

/// The start value of a local.
pub fn start_of(t: ValueType) -> Value
    ensures { result ≡ start_of t }
{
    match t {
        ValueType::Int => Value::Int(0),
        ValueType::Boolean => Value::Boolean(false),
        _ => Value::Reference(0),
    }
}

/// One more variable in scope, in the next slot. The only refusal is that memory ran out.
pub fn with_variable<'t>(
    scope: &mut Scope<'t>,
    slots: &mut Slots,
    name: &'t str,
    t: ValueType,
) -> Result<(), AllocError>
    requires { slots.old.named < 128 }
    ensures grown { OnOk result (scope_of scope.new (slots_of slots.new) ≡
        with_variable (scope_of scope.old (slots_of slots.old)) name.entry.now t) }
    ensures low { OnOk result (slots.new.named ≤ 128) }
{
    scope.locals.push(Local {
        name,
        value_type: t,
        slot: slots.types.len(),
    })?;
    with_named(slots, t)?;
    Ok(())
}

// One more variable in scope, and the statement that gives it its start value.
fn started<'t>(
    scope: &mut Scope<'t>,
    slots: &mut Slots,
    name: &'t str,
    t: ValueType,
) -> Result<(), AllocError>
    requires { slots.old.named < 128 }
    ensures grown { OnOk result (scope_of scope.new (slots_of slots.new) ≡
        with_statement (with_variable (scope_of scope.old (slots_of slots.old)) name.entry.now t)
        (set_slot (length slots.old.types.items) (literal (start_of t)))) }
    ensures low { OnOk result (slots.new.named ≤ 128) }
{
    let slot = slots.types.len();
    with_variable(scope, slots, name, t)?;
    let start = Expression::Literal(start_of(t));
    scope.statements.push(Statement::SetSlot(slot, start))?;
    Ok(())
}

/// A name may be declared if no variable in scope has it, and if there is room. Else the rule that it breaks.
pub fn may_declare(method: Span, scope: &Scope, slots: &Slots, n: &Name) -> Result<(), Broken>
    ensures may { (go : Elaborated (the_scope)) →
        may_declare method (scope_of scope.now (slots_of slots.now)) (placed_name n.now) go ≡ unless_refused result go }
    ensures room { OnOk result (slots.now.named < 128) }
{
    if local_named(&scope.locals, n.text.as_str()).is_some() {
        return Err(broken_at(Rule::TwiceDeclared, n.span));
    }
    if slots.named >= MOST_SLOTS {
        return Err(broken_at(Rule::Limit, method));
    }
    Ok(())
}

// The initialiser, if there is one, as an assignment.
fn initialised(
    context: Context,
    t: ValueType,
    slot: usize,
    scope: &mut Scope,
    value: &Option<Parsed>,
) -> Result<(), CheckFault>
    ensures { (slots : the_slots) →
        Gives (λ _. scope_of scope.new slots) result
        (initialised (known_of context.entry.known) t slot (scope_of scope.old slots) (option_map placed value.now)) }
{
    match value {
        None => Ok(()),
        Some(e) => {
            let site = Site {
                alloc: context.alloc,
                known: context.known,
                locals: &scope.locals,
            };
            let v = fitting(site, t, e)?;
            scope.statements.push(Statement::SetSlot(slot, v))?;
            Ok(())
        }
    }
}

// A local, from its own initialiser on.
fn declared<'t>(
    context: Context,
    t: ValueType,
    scope: &mut Scope<'t>,
    slots: &mut Slots,
    d: &'t Declarator,
) -> Result<(), CheckFault>
    requires { slots.old.named ≤ 128 }
    ensures found { Gives (λ _. scope_of scope.new (slots_of slots.new)) result
        (declared (body_of context.entry) t (scope_of scope.old (slots_of slots.old)) (placed_declarator d.entry.now)) }
    ensures low { OnOk result (slots.new.named ≤ 128) }
{
    may_declare(context.span, scope, slots, &d.name)?;
    let slot = slots.types.len();
    started(scope, slots, d.name.text.as_str(), t)?;
    initialised(context, t, slot, scope, &d.value)
}

/// A declaration of locals. Refused only by a broken rule, or if memory runs out.
pub fn declaration<'t>(
    context: Context,
    scope: &mut Scope<'t>,
    slots: &mut Slots,
    d: &'t Declaration,
) -> Result<(), CheckFault>
    requires { slots.old.named ≤ 128 }
    ensures found { Gives (λ _. scope_of scope.new (slots_of slots.new)) result
        (declaration (body_of context.entry) (scope_of scope.old (slots_of slots.old))
        (placed_declaration d.entry.now)) }
    ensures low { OnOk result (slots.new.named ≤ 128) }
{
    let t = type_of(context.known.names, &d.type_name)?;
    declared(context, t, scope, slots, &d.first)?;
    for d in &d.more {
        declared(context, t, scope, slots, d)?;
    }
    Ok(())
}
