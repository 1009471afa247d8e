// Assignments: what may be on the left side.

ghost use Rattle.std.specs.Prelude.{◌≡◌};
ghost use Rattle.ls_checked.specs.Plain.{plain, plain_statement};
ghost use Rattle.ls_types_elaboration.specs.TypedStatements.{variable, unwrapped, assigned, assignment};
ghost use Rattle.ls_types_elaboration.specs.TypedExpressions.{typed};
ghost use Rattle.ls_types_elaboration.specs.Placed.{placed};
ghost use Rattle.ls_types_tables.specs.ByName.{known_of};
ghost use Rattle.ls_types_expressions.specs.Views.{locals_of, place_of, plain_variable};
ghost use Rattle.ls_types_elaboration.specs.Answers.{Gives, typed_of};

use crate::expressions::{fitting, typed};
use crate::places::span_of;
use crate::site::Site;
use ls_checked::tree::{Expression, Statement};
use ls_events::value::ValueType;
use ls_lexer::token::Span;
use ls_tree::tree::Expression as Parsed;
use ls_types_elaboration::rule::{Broken, CheckFault, Rule, broken_at};
use ls_types_elaboration::static_types::{Static, Typed};
use ls_types_elaboration::together::also;

/// A local, a field of an object, or an element of an array.
#[derive(Drop)]
pub enum Place {
    Slot(usize),
    Field(Expression, usize),
    Item(Expression, Expression),
}

/// A variable that may be assigned to.
#[derive(Drop)]
pub struct Variable {
    pub place: Place,
    pub value_type: ValueType,
}

fn variable_at(span: Span, x: Typed) -> Result<Variable, Broken>
    ensures { plain_variable result ≡ variable span (plain x.expression) x.of }
{
    let Static::Of(value_type) = x.of else {
        return Err(broken_at(Rule::NotAssignable, span));
    };
    match x.expression {
        Expression::Slot(0) => Err(broken_at(Rule::NotAssignable, span)),
        Expression::Slot(n) => Ok(Variable {
            place: Place::Slot(n),
            value_type,
        }),
        Expression::Field { target, field, .. } => {
            Ok(Variable {
                place: Place::Field(Box::into_inner(target), field),
                value_type,
            })
        }
        Expression::Item(array, index) => {
            let place = Place::Item(Box::into_inner(array), Box::into_inner(index));
            Ok(Variable { place, value_type })
        }
        _ => Err(broken_at(Rule::NotAssignable, span)),
    }
}

/// What is on a left side, without the parentheses round it. Refused only by a broken rule, or if memory runs out.
pub fn left_side(site: Site, target: &Parsed) -> Result<Typed, CheckFault>
    ensures { Gives typed_of result
        (typed (known_of site.entry.known) (locals_of site.entry) (unwrapped (placed target.now))) }
{
    match target {
        Parsed::Paren { inner, .. } => left_side(site, inner),
        _ => typed(site, target),
    }
}

fn assigned(place: Place, value: Expression) -> Statement
    ensures { plain_statement result ≡ assigned (place_of place) (plain value) }
{
    match place {
        Place::Slot(n) => Statement::SetSlot(n, value),
        Place::Field(target, field) => Statement::SetField {
            target,
            field,
            value,
        },
        Place::Item(array, index) => Statement::SetItem {
            array,
            index,
            value,
        },
    }
}

/// An assignment. Refused only by a broken rule, or if memory runs out.
pub fn assignment(site: Site, target: &Parsed, value: &Parsed) -> Result<Statement, CheckFault>
    ensures { Gives plain_statement result
        (assignment (known_of site.entry.known) (locals_of site.entry) (placed target.now) (placed value.now)) }
{
    let x = left_side(site, target)?;
    let to = variable_at(span_of(target), x)?;
    let v = fitting(site, to.value_type, value);
    let (to, v) = also(to, v)?;
    Ok(assigned(to.place, v))
}
