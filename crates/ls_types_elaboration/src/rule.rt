// The typing rules, and why there is no checked form.

ghost use Rattle.std.specs.Prelude.{◌≡◌};
ghost use Rattle.ls_types_elaboration.specs.declared.rule.CheckFault.TheVariants as faults;

use crate::mismatch::{Counts, Mismatch};
use ls_lexer::token::Span;
use std::alloc::{AllocError, AllocFailed};
use thiserror::Error;

/// A typing rule of the language, named for what breaks it.
#[derive(Copy, Debug, PartialEq, Eq, Error)]
pub enum Rule {
    #[error("a name that is no local in scope, field or method there")]
    UnknownName,
    #[error("a name that is declared twice")]
    TwiceDeclared,
    #[error("a type or made class that isn't there, or a constructor that isn't named as its class")]
    UnknownType,
    #[error("a value of another type than is wanted")]
    WrongType(Mismatch),
    #[error("another number of arguments than is wanted")]
    WrongArguments(Counts),
    #[error("a left side that is no local, field or element")]
    NotAssignable,
    #[error("a jump outside of any loop")]
    NoLoop,
    #[error("a label of no enclosing loop")]
    UnknownLabel,
    #[error("a method that answers a value and can complete without one")]
    MissingReturn,
    #[error("a class with the name of one that is there already")]
    ReservedClass,
    #[error("more classes, fields, methods or locals than are allowed")]
    Limit,
}

impl Clone for Rule {
    fn clone(&self) -> Result<Rule, AllocError> {
        Ok(*self)
    }
}

/// A broken rule, and the name, expression or statement where it is broken.
#[derive(Copy, Debug, PartialEq, Eq, Error)]
#[error("{rule}")]
pub struct Broken {
    pub rule: Rule,
    pub span: Span,
}

impl Clone for Broken {
    fn clone(&self) -> Result<Broken, AllocError> {
        Ok(*self)
    }
}

/// Why a class text's tree is refused: memory ran out, or a rule is broken.
#[derive(Copy, Debug, PartialEq, Eq, Error)]
pub enum CheckFault {
    #[error("memory ran out")]
    Memory,
    #[error(transparent)]
    Broken(Broken),
}

impl Clone for CheckFault {
    fn clone(&self) -> Result<CheckFault, AllocError> {
        Ok(*self)
    }
}

impl From<AllocError> for CheckFault {
    ghost from_gives = { λ _ e. e ≡ faults.Memory };

    fn from(_: AllocError) -> CheckFault {
        CheckFault::Memory
    }
}

impl<T: Drop> From<AllocFailed<T>> for CheckFault {
    ghost from_gives = { λ _ e. e ≡ faults.Memory };

    fn from(_: AllocFailed<T>) -> CheckFault {
        CheckFault::Memory
    }
}

impl From<Broken> for CheckFault {
    ghost from_gives = { λ b e. e ≡ faults.Broken b };

    fn from(broken: Broken) -> CheckFault {
        CheckFault::Broken(broken)
    }
}

/// A rule that is broken at a span.
pub fn broken_at(rule: Rule, span: Span) -> Broken
    ensures { result ≡ record { rule = rule; span = span } }
{
    Broken { rule, span }
}

/// The fault that a rule is broken at a span.
pub fn refused_at(rule: Rule, span: Span) -> CheckFault
    ensures { result ≡ faults.Broken (record { rule = rule; span = span }) }
{
    CheckFault::Broken(broken_at(rule, span))
}
