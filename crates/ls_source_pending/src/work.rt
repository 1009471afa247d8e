// What is left to do of expressions and statements.

use ls_checked::tree::{Called, Expression, Expressions, Operator, Statement};
use ls_events::action::Action;
use ls_events::value::{Value, ValueType};
use ls_meaning::completion::Completion;
use ls_meaning::sort::Sort;
use std::alloc::AllocError;

/// The use of arguments: a call on an object, the constructor of a new object, or a new markable.
#[derive(Copy)]
pub enum Purpose {
    Call(Called, Value),
    Make(usize, Value),
    Mark(usize),
}

impl Clone for Purpose {
    fn clone(&self) -> Result<Purpose, AllocError> {
        Ok(*self)
    }
}

/// The rest of an expression, which waits for a value.
#[derive(Copy)]
pub enum Operand<'a> {
    Field(usize, usize),
    Item(&'a Expression),
    Index(Value),
    Negate,
    Not,
    Length,
    Left(Operator, &'a Expression),
    Right(Operator, Value),
    And(&'a Expression),
    Or(&'a Expression),
    Target(Called, &'a Expressions),
    Made(usize, &'a Expressions),
    Constructor(Value),
    Reference,
    Mark,
    Both(u64),
    Written(Value),
}

impl<'a> Clone for Operand<'a> {
    fn clone(&self) -> Result<Operand<'a>, AllocError> {
        Ok(*self)
    }
}

/// The rest of a statement, which waits for a value.
#[derive(Copy)]
pub enum Waiting<'a> {
    Slot(usize),
    Target(usize, &'a Expression),
    Field(Value, usize),
    /// What is added to a field. First its object has a value, then the field, then the addend.
    Counter(usize, &'a Expression),
    Addend(Value, usize, &'a Expression),
    Sum(Value, usize, Value),
    Array(&'a Expression, &'a Expression),
    Index(Value, &'a Expression),
    Item(Value, Value),
    Nothing,
    If(&'a Statement, &'a Statement),
    Test(&'a Expression, &'a Statement),
    Return,
}

impl<'a> Clone for Waiting<'a> {
    fn clone(&self) -> Result<Waiting<'a>, AllocError> {
        Ok(*self)
    }
}

/// The rest of a statement, which waits for the end of a part.
#[derive(Copy)]
pub enum Ending<'a> {
    Sequence(&'a [Statement]),
    Body(&'a Expression, &'a Statement),
    Try(&'a Statement),
    Finally(Completion<Value>),
}

impl<'a> Clone for Ending<'a> {
    fn clone(&self) -> Result<Ending<'a>, AllocError> {
        Ok(*self)
    }
}

/// One frame. An argument comes after those before it. If a body is left, its caller has the locals that it had
/// before.
#[derive(Drop)]
pub enum Frame<'a> {
    Operand(Operand<'a>),
    Argument(Purpose, Vec<Value>, &'a Expressions),
    Waiting(Waiting<'a>),
    Ending(Ending<'a>),
    Body(Option<ValueType>, Vec<Value>, u64),
}

/// What is done now. The last three ask for something.
#[derive(Drop)]
pub enum Control<'a> {
    Evaluates(&'a Expression),
    Argues(Purpose, Vec<Value>, &'a Expressions),
    Invokes(usize, Value, Vec<Value>),
    Opens(usize, Value, Vec<Value>),
    Executes(&'a Statement),
    Loops(&'a Expression, &'a Statement),
    Gives(Value),
    Ends(Completion<Value>),
    Asks(Action<Value>, Sort),
    Enters(usize, Value, Vec<Value>),
    Turns(&'a Expression, &'a Statement),
}
