// Trees whose names are resolved.
//
// Slot 0 of a method is `this`. After it come its parameters, then one slot for each local that it declares, in text
// order. Classes, the fields of a class, and methods are numbered in text order. A class's default constructor comes
// after its own methods.

use ls_events::value::{Value, ValueType};
use std::alloc::AllocError;

/// The operators that evaluate both operands and then compute (JLS 15.17, 15.18, 15.20, 15.21).
#[derive(Copy)]
pub enum Operator {
    Add,
    Subtract,
    Multiply,
    Divide,
    Remainder,
    Less,
    LessEqual,
    Greater,
    GreaterEqual,
    Equal,
    NotEqual,
}

impl Clone for Operator {
    fn clone(&self) -> Result<Operator, AllocError> {
        Ok(*self)
    }
}

/// What a call runs: a method of the file, or an operation of a lock, of an object's monitor, or of a markable
/// reference. An operation of a monitor has the number of the object's class. An operation that answers what a
/// markable holds has the number of the class of that object.
#[derive(Copy)]
pub enum Called {
    Method(usize),
    LockIt,
    UnlockIt,
    TryIt,
    AskIt,
    HoldMonitor(usize),
    FreeMonitor(usize),
    GetReference(usize),
    IsMarked(usize),
    GetBoth(usize),
    SetBoth,
    CompareAndSet,
    Attempt,
}

impl Clone for Called {
    fn clone(&self) -> Result<Called, AllocError> {
        Ok(*self)
    }
}

/// An expression of the checked tree.
#[derive(Drop)]
#[cycle(expressions)]
pub enum Expression {
    Literal(Value),
    Slot(usize),
    /// A field of an object of a class.
    Field {
        target: Box<Expression>,
        class: usize,
        field: usize,
    },
    Item(Box<Expression>, Box<Expression>),
    Negate(Box<Expression>),
    Not(Box<Expression>),
    Binary(Operator, Box<Expression>, Box<Expression>),
    And(Box<Expression>, Box<Expression>),
    Or(Box<Expression>, Box<Expression>),
    Call(Box<Expression>, Called, Box<Expressions>),
    MakeObject(usize, Box<Expressions>),
    MakeLock,
    /// A markable that holds references to objects of a class.
    MakeMarkable(usize, Box<Expressions>),
    MakeArray(Box<Expression>),
}

/// Arguments, at most 127.
#[derive(Drop)]
#[cycle(expressions)]
pub enum Expressions {
    End,
    More(Box<Expression>, Box<Expressions>),
}

/// `Break` and `Continue` say to which loop they belong, counted outward: 0 is the innermost.
#[derive(Drop)]
#[cycle(statements)]
pub enum Statement {
    Block(Vec<Statement>),
    SetSlot(usize, Expression),
    SetField {
        target: Expression,
        field: usize,
        value: Expression,
    },
    /// What is added to an int field of an object. The target is evaluated once.
    AddField {
        target: Expression,
        field: usize,
        value: Expression,
    },
    SetItem {
        array: Expression,
        index: Expression,
        value: Expression,
    },
    Evaluate(Expression),
    If(Expression, Box<Statement>, Box<Statement>),
    While(Expression, Box<Statement>),
    Break(usize),
    Continue(usize),
    ReturnNothing,
    ReturnValue(Expression),
    Try(Box<Statement>, Box<Statement>),
}

/// A method or a constructor.
#[derive(Drop)]
pub struct Method {
    pub class: usize,
    /// How many parameters it has, without `this`.
    pub parameters: usize,
    /// The types of its slots: `this`, the parameters, the locals.
    pub slots: Vec<ValueType>,
    /// `None` for a void method and for a constructor.
    pub result: Option<ValueType>,
    pub body: Statement,
}

/// A class: the types of its fields, and the number of its constructor.
#[derive(Drop)]
pub struct Class {
    pub fields: Vec<ValueType>,
    pub constructor: usize,
}

/// A checked file: its classes and its methods, each by number.
#[derive(Drop)]
pub struct File {
    pub classes: Vec<Class>,
    pub methods: Vec<Method>,
}
