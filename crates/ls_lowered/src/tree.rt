// Trees over machine words.
//
// An int is its value modulo 2^32, a boolean is 0 or 1, and a reference is an address or 0. What a markable holds is
// `2 * reference + mark`. Local 0 of a method is `this`. After it come its parameters, its locals and its temporaries.
// Classes, fields and methods are numbered as in the checked tree.

use std::alloc::AllocError;

/// The operators on one word.
#[derive(Copy)]
pub enum UnaryOperator {
    Negate,
    Not,
    /// The reference of a pair.
    ReferenceOf,
    /// The mark of a pair.
    MarkOf,
}

impl Clone for UnaryOperator {
    fn clone(&self) -> Result<UnaryOperator, AllocError> {
        Ok(*self)
    }
}

/// The operators on two words.
#[derive(Copy)]
pub enum BinaryOperator {
    Add,
    Subtract,
    Multiply,
    Divide,
    Remainder,
    Less,
    LessEqual,
    Greater,
    GreaterEqual,
    Equal,
    NotEqual,
    /// A reference and a mark as a pair's word.
    Pack,
}

impl Clone for BinaryOperator {
    fn clone(&self) -> Result<BinaryOperator, AllocError> {
        Ok(*self)
    }
}

/// The operations of a lock.
#[derive(Copy)]
pub enum LockOperation {
    Lock,
    Unlock,
    TryLock,
    IsHeld,
    LockMonitor,
    UnlockMonitor,
}

impl Clone for LockOperation {
    fn clone(&self) -> Result<LockOperation, AllocError> {
        Ok(*self)
    }
}

/// An expression over words.
#[derive(Drop)]
#[cycle(expressions)]
pub enum Expression {
    Word(u64),
    Local(usize),
    Unary(UnaryOperator, Box<Expression>),
    Binary(BinaryOperator, Box<Expression>, Box<Expression>),
    And(Box<Expression>, Box<Expression>),
    Or(Box<Expression>, Box<Expression>),
    /// The first expression, then the second, whose word goes into the local. The word is that of the first.
    Hold(Box<Expression>, usize, Box<Expression>),
    /// The first expression, whose word goes into the local, then the second.
    Keep(usize, Box<Expression>, Box<Expression>),
    /// The first expression, then the second.
    After(Box<Expression>, Box<Expression>),
    /// A field of the object at an address.
    Field(Box<Expression>, usize),
    Item(Box<Expression>, Box<Expression>),
    /// Writes element 0 of an array.
    SetFirst(Box<Expression>, Box<Expression>),
    ReadPair(Box<Expression>),
    SetPair(Box<Expression>, Box<Expression>),
    /// The markable, the expected pair and the new one.
    SwapPair(Box<Expression>, Box<Expression>, Box<Expression>),
    /// The markable, the expected reference and the new mark.
    AttemptMark(Box<Expression>, Box<Expression>, Box<Expression>),
    /// An operation on the lock at an address, or on the monitor of the object there.
    OnLock(LockOperation, Box<Expression>),
    /// A method, on an object, with further arguments.
    Call(usize, Box<Expression>, Box<Expressions>),
    /// A class, its constructor, and the constructor's further arguments.
    MakeObject(usize, usize, Box<Expressions>),
    MakeLock,
    MakeMarkable(Box<Expression>),
    MakeArray(Box<Expression>),
}

/// Arguments, at most 127.
#[derive(Drop)]
#[cycle(expressions)]
pub enum Expressions {
    End,
    More(Box<Expression>, Box<Expressions>),
}

/// A leavable statement is a body and its exits. A leave in the body goes on at the exit of its number, counted from
/// 0. The number after that of the last exit is the end of the statement. Higher numbers, counted on from there, are
/// those of the leavable statement around it.
#[derive(Drop)]
#[cycle(statements)]
pub enum Statement {
    Block(Vec<Statement>),
    SetLocal(usize, Expression),
    SetField(Expression, usize, Expression),
    /// What is added to an int field of an object.
    AddField(Expression, usize, Expression),
    SetItem(Expression, Expression, Expression),
    Evaluate(Expression),
    If(Expression, Box<Statement>, Box<Statement>),
    While(Expression, Box<Statement>),
    Return(Expression),
    /// A try block and its finally block.
    Try(Box<Statement>, Box<Statement>),
    /// A throw of the first statement goes on at the second, with its kind in the local.
    Guarded(Box<Statement>, usize, Box<Statement>),
    /// Throws the kind in the local.
    Throw(usize),
    /// A body and its exits.
    Leavable(Box<Statement>, Vec<Statement>),
    Leave(usize),
}

/// A method or a constructor.
#[derive(Drop)]
pub struct Method {
    /// `this` and the parameters.
    pub arguments: usize,
    /// The further locals, with temporaries.
    pub locals: usize,
    pub body: Statement,
}

/// The methods and constructors of a file.
#[derive(Drop)]
pub struct File {
    pub methods: Vec<Method>,
}
