// Statements (JLS 14).

use crate::expressions::Expression;
use crate::names::{Modifier, Name, Span};
use crate::types::Type;

/// A declared name (JLS 8.3, 14.4): so many `[]` after it, and the value that it begins with, if it has one.
#[derive(Drop)]
pub struct Declarator {
    pub name: Name,
    pub brackets: usize,
    pub value: Option<Expression>,
}

/// Fields (JLS 8.3) or locals (JLS 14.4) of one type. There is at least one declarator.
#[derive(Drop)]
pub struct Declaration {
    pub modifiers: Vec<Modifier>,
    pub type_name: Type,
    pub declarators: Vec<Declarator>,
    pub span: Span,
}

/// What a `for` begins with (JLS 14.14.1): locals, or expressions, or nothing.
#[derive(Drop)]
pub enum Opening {
    Locals(Declaration),
    Expressions(Vec<Expression>),
}

/// A block (JLS 14.2).
#[derive(Drop)]
#[cycle(statements)]
pub struct Block {
    pub statements: Vec<Statement>,
    pub span: Span,
}

/// A statement and its place.
#[derive(Drop)]
#[cycle(statements)]
pub struct Statement {
    pub kind: StatementKind,
    pub span: Span,
}

/// What a statement is. Local classes (JLS 14.3) aren't there.
#[derive(Drop)]
#[cycle(statements)]
pub enum StatementKind {
    Block(Block),
    Empty,
    Locals(Declaration),
    Expression(Expression),
    Labeled {
        label: Name,
        body: Box<Statement>,
    },
    If {
        condition: Expression,
        then: Box<Statement>,
        otherwise: Option<Box<Statement>>,
    },
    While {
        condition: Expression,
        body: Box<Statement>,
    },
    DoWhile {
        body: Box<Statement>,
        condition: Expression,
    },
    For {
        opening: Opening,
        condition: Option<Expression>,
        updates: Vec<Expression>,
        body: Box<Statement>,
    },
    ForEach {
        item: Local,
        items: Expression,
        body: Box<Statement>,
    },
    Switch {
        subject: Expression,
        groups: Vec<SwitchGroup>,
    },
    Break(Option<Name>),
    Continue(Option<Name>),
    Return(Option<Expression>),
    Throw(Expression),
    Synchronized {
        target: Expression,
        body: Block,
    },
    Try {
        body: Block,
        catches: Vec<Catch>,
        finally: Option<Block>,
    },
    Assert {
        condition: Expression,
        message: Option<Expression>,
    },
}

/// The local of a `for` over items (JLS 14.14.2).
#[derive(Drop)]
pub struct Local {
    pub modifiers: Vec<Modifier>,
    pub type_name: Type,
    pub name: Name,
}

/// Labels of a `switch`, and the statements after them (JLS 14.11). No value is `default`.
#[derive(Drop)]
#[cycle(statements)]
pub struct SwitchGroup {
    pub labels: Vec<Option<Expression>>,
    pub statements: Vec<Statement>,
    pub span: Span,
}

/// A `catch` with its block (JLS 14.20). There is at least one type.
#[derive(Drop)]
#[cycle(statements)]
pub struct Catch {
    pub modifiers: Vec<Modifier>,
    pub types: Vec<Type>,
    pub name: Name,
    pub body: Block,
    pub span: Span,
}
