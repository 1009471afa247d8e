// The parsed trees.

ghost use Rattle.std.specs.Prelude.{◌≡◌, option_map};
ghost use Rattle.ls_tree.specs.WellFormed.{WellFormedFile};
ghost use Rattle.ls_tree.specs.Views.{file_of};
ghost use Rattle.ls_tree.specs.PlacedTrees.{span_of};
ghost use Rattle.ls_tree.specs.Placed.{placed};

use ls_lexer::token::Span;
use std::alloc::AllocError;

/// An identifier (JLS 3.8) and its span.
#[derive(Drop)]
pub struct Name {
    pub text: String,
    pub span: Span,
}

/// A class text as a tree (JLS 7.3): the package, the imports and the classes. Only `parse` makes one. So the tree is
/// one of the grammar, and no body and no initialiser is over the greatest height.
#[derive(Drop)]
pub struct ClassFile {
    pub package: Option<Dotted>,
    pub imports: Vec<Import>,
    pub classes: Vec<Class>,
    pub ghost formed: { ∥ WellFormedFile (file_of «package» imports.items classes.items) ∥₁ },
}

impl ClassFile {
    /// The package that the file belongs to, if it names one.
    pub fn package(&self) -> Option<&Dotted>
        ensures { option_map (λ d. d.now) result ≡ self.now.«package» }
    {
        self.package.as_ref()
    }

    /// The imports in text order.
    pub fn imports(&self) -> &[Import]
        ensures { result.now ≡ self.now.imports.items }
    {
        &self.imports
    }

    /// The classes in text order.
    pub fn classes(&self) -> &[Class]
        ensures { result.now ≡ self.now.classes.items }
    {
        &self.classes
    }

    /// The tree of a package, imports and classes.
    pub fn new(package: Option<Dotted>, imports: Vec<Import>, classes: Vec<Class>) -> ClassFile
        requires { WellFormedFile (file_of «package» imports.items classes.items) }
        ensures { (result.«package» ≡ «package») × (result.imports ≡ imports) × (result.classes ≡ classes) }
    {
        ClassFile {
            package,
            imports,
            classes,
        }
    }
}

/// `first.more.more`: the name of a package (JLS 7.4.1), or the path of an import.
#[derive(Drop)]
pub struct Dotted {
    pub first: Name,
    pub more: Vec<Name>,
}

/// An import (JLS 7.5): of one type, or of all types of a package (`all`, spelled `.*`).
#[derive(Drop)]
pub struct Import {
    pub path: Dotted,
    pub all: bool,
}

/// A class (JLS 8.1).
#[derive(Drop)]
pub struct Class {
    pub modifiers: Vec<Modifier>,
    pub name: Name,
    pub members: Vec<Member>,
}

/// A modifier (JLS 8.1.1, 8.3.1, 8.4.3) or an annotation without arguments (JLS 9.7.2).
#[derive(Drop)]
pub enum Modifier {
    Public,
    Protected,
    Private,
    Final,
    Volatile,
    Annotation(Name),
}

/// A type (JLS 4.1): `Markable` is `AtomicMarkableReference` of the class.
#[derive(Drop)]
pub enum Type {
    Int,
    Boolean,
    BooleanArray,
    Class(Name),
    Markable(Name),
}

/// A member of a class (JLS 8.1.6).
#[derive(Drop)]
pub enum Member {
    Field(Declaration),
    Method(Method),
    Constructor(Constructor),
}

/// A method (JLS 8.4). `locked` has, for each `synchronized` among its modifiers (JLS 8.4.3.6), the modifiers after
/// that word.
#[derive(Drop)]
pub struct Method {
    pub modifiers: Vec<Modifier>,
    pub locked: Vec<Vec<Modifier>>,
    // `None` is `void`.
    pub result: Option<Type>,
    pub name: Name,
    pub parameters: Vec<Parameter>,
    pub body: Block,
}

/// A constructor (JLS 8.8).
#[derive(Drop)]
pub struct Constructor {
    pub modifiers: Vec<Modifier>,
    pub name: Name,
    pub parameters: Vec<Parameter>,
    pub body: Block,
}

/// A parameter (JLS 8.4.1).
#[derive(Drop)]
pub struct Parameter {
    pub modifiers: Vec<Modifier>,
    pub type_name: Type,
    pub name: Name,
}

/// Fields (JLS 8.3) or locals (JLS 14.4) of one type. There is at least one declarator.
#[derive(Drop)]
pub struct Declaration {
    pub modifiers: Vec<Modifier>,
    pub type_name: Type,
    pub first: Declarator,
    pub more: Vec<Declarator>,
    pub span: Span,
}

/// A declared name, with the value that it begins with, if it has one.
#[derive(Drop)]
pub struct Declarator {
    pub name: Name,
    pub value: Option<Expression>,
}

/// What a statement does at once (JLS 14.8), and each part of the head of a `for`. It is an assignment, an addition
/// `target += value`, a count such as `target++` or `--target`, or a call. A count goes up or down. Its sign comes
/// before or after the target.
#[derive(Drop)]
pub enum Simple {
    Assign {
        target: Expression,
        value: Expression,
    },
    Add {
        target: Expression,
        value: Expression,
    },
    Count {
        up: bool,
        before: bool,
        target: Expression,
    },
    Evaluate(Expression),
}

/// What a `for` begins with (JLS 14.14.1): locals, or simple forms, or nothing.
#[derive(Drop)]
pub enum Opening {
    Declaration(Declaration),
    Simples(Vec<Simple>),
}

/// A block (JLS 14.2).
#[derive(Drop)]
#[cycle(statements)]
pub struct Block {
    pub items: Vec<BlockItem>,
    pub span: Span,
}

/// An item of a block (JLS 14.2).
#[derive(Drop)]
#[cycle(statements)]
pub enum BlockItem {
    Statement(Statement),
    Declaration(Declaration),
}

/// A statement (JLS 14.5 to 14.20). `otherwise` is the statement after `else`. `label` is the label before a loop, or
/// after `break` or `continue`.
#[derive(Drop)]
#[cycle(statements)]
pub enum Statement {
    Block(Block),
    Empty(Span),
    If {
        condition: Expression,
        then: Box<Statement>,
        otherwise: Option<Box<Statement>>,
        span: Span,
    },
    While {
        label: Option<Name>,
        condition: Expression,
        body: Box<Statement>,
        span: Span,
    },
    For {
        label: Option<Name>,
        opening: Opening,
        condition: Option<Expression>,
        updates: Vec<Simple>,
        body: Box<Statement>,
        span: Span,
    },
    Break {
        label: Option<Name>,
        span: Span,
    },
    Continue {
        label: Option<Name>,
        span: Span,
    },
    Return {
        value: Option<Expression>,
        span: Span,
    },
    Try {
        body: Block,
        finally: Block,
        span: Span,
    },
    Synchronized {
        target: Expression,
        body: Block,
        span: Span,
    },
    Simple {
        simple: Simple,
        span: Span,
    },
}

/// A unary operator (JLS 15.15).
#[derive(Copy)]
pub enum UnaryOp {
    Minus,
    Not,
}

impl Clone for UnaryOp {
    fn clone(&self) -> Result<UnaryOp, AllocError> {
        Ok(*self)
    }
}

/// A binary operator (JLS 15.17 to 15.24); those that bind most loosely come first.
#[derive(Copy, PartialEq, Eq)]
pub enum BinaryOp {
    Or,
    And,
    Equal,
    NotEqual,
    Less,
    Greater,
    LessEqual,
    GreaterEqual,
    Add,
    Subtract,
    Multiply,
    Divide,
    Remainder,
}

impl Clone for BinaryOp {
    fn clone(&self) -> Result<BinaryOp, AllocError> {
        Ok(*self)
    }
}

/// An expression (JLS 15). A number keeps its text, and parentheses are kept.
#[derive(Drop)]
pub enum Expression {
    Number {
        text: String,
        span: Span,
    },
    True(Span),
    False(Span),
    Null(Span),
    This(Span),
    Name(Name),
    Paren {
        inner: Box<Expression>,
        span: Span,
    },
    Unary {
        op: UnaryOp,
        operand: Box<Expression>,
        span: Span,
    },
    Binary {
        op: BinaryOp,
        left: Box<Expression>,
        right: Box<Expression>,
        span: Span,
    },
    Field {
        target: Box<Expression>,
        name: Name,
        span: Span,
    },
    Call {
        target: Option<Box<Expression>>,
        name: Name,
        arguments: Vec<Expression>,
        span: Span,
    },
    Item {
        array: Box<Expression>,
        index: Box<Expression>,
        span: Span,
    },
    New {
        class: Name,
        arguments: Vec<Expression>,
        span: Span,
    },
    NewMarkable {
        class: Name,
        arguments: Vec<Expression>,
        span: Span,
    },
    NewArray {
        length: Box<Expression>,
        span: Span,
    },
}

impl Expression {
    /// The span of the expression in its text.
    pub fn span(&self) -> Span
        ensures { result ≡ span_of (placed self.now) }
    {
        match self {
            Expression::Name(name) => name.span,
            Expression::True(span)
            | Expression::False(span)
            | Expression::Null(span)
            | Expression::This(span)
            | Expression::Number { span, .. }
            | Expression::Paren { span, .. }
            | Expression::Unary { span, .. }
            | Expression::Binary { span, .. }
            | Expression::Field { span, .. }
            | Expression::Call { span, .. }
            | Expression::Item { span, .. }
            | Expression::New { span, .. }
            | Expression::NewMarkable { span, .. }
            | Expression::NewArray { span, .. } => *span,
        }
    }
}
