// Expressions (JLS 15).

use crate::names::{Modifier, Name, Span};
use crate::types::Type;
use std::alloc::AllocError;

/// A literal (JLS 3.10). A number has its value, which the lexer read. Texts, characters and floats stand in the file
/// at their place.
#[derive(Copy, PartialEq, Eq)]
pub enum Literal {
    Int(u64),
    Long(u64),
    Float,
    Character,
    Text,
    True,
    False,
    Null,
}

impl Clone for Literal {
    fn clone(&self) -> Result<Literal, AllocError> {
        Ok(*self)
    }
}

/// A unary operator (JLS 15.15), without `++` and `--`.
#[derive(Copy, PartialEq, Eq)]
pub enum UnaryOperator {
    Plus,
    Minus,
    Not,
    Complement,
}

impl Clone for UnaryOperator {
    fn clone(&self) -> Result<UnaryOperator, AllocError> {
        Ok(*self)
    }
}

/// A binary operator (JLS 15.17 to 15.24), without `instanceof`. Those that bind most loosely come first.
#[derive(Copy, PartialEq, Eq)]
pub enum BinaryOperator {
    Or,
    And,
    BitOr,
    BitXor,
    BitAnd,
    Equal,
    NotEqual,
    Less,
    Greater,
    LessEqual,
    GreaterEqual,
    ShiftLeft,
    ShiftRight,
    ShiftRightUnsigned,
    Add,
    Subtract,
    Multiply,
    Divide,
    Remainder,
}

impl Clone for BinaryOperator {
    fn clone(&self) -> Result<BinaryOperator, AllocError> {
        Ok(*self)
    }
}

/// Whether `++` or `--` is meant, and on which side of its operand it stands (JLS 15.14, 15.15).
#[derive(Copy, PartialEq, Eq)]
pub enum Count {
    UpBefore,
    DownBefore,
    UpAfter,
    DownAfter,
}

impl Clone for Count {
    fn clone(&self) -> Result<Count, AllocError> {
        Ok(*self)
    }
}

/// A parameter of a method, a constructor or a lambda (JLS 8.4.1, 15.27.1). A parameter of a lambda may have no type.
#[derive(Drop)]
pub struct Parameter {
    pub modifiers: Vec<Modifier>,
    pub type_name: Option<Type>,
    pub name: Name,
    pub span: Span,
}

/// An expression and its place.
#[derive(Drop)]
#[cycle(expressions)]
pub struct Expression {
    pub kind: ExpressionKind,
    pub span: Span,
}

/// What an expression is. Parentheses are kept. `bodies` of the file has the blocks of lambdas and the bodies of
/// anonymous classes, and the tree has their numbers there. So an expression has no statements in it.
#[derive(Drop)]
#[cycle(expressions)]
pub enum ExpressionKind {
    Literal(Literal),
    Name(Name),
    // `this`, or `Outer.this` (JLS 15.8.3, 15.8.4)
    This(Option<Box<Expression>>),
    // `super`, to which a field, a call or a method reference belongs (JLS 15.11.2)
    Super,
    // `C.class` (JLS 15.8.2)
    Class(Type),
    Paren(Box<Expression>),
    Unary {
        operator: UnaryOperator,
        operand: Box<Expression>,
    },
    Count {
        count: Count,
        target: Box<Expression>,
    },
    Binary {
        operator: BinaryOperator,
        left: Box<Expression>,
        right: Box<Expression>,
    },
    InstanceOf {
        operand: Box<Expression>,
        type_name: Type,
    },
    Conditional {
        condition: Box<Expression>,
        then: Box<Expression>,
        otherwise: Box<Expression>,
    },
    // `target = value`, or `target op= value` (JLS 15.26)
    Assign {
        target: Box<Expression>,
        operator: Option<BinaryOperator>,
        value: Box<Expression>,
    },
    // a cast; it has more than one type where it is to an intersection (JLS 15.16)
    Cast {
        types: Vec<Type>,
        operand: Box<Expression>,
    },
    Field {
        target: Box<Expression>,
        name: Name,
    },
    Item {
        array: Box<Expression>,
        index: Box<Expression>,
    },
    Call {
        target: Option<Box<Expression>>,
        type_arguments: Vec<Type>,
        name: Name,
        arguments: Vec<Expression>,
    },
    // `this(..)`, or `super(..)` if `of_super` (JLS 8.8.7.1)
    ConstructorCall {
        of_super: bool,
        arguments: Vec<Expression>,
    },
    // an object (JLS 15.9); `body` is the number of the body of an anonymous class
    New {
        class: Box<Type>,
        arguments: Vec<Expression>,
        body: Option<usize>,
    },
    // an array (JLS 15.10): so many lengths, and then so many `[]`
    NewArray {
        item: Box<Type>,
        lengths: Vec<Expression>,
        open: usize,
    },
    // `{ 1, 2 }` as an initialiser, or after `new int[]`, and then with the type of the array (JLS 10.6, 15.10)
    Items {
        array: Option<Box<Type>>,
        items: Vec<Expression>,
    },
    Lambda {
        parameters: Vec<Parameter>,
        body: LambdaBody,
    },
    // `target::name`; no name is `new` (JLS 15.13)
    MethodReference {
        target: Box<Expression>,
        name: Option<Name>,
    },
    // `Type::name`, where the type is no expression, as `int[]` or `List<T>`
    TypeReference {
        type_name: Type,
        name: Option<Name>,
    },
}

/// The body of a lambda (JLS 15.27.2): an expression, or the number of a block.
#[derive(Drop)]
#[cycle(expressions)]
pub enum LambdaBody {
    Expression(Box<Expression>),
    Block(usize),
}
