// Files, classes and their members (JLS 7, 8, 9).

use crate::expressions::Parameter;
use crate::names::{Modifier, Name, Path, Span};
use crate::statements::{Block, Declaration};
use crate::types::{Type, TypeParameter};
use std::alloc::AllocError;

/// A Java file (JLS 7.3). `bodies` has the blocks of lambdas and the bodies of anonymous classes, in the order in which
/// they were met.
#[derive(Drop)]
pub struct File {
    pub package: Option<Path>,
    pub imports: Vec<Import>,
    pub types: Vec<TypeDeclaration>,
    pub bodies: Vec<Body>,
}

/// An import (JLS 7.5): of one type or static member, or of all of them (`all`, spelled `.*`).
#[derive(Drop)]
pub struct Import {
    pub of_static: bool,
    pub path: Path,
    pub all: bool,
}

/// The body of a lambda or of an anonymous class.
#[derive(Drop)]
pub enum Body {
    Block(Block),
    Class(Vec<Member>),
}

/// What a declaration of a type begins with (JLS 8.1, 8.9, 9.1).
#[derive(Copy, PartialEq, Eq)]
pub enum Sort {
    Class,
    Interface,
    Enum,
}

impl Clone for Sort {
    fn clone(&self) -> Result<Sort, AllocError> {
        Ok(*self)
    }
}

/// The head of a class, an interface or an enum. A class extends at most one type, and an enum none.
#[derive(Drop)]
pub struct Head {
    pub modifiers: Vec<Modifier>,
    pub sort: Sort,
    pub name: Name,
    pub parameters: Vec<TypeParameter>,
    pub extends: Vec<Type>,
    pub implements: Vec<Type>,
}

/// A class, an interface or an enum. Only an enum has constants, and it has no members.
#[derive(Drop)]
#[cycle(members)]
pub struct TypeDeclaration {
    pub head: Head,
    pub constants: Vec<Name>,
    pub members: Vec<Member>,
    pub span: Span,
}

/// A member of a class or an interface (JLS 8.1.6, 9.1.4).
#[derive(Drop)]
#[cycle(members)]
pub enum Member {
    Field(Declaration),
    Method(Method),
    Constructor(Constructor),
    Initializer(Initializer),
    Type(TypeDeclaration),
}

/// A method (JLS 8.4, 9.4). Without a body it is abstract or native.
#[derive(Drop)]
pub struct Method {
    pub modifiers: Vec<Modifier>,
    pub type_parameters: Vec<TypeParameter>,
    pub result: Type,
    pub name: Name,
    pub parameters: Vec<Parameter>,
    pub throws: Vec<Type>,
    pub body: Option<Block>,
    pub span: Span,
}

/// A constructor (JLS 8.8).
#[derive(Drop)]
pub struct Constructor {
    pub modifiers: Vec<Modifier>,
    pub type_parameters: Vec<TypeParameter>,
    pub name: Name,
    pub parameters: Vec<Parameter>,
    pub throws: Vec<Type>,
    pub body: Block,
    pub span: Span,
}

/// An initialiser (JLS 8.6, 8.7).
#[derive(Drop)]
pub struct Initializer {
    pub of_static: bool,
    pub body: Block,
    pub span: Span,
}
