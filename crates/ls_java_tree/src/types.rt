// Types, as they are written (JLS 4).

use crate::names::{Name, Primitive, Span};
use std::alloc::AllocError;

/// A type and its place.
#[derive(Drop)]
#[cycle(types)]
pub struct Type {
    pub kind: TypeKind,
    pub span: Span,
}

/// What a type is.
#[derive(Drop)]
#[cycle(types)]
pub enum TypeKind {
    Primitive(Primitive),
    // `void`, as the result of a method (JLS 8.4.5) or before `.class` (JLS 15.8.2)
    Void,
    Class(ClassType),
    Array(Box<Type>),
    Wildcard(Option<WildcardBound>),
}

/// The name of a class or of a type variable (JLS 4.3). In `Outer<A>.Inner<B>` the outer type is `Outer<A>`. No
/// arguments at all and `<>`, which is an empty list of them, differ (JLS 15.9).
#[derive(Drop)]
#[cycle(types)]
pub struct ClassType {
    pub outer: Option<Box<Type>>,
    pub name: Name,
    pub arguments: Option<Vec<Type>>,
}

/// Which way the bound of a wildcard goes (JLS 4.5.1).
#[derive(Copy, PartialEq, Eq)]
pub enum Bounding {
    Extends,
    Super,
}

impl Clone for Bounding {
    fn clone(&self) -> Result<Bounding, AllocError> {
        Ok(*self)
    }
}

/// The bound of a wildcard: `? extends T` or `? super T` (JLS 4.5.1).
#[derive(Drop)]
#[cycle(types)]
pub struct WildcardBound {
    pub bounding: Bounding,
    pub bound: Box<Type>,
}

/// A type parameter of a class or a method, with its bounds (JLS 4.4).
#[derive(Drop)]
pub struct TypeParameter {
    pub name: Name,
    pub bounds: Vec<Type>,
    pub span: Span,
}
