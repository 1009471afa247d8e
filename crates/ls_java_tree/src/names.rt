// Places in a file, and names.

use std::alloc::AllocError;

/// From one token of a file to another, both included. Tokens are counted from 0.
#[derive(Clone, Copy, Debug, PartialEq, Eq)]
pub struct Span {
    pub first: usize,
    pub last: usize,
}

/// An identifier (JLS 3.8), and the number of its token.
#[derive(Drop)]
pub struct Name {
    pub text: String,
    pub token: usize,
}

/// `first.second.third` (JLS 6.5): the name of a package, of an import or of an annotation. It has at least one part.
#[derive(Drop)]
pub struct Path {
    pub parts: Vec<Name>,
    pub span: Span,
}

/// What a modifier is (JLS 8.1.1, 8.3.1, 8.4.3). The arguments of an annotation (JLS 9.7) are read over, and the tree
/// doesn't keep them.
#[derive(Drop)]
pub enum ModifierKind {
    Public,
    Protected,
    Private,
    Static,
    Abstract,
    Final,
    Native,
    Synchronized,
    Transient,
    Volatile,
    Strictfp,
    Default,
    Annotation(Path),
}

/// A modifier and its place.
#[derive(Drop)]
pub struct Modifier {
    pub kind: ModifierKind,
    pub span: Span,
}

/// A primitive type (JLS 4.2).
#[derive(Copy, PartialEq, Eq)]
pub enum Primitive {
    Boolean,
    Byte,
    Short,
    Int,
    Long,
    Char,
    Float,
    Double,
}

impl Clone for Primitive {
    fn clone(&self) -> Result<Primitive, AllocError> {
        Ok(*self)
    }
}
