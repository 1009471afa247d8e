// The reserved words.

use std::alloc::AllocError;

/// A reserved word: a keyword (JLS 3.9), or `true`, `false` (JLS 3.10.3) or `null` (JLS 3.10.7).
#[derive(Copy, PartialEq, Eq)]
pub enum Word {
    Abstract,
    Continue,
    For,
    New,
    Switch,
    Assert,
    Default,
    If,
    Package,
    Synchronized,
    Boolean,
    Do,
    Goto,
    Private,
    This,
    Break,
    Double,
    Implements,
    Protected,
    Throw,
    Byte,
    Else,
    Import,
    Public,
    Throws,
    Case,
    Enum,
    Instanceof,
    Return,
    Transient,
    Catch,
    Extends,
    Int,
    Short,
    Try,
    Char,
    Final,
    Interface,
    Static,
    Void,
    Class,
    Finally,
    Long,
    Strictfp,
    Volatile,
    Const,
    Float,
    Native,
    Super,
    While,
    True,
    False,
    Null,
}

impl Clone for Word {
    fn clone(&self) -> Result<Word, AllocError> {
        Ok(*self)
    }
}
