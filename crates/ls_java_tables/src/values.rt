// Kinds, constants, and restated expressions.

use crate::ropes::Text;
use crate::words::WordId;
use std::alloc::AllocError;

/// What an element of an array is.
#[derive(Copy, PartialEq, Eq)]
pub enum Element {
    Int,
    Boolean,
    Item,
    Enum(usize),
    Class(usize),
    Key,
    Lock,
    ReadWrite,
    AtomicInteger,
    AtomicBoolean,
    Semaphore,
    Latch,
    // an AtomicReference, an AtomicMarkableReference, of the class of a number
    Reference(usize),
    Markable(usize),
    // an array of these
    Ints,
    Booleans,
    Items,
    Classes(usize),
}

impl Clone for Element {
    fn clone(&self) -> Result<Element, AllocError> {
        Ok(*self)
    }
}

/// What an expression is. Classes and enums of the file are by number. `Item` is what a type parameter without a class
/// of its own, `Integer` or `Long` stands for; it is written `int`. `Statics` is the object of the static members of a
/// class that is split. `ReadLock` and `WriteLock` are the locks of a ReadWriteLock; each is written as that object.
#[derive(Copy, PartialEq, Eq)]
pub enum Kind {
    Void,
    Null,
    Int,
    Boolean,
    Item,
    Enum(usize),
    Class(usize),
    Statics(usize),
    Key,
    Lock,
    Condition,
    ReadWrite,
    ReadLock,
    WriteLock,
    AtomicInteger,
    AtomicBoolean,
    Semaphore,
    Latch,
    Random,
    Reference(usize),
    Markable(usize),
    IntegerArray,
    ReferenceArray(usize),
    ThreadLocal(Element),
    Array(Element),
}

impl Clone for Kind {
    fn clone(&self) -> Result<Kind, AllocError> {
        Ok(*self)
    }
}

/// A constant (JLS 15.28).
#[derive(Copy, PartialEq, Eq)]
pub enum Constant {
    Int(i32),
    Boolean(bool),
}

impl Clone for Constant {
    fn clone(&self) -> Result<Constant, AllocError> {
        Ok(*self)
    }
}

/// How a value may be moved behind other statements. A fixed one is always the same, as `this` and `null` are. A pure
/// one has only locals, and can't trap. Any other one reads.
#[derive(Copy, PartialEq, Eq)]
pub enum Sort {
    Constant(Constant),
    Fixed,
    Local(WordId),
    Pure,
    Reading,
}

impl Clone for Sort {
    fn clone(&self) -> Result<Sort, AllocError> {
        Ok(*self)
    }
}

/// How tightly an operator binds (JLS 15.17 to 15.24, 15.15); a greater number binds more tightly.
pub const OR: u8 = 3;

pub const AND: u8 = 4;

pub const EQUALITY: u8 = 5;

pub const RELATION: u8 = 6;

pub const SUM: u8 = 7;

pub const PRODUCT: u8 = 8;

pub const UNARY: u8 = 9;

pub const PRIMARY: u8 = 10;

/// A restated expression: what is written, what it is, how its operator binds, how it may be moved, and its words as a
/// set.
#[derive(Copy)]
pub struct Value {
    pub text: Text,
    pub kind: Kind,
    pub binding: u8,
    pub sort: Sort,
    pub names: u64,
}

impl Clone for Value {
    fn clone(&self) -> Result<Value, AllocError> {
        Ok(*self)
    }
}

/// Whether a value reads, so that it can't be moved behind other statements.
pub fn reads(value: Value) -> bool {
    value.sort == Sort::Reading
}

/// Whether a value is constant, fixed, a local or of locals, so that it can't trap.
pub fn is_pure(value: Value) -> bool {
    !reads(value)
}
