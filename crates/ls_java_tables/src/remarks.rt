// What is said of a file: what was restated otherwise, and what can't be restated.

use crate::words::WordId;
use std::alloc::{AllocError, AllocFailed};

/// Why restating stops: memory ran out, the file is nested too deeply, or a refusal was noted. After a refusal the
/// next member is restated.
#[derive(Clone, Copy, PartialEq, Eq)]
pub enum Stop {
    Memory,
    TooDeep,
    Refused,
}

impl From<AllocError> for Stop {
    ghost use Rattle.ls_java_tables.specs.declared.remarks.Stop.TheVariants.{Memory};
    ghost use Rattle.std.specs.Prelude.{◌≡◌};

    ghost from_gives = { λ _ e. e ≡ Memory };

    fn from(_: AllocError) -> Stop {
        Stop::Memory
    }
}

impl<T: Drop> From<AllocFailed<T>> for Stop {
    ghost use Rattle.ls_java_tables.specs.declared.remarks.Stop.TheVariants.{Memory};
    ghost use Rattle.std.specs.Prelude.{◌≡◌};

    ghost from_gives = { λ _ e. e ≡ Memory };

    fn from(_: AllocFailed<T>) -> Stop {
        Stop::Memory
    }
}

/// Why a form can't be restated, by the number of the refusal, which stays the same.
#[derive(Clone, Copy, PartialEq, Eq)]
pub enum Why {
    // classes
    Extends = 101,
    Abstract = 102,
    SeveralClasses = 103,
    SeveralTypes = 104,
    NoOuter = 105,
    StaticElsewhere = 106,
    NoBody = 107,
    ThisCircle = 108,
    ThisHere = 109,
    SuperHere = 110,
    NoSuper = 111,
    NotAround = 112,
    // types
    OnlyIntAndBoolean = 201,
    UnknownClass = 202,
    NoTypeArgument = 203,
    ReferenceOfItem = 204,
    ReferenceOf = 205,
    Stamped = 206,
    Collection = 207,
    Synchronizer = 208,
    NoText = 209,
    Threads = 210,
    NoOptional = 211,
    BigNumber = 212,
    Var = 213,
    ArrayOf = 214,
    ThreeDimensions = 215,
    LocalThreadLocal = 216,
    LocalCondition = 217,
    HalfAsLock = 218,
    // names
    UnknownName = 301,
    NoField = 302,
    NoMethod = 303,
    NoFit = 304,
    NoConstructor = 305,
    NoLibraryMethod = 306,
    WriteLoop = 307,
    // expressions
    TextLiteral = 401,
    CharacterLiteral = 402,
    FloatLiteral = 403,
    LargeNumber = 404,
    Lambda = 405,
    MethodReference = 406,
    ClassObject = 407,
    InstanceOf = 408,
    Anonymous = 409,
    ItemsHere = 410,
    NotAnArray = 411,
    Cast = 412,
    NullBoolean = 413,
    ConstantAssigned = 414,
    CountOf = 415,
    Bits = 416,
    NoValue = 417,
    HashCode = 418,
    CloneOf = 419,
    BooleanLength = 420,
    NumberInConstructor = 421,
    DiamondHere = 422,
    FirstValue = 423,
    CopyTypes = 424,
    // statements
    LabelHere = 501,
    LoopOver = 502,
    BreakInCase = 503,
    CaseGoesOn = 504,
    DefaultFirst = 505,
    SwitchOn = 506,
    ThrowOf = 507,
    Catch = 508,
    WaitOutsideLoop = 509,
    SynchronizedOn = 511,
    TwoMonitors = 512,
    // limits
    TooMuch = 601,
    TooDeep = 602,
    Other = 603,
}

/// What was restated otherwise than it is written.
#[derive(Clone, Copy, PartialEq, Eq)]
pub enum What {
    // classes
    ClassLeftOut,
    Beside,
    ClassRenamed,
    InterfaceLeftOut,
    InterfaceStandsFor,
    Enum,
    ParameterIsInt,
    ParameterIsClass,
    MethodRenamed,
    Split,
    StaticMembers,
    ConstructorMethod,
    HandsOuter,
    ConstantInPlace,
    Main,
    MainLeftOut,
    MethodLeftOut,
    FieldLeftOut,
    NumberParameter,
    // types
    Long,
    Boxed,
    AtomicLong,
    ReferenceByValue,
    ZeroForNull,
    ArrayClass,
    AtomicInteger,
    AtomicBoolean,
    ThreadLocal,
    ReadWrite,
    FairLock,
    FairSemaphore,
    RandomZero,
    // expressions
    GetAndSet,
    UpdateLoop,
    HashOfItem,
    CopyLoop,
    TryLockTime,
    // statements
    Printing,
    PrintingReads,
    LeftOut,
    Assert,
    CatchInterrupted,
    Throw,
    Notify,
    Signal,
    Wait,
    Await,
    WaitTime,
}

/// What was restated otherwise, with a token of the file, and the word that is meant, which may be empty.
#[derive(Clone, Copy, PartialEq, Eq)]
pub struct Note {
    pub token: usize,
    pub word: WordId,
    pub what: What,
}

/// What can't be restated, with a token of the file, and the word that is meant, which may be empty.
#[derive(Clone, Copy, PartialEq, Eq)]
pub struct Refusal {
    pub token: usize,
    pub word: WordId,
    pub why: Why,
}
