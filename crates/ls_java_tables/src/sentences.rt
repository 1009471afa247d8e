// What is said of each refusal and of each note.

use crate::remarks::{What, Why};
use std::fmt::{Display, Error, Formatter, Write};

// Of each reason what can't be restated, and what to write.
static REFUSALS: [(Why, &str); 75] = [
    (
        Why::Extends,
        "a class that extends another: write one class with all members",
    ),
    (
        Why::Abstract,
        "an abstract class: write one class with all members",
    ),
    (
        Why::SeveralClasses,
        "an interface of several classes: write one class",
    ),
    (
        Why::SeveralTypes,
        "a generic class at several types: write a class for each",
    ),
    (
        Why::NoOuter,
        "a class that needs the object around it, and it isn't here: hand it the object",
    ),
    (
        Why::StaticElsewhere,
        "a static member of another class: write a class of the static members, and hand on its object",
    ),
    (Why::NoBody, "a method without a body: write a body"),
    (Why::ThisCircle, "`this(..)` that leads back to itself"),
    (
        Why::ThisHere,
        "`this(..)` after other statements, or as a value: write one constructor",
    ),
    (Why::SuperHere, "`super(..)`: there is no class above"),
    (Why::NoSuper, "`super`: there is no class above"),
    (Why::NotAround, "`this` of a class that isn't around"),
    (Why::OnlyIntAndBoolean, "only int and boolean are there"),
    (
        Why::UnknownClass,
        "no class of the file, and none that is known",
    ),
    (
        Why::NoTypeArgument,
        "a type without one between `<` and `>`: write it",
    ),
    (
        Why::ReferenceOfItem,
        "a reference to a number: write a class that holds it",
    ),
    (
        Why::ReferenceOf,
        "a reference to this type: write a class that holds it",
    ),
    (
        Why::Stamped,
        "a stamp: write AtomicReference of a class with the reference and the stamp",
    ),
    (
        Why::Collection,
        "a collection of the library: write a list of nodes, or an array",
    ),
    (
        Why::Synchronizer,
        "a synchronizer that isn't there: write a monitor with `wait`",
    ),
    (Why::NoText, "text isn't there: write ints"),
    (Why::Threads, "threads are written in the program"),
    (Why::NoOptional, "not there: write null"),
    (Why::BigNumber, "numbers have 32 bits"),
    (Why::Var, "`var` isn't Java SE 8: write the type"),
    (
        Why::ArrayOf,
        "an array of this: write a class that holds it",
    ),
    (
        Why::ThreeDimensions,
        "an array of arrays of arrays: write a class that holds one",
    ),
    (
        Why::LocalThreadLocal,
        "a ThreadLocal elsewhere than in a field: write a field",
    ),
    (Why::LocalCondition, "a condition in a local: write a field"),
    (
        Why::HalfAsLock,
        "one lock of a ReadWriteLock where a Lock is: keep the ReadWriteLock, and write `readLock()` where it is used",
    ),
    (Why::UnknownName, "no local and no field of this name"),
    (Why::NoField, "no field of this name"),
    (Why::NoMethod, "no method of this name"),
    (Why::NoFit, "no method of this name takes these arguments"),
    (Why::NoConstructor, "no constructor takes these arguments"),
    (
        Why::NoLibraryMethod,
        "a method of the library that isn't there",
    ),
    (
        Why::WriteLoop,
        "not there: write the loop with compareAndSet",
    ),
    (Why::TextLiteral, "text in quotes isn't there: write an int"),
    (
        Why::CharacterLiteral,
        "a character isn't there: write an int",
    ),
    (
        Why::FloatLiteral,
        "only int and boolean are there: write an int",
    ),
    (
        Why::LargeNumber,
        "a number that an int doesn't hold: numbers have 32 bits",
    ),
    (Why::Lambda, "a lambda: write a method"),
    (Why::MethodReference, "a method reference: write a method"),
    (
        Why::ClassObject,
        "a class as an object: write an object of `new Object()`",
    ),
    (
        Why::InstanceOf,
        "`instanceof`: there is no class above another",
    ),
    (Why::Anonymous, "a class without a name: write a class"),
    (
        Why::ItemsHere,
        "an array's elements here: write them in a declaration",
    ),
    (
        Why::NotAnArray,
        "an element of something else than an array",
    ),
    (Why::Cast, "a cast to another type"),
    (Why::NullBoolean, "null for a boolean"),
    (Why::ConstantAssigned, "a constant is assigned"),
    (Why::CountOf, "`++` or `--` of something else than a number"),
    (
        Why::Bits,
        "an operator of bits, but with a constant: write it with `*`, `/` and `%`",
    ),
    (
        Why::NoValue,
        "a call of a `void` method where a value is wanted",
    ),
    (Why::HashCode, "hashCode of an object: write a field"),
    (Why::CloneOf, "a `clone` of an array: write a loop"),
    (
        Why::BooleanLength,
        "the length of a boolean[], beside get(boolean[]) of a reference: write a field for the length",
    ),
    (
        Why::NumberInConstructor,
        "the number of the thread in a constructor: hand it on",
    ),
    (
        Why::DiamondHere,
        "`<>` where no type is known: write the type",
    ),
    (
        Why::FirstValue,
        "the first value of a ThreadLocal, which may change: write it by `set`",
    ),
    (
        Why::CopyTypes,
        "a copy between arrays of two types: write a loop",
    ),
    (
        Why::LabelHere,
        "a label on something else than a loop: write `if` and `else`",
    ),
    (
        Why::LoopOver,
        "a loop over something else than an array: write `for (Node n = head; n != null; n = n.next)`",
    ),
    (
        Why::BreakInCase,
        "`break` in the middle of a case: write `if` and `else`",
    ),
    (
        Why::CaseGoesOn,
        "a case that goes on in the next one: write `if` and `else`",
    ),
    (
        Why::DefaultFirst,
        "`default` before other cases: write it last",
    ),
    (
        Why::SwitchOn,
        "`switch` on something else than an int or an enum",
    ),
    (Why::ThrowOf, "`throw` of something else than `new`"),
    (
        Why::Catch,
        "a `catch`: look for the cause before; `finally` is taken",
    ),
    (
        Why::WaitOutsideLoop,
        "a wait outside of a loop on its condition: Java may end a wait unwoken (JLS 17.2.1): write `while`",
    ),
    (
        Why::SynchronizedOn,
        "`synchronized` on this: write an object of `new Object()`",
    ),
    (
        Why::TwoMonitors,
        "the monitor of a class beside those of its objects: write an object of `new Object()`",
    ),
    (Why::TooMuch, "too much at once: write smaller classes"),
    (Why::TooDeep, "nested too deeply"),
    (Why::Other, "not restated"),
];

// Of each note what was restated otherwise.
static NOTES: [(What, &str); 48] = [
    (What::ClassLeftOut, "a class that is left out"),
    (What::Beside, "a class that stands beside the others"),
    (What::ClassRenamed, "a class that is named otherwise"),
    (What::InterfaceLeftOut, "an interface is left out"),
    (
        What::InterfaceStandsFor,
        "an interface is left out: its class stands for it",
    ),
    (What::Enum, "an enum: ints from 1; 0 stands for null"),
    (
        What::ParameterIsInt,
        "int for a type parameter; 0 stands for null",
    ),
    (What::ParameterIsClass, "a class for a type parameter"),
    (
        What::MethodRenamed,
        "a second method of this name is named otherwise",
    ),
    (
        What::Split,
        "static members: members of one object, whose class has this name; its objects are of another class",
    ),
    (
        What::StaticMembers,
        "static members: members; the setup makes one object",
    ),
    (
        What::ConstructorMethod,
        "a constructor: `new` and then this method",
    ),
    (
        What::HandsOuter,
        "a class that names members of a class around: it is handed that object",
    ),
    (What::ConstantInPlace, "a constant: where it is used"),
    (
        What::Main,
        "main: a method for each of its threads; the program is written beside",
    ),
    (
        What::MainLeftOut,
        "main: left out; the program is written beside",
    ),
    (What::MethodLeftOut, "a method is left out"),
    (What::FieldLeftOut, "a field is left out"),
    (
        What::NumberParameter,
        "the number of the thread is a parameter",
    ),
    (What::Long, "long: int, 32 bits"),
    (What::Boxed, "int; 0 stands for null"),
    (What::AtomicLong, "AtomicLong: 32 bits"),
    (
        What::ReferenceByValue,
        "a reference to a number: compared by value",
    ),
    (What::ZeroForNull, "0 stands for null"),
    (
        What::ArrayClass,
        "an array: a class; an access has more steps",
    ),
    (
        What::AtomicInteger,
        "AtomicInteger: a class; an operation has more steps, and takes effect in one",
    ),
    (
        What::AtomicBoolean,
        "AtomicBoolean: a class; an operation has more steps, and takes effect in one",
    ),
    (
        What::ThreadLocal,
        "ThreadLocal: an array by the thread's number, 0 to 4",
    ),
    (
        What::ReadWrite,
        "ReadWriteLock: a class; who waits to write goes round a loop",
    ),
    (
        What::FairLock,
        "a fair lock: the order of who waits isn't kept",
    ),
    (
        What::FairSemaphore,
        "a fair Semaphore: the order of who waits isn't kept",
    ),
    (
        What::RandomZero,
        "Random: every number is 0, which is one of what Java may do: `none` says less",
    ),
    (
        What::GetAndSet,
        "getAndSet of AtomicReference: a loop with compareAndSet; more steps, it takes effect in one",
    ),
    (What::UpdateLoop, "a loop with compareAndSet"),
    (What::HashOfItem, "hashCode() of an item: the item"),
    (What::CopyLoop, "a loop over the elements"),
    (What::TryLockTime, "tryLock with a time: it doesn't wait"),
    (What::Printing, "printing: left out"),
    (
        What::PrintingReads,
        "printing: left out; what it reads or calls isn't read or called",
    ),
    (What::LeftOut, "left out"),
    (What::Assert, "assert: left out (JLS 14.10: it is off)"),
    (
        What::CatchInterrupted,
        "catch of InterruptedException: left out, no thread is interrupted",
    ),
    (What::Throw, "throw: the trap is ArithmeticException"),
    (What::Notify, "notify: left out, no thread waits"),
    (
        What::Signal,
        "notify, signal: of those that wait, the one that waits longest goes on",
    ),
    (
        What::Wait,
        "wait: lets go of the monitor, waits for a notify, and takes the monitor again",
    ),
    (
        What::Await,
        "await: lets go of the lock, waits for a signal, and takes the lock again",
    ),
    (
        What::WaitTime,
        "a wait with a time: lets go of the lock and takes it again, as if the time had passed",
    ),
];

/// The number of a refusal, which stays the same: its hundreds are those of its subject.
pub fn number_of(why: Why) -> usize {
    why as usize
}

// What is said of a refusal.
fn refusal_sentence(why: Why) -> &'static str {
    for (one, sentence) in &REFUSALS {
        if *one == why {
            return sentence;
        }
    }
    ""
}

// What is said of a note.
fn note_sentence(what: What) -> &'static str {
    for (one, sentence) in &NOTES {
        if *one == what {
            return sentence;
        }
    }
    ""
}

impl Display for Why {
    fn fmt<W: Write>(&self, f: &mut Formatter<W>) -> Result<(), Error> {
        f.write_str(refusal_sentence(*self))
    }
}

impl Display for What {
    fn fmt<W: Write>(&self, f: &mut Formatter<W>) -> Result<(), Error> {
        f.write_str(note_sentence(*self))
    }
}
