// What a call may name: a method of a class, an operation of a lock or of a markable, a constructor.

ghost use Rattle.std.specs.Prelude.{◌≡◌, IfOk, option_map};
ghost use Rattle.ls_checked.specs.Plain.{plain, all_plain};
ghost use Rattle.ls_types_elaboration.specs.Members.{member, lock_member, markable_member, made};
ghost use Rattle.ls_types_elaboration.specs.Answers.{member_of as known_member};

use ls_checked::tree::{Called, Expression, Expressions};
use ls_events::value::ValueType;
use std::alloc::{AllocError, Global};

/// What may be called, the types of its arguments, and the type of its result.
#[derive(Drop)]
pub struct Member {
    pub called: Called,
    pub parameters: Vec<ValueType>,
    pub result: Option<ValueType>,
}

/// What `new` makes.
#[derive(Clone, Copy)]
pub enum Makes {
    AnObject(usize),
    ALock,
    /// A markable that holds references to objects of a class.
    AMarkable(usize),
}

/// What `new` makes, the types of its arguments, and the type of what is made.
#[derive(Drop)]
pub struct Maker {
    pub makes: Makes,
    pub parameters: Vec<ValueType>,
    pub value_type: ValueType,
}

/// What may be called, with a copy of the types of its arguments. The only refusal is that memory ran out.
pub fn member_with(
    alloc: Global,
    called: Called,
    parameters: &[ValueType],
    answers: Option<ValueType>,
) -> Result<Option<Member>, AllocError>
    ensures { IfOk result (λ o. option_map known_member o ≡ member called parameters.now answers) }
{
    Ok(Some(Member {
        called,
        parameters: Vec::from_slice(alloc, parameters)?,
        result: answers,
    }))
}

/// The operation of a lock that has the name, or none. The only refusal is that memory ran out.
pub fn lock_member(alloc: Global, name: &str) -> Result<Option<Member>, AllocError>
    ensures { IfOk result (λ o. option_map known_member o ≡ lock_member name.now) }
{
    if name == "lock" {
        member_with(alloc, Called::LockIt, &[], None)
    } else if name == "unlock" {
        member_with(alloc, Called::UnlockIt, &[], None)
    } else if name == "tryLock" {
        member_with(alloc, Called::TryIt, &[], Some(ValueType::Boolean))
    } else if name == "isHeldByCurrentThread" {
        member_with(alloc, Called::AskIt, &[], Some(ValueType::Boolean))
    } else {
        Ok(None)
    }
}

/// The operation of a markable of a class that has the name, or none. The only refusal is that memory ran out.
pub fn markable_member(
    alloc: Global,
    class: usize,
    name: &str,
) -> Result<Option<Member>, AllocError>
    ensures { IfOk result (λ o. option_map known_member o ≡ markable_member class name.now) }
{
    let of = ValueType::Class(class);
    let mark = ValueType::Boolean;
    if name == "getReference" {
        member_with(alloc, Called::GetReference(class), &[], Some(of))
    } else if name == "isMarked" {
        member_with(alloc, Called::IsMarked(class), &[], Some(mark))
    } else if name == "get" {
        member_with(
            alloc,
            Called::GetBoth(class),
            &[ValueType::BooleanArray],
            Some(of),
        )
    } else if name == "set" {
        member_with(alloc, Called::SetBoth, &[of, mark], None)
    } else if name == "compareAndSet" {
        member_with(
            alloc,
            Called::CompareAndSet,
            &[of, of, mark, mark],
            Some(mark),
        )
    } else if name == "attemptMark" {
        member_with(alloc, Called::Attempt, &[of, mark], Some(mark))
    } else {
        Ok(None)
    }
}

/// The making, with its arguments. The only refusal is that memory ran out.
pub fn made(alloc: Global, makes: Makes, arguments: Expressions) -> Result<Expression, AllocError>
    ensures { IfOk result (λ e. plain e ≡ made makes (all_plain arguments)) }
{
    match makes {
        Makes::AnObject(class) => Ok(Expression::MakeObject(class, Box::new(alloc, arguments)?)),
        Makes::ALock => Ok(Expression::MakeLock),
        Makes::AMarkable(class) => Ok(Expression::MakeMarkable(class, Box::new(alloc, arguments)?)),
    }
}
