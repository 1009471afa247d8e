// Why a text isn't written as a thread program, by the tokens beside the place from which on it isn't.

ghost use Rattle.std.specs.Prelude.{◌≡◌, IfOk};
ghost use Rattle.ls_explanations.specs.ProgramForms.{after_argument, after_assign, after_class, after_name};
ghost use Rattle.ls_explanations.specs.ProgramForms.{after_object, after_type, after_typed, assigned, at_argument};
ghost use Rattle.ls_explanations.specs.ProgramForms.{at_block, at_call, at_setup, at_thread, at_thread_name};
ghost use Rattle.ls_explanations.specs.ProgramForms.{form_lesson, form_text, given, hint_after, is_between, made};
ghost use Rattle.ls_explanations.specs.ProgramForms.{typed, unread, unread_lesson};

use crate::classes::tokens_in;
use crate::form_hints::{FormHint, hint_text};
use crate::lessons::{byte_lesson, or_else};
use crate::nearby::{Ahead, Before, Near, ahead_of, before_end};
use crate::spot::begins_character;
use crate::tokens::{byte_at, front_name, is_word};
use std::alloc::{AllocError, Global};

/// At the front of the text, where `setup` should stand. `name` is the name at the place.
fn at_setup(here: Near, name: &[u8]) -> FormHint
    ensures { result ≡ at_setup here name.now }
{
    match here {
        Near::Class => FormHint::Classes,
        Near::Name => {
            if is_word(name, b"thread") {
                FormHint::NoSetup
            } else {
                FormHint::Program
            }
        }
        _ => FormHint::Program,
    }
}

/// After `setup`, or after the name of a thread.
fn at_block(here: Near) -> FormHint
    ensures { result ≡ at_block here }
{
    match here {
        Near::OpenParen => FormHint::NoParentheses,
        _ => FormHint::Brace,
    }
}

/// After a block.
fn at_thread(here: Near, name: &[u8]) -> FormHint
    ensures { result ≡ at_thread here name.now }
{
    match here {
        Near::CloseBrace | Near::Semicolon => FormHint::Unexpected,
        Near::Name => {
            if is_word(name, b"setup") {
                FormHint::SecondSetup
            } else {
                FormHint::Thread
            }
        }
        _ => FormHint::Thread,
    }
}

/// After `thread`.
fn at_thread_name(here: Near, name: &[u8]) -> FormHint
    ensures { result ≡ at_thread_name here name.now }
{
    match here {
        Near::Name => {
            if is_word(name, b"all") {
                FormHint::All
            } else {
                FormHint::ThreadTwice
            }
        }
        _ => FormHint::ThreadName,
    }
}

/// Where an object is made with a type before its name. `is_closed` says whether the setup has ended.
fn typed(is_closed: bool) -> FormHint
    ensures { result ≡ typed is_closed }
{
    if is_closed {
        FormHint::MadeByThread
    } else {
        FormHint::Typed
    }
}

/// At a name and `=`, which can't come there. `later` comes after the `=`.
fn given(later: Near, is_closed: bool) -> FormHint
    ensures { result ≡ given later is_closed }
{
    match later {
        Near::New => made(is_closed, FormHint::MadeTwice),
        _ => FormHint::Kept,
    }
}

/// Where an object is made: by a thread, or else with this hint.
fn made(is_closed: bool, hint: FormHint) -> FormHint
    ensures { result ≡ made is_closed hint }
{
    if is_closed {
        FormHint::MadeByThread
    } else {
        hint
    }
}

/// At the beginning of a call.
fn at_call(here: Near, ahead: Ahead, is_closed: bool) -> FormHint
    ensures { result ≡ at_call here ahead is_closed }
{
    match here {
        Near::Name => given(ahead.later, is_closed),
        Near::Type => FormHint::Kept,
        Near::Final => typed(is_closed),
        Near::Statement => FormHint::Statement,
        Near::New => made(is_closed, FormHint::Unnamed),
        Near::Semicolon => FormHint::Unexpected,
        Near::Nothing => FormHint::End,
        _ => FormHint::Call,
    }
}

/// After a type, a name and `=`.
fn after_typed(later: Near, is_closed: bool) -> FormHint
    ensures { result ≡ after_typed later is_closed }
{
    match later {
        Near::New => typed(is_closed),
        _ => FormHint::Kept,
    }
}

/// After a name with which a call should begin, at another name.
fn after_type(next: Near, later: Near, is_closed: bool) -> FormHint
    ensures { result ≡ after_type next later is_closed }
{
    match next {
        Near::Assign => after_typed(later, is_closed),
        Near::OpenBrace => FormHint::Unclosed,
        Near::OpenParen => FormHint::NoDot,
        _ => typed(is_closed),
    }
}

/// After a name with which a call should begin.
fn after_object(here: Near, ahead: Ahead, is_closed: bool) -> FormHint
    ensures { result ≡ after_object here ahead is_closed }
{
    match here {
        Near::Name => after_type(ahead.next, ahead.later, is_closed),
        Near::Less => typed(is_closed),
        Near::OpenParen => FormHint::NoObject,
        Near::Nothing => FormHint::End,
        _ => FormHint::Call,
    }
}

/// After `new` and a name.
fn after_class(here: Near) -> FormHint
    ensures { result ≡ after_class here }
{
    match here {
        Near::Less => FormHint::TypeArguments,
        _ => FormHint::NoArguments,
    }
}

/// After a name, by the token before the name.
fn after_name(second: Near, before: Before, ahead: Ahead, name: &[u8]) -> FormHint
    ensures { result ≡ after_name second before ahead name.now }
{
    match second {
        Near::Nothing | Near::Name => at_block(ahead.here),
        Near::CloseBrace => at_thread_name(ahead.here, name),
        Near::Dot => FormHint::NoArguments,
        Near::New => after_class(ahead.here),
        _ => after_object(ahead.here, ahead, before.is_closed),
    }
}

/// After `=` and a name.
fn assigned(next: Near) -> FormHint
    ensures { result ≡ assigned next }
{
    match next {
        Near::Dot => FormHint::Kept,
        _ => FormHint::NoNew,
    }
}

/// After `=`.
fn after_assign(here: Near, next: Near) -> FormHint
    ensures { result ≡ after_assign here next }
{
    match here {
        Near::Name => assigned(next),
        _ => FormHint::Made,
    }
}

/// Where an argument should begin.
fn at_argument(here: Near) -> FormHint
    ensures { result ≡ at_argument here }
{
    match here {
        Near::Semicolon | Near::CloseBrace | Near::Nothing => FormHint::Closing,
        Near::Value => FormHint::Number,
        _ => FormHint::Argument,
    }
}

/// After an argument.
fn after_argument(here: Near) -> FormHint
    ensures { result ≡ after_argument here }
{
    match here {
        Near::Minus | Near::Sign | Near::Less => FormHint::Argument,
        _ => FormHint::Closing,
    }
}

/// By the token before the place.
fn hint_after(last: Near, before: Before, ahead: Ahead, name: &[u8]) -> FormHint
    ensures { result ≡ hint_after last before ahead name.now }
{
    match last {
        Near::Nothing => at_setup(ahead.here, name),
        Near::CloseBrace => at_thread(ahead.here, name),
        Near::OpenBrace | Near::Semicolon => at_call(ahead.here, ahead, before.is_closed),
        Near::Name => after_name(before.second, before, ahead, name),
        Near::CloseParen => FormHint::Semicolon,
        Near::Assign => after_assign(ahead.here, ahead.next),
        Near::New => FormHint::NoClass,
        Near::Dot => FormHint::NoMethod,
        Near::OpenParen | Near::Comma => at_argument(ahead.here),
        Near::Value => after_argument(ahead.here),
        Near::Minus => FormHint::Argument,
        _ => FormHint::Program,
    }
}

/// What is said of a place at which no token begins.
fn unread_lesson(byte: u8, at: usize) -> &'static str
    ensures { result.now ≡ unread_lesson byte at }
{
    if byte == b'/' {
        "this comment isn't closed: write `*/` at its end\n"
    } else if byte >= b'0' && byte <= b'9' {
        "a number has only decimal digits, no 0 in front, and is at most 2147483647\n"
    } else {
        byte_lesson(byte, at)
    }
}

/// The same, if no token is here.
fn unread(here: Near, byte: u8, at: usize) -> &'static str
    ensures { result.now ≡ unread here byte at }
{
    match here {
        Near::Nothing => unread_lesson(byte, at),
        _ => "",
    }
}

/// What is said of the tokens before a place, and of the text from it on.
fn form_text(before: Before, ahead: Ahead, left: &[u8], at: usize) -> &'static str
    ensures { result.now ≡ form_text before ahead left.now at }
{
    let hint = hint_after(before.last, before, ahead, front_name(left));
    or_else(unread(ahead.here, byte_at(left, 0), at), hint_text(hint))
}

/// Whether the place isn't within a character, nor after the end.
fn is_between(text: &str, at: usize) -> bool
    ensures { result ≡ is_between text.now at }
{
    at <= text.len() && begins_character(byte_at(text.as_bytes(), at))
}

/// What is said of a text that isn't written as a thread program (21). `at` is the first byte that doesn't fit. The
/// only refusal is that memory ran out.
#[tactic(auto, using(crate::proofs::Boundaries::boundary))]
pub(crate) fn form_lesson(alloc: Global, text: &str, at: usize) -> Result<&'static str, AllocError>
    ensures { IfOk result (λ lesson. lesson.now ≡ form_lesson text.now at) }
{
    if !is_between(text, at) {
        return Ok(hint_text(FormHint::Program));
    }
    let (gone, left) = text.split_at(at);
    let tokens = tokens_in(alloc, gone)?;
    let before = before_end(tokens.as_slice());
    let tokens = tokens_in(alloc, left)?;
    let ahead = ahead_of(tokens.as_slice());
    Ok(form_text(before, ahead, left.as_bytes(), at))
}
