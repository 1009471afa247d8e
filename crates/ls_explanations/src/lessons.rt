// What is said of a fault of a class text, by the text at its place.

ghost use Rattle.std.specs.Prelude.{◌≡◌};
ghost use Rattle.ls_explanations.specs.Lessons.{byte_lesson, call_lesson, class_lesson, lacks_semicolon};
ghost use Rattle.ls_explanations.specs.Lessons.{lesson_between};
ghost use Rattle.ls_explanations.specs.Lessons.{name_lesson, or_else};
ghost use Rattle.ls_explanations.specs.Lessons.{semicolon_lesson, sign_lesson, syntax_lesson, token_lesson};
ghost use Rattle.ls_explanations.specs.Lessons.{type_lesson};
ghost use Rattle.ls_explanations.specs.Lessons.{word_lesson};

use crate::names::{method_lesson, pair_lesson};
use crate::signs::operator_lesson;
use crate::tokens::{Cut, byte_at, called_name, cut_at, end_of, front_name, last_byte, last_name};
use crate::types::{atomic_lesson, key_lesson};
use crate::words::member_lesson;

/// The first text, or the other if the first is empty.
pub(crate) fn or_else(first: &'static str, other: &'static str) -> &'static str
    ensures { result.now ≡ or_else first.now other.now }
{
    if first.is_empty() { other } else { first }
}

fn word_lesson(name: &[u8], last: u8) -> &'static str
    ensures { result.now ≡ word_lesson name.now last }
{
    if name == b"class".as_slice() {
        if last == b'.' {
            "`.class` isn't supported: lock an object, as in `synchronized (this)`\n"
        } else {
            "nested classes aren't supported: move this class beside the other, and pass it the objects that it uses\n"
        }
    } else if (name == b"int".as_slice() || name == b"boolean".as_slice()) && last == b'(' {
        "casts aren't supported: remove this one\n"
    } else {
        member_lesson(name)
    }
}

fn sign_lesson(before: &[u8], from_on: &[u8]) -> &'static str
    ensures { result.now ≡ sign_lesson before.now from_on.now }
{
    let sign = byte_at(from_on, 0);
    let next = byte_at(from_on, 1);
    let last = last_byte(before);
    if sign == b'<' {
        or_else(
            atomic_lesson(last_name(before)),
            operator_lesson(sign, next, last),
        )
    } else {
        operator_lesson(sign, next, last)
    }
}

/// Whether a token begins its line, or is a }, after something that ends no statement.
fn lacks_semicolon(before: &[u8], between: &[u8], from_on: &[u8]) -> bool
    ensures { result ≡ lacks_semicolon before.now between.now from_on.now }
{
    let last = last_byte(before);
    let ends = last == b';' || last == b'{' || last == b'}' || last == 0;
    (between.contains(&b'\n') || byte_at(from_on, 0) == b'}') && !ends
}

fn semicolon_lesson(before: &[u8], between: &[u8], from_on: &[u8]) -> &'static str
    ensures { result.now ≡ semicolon_lesson before.now between.now from_on.now }
{
    if lacks_semicolon(before, between, from_on) {
        "expected `;` before this\n"
    } else {
        ""
    }
}

fn token_lesson(before: &[u8], between: &[u8], from_on: &[u8]) -> &'static str
    ensures { result.now ≡ token_lesson before.now between.now from_on.now }
{
    let name = front_name(from_on);
    let own = if byte_at(name, 0) == 0 {
        sign_lesson(before, from_on)
    } else {
        word_lesson(name, last_byte(before))
    };
    or_else(own, semicolon_lesson(before, between, from_on))
}

/// What is said of a place, by the text before it and the text from it on.
fn lesson_between(gone: &[u8], from_on: &[u8]) -> &'static str
    ensures { result.now ≡ lesson_between gone.now from_on.now }
{
    let (before, between) = gone.split_at(end_of(gone));
    token_lesson(before, between, from_on)
}

/// What is said if a token can't come here in a class text (6). `at` is its byte.
pub fn syntax_lesson(text: &[u8], at: usize) -> &'static str
    ensures { result.now ≡ syntax_lesson text.now at }
{
    let Cut { gone, left } = cut_at(text, at);
    lesson_between(gone, left)
}

/// What is said of a byte that begins no token (3), at its place.
pub fn byte_lesson(byte: u8, at: usize) -> &'static str
    ensures { result.now ≡ byte_lesson byte at }
{
    if byte == b'"' {
        "strings aren't supported: remove what prints this. Histories and traces show what each step does\n"
    } else if byte == b'\'' {
        "`char` values aren't supported: use an `int`\n"
    } else if byte == 239 && at == 0 {
        "unexpected byte order mark: save the file as UTF-8 without one\n"
    } else if byte >= 128 {
        "only ASCII is allowed outside of comments: use the letters A to Z in names\n"
    } else {
        ""
    }
}

/// What is said of a name that is no type.
fn class_lesson(name: &[u8]) -> &'static str
    ensures { result.now ≡ class_lesson name.now }
{
    let own = or_else(key_lesson(name), atomic_lesson(name));
    or_else(
        own,
        "cannot find this class in the text or the library (Lock, ReentrantLock, AtomicMarkableReference)\n",
    )
}

/// What is said of a type that doesn't exist (12).
pub fn type_lesson(text: &[u8], at: usize) -> &'static str
    ensures { result.now ≡ type_lesson text.now at }
{
    let Cut { gone: _, left } = cut_at(text, at);
    class_lesson(front_name(left))
}

/// What is said of a call with another number of arguments (14), if its name says why; else nothing.
pub fn call_lesson(text: &[u8], at: usize) -> &'static str
    ensures { result.now ≡ call_lesson text.now at }
{
    let Cut { gone: _, left } = cut_at(text, at);
    pair_lesson(called_name(left))
}

/// What is said of a name that names nothing there (10).
pub fn name_lesson(text: &[u8], at: usize) -> &'static str
    ensures { result.now ≡ name_lesson text.now at }
{
    let Cut { gone: _, left } = cut_at(text, at);
    or_else(
        method_lesson(front_name(left)),
        "cannot find this name: no local in scope, no field and no method of that class has it\n",
    )
}
