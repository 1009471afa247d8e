// What is said of what a thread program names and isn't there, by the text at a place.

ghost use Rattle.std.specs.Prelude.{◌≡◌};
ghost use Rattle.ls_explanations.specs.Programs.{is_object, is_value, missing_lesson, unknown_lesson};

use crate::tokens::{
    Cut, byte_at, cut_at, end_of, front_name, is_either, is_word, last_byte, last_name,
};

/// Whether a number, `true` or `false` begins here.
fn is_value(from_on: &[u8]) -> bool
    ensures { result ≡ is_value from_on.now }
{
    let first = byte_at(from_on, 0);
    let name = front_name(from_on);
    (first >= b'0' && first <= b'9') || first == b'-' || is_either(name, b"true", b"false")
}

/// Whether a point comes right after the name here.
fn is_object(from_on: &[u8]) -> bool
    ensures { result ≡ is_object from_on.now }
{
    let Cut { gone: _, left } = cut_at(from_on, front_name(from_on).len());
    byte_at(left, 0) == b'.'
}

/// What is said of the text before a place, and of the text from it on.
fn missing_lesson(before: &[u8], from_on: &[u8]) -> &'static str
    ensures { result.now ≡ missing_lesson before.now from_on.now }
{
    if is_value(from_on) {
        "mismatched types: the parameter has another type than this argument\n"
    } else if is_word(last_name(before), b"new") {
        "cannot find this class in the class text, or its constructor takes another number of arguments\n"
    } else if last_byte(before) == b'.' {
        "cannot find this method in the class of the object, or it takes another number of arguments\n"
    } else if is_object(from_on) {
        "cannot find this object: the setup makes none of this name\n"
    } else {
        "cannot find a class, a setup name or a method of this name, or the arguments don't fit it\n"
    }
}

/// What is said of a class, an object or a method that isn't there, or of arguments that don't fit (22). `at` is its
/// byte in the thread program.
pub fn unknown_lesson(text: &[u8], at: usize) -> &'static str
    ensures { result.now ≡ unknown_lesson text.now at }
{
    let Cut { gone, left } = cut_at(text, at);
    let Cut {
        gone: before,
        left: _,
    } = cut_at(gone, end_of(gone));
    missing_lesson(before, left)
}
