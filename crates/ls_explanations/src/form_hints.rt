// What is said of a text that isn't written as a thread program.

ghost use Rattle.std.specs.Prelude.{◌≡◌};
ghost use Rattle.ls_explanations.specs.FormHints.{call_text, hint_text, making_text};

use std::alloc::AllocError;

/// Why a thread program can't go on at a place.
#[derive(Copy)]
pub(crate) enum FormHint {
    Program,
    Classes,
    NoSetup,
    SecondSetup,
    Brace,
    NoParentheses,
    Thread,
    ThreadName,
    All,
    ThreadTwice,
    Unclosed,
    End,
    Unexpected,
    Typed,
    Unnamed,
    MadeTwice,
    MadeByThread,
    NoNew,
    Made,
    NoClass,
    TypeArguments,
    Call,
    NoObject,
    NoDot,
    Semicolon,
    Statement,
    Kept,
    NoMethod,
    NoArguments,
    Argument,
    Number,
    Closing,
}

impl Clone for FormHint {
    fn clone(&self) -> Result<FormHint, AllocError> {
        Ok(*self)
    }
}

/// What is said of calls.
fn call_text(hint: FormHint) -> &'static str
    ensures { result.now ≡ call_text hint }
{
    match hint {
        FormHint::Call => "expected a call, as `s.m(1);`\n",
        FormHint::NoObject => {
            "expected an object before this call: write `s.m(1);` for a name `s` of the setup\n"
        }
        FormHint::NoDot => "expected `.` between the object and its method, as `s.m(1);`\n",
        FormHint::Semicolon => "expected `;` after the call\n",
        FormHint::Statement => {
            "a thread program has calls alone: write `if`, loops and `return` into a method of the class\n"
        }
        FormHint::Kept => "a thread program keeps no answers: write the call alone, as `s.m(1);`\n",
        FormHint::NoMethod => "expected the name of a method after the point\n",
        FormHint::NoArguments => "expected `(` here: a call has parentheses, as `s.m()`\n",
        FormHint::Argument => "an argument is a number, `true` or `false`\n",
        FormHint::Number => {
            "a number has only decimal digits, no 0 in front, and is at most 2147483647\n"
        }
        FormHint::Closing => "expected `)` or `,` before this\n",
        _ => "",
    }
}

/// What is said of the objects that the setup makes.
fn making_text(hint: FormHint) -> &'static str
    ensures { result.now ≡ making_text hint }
{
    match hint {
        FormHint::Typed => {
            "a name of the setup has no type: write the name, `=` and what is made, as `s = new C();`\n"
        }
        FormHint::Unnamed => "expected a name for this object, as `s = new C();`\n",
        FormHint::MadeTwice => "the setup has this name already: use another\n",
        FormHint::MadeByThread => "only the setup makes objects: make this one there\n",
        FormHint::NoNew => "expected `new` before the class, as `s = new C();`\n",
        FormHint::Made => "a name of the setup is given to an object alone, as `s = new C();`\n",
        FormHint::NoClass => "expected a class of the class text after `new`\n",
        FormHint::TypeArguments => "unexpected `<`: a thread program has no types in `< >`\n",
        other => call_text(other),
    }
}

/// What is said, in a sentence or two.
pub(crate) fn hint_text(hint: FormHint) -> &'static str
    ensures { result.now ≡ hint_text hint }
{
    match hint {
        FormHint::Program => {
            "expected `setup { .. }` and then `thread NAME { .. }` as often as wanted, with calls as `s.m(1);`\n"
        }
        FormHint::Classes => "expected the thread program here: the class text comes before it\n",
        FormHint::NoSetup => "expected `setup { .. }` before the first thread\n",
        FormHint::SecondSetup => {
            "there is one `setup`, which comes first: write all that it does there\n"
        }
        FormHint::Brace => "expected `{` here\n",
        FormHint::NoParentheses => "unexpected `(`: only `{ .. }` comes after this name\n",
        FormHint::Thread => "expected `thread NAME { .. }` here, or the end of the text\n",
        FormHint::ThreadName => "expected a name for the thread, as `thread A { .. }`\n",
        FormHint::All => "no thread is named `all`: in a schedule it stands for each thread\n",
        FormHint::ThreadTwice => "this name is taken: use another for this thread\n",
        FormHint::Unclosed => {
            "expected `}` before this `thread`: the block before it isn't closed\n"
        }
        FormHint::End => "unexpected end of the text: a `}` is missing\n",
        FormHint::Unexpected => "unexpected here: remove this\n",
        other => making_text(other),
    }
}
