// The places of the accesses of a race, as lines.

ghost use Rattle.std.specs.Prelude.{◌≡◌, ◌++◌, ◌≤◌, IfOk, OnOk, length, string_bytes};
ghost use Rattle.ls_labels.specs.Names.{names_of};
ghost use Rattle.ls_race_places.specs.Seen.{course_of};
ghost use Rattle.ls_race_places.specs.Places.{AreTokens, access_line, did_line, does_text, last_lines, name_of};
ghost use Rattle.ls_race_places.specs.Places.{next_line, step_line};

use crate::courses::{Course, course_after, course_along};
use crate::sought::{Sought, push_seen, seen_in};
use ls_events::action::Action;
use ls_labels::label::Label;
use ls_labels::names::{Names, field_name};
use ls_labels::objects::label_at;
use ls_labels::threads::thread_name;
use ls_lexer::lexing::lex;
use ls_lexer::token::Token;
use ls_meaning::step::Did;
use std::alloc::{AllocError, Global};

/// The class text of a run, and its tokens.
#[derive(Copy)]
pub struct ClassText<'a> {
    pub text: &'a str,
    pub tokens: &'a [Token<'a>],
}

impl<'a> Clone for ClassText<'a> {
    fn clone(&self) -> Result<ClassText<'a>, AllocError> {
        Ok(*self)
    }
}

/// A field of an object, and whether it is written.
#[derive(Copy)]
struct FieldAccess {
    object: u64,
    field: usize,
    writes: bool,
}

impl Clone for FieldAccess {
    fn clone(&self) -> Result<FieldAccess, AllocError> {
        Ok(*self)
    }
}

/// The tokens of a class text. A text that has none is refused as where memory runs out: it isn't compiled.
pub fn tokens_in<'a>(alloc: Global, text: &'a str) -> Result<Vec<Token<'a>>, AllocError>
    ensures { IfOk result (λ tokens. AreTokens text.now tokens.items) }
{
    match lex(alloc, text) {
        Ok(tokens) => Ok(tokens),
        Err(_) => Err(AllocError),
    }
}

fn does_words(writes: bool) -> &'static str
    ensures { result.now ≡ does_text writes }
{
    if writes { " writes it" } else { " reads it" }
}

/// The name of a field of an object that was made.
fn name_of<'n>(names: Names<'n>, course: &Course<'_>, object: u64, field: usize) -> &'n str
    ensures { result.now ≡ name_of (names_of names.entry) (course_of course.now) object field }
{
    match label_at(course.labels.as_slice(), object) {
        Some(Label::Class(class)) => field_name(names, class, field),
        Some(Label::Lock | Label::Markable | Label::Array) => "",
        None => "",
    }
}

/// Adds the line of an access of a thread.
fn push_access(
    alloc: Global,
    out: &mut String,
    names: Names<'_>,
    text: ClassText<'_>,
    course: &Course<'_>,
    thread: usize,
    access: FieldAccess,
) -> Result<(), AllocError>
    ensures { OnOk result (string_bytes out.new ≡ string_bytes out.old ++
        access_line (names_of names.entry) text.entry.text.now text.entry.tokens.now (course_of course.now) thread
        access.object access.field access.writes) }
{
    let seen = seen_in(
        alloc,
        text.text,
        text.tokens,
        Sought {
            name: name_of(names, course, access.object, access.field),
            methods: course.methods.as_slice(),
            writes: access.writes,
        },
    )?;
    out.push_str("  ")?;
    out.push_str(thread_name(names.program, thread))?;
    out.push_str(does_words(access.writes))?;
    push_seen(out, &seen)?;
    out.push_str("\n")
}

/// Adds the line of what a thread did, if it accessed a field.
fn push_did(
    alloc: Global,
    out: &mut String,
    names: Names<'_>,
    text: ClassText<'_>,
    course: &Course<'_>,
    thread: usize,
    did: &Did,
) -> Result<(), AllocError>
    ensures { OnOk result (string_bytes out.new ≡ string_bytes out.old ++
        did_line (names_of names.entry) text.entry.text.now text.entry.tokens.now (course_of course.now) thread
        did.now) }
{
    match did {
        Did::Acted(Action::ReadField { object, field }, _) => {
            let access = FieldAccess {
                object: *object,
                field: *field,
                writes: false,
            };
            push_access(alloc, out, names, text, course, thread, access)
        }
        Did::Acted(
            Action::WriteField {
                object,
                field,
                value: _,
            },
            _,
        ) => {
            let access = FieldAccess {
                object: *object,
                field: *field,
                writes: true,
            };
            push_access(alloc, out, names, text, course, thread, access)
        }
        Did::Acted(_, _) => Ok(()),
        Did::Waits => Ok(()),
        Did::Idle => Ok(()),
    }
}

/// Adds the line of what a thread does after some steps, if it accesses a field.
fn push_next(
    alloc: Global,
    out: &mut String,
    names: Names<'_>,
    text: ClassText<'_>,
    steps: &[u8],
    thread: usize,
) -> Result<(), AllocError>
    ensures { OnOk result (string_bytes out.new ≡ string_bytes out.old ++
        next_line (names_of names.entry) text.entry.text.now text.entry.tokens.now steps.now thread) }
{
    let course = course_along(alloc, names, thread, steps)?;
    let before = course_along(alloc, names, thread, steps)?;
    let (_after, did) = course_after(alloc, names, thread, before, thread)?;
    push_did(alloc, out, names, text, &course, thread, &did)
}

/// Adds the line of the step that so many come before, if it accesses a field.
fn push_step(
    alloc: Global,
    out: &mut String,
    names: Names<'_>,
    text: ClassText<'_>,
    steps: &[u8],
    before: usize,
) -> Result<(), AllocError>
    ensures { OnOk result (string_bytes out.new ≡ string_bytes out.old ++
        step_line (names_of names.entry) text.entry.text.now text.entry.tokens.now steps.now before) }
{
    let thread = match steps.get(before) {
        Some(thread) => *thread as usize,
        None => 0,
    };
    let (first, _rest) = steps.split_at(before.min(steps.len()));
    push_next(alloc, out, names, text, first, thread)
}

/// Adds a line for each of the last two steps that accesses a field: as `  A writes it in S.get, line 8`. The methods
/// are those that the thread has entered in its call. If several lines of one may access the field so, it stands
/// alone; if several methods may, none does. The only refusal is that memory ran out.
pub fn push_last_lines(
    alloc: Global,
    out: &mut String,
    names: Names<'_>,
    text: ClassText<'_>,
    steps: &[u8],
) -> Result<(), AllocError>
    ensures { OnOk result (string_bytes out.new ≡ string_bytes out.old ++
        last_lines (names_of names.entry) text.entry.text.now text.entry.tokens.now steps.now) }
{
    let many = steps.len();
    push_step(alloc, out, names, text, steps, many.saturating_sub(2))?;
    push_step(alloc, out, names, text, steps, many.saturating_sub(1))
}
