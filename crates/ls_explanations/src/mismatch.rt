// What is said of an expression of another type than is wanted, and of another number of arguments.

ghost use Rattle.std.specs.Prelude.{◌≡◌, ◌++◌, OnOk};
ghost use Rattle.ls_lexer.specs.Lexemes.{lexemes};
ghost use Rattle.ls_types_elaboration.specs.declared.mismatch.Mismatch.TheVariants as mismatches;
ghost use Rattle.ls_explanations.specs.Mismatches.{counts_text, details, mismatch_line, mismatch_text, plural};
ghost use Rattle.ls_explanations.specs.Mismatches.{rule_details, static_text, type_text};
ghost use Rattle.ls_explanations.specs.ProgramForms.{form_lesson};

use crate::classes::{class_name, tokens_in};
use crate::forms::form_lesson;
use crate::lessons::call_lesson;
use crate::programs::unknown_lesson;
use ls_events::value::ValueType;
use ls_faults::fault::ToolFault;
use ls_lexer::token::Token;
use ls_types_checked::checked::CheckFault;
use ls_types_checked::fault::ProgramFault;
use ls_types_elaboration::mismatch::{Counts, Mismatch};
use ls_types_elaboration::rule::Rule;
use ls_types_elaboration::static_types::Static;
use std::alloc::{AllocError, Global};
use std::fmt::Write;

/// Adds three texts.
fn push_three(out: &mut Vec<u8>, front: &str, middle: &str, back: &str) -> Result<(), AllocError>
    ensures { OnOk result (out.new.items ≡ out.old.items ++ (front.now ++ (middle.now ++ back.now))) }
{
    out.extend_from_slice(front.as_bytes())?;
    out.extend_from_slice(middle.as_bytes())?;
    out.extend_from_slice(back.as_bytes())
}

/// Adds a type, as it is written.
fn push_type(out: &mut Vec<u8>, tokens: &[Token<'_>], t: ValueType) -> Result<(), AllocError>
    ensures { OnOk result (out.new.items ≡ out.old.items ++ type_text (lexemes tokens.now) t) }
{
    match t {
        ValueType::Int => out.extend_from_slice("`int`".as_bytes()),
        ValueType::Boolean => out.extend_from_slice("`boolean`".as_bytes()),
        ValueType::BooleanArray => out.extend_from_slice("`boolean[]`".as_bytes()),
        ValueType::Class(number) => push_three(out, "`", class_name(tokens, number), "`"),
        ValueType::Lock => out.extend_from_slice("`Lock`".as_bytes()),
        ValueType::Markable(number) => {
            let class = class_name(tokens, number);
            push_three(out, "`AtomicMarkableReference<", class, ">`")
        }
    }
}

/// Adds what type an expression has.
fn push_static(out: &mut Vec<u8>, tokens: &[Token<'_>], x: Static) -> Result<(), AllocError>
    ensures { OnOk result (out.new.items ≡ out.old.items ++ static_text (lexemes tokens.now) x) }
{
    match x {
        Static::Of(t) => push_type(out, tokens, t),
        Static::NullType => out.extend_from_slice("`null`".as_bytes()),
        Static::Void => out.extend_from_slice("a call of a `void` method".as_bytes()),
    }
}

/// Adds a wanted type, and the one that is there.
fn push_types(
    out: &mut Vec<u8>,
    tokens: &[Token<'_>],
    wanted: ValueType,
    found: Static,
) -> Result<(), AllocError>
    ensures { OnOk result (out.new.items ≡
        out.old.items ++ mismatch_line (lexemes tokens.now) (mismatches.Type wanted found)) }
{
    out.extend_from_slice("expected ".as_bytes())?;
    push_type(out, tokens, wanted)?;
    out.extend_from_slice(", found ".as_bytes())?;
    push_static(out, tokens, found)
}

/// Adds two types that can't be compared.
fn push_operands(
    out: &mut Vec<u8>,
    tokens: &[Token<'_>],
    left: Static,
    right: Static,
) -> Result<(), AllocError>
    ensures { OnOk result (out.new.items ≡
        out.old.items ++ mismatch_line (lexemes tokens.now) (mismatches.Operands left right)) }
{
    push_static(out, tokens, left)?;
    out.extend_from_slice(" can't be compared with ".as_bytes())?;
    push_static(out, tokens, right)
}

/// Adds a type in place of which an object is wanted.
fn push_no_object(out: &mut Vec<u8>, tokens: &[Token<'_>], found: Static) -> Result<(), AllocError>
    ensures { OnOk result (out.new.items ≡
        out.old.items ++ mismatch_line (lexemes tokens.now) (mismatches.NoObject found)) }
{
    let text = "expected an object of a class of this text, found ";
    out.extend_from_slice(text.as_bytes())?;
    push_static(out, tokens, found)
}

/// Adds the type that a method answers.
fn push_not_returned(
    out: &mut Vec<u8>,
    tokens: &[Token<'_>],
    t: ValueType,
) -> Result<(), AllocError>
    ensures { OnOk result (out.new.items ≡
        out.old.items ++ mismatch_line (lexemes tokens.now) (mismatches.NotReturned t)) }
{
    out.extend_from_slice("expected `return` with a value of type ".as_bytes())?;
    push_type(out, tokens, t)
}

/// Adds which type is wanted, and which one is there.
fn push_line(out: &mut Vec<u8>, tokens: &[Token<'_>], mismatch: Mismatch) -> Result<(), AllocError>
    ensures { OnOk result (out.new.items ≡ out.old.items ++ mismatch_line (lexemes tokens.now) mismatch) }
{
    match mismatch {
        Mismatch::Type { wanted, found } => push_types(out, tokens, wanted, found),
        Mismatch::NoValue => {
            let text = "expected a value, found a call of a `void` method";
            out.extend_from_slice(text.as_bytes())
        }
        Mismatch::Operands { left, right } => push_operands(out, tokens, left, right),
        Mismatch::NoObject(found) => push_no_object(out, tokens, found),
        Mismatch::NotReturned(t) => push_not_returned(out, tokens, t),
        Mismatch::Returned => {
            let text = "expected `return` without a value, since the method is `void`";
            out.extend_from_slice(text.as_bytes())
        }
    }
}

/// Adds the line that says which type is wanted, and which one is there.
fn push_mismatch(
    out: &mut Vec<u8>,
    tokens: &[Token<'_>],
    mismatch: Mismatch,
) -> Result<(), AllocError>
    ensures { OnOk result (out.new.items ≡ out.old.items ++ mismatch_text (lexemes tokens.now) mismatch) }
{
    push_line(out, tokens, mismatch)?;
    out.extend_from_slice("\n".as_bytes())
}

/// The ending of a word that counts so many things.
fn plural(count: usize) -> &'static str
    ensures { result.now ≡ plural count }
{
    if count == 1 { "" } else { "s" }
}

/// Adds how many arguments are wanted, and how many are there.
fn push_counts(alloc: Global, out: &mut Vec<u8>, counts: Counts) -> Result<(), AllocError>
    ensures { OnOk result (out.new.items ≡ out.old.items ++ counts_text counts) }
{
    let Counts { wanted, found } = counts;
    let ending = plural(wanted);
    let mut text = String::new(alloc);
    write!(text, "expected {wanted} argument{ending}, found {found}\n")?;
    out.extend_from_slice(text.as_bytes())
}

/// Adds what is said of a broken rule beyond the sentence of its name.
fn push_rule_details(
    alloc: Global,
    out: &mut Vec<u8>,
    rule: Rule,
    classes: &str,
    at: usize,
) -> Result<(), AllocError>
    ensures { OnOk result (out.new.items ≡ out.old.items ++ rule_details rule classes.now at) }
{
    match rule {
        Rule::WrongType(mismatch) => {
            let tokens = tokens_in(alloc, classes)?;
            push_mismatch(out, tokens.as_slice(), mismatch)
        }
        Rule::WrongArguments(counts) => {
            if call_lesson(classes.as_bytes(), at).is_empty() {
                push_counts(alloc, out, counts)
            } else {
                Ok(())
            }
        }
        _ => Ok(()),
    }
}

/// Adds what is said of a text that isn't written as a thread program.
fn push_form(alloc: Global, out: &mut Vec<u8>, program: &str, at: usize) -> Result<(), AllocError>
    ensures { OnOk result (out.new.items ≡ out.old.items ++ form_lesson program.now at) }
{
    let lesson = form_lesson(alloc, program, at)?;
    out.extend_from_slice(lesson.as_bytes())
}

/// Adds what is said of a fault beyond its sentence: the types, the numbers of arguments, or what a program names.
pub(crate) fn push_details(
    alloc: Global,
    out: &mut Vec<u8>,
    fault: ToolFault,
    classes: &str,
    program: &str,
) -> Result<(), AllocError>
    ensures { OnOk result (out.new.items ≡ out.old.items ++ details fault classes.now program.now) }
{
    match fault {
        ToolFault::Check(CheckFault::Broken(broken)) => {
            push_rule_details(alloc, out, broken.rule, classes, broken.span.start)
        }
        ToolFault::Program(ProgramFault::UnknownThing { at }) => {
            out.extend_from_slice(unknown_lesson(program.as_bytes(), at).as_bytes())
        }
        ToolFault::Program(ProgramFault::BadProgram { at }) => {
            push_form(alloc, out, program, at)
        }
        _ => Ok(()),
    }
}
