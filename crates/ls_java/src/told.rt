// What is told of a Java file, a line each.

use crate::fault::NotRestated;
use crate::remarks::{Remark, Said};
use ls_java_lexer::fault::JavaFault;
use ls_java_output::lines::{column_at, line_ends};
use ls_java_tables::remarks::Why;
use ls_java_tables::sentences::number_of;
use std::alloc::{AllocError, Global};
use std::fmt::Write;

// The numbers of refusals that aren't of the file's forms: of its text, and of what comes out.
const TOO_LONG: usize = 801;

const NO_CLASS_TEXT: usize = 802;

const BREAKS_RULE: usize = 803;

const MISPLACED: usize = 804;

// Where a line that is told begins: the name of the file, if it has one, and its line, if one is known.
fn place(out: &mut String, name: Option<&str>, line: usize) -> Result<(), AllocError> {
    match name {
        Some(name) if line > 0 => write!(out, "{name}:{line}: "),
        Some(name) => write!(out, "{name}: "),
        None if line > 0 => write!(out, "line {line}: "),
        None => Ok(()),
    }
}

// Where a refusal begins: its place, and its number.
fn begin(
    out: &mut String,
    name: Option<&str>,
    line: usize,
    number: usize,
) -> Result<(), AllocError> {
    place(out, name, line)?;
    write!(out, "error[J{number}]: ")
}

// The word that is meant, if there is one.
fn tell_word(out: &mut String, word: &str) -> Result<(), AllocError> {
    if word.is_empty() {
        return Ok(());
    }
    write!(out, "`{word}`: ")
}

// A remark: the word that is meant, if there is one, and a sentence.
fn tell(out: &mut String, name: Option<&str>, remark: &Remark) -> Result<(), AllocError> {
    match remark.said {
        Said::Note(what) => {
            place(out, name, remark.line)?;
            write!(out, "note: ")?;
            tell_word(out, remark.word.as_str())?;
            writeln!(out, "{what}")
        }
        Said::Refusal(why) => {
            begin(out, name, remark.line, number_of(why))?;
            tell_word(out, remark.word.as_str())?;
            writeln!(out, "{why}")
        }
    }
}

fn tell_all(out: &mut String, name: Option<&str>, all: &[Remark]) -> Result<(), AllocError> {
    for remark in all {
        tell(out, name, remark)?;
    }
    Ok(())
}

// The byte of a file that a fault names, if it names one.
fn byte_of(fault: JavaFault) -> Option<usize> {
    match fault {
        JavaFault::Memory | JavaFault::TooLong => None,
        JavaFault::BadByte { at } => Some(at),
        JavaFault::NotAscii { at } => Some(at),
        JavaFault::UnicodeEscape { at } => Some(at),
        JavaFault::OpenComment { at } => Some(at),
        JavaFault::OpenText { at } => Some(at),
        JavaFault::BadCharacter { at } => Some(at),
        JavaFault::BadNumber { at } => Some(at),
        JavaFault::LargeNumber { at } => Some(at),
        JavaFault::Expected { at, .. } => Some(at),
        JavaFault::Unread { at, .. } => Some(at),
        JavaFault::TooDeep { at } => Some(at),
    }
}

// The number of a fault of reading. Want of memory has none.
fn number_of_fault(fault: JavaFault) -> Option<usize> {
    match fault {
        JavaFault::Memory => None,
        JavaFault::TooLong => Some(701),
        JavaFault::BadByte { .. } => Some(702),
        JavaFault::NotAscii { .. } => Some(703),
        JavaFault::UnicodeEscape { .. } => Some(704),
        JavaFault::OpenComment { .. } => Some(705),
        JavaFault::OpenText { .. } => Some(706),
        JavaFault::BadCharacter { .. } => Some(707),
        JavaFault::BadNumber { .. } => Some(708),
        JavaFault::LargeNumber { .. } => Some(709),
        JavaFault::Expected { .. } => Some(710),
        JavaFault::Unread { .. } => Some(711),
        JavaFault::TooDeep { .. } => Some(712),
    }
}

// What stands before what is wrong: `error`, with the number of the fault.
fn sort_of_fault(out: &mut String, fault: JavaFault) -> Result<(), AllocError> {
    match number_of_fault(fault) {
        Some(number) => write!(out, "error[J{number}]: "),
        None => write!(out, "error: "),
    }
}

// Whether the place of a fault is a byte order mark at the head of the file.
fn is_mark(text: &str, fault: JavaFault) -> bool {
    matches!(fault, JavaFault::NotAscii { at: 0 }) && text.starts_with("\u{feff}")
}

// What is wrong at the place of a fault.
fn say_fault(out: &mut String, text: &str, fault: JavaFault) -> Result<(), AllocError> {
    if is_mark(text, fault) {
        return write!(
            out,
            "a byte order mark (U+FEFF) before the first word: save the file as UTF-8 without it"
        );
    }
    match fault {
        JavaFault::Memory => write!(out, "out of memory"),
        JavaFault::TooLong => write!(out, "the text has more than 262,144 bytes"),
        JavaFault::BadByte { .. } => write!(out, "a character that no token has"),
        JavaFault::NotAscii { .. } => write!(
            out,
            "a letter that isn't of ASCII: write ASCII letters"
        ),
        JavaFault::UnicodeEscape { .. } => write!(
            out,
            "a `\\u` escape: write the character itself"
        ),
        JavaFault::OpenComment { .. } => write!(out, "a comment that doesn't end"),
        JavaFault::OpenText { .. } => write!(out, "a text that doesn't end on its line"),
        JavaFault::BadCharacter { .. } => write!(out, "no character"),
        JavaFault::BadNumber { .. } => write!(out, "no number"),
        JavaFault::LargeNumber { .. } => write!(out, "a number that is too large"),
        JavaFault::Expected { wanted, .. } => write!(out, "expected {wanted}"),
        JavaFault::Unread { form, .. } => write!(out, "{form}"),
        JavaFault::TooDeep { .. } => write!(out, "nested too deeply"),
    }
}

// A fault of reading, with its line and its column, both from 1.
fn tell_fault(
    out: &mut String,
    name: Option<&str>,
    text: &str,
    fault: JavaFault,
) -> Result<(), AllocError> {
    match byte_of(fault) {
        Some(at) => {
            let line = line_ends(text, 0, at).saturating_add(1);
            let column = column_at(text, at);
            match name {
                Some(name) => write!(out, "{name}:{line}:{column}: ")?,
                None => write!(out, "line {line}:{column}: ")?,
            }
        }
        None => place(out, name, 0)?,
    }
    sort_of_fault(out, fault)?;
    say_fault(out, text, fault)?;
    writeln!(out, "")
}

/// What was restated otherwise than it is written. `name` is that of the file, if it has one.
pub fn notes_told(
    alloc: Global,
    name: Option<&str>,
    notes: &[Remark],
) -> Result<String, AllocError> {
    let mut out = String::new(alloc);
    tell_all(&mut out, name, notes)?;
    Ok(out)
}

/// Why a Java file isn't restated: all that can't be restated, or what went wrong first. `name` is that of the file, if
/// it has one, and `text` the file.
pub fn refusal_told(
    alloc: Global,
    name: Option<&str>,
    text: &str,
    why: &NotRestated,
) -> Result<String, AllocError> {
    let mut out = String::new(alloc);
    match why {
        NotRestated::Refused { refusals, .. } => tell_all(&mut out, name, refusals)?,
        NotRestated::Unread(fault) => tell_fault(&mut out, name, text, *fault)?,
        NotRestated::NoClassText { line, fault } => {
            begin(&mut out, name, *line, NO_CLASS_TEXT)?;
            writeln!(out, "the class text that comes out isn't accepted: {fault}")?;
        }
        NotRestated::BreaksRule { line, broken } => {
            begin(&mut out, name, *line, BREAKS_RULE)?;
            writeln!(
                out,
                "the class text that comes out isn't accepted: {broken}"
            )?;
        }
        NotRestated::Memory => {
            place(&mut out, name, 0)?;
            writeln!(out, "error: out of memory")?;
        }
        NotRestated::Misplaced => {
            begin(&mut out, name, 0, MISPLACED)?;
            writeln!(
                out,
                "the class text that comes out isn't laid out as the file is"
            )?;
        }
        NotRestated::TooDeep => {
            let why = Why::TooDeep;
            begin(&mut out, name, 0, number_of(why))?;
            writeln!(out, "{why}")?;
        }
        NotRestated::TooLong => {
            begin(&mut out, name, 0, TOO_LONG)?;
            writeln!(out, "what comes out is too long")?;
        }
    }
    Ok(out)
}
