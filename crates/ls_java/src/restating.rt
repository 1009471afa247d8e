// A Java file as a class text.

ghost use Rattle.std.specs.Prelude.{◌≡◌, IfOk, IfSome, OnOk, string_bytes, true};
ghost use Rattle.ls_java.specs.Accepted.{IsAccepted, IsRestatement};
ghost use Rattle.ls_java_output.specs.Lines.{AreOnLines, lines_of};
ghost use Rattle.ls_java_output.specs.Words.{AreWords, ComeFrom};

use crate::accepting::{NotAccepted, accept};
use crate::fault::NotRestated;
use crate::remarks::{Remark, notes_of, refusals_of};
use ls_java_lexer::lexing::lex_java;
use ls_java_lexer::token::Token;
use ls_java_library::added::added_classes;
use ls_java_members::restating::restate_file;
use ls_java_output::keeping::layout_on_lines;
use ls_java_output::layout::{Made, Written, layout};
use ls_java_output::lines::{line_at, token_lines};
use ls_java_output::place::{Place, token_at};
use ls_java_output::placed::{are_words, come_from};
use ls_java_parser::reading::parse_java;
use ls_java_tables::restater::Restater;
use ls_java_tables::ropes::Text;
use ls_java_tree::declarations::File;
use ls_lexer::fault::TextFault;
use ls_types_elaboration::rule::CheckFault;
use std::alloc::{AllocError, Global};

/// A Java file restated: the class text, where its words come from, the line of each token of the file, and what was
/// restated otherwise than it is written.
#[derive(Drop)]
pub struct Restated {
    pub text: String,
    pub places: Vec<Place>,
    pub lines: Vec<usize>,
    pub notes: Vec<Remark>,
}

// The class text, on the lines of the file or laid out anew.
fn laid_out(
    made: Made,
    whole: Text,
    added: Text,
    on_lines: bool,
) -> Result<Option<Written>, AllocError>
    ensures { on_lines ≡ true → IfOk result (λ found. IfSome found (λ w.
        AreOnLines made.entry.text.now (string_bytes w.text) 0 w.places.items)) }
{
    if on_lines {
        return layout_on_lines(made, whole, added);
    }
    layout(made, whole, added)
}

// What is written of a file, on its lines or laid out anew.
fn write(
    restater: &mut Restater,
    text: &str,
    tokens: &[Token],
    whole: Text,
    on_lines: bool,
) -> Result<Written, NotRestated>
    ensures { on_lines ≡ true →
        IfOk result (λ w. AreOnLines text.entry.now (string_bytes w.text) 0 w.places.items) }
{
    let added = added_classes(restater)?;
    let made = Made {
        alloc: restater.alloc,
        words: &restater.words,
        ropes: &restater.ropes,
        text,
        tokens,
    };
    match laid_out(made, whole, added, on_lines)? {
        Some(written) => Ok(written),
        None => Err(NotRestated::TooLong),
    }
}

// A file restated, before it is read and checked.
fn draft<'a>(
    alloc: Global,
    text: &'a str,
    tokens: &'a [Token<'a>],
    file: &'a File,
    on_lines: bool,
) -> Result<Restated, NotRestated>
    ensures on_lines { on_lines ≡ true →
        IfOk result (λ r. AreOnLines text.entry.now (string_bytes r.text) 0 r.places.items) }
    ensures lines { IfOk result (λ r. r.lines.items ≡ lines_of text.entry.now tokens.entry.now) }
{
    let lines = token_lines(alloc, text, tokens)?;
    let mut made = restate_file(alloc, file, tokens)?;
    let notes = notes_of(alloc, &mut made.restater, &lines)?;
    if !made.restater.refusals.is_empty() {
        let refusals = refusals_of(alloc, &mut made.restater, &lines)?;
        return Err(NotRestated::Refused { refusals, notes });
    }
    let whole = made.text;
    let written = write(&mut made.restater, text, tokens, whole, on_lines)?;
    let Written { text, places } = written;
    Ok(Restated {
        text,
        places,
        lines,
        notes,
    })
}

// The line of the file from which a byte of the class text comes, or 0.
fn line_of(restated: &Restated, at: usize) -> usize {
    match token_at(&restated.places, at) {
        Some(token) => line_at(&restated.lines, token),
        None => 0,
    }
}

// The byte of a class text that a fault names.
fn byte_of(fault: TextFault) -> usize {
    match fault {
        TextFault::BadByte { at } => at,
        TextFault::OpenComment { at } => at,
        TextFault::BadNumber { at } => at,
        TextFault::Syntax { at } => at,
        TextFault::TooDeep { at } => at,
        TextFault::Memory | TextFault::TooLong => 0,
    }
}

// Why a restated file isn't accepted, with the line of the file.
fn rejected(restated: &Restated, fault: NotAccepted) -> NotRestated {
    match fault {
        NotAccepted::Text(TextFault::Memory) => NotRestated::Memory,
        NotAccepted::Check(CheckFault::Memory) => NotRestated::Memory,
        NotAccepted::Text(TextFault::TooLong) => NotRestated::TooLong,
        NotAccepted::Text(fault) => NotRestated::NoClassText {
            line: line_of(restated, byte_of(fault)),
            fault,
        },
        NotAccepted::Check(CheckFault::Broken(broken)) => NotRestated::BreaksRule {
            line: line_of(restated, broken.span.start),
            broken,
        },
    }
}

// Whether the places of a restated file are those of its words.
fn are_placed(
    alloc: Global,
    text: &str,
    tokens: &[Token],
    restated: &Restated,
) -> Result<bool, TextFault>
    requires { restated.now.lines.items ≡ lines_of text.now tokens.now }
    ensures words { IfOk result (λ found. found ≡ true →
        AreWords text.now (string_bytes restated.now.text) restated.now.places.items) }
    ensures come { IfOk result (λ found. found ≡ true →
        ComeFrom text.now tokens.now (string_bytes restated.now.text) restated.now.places.items) }
{
    let made = restated.text.as_str();
    let places = restated.places.as_slice();
    let words = are_words(alloc, text, made, places)?;
    Ok(words && come_from(text, tokens, restated.lines.as_slice(), made, places))
}

// Why the places of a restated file aren't those of its words, if they aren't.
fn misplaced(
    alloc: Global,
    text: &str,
    tokens: &[Token],
    restated: &Restated,
) -> Result<(), NotRestated>
    requires { restated.now.lines.items ≡ lines_of text.now tokens.now }
    ensures words { OnOk result (AreWords text.now (string_bytes restated.now.text) restated.now.places.items) }
    ensures come { OnOk result
        (ComeFrom text.now tokens.now (string_bytes restated.now.text) restated.now.places.items) }
{
    match are_placed(alloc, text, tokens, restated) {
        Ok(true) => Ok(()),
        Ok(false) => Err(NotRestated::Misplaced),
        Err(fault) => Err(rejected(restated, NotAccepted::Text(fault))),
    }
}

// A Java file, restated on its lines or laid out anew.
fn restate_as(alloc: Global, text: &str, on_lines: bool) -> Result<Restated, NotRestated>
    ensures accepted { IfOk result (λ r. IsAccepted (string_bytes r.text)) }
    ensures lines { on_lines ≡ true →
        IfOk result (λ r. IsRestatement text.entry.now (string_bytes r.text) r.places.items) }
{
    let tokens = lex_java(alloc, text)?;
    let file = parse_java(alloc, &tokens)?;
    let restated = draft(alloc, text, &tokens, &file, on_lines)?;
    if let Err(fault) = accept(alloc, restated.text.as_str()) {
        return Err(rejected(&restated, fault));
    }
    if on_lines {
        misplaced(alloc, text, &tokens, &restated)?;
    }
    Ok(restated)
}

/// A Java file (JLS 7.3), restated as a class text that keeps every rule, or why it isn't.
pub fn restate(alloc: Global, text: &str) -> Result<Restated, NotRestated>
    ensures { IfOk result (λ r. IsAccepted (string_bytes r.text)) }
{
    restate_as(alloc, text, false)
}

/// The same, laid out so that a word of the file stands on its line, where no word before it comes from a later one.
/// The places are those of all its words but of what comes from no token of the file. That stands behind the last line
/// of the file.
pub fn restate_on_lines(alloc: Global, text: &str) -> Result<Restated, NotRestated>
    ensures { IfOk result (λ r. IsRestatement text.now (string_bytes r.text) r.places.items) }
{
    match restate_as(alloc, text, true) {
        Ok(made) => Ok(made),
        Err(why) => Err(why),
    }
}
