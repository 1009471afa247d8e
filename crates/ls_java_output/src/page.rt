// A page that is written word by word.

ghost use Rattle.std.specs.Prelude.{◌≡◌, ◌≤◌, [], OnOk, length, string_len};
ghost use Rattle.ls_java_output.specs.Places.{AreInOrder};

use crate::gaps::{Break, Source, begins_file_line, break_of, is_copied, plain};
use crate::lines::line_at;
use crate::place::Place;
use crate::spacing::{Ending, Gap, begins_line, ending_of, gap_between};
use std::alloc::{AllocError, Global};

/// The word that was written last: the token from which it comes, whether it is spelled as that one, and its line.
#[derive(Copy)]
pub struct Last {
    pub ending: Ending,
    pub token: usize,
    pub copied: bool,
    pub line: usize,
}

impl Clone for Last {
    fn clone(&self) -> Result<Last, AllocError> {
        Ok(*self)
    }
}

/// What is written, the places of its words, and how many braces and parentheses are open. `shift` is how much further
/// in lines stand in the file, in bytes. `in_comment` says that a comment ends the text that goes to the end of its
/// line. `lines` is how many lines were begun, and `opened` has how many there were at each open brace.
#[derive(Drop)]
pub struct Page {
    pub text: String,
    pub places: Vec<Place>,
    pub braces: usize,
    pub parentheses: usize,
    pub shift: usize,
    pub last: Last,
    pub in_comment: bool,
    pub lines: usize,
    pub opened: Vec<usize>,
}

impl Page {
    /// An empty page.
    pub fn new(alloc: Global) -> Page
        ensures text { string_len result.text ≡ 0 }
        ensures places { result.places.items ≡ [] }
    {
        Page {
            text: String::new(alloc),
            places: Vec::new(alloc),
            braces: 0,
            parentheses: 0,
            shift: 0,
            last: Last {
                ending: Ending::Start,
                token: 0,
                copied: false,
                line: 0,
            },
            in_comment: false,
            lines: 0,
            opened: Vec::new(alloc),
        }
    }
}

// Whether a line that begins with this word goes on with the one before it.
fn goes_on(page: &Page, word: &str) -> bool {
    if page.parentheses > 0 {
        return true;
    }
    match page.last.ending {
        Ending::OpenBrace | Ending::CloseBrace | Ending::Semicolon | Ending::Start => false,
        _ => word != "{" && word != "else" && word != "finally",
    }
}

// So many steps of indentation.
fn write_steps(page: &mut Page, step: &str, count: usize) -> Result<(), AllocError>
    ensures grows { string_len page.old.text ≤ string_len page.new.text }
    ensures places { page.new.places ≡ page.old.places }
{
    'steps: for _ in 0..count {
        page.text.push_str(step)?;
    }
    Ok(())
}

// A line goes on with the one before it. It stands as far in as in the file.
fn write_more(page: &mut Page, step: &str, white: Option<&str>) -> Result<(), AllocError>
    ensures grows { string_len page.old.text ≤ string_len page.new.text }
    ensures places { page.new.places ≡ page.old.places }
{
    match white {
        Some(white) => match white.get(page.shift.min(white.len())..) {
            Some(rest) => page.text.push_str(rest),
            None => Ok(()),
        },
        None => write_steps(page, step, page.braces.saturating_add(2)),
    }
}

// A new line, and its indentation.
fn write_line(
    page: &mut Page,
    step: &str,
    white: Option<&str>,
    word: &str,
) -> Result<(), AllocError>
    ensures grows { string_len page.old.text ≤ string_len page.new.text }
    ensures places { page.new.places ≡ page.old.places }
{
    page.text.push_str("\n")?;
    page.lines = page.lines.saturating_add(1);
    if goes_on(page, word) {
        return write_more(page, step, white);
    }
    match white {
        Some(white) => {
            let closing = if word == "}" { 1 } else { 0 };
            let here = page
                .braces
                .saturating_sub(closing)
                .saturating_mul(step.len());
            page.shift = white.len().saturating_sub(here);
        }
        None => page.lines = page.lines.saturating_add(1),
    }
    let closing = if word == "}" { 1 } else { 0 };
    write_steps(page, step, page.braces.saturating_sub(closing))
}

/// A gap, before this word. Behind a comment that goes to the end of its line there is at least a new line.
pub fn write_gap(page: &mut Page, step: &str, found: Break, word: &str) -> Result<(), AllocError>
    ensures grows { string_len page.old.text ≤ string_len page.new.text }
    ensures places { page.new.places ≡ page.old.places }
{
    if page.text.is_empty() {
        return Ok(());
    }
    match found.gap {
        Gap::Nothing if !page.in_comment => {}
        Gap::Space if !page.in_comment => page.text.push_str(found.white.unwrap_or(" "))?,
        Gap::EmptyLine => {
            page.text.push_str("\n")?;
            write_line(page, step, found.white, word)?;
        }
        _ => write_line(page, step, found.white, word)?,
    }
    page.in_comment = false;
    Ok(())
}

// Whether no line was begun since the last brace that is open.
fn is_one_line(page: &Page) -> bool {
    match page.opened.last() {
        Some(lines) => *lines == page.lines,
        None => false,
    }
}

/// What stands between the word that was written last and the next one: what stands in the file, if both come from
/// tokens of the file beside one another.
pub fn break_before<'a>(page: &Page, source: Source<'a>, word: &str, token: usize) -> Break<'a> {
    let copied = is_copied(source, word, token);
    let last = page.last;
    if copied && last.copied && token == last.token.saturating_add(1) {
        return break_of(source, token);
    }
    let later = line_at(source.lines, token) > last.line;
    // an annotation that is added begins the line that the method's first word begins in the file
    if (copied || word == "@") && later && begins_file_line(source, token) {
        return break_of(source, token);
    }
    if page.parentheses == 0 && begins_line(last.ending, word) {
        let in_line = line_at(source.lines, token) == last.line && !begins_file_line(source, token);
        return plain(if copied && in_line && is_one_line(page) {
            Gap::Space
        } else {
            Gap::Line
        });
    }
    plain(gap_between(last.ending, word))
}

/// What stands before a brace that closes, where this would stand before another word: a line, if one began behind the
/// brace that it closes. Else it stays on the line, but where the file says otherwise.
pub fn break_before_brace<'a>(page: &Page, found: Break<'a>) -> Break<'a> {
    let in_line = found.gap == Gap::Space || found.gap == Gap::Nothing;
    if !is_one_line(page) {
        return if in_line { plain(Gap::Line) } else { found };
    }
    match found.white {
        Some(_) => found,
        None => plain(Gap::Space),
    }
}

// The braces and parentheses that are open behind a word.
fn count_open(page: &mut Page, word: &str) -> Result<(), AllocError>
    ensures text { page.new.text ≡ page.old.text }
    ensures places { page.new.places ≡ page.old.places }
{
    if word == "{" {
        page.braces = page.braces.saturating_add(1);
        page.opened.push(page.lines)?;
    } else if word == "}" {
        page.braces = page.braces.saturating_sub(1);
        page.opened.pop();
    } else if word == "(" {
        page.parentheses = page.parentheses.saturating_add(1);
    } else if word == ")" {
        page.parentheses = page.parentheses.saturating_sub(1);
    }
    Ok(())
}

/// A word, and its place, if it comes from a token of the file.
#[tactic(auto, using(crate::proofs::Orders::longer, crate::proofs::Orders::one_more))]
pub fn write_word(
    page: &mut Page,
    source: Source,
    word: &str,
    token: usize,
) -> Result<(), AllocError>
    ensures { OnOk result (
        AreInOrder (length source.entry.tokens.now) 0 page.old.places.items (string_len page.old.text) →
        AreInOrder (length source.entry.tokens.now) 0 page.new.places.items (string_len page.new.text)) }
{
    let start = page.text.len();
    page.text.push_str(word)?;
    let end = page.text.len();
    let own = is_copied(source, word, token);
    if let Some(found) = source.tokens.get(token) {
        let at = found.start;
        let until = found.end;
        page.places.push(Place {
            start,
            end,
            token,
            at,
            until,
            own,
            goes: own,
        })?;
    }
    count_open(page, word)?;
    page.last = Last {
        ending: ending_of(page.last.ending, word),
        token,
        copied: own,
        line: line_at(source.lines, token),
    };
    Ok(())
}
