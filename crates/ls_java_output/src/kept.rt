// A page on which words stand on their lines of the file.

ghost use Rattle.std.specs.Prelude.{◌≡◌, ◌+◌, ◌++◌, ◌<◌, ◌≤◌, ℕ, IfSome, List, OnOk, length, string_bytes};
ghost use Rattle.ls_java_output.specs.Lines.{IsKept, ends_before, ends_in, line_of_word, lines_of};

use crate::gaps::{Source, is_copied, nearest};
use crate::lines::feeds;
use crate::place::Place;
use crate::spacing::{Ending, Gap, ending_of, gap_between};
use std::alloc::{AllocError, Global};

/// A token of the file, by its number: its bytes in the file, and whether a word that comes from it is spelled as it
/// and goes to its line.
#[derive(Copy)]
struct Origin {
    token: usize,
    at: usize,
    until: usize,
    own: bool,
    goes: bool,
}

impl Clone for Origin {
    fn clone(&self) -> Result<Origin, AllocError> {
        Ok(*self)
    }
}

/// What is written, with the places of its words. So many lines end in the text, and so many before the end of its last
/// word. `passed` is how many tokens of the file are behind, and `last` the token of the last word, if that goes to its
/// line.
#[derive(Drop)]
pub struct KeptPage {
    pub text: String,
    pub places: Vec<Place>,
    pub line: usize,
    pub here: usize,
    pub passed: usize,
    pub ending: Ending,
    pub last: Option<usize>,
}

impl KeptPage {
    /// An empty page.
    pub fn new(alloc: Global) -> KeptPage
        ensures kept { (java : List ℕ) (tokens : ℕ) → IsKept java tokens result }
        ensures here { result.here ≡ result.line }
    {
        KeptPage {
            text: String::new(alloc),
            places: Vec::new(alloc),
            line: 0,
            here: 0,
            passed: 0,
            ending: Ending::Start,
            last: None,
        }
    }
}

/// More text, in which no word has a place.
pub fn push(page: &mut KeptPage, source: Source, more: &str) -> Result<(), AllocError>
    requires { IsKept source.text.now (length source.tokens.now) page.old }
    ensures kept { OnOk result (IsKept source.entry.text.now (length source.entry.tokens.now) page.new) }
    ensures text { OnOk result (string_bytes page.new.text ≡ string_bytes page.old.text ++ more.now) }
    ensures line { OnOk result (page.new.line ≡ page.old.line + ends_in more.now) }
    ensures here { page.new.here ≡ page.old.here }
    ensures places { page.new.places ≡ page.old.places }
{
    page.text.push_str(more)?;
    page.line = page.line + feeds(more.as_bytes());
    Ok(())
}

// A gap of the file, if no more lines end in it than up to this one.
fn push_gap(page: &mut KeptPage, source: Source, gap: &str, goal: usize) -> Result<(), AllocError>
    requires kept { IsKept source.text.now (length source.tokens.now) page.old }
    requires line { page.old.line ≤ goal }
    ensures kept { OnOk result (IsKept source.entry.text.now (length source.entry.tokens.now) page.new) }
    ensures line { OnOk result (page.new.line ≤ goal) }
    ensures here { page.new.here ≡ page.old.here }
{
    let count = feeds(gap.as_bytes());
    if count <= goal - page.line {
        push(page, source, gap)?;
    }
    Ok(())
}

// The gap before a token of the file.
fn gap_of<'a>(source: Source<'a>, token: usize) -> &'a str {
    match source.tokens.get(token) {
        Some(found) => source.text.get(found.gap..found.start).unwrap_or(""),
        None => "",
    }
}

// The gaps of the file before the tokens that aren't behind, up to this one.
fn push_gaps(
    page: &mut KeptPage,
    source: Source,
    token: usize,
    goal: usize,
) -> Result<(), AllocError>
    requires kept { IsKept source.text.now (length source.tokens.now) page.old }
    requires line { page.old.line ≤ goal }
    ensures kept { OnOk result (IsKept source.entry.text.now (length source.entry.tokens.now) page.new) }
    ensures line { OnOk result (page.new.line ≤ goal) }
    ensures here { page.new.here ≡ page.old.here }
{
    let first = page.passed;
    'gaps: for one in first..token.saturating_add(1) {
        push_gap(page, source, gap_of(source, one), goal)?;
    }
    Ok(())
}

/// Empty lines, up to this one.
pub fn fill(page: &mut KeptPage, source: Source, goal: usize) -> Result<(), AllocError>
    requires { IsKept source.text.now (length source.tokens.now) page.old }
    ensures kept { OnOk result (IsKept source.entry.text.now (length source.entry.tokens.now) page.new) }
    ensures line { OnOk result (page.old.line ≤ goal → page.new.line ≡ goal) }
    ensures here { page.new.here ≡ page.old.here }
{
    'lines: while page.line < goal {
        push(page, source, "\n")?;
    }
    Ok(())
}

// The gap before a word that stays on the line of the one before it. It is that of the file, if both words are beside
// one another in the file.
fn gap_beside<'a>(
    page: &KeptPage,
    source: Source<'a>,
    word: &str,
    token: usize,
    goes: bool,
) -> &'a str {
    let found = gap_of(source, token);
    let beside = goes && page.last == token.checked_sub(1) && token > 0;
    if beside && feeds(found.as_bytes()) == 0 {
        return found;
    }
    match gap_between(page.ending, word) {
        Gap::Nothing => "",
        _ => " ",
    }
}

// A gap on the line.
fn push_beside(page: &mut KeptPage, source: Source, gap: &str) -> Result<(), AllocError>
    requires { IsKept source.text.now (length source.tokens.now) page.old }
    ensures kept { OnOk result (IsKept source.entry.text.now (length source.entry.tokens.now) page.new) }
    ensures line { OnOk result (page.new.line ≡ page.old.line) }
    ensures here { page.new.here ≡ page.old.here }
{
    if feeds(gap.as_bytes()) == 0 {
        push(page, source, gap)?;
    }
    Ok(())
}

// What stands before a word: gaps of the file up to its line, if it goes to a later one.
fn begin_word(
    page: &mut KeptPage,
    source: Source,
    word: &str,
    token: usize,
    goes: bool,
    goal: usize,
) -> Result<(), AllocError>
    requires kept { IsKept source.text.now (length source.tokens.now) page.old }
    requires line { page.old.line ≤ goal }
    ensures kept { OnOk result (IsKept source.entry.text.now (length source.entry.tokens.now) page.new) }
    ensures line { OnOk result (page.new.line ≡ goal) }
    ensures here { page.new.here ≡ page.old.here }
{
    if goal > page.line {
        push_gaps(page, source, token, goal)?;
        return fill(page, source, goal);
    }
    push_beside(page, source, gap_beside(page, source, word, token, goes))
}

// A word, with its place.
fn place_word(
    page: &mut KeptPage,
    source: Source,
    word: &str,
    origin: Origin,
) -> Result<(), AllocError>
    requires kept { IsKept source.text.now (length source.tokens.now) page.old }
    requires token { origin.token < length source.tokens.now }
    requires line { page.old.line ≡ line_of_word source.text.now page.old.here origin.at origin.goes }
    ensures kept { OnOk result (IsKept source.entry.text.now (length source.entry.tokens.now) page.new) }
    ensures line { OnOk result (page.new.here ≡ page.new.line) }
{
    let start = page.text.as_bytes().len();
    push(page, source, word)?;
    let end = page.text.as_bytes().len();
    page.places.push(Place {
        start,
        end,
        token: origin.token,
        at: origin.at,
        until: origin.until,
        own: origin.own,
        goes: origin.goes,
    })?;
    page.here = page.line;
    Ok(())
}

// The token from which a word comes, if the file has it, and how many lines end before it.
fn origin_of(source: Source, word: &str, token: usize, goes: bool) -> Option<(Origin, usize)>
    requires { source.lines.now ≡ lines_of source.text.now source.tokens.now }
    ensures { IfSome result (λ r. (r.1 ≡ ends_before r.0.at source.entry.text.now) ×
        (r.0.token < length source.entry.tokens.now) × (r.0.goes ≡ goes)) }
{
    match (source.tokens.get(token), source.lines.get(token)) {
        (Some(found), Some(line)) => {
            let origin = Origin {
                token,
                at: found.start,
                until: found.end,
                own: is_copied(source, word, token),
                goes,
            };
            Some((origin, line.saturating_sub(1)))
        }
        _ => None,
    }
}

/// A word. It goes to the line of its token, if it is one that does and that line comes later, and else it stays on the
/// line of the word before it. A token behind the last one counts as the last one.
pub fn write_kept(
    page: &mut KeptPage,
    source: Source,
    word: &str,
    token: usize,
    goes: bool,
) -> Result<(), AllocError>
    requires lines { source.lines.now ≡ lines_of source.text.now source.tokens.now }
    requires kept { IsKept source.text.now (length source.tokens.now) page.old }
    requires here { page.old.here ≡ page.old.line }
    ensures kept { OnOk result (IsKept source.entry.text.now (length source.entry.tokens.now) page.new) }
    ensures here { OnOk result (page.new.here ≡ page.new.line) }
{
    let token = nearest(source, token);
    let Some((origin, line)) = origin_of(source, word, token, goes) else {
        return Ok(());
    };
    let goal = if goes && page.line < line {
        line
    } else {
        page.line
    };
    begin_word(page, source, word, token, goes, goal)?;
    place_word(page, source, word, origin)?;
    if goes {
        page.passed = page.passed.max(token.saturating_add(1));
    }
    page.last = if goes { Some(token) } else { None };
    page.ending = ending_of(page.ending, word);
    Ok(())
}
