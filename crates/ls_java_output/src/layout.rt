// The class text of a rope.

ghost use Rattle.std.specs.Prelude.{◌≡◌, ◌≤◌, IfOk, IfSome, OnOk, length, string_len};
ghost use Rattle.ls_java_output.specs.Places.{AreInOrder};

use crate::comments::{comment_starts, write_comments};
use crate::gaps::{Source, plain};
use crate::leaves::{Leaf, Spelling, leaves_of};
use crate::lines::{indentation, token_lines};
use crate::page::{Page, break_before, break_before_brace, write_gap, write_word};
use crate::place::Place;
use crate::spacing::Gap;
use ls_java_lexer::token::Token;
use ls_java_tables::ropes::{Ropes, Text};
use ls_java_tables::words::Words;
use std::alloc::{AllocError, Global};

/// A class text, and the places of its words in their order.
#[derive(Drop)]
pub struct Written {
    pub text: String,
    pub places: Vec<Place>,
}

/// What a text is made of: the words and the ropes, and the Java file with its tokens.
#[derive(Copy)]
pub struct Made<'a> {
    pub alloc: Global,
    pub words: &'a Words,
    pub ropes: &'a Ropes,
    pub text: &'a str,
    pub tokens: &'a [Token<'a>],
}

impl Clone for Made<'_> {
    fn clone(&self) -> Result<Self, AllocError> {
        Ok(*self)
    }
}

// A word with the comments and the gap before it.
#[tactic(auto, using(crate::proofs::Orders::longer))]
fn write_leaf(
    page: &mut Page,
    source: Source,
    starts: &mut [usize],
    word: &str,
    token: usize,
) -> Result<(), AllocError>
    ensures { OnOk result (
        AreInOrder (length source.entry.tokens.now) 0 page.old.places.items (string_len page.old.text) →
        AreInOrder (length source.entry.tokens.now) 0 page.new.places.items (string_len page.new.text)) }
{
    let before = break_before(page, source, word, token);
    let after = write_comments(page, source, starts, token)?;
    let before = if word == "}" {
        break_before_brace(page, before)
    } else {
        before
    };
    write_gap(page, source.step, after.unwrap_or(before), word)?;
    write_word(page, source, word, token)
}

// A leaf, by its spelling.
fn write_one(
    page: &mut Page,
    made: &Made,
    source: Source,
    starts: &mut [usize],
    leaf: Leaf,
) -> Result<(), AllocError>
    ensures { OnOk result (
        AreInOrder (length source.entry.tokens.now) 0 page.old.places.items (string_len page.old.text) →
        AreInOrder (length source.entry.tokens.now) 0 page.new.places.items (string_len page.new.text)) }
{
    let token = leaf.token;
    match leaf.spelling {
        Spelling::Word(word) => write_leaf(page, source, starts, made.words.text(word), token),
        Spelling::Fixed(word) => write_leaf(page, source, starts, word, token),
        Spelling::Number(value) => {
            let digits = value.to_string(made.alloc)?;
            write_leaf(page, source, starts, digits.as_str(), token)
        }
    }
}

fn write_leaves(
    page: &mut Page,
    made: &Made,
    source: Source,
    starts: &mut [usize],
    leaves: &[Leaf],
) -> Result<(), AllocError>
    ensures { OnOk result (
        AreInOrder (length source.entry.tokens.now) 0 page.old.places.items (string_len page.old.text) →
        AreInOrder (length source.entry.tokens.now) 0 page.new.places.items (string_len page.new.text)) }
{
    'all: for leaf in leaves {
        write_one(page, made, source, starts, *leaf)?;
    }
    Ok(())
}

// The comments behind the last token of the file, and the end of the line.
#[tactic(auto, using(crate::proofs::Orders::longer))]
fn end_file(page: &mut Page, source: Source, starts: &mut [usize]) -> Result<(), AllocError>
    ensures { OnOk result (
        AreInOrder (length source.entry.tokens.now) 0 page.old.places.items (string_len page.old.text) →
        AreInOrder (length source.entry.tokens.now) 0 page.new.places.items (string_len page.new.text)) }
{
    let _after = write_comments(page, source, starts, source.tokens.len().saturating_sub(1))?;
    write_gap(page, source.step, plain(Gap::Line), "")
}

/// The words that come from no token of the file, and the end of the line.
#[tactic(auto, using(crate::proofs::Orders::longer))]
pub fn write_added(
    page: &mut Page,
    made: &Made,
    source: Source,
    starts: &mut [usize],
    leaves: &[Leaf],
) -> Result<(), AllocError>
    ensures { OnOk result (
        AreInOrder (length source.entry.tokens.now) 0 page.old.places.items (string_len page.old.text) →
        AreInOrder (length source.entry.tokens.now) 0 page.new.places.items (string_len page.new.text)) }
{
    if leaves.is_empty() {
        return Ok(());
    }
    write_leaves(page, made, source, starts, leaves)?;
    page.text.push_str("\n")
}

// What two lists of leaves write, of which the second comes from no token of the file.
fn write_all(
    made: &Made,
    source: Source,
    leaves: &[Leaf],
    added: &[Leaf],
) -> Result<Page, AllocError>
    ensures { IfOk result (λ page.
        AreInOrder (length source.entry.tokens.now) 0 page.places.items (string_len page.text)) }
{
    let mut page = Page::new(made.alloc);
    let mut starts = comment_starts(made.alloc, source.tokens, leaves)?;
    write_leaves(&mut page, made, source, &mut starts, leaves)?;
    end_file(&mut page, source, &mut starts)?;
    write_added(&mut page, made, source, &mut starts, added)?;
    Ok(page)
}

/// The class text of two ropes, of which the second comes from no token of the file, or none if they have too many
/// nodes. A word stands as in the file, where the one before it in the file is written before it. Else a statement
/// begins a line, and so does a word that begins one in the file. Comments stay with the words that they stand before.
/// The places of the words follow one another in the text.
pub fn layout(made: Made, whole: Text, added: Text) -> Result<Option<Written>, AllocError>
    ensures { IfOk result (λ found. IfSome found (λ w.
        AreInOrder (length made.entry.tokens.now) 0 w.places.items (string_len w.text))) }
{
    let Some(leaves) = leaves_of(made.alloc, made.ropes, whole)? else {
        return Ok(None);
    };
    let Some(more) = leaves_of(made.alloc, made.ropes, added)? else {
        return Ok(None);
    };
    let lines = token_lines(made.alloc, made.text, made.tokens)?;
    let source = Source {
        text: made.text,
        tokens: made.tokens,
        lines: &lines,
        step: indentation(made.text, made.tokens),
    };
    let page = write_all(&made, source, &leaves, &more)?;
    let Page { text, places, .. } = page;
    Ok(Some(Written { text, places }))
}
