// The class text of a rope, on the lines of the file.

ghost use Rattle.std.specs.Prelude.{◌≡◌, IfOk, IfSome, OnOk, length, string_bytes};
ghost use Rattle.ls_java_output.specs.Lines.{AreOnLines, IsKept, lines_of};
ghost use Rattle.ls_java_output.specs.Places.{AreInOrder};

use crate::gaps::Source;
use crate::going::words_going;
use crate::kept::{KeptPage, fill, push, write_kept};
use crate::layout::{Made, Written, write_added};
use crate::leaves::{Leaf, Spelling, leaves_of};
use crate::lines::{feeds, indentation, token_lines};
use crate::order::in_order;
use crate::page::Page;
use ls_java_tables::ropes::Text;
use std::alloc::AllocError;

// A leaf, by its spelling.
fn write_one(
    page: &mut KeptPage,
    made: &Made,
    source: Source,
    leaf: Leaf,
    goes: bool,
) -> Result<(), AllocError>
    requires lines { source.lines.now ≡ lines_of source.text.now source.tokens.now }
    requires kept { IsKept source.text.now (length source.tokens.now) page.old }
    requires here { page.old.here ≡ page.old.line }
    ensures kept { OnOk result (IsKept source.entry.text.now (length source.entry.tokens.now) page.new) }
    ensures here { OnOk result (page.new.here ≡ page.new.line) }
{
    let token = leaf.token;
    match leaf.spelling {
        Spelling::Word(word) => write_kept(page, source, made.words.text(word), token, goes),
        Spelling::Fixed(word) => write_kept(page, source, word, token, goes),
        Spelling::Number(value) => {
            let digits = value.to_string(made.alloc)?;
            write_kept(page, source, digits.as_str(), token, goes)
        }
    }
}

// The words of the file.
fn write_leaves(
    page: &mut KeptPage,
    made: &Made,
    source: Source,
    leaves: &[Leaf],
) -> Result<(), AllocError>
    requires lines { source.lines.now ≡ lines_of source.text.now source.tokens.now }
    requires kept { IsKept source.text.now (length source.tokens.now) page.old }
    requires here { page.old.here ≡ page.old.line }
    ensures kept { OnOk result (IsKept source.entry.text.now (length source.entry.tokens.now) page.new) }
{
    let mut all = words_going(made, source, leaves)?;
    'all: for leaf in leaves {
        let goes = all.pop().unwrap_or(false);
        write_one(page, made, source, *leaf, goes)?;
    }
    Ok(())
}

// The text of words that come from no token of the file.
fn added_text(made: &Made, source: Source, added: &[Leaf]) -> Result<String, AllocError> {
    let mut page = Page::new(made.alloc);
    let mut starts = Vec::new(made.alloc);
    write_added(&mut page, made, source, &mut starts, added)?;
    let Page { text, .. } = page;
    Ok(text)
}

// Lines up to the last one of the file, and after it the words that come from no token of the file.
fn write_more(
    page: &mut KeptPage,
    made: &Made,
    source: Source,
    added: &[Leaf],
) -> Result<(), AllocError>
    requires { IsKept source.text.now (length source.tokens.now) page.old }
    ensures { OnOk result (IsKept source.entry.text.now (length source.entry.tokens.now) page.new) }
{
    fill(page, source, feeds(source.text.as_bytes()))?;
    push(page, source, "\n")?;
    let more = added_text(made, source, added)?;
    push(page, source, more.as_str())
}

// What two lists of leaves write, of which the second comes from no token of the file.
fn write_all(
    made: &Made,
    source: Source,
    leaves: &[Leaf],
    added: &[Leaf],
) -> Result<KeptPage, AllocError>
    requires { source.lines.now ≡ lines_of source.text.now source.tokens.now }
    ensures { IfOk result (λ page. IsKept source.entry.text.now (length source.entry.tokens.now) page) }
{
    let mut page = KeptPage::new(made.alloc);
    write_leaves(&mut page, made, source, leaves)?;
    write_more(&mut page, made, source, added)?;
    Ok(page)
}

/// The class text of two ropes, of which the second comes from no token of the file, or none if they have too many
/// nodes. A word that is spelled as its token stands on the line of that token in the file, where no word before it
/// comes from a later line. So does another word, where it doesn't keep these from their lines. Else a word stands on
/// the line of the word before it. What comes from no token stands after the last line of the file. Comments stay where
/// they are, if the words after them do.
pub fn layout_on_lines(made: Made, whole: Text, added: Text) -> Result<Option<Written>, AllocError>
    ensures order { IfOk result (λ found. IfSome found (λ w.
        AreInOrder (length made.entry.tokens.now) 0 w.places.items (length (string_bytes w.text)))) }
    ensures lines { IfOk result (λ found. IfSome found (λ w.
        AreOnLines made.entry.text.now (string_bytes w.text) 0 w.places.items)) }
{
    let Some(leaves) = leaves_of(made.alloc, made.ropes, whole)? else {
        return Ok(None);
    };
    let Some(more) = leaves_of(made.alloc, made.ropes, added)? else {
        return Ok(None);
    };
    let ordered = in_order(made.alloc, made.words, &leaves)?;
    let lines = token_lines(made.alloc, made.text, made.tokens)?;
    let source = Source {
        text: made.text,
        tokens: made.tokens,
        lines: &lines,
        step: indentation(made.text, made.tokens),
    };
    let page = write_all(&made, source, &ordered, &more)?;
    let KeptPage { text, places, .. } = page;
    Ok(Some(Written { text, places }))
}
