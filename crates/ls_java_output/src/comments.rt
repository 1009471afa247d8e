// The comments of a file, which stay before the tokens that they stand before.

ghost use Rattle.std.specs.Prelude.{◌≡◌, ◌≤◌, string_len};

use crate::gaps::{Break, Source, plain, white_break};
use crate::leaves::Leaf;
use crate::lines::line_at;
use crate::page::{Page, write_gap};
use crate::spacing::Gap;
use ls_java_lexer::gaps::piece_end;
use ls_java_lexer::token::{Token, TokenKind};
use ls_lexer::sign::Sign;
use std::alloc::{AllocError, Global};

// Whether a token ends a statement or a declaration, or begins a body.
fn ends_part(kind: TokenKind) -> bool {
    matches!(
        &kind,
        TokenKind::Sign(Sign::Semicolon | Sign::OpenBrace | Sign::CloseBrace)
    )
}

// For each token of the file, whether a leaf comes from it.
fn kept(alloc: Global, tokens: &[Token], leaves: &[Leaf]) -> Result<Vec<bool>, AllocError> {
    let mut all = vec![in alloc; false; tokens.len()]?;
    for leaf in leaves {
        if let Some(one) = all.get_mut(leaf.token) {
            *one = true;
        }
    }
    Ok(all)
}

/// For each token of the file the first one whose comments are written before it. That is the token itself, or the
/// first of what was left out before it of the same declaration or statement. The comments before the first token of
/// the file are kept too.
pub fn comment_starts(
    alloc: Global,
    tokens: &[Token],
    leaves: &[Leaf],
) -> Result<Vec<usize>, AllocError> {
    let kept = kept(alloc, tokens, leaves)?;
    let mut starts = Vec::new(alloc);
    let mut start = 0;
    let mut begun = false;
    for (token, found) in tokens.iter().enumerate() {
        starts.push(start)?;
        let here = kept.get(token).copied().unwrap_or(false);
        if here || (begun && ends_part(found.kind)) {
            start = token + 1;
        }
        begun = begun || here;
    }
    Ok(starts)
}

// What stands before a comment. One that stands in the file behind what was written last stays on that line.
fn break_before_comment<'a>(
    page: &Page,
    source: Source<'a>,
    token: usize,
    from: usize,
    at: usize,
) -> Break<'a> {
    let found = white_break(source.text, from, at);
    let same_line = page.last.line == line_at(source.lines, token.saturating_sub(1));
    match found.gap {
        Gap::Nothing | Gap::Space if !same_line => plain(Gap::Line),
        Gap::Nothing => plain(Gap::Space),
        _ => found,
    }
}

// A comment, from one byte of the file to another.
fn write_comment(
    page: &mut Page,
    source: Source,
    found: Break,
    at: usize,
    end: usize,
) -> Result<(), AllocError>
    ensures grows { string_len page.old.text ≤ string_len page.new.text }
    ensures places { page.new.places ≡ page.old.places }
{
    let Some(comment) = source.text.get(at..end) else {
        return Ok(());
    };
    write_gap(page, source.step, found, "")?;
    page.text.push_str(comment)?;
    page.in_comment = comment.starts_with("//");
    Ok(())
}

// The comments before a token, and what stands behind the last of them, if there is one.
fn write_comments_of<'a>(
    page: &mut Page,
    source: Source<'a>,
    token: usize,
) -> Result<Option<Break<'a>>, AllocError>
    ensures grows { string_len page.old.text ≤ string_len page.new.text }
    ensures places { page.new.places ≡ page.old.places }
{
    let Some(found) = source.tokens.get(token) else {
        return Ok(None);
    };
    let bytes = source.text.as_bytes();
    let mut from = found.gap;
    let mut at = found.gap;
    let mut after = None;
    'pieces: while at < found.start && at < bytes.len() {
        let Ok(end) = piece_end(bytes, at) else {
            break;
        };
        if end <= at {
            break;
        }
        if bytes[at] == b'/' {
            let before = break_before_comment(page, source, token, from, at);
            write_comment(page, source, before, at, end)?;
            from = end;
            after = Some(white_break(source.text, end, found.start));
        }
        at = end;
    }
    Ok(after)
}

/// The comments that are written before a token, once. The answer is what stands behind the last of them, if there is
/// one.
pub fn write_comments<'a>(
    page: &mut Page,
    source: Source<'a>,
    starts: &mut [usize],
    token: usize,
) -> Result<Option<Break<'a>>, AllocError>
    ensures grows { string_len page.old.text ≤ string_len page.new.text }
    ensures places { page.new.places ≡ page.old.places }
{
    let Some(start) = starts.get_mut(token) else {
        return Ok(None);
    };
    let first = *start;
    *start = token.saturating_add(1);
    let mut after = None;
    'omitted: for one in first..token {
        if write_comments_of(page, source, one)?.is_some() {
            after = Some(plain(Gap::Line));
        }
    }
    match write_comments_of(page, source, token)? {
        Some(found) => Ok(Some(found)),
        None => Ok(after),
    }
}
