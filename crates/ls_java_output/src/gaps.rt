// The gaps before the tokens of a file.

use crate::lines::{line_ends, line_white};
use crate::spacing::Gap;
use ls_java_lexer::token::Token;
use std::alloc::AllocError;

/// A Java file: its text, its tokens, the line of each, and one step of its indentation.
#[derive(Copy)]
pub struct Source<'a> {
    pub text: &'a str,
    pub tokens: &'a [Token<'a>],
    pub lines: &'a [usize],
    pub step: &'a str,
}

impl Clone for Source<'_> {
    fn clone(&self) -> Result<Self, AllocError> {
        Ok(*self)
    }
}

/// What stands before a word, and the white space before it on its line of the file, if that is known.
#[derive(Copy)]
pub struct Break<'a> {
    pub gap: Gap,
    pub white: Option<&'a str>,
}

impl Clone for Break<'_> {
    fn clone(&self) -> Result<Self, AllocError> {
        Ok(*self)
    }
}

/// A gap that doesn't come from the file.
pub fn plain<'a>(gap: Gap) -> Break<'a> {
    Break { gap, white: None }
}

/// What stands in the file from one byte to another, where only white space is between them.
pub fn white_break<'a>(text: &'a str, from: usize, to: usize) -> Break<'a> {
    let gap = match line_ends(text, from, to) {
        0 if from < to => Gap::Space,
        0 => Gap::Nothing,
        1 => Gap::Line,
        _ => Gap::EmptyLine,
    };
    Break {
        gap,
        white: line_white(text, from, to),
    }
}

/// The token that counts for this number: a number behind the last token counts as the last one.
pub fn nearest(source: Source, token: usize) -> usize {
    token.min(source.tokens.len().saturating_sub(1))
}

/// Whether a word is spelled as the token of the file from which it comes.
pub fn is_copied(source: Source, word: &str, token: usize) -> bool {
    match source.tokens.get(token) {
        Some(token) => source.text.get(token.start..token.end) == Some(word),
        None => false,
    }
}

/// What stands in the file before a token, if no comment does.
pub fn break_of<'a>(source: Source<'a>, token: usize) -> Break<'a> {
    match source.tokens.get(token) {
        Some(token) => white_break(source.text, token.gap, token.start),
        None => plain(Gap::Space),
    }
}

/// Whether a token is the first one of its line in the file.
pub fn begins_file_line(source: Source, token: usize) -> bool {
    match source.tokens.get(token) {
        Some(found) => token == 0 || line_ends(source.text, found.gap, found.start) > 0,
        None => false,
    }
}
