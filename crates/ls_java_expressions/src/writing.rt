// Writing by a pattern.

use ls_java_tables::remarks::Stop;
use ls_java_tables::restater::{Restater, join};
use ls_java_tables::ropes::{NodeKind, Text};
use ls_java_tables::spelling::{append, phrase};

// A phrase, if it has a token.
fn some_phrase(restater: &mut Restater, at: usize, tokens: &'static str) -> Result<Text, Stop> {
    if tokens.is_empty() {
        return Ok(Text::EMPTY);
    }
    phrase(restater, tokens, at)
}

/// The tokens of a pattern, where each `#` stands for the next of the parts. What the pattern itself has comes from a
/// token of the file. A `;` at an end is a leaf of its own.
pub fn write(
    restater: &mut Restater,
    at: usize,
    pattern: &'static str,
    parts: &[Text],
) -> Result<Text, Stop> {
    let mut all = Text::EMPTY;
    let mut rest = parts.iter();
    for piece in pattern.split('#') {
        let tokens = piece.trim();
        let (tokens, end) = match tokens.strip_suffix(';') {
            Some(others) => (others.trim(), ";"),
            None => (tokens, ""),
        };
        let own = some_phrase(restater, at, tokens)?;
        all = join(restater, all, own)?;
        let own = some_phrase(restater, at, end)?;
        all = join(restater, all, own)?;
        if let Some(part) = rest.next() {
            all = join(restater, all, *part)?;
        }
    }
    Ok(all)
}

/// What a pattern writes goes to the end of what is written.
pub fn emit(
    restater: &mut Restater,
    out: &mut Text,
    at: usize,
    pattern: &'static str,
    parts: &[Text],
) -> Result<(), Stop> {
    let text = write(restater, at, pattern, parts)?;
    append(restater, out, text)
}

/// A statement without its `;`, if a text is one statement that was written at once.
pub fn single(restater: &Restater, text: Text) -> Option<Text> {
    let NodeKind::Join { left, right } = restater.ropes.node(text).kind else {
        return None;
    };
    match restater.ropes.node(right).kind {
        NodeKind::Phrase { text: ";", .. } => Some(left),
        _ => None,
    }
}
