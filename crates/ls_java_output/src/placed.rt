// Whether places are those of the words of a class text.

ghost use Rattle.std.specs.Prelude.{◌≡◌, ◌↔◌, ◌+◌, ◌<◌, ◌||◌, All, IfOk, IfSome, if◌then◌else◌};
ghost use Rattle.std.specs.Prelude.{length, map, nat_le, true};
ghost use Rattle.ls_java_output.specs.Lines.{ends_before, ends_in, lines_of};
ghost use Rattle.ls_java_output.specs.Words.{AreWords, ComeFrom, ComesFrom, span_of, spans_of};

use crate::lines::{ends_upto, feeds};
use crate::place::Place;
use ls_java_lexer::token::Token;
use ls_lexer::fault::TextFault;
use ls_lexer::lexing::lex;
use ls_lexer::token::Token as ClassToken;
use std::alloc::Global;

// Whether words stand at these places, one at each.
fn stand_at(words: &[ClassToken], places: &[Place]) -> bool
    requires { length words.now ≡ length places.now }
    ensures { result ≡ true → map span_of places.now ≡ spans_of words.now }
{
    for at in 0..places.len() {
        let span = words[at].span;
        let place = &places[at];
        if span.start != place.start || span.end != place.end {
            return false;
        }
    }
    true
}

// Whether words stand on lines before which more lines end than these.
fn stand_behind(words: &[ClassToken], text: &str, last: usize) -> bool
    ensures { result ≡ true → All (λ w. last < ends_before w.span.start text.now) words.now }
{
    let mut ends: usize = 0;
    let mut at = 0;
    for word in words {
        ends = ends_upto(text, at, ends, word.span.start);
        at = word.span.start;
        if ends <= last {
            return false;
        }
    }
    true
}

/// Whether the words of a class text, as it is read, are those at these places, each once and in their order, and
/// behind these such as stand on lines behind the last one of the file. Refused as `lex` refuses the text.
pub fn are_words(alloc: Global, java: &str, text: &str, places: &[Place]) -> Result<bool, TextFault>
    ensures { IfOk result (λ found. found ≡ true → AreWords java.now text.now places.now) }
{
    let words = lex(alloc, text)?;
    let words = words.as_slice();
    if words.len() < places.len() {
        return Ok(false);
    }
    let (placed, added) = words.split_at(places.len());
    Ok(stand_at(placed, places) && stand_behind(added, text, feeds(java.as_bytes())))
}

// Whether two texts are the same, byte by byte.
fn are_same(word: &[u8], token: &[u8]) -> bool
    ensures { (result ≡ true) ↔ (word.now ≡ token.now) }
{
    word == token
}

// Whether a word comes from the token that its place names, and says whether it is spelled as that token.
fn comes_from(java: &str, tokens: &[Token], text: &str, place: &Place) -> bool
    ensures { result ≡ true → ComesFrom java.now tokens.now text.now place.now }
{
    let Some(token) = tokens.get(place.token) else {
        return false;
    };
    if place.at != token.start || place.until != token.end {
        return false;
    }
    let word = text.as_bytes().get(place.start..place.end);
    let spelled = java.as_bytes().get(place.at..place.until);
    match (word, spelled) {
        (Some(word), Some(spelled)) => place.own == are_same(word, spelled),
        _ => false,
    }
}

// The line of a word's token in the file, if the word comes from that token, as its place says.
fn line_of(
    java: &str,
    tokens: &[Token],
    lines: &[usize],
    text: &str,
    place: &Place,
) -> Option<usize>
    requires { lines.now ≡ lines_of java.now tokens.now }
    ensures { IfSome result (λ line. ComesFrom java.now tokens.now text.now place.now ×
        (line ≡ 1 + ends_before place.now.at java.now)) }
{
    if !comes_from(java, tokens, text, place) {
        return None;
    }
    lines.get(place.token).copied()
}

// Whether a word goes to its token's line where it should. The next word that is spelled as its token is on line
// `next`.
fn goes_as_it_should(place: &Place, line: usize, next: usize) -> bool
    ensures { result ≡ true → place.now.goes ≡ (place.now.own || nat_le line next) }
{
    place.goes == (place.own || line <= next)
}

// The line of the next word that is spelled as its token, before this word.
fn next_before(place: &Place, line: usize, next: usize) -> usize
    ensures { result ≡ (if place.now.own then line else next) }
{
    if place.own { line } else { next }
}

/// Whether each word comes from the token that its place names, and says whether it is spelled as that token and
/// whether it goes to its line. `lines` has the lines of the tokens.
pub fn come_from(
    java: &str,
    tokens: &[Token],
    lines: &[usize],
    text: &str,
    places: &[Place],
) -> bool
    requires { lines.now ≡ lines_of java.now tokens.now }
    ensures { result ≡ true → ComeFrom java.now tokens.now text.now places.now }
{
    let mut next: usize = 0;
    let mut at = places.len();
    'places: while at > 0 {
        at -= 1;
        let place = &places[at];
        let Some(line) = line_of(java, tokens, lines, text, place) else {
            return false;
        };
        if !goes_as_it_should(place, line, next) {
            return false;
        }
        next = next_before(place, line, next);
    }
    true
}
