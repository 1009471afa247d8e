// The class that is meant.

ghost use Rattle.std.specs.Prelude.{◌≡◌, map};
ghost use Rattle.ls_lexer.specs.Lexemes.{lexeme_of, lexemes};
ghost use Rattle.ls_class_programs.specs.Meant.{is_class_word, is_free, is_name, is_named, is_other, meant};
ghost use Rattle.ls_class_programs.specs.Meant.{opens_class};
ghost use Rattle.ls_tree.specs.Views.{bare_class};

use ls_lexer::token::{Token, TokenKind};
use ls_lexer::word::Word;
use ls_tree::tree::Class;

/// Whether a token is the word `class`.
fn opens_class(kind: TokenKind<'_>) -> bool
    ensures { result ≡ opens_class (lexeme_of kind.entry) }
{
    match kind {
        TokenKind::Word(word) => is_class_word(word),
        TokenKind::Name(_) | TokenKind::Number(_) | TokenKind::Sign(_) => false,
    }
}

fn is_class_word(word: Word) -> bool
    ensures { result ≡ is_class_word word }
{
    match word {
        Word::Class => true,
        _ => false,
    }
}

/// Whether a token is this name.
fn is_name(name: &str, kind: TokenKind<'_>) -> bool
    ensures { result ≡ is_name name.now (lexeme_of kind.entry) }
{
    match kind {
        TokenKind::Name(text) => text == name,
        TokenKind::Word(_) | TokenKind::Number(_) | TokenKind::Sign(_) => false,
    }
}

/// Whether the text after so many words `class` is that of another class than the one of this number, from 1.
fn is_other(class: usize, at: usize) -> bool
    ensures { result ≡ is_other class at }
{
    at > 0 && at != class
}

/// Whether the name stands in the text of another class than the one of this number, from 1.
fn is_named(tokens: &[Token<'_>], class: usize, name: &str) -> bool
    ensures { result ≡ is_named class name.now 0 (lexemes tokens.now) }
{
    let mut at = 0;
    for token in tokens {
        if is_other(class, at) && is_name(name, token.kind) {
            return true;
        }
        if opens_class(token.kind) {
            at += 1;
        }
    }
    false
}

/// Whether no other class names the class of this number and name.
fn is_free(tokens: &[Token<'_>], class: usize, name: &str) -> bool
    ensures { result ≡ is_free (lexemes tokens.now) class name.now }
{
    !is_named(tokens, class, name)
}

/// The place of the one class, among those of the tokens, that no other class names. None if there is no such class, or
/// more than one.
pub fn meant(tokens: &[Token<'_>], classes: &[Class]) -> Option<usize>
    ensures { result ≡ meant (lexemes tokens.now) (map bare_class classes.now) }
{
    let mut found = None;
    for i in 0..classes.len() {
        if is_free(tokens, i + 1, classes[i].name.text.as_str()) {
            if found.is_some() {
                return None;
            }
            found = Some(i);
        }
    }
    found
}
