// The classes of the class text, by their numbers.

ghost use Rattle.std.specs.Prelude.{◌≡◌, ◌∷◌, IfErr, IfOk, List};
ghost use Rattle.ls_lexer.specs.Lexemes.{Lexeme, lexeme_of, lexemes};
ghost use Rattle.ls_explanations.specs.Mismatches.{class_name, is_class_word, name_from};
ghost use Rattle.ls_explanations.specs.Tokens.{lexemes_in};

use ls_lexer::fault::TextFault;
use ls_lexer::lexing::lex;
use ls_lexer::token::{Token, TokenKind};
use ls_lexer::word::Word;
use std::alloc::{AllocError, Global};

fn is_class_word(word: Word) -> bool
    ensures { result ≡ is_class_word word }
{
    match word {
        Word::Class => true,
        _ => false,
    }
}

/// The tokens of a text. A text that has none, or that is too long, gives no tokens. The only refusal is that
/// memory ran out.
pub(crate) fn tokens_in(alloc: Global, text: &str) -> Result<Vec<Token<'_>>, AllocError>
    ensures { IfOk result (λ tokens. lexemes tokens.items ≡ lexemes_in text.now) }
{
    match lex(alloc, text) {
        Ok(tokens) => Ok(tokens),
        Err(TextFault::Memory) => Err(AllocError),
        Err(_) => Ok(Vec::new(alloc)),
    }
}

/// How far the search for a class has come.
#[derive(Clone, Copy)]
struct Search {
    /// Whether the word `class` came last.
    is_class: bool,
    /// How many names of classes are still to come before the one that is looked for.
    left: usize,
}

/// The search after one more token, or the name that it has found.
fn after<'a>(search: Search, kind: TokenKind<'a>) -> Result<Search, &'a str>
    ensures goes_on { IfOk result (λ s. (ks : List Lexeme) → name_from s.is_class ks s.left ≡
        name_from search.is_class (lexeme_of kind.entry ∷ ks) search.left) }
    ensures found { IfErr result (λ name. (ks : List Lexeme) → name.now ≡
        name_from search.is_class (lexeme_of kind.entry ∷ ks) search.left) }
{
    let Search { is_class, left } = search;
    match kind {
        TokenKind::Name(name) => {
            if is_class && left == 0 {
                return Err(name);
            }
            Ok(Search {
                is_class: false,
                left: if is_class { left - 1 } else { left },
            })
        }
        TokenKind::Word(word) => Ok(Search {
            is_class: is_class_word(word),
            left,
        }),
        TokenKind::Number(_) | TokenKind::Sign(_) => Ok(Search {
            is_class: false,
            left,
        }),
    }
}

/// The name of a class, by its number from 0, or `?` if the text has no class of this number.
pub(crate) fn class_name<'a>(tokens: &[Token<'a>], number: usize) -> &'a str
    ensures { result.now ≡ class_name (lexemes tokens.entry.now) number }
{
    let mut search = Search {
        is_class: false,
        left: number,
    };
    for token in tokens {
        match after(search, token.kind) {
            Ok(next) => search = next,
            Err(name) => return name,
        }
    }
    "?"
}
