// Words by number.

use indexmap::IndexSet;
use ls_java_lexer::token::{Token, TokenKind};
use ls_java_tree::names::Name;
use std::alloc::{AllocError, Global};

/// The number of a word. The empty word is 0.
#[derive(Clone, Copy, PartialEq, Eq)]
pub struct WordId {
    pub number: usize,
}

/// The next number behind a word that stood in the way of a fresh one.
#[derive(Clone, Copy)]
struct Series {
    base: WordId,
    next: usize,
}

/// The words of a file, each once, the words that are added to it, and the word of each token of the file.
#[derive(Drop)]
pub struct Words {
    texts: IndexSet<String>,
    of_tokens: Vec<WordId>,
    series: Vec<Series>,
}

impl Words {
    /// The empty word.
    pub const NONE: WordId = WordId { number: 0 };

    /// The words of a file's tokens.
    pub fn of_tokens(alloc: Global, tokens: &[Token]) -> Result<Words, AllocError> {
        let mut words = Words {
            texts: IndexSet::new(alloc),
            of_tokens: Vec::new(alloc),
            series: Vec::new(alloc),
        };
        words.number(alloc, "")?;
        for token in tokens {
            let word = match token.kind {
                TokenKind::Name(text) => words.number(alloc, text)?,
                _ => Words::NONE,
            };
            words.of_tokens.push(word)?;
        }
        Ok(words)
    }

    /// The word of a text. It is added if it is new.
    pub fn number(&mut self, alloc: Global, text: &str) -> Result<WordId, AllocError> {
        if let Some(number) = self.texts.get_index_of(text) {
            return Ok(WordId { number });
        }
        let copy = String::from_str(alloc, text)?;
        let (number, _) = self.texts.insert_full(copy)?;
        Ok(WordId { number })
    }

    /// How many words there are.
    pub fn len(&self) -> usize {
        self.texts.len()
    }

    /// Whether a text is one of the words.
    pub fn has(&self, text: &str) -> bool {
        self.texts.contains(text)
    }

    /// The next number to be tried behind a word, from 2 on.
    pub fn next_number(&mut self, base: WordId) -> Result<usize, AllocError> {
        for series in &mut self.series {
            if series.base == base {
                let number = series.next;
                series.next = number.saturating_add(1);
                return Ok(number);
            }
        }
        self.series.push(Series { base, next: 3 })?;
        Ok(2)
    }

    /// The text of a word.
    pub fn text(&self, word: WordId) -> &str {
        match self.texts.get_index(word.number) {
            Some(text) => text.as_str(),
            None => "",
        }
    }

    /// The word of a token of the file, or the empty one.
    pub fn at(&self, token: usize) -> WordId {
        match self.of_tokens.get(token) {
            Some(word) => *word,
            None => Words::NONE,
        }
    }

    /// The word of a name of the tree.
    pub fn of(&self, name: &Name) -> WordId {
        self.at(name.token)
    }
}
