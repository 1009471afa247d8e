// Which class of a text is chosen, and what its programs may be.

ghost use Rattle.std.specs.Prelude.{◌≡◌, map};
ghost use Rattle.ls_lexer.specs.Lexemes.{lexemes};
ghost use Rattle.ls_tree.specs.Views.{bare_class};
ghost use Rattle.ls_class_programs.specs.Chosen.{chosen, numbered};

use crate::arguments::Integers;
use crate::meant;
use ls_families::Bounds;
use ls_lexer::token::Token;
use ls_tree::tree::Class;
use std::alloc::AllocError;

/// Which class is chosen, and what its programs may be.
#[derive(Copy)]
pub struct Choosing {
    /// The number of the class in its text, from 1. If there is none, the class that no other class names is meant.
    pub class: Option<u64>,
    /// An int argument is one of so many integers, from 1.
    pub values: u64,
    /// An int of the constructor is one of these integers.
    pub given: Integers,
    pub bounds: Bounds,
}

impl Clone for Choosing {
    fn clone(&self) -> Result<Choosing, AllocError> {
        Ok(*self)
    }
}

/// The place of the class of a number, from 1, among so many.
fn numbered(number: u64, count: usize) -> Option<usize>
    ensures { result ≡ numbered number count }
{
    if number == 0 || number - 1 >= count as u64 {
        return None;
    }
    Some((number - 1) as usize)
}

/// The place of the class that is chosen.
pub(crate) fn chosen(class: Option<u64>, tokens: &[Token<'_>], classes: &[Class]) -> Option<usize>
    ensures { result ≡ chosen class (lexemes tokens.now) (map bare_class classes.now) }
{
    match class {
        Some(number) => numbered(number, classes.len()),
        None => meant(tokens, classes),
    }
}
