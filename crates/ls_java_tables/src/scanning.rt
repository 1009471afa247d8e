// What a file's tokens show: which classes are made, and at which types generic ones are used.

use crate::restater::Restater;
use crate::shapes::Shape;
use crate::words::{WordId, Words};
use ls_lexer::sign::Sign;
use ls_lexer::word::Word;
use std::alloc::AllocError;

/// What a token is. Behind the last one is nothing.
pub fn shape_at(restater: &Restater, token: usize) -> Shape {
    match restater.shapes.get(token) {
        Some(shape) => *shape,
        None => Shape::Other,
    }
}

/// Whether a token is this sign.
pub fn is_sign(restater: &Restater, token: usize, sign: Sign) -> bool {
    matches!(shape_at(restater, token), Shape::Sign(other) if other == sign)
}

/// Whether a token is this reserved word.
pub fn is_word(restater: &Restater, token: usize, word: Word) -> bool {
    matches!(shape_at(restater, token), Shape::Word(other) if other == word)
}

// The last name of `first.second.third`, which begins at a token.
fn last_name(restater: &Restater, first: usize) -> usize {
    let mut token = first;
    for _ in 0..restater.shapes.len() {
        if !is_sign(restater, token.saturating_add(1), Sign::Dot) {
            break;
        }
        token = token.saturating_add(2);
    }
    token
}

/// Whether the file makes an object of a class: it says `new`, the name, and no `[`.
pub fn is_made(restater: &Restater, name: WordId) -> bool {
    (0..restater.shapes.len()).any(|token| {
        is_word(restater, token, Word::New)
            && {
                let last = last_name(restater, token.saturating_add(1));
                restater.words.at(last) == name
                    && !is_sign(restater, last.saturating_add(1), Sign::OpenBracket)
            }
    })
}

/// An argument of a generic class: the class, which argument it is, and its last name. It has no name if it is
/// primitive, an array, or `?`.
#[derive(Clone, Copy)]
pub struct Argument {
    pub class: WordId,
    pub place: usize,
    pub name: WordId,
    pub token: usize,
}

/// Where the arguments of a generic class are read.
#[derive(Clone, Copy)]
struct Cursor {
    token: usize,
    depth: usize,
    place: usize,
    name: WordId,
    is_array: bool,
}

// What a token of arguments does. The answer is whether an argument ends with it, or nothing if no list of types has
// such a token.
fn step(restater: &Restater, at: &mut Cursor) -> Option<bool> {
    match shape_at(restater, at.token) {
        Shape::Name => {
            if at.depth == 1 {
                at.name = restater.words.at(at.token);
            }
            Some(false)
        }
        Shape::Sign(Sign::Less) => {
            at.depth = at.depth.saturating_add(1);
            Some(false)
        }
        Shape::Sign(Sign::Greater) => {
            at.depth = at.depth.saturating_sub(1);
            Some(at.depth == 0)
        }
        Shape::Sign(Sign::Comma) => Some(at.depth == 1),
        Shape::Sign(Sign::OpenBracket) => {
            at.is_array = true;
            Some(false)
        }
        Shape::Sign(Sign::CloseBracket | Sign::Dot | Sign::Question | Sign::BitAnd) => Some(false),
        Shape::Word(Word::Int | Word::Boolean | Word::Long | Word::Extends | Word::Super) => Some(
            false,
        ),
        _ => None,
    }
}

/// The arguments of the class whose name is at a token, with a `<` after it.
pub fn arguments_at(
    restater: &Restater,
    first: usize,
    found: &mut Vec<Argument>,
) -> Result<(), AllocError> {
    let mut at = Cursor {
        token: first.saturating_add(2),
        depth: 1,
        place: 0,
        name: Words::NONE,
        is_array: false,
    };
    for _ in 0..restater.shapes.len() {
        let Some(ends) = step(restater, &mut at) else {
            return Ok(());
        };
        if ends {
            if !at.is_array {
                found.push(Argument {
                    class: restater.words.at(first),
                    place: at.place,
                    name: at.name,
                    token: first,
                })?;
            }
            at.place = at.place.saturating_add(1);
            at.name = Words::NONE;
            at.is_array = false;
        }
        if at.depth == 0 {
            return Ok(());
        }
        at.token = at.token.saturating_add(1);
    }
    Ok(())
}

/// The arguments of generic classes in the whole file.
pub fn all_arguments(restater: &Restater) -> Result<Vec<Argument>, AllocError> {
    let mut found = Vec::new(restater.alloc);
    for token in 0..restater.shapes.len() {
        let named = matches!(shape_at(restater, token), Shape::Name);
        if named && is_sign(restater, token.saturating_add(1), Sign::Less) {
            arguments_at(restater, token, &mut found)?;
        }
    }
    Ok(found)
}
