// Which words go to the lines of their tokens.

use crate::gaps::{Source, is_copied, nearest};
use crate::layout::Made;
use crate::leaves::{Leaf, Spelling};
use crate::lines::line_at;
use std::alloc::AllocError;

// Whether a leaf is spelled as its token.
fn is_own(made: &Made, source: Source, leaf: &Leaf) -> Result<bool, AllocError> {
    match leaf.spelling {
        Spelling::Word(word) => Ok(is_copied(source, made.words.text(word), leaf.token)),
        Spelling::Fixed(word) => Ok(is_copied(source, word, leaf.token)),
        Spelling::Number(value) => {
            let digits = value.to_string(made.alloc)?;
            Ok(is_copied(source, digits.as_str(), leaf.token))
        }
    }
}

/// Of each leaf whether it goes to the line of its token, the last one first: each that is spelled as that token, and
/// another, if the next of those stands on that line or on a later one.
pub fn words_going(made: &Made, source: Source, leaves: &[Leaf]) -> Result<Vec<bool>, AllocError> {
    let mut all = Vec::with_capacity(made.alloc, leaves.len())?;
    let mut next = 0;
    for leaf in leaves.iter().rev() {
        let own = is_own(made, source, leaf)?;
        let line = line_at(source.lines, nearest(source, leaf.token));
        all.push(own || (line > 0 && line <= next))?;
        if own {
            next = line;
        }
    }
    Ok(all)
}
