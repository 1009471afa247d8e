// The words of a rope, in their order.

use ls_java_tables::ropes::{NodeKind, Ropes, Text};
use ls_java_tables::words::WordId;
use std::alloc::{AllocError, Global};

/// The most nodes of a rope that are walked. A node that stands in a rope twice counts twice.
const NODE_LIMIT: usize = 1048576;

/// What a leaf spells.
#[derive(Copy)]
pub enum Spelling {
    Word(WordId),
    Fixed(&'static str),
    Number(u32),
}

impl Clone for Spelling {
    fn clone(&self) -> Result<Spelling, AllocError> {
        Ok(*self)
    }
}

/// A word that is written, and the token of the file from which it comes.
#[derive(Clone, Copy)]
pub struct Leaf {
    pub spelling: Spelling,
    pub token: usize,
}

// The words of a phrase.
fn push_phrase(all: &mut Vec<Leaf>, phrase: &'static str, token: usize) -> Result<(), AllocError> {
    for word in phrase.split_whitespace() {
        all.push(Leaf {
            spelling: Spelling::Fixed(word),
            token,
        })?;
    }
    Ok(())
}

// One leaf, if a node is one.
fn push_node(all: &mut Vec<Leaf>, kind: NodeKind) -> Result<(), AllocError> {
    match kind {
        NodeKind::Word { word, token } => all.push(Leaf {
            spelling: Spelling::Word(word),
            token,
        })?,
        NodeKind::Number { value, token } => all.push(Leaf {
            spelling: Spelling::Number(value),
            token,
        })?,
        NodeKind::Phrase { text, token } => push_phrase(all, text, token)?,
        NodeKind::Empty | NodeKind::Join { .. } => {}
    }
    Ok(())
}

/// The leaves of a text, in order, or none if the rope has too many nodes.
pub fn leaves_of(
    alloc: Global,
    ropes: &Ropes,
    text: Text,
) -> Result<Option<Vec<Leaf>>, AllocError> {
    let mut all = Vec::new(alloc);
    let mut open = Vec::new(alloc);
    open.push(text)?;
    for _ in 0..NODE_LIMIT {
        let Some(next) = open.pop() else {
            return Ok(Some(all));
        };
        let kind = ropes.node(next).kind;
        push_node(&mut all, kind)?;
        if let NodeKind::Join { left, right } = kind {
            open.push(right)?;
            open.push(left)?;
        }
    }
    Ok(None)
}
