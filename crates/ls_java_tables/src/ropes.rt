// What is written, as a rope: words and phrases, joined.

use crate::words::WordId;
use std::alloc::{AllocError, Global};

/// A part of what is written: the number of a node.
#[derive(Clone, Copy, PartialEq, Eq)]
pub struct Text {
    pub node: usize,
}

impl Text {
    /// Nothing.
    pub const EMPTY: Text = Text { node: 0 };
}

/// What a node has. A phrase is tokens with a blank between every two of them. `token` is the token of the file from
/// which a leaf comes. The parts of a join have smaller numbers.
#[derive(Clone, Copy)]
pub enum NodeKind {
    Empty,
    Word { word: WordId, token: usize },
    Phrase { text: &'static str, token: usize },
    Number { value: u32, token: usize },
    Join { left: Text, right: Text },
}

/// A node, its words as a set (the bit of a word is that of its number, in 64), and how many leaves it has; more than a
/// `usize` holds count as the greatest one.
#[derive(Clone, Copy)]
pub struct Node {
    pub kind: NodeKind,
    pub names: u64,
    pub leaves: usize,
}

/// Nodes by number. Node 0 is empty.
#[derive(Drop)]
pub struct Ropes {
    pub nodes: Vec<Node>,
}

/// The set of one word.
pub fn name_bit(word: WordId) -> u64 {
    1 << (word.number % 64)
}

impl Ropes {
    /// Only the empty node.
    pub fn new(alloc: Global) -> Result<Ropes, AllocError> {
        let mut nodes = Vec::new(alloc);
        nodes.push(Node {
            kind: NodeKind::Empty,
            names: 0,
            leaves: 0,
        })?;
        Ok(Ropes { nodes })
    }

    // A new node.
    fn add(&mut self, node: Node) -> Result<Text, AllocError> {
        let number = self.nodes.len();
        self.nodes.push(node)?;
        Ok(Text { node: number })
    }

    // A new leaf.
    fn leaf(&mut self, kind: NodeKind, names: u64) -> Result<Text, AllocError> {
        self.add(Node {
            kind,
            names,
            leaves: 1,
        })
    }

    /// A word.
    pub fn word(&mut self, word: WordId, token: usize) -> Result<Text, AllocError> {
        self.leaf(NodeKind::Word { word, token }, name_bit(word))
    }

    /// A phrase.
    pub fn phrase(&mut self, text: &'static str, token: usize) -> Result<Text, AllocError> {
        self.leaf(NodeKind::Phrase { text, token }, 0)
    }

    /// A number.
    pub fn number(&mut self, value: u32, token: usize) -> Result<Text, AllocError> {
        self.leaf(NodeKind::Number { value, token }, 0)
    }

    /// What a text is.
    pub fn node(&self, text: Text) -> Node {
        match self.nodes.get(text.node) {
            Some(node) => *node,
            None => Node {
                kind: NodeKind::Empty,
                names: 0,
                leaves: 0,
            },
        }
    }

    /// The words of a text as a set.
    pub fn names(&self, text: Text) -> u64 {
        self.node(text).names
    }

    /// One text, and then another.
    pub fn join(&mut self, left: Text, right: Text) -> Result<Text, AllocError> {
        if left == Text::EMPTY {
            return Ok(right);
        }
        if right == Text::EMPTY {
            return Ok(left);
        }
        let one = self.node(left);
        let other = self.node(right);
        self.add(Node {
            kind: NodeKind::Join { left, right },
            names: one.names | other.names,
            leaves: one.leaves.saturating_add(other.leaves),
        })
    }

    /// The token of the file from which the first leaf of a text comes.
    pub fn first_token(&self, text: Text) -> usize {
        let mut at = text;
        for _ in 0..self.nodes.len() {
            match self.node(at).kind {
                NodeKind::Empty => return 0,
                NodeKind::Word { token, .. } => return token,
                NodeKind::Phrase { token, .. } => return token,
                NodeKind::Number { token, .. } => return token,
                NodeKind::Join { left, .. } => at = left,
            }
        }
        0
    }
}
