// How words stand beside one another where the Java file doesn't say it.

use std::alloc::AllocError;

/// What stands between two words.
#[derive(Copy, PartialEq, Eq)]
pub enum Gap {
    Nothing,
    Space,
    Line,
    EmptyLine,
}

impl Clone for Gap {
    fn clone(&self) -> Result<Gap, AllocError> {
        Ok(*self)
    }
}

/// What the word was that was written last, as far as it matters for what comes after it.
#[derive(Copy, PartialEq, Eq)]
pub enum Ending {
    Start,
    OpenBrace,
    CloseBrace,
    Semicolon,
    // `(`, `[`, `.`, `!`, `@` and a minus of one operand: nothing stands after these
    Tight,
    Minus,
    // an operator, or a word of a statement, before which no value ends
    Open,
    Value,
    // a type that has another one between `<` and `>`; its `<`; and what is between them
    Generic,
    Angle,
    Argument,
}

impl Clone for Ending {
    fn clone(&self) -> Result<Ending, AllocError> {
        Ok(*self)
    }
}

const TIGHT: [&str; 5] = ["(", "[", ".", "!", "@"];

const OPEN: [&str; 26] = [
    "=",
    "+",
    "*",
    "/",
    "%",
    "&&",
    "||",
    "==",
    "!=",
    "<",
    ">",
    "<=",
    ">=",
    "+=",
    ",",
    "return",
    "if",
    "while",
    "for",
    "synchronized",
    ":",
    "&",
    "|",
    "^",
    "else",
    "try",
];

const LEFT: [&str; 8] = [";", ",", ")", "]", ".", "[", "++", "--"];

fn is_in(words: &[&str], word: &str) -> bool {
    for one in words {
        if *one == word {
            return true;
        }
    }
    false
}

// What a word is for the word after it, within `AtomicMarkableReference<C>`.
fn ending_in_type(before: Ending, word: &str) -> Option<Ending> {
    match before {
        Ending::Generic if word == "<" => Some(Ending::Angle),
        Ending::Angle => Some(Ending::Argument),
        Ending::Argument if word == ">" => Some(Ending::Value),
        _ if word == "AtomicMarkableReference" => Some(Ending::Generic),
        _ => None,
    }
}

/// What a word is for the word after it. A minus has one operand where no value ends before it.
pub fn ending_of(before: Ending, word: &str) -> Ending {
    if let Some(found) = ending_in_type(before, word) {
        return found;
    }
    if word == "{" {
        Ending::OpenBrace
    } else if word == "}" {
        Ending::CloseBrace
    } else if word == ";" {
        Ending::Semicolon
    } else if word == "-" {
        match before {
            Ending::Value => Ending::Open,
            _ => Ending::Minus,
        }
    } else if is_in(&TIGHT, word) {
        Ending::Tight
    } else if is_in(&OPEN, word) {
        Ending::Open
    } else {
        Ending::Value
    }
}

/// Whether a word begins a line of its own outside of parentheses.
pub fn begins_line(before: Ending, word: &str) -> bool {
    match before {
        Ending::OpenBrace => word != "}",
        Ending::CloseBrace => word != "else" && word != "finally",
        Ending::Semicolon => true,
        _ => false,
    }
}

/// What stands between a word and the one before it.
pub fn gap_between(before: Ending, word: &str) -> Gap {
    match before {
        Ending::Start => Gap::Nothing,
        Ending::Tight => Gap::Nothing,
        Ending::Minus if word != "-" && word != "--" => Gap::Nothing,
        Ending::Value if word == "(" => Gap::Nothing,
        Ending::Generic if word == "<" => Gap::Nothing,
        Ending::Angle => Gap::Nothing,
        Ending::Argument if word == ">" => Gap::Nothing,
        _ if is_in(&LEFT, word) => Gap::Nothing,
        _ => Gap::Space,
    }
}
