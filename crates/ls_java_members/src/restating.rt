// A whole file, restated.

use crate::classes::all_classes;
use ls_java_lexer::token::Token;
use ls_java_tables::beginning::{Begun, begin, no_facts};
use ls_java_tables::remarks::{Stop, Why};
use ls_java_tables::restater::{Facts, Restater, refuse};
use ls_java_tables::ropes::Text;
use ls_java_tree::declarations::File;
use std::alloc::Global;
use std::mem;

/// How often restating may begin again.
pub const ROUNDS: usize = 64;

/// What was restated: the text of all classes of the file, with its words and ropes, and notes and refusals. If there
/// are refusals, the text isn't complete.
#[derive(Drop)]
pub struct Made {
    pub restater: Restater,
    pub text: Text,
}

// Once, with the facts that were found before.
fn once(alloc: Global, file: &File, tokens: &[Token], facts: Facts) -> Result<Made, Stop> {
    let begun = begin(alloc, file, tokens, facts)?;
    let Begun { mut restater, kept } = begun;
    restater.facts.again = false;
    let text = all_classes(&mut restater, file, &kept.lists)?;
    Ok(Made { restater, text })
}

/// The classes of a file, restated. It begins again until nothing new is found.
pub fn restate_file(alloc: Global, file: &File, tokens: &[Token]) -> Result<Made, Stop> {
    let mut facts = no_facts(alloc);
    for _ in 0..ROUNDS {
        let mut made = once(alloc, file, tokens, facts)?;
        if !made.restater.facts.again {
            return Ok(made);
        }
        facts = mem::replace(&mut made.restater.facts, no_facts(alloc));
    }
    let mut made = once(alloc, file, tokens, facts)?;
    let refused: Result<(), Stop> = refuse(&mut made.restater, 0, Why::TooMuch);
    match refused {
        Err(Stop::Refused) => Ok(made),
        Err(stop) => Err(stop),
        Ok(()) => Ok(made),
    }
}
