//! Lexing and parsing, to be timed: `bench_parser PART BYTES TURNS`, where the part is lex or parse.
#![tactic(auto)]

use ls_lexer::fault::TextFault;
use ls_lexer::lexing::lex;
use ls_parser::parsing::parse_text;
use ls_stored_classes::LOCK_FREE;
use std::alloc::{AllocError, Global};
use std::{env, io};

/// A text of `bytes` bytes: the classes again and again, and spaces after the last class.
fn text_of(alloc: Global, bytes: usize) -> Result<String, AllocError> {
    let mut text = String::new(alloc);
    for _ in 0..bytes {
        if text.len().saturating_add(LOCK_FREE.len()) <= bytes {
            text.push_str(LOCK_FREE)?;
        }
    }
    for _ in 0..bytes {
        if text.len() < bytes {
            text.push_str(" ")?;
        }
    }
    Ok(text)
}

/// How many tokens a text has, found `turns` times.
fn tokens(alloc: Global, text: &str, turns: u64) -> Result<usize, TextFault> {
    let mut found = 0;
    for _ in 0..turns {
        found = lex(alloc, text)?.len();
    }
    Ok(found)
}

/// How many classes a text has, found `turns` times.
fn classes(alloc: Global, text: &str, turns: u64) -> Result<usize, TextFault> {
    let mut found = 0;
    for _ in 0..turns {
        found = parse_text(alloc, text)?.classes().len();
    }
    Ok(found)
}

fn main(rt: HostRuntime) -> io::Result<()> {
    let mut words = env::args(&rt)?;
    let _ = words.next();
    let (Some(part), Some(bytes), Some(turns)) = (words.next(), words.next(), words.next()) else {
        println!(rt; "bench_parser PART BYTES TURNS")?;
        return Ok(());
    };
    let (Ok(bytes), Ok(turns)) = (
        bytes.as_str().parse::<usize>(),
        turns.as_str().parse::<u64>(),
    ) else {
        println!(rt; "bench_parser PART BYTES TURNS")?;
        return Ok(());
    };
    let text = text_of(rt.alloc(), bytes)?;
    let found = if part.as_str() == "lex" {
        tokens(rt.alloc(), text.as_str(), turns)
    } else {
        classes(rt.alloc(), text.as_str(), turns)
    };
    match found {
        Ok(found) => println!(rt; "{found} of {bytes} bytes")?,
        Err(fault) => println!(rt; "{fault}")?,
    }
    Ok(())
}
