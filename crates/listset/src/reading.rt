// Reading the files that words name.

use crate::ends::End;
use ls_command_line::{WordsFault, read_words};
use std::fs;
use std::io::{ErrorKind, Read};

/// The word that stands for standard input.
pub(crate) const STDIN: &str = "-";

/// What is said of a file that can't be read.
fn why(kind: ErrorKind) -> &'static str {
    match kind {
        ErrorKind::NotFound | ErrorKind::NotADirectory => "this file isn't there",
        ErrorKind::IsADirectory => "this is a folder",
        ErrorKind::PermissionDenied => "this file can't be read: no permission",
        _ => "this file can't be read",
    }
}

/// The option that a name is but for its dashes, if the command has it.
fn option_named(rt: &HostRuntime, command: &str, name: &str) -> Result<Option<String>, End> {
    let alloc = rt.alloc();
    let bare = match name.split_once('=') {
        Some((front, _)) => front,
        None => name,
    };
    if bare.is_empty() {
        return Ok(None);
    }
    let mut words = Vec::new(alloc);
    words.push(String::from_str(alloc, "listset")?)?;
    words.push(String::from_str(alloc, command)?)?;
    words.push(format!(in alloc; "--{bare}")?)?;
    match read_words(alloc, words.as_slice()) {
        Err(WordsFault::BadLine(error))
            if error.kind() == clap::error::ErrorKind::UnknownArgument => { Ok(None) }
        Err(WordsFault::Memory) => Err(End::Memory),
        _ => Ok(Some(String::from_str(alloc, bare)?)),
    }
}

/// What a file holds, which a word of the command names.
fn read_named(rt: &HostRuntime, command: &str, name: &str) -> Result<Vec<u8>, End> {
    match fs::read(rt, name) {
        Ok(bytes) => Ok(bytes),
        Err(error) => match error.kind() {
            ErrorKind::OutOfMemory => Err(End::Memory),
            ErrorKind::NotFound => Err(End::Unread {
                name: String::from_str(rt.alloc(), name)?,
                why: why(ErrorKind::NotFound),
                option: option_named(rt, command, name)?,
            }),
            kind => Err(End::Unread {
                name: String::from_str(rt.alloc(), name)?,
                why: why(kind),
                option: None,
            }),
        },
    }
}

/// All that standard input has left.
pub(crate) fn read_stdin(rt: &HostRuntime) -> Result<Vec<u8>, End> {
    let mut bytes = Vec::new(rt.alloc());
    match rt.stdin().read_to_end(&mut bytes) {
        Ok(_) => Ok(bytes),
        Err(error) => match error.kind() {
            ErrorKind::OutOfMemory => Err(End::Memory),
            kind => Err(End::Unread {
                name: String::from_str(rt.alloc(), STDIN)?,
                why: why(kind),
                option: None,
            }),
        },
    }
}

/// What the files hold, which words of the command name. Standard input is read after all others, so that it isn't read
/// where one of them can't be.
pub(crate) fn read_files(
    rt: &HostRuntime,
    command: &str,
    names: &[String],
) -> Result<Vec<Vec<u8>>, End> {
    let mut read = Vec::new(rt.alloc());
    for name in names {
        read.push(if name.as_str() == STDIN {
            None
        } else {
            Some(read_named(rt, command, name.as_str())?)
        })?;
    }
    let mut texts = Vec::with_capacity(rt.alloc(), names.len())?;
    for text in read {
        texts.push(match text {
            Some(text) => text,
            None => read_stdin(rt)?,
        })?;
    }
    Ok(texts)
}
