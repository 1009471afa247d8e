// The page that stands round the data of a run.

use crate::ends::End;
use std::env::{self, VarError};
use std::fs;
use std::io::ErrorKind;

/// What stands before the data, and what stands after them.
#[derive(Debug, Drop)]
pub(crate) struct Sheet {
    pub(crate) head: Vec<u8>,
    pub(crate) tail: Vec<u8>,
}

/// The line in whose place the data stand.
const DATA: &str = "@@";

/// With which a line begins in whose place a file of the same folder stands.
const FILE: &str = "@@ ";

/// What a file of the page holds.
fn read(rt: &HostRuntime, path: &str) -> Result<Vec<u8>, End> {
    match fs::read(rt, path) {
        Ok(bytes) => Ok(bytes),
        Err(error) => {
            if error.kind() == ErrorKind::OutOfMemory {
                return Err(End::Memory);
            }
            Err(End::Unread {
                name: String::from_str(rt.alloc(), path)?,
                why: "this file of the page can't be read",
                option: None,
            })
        }
    }
}

/// The folder in which a file is, with the slash after it.
fn folder_of(path: &str) -> &str {
    match path.rsplit_once('/') {
        Some((folder, _)) => folder,
        None => ".",
    }
}

/// The page of a file. A line `@@` stands for the data, and a line `@@ FILE` for a file of the same folder.
fn read_sheet(rt: &HostRuntime, path: &str) -> Result<Sheet, End> {
    let alloc = rt.alloc();
    let bytes = read(rt, path)?;
    let text = String::from_utf8_lossy(alloc, bytes.as_slice())?;
    let mut head = Vec::new(alloc);
    let mut part = Vec::new(alloc);
    for line in text.lines() {
        if line == DATA {
            head = part;
            part = Vec::new(alloc);
        } else if let Some(name) = line.strip_prefix(FILE) {
            let file = format!(in alloc; "{}/{name}", folder_of(path))?;
            part.extend_from_slice(read(rt, file.as_str())?.as_slice())?;
        } else {
            part.extend_from_slice(line.as_bytes())?;
            part.push(b'\n')?;
        }
    }
    Ok(Sheet { head, tail: part })
}

/// The variable of the environment in which `./listset` names the file of the page.
const PAGE: &str = "LISTSET_PAGE";

/// What a variable of the environment holds, if it is there.
pub(crate) fn variable(rt: &HostRuntime, name: &str) -> Result<Option<String>, End> {
    match env::var(rt, name) {
        Ok(text) => Ok(Some(text)),
        Err(VarError::OutOfMemory) => Err(End::Memory),
        Err(_) => Ok(None),
    }
}

/// Whether `./listset` runs the program, so that the page is put round data, and more is told than the program tells.
pub(crate) fn is_shown(rt: &HostRuntime) -> Result<bool, End> {
    Ok(variable(rt, PAGE)?.is_some())
}

/// The page, if `./listset` runs the program.
pub(crate) fn sheet_of(rt: &HostRuntime) -> Result<Option<Sheet>, End> {
    match variable(rt, PAGE)? {
        Some(path) => Ok(Some(read_sheet(rt, path.as_str())?)),
        None => Ok(None),
    }
}
