// What the words of a command line have the program do, and on which input.

use crate::ends::End;
use crate::reading::{STDIN, read_files, read_stdin};
use crate::sheets::{Sheet, is_shown, sheet_of, variable};
use crate::telling::{Telling, telling_of};
use ls_command_line::{Awaits, Given, WordsFault, read_words, sort_words};
use ls_files::{file_names_in, joined};
use std::io::IsTerminal;

/// The variable of the environment by which it is known that what is told goes to a terminal in the end.
const TERMINAL: &str = "LISTSET_TERMINAL";

/// What is run: the words, the page that stands round what is printed, if there is one, and what is told beside.
#[derive(Debug, Drop)]
pub(crate) struct Task {
    pub(crate) words: Vec<String>,
    pub(crate) sheet: Option<Sheet>,
    pub(crate) telling: Telling,
}

/// Where the input comes from.
#[derive(Debug, Drop)]
pub(crate) enum Input {
    Stdin,
    Read(Vec<u8>),
}

/// What is run, and on which input.
#[derive(Debug, Drop)]
pub(crate) struct Plan {
    pub(crate) task: Task,
    pub(crate) input: Input,
}

/// These words on standard input.
fn plain(words: Vec<String>) -> Plan {
    Plan {
        task: Task {
            words,
            sheet: None,
            telling: Telling::Nothing,
        },
        input: Input::Stdin,
    }
}

/// What is said of the last word, if it is an option that takes a value.
fn lacking(awaits: Awaits) -> Option<&'static str> {
    match awaits {
        Awaits::Menu => { Some("--menu takes a line of a menu, as 'lock(#); inc(); unlock(#)'") }
        Awaits::Setup => Some("--setup-menu takes a line of a menu, as 'fill(2)'"),
        Awaits::Reference => Some("--spec takes a file, as Reference.java"),
        Awaits::Word | Awaits::Value | Awaits::File => None,
    }
}

/// Whether one of the words is this.
fn has(words: &[String], wanted: &str) -> bool {
    for word in words {
        if word.as_str() == wanted {
            return true;
        }
    }
    false
}

/// The command of the words that ask for something.
fn command_of(asking: &[String]) -> &str {
    match asking {
        [_, command, ..] => command.as_str(),
        _ => "",
    }
}

/// By which words the program is told of a file.
fn name_of(file: &str) -> &str {
    if file == STDIN { "<stdin>" } else { file }
}

/// The words for the program: those that ask for something, and the names of the files.
fn words_of(
    rt: &HostRuntime,
    asking: Vec<String>,
    is_like: bool,
    names: Vec<String>,
) -> Result<Vec<String>, End> {
    let alloc = rt.alloc();
    let explains = command_of(asking.as_slice()) == "check"
        && rt.stderr().is_terminal()
        && !has(asking.as_slice(), "--explain");
    let mut words = asking;
    if explains {
        words.push(String::from_str(alloc, "--explain")?)?;
    }
    if is_like {
        words.push(String::from_str(alloc, "--spec")?)?;
    }
    if !names.is_empty() {
        words.push(String::from_str(alloc, "--names")?)?;
        for name in names {
            words.push(name)?;
        }
    }
    Ok(words)
}

/// The names of files, by which the program is told of them.
fn names_of(rt: &HostRuntime, files: &[String]) -> Result<Vec<String>, End> {
    let mut names = Vec::with_capacity(rt.alloc(), files.len())?;
    for file in files {
        names.push(String::from_str(rt.alloc(), name_of(file.as_str()))?)?;
    }
    Ok(names)
}

/// The names of standard input alone: at a terminal it has one. If it is a terminal, it is said that it is read.
fn names_of_stdin(rt: &HostRuntime, command: &str) -> Result<Vec<String>, End> {
    let mut names = Vec::new(rt.alloc());
    if rt.stdin().is_terminal() {
        let _ = eprintln!(rt;
            "listset: reads standard input to its end (Ctrl-D); 'listset help {command}' says what it should be"
        );
    }
    if rt.stderr().is_terminal() || variable(rt, TERMINAL)?.is_some() {
        names.push(String::from_str(rt.alloc(), "<stdin>")?)?;
    }
    Ok(names)
}

/// The input of files, a menu and a reference, one after another, and the names of these.
fn joined_input(
    rt: &HostRuntime,
    command: &str,
    files: &[String],
    menu: String,
    reference: Option<String>,
) -> Result<(Vec<String>, Vec<u8>), End> {
    let alloc = rt.alloc();
    let mut names = names_of(rt, files)?;
    let mut read = Vec::with_capacity(alloc, files.len())?;
    for file in files {
        read.push(String::from_str(alloc, file.as_str())?)?;
    }
    let is_like = reference.is_some();
    if let Some(file) = reference {
        read.push(file)?;
    }
    let mut texts = read_files(rt, command, read.as_slice())?;
    let like = if is_like { texts.pop() } else { None };
    if !menu.is_empty() {
        names.push(String::from_str(alloc, "<menu>")?)?;
        let mut lines = menu;
        lines.push_str("\n")?;
        texts.push(lines.into_bytes())?;
    }
    if let (Some(text), Some(name)) = (like, read.pop()) {
        names.push(name)?;
        texts.push(text)?;
    }
    Ok((names, joined(alloc, texts.as_slice())?))
}

/// Standard input alone. It is read at once where something is told of it beside what is printed.
fn stdin_for(rt: &HostRuntime, telling: Telling) -> Result<Input, End> {
    match telling {
        Telling::Nothing => Ok(Input::Stdin),
        _ => Ok(Input::Read(read_stdin(rt)?)),
    }
}

/// What is run for words that are a command line.
fn plan_for(rt: &HostRuntime, given: Given) -> Result<Plan, End> {
    let Given {
        asking,
        mut files,
        menu,
        reference,
        data_alone,
        awaits: _,
    } = given;
    let command = String::from_str(rt.alloc(), command_of(asking.as_slice()))?;
    let sheet = if command.as_str() == "page" && !data_alone {
        sheet_of(rt)?
    } else {
        None
    };
    let explains = has(asking.as_slice(), "--explain") || rt.stderr().is_terminal();
    let telling = if is_shown(rt)? {
        telling_of(command.as_str(), explains)
    } else {
        Telling::Nothing
    };
    let is_like = reference.is_some();
    let is_more = is_like || !menu.is_empty();
    let (names, input) = if files.is_empty() && !is_more {
        let names = names_of_stdin(rt, command.as_str())?;
        (names, stdin_for(rt, telling)?)
    } else {
        if files.is_empty() {
            files.push(String::from_str(rt.alloc(), STDIN)?)?;
        }
        let (names, bytes) = joined_input(rt, command.as_str(), files.as_slice(), menu, reference)?;
        (names, Input::Read(bytes))
    };
    let words = words_of(rt, asking, is_like, names)?;
    Ok(Plan {
        task: Task {
            words,
            sheet,
            telling,
        },
        input,
    })
}

/// Whether `--spec` names no file: no word is behind it, or an option. Then the reference is the last part of the
/// input.
fn has_no_reference(given: &Given) -> bool {
    match &given.reference {
        Some(name) => name.as_str().starts_with("--"),
        None => {
            matches!(given.awaits, Awaits::Reference)
                && given.files.is_empty()
                && given.menu.is_empty()
        }
    }
}

/// What is run for words, which begin with the program's own name. Words that are no command line are handed to the
/// program, before any file is looked for. So are words with `--names`: these name what standard input holds. If
/// `./listset` doesn't run it, `--spec` may stand without a file.
pub(crate) fn plan_of(rt: &HostRuntime, words: Vec<String>) -> Result<Plan, End> {
    if file_names_in(words.as_slice()).is_some() {
        return Ok(plain(words));
    }
    let given = sort_words(rt.alloc(), words.as_slice())?;
    if has_no_reference(&given) && !is_shown(rt)? {
        return Ok(plain(words));
    }
    if let Some(what) = lacking(given.awaits) {
        return Err(End::Lacking(what));
    }
    match read_words(rt.alloc(), given.asking.as_slice()) {
        Ok(_) => plan_for(rt, given),
        Err(WordsFault::Memory) => Err(End::Memory),
        Err(WordsFault::BadLine(_)) => Ok(plain(given.asking)),
    }
}
