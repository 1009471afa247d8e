// A menu that is written by hand.

ghost use Rattle.std.specs.Prelude.{◌≡◌, ◌<◌, ◌++◌, ◌==◌, [], IfOk, OnOk, map, string_bytes};
ghost use Rattle.std.specs.List.{slice_split};
ghost use Rattle.ls_items.specs.Cutting.{plain_text};
ghost use Rattle.ls_class_programs.specs.Written.{and_call, entries, entry_of, line_calls, line_parts};
ghost use Rattle.ls_class_programs.specs.Written.{opens_comment, with_calls};

use ls_report::cuts::cut;
use std::alloc::{AllocError, Global};
use std::marker::Model;

/// An entry of a menu.
#[derive(Drop)]
pub struct Entry {
    at: usize,
    of_setup: bool,
    calls: String,
}

impl Model for Entry {
    ghost use Rattle.std.specs.Prelude.{string_bytes};
    ghost use Rattle.ls_class_programs.specs.Written.{Entry as EntryValue};

    ghost Value = { EntryValue };

    ghost view = { λ e. record { at = e.at; of_setup = e.of_setup; calls = string_bytes e.calls } };
}

impl Entry {
    ghost use Rattle.std.specs.Prelude.{◌≡◌};

    /// The byte at which its line begins, from 0.
    pub fn at(&self) -> usize
        ensures { result ≡ self.now.at }
    {
        self.at
    }

    /// Whether it is one of the setup alone.
    pub fn is_of_setup(&self) -> bool
        ensures { result ≡ self.now.of_setup }
    {
        self.of_setup
    }

    /// Its calls, as `s.lock(#); s.unlock(#);`.
    pub fn calls(&self) -> &str
        ensures { result.now ≡ self.now.calls }
    {
        self.calls.as_str()
    }
}

/// What stands between the marks of a text.
fn pieces_of<'a>(alloc: Global, mark: char, text: &'a str) -> Result<Vec<&'a str>, AllocError>
    requires { mark < 128 }
    ensures { IfOk result (λ pieces. map plain_text pieces.items ≡ slice_split (λ b. b == mark) text.now) }
{
    text.split(mark).collect(alloc)
}

/// Whether a text begins with `//`.
fn opens_comment(text: &str) -> bool
    ensures { result ≡ opens_comment text.now }
{
    match text.as_bytes() {
        [first, second, ..] => *first == b'/' && *second == b'/',
        _ => false,
    }
}

/// Adds a call, unless its text is empty.
fn and_call(out: &mut String, call: &str) -> Result<(), AllocError>
    ensures { OnOk result (string_bytes out.new ≡ and_call (string_bytes out.old) call.now) }
{
    if call.is_empty() {
        return Ok(());
    }
    if !out.is_empty() {
        out.push_str(" ")?;
    }
    out.push_str("s.")?;
    out.push_str(call)?;
    out.push_str(";")?;
    Ok(())
}

/// Calls, without the blanks around them.
fn with_calls(alloc: Global, pieces: &[&str]) -> Result<String, AllocError>
    ensures { IfOk result (λ calls. string_bytes calls ≡ with_calls [] (map plain_text pieces.now)) }
{
    let mut out = String::new(alloc);
    for piece in pieces {
        and_call(&mut out, piece.trim())?;
    }
    Ok(out)
}

/// The calls of a line.
fn line_calls(alloc: Global, line: &str) -> Result<String, AllocError>
    ensures { IfOk result (λ calls. string_bytes calls ≡ line_calls line.now) }
{
    if opens_comment(line.trim()) {
        return Ok(String::new(alloc));
    }
    let pieces = pieces_of(alloc, ';', line)?;
    with_calls(alloc, pieces.as_slice())
}

/// Whether the text `setup:` stands before the calls of a line, and what stands there of its calls.
fn line_parts(line: &str) -> (bool, &str)
    ensures { (result.0, result.1.now) ≡ line_parts line.now }
{
    match cut(line, ':') {
        Some((front, rest)) if front.trim() == "setup" => (true, rest),
        _ => (false, line),
    }
}

/// Adds the entry of a line that begins at a byte, unless it has no calls.
fn push_entry(
    entries: &mut Vec<Entry>,
    at: usize,
    of_setup: bool,
    calls: String,
) -> Result<(), AllocError>
    ensures { OnOk result (entries.new.items ≡ entries.old.items ++ entry_of at of_setup (string_bytes calls)) }
{
    if !calls.is_empty() {
        entries.push(Entry {
            at,
            of_setup,
            calls,
        })?;
    }
    Ok(())
}

/// The entries of a menu that is written by hand. Each line is one, but for those that are empty or begin with `//`.
/// Its calls are separated by `;`, and the object isn't named. An entry of the setup alone begins with `setup:`. The
/// only refusal is that memory ran out.
pub fn entries_of(alloc: Global, text: &str) -> Result<Vec<Entry>, AllocError>
    ensures { IfOk result (λ all. all.items ≡ entries text.now) }
{
    let lines = pieces_of(alloc, '\n', text)?;
    let mut all = Vec::new(alloc);
    let mut at = 0;
    for line in &lines {
        let (of_setup, part) = line_parts(line);
        let calls = line_calls(alloc, part)?;
        push_entry(&mut all, at, of_setup, calls)?;
        at += line.len() + 1;
    }
    Ok(all)
}
