// The whole run, over any streams.

ghost use Rattle.std.specs.Prelude.{◌≡◌, ◌≢◌, ◌++◌, IfOk, List, Some, map, string_bytes, true};
ghost use Rattle.ls_faults.specs.Faults.{fault_line};
ghost use Rattle.ls_files.specs.Names.{file_names_in};
ghost use Rattle.ls_items.specs.Parts.{is_text};
ghost use Rattle.ls_outlets.specs.Written.{IsWritten};
ghost use Rattle.ls_report.specs.Events.{Text};
ghost use Rattle.ls_tool.specs.Output.{Asks, Decides, Ends, IsTaken, OfInput, Progresses, left, names_of};
ghost use Rattle.ls_tool.specs.Running.{Runs};

use crate::answer::answer_line;
use crate::java::{NoClassText, with_class_text};
use crate::programs::Programs;
use crate::progress::Progress;
use crate::refusal::Refusal;
use crate::said::{Said, Telling, progress_of};
use crate::streams::read_whole;
use ls_command_line::{CommandLine, WordsFault, read_words};
use ls_explore::Nobody;
use ls_faults::fault::ToolFault;
use ls_faults::line::fault_line;
use ls_files::{asking, file_names_in};
use ls_items::text_of;
use ls_outlets::{Outlet, write_out};
use std::alloc::{AllocError, Global};
use std::io::{Read, Write};
use std::sync::Wait;
use std::thread::Threads;

/// How a run ended.
#[derive(Copy)]
pub struct Exit {
    /// The exit status.
    pub status: u8,
    /// Whether all was told: the line of a fault, what stands beside a text, or what is wrong with the words, is
    /// written, or there was nothing to tell. What is told isn't whole only if the writer has failed.
    pub is_told: bool,
}

impl Clone for Exit {
    fn clone(&self) -> Result<Exit, AllocError> {
        Ok(*self)
    }
}

/// Writes what is told of a fault. If the writer fails, the status alone tells of the fault.
fn tell<E: Outlet>(err: &mut E, told: &[u8]) -> Exit
    ensures status { result.status ≡ 1 }
    ensures told { IsWritten told.now result.is_told (E.contents err.old) (E.contents err.new) (E.has_failed err.new) }
    ensures kept { E.has_failed err.old ≡ true → E.has_failed err.new ≡ true }
{
    let is_told = write_out(err, told);
    Exit { status: 1, is_told }
}

/// Writes what is told beside a text. Where that is nothing, the writer isn't touched.
fn tell_beside<E: Outlet>(err: &mut E, beside: &[u8]) -> bool
    ensures told { IsWritten beside.now result (E.contents err.old) (E.contents err.new) (E.has_failed err.new) }
    ensures kept { E.has_failed err.old ≡ true → E.has_failed err.new ≡ true }
{
    if beside.is_empty() {
        return true;
    }
    write_out(err, beside)
}

/// Writes the fault's line.
fn tell_line<E: Outlet>(err: &mut E, fault: ToolFault) -> Exit
    ensures status { result.status ≡ 1 }
    ensures told { IsWritten (fault_line fault) result.is_told (E.contents err.old) (E.contents err.new)
        (E.has_failed err.new) }
    ensures kept { E.has_failed err.old ≡ true → E.has_failed err.new ≡ true }
{
    let line = fault_line(fault);
    tell(err, line.as_bytes())
}

/// What a command line asks for of an input, with lines of progress where it asks for these.
fn answer_telling<H: Threads + Wait + Sync, E: Outlet>(
    rt: &H,
    alloc: Global,
    line: CommandLine,
    names: Option<&[String]>,
    input: &[u8],
    err: &mut E,
) -> Result<Said, Refusal>
    ensures decides { (words : List Text) → Asks words (Some line) → file_names_in words ≡ names_of names.entry →
        Decides words input.now result }
    ensures taken { IsTaken result }
    ensures progress { Progresses line.request (E.contents err.old) (E.contents err.new) (E.has_failed err.new) }
{
    match progress_of(line.request) {
        Telling::Nothing => answer_line(rt, alloc, line, names, input, &mut Nobody),
        Telling::States => {
            let mut progress = Progress::new(err);
            answer_line(rt, alloc, line, names, input, &mut progress)
        }
        Telling::Programs => {
            let mut programs = Programs::new(err);
            answer_line(rt, alloc, line, names, input, &mut programs)
        }
    }
}

/// Words, and what they ask for.
#[derive(Copy)]
struct Asked<'a> {
    words: &'a [String],
    line: CommandLine,
}

impl Clone for Asked<'_> {
    fn clone(&self) -> Result<Self, AllocError> {
        Ok(*self)
    }
}

/// An input, and what stands behind the text that is printed of it.
#[derive(Clone, Copy)]
struct Reading<'a> {
    input: &'a [u8],
    behind: &'a str,
}

/// What is said, with what stands behind its text.
fn with_behind(said: Said, behind: &str) -> Result<Said, AllocError>
    ensures { IfOk result (λ whole. (string_bytes whole.text ≡ string_bytes said.text ++ behind.entry.now) ×
        (whole.beside ≡ said.beside) × (whole.status ≡ said.status)) }
{
    let Said {
        mut text,
        beside,
        status,
    } = said;
    text.push_str(behind)?;
    Ok(Said {
        text,
        beside,
        status,
    })
}

/// Does what a command line asks for of an input, and writes.
fn run_input<H: Threads + Wait + Sync, W: Outlet, E: Outlet>(
    rt: &H,
    alloc: Global,
    asked: Asked<'_>,
    reading: Reading<'_>,
    out: &mut W,
    err: &mut E,
) -> Exit
    requires { Asks (map string_bytes asked.words.now) (Some asked.line) }
    ensures ends { Ends (map string_bytes asked.entry.words.now) reading.entry.input.now reading.entry.behind.now result
        (left (W.contents out.old) (W.contents out.new) (W.has_failed out.new))
        (left (E.contents err.old) (E.contents err.new) (E.has_failed err.new)) }
    ensures apart { result.status ≢ 2 }
{
    match answer_telling(
        rt,
        alloc,
        asked.line,
        file_names_in(asked.words),
        reading.input,
        err,
    ) {
        Ok(said) => {
            let Ok(whole) = with_behind(said, reading.behind) else {
                return tell_line(err, ToolFault::Memory);
            };
            if !write_out(out, whole.text.as_bytes()) {
                return tell_line(err, ToolFault::WriteFailed);
            }
            let is_told = tell_beside(err, whole.beside.as_bytes());
            Exit {
                status: whole.status,
                is_told,
            }
        }
        Err(Refusal::Fault(fault)) => tell_line(err, fault),
        Err(Refusal::Explained(told)) => tell(err, told.as_slice()),
        Err(Refusal::BadLine(_)) => Exit {
            status: 1,
            is_told: false,
        },
    }
}

/// The same of a text whose first part is a Java file: first it tells how that is restated.
fn run_java<H: Threads + Wait + Sync, W: Outlet, E: Outlet>(
    rt: &H,
    alloc: Global,
    asked: Asked<'_>,
    text: &str,
    out: &mut W,
    err: &mut E,
) -> Exit
    requires asks { Asks (map string_bytes asked.words.now) (Some asked.line) }
    requires java { asked.line.java ≡ true }
    requires text { is_text text.now ≡ true }
    ensures runs { Runs (map string_bytes asked.entry.words.now) text.now result
        (left (W.contents out.old) (W.contents out.new) (W.has_failed out.new))
        (left (E.contents err.old) (E.contents err.new) (E.has_failed err.new)) }
    ensures apart { result.status ≢ 2 }
{
    match with_class_text(alloc, file_names_in(asked.words), asked.line.request, text) {
        Ok(instead) => {
            if !tell_beside(err, instead.notes.as_bytes()) {
                return Exit {
                    status: 1,
                    is_told: false,
                };
            }
            let reading = Reading {
                input: instead.input.as_slice(),
                behind: instead.behind.as_str(),
            };
            run_input(rt, alloc, asked, reading, out, err)
        }
        Err(NoClassText::Memory) => tell_line(err, ToolFault::Memory),
        Err(NoClassText::Told(told)) => tell(err, told.as_slice()),
    }
}

/// The same of an input, whose first part may be a Java file.
fn run_read<H: Threads + Wait + Sync, W: Outlet, E: Outlet>(
    rt: &H,
    alloc: Global,
    asked: Asked<'_>,
    input: &[u8],
    out: &mut W,
    err: &mut E,
) -> Exit
    requires { Asks (map string_bytes asked.words.now) (Some asked.line) }
    ensures runs { Runs (map string_bytes asked.entry.words.now) input.now result
        (left (W.contents out.old) (W.contents out.new) (W.has_failed out.new))
        (left (E.contents err.old) (E.contents err.new) (E.has_failed err.new)) }
    ensures apart { result.status ≢ 2 }
{
    let plain = Reading { input, behind: "" };
    if !asked.line.java {
        return run_input(rt, alloc, asked, plain, out, err);
    }
    match text_of(input) {
        Some(text) => run_java(rt, alloc, asked, text, out, err),
        None => run_input(rt, alloc, asked, plain, out, err),
    }
}

/// Does what the words ask for: reads the input, answers it as `answer` does, and writes. Answers the exit status; with
/// status 2 nothing is read. If it isn't known what the reader has left, as it isn't of standard input, the run ends as
/// for some input. All is written that is to be, unless the writer has failed. The words after `--names` name the files
/// that the input holds; a fault is told with its place in them. With `--java` the first part is a Java file: first it
/// is told how that is restated, and then the input is answered in which its class text stands in its place. Threads
/// are started by `live`, `batch`, `find` and `replay --live` alone. `explore --progress` and `find --progress` alone
/// tell of their progress.
pub fn run<'a, H: Threads + Wait + Sync, R: Read, W: Outlet, E: Outlet>(
    rt: &H,
    alloc: Global,
    words: &'a [String],
    reader: &mut R,
    out: &mut W,
    err: &mut E,
) -> Exit
    ensures runs { OfInput (R.remaining reader.old) (λ input. Runs (map string_bytes words.entry.now) input result
        (left (W.contents out.old) (W.contents out.new) (W.has_failed out.new))
        (left (E.contents err.old) (E.contents err.new) (E.has_failed err.new))) }
    ensures unread { result.status ≡ 2 → reader.new ≡ reader.old }
{
    match read_words(alloc, asking(words)) {
        Ok(line) => match read_whole(alloc, reader) {
            Ok(input) => {
                let asked = Asked { words, line };
                run_read(rt, alloc, asked, input.as_slice(), out, err)
            }
            Err(fault) => tell_line(err, fault),
        },
        Err(WordsFault::Memory) => tell_line(err, ToolFault::Memory),
        Err(WordsFault::BadLine(error)) => Exit {
            status: 2,
            is_told: write!(err, "{error}").is_ok(),
        },
    }
}
