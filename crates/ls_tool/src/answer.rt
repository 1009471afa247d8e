// What the words and the input ask for.

ghost use Rattle.std.specs.Prelude.{◌≡◌, ◌≢◌, List, Some, map, string_bytes};
ghost use Rattle.ls_command_line.specs.declared.words.Request.TheVariants as requests;
ghost use Rattle.ls_explore.specs.Watching.{GoesOn};
ghost use Rattle.ls_faults.specs.Given.{GivesText};
ghost use Rattle.ls_files.specs.Names.{file_names_in};
ghost use Rattle.ls_items.specs.Cutting.{plain_text};
ghost use Rattle.ls_report.specs.Events.{Text};
ghost use Rattle.ls_tool.specs.Output.{Answers, AnswersBy, AnswersByReference, AnswersInput, AnswersText, Asks};
ghost use Rattle.ls_tool.specs.Output.{Decides, IsTaken, names_of, read_as};

use crate::asked::{on_find, on_find_like};
use crate::commands::{
    drawing_of, exploring_of, on_aim, on_check, on_compile, on_live, on_live_replay, on_order,
    on_replay, on_samples, on_schedules, on_translate, on_view,
};
use crate::explained::refusal_of;
use crate::java::on_java;
use crate::noted::said_of;
use crate::pages::{on_page, on_page_like};
use crate::referred::{on_batch_like, on_explore_like, on_order_like, on_verdict_like};
use crate::refusal::Refusal;
use crate::said::Said;
use crate::views::{state_view, states_view, trace_view};
use ls_command_line::{CommandLine, Request, read_words};
use ls_commands::{Sampling, View, merge};
use ls_explore::{Nobody, Watch};
use ls_faults::fault::ToolFault;
use ls_files::{asking, file_names_in, unmarked};
use ls_items::{parts_of, text_of};
use std::alloc::Global;
use std::sync::Wait;
use std::thread::Threads;

/// What the command answers on its parts.
fn decide<R: Threads + Wait + Sync, W: Watch>(
    rt: &R,
    alloc: Global,
    request: Request,
    parts: &[&str],
    watch: &mut W,
) -> Result<String, ToolFault>
    ensures gives { GivesText (Answers request (map plain_text parts.now)) result }
    ensures watched { GoesOn W.Since watch.old watch.new }
{
    match request {
        Request::Check => on_check(alloc, parts),
        Request::Order => on_order(alloc, parts),
        Request::Compile => on_compile(alloc, parts),
        Request::Replay { cells, live: false } => on_replay(alloc, cells as usize, parts),
        Request::Replay { cells, live: true } => on_live_replay(rt, alloc, cells as usize, parts),
        Request::Source => on_view(alloc, View::History, parts),
        Request::Trace { from, to, fold } => on_view(alloc, trace_view(fold, from, to), parts),
        Request::State { dot, to } => on_view(alloc, state_view(dot, to), parts),
        Request::States { dot, from, to } => on_view(alloc, states_view(dot, from, to), parts),
        Request::Page(paging) => on_page(alloc, paging, parts),
        Request::Aim => on_aim(alloc, parts),
        Request::Translate { to, cells } => on_translate(alloc, to, cells as usize, parts),
        Request::Live { cells, limit } => on_live(rt, alloc, cells as usize, limit as usize, parts),
        Request::Batch { .. } | Request::Sample { .. } => on_samples(rt, alloc, request, parts),
        Request::Explore { .. }
        | Request::Verdict { .. }
        | Request::Races { .. }
        | Request::Ends { .. } => on_schedules(alloc, request, parts, watch),
        Request::Find(seeking) => on_find(rt, alloc, seeking, parts, watch),
        Request::Merge { .. } | Request::Java => Err(ToolFault::WrongParts),
    }
}

/// The same by a reference, which is the last part. A command that takes none answers as ever.
fn decide_like<R: Threads + Wait + Sync, W: Watch>(
    rt: &R,
    alloc: Global,
    request: Request,
    parts: &[&str],
    watch: &mut W,
) -> Result<String, ToolFault>
    ensures gives { GivesText (AnswersByReference request (map plain_text parts.now)) result }
    ensures watched { GoesOn W.Since watch.old watch.new }
{
    match request {
        Request::Find(seeking) => on_find_like(rt, alloc, seeking, parts, watch),
        Request::Page(paging) => on_page_like(alloc, paging, parts),
        Request::Order => on_order_like(alloc, parts),
        Request::Explore {
            cells,
            states,
            illegal,
            first,
            order,
            progress: _,
        } => {
            let exploring = exploring_of(cells, states, illegal, first, order);
            on_explore_like(alloc, exploring, parts, watch)
        }
        Request::Verdict { states, mixed } => on_verdict_like(alloc, states as usize, mixed, parts),
        Request::Races { .. } => Err(ToolFault::BadOptions),
        Request::Ends { .. } => Err(ToolFault::BadOptions),
        Request::Batch {
            seed,
            count,
            steps,
            switch,
            cells,
            judge,
        } => {
            let sampling = Sampling {
                first: seed,
                count: count as usize,
                drawing: drawing_of(steps, switch),
            };
            on_batch_like(rt, alloc, sampling, judge, cells as usize, parts)
        }
        _ => decide(rt, alloc, request, parts, watch),
    }
}

/// The same with a reference or without.
fn decide_by<R: Threads + Wait + Sync, W: Watch>(
    rt: &R,
    alloc: Global,
    spec: bool,
    request: Request,
    parts: &[&str],
    watch: &mut W,
) -> Result<String, ToolFault>
    ensures gives { GivesText (AnswersBy spec request (map plain_text parts.now)) result }
    ensures watched { GoesOn W.Since watch.old watch.new }
{
    if spec {
        return decide_like(rt, alloc, request, parts, watch);
    }
    decide(rt, alloc, request, parts, watch)
}

/// What the command answers on a text, which is cut into parts unless it is one of tallies.
fn answer_text<R: Threads + Wait + Sync, W: Watch>(
    rt: &R,
    alloc: Global,
    spec: bool,
    request: Request,
    text: &str,
    watch: &mut W,
) -> Result<String, ToolFault>
    requires { request ≢ requests.Java }
    ensures gives { GivesText (AnswersInput spec request text.now) result }
    ensures watched { GoesOn W.Since watch.old watch.new }
{
    if let Request::Merge { count } = request {
        return merge(alloc, count, text);
    }
    let parts = parts_of(alloc, text)?;
    decide_by(rt, alloc, spec, request, parts.as_slice(), watch)
}

/// The same on a text whose files are named or not.
fn answer_files<R: Threads + Wait + Sync, W: Watch>(
    rt: &R,
    alloc: Global,
    line: CommandLine,
    names: Option<&[String]>,
    text: &str,
    watch: &mut W,
) -> Result<String, ToolFault>
    requires { line.request ≢ requests.Java }
    ensures gives { GivesText (AnswersInput line.spec line.request (read_as (names_of names.entry) text.now)) result }
    ensures watched { GoesOn W.Since watch.old watch.new }
{
    let CommandLine { request, spec, .. } = line;
    match names {
        Some(_) => {
            let joined = unmarked(alloc, text)?;
            answer_text(rt, alloc, spec, request, joined.as_str(), watch)
        }
        None => answer_text(rt, alloc, spec, request, text, watch),
    }
}

fn answer_of<R: Threads + Wait + Sync, W: Watch>(
    rt: &R,
    alloc: Global,
    line: CommandLine,
    names: Option<&[String]>,
    input: &[u8],
    watch: &mut W,
) -> Result<String, ToolFault>
    requires { line.request ≢ requests.Java }
    ensures gives { GivesText (AnswersText (names_of names.entry) line input.now) result }
    ensures watched { GoesOn W.Since watch.old watch.new }
{
    let Some(text) = text_of(input) else {
        return Err(ToolFault::NotText);
    };
    answer_files(rt, alloc, line, names, text, watch)
}

/// What a command line asks for of an input that isn't a Java file, or why there is no output.
fn answer_other<R: Threads + Wait + Sync, W: Watch>(
    rt: &R,
    alloc: Global,
    line: CommandLine,
    names: Option<&[String]>,
    input: &[u8],
    watch: &mut W,
) -> Result<Said, Refusal>
    requires { line.request ≢ requests.Java }
    ensures decides { (words : List Text) → Asks words (Some line) → file_names_in words ≡ names_of names.entry →
        Decides words input.now result }
    ensures taken { IsTaken result }
    ensures watched { GoesOn W.Since watch.old watch.new }
{
    match answer_of(rt, alloc, line, names, input, watch) {
        Ok(text) => said_of(alloc, line, names, text, input),
        Err(fault) => Err(refusal_of(alloc, line, names, fault, input)),
    }
}

/// What a command line asks for of an input, or why there is no output.
pub(crate) fn answer_line<R: Threads + Wait + Sync, W: Watch>(
    rt: &R,
    alloc: Global,
    line: CommandLine,
    names: Option<&[String]>,
    input: &[u8],
    watch: &mut W,
) -> Result<Said, Refusal>
    ensures decides { (words : List Text) → Asks words (Some line) → file_names_in words ≡ names_of names.entry →
        Decides words input.now result }
    ensures taken { IsTaken result }
    ensures watched { GoesOn W.Since watch.old watch.new }
{
    match line.request {
        Request::Java => on_java(alloc, line, names, input),
        _ => answer_other(rt, alloc, line, names, input, watch),
    }
}

/// The whole output for the words of a command line and the bytes of an input, with its status, or why there is none.
/// The first word is the program's own name. It is the program without its streams, and without `--java`.
pub fn answer<'a, R: Threads + Wait + Sync>(
    rt: &R,
    alloc: Global,
    words: &'a [String],
    input: &[u8],
) -> Result<Said, Refusal>
    ensures { Decides (map string_bytes words.entry.now) input.now result }
{
    let line = read_words(alloc, asking(words))?;
    answer_line(rt, alloc, line, file_names_in(words), input, &mut Nobody)
}
