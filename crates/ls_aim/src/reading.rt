// What an item with a target says.

ghost use Rattle.std.specs.Prelude.{◌≡◌, ◌+◌, ◌<◌, ◌≤◌, ◌-◌, IfSome, length, map, option_map, take};
ghost use Rattle.std.specs.Prelude.{Some};
ghost use Rattle.std.specs.List.{position};
ghost use Rattle.ls_schedule.specs.Answers.{Says};
ghost use Rattle.ls_schedule.specs.Reading.{count_of, thread_name};
ghost use Rattle.ls_aim.specs.Reading.{bare, before, before_counted, before_said, closed_at, is_colon, is_mark};
ghost use Rattle.ls_aim.specs.Reading.{is_quote, mark_of, named, rest_said, stop_of, stop_said, target_of};
ghost use Rattle.ls_aim.specs.Reading.{target_said, text_said};

use crate::texts::opens_group;
use ls_checked::program::ThreadProgram;
use ls_lexer::names::is_name_bytes;
use ls_schedule::count;
use ls_schedule::fault::ScheduleFault;
use ls_schedule::reading::thread_named;

/// Where a thread is to stop: at its end or where it waits, or before a step whose label has a text, of which it passes
/// so many.
#[derive(Clone, Copy)]
pub enum Stop<'t> {
    Rest,
    Before { passing: u64, text: &'t [u8] },
}

/// A thread, and where it is to stop.
#[derive(Clone, Copy)]
pub struct Target<'t> {
    pub thread: u8,
    pub stop: Stop<'t>,
}

fn is_mark(b: u8) -> bool
    ensures { result ≡ is_mark b }
{
    b == b'!' || b == b':'
}

fn mark_at(item: &[u8]) -> Option<usize>
    ensures place { result ≡ position is_mark item.now }
    ensures within { IfSome result (λ m. m < length item.now) }
{
    item.iter().position(|b| is_mark(*b))
}

/// Where the thread's name ends in an item of a target.
pub fn mark_of(item: &[u8]) -> Option<usize>
    ensures mark { result ≡ mark_of item.now }
    ensures within { IfSome result (λ m. m < length item.now) }
{
    if opens_group(item) {
        None
    } else {
        mark_at(item)
    }
}

fn quote_at(text: &[u8]) -> Option<usize>
    ensures place { result ≡ position is_quote text.now }
    ensures within { IfSome result (λ i. i < length text.now) }
{
    text.iter().position(|b| *b == b'"')
}

fn colon_at(text: &[u8]) -> Option<usize>
    ensures place { result ≡ position is_colon text.now }
    ensures within { IfSome result (λ i. i < length text.now) }
{
    text.iter().position(|b| *b == b':')
}

// What stands before a quote that ends the text.
fn closed(text: &[u8]) -> Option<&[u8]>
    ensures { option_map (λ t. t.now) result ≡ closed_at text.now (position is_quote text.now) }
{
    match quote_at(text) {
        None => None,
        Some(i) => {
            if i + 1 == text.len() && !(i == 0) {
                Some(text.split_at(i).0)
            } else {
                None
            }
        }
    }
}

// A text that has no quotes.
fn bare(text: &[u8]) -> Option<&[u8]>
    ensures { option_map (λ t. t.now) result ≡ bare text.now (position is_quote text.now) }
{
    match quote_at(text) {
        None => Some(text),
        Some(_) => None,
    }
}

// A text of one byte or more, in double quotes or without any.
fn text_said(said: &[u8]) -> Option<&[u8]>
    ensures { option_map (λ t. t.now) result ≡ text_said said.now }
{
    match said {
        [] => None,
        [first, inner @ ..] => {
            if *first == b'"' {
                closed(inner)
            } else {
                bare(said)
            }
        }
    }
}

fn before(passing: u64, said: &[u8]) -> Option<Stop<'_>>
    ensures { option_map stop_of result ≡ before passing said.now }
{
    match text_said(said) {
        None => None,
        Some(text) => Some(Stop::Before { passing, text }),
    }
}

fn before_counted(said: &[u8], colon: usize) -> Option<Stop<'_>>
    requires { colon < length said.now }
    ensures { option_map stop_of result ≡ before_counted said.now colon (count_of (take colon said.now)) }
{
    let (front, _) = said.split_at(colon);
    match count(front) {
        None => before(0, said),
        Some(n) => before(n.saturating_sub(1), said.split_at(colon + 1).1),
    }
}

fn before_said(said: &[u8]) -> Option<Stop<'_>>
    ensures { option_map stop_of result ≡ before_said said.now (position is_colon said.now) }
{
    match colon_at(said) {
        None => before(0, said),
        Some(colon) => before_counted(said, colon),
    }
}

fn rest_said(said: &[u8]) -> Option<Stop<'_>>
    ensures { option_map stop_of result ≡ rest_said said.now }
{
    match said {
        [] => Some(Stop::Rest),
        [_, ..] => None,
    }
}

// `!`, or `:` with what is to be in the step's label.
fn stop_said(said: &[u8]) -> Option<Stop<'_>>
    ensures { option_map stop_of result ≡ stop_said said.now }
{
    match said {
        [] => None,
        [first, after @ ..] => {
            if *first == b'!' {
                rest_said(after)
            } else {
                before_said(after)
            }
        }
    }
}

fn named<'t>(
    at: usize,
    name: &[u8],
    stop: Option<Stop<'t>>,
    threads: &[ThreadProgram],
) -> Result<Target<'t>, ScheduleFault>
    requires { length threads.now ≤ 65 }
    ensures { Says target_of result (named (map thread_name threads.now) at name.now (option_map stop_of stop.entry)) }
{
    let Some(stop) = stop else {
        return Err(ScheduleFault::BadItem { at });
    };
    if !is_name_bytes(name) {
        return Err(ScheduleFault::BadItem { at });
    }
    match thread_named(threads, name) {
        Some(thread) => Ok(Target {
            thread: thread as u8,
            stop,
        }),
        None => Err(ScheduleFault::UnknownThread { at }),
    }
}

/// The target that an item says which begins at a place, and in which the thread's name ends at a mark.
pub fn read_target<'t>(
    at: usize,
    item: &'t [u8],
    mark: usize,
    threads: &[ThreadProgram],
) -> Result<Target<'t>, ScheduleFault>
    requires mark { mark ≤ length item.now }
    requires few { length threads.now ≤ 65 }
    ensures { Says target_of result (target_said (map thread_name threads.now) at item.now mark) }
{
    let (name, said) = item.split_at(mark);
    named(at, name, stop_said(said), threads)
}
