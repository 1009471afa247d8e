// What `find` answers on the parts of an input.

ghost use Rattle.std.specs.Prelude.{◌≡◌, map, option_map};
ghost use Rattle.ls_explore.specs.Watching.{GoesOn};
ghost use Rattle.ls_faults.specs.Given.{GivesText};
ghost use Rattle.ls_items.specs.Cutting.{plain_text};
ghost use Rattle.ls_tool.specs.Asked.{FindsFirst, OnClass, OnClassLike, choosing_of, is_mixed, range_of};
ghost use Rattle.ls_tool.specs.Output.{FindsByReference, OnFind};

use ls_command_line::Seeking;
use ls_explore::Watch;
use ls_faults::fault::ToolFault;
use ls_find_commands::{Bounds, Choosing, Integers, Range, Sought, Texts, find, print_program};
use std::alloc::Global;
use std::thread::Threads;

/// Whether data races are looked for, and an option is given for what is looked for else.
fn is_mixed(seeking: Seeking) -> bool
    ensures { result ≡ is_mixed seeking }
{
    seeking.races && (seeking.set || seeking.strict || !(seeking.waiting && seeking.turning))
}

/// The first program that is bad. Data races are looked for alone: else the options are refused with 71.
fn find_first<R: Threads + Sync, W: Watch>(
    rt: &R,
    alloc: Global,
    seeking: Seeking,
    texts: Texts<'_>,
    watch: &mut W,
) -> Result<String, ToolFault>
    ensures gives { GivesText (FindsFirst seeking (option_map plain_text texts.entry.reference)
        texts.entry.classes.now (option_map plain_text texts.entry.menu)) result }
    ensures watched { GoesOn W.Since watch.old watch.new }
{
    if is_mixed(seeking) {
        return Err(ToolFault::BadOptions);
    }
    let choosing = choosing_of(seeking);
    find(rt, alloc, choosing, range_of(seeking), texts, watch)
}

/// What `find` answers on a class text, and on a reference and a menu that is written by hand if they are given.
fn on_class<R: Threads + Sync, W: Watch>(
    rt: &R,
    alloc: Global,
    seeking: Seeking,
    texts: Texts<'_>,
    watch: &mut W,
) -> Result<String, ToolFault>
    ensures gives { GivesText (OnClass seeking (option_map plain_text texts.entry.reference)
        texts.entry.classes.now (option_map plain_text texts.entry.menu)) result }
    ensures watched { GoesOn W.Since watch.old watch.new }
{
    if let Some(number) = seeking.print {
        return print_program(alloc, choosing_of(seeking), number, texts);
    }
    find_first(rt, alloc, seeking, texts, watch)
}

/// Which class of the text is chosen, and what its programs may be.
fn choosing_of(seeking: Seeking) -> Choosing
    ensures { result ≡ choosing_of seeking }
{
    Choosing {
        class: seeking.class,
        values: seeking.values,
        given: Integers {
            first: seeking.first_given,
            last: seeking.last_given,
        },
        bounds: Bounds {
            threads: seeking.threads,
            calls: seeking.calls,
            setup: seeking.setup,
        },
    }
}

/// The numbers of the programs that are looked through.
fn range_of(seeking: Seeking) -> Range
    ensures { result ≡ range_of seeking }
{
    Range {
        states: seeking.states as usize,
        sought: Sought {
            waiting: seeking.waiting,
            turning: seeking.turning,
            set: seeking.set,
        },
        strict: seeking.strict,
        races: seeking.races,
        from: seeking.from,
        to: seeking.to,
    }
}

/// A class text, and a menu that is written by hand if one is given.
pub(crate) fn on_find<R: Threads + Sync, W: Watch>(
    rt: &R,
    alloc: Global,
    seeking: Seeking,
    parts: &[&str],
    watch: &mut W,
) -> Result<String, ToolFault>
    ensures gives { GivesText (OnFind seeking (map plain_text parts.now)) result }
    ensures watched { GoesOn W.Since watch.old watch.new }
{
    match parts {
        [classes] => {
            let texts = Texts {
                classes,
                menu: None,
                reference: None,
            };
            on_class(rt, alloc, seeking, texts, watch)
        }
        [classes, menu] => {
            let texts = Texts {
                classes,
                menu: Some(menu),
                reference: None,
            };
            on_class(rt, alloc, seeking, texts, watch)
        }
        _ => Err(ToolFault::WrongParts),
    }
}

/// The same by a reference, which histories of a set don't go with.
fn on_class_like<R: Threads + Sync, W: Watch>(
    rt: &R,
    alloc: Global,
    seeking: Seeking,
    texts: Texts<'_>,
    watch: &mut W,
) -> Result<String, ToolFault>
    ensures gives { GivesText (OnClassLike seeking (option_map plain_text texts.entry.reference)
        texts.entry.classes.now (option_map plain_text texts.entry.menu)) result }
    ensures watched { GoesOn W.Since watch.old watch.new }
{
    if seeking.set {
        return Err(ToolFault::BadOptions);
    }
    on_class(rt, alloc, seeking, texts, watch)
}

/// A class text, a menu that is written by hand if one is given, and a reference.
pub(crate) fn on_find_like<R: Threads + Sync, W: Watch>(
    rt: &R,
    alloc: Global,
    seeking: Seeking,
    parts: &[&str],
    watch: &mut W,
) -> Result<String, ToolFault>
    ensures gives { GivesText (FindsByReference seeking (map plain_text parts.now)) result }
    ensures watched { GoesOn W.Since watch.old watch.new }
{
    match parts {
        [classes, reference] => {
            let texts = Texts {
                classes,
                menu: None,
                reference: Some(reference),
            };
            on_class_like(rt, alloc, seeking, texts, watch)
        }
        [classes, menu, reference] => {
            let texts = Texts {
                classes,
                menu: Some(menu),
                reference: Some(reference),
            };
            on_class_like(rt, alloc, seeking, texts, watch)
        }
        _ => Err(ToolFault::WrongParts),
    }
}
