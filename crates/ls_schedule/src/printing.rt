// From a schedule to its text.

ghost use Rattle.ls_schedule.specs.Printing.{item_text, name_of, schedule_text, times};
ghost use Rattle.ls_schedule.specs.Reading.{thread_name, thread_names};
ghost use Rattle.std.specs.List.{prefix_len};
ghost use Rattle.std.specs.Prelude.{
  ◌≡◌,
  ◌==◌,
  ◌++◌,
  ◌∷◌,
  [],
  ◌≤◌,
  IfOk,
  OnOk,
  length,
  map,
  string_bytes,
};

use ls_checked::program::{Program, ThreadProgram};
use ls_events::schedule::Schedule;
use std::alloc::{AllocError, Global};
use std::fmt::Write;

// How many steps of the thread stand first.
fn run_len(thread: u8, steps: &[u8]) -> usize
    ensures len { result ≡ prefix_len (λ t. t == thread) steps.now }
    ensures within { result ≤ length steps.now }
{
    let mut len = 0;
    for step in steps {
        if *step != thread {
            return len;
        }
        len += 1;
    }
    len
}

fn name_at(threads: &[ThreadProgram], thread: u8) -> &str
    ensures { result.now ≡ name_of (map thread_name threads.now) thread }
{
    match threads.get(usize::from(thread)) {
        Some(found) => found.name.as_str(),
        None => "",
    }
}

fn push_times(out: &mut String, count: usize) -> Result<(), AllocError>
    ensures { OnOk result (string_bytes out.new ≡ string_bytes out.old ++ times count) }
{
    if count != 1 {
        write!(out, "*{count}")?;
    }
    Ok(())
}

fn push_item(
    out: &mut String,
    threads: &[ThreadProgram],
    thread: u8,
    count: usize,
) -> Result<(), AllocError>
    ensures { OnOk result (string_bytes out.new ≡ string_bytes out.old ++
        item_text (map thread_name threads.now) (thread, count)) }
{
    out.push_str(name_at(threads, thread))?;
    push_times(out, count)
}

fn push_gap(out: &mut String) -> Result<(), AllocError>
    ensures { OnOk result (string_bytes out.new ≡ string_bytes out.old ++ 32 ∷ []) }
{
    out.push_str(" ")?;
    Ok(())
}

/// The text of a schedule of a program, of version 2 without groups: `@2`, and neighbouring steps of one thread as one
/// item, `name` or `name*count`, with a space before each and a line feed at the end. A thread that isn't there has no
/// name.
pub fn print_schedule(
    alloc: Global,
    schedule: &Schedule,
    program: &Program,
) -> Result<String, AllocError>
    ensures { IfOk result (λ text. string_bytes text ≡ schedule_text (thread_names program.now) schedule.now) }
{
    let threads = program.threads.as_slice();
    let mut out = String::new(alloc);
    out.push_str("@2")?;
    let mut rest = schedule.steps();
    'items: while !rest.is_empty() {
        let thread = rest[0];
        let len = run_len(thread, rest);
        push_gap(&mut out)?;
        push_item(&mut out, threads, thread, len)?;
        rest = rest.split_at(len).1;
    }
    out.push_str("\n")?;
    Ok(out)
}
