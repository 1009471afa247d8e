// From a text to its schedule.

ghost use Rattle.ls_events.specs.Limits.{most_steps};
ghost use Rattle.ls_lexer.specs.Characters.{is_digit};
ghost use Rattle.ls_schedule.specs.Answers.{Gives, Says, capped_schedule, capped_turns, more_steps, so_far};
ghost use Rattle.ls_schedule.specs.Answers.{threads_of, view};
ghost use Rattle.ls_items.specs.Items.{items};
ghost use Rattle.ls_schedule.specs.Reading.{
  count_of,
  each,
  is_count,
  repeated,
  schedule_of,
  steps_of,
  thread_name,
  thread_names,
  threads_named,
  within,
};
ghost use Rattle.ls_schedule.specs.declared.fault.ScheduleFault.TheVariants.{Memory, TooManySteps};
ghost use Rattle.std.specs.List.{list_all, position, range_with_len};
ghost use Rattle.std.specs.Prelude.{
  ◌≡◌,
  ◌<◌,
  ◌≤◌,
  ◌==◌,
  ◌-◌,
  ◌++◌,
  ◌∷◌,
  [],
  ◌⊎◌,
  ℕ,
  IfErr,
  IfOk,
  IfSome,
  IsErrOf,
  OnOk,
  Some,
  length,
  map,
  min,
  option_map,
  true,
  unwrap_or,
};
ghost use Rattle.std.specs.Str.Parse.{digits_value};
ghost use Rattle.std.specs.Str.{bytes_eq};

use crate::fault::ScheduleFault;
use crate::groups::read_groups;
use crate::pieces::after_version;
use crate::table::{goes_on_once, short_item, table_of};
use ls_checked::program::{Program, ThreadProgram};
use ls_events::schedule::{MOST_STEPS, Schedule};
use ls_items::item_len;
use ls_lexer::characters::is_digit;
use ls_lexer::names::is_name_bytes;
use std::alloc::{AllocError, Global};

const MOST_COUNT: u64 = 1_000_001;

// Which threads an item names.
#[derive(Copy)]
pub enum Who {
    One(u8),
    All,
}

impl Clone for Who {
    fn clone(&self) -> Result<Who, AllocError> {
        Ok(*self)
    }
}

// An item: these threads, so many times. A count above a schedule's greatest length is kept as 1,000,001.
#[derive(Copy)]
pub struct Said {
    pub who: Who,
    pub count: u64,
}

impl Clone for Said {
    fn clone(&self) -> Result<Said, AllocError> {
        Ok(*self)
    }
}

fn has_digits(text: &[u8]) -> bool
    ensures { result ≡ list_all is_digit text.now }
{
    text.iter().all(|b| is_digit(*b))
}

fn is_count(text: &[u8]) -> bool
    ensures { result ≡ is_count text.now }
{
    match text {
        [] => false,
        [first, ..] => *first != b'0' && has_digits(text),
    }
}

// The number that the digits write, or 1,000,001 if it is larger.
fn value(digits: &[u8]) -> u64
    requires { list_all is_digit digits.now ≡ true }
    ensures { result ≡ min (digits_value 10 digits.now) 1000001 }
{
    let mut number: u64 = 0;
    for digit in digits {
        let next = number * 10 + u64::from(*digit - b'0');
        number = next.min(MOST_COUNT);
    }
    number
}

/// The number of times, if the text has the form of a count. A number above 1,000,000 is taken for 1,000,001.
pub fn count(text: &[u8]) -> Option<u64>
    ensures { result ≡ option_map (λ n. min n 1000001) (count_of text.now) }
{
    if is_count(text) {
        Some(value(text))
    } else {
        None
    }
}

fn thread_at(threads: &[ThreadProgram], name: &[u8]) -> Option<usize>
    ensures place { result ≡ position (λ t. bytes_eq (thread_name t) name.now) threads.now }
    ensures within { IfSome result (λ i. i < length threads.now) }
{
    threads.iter().position(|t| t.name.as_bytes() == name)
}

// The thread of that name.
#[tactic(auto, using(crate::proofs::Named::position_map))]
pub fn thread_named(threads: &[ThreadProgram], name: &[u8]) -> Option<usize>
    ensures place { result ≡ position (λ n. bytes_eq n name.now) (map thread_name threads.now) }
    ensures within { IfSome result (λ i. i < length threads.now) }
{
    thread_at(threads, name)
}

// Which threads the name stands for.
fn threads_behind(threads: &[ThreadProgram], name: &[u8]) -> Option<Who>
    requires { length threads.now ≤ 65 }
    ensures { option_map (threads_of (length threads.now)) result ≡
        threads_named (map thread_name threads.now) name.now }
{
    if name == b"all".as_slice() {
        return Some(Who::All);
    }
    match thread_named(threads, name) {
        Some(thread) => Some(Who::One(thread as u8)),
        None => None,
    }
}

// An item: a name, and where a star follows it a count.
pub fn read_item(at: usize, item: &[u8], threads: &[ThreadProgram]) -> Result<Said, ScheduleFault>
    requires { length threads.now ≤ 65 }
    ensures { Says (view (length threads.now)) result (capped_turns (map thread_name threads.now) (at, item.now)) }
{
    let (name, count) = match star_at(item) {
        Some(i) => (&item[..i], count(&item[i + 1..])),
        None => (item, Some(1)),
    };
    let Some(count) = count else {
        return Err(ScheduleFault::BadItem { at });
    };
    if !is_name_bytes(name) {
        return Err(ScheduleFault::BadItem { at });
    }
    match threads_behind(threads, name) {
        Some(who) => Ok(Said { who, count }),
        None => Err(ScheduleFault::UnknownThread { at }),
    }
}

fn star_at(item: &[u8]) -> Option<usize>
    ensures { result ≡ position (λ b. b == 42) item.now }
{
    item.iter().position(|b| *b == b'*')
}

// Appends the threads once.
fn push_all(schedule: &mut Schedule, threads: &[u8]) -> Result<(), ScheduleFault>
    requires { length schedule.old ≤ most_steps }
    ensures ok { OnOk result (schedule.new ≡ schedule.old ++ threads.now) }
    ensures few { length schedule.new ≤ most_steps }
    ensures err { IsErrOf result TooManySteps → most_steps < length (schedule.old ++ threads.now) }
    ensures only { IfErr result (λ e. (e ≡ Memory) ⊎ (e ≡ TooManySteps)) }
{
    for thread in threads {
        if schedule.len() >= MOST_STEPS {
            return Err(ScheduleFault::TooManySteps);
        }
        schedule.push(*thread)?;
    }
    Ok(())
}

// Appends the threads so many times.
fn append(schedule: &mut Schedule, threads: &[u8], count: u64) -> Result<(), ScheduleFault>
    requires { length schedule.old ≤ most_steps }
    ensures ok { OnOk result (schedule.new ≡ schedule.old ++ repeated count threads.now) }
    ensures few { length schedule.new ≤ most_steps }
    ensures err { IsErrOf result TooManySteps → most_steps < length (schedule.old ++ repeated count threads.now) }
    ensures only { IfErr result (λ e. (e ≡ Memory) ⊎ (e ≡ TooManySteps)) }
{
    if threads.is_empty() {
        return Ok(());
    }
    for _ in 0..count {
        push_all(schedule, threads)?;
    }
    Ok(())
}

// The numbers of all threads but the setup.
pub fn all_threads(alloc: Global, threads: usize) -> Result<Vec<u8>, AllocError>
    requires { threads ≤ 65 }
    ensures { IfOk result (λ v. v.items ≡ range_with_len 1 (threads - 1)) }
{
    let mut all = Vec::new(alloc);
    for before in 0..threads.saturating_sub(1) {
        all.push((before + 1) as u8)?;
    }
    Ok(all)
}

// Appends the threads so many times, and tells whether the steps fit then.
fn goes_on(schedule: &mut Schedule, threads: &[u8], count: u64) -> Result<bool, AllocError>
    requires { length schedule.old ≤ most_steps }
    ensures more { IfOk result (λ fits. so_far fits schedule.new ≡ more_steps (Some schedule.old) threads.now count) }
    ensures few { length schedule.new ≤ most_steps }
{
    match append(schedule, threads, count) {
        Ok(()) => Ok(true),
        Err(ScheduleFault::TooManySteps) => Ok(false),
        Err(ScheduleFault::Memory) => Err(AllocError),
        Err(_) => unreachable!(),
    }
}

// Appends so many steps of a thread, and tells whether the steps fit then.
fn goes_on_by(schedule: &mut Schedule, thread: u8, count: u64) -> Result<bool, AllocError>
    requires { length schedule.old ≤ most_steps }
    ensures more { IfOk result (λ fits. so_far fits schedule.new ≡ more_steps (Some schedule.old) (thread ∷ []) count) }
    ensures few { length schedule.new ≤ most_steps }
{
    let room = MOST_STEPS - schedule.len();
    if count > room as u64 {
        return Ok(false);
    }
    schedule.push_run(thread, count as usize)?;
    Ok(true)
}

// Appends the steps of an item if those so far fit, and tells whether they all do.
pub fn goes_on_with(
    fits: bool,
    schedule: &mut Schedule,
    said: Said,
    all: &[u8],
) -> Result<bool, AllocError>
    requires { length schedule.old ≤ most_steps }
    ensures more { (names : ℕ) → all.now ≡ range_with_len 1 (names - 1) →
        IfOk result (λ now. so_far now schedule.new ≡ more_steps (so_far fits schedule.old) (threads_of names said.who)
        said.count) }
    ensures few { length schedule.new ≤ most_steps }
{
    if !fits {
        return Ok(false);
    }
    match said.who {
        Who::One(thread) => goes_on_by(schedule, thread, said.count),
        Who::All => goes_on(schedule, all, said.count),
    }
}

// The steps of all items of a text of version 1. Once they are too many, the other items are only looked at.
#[tactic(auto, using(crate::proofs::Steps::whole))]
fn read_steps(
    alloc: Global,
    text: &[u8],
    threads: &[ThreadProgram],
) -> Result<Schedule, ScheduleFault>
    requires { length threads.now ≤ 65 }
    ensures { Gives (λ s. s) result (capped_schedule (map thread_name threads.now) text.now) }
{
    let numbers = all_threads(alloc, threads.len())?;
    let all = numbers.as_slice();
    let table = table_of(threads);
    let mut schedule = Schedule::new(alloc);
    let mut fits = true;
    let mut at = 0;
    let mut rest = text;
    while !rest.is_empty() {
        if let Some(thread) = short_item(&table, rest) {
            fits = goes_on_once(fits, &mut schedule, thread)?;
            rest = rest.split_at(2).1;
            at += 2;
            continue;
        }
        let len = item_len(rest);
        if len == 0 {
            rest = &rest[1..];
            at += 1;
        } else {
            let (item, after) = rest.split_at(len);
            let said = read_item(at, item, threads)?;
            fits = goes_on_with(fits, &mut schedule, said, all)?;
            rest = after;
            at += len;
        }
    }
    if fits {
        Ok(schedule)
    } else {
        Err(ScheduleFault::TooManySteps)
    }
}

/// The schedule that a text names, for the threads of a program. A text whose first item is `@2` has version 2, with
/// groups in parentheses. Any other text has version 1. Refused with the first item or group of another form, or the
/// first item that names no thread. If there is none, refused with `TooManySteps` if the steps are too many.
pub fn read_schedule(
    alloc: Global,
    text: &str,
    program: &Program,
) -> Result<Schedule, ScheduleFault>
    ensures { Gives (λ s. s) result (schedule_of (thread_names program.now) text.now) }
{
    let bytes = text.as_bytes();
    let threads = program.threads.as_slice();
    match after_version(bytes) {
        Some(start) => read_groups(alloc, bytes, start, threads),
        None => read_steps(alloc, bytes, threads),
    }
}
