// Reading a text of version 2, with its groups, in one pass.

ghost use Rattle.ls_events.specs.Limits.{most_steps};
ghost use Rattle.ls_schedule.specs.Answers.{Gives, Says, more_steps, so_far, threads_of, view};
ghost use Rattle.ls_schedule.specs.Passing.{
  Passes,
  again,
  capped_item,
  fault_after,
  finished,
  group_count,
  kept_len,
  last_first,
  outer_fault,
  place_of,
  places,
  times_here,
  unclosed,
};
ghost use Rattle.ls_schedule.specs.Pieces.{ends_word, pieces};
ghost use Rattle.ls_schedule.specs.Reading.{group_schedule, thread_name};
ghost use Rattle.ls_schedule.specs.Table.{IsShort, IsTable};
ghost use Rattle.ls_schedule.specs.declared.fault.ScheduleFault.TheVariants.{BadItem};
ghost use Rattle.std.specs.List.{range_with_len};
ghost use Rattle.std.specs.Prelude.{
  ◌≡◌,
  ◌<◌,
  ◌≤◌,
  ◌+◌,
  ◌-◌,
  ◌++◌,
  ◌∷◌,
  [],
  ℕ,
  List,
  OnOk,
  drop,
  false,
  if◌then◌else◌,
  length,
  map,
  reverse,
  slice_index,
  true,
};

use crate::fault::ScheduleFault;
use crate::pieces::{begins_group, times_here, word_len};
use crate::reading::{Said, all_threads, goes_on_with, read_item};
use crate::repeating::goes_again;
use crate::table::{Table, goes_on_once, short_item, table_of};
use ls_checked::program::ThreadProgram;
use ls_events::schedule::Schedule;
use ls_items::is_gap;
use std::alloc::{AllocError, Global};

const MOST_GROUPS: usize = 8;

// A group that is open: where it begins, and how many steps stand before it (0 once they are too many).
#[derive(Copy)]
pub struct Opened {
    pub at: usize,
    pub from: usize,
}

impl Clone for Opened {
    fn clone(&self) -> Result<Opened, AllocError> {
        Ok(*self)
    }
}

// What is known at a place after a fault: how many of the groups round the fault are open, how many groups that begin
// after it, and the first fault so far.
#[derive(Copy)]
pub struct Outside {
    pub left: usize,
    pub deeper: usize,
    pub fault: ScheduleFault,
}

impl Clone for Outside {
    fn clone(&self) -> Result<Outside, AllocError> {
        Ok(*self)
    }
}

fn place_at(groups: &[Opened], index: usize) -> usize
    ensures { result ≡ place_of (places groups.now) index }
{
    match groups.get(index) {
        Some(group) => group.at,
        None => 0,
    }
}

// After the innermost of the groups round the fault.
fn outside_group(outside: Outside, groups: &[Opened], after: &[u8]) -> Outside
    requires { 0 < outside.left }
    ensures left { result.left + 1 ≡ outside.left }
    ensures deeper { result.deeper ≡ outside.deeper }
    ensures fault { result.fault ≡ fault_after 0 (place_of (places groups.now) result.left ∷ []) outside.fault
        (times_here after.now) }
{
    let left = outside.left - 1;
    match times_here(after) {
        Some(_) => Outside {
            left,
            deeper: outside.deeper,
            fault: outside.fault,
        },
        None => Outside {
            left,
            deeper: outside.deeper,
            fault: ScheduleFault::BadItem {
                at: place_at(groups, left),
            },
        },
    }
}

// After one more byte.
fn outside_after(outside: Outside, groups: &[Opened], first: u8, after: &[u8]) -> Outside
    requires left { outside.left ≤ length groups.now }
    requires deeper { outside.deeper < usize.MAX }
    ensures left { result.left ≤ outside.left }
    ensures deeper { result.deeper ≤ outside.deeper + 1 }
    ensures fault { outer_fault (last_first (places groups.now) result.left) result.deeper result.fault after.now ≡
        outer_fault (last_first (places groups.now) outside.left) outside.deeper outside.fault (first ∷ after.now) }
{
    if first == b'(' {
        return Outside {
            left: outside.left,
            deeper: outside.deeper + 1,
            fault: outside.fault,
        };
    }
    if first != b')' {
        return outside;
    }
    if outside.deeper > 0 {
        return Outside {
            left: outside.left,
            deeper: outside.deeper - 1,
            fault: outside.fault,
        };
    }
    if outside.left == 0 {
        return outside;
    }
    outside_group(outside, groups, after)
}

// At the end of the text: the outermost group that is open isn't closed.
fn fault_at_end(outside: Outside, groups: &[Opened]) -> ScheduleFault
    ensures { result ≡ unclosed (last_first (places groups.now) outside.left) outside.fault }
{
    if outside.left == 0 {
        outside.fault
    } else {
        ScheduleFault::BadItem {
            at: place_at(groups, 0),
        }
    }
}

// The first fault of a text: one that was found in these groups, the outermost first, before what follows, or that of a
// group round it, which begins earlier.
fn outermost_fault(groups: &[Opened], fault: ScheduleFault, text: &[u8]) -> ScheduleFault
    ensures { result ≡ outer_fault (last_first (places groups.now) (length groups.now)) 0 fault text.now }
{
    let mut outside = Outside {
        left: groups.len(),
        deeper: 0,
        fault,
    };
    let mut rest = text;
    'bytes: while !rest.is_empty() {
        let first = rest[0];
        let after = rest.split_at(1).1;
        outside = outside_after(outside, groups, first, after);
        rest = after;
    }
    fault_at_end(outside, groups)
}

// An item, which no group may follow without a gap.
fn read_word(
    at: usize,
    word: &[u8],
    joined: bool,
    threads: &[ThreadProgram],
) -> Result<Said, ScheduleFault>
    requires { length threads.now ≤ 65 }
    ensures { Says (view (length threads.now)) result (capped_item (map thread_name threads.now) at word.now joined) }
{
    if joined {
        return Err(ScheduleFault::BadItem { at });
    }
    read_item(at, word, threads)
}

// How often a group goes whose closing parenthesis the text follows.
fn count_of_group(filled: bool, at: usize, after: &[u8]) -> Result<u64, ScheduleFault>
    ensures { Says (λ n. n) result (group_count filled at (times_here after.now)) }
{
    match times_here(after) {
        Some(count) => filled_count(filled, at, count),
        None => Err(ScheduleFault::BadItem { at }),
    }
}

fn filled_count(filled: bool, at: usize, count: u64) -> Result<u64, ScheduleFault>
    ensures { Says (λ n. n) result (if filled then Ok count else Err (BadItem at)) }
{
    if filled {
        Ok(count)
    } else {
        Err(ScheduleFault::BadItem { at })
    }
}

// How far a text is read: the groups that are open, the outermost first; whether anything stands in the innermost, or
// in the text outside of all; and the steps so far, while they fit.
#[derive(Drop)]
pub struct Reader {
    pub open_groups: Vec<Opened>,
    pub filled: bool,
    pub fits: bool,
    pub schedule: Schedule,
}

impl Reader {
    fn new(alloc: Global) -> Reader
        ensures groups { result.open_groups.items ≡ [] }
        ensures filled { result.filled ≡ false }
        ensures fits { result.fits ≡ true }
        ensures schedule { result.schedule ≡ [] }
    {
        Reader {
            open_groups: Vec::new(alloc),
            filled: false,
            fits: true,
            schedule: Schedule::new(alloc),
        }
    }

    fn kept_len(&self) -> usize
        ensures { result ≡ kept_len (so_far self.now.fits self.now.schedule) }
    {
        if self.fits { self.schedule.len() } else { 0 }
    }

    fn open_group(&mut self, at: usize) -> Result<(), AllocError>
        requires { length self.old.schedule ≤ most_steps }
        ensures groups { OnOk result (self.new.open_groups.items ≡ self.old.open_groups.items ++
            record { at = at; from = kept_len (so_far self.old.fits self.old.schedule) } ∷ []) }
        ensures filled { OnOk result (self.new.filled ≡ false) }
        ensures steps { so_far self.new.fits self.new.schedule ≡ so_far self.old.fits self.old.schedule }
        ensures few { length self.new.schedule ≤ most_steps }
    {
        let from = self.kept_len();
        self.open_groups.push(Opened { at, from })?;
        self.filled = false;
        Ok(())
    }

    fn add_item(&mut self, said: Said, all: &[u8]) -> Result<(), AllocError>
        requires { length self.old.schedule ≤ most_steps }
        ensures groups { self.new.open_groups.items ≡ self.old.open_groups.items }
        ensures filled { OnOk result (self.new.filled ≡ true) }
        ensures steps { (names : ℕ) → all.now ≡ range_with_len 1 (names - 1) →
            OnOk result (so_far self.new.fits self.new.schedule ≡
            more_steps (so_far self.old.fits self.old.schedule) (threads_of names said.who) said.count) }
        ensures few { length self.new.schedule ≤ most_steps }
    {
        self.fits = goes_on_with(self.fits, &mut self.schedule, said, all)?;
        self.filled = true;
        Ok(())
    }

    fn close_group(&mut self, from: usize, count: u64) -> Result<(), AllocError>
        requires { length self.old.schedule ≤ most_steps }
        ensures groups { self.new.open_groups.items ≡ self.old.open_groups.items }
        ensures filled { OnOk result (self.new.filled ≡ true) }
        ensures steps { OnOk result (so_far self.new.fits self.new.schedule ≡
            again (so_far self.old.fits self.old.schedule) from count) }
        ensures few { length self.new.schedule ≤ most_steps }
    {
        self.fits = goes_again(self.fits, &mut self.schedule, from, count)?;
        self.filled = true;
        Ok(())
    }

    // A text that begins with the parenthesis of a group.
    fn pass_opening(&mut self, at: usize, text: &[u8]) -> Result<usize, ScheduleFault>
        requires some { 0 < length text.now }
        requires first { slice_index text.now 0 ≡ 40 }
        requires few { length self.old.schedule ≤ most_steps }
        ensures passes { (names : List (List ℕ)) → Passes names self.old self.new at text.now result }
        ensures few { length self.new.schedule ≤ most_steps }
    {
        if self.open_groups.len() >= MOST_GROUPS {
            let groups = self.open_groups.as_slice();
            return Err(outermost_fault(groups, ScheduleFault::BadItem { at }, text));
        }
        self.open_group(at)?;
        Ok(1)
    }

    // A text that begins with a closing parenthesis.
    fn pass_closing(&mut self, at: usize, text: &[u8]) -> Result<usize, ScheduleFault>
        requires some { 0 < length text.now }
        requires first { slice_index text.now 0 ≡ 41 }
        requires few { length self.old.schedule ≤ most_steps }
        ensures passes { (names : List (List ℕ)) → Passes names self.old self.new at text.now result }
        ensures few { length self.new.schedule ≤ most_steps }
    {
        let Some(group) = self.open_groups.pop() else {
            return Err(ScheduleFault::BadItem { at });
        };
        let after = text.split_at(1).1;
        let len = word_len(after);
        let next = after.split_at(len).1;
        match count_of_group(self.filled, group.at, after) {
            Ok(count) => {
                self.close_group(group.from, count)?;
                Ok(len + 1)
            }
            Err(fault) => Err(outermost_fault(self.open_groups.as_slice(), fault, next)),
        }
    }

    // A text that begins with a word.
    fn pass_word(
        &mut self,
        at: usize,
        text: &[u8],
        threads: &[ThreadProgram],
        all: &[u8],
    ) -> Result<usize, ScheduleFault>
        requires some { 0 < length text.now }
        requires first { ends_word (slice_index text.now 0) ≡ false }
        requires threads { length threads.now ≤ 65 }
        requires few { length self.old.schedule ≤ most_steps }
        ensures passes { all.now ≡ range_with_len 1 (length threads.now - 1) →
            Passes (map thread_name threads.now) self.old self.new at text.now result }
        ensures few { length self.new.schedule ≤ most_steps }
    {
        let len = word_len(text);
        let (word, next) = text.split_at(len);
        match read_word(at, word, begins_group(next), threads) {
            Ok(said) => {
                self.add_item(said, all)?;
                Ok(len)
            }
            Err(fault) => Err(outermost_fault(self.open_groups.as_slice(), fault, next)),
        }
    }

    // The first gap, parenthesis or word of a text: how many bytes it has.
    fn pass(
        &mut self,
        at: usize,
        text: &[u8],
        threads: &[ThreadProgram],
        all: &[u8],
    ) -> Result<usize, ScheduleFault>
        requires some { 0 < length text.now }
        requires threads { length threads.now ≤ 65 }
        requires few { length self.old.schedule ≤ most_steps }
        ensures passes { all.now ≡ range_with_len 1 (length threads.now - 1) →
            Passes (map thread_name threads.now) self.old self.new at text.now result }
        ensures few { length self.new.schedule ≤ most_steps }
    {
        let first = text[0];
        if is_gap(first) {
            return Ok(1);
        }
        if first == b'(' {
            return self.pass_opening(at, text);
        }
        if first == b')' {
            return self.pass_closing(at, text);
        }
        self.pass_word(at, text, threads, all)
    }

    // A text that begins with an item of one byte and a gap.
    #[inline(always)]
    fn pass_short(&mut self, thread: u8) -> Result<usize, ScheduleFault>
        requires { length self.old.schedule ≤ most_steps }
        ensures passes { (names : List (List ℕ)) (table : List ℕ) (at : ℕ) (text : List ℕ) → IsTable names table →
            IsShort table text thread → Passes names self.old self.new at text result }
        ensures few { length self.new.schedule ≤ most_steps }
    {
        self.fits = goes_on_once(self.fits, &mut self.schedule, thread)?;
        self.filled = true;
        Ok(2)
    }

    // The first pieces of a text: an item of one byte with a gap, or one piece.
    #[inline(always)]
    fn pass_on(
        &mut self,
        at: usize,
        text: &[u8],
        threads: &[ThreadProgram],
        all: &[u8],
        table: &Table,
    ) -> Result<usize, ScheduleFault>
        requires some { 0 < length text.now }
        requires threads { length threads.now ≤ 65 }
        requires table { IsTable (map thread_name threads.now) table.now }
        requires few { length self.old.schedule ≤ most_steps }
        ensures passes { all.now ≡ range_with_len 1 (length threads.now - 1) →
            Passes (map thread_name threads.now) self.old self.new at text.now result }
        ensures few { length self.new.schedule ≤ most_steps }
    {
        match short_item(table, text) {
            Some(thread) => self.pass_short(thread),
            None => self.pass(at, text, threads, all),
        }
    }

    fn finish(self) -> Result<Schedule, ScheduleFault>
        ensures { Gives (λ s. s) result (finished (reverse self.open_groups.items) (so_far self.fits self.schedule)) }
    {
        let Reader {
            open_groups,
            filled: _,
            fits,
            schedule,
        } = self;
        if !open_groups.is_empty() {
            return Err(ScheduleFault::BadItem {
                at: place_at(open_groups.as_slice(), 0),
            });
        }
        if fits {
            Ok(schedule)
        } else {
            Err(ScheduleFault::TooManySteps)
        }
    }
}

// The steps of a text of version 2, from a place after its `@2` on.
pub fn read_groups(
    alloc: Global,
    text: &[u8],
    start: usize,
    threads: &[ThreadProgram],
) -> Result<Schedule, ScheduleFault>
    requires start { start ≤ length text.now }
    requires threads { length threads.now ≤ 65 }
    ensures { Gives (λ s. s) result
        (group_schedule (map thread_name threads.now) (pieces start (drop start text.now))) }
{
    let numbers = all_threads(alloc, threads.len())?;
    let all = numbers.as_slice();
    let table = table_of(threads);
    let mut reader = Reader::new(alloc);
    let mut at = start;
    let mut rest = text.split_at(start).1;
    'pieces: while !rest.is_empty() {
        let len = reader.pass_on(at, rest, threads, all, &table)?;
        rest = rest.split_at(len).1;
        at += len;
    }
    reader.finish()
}
